//! The reading of requests: what an input is, decided as a whole, over any source in any pieces.
#![tactic(auto)]

mod body;
mod boxed;
mod carry;
mod checks;
mod chunk;
mod chunk_line;
mod fields;
mod head;
mod law;
mod reading;
mod request;
mod status;
mod target;
mod trailer;

pub use boxed::BoxedRequest;
pub use carry::Carry;
pub use head::{FIELD_ROOM, Front, HEAD_LIMIT, find_head};
pub use law::bad_at_the_first_byte;
pub use reading::read_request;
pub use request::{Got, Request};
