//! Writing responses.
//!
//! The bytes of a response are one definition; what goes to a sink are exactly these, or their front
//! up to the sink's fault.
#![tactic(auto)]

mod date;
mod delivery;
mod fields;
mod head;
mod lines;
mod replies;
mod response;
mod shared;
pub mod status;

pub use date::fixdate;
pub use delivery::{Writer, Wrote, write_response};
pub use head::response_bytes;
pub use lines::head_is_in_lines;
pub use outside::Sent;
pub use replies::{plain, reply_busy, reply_no_memory, text_reply};
pub use response::Response;
pub use shared::SharedResponse;
