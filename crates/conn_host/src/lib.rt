//! What a script sees of its connection: the request, the sets and channels that it makes, and the
//! response that it gives.
#![tactic(auto)]

mod answering;
mod authorization;
mod channel;
mod checks;
mod conn;
mod conn_verb;
mod encoding;
mod error;
mod form;
mod host;
mod id;
mod requested;
mod responding;
mod set_field;
mod set_verb;
mod setting;
mod verb;

pub use authorization::{Credentials, credentials_of};
pub use host::ConnHost;
pub use requested::path;
