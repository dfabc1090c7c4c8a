//! Channels: pages that a script reads piece by piece.
#![tactic(auto)]

mod channel;
mod chans;
mod law;

pub use chans::{ChanFault, Chans};
pub use law::lines;
