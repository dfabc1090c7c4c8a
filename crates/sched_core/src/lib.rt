//! The schedule: scripts that are due at moments, as an object that threads use by turns.
#![tactic(auto)]

mod asking;
mod call;
mod due;
mod law;
mod plan;
mod schedule;

pub use asking::{is_once_option, is_period};
pub use call::{DueList, DueScript, SchedCall, SchedReply};
pub use law::steps_are_determined;
pub use schedule::Schedule;
