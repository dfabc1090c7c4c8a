//! The order in which a request goes through its stages.
#![tactic(auto)]

mod event;
mod law;
mod stage;

pub use event::{Counts, Do, Event};
pub use law::stages_follow_in_order;
pub use stage::Stage;
