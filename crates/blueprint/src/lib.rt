//! What was published, epoch by epoch, as an object that threads use by turns.
#![tactic(auto)]

mod blueprint;
mod definition;
mod law;
mod names;
mod object;
mod reading;
mod registration;
mod reply;
mod room;
mod script;

pub use blueprint::Blueprint;
pub use law::{
    equal_epochs_are_one_state, scripts_are_read, since_applies, since_is_added, whole_is_all,
};
pub use reading::from_script;
pub use registration::{is_filter_method, is_method, stage_named};
pub use reply::{BlueCall, BlueReply, Limit, Look, Published, ScriptFault};
pub use script::{script_of, when_name};
