//! The commands on variables.
#![tactic(auto)]

mod array;
mod command;
mod flow;
mod message;
mod names;
mod part;
mod room;
mod scalar;
mod value;
mod variable;

pub use command::is_var_command;
pub use flow::var_command;
