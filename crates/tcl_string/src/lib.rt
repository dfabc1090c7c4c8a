//! Commands on texts: `string`, `format`, `split` and `join`.
#![tactic(auto)]

mod argument;
mod byte_set;
mod cutting;
mod filling;
mod formatting;
mod joining;
mod output;
mod part;
mod pattern;
mod question;
mod repeating;
mod searching;
mod string;
mod trimming;

pub use cutting::split_command;
pub use formatting::format_command;
pub use joining::join_command;
pub use string::string_command;
