//! The commands of the server, as one host of a run: those of its connection and of its pages, and
//! here those of definitions and interpreters, of the schedule and of shared arrays.
#![tactic(auto)]

mod answering;
mod checks;
mod edition;
mod gathering;
mod host;
mod ictl_verb;
mod interpreting;
mod kind;
mod law;
mod registering;
mod reply;
mod scheduling;
mod sharing;
mod verb;

pub use edition::Edition;
pub use host::RunHost;
pub use kind::Kind;
pub use law::{asked_names_are_questions, names_have_doers, no_other_is_done};
