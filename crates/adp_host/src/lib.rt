//! What scripts see of the pages that they stand in: what the pages put out, the pages that they
//! include, their arguments, and the ways to leave them.
#![tactic(auto)]

mod answering;
mod arguments;
mod checks;
mod host;
mod including;
mod leaving;
mod output;
mod verb;

pub use host::AdpHost;
