//! The running server: options, a start script, and then connections that workers serve and scripts that
//! are due, until the net has ended or as many connections were given as were asked for.
//!
//! `run_serve` says of each status its cause. That each connection is served, or told that the server is
//! busy, and that scripts are looked for again and again, is in no clause: it isn't seen when a run has
//! ended. Tests show it.
#![tactic(auto)]

mod counted;
mod crew;
mod ended;
mod running;
mod start;

pub use ended::{BAD_WORDS, Ended, OUT_OF_MEMORY, StartFault};
pub use running::run_serve;
