//! Workers: they serve sessions on connections, run scripts that are due, and run scripts that make
//! definitions, each with an interpreter of its own that is used again, on cells that all threads share.
//!
//! What a worker writes to a connection is what an interpreter newly made from the blueprint gives that
//! the worker found after it had read the request, for that request and the answers that were recorded.
//! That no turn is taken while a script runs or bytes are read or written is in no contract: reading the
//! crate shows it. Of time, progress and fairness nothing is said.
#![tactic(auto)]

mod ask;
mod behind;
mod due;
mod eval;
mod heard;
mod item;
mod law;
mod look;
mod reply;
mod run;
mod scripts;
mod served;
mod session;
mod stock;
mod worker;

pub use due::run_due;
pub use eval::do_eval;
pub use heard::AnswerList;
pub use law::{costs_are_counted, items_are_isolated};
pub use scripts::{DueRun, EvalEnd, Evaled, Ran, RanList};
pub use served::{End, Served, ServedList, ServedOutcome, Session};
pub use session::serve_session;
pub use stock::Stock;
pub use worker::Worker;
