//! One object of any type, which threads use by turns.
//!
//! An object has the trait `Obj`: a step from a state and a call to a reply and a state, an order of
//! states and the states that its type allows. `TurnCell` keeps one, and each thread uses it through
//! a `Pass`. For every object, every number of passes and every schedule, all turns stand in one
//! legal history, and each pass knows its own turns in it and a state that is no newer than the one
//! its next turn finds.
//!
//! A call that takes `rt` may wait for other threads; nothing here speaks of progress, fairness or
//! time. The functions `rule_says`, `chain_laws`, `join_laws` and `entry_laws` do nothing: their contracts
//! say what the definitions mean.
#![tactic(auto)]

mod cell;
mod laws;
mod object;
mod rule;
mod view;

pub use cell::{Pass, TurnCell, Turned};
pub use laws::{chain_laws, entry_laws, join_laws, rule_says};
pub use object::Obj;
pub use view::{Entry, View};
