//! The shared arrays of all threads: the eight buckets, each in a cell of its own.
//!
//! A question is one turn on the cell of its bucket. Of the turns of each bucket there is one legal
//! history, and contracts see of a pass what it knows of each of them.
#![tactic(auto)]

mod cell;
mod nsv;

pub use nsv::{Nsv, NsvPass, NsvTurn};
