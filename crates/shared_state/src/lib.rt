//! All that threads share, as one: the blueprint, the shared arrays and the schedule, each in cells of
//! its own.
//!
//! Contracts see of the passes what each knows of its cell, and say the same of every cell. Of each cell
//! there is one legal history of its turns, from the opening to the end.
#![tactic(auto)]

mod law;
mod shared;

pub use law::arrays_are_lines;
pub use shared::{Finals, Passes, Shared};
