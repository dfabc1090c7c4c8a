//! Scripts: their grammar, the tree that a text spells, and its one fault where it spells none.
#![tactic(auto)]

mod brace;
mod fault;
mod gap;
mod law;
mod name;
mod piece;
mod reading;
mod step;
mod tree;

pub use fault::{Fault, Kind, ParseFault};
pub use law::{canonical_tree, one_answer, one_reading, passed_over};
pub use reading::{parse, read_enclosed, read_substitution};
pub use tree::{Command, Piece, Script, Word};
