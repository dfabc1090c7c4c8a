//! The commands on lists: each is a function of its words alone.
#![tactic(auto)]

mod changing;
mod concat;
mod elements;
mod options;
mod reading;
mod searching;
mod sorting;

pub use changing::{linsert_command, lreplace_command};
pub use concat::concat_command;
pub use reading::{lindex_command, list_command, llength_command, lrange_command};
pub use searching::lsearch_command;
pub use sorting::lsort_command;
