//! The words of the server's command line.
//!
//! `read_options` gives what the words say, or why they are refused: status 2 of the server rests on it.
//! `asked_for` tells whether they ask for the help or the version.
#![tactic(auto)]

mod command;
mod options;
mod reading;

pub use options::{Options, Refused};
pub use reading::{asked_for, read_options};
