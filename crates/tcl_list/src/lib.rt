//! Lists as texts: a text is split into its elements, and elements are quoted into a text.
#![tactic(auto)]

mod appending;
mod brace;
mod element;
mod fault;
mod gap;
mod law;
mod splitting;
mod writing;

pub use appending::{append_elements, elements_behind};
pub use fault::ListFault;
pub use law::{one_answer, one_listing, one_writing, quote_splits};
pub use splitting::split;
pub use writing::quote;
