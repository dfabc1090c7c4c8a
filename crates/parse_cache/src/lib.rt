//! Scripts that were read are kept: by their texts in a cache, and beside the one text of a loop.
#![tactic(auto)]

mod cache;
mod read_script;
mod reading;

pub use cache::{Cache, MOST_SCRIPTS};
pub use read_script::ReadScript;
pub use reading::Reading;
