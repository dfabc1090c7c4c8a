//! Sets: named lists of fields that a script makes and changes.
#![tactic(auto)]

mod fault;
mod fields;
mod law;
mod matching;
mod set;
mod sets;
mod slot;

pub use fault::SetFault;
pub use law::merging;
pub use sets::Sets;
