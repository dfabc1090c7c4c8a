//! The variables of an interpreter: scalars and arrays in frames, of which the lowest is global.
#![tactic(auto)]

mod base;
mod dictionary;
mod fault;
mod few;
mod found;
mod frame;
mod frames;
mod globals;
mod journal;
mod keep;
mod law;
mod name;
mod table;
mod variable;

pub use fault::{VarFault, variable_fault};
pub use frames::Frames;
pub use law::{base_scalars_stand, changes_of_variables, meaning_of_names};
pub use name::is_element_name;
