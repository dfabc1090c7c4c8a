//! Command tables: commands by their names, and the definitions that change them.
#![tactic(auto)]

mod command;
mod copy;
mod definition;
mod filling;
mod journal;
mod latest;
mod law;
mod renaming;
mod slots;
mod steps;
mod table;

pub use command::Cmd;
pub use copy::{append_copies, copy_def, copy_defs};
pub use definition::{Def, Defs, When};
pub use law::{
    definitions_fit_where_they_apply, marks_stay, places_are_of_commands, tables_are_maps,
};
pub use renaming::Renamed;
pub use steps::Steps;
pub use table::CmdTable;
