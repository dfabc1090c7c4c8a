//! Variables with their names, in a list that is searched from its front.

ghost use Rattle.std.specs.Prelude.{◌≡◌, find, position};
ghost use Rattle.std.specs.Option.{option_copied};
ghost use Rattle.tcl_frame.specs.Few.{is_named};

use crate::variable::Variable;
use txt_core::{Text, same_bytes};

/// A variable with its name.
#[derive(Debug, Drop)]
pub struct Entry {
    pub name: Text,
    pub variable: Variable,
}

impl Entry {
    /// Whether the variable has this name. Names of different lengths are told apart without a look at
    /// their bytes.
    pub fn is_named(&self, name: &[u8]) -> bool
        ensures { result ≡ is_named name.now self.now }
    {
        same_bytes(name, self.name.bytes())
    }
}

/// The first variable of this name.
pub fn find_entry<'a>(few: &'a [Entry], name: &[u8]) -> Option<&'a Entry>
    ensures { option_copied result ≡ find (is_named name.now) few.now }
{
    few.iter().find(|entry| entry.is_named(name))
}

/// The place of the first variable of this name.
pub fn place_of(few: &[Entry], name: &[u8]) -> Option<usize>
    ensures { result ≡ position (is_named name.now) few.now }
{
    few.iter().position(|entry| entry.is_named(name))
}
