//! A set by itself.

ghost use Rattle.std.specs.Prelude.{◌≡◌, IfOk};

use crate::fields::Fields;
use std::alloc::Global;
use txt_core::{NoMemory, Text};

/// A name and fields.
#[derive(Debug, Drop)]
pub struct Set {
    pub name: Text,
    pub fields: Fields,
}

impl Set {
    /// A set of the same name and fields.
    pub fn copied(&self, alloc: Global) -> Result<Set, NoMemory>
        ensures { IfOk result (λ set. set ≡ self.now) }
    {
        Ok(Set {
            name: self.name.copy(alloc)?,
            fields: self.fields.copied(alloc)?,
        })
    }
}
