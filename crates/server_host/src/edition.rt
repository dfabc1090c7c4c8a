//! The blueprint that a run is on.

ghost use Rattle.std.specs.Prelude.{◌≡◌, OnOk, OnErr};
ghost use Rattle.server_host.specs.Hosts.{added};

use cmd_table::{Defs, append_copies};
use std::alloc::Global;
use txt_core::NoMemory;

/// The blueprint that a run is on: its epoch, and its definitions then. It is extended while it has one
/// owner; then an interpreter and its host share it.
#[derive(Debug, Drop)]
pub struct Edition {
    pub epoch: u64,
    pub defs: Defs,
}

impl Edition {
    /// Adds definitions, with which the blueprint has this epoch. Its only error is want of memory, and
    /// nothing is changed then.
    pub fn add(&mut self, alloc: Global, epoch: u64, defs: &Defs) -> Result<(), NoMemory>
        ensures ok { OnOk result (self.new ≡ added self.old epoch defs.now) }
        ensures err { OnErr result (self.new ≡ self.old) }
    {
        let standing = self.defs.len();
        match append_copies(alloc, &mut self.defs, defs.as_slice()) {
            Ok(()) => {
                self.epoch = epoch;
                Ok(())
            }
            Err(NoMemory) => {
                self.defs.truncate(standing);
                Err(NoMemory)
            }
        }
    }
}
