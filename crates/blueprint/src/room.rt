//! Whether definitions can be put behind others.

ghost use Rattle.std.specs.Prelude.{◌≡◌, ◌≤◌, ◌++◌, List, length, OnOk};
ghost use Rattle.txt_core.specs.Names.{Bytes, Names as NameList};
ghost use Rattle.cmd_table.specs.declared.definition.Def.{Def};
ghost use Rattle.cmd_table.specs.Commands.{Commands};
ghost use Rattle.blueprint.specs.Scripts.{script_of};
ghost use Rattle.blueprint.specs.States.{most_definitions, most_script};
ghost use Rattle.blueprint.specs.Publishing.{answer, by_room};
ghost use Rattle.blueprint.specs.Kept.{AreCommands, HasSamePast, KeepsPlaces, IsChecked};

use crate::names::{Journal, Names};
use crate::reply::{Limit, Published};
use crate::script::script_of;
use cmd_table::Defs;
use std::alloc::Global;
use txt_core::NoMemory;

/// The most definitions that a blueprint holds.
const MOST_DEFINITIONS: usize = 10_000;

/// The most bytes of script that it holds.
const MOST_SCRIPT: usize = 4_194_304;

/// How much stands already, behind which definitions are to be put.
#[derive(Clone, Copy)]
pub(crate) struct Room {
    pub epoch: u64,
    pub count: usize,
    pub size: usize,
}

impl Room {
    /// How much there is with further definitions, or why they are refused: by the first of them that
    /// doesn't apply behind the others, then by their number or the epoch, then by their bytes.
    pub fn check(
        self,
        alloc: Global,
        names: &mut Names,
        journal: &mut Journal,
        defs: &Defs,
    ) -> Result<Room, Published>
        requires count { self.count ≤ most_definitions }
        requires size { self.size ≤ most_script }
        ensures answer { (natives : NameList) → (before : List Def)
            → AreCommands names.old.slots (Commands natives before)
            → self.count ≡ length before → self.size ≡ length (script_of before)
            → IsChecked (answer natives self.epoch before defs.now) self.epoch (before ++ defs.now)
            result }
        ensures made { (natives : NameList) → (before : List Def)
            → AreCommands names.old.slots (Commands natives before)
            → OnOk result (AreCommands names.new.slots (Commands natives (before ++ defs.now))) }
        ensures past { HasSamePast names.old.slots journal.old.items names.new.slots
            journal.new.items }
        ensures places { KeepsPlaces names.old.slots journal.old.items names.new.slots
            journal.new.items }
    {
        match names.find_misfit(journal, defs.as_slice()) {
            Err(NoMemory) => Err(Published::NoMemory),
            Ok(Some(place)) => Err(Published::NotApplicable(place as u64)),
            Ok(None) => self.measure(alloc, defs),
        }
    }

    /// The same for definitions that apply.
    fn measure(self, alloc: Global, defs: &Defs) -> Result<Room, Published>
        requires count { self.count ≤ most_definitions }
        requires size { self.size ≤ most_script }
        ensures { (before : List Def) → self.count ≡ length before
            → self.size ≡ length (script_of before)
            → IsChecked (by_room self.epoch (before ++ defs.now)) self.epoch (before ++ defs.now)
            result }
    {
        if defs.len() > MOST_DEFINITIONS - self.count || self.epoch == u64::MAX {
            return Err(Published::Full(Limit::Count));
        }
        let Ok(script) = script_of(alloc, defs) else {
            return Err(Published::NoMemory);
        };
        if script.len() > MOST_SCRIPT - self.size {
            return Err(Published::Full(Limit::Bytes));
        }
        Ok(Room {
            epoch: self.epoch + 1,
            count: self.count + defs.len(),
            size: self.size + script.len(),
        })
    }
}
