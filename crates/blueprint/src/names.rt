//! The names that are commands now.

ghost use Rattle.std.specs.Prelude.{◌≡◌, List, ◌++◌, None, IfOk, OnOk};
ghost use Rattle.std.specs.List.{list_any};
ghost use Rattle.txt_core.specs.Names.{Bytes, Names as NameList};
ghost use Rattle.cmd_table.specs.Table.{Table, IsInOrder};
ghost use Rattle.cmd_table.specs.Renaming.{rename_answer, renamed};
ghost use Rattle.cmd_table.specs.Commands.{Commands, defined, fits, is_done};
ghost use Rattle.blueprint.specs.States.{first_misfit};

use cmd_table::{Def, tables_are_maps};
use std::alloc::Global;
use std::collections::BTreeMap;
use tcl_frame::is_element_name;
use txt_core::{NoMemory, Text};

/// A change of a name: whether it was a command before.
#[derive(Debug, Drop)]
pub(crate) struct Row {
    name: Text,
    before: bool,
}

/// The changes that were made, the first one first.
pub(crate) type Journal = Vec<Row>;

/// The names that are commands, in an ordered map: a name that was one keeps its place, so that it can
/// be one again without memory.
#[derive(Debug, Drop)]
pub(crate) struct Names {
    alloc: Global,
    slots: BTreeMap<Text, bool>,
}

impl Names {
    ghost use Rattle.blueprint.specs.Kept.{is_there, with_name, undone, HavePlaces, HasPlace, HasSamePast, KeepsPlaces, AreCommands, same_name};

    /// These names.
    pub fn new(alloc: Global, names: &[Text]) -> Result<Names, NoMemory>
        ensures { IfOk result (λ made.
            (q : Bytes) → is_there made.slots q ≡ list_any (λ name. same_name name q) names.now) }
    {
        let mut slots = BTreeMap::new(alloc);
        for name in names {
            slots.insert(name.copy(alloc)?, true)?;
        }
        Ok(Names { alloc, slots })
    }

    /// Whether a name is a command.
    fn has(&self, name: &Text) -> bool
        ensures { result ≡ is_there self.now.slots name.now }
    {
        match self.slots.get(name) {
            Some(there) => *there,
            None => false,
        }
    }

    /// Makes a name a command or none, and notes what it was. Where memory wants, nothing changes.
    fn set(&mut self, journal: &mut Journal, name: &Text, there: bool) -> Result<(), NoMemory>
        ensures there { OnOk result
            ((q : Bytes)
            → is_there self.new.slots q ≡ with_name name.now there (is_there self.old.slots) q) }
        ensures past { HasSamePast self.old.slots journal.old.items self.new.slots
            journal.new.items }
        ensures places { KeepsPlaces self.old.slots journal.old.items self.new.slots
            journal.new.items }
    {
        let before = self.has(name);
        let noted = name.copy(self.alloc)?;
        let key = name.copy(self.alloc)?;
        journal.reserve(1)?;
        self.slots.insert(key, there)?;
        journal.push_reserved(Row {
            name: noted,
            before,
        });
        Ok(())
    }

    /// Takes all changes back. It takes no memory.
    pub fn take_back(&mut self, mut journal: Journal)
        requires { HavePlaces self.old.slots journal.items }
        ensures { (q : Bytes)
            → is_there self.new.slots q ≡ undone journal.items (is_there self.old.slots) q }
    {
        while let Some(row) = journal.pop() {
            self.put_back(row);
        }
    }

    /// Makes a name that has its place what it was.
    fn put_back(&mut self, row: Row)
        requires { HasPlace self.old.slots row }
        ensures there { (q : Bytes)
            → is_there self.new.slots q
            ≡ with_name row.name row.before (is_there self.old.slots) q }
        ensures places { (other : Row) → HasPlace self.old.slots other
            → HasPlace self.new.slots other }
    {
        let Row { name, before } = row;
        if let Some(there) = self.slots.get_mut(&name) {
            *there = before;
        }
    }

    /// Renames a command, and tells whether that applies.
    fn rename(&mut self, journal: &mut Journal, old: &Text, new: &Text) -> Result<bool, NoMemory>
        ensures fits { (table : Table) → AreCommands self.old.slots table
            → IfOk result (λ applies. applies ≡ is_done (rename_answer table old.now new.now)) }
        ensures made { (table : Table) → IsInOrder table → AreCommands self.old.slots table
            → OnOk result (AreCommands self.new.slots (renamed table old.now new.now)) }
        ensures past { HasSamePast self.old.slots journal.old.items self.new.slots
            journal.new.items }
        ensures places { KeepsPlaces self.old.slots journal.old.items self.new.slots
            journal.new.items }
    {
        tables_are_maps();
        if !self.has(old) {
            return Ok(false);
        }
        if new.is_empty() {
            self.set(journal, old, false)?;
            return Ok(true);
        }
        if self.has(new) {
            return Ok(false);
        }
        self.set(journal, old, false)?;
        self.set(journal, new, true)?;
        Ok(true)
    }

    /// Makes a definition, and tells whether it applies.
    fn apply(&mut self, journal: &mut Journal, def: &Def) -> Result<bool, NoMemory>
        ensures fits { (table : Table) → AreCommands self.old.slots table
            → IfOk result (λ applies. applies ≡ fits table def.now) }
        ensures made { (table : Table) → IsInOrder table → AreCommands self.old.slots table
            → OnOk result (AreCommands self.new.slots (defined table def.now)) }
        ensures past { HasSamePast self.old.slots journal.old.items self.new.slots
            journal.new.items }
        ensures places { KeepsPlaces self.old.slots journal.old.items self.new.slots
            journal.new.items }
    {
        tables_are_maps();
        match def {
            Def::Proc { name, .. } => {
                self.set(journal, name, true)?;
                Ok(true)
            }
            Def::Rename { old, new } => self.rename(journal, old, new),
            Def::Set { name, .. } => Ok(!is_element_name(name)),
            Def::Route { .. } | Def::Filter { .. } | Def::Cleanup { .. } => Ok(true),
        }
    }

    /// Makes definitions one after the other, up to the first that doesn't apply, and gives the place of
    /// that; `None` where each applies.
    pub fn find_misfit(
        &mut self,
        journal: &mut Journal,
        defs: &[Def],
    ) -> Result<Option<usize>, NoMemory>
        ensures place { (natives : NameList) → (before : List Def)
            → AreCommands self.old.slots (Commands natives before)
            → IfOk result (λ place. place ≡ first_misfit (Commands natives before) defs.now) }
        ensures made { (natives : NameList) → (before : List Def)
            → AreCommands self.old.slots (Commands natives before)
            → IfOk result (λ place.
            place ≡ None → AreCommands self.new.slots (Commands natives (before ++ defs.now))) }
        ensures past { HasSamePast self.old.slots journal.old.items self.new.slots
            journal.new.items }
        ensures places { KeepsPlaces self.old.slots journal.old.items self.new.slots
            journal.new.items }
    {
        tables_are_maps();
        'defs: for (place, def) in defs.iter().enumerate() {
            if !self.apply(journal, def)? {
                return Ok(Some(place));
            }
        }
        Ok(None)
    }
}
