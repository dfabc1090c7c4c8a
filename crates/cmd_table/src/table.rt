//! The command table of an interpreter.

ghost use Rattle.std.specs.Prelude.{◌≡◌, ◌↔◌, ◌≤◌, ◌<◌, ◌+◌, ◌||◌, IfOk, OnOk, OnErr, IsSome, IsTrue, [], None, Some, length};
ghost use Rattle.std.specs.Option.{option_copied, is_some};
ghost use Rattle.cmd_table.specs.Table.{command_of, with_command, without_command, names_of, IsInOrder, changed, mark_of, back_at, Keeps};
ghost use Rattle.cmd_table.specs.Places.{has_command, placed};
ghost use Rattle.cmd_table.specs.Renaming.{rename_answer, renamed, renaming_steps};
ghost use Rattle.cmd_table.specs.Slots.{with_option};
ghost use Rattle.cmd_table.specs.Commands.{built_ins, built, defined, fits, Applies, writes, writes_at};
ghost use Rattle.natives.specs.Names.{names_of as native_names};

use crate::command::Cmd;
use crate::copy::{copy_cmd, copy_to_share};
use crate::definition::Def;
use crate::filling::{fill_built_ins, fill_natives, no_slots};
use crate::journal::{Journal, change, take_back};
use crate::latest::{Latest, find_latest, forget, is_own, put_latest};
use crate::renaming::Renamed;
use crate::slots::{Slots, find, present_names};
use crate::steps::Steps;
use natives::{Natives, Places};
use std::alloc::Global;
use std::marker::Model;
use std::sync::ledger::Ledger;
use tcl_frame::is_element_name;
use txt_core::{NoMemory, Text, Words};

/// How many bytes a name has at most that is noted where it is looked up.
const MOST_NOTED: usize = 64;

/// Commands by their names: a finite map that can be taken back to what it was at a mark. Contracts
/// see it as the names with their commands, in the order of the names, beside what they were before
/// each change since the table was made.
///
/// Each entry that is written or removed is one step.
#[derive(Debug, Drop)]
pub struct CmdTable {
    alloc: Global,
    slots: Slots,
    journal: Journal,
    latest: Latest,
}

impl Model for CmdTable {
    ghost use Rattle.cmd_table.specs.Table.{State};
    ghost use Rattle.cmd_table.specs.Slots.{present, AreInOrder};
    ghost use Rattle.cmd_table.specs.Journal.{past_of, ArePlaced};
    ghost use Rattle.cmd_table.specs.Latest.{AreLatest};

    ghost Value = { State };

    ghost view = { λ a. record { past = past_of a.journal.items a.slots.entries; table = present a.slots.entries } };

    ghost invariant = { λ a. AreInOrder a.slots.entries
        × ArePlaced a.journal.items a.slots.entries
        × AreLatest (present a.slots.entries) a.latest };
}

impl CmdTable {
    /// The table of the built-in names, those of the natives among them: each has its built-in, and
    /// no other name a command. Each name is one step, which can't be taken back. Its only error is
    /// want of memory, and no more steps were then counted than there are names.
    #[tactic(auto, using(crate::proofs::Latests::none_latest))]
    pub fn new<L: Ledger>(
        alloc: Global,
        natives: &Natives,
        steps: &mut Steps<L>,
    ) -> Result<CmdTable, NoMemory>
        ensures table { IfOk result (λ made. made.table ≡ built (native_names natives.now)) }
        ensures past { IfOk result (λ made. made.past ≡ []) }
        ensures steps { OnOk result
            (steps.new ≡ steps.old + (length built_ins + length (native_names natives.now))) }
        ensures least { steps.old ≤ steps.new }
        ensures most { steps.new ≤ steps.old +
            (length built_ins + length (native_names natives.now)) }
    {
        let mut slots = no_slots(alloc);
        fill_built_ins(alloc, &mut slots, steps)?;
        fill_natives(alloc, &mut slots, natives, steps)?;
        Ok(CmdTable {
            alloc,
            slots,
            journal: Vec::new(alloc),
            latest: Places::new(alloc),
        })
    }

    /// The command of a name; `None` exactly where the table hasn't the name.
    pub fn get(&self, name: &Text) -> Option<&Cmd>
        ensures { option_copied result ≡ command_of self.now.table name.now }
    {
        match find_latest(&self.latest, name) {
            Some(looked) => looked.cmd.as_ref(),
            None => find(&self.slots, name),
        }
    }

    /// Notes that a name is looked up, which may have no command, so that `get` and `is_own` find it
    /// soon until it changes. Contracts see nothing of it; where memory wants, nothing is noted, nor is a
    /// name of more than 64 bytes.
    pub fn note(&mut self, name: &Text)
        ensures { self.new ≡ self.old }
    {
        if find_latest(&self.latest, name).is_some() {
            return;
        }
        if name.len() > MOST_NOTED {
            return;
        }
        let found = find(&self.slots, name);
        let _noted = put_latest(self.alloc, &mut self.latest, name, found);
    }

    /// Whether a name stands for the built-in of this very name. It notes the name, as `note` does, and
    /// looks for it once.
    pub fn is_own(&mut self, name: &Text) -> bool
        ensures own { IsTrue result
            ↔ (command_of self.old.table name.now ≡ Some (Cmd.Built name.now)) }
        ensures same { self.new ≡ self.old }
    {
        if let Some(looked) = find_latest(&self.latest, name) {
            return looked.own;
        }
        self.note(name);
        is_own(self.get(name), name)
    }

    /// The names, each once and in byte order. Its only error is want of memory.
    pub fn names(&self) -> Result<Words, NoMemory>
        ensures names { IfOk result (λ names. names ≡ names_of self.now.table) }
        ensures ordered { IsInOrder self.now.table }
    {
        present_names(self.alloc, &self.slots)
    }

    /// How many names have a place in the table: those that have a command, and those that had one
    /// before a change that can still be taken back. It takes no memory. So a table that was taken
    /// back to a mark has as many as at the mark.
    pub fn slots(&self) -> usize
        ensures { result ≡ length (placed self.now) }
    {
        self.slots.len()
    }

    /// The mark to which the table can be taken back from now on (`undo`). It takes no memory.
    pub fn mark(&self) -> u64
        ensures { result ≡ mark_of self.now }
    {
        self.journal.len() as u64
    }

    /// Takes the table back to what it was at a mark: one step for each entry that was written or
    /// removed since then. It takes no memory, and can't be refused. The condition is that the mark
    /// is of this table and not of a later state than it has now.
    pub fn undo<L: Ledger>(&mut self, mark: u64, steps: &mut Steps<L>)
        requires { mark ≤ mark_of self.old }
        ensures table { self.new ≡ back_at self.old mark }
        ensures steps { steps.new + mark ≡ steps.old + mark_of self.old }
    {
        'changes: while self.mark() > mark {
            self.take_back();
            steps.tick();
        }
    }

    /// Takes the last change back.
    #[tactic(auto, using(crate::proofs::Latests::none_latest))]
    fn take_back(&mut self)
        requires { 0 < mark_of self.old }
        ensures { self.old ≡ changed self.new self.old.table }
    {
        self.latest.clear();
        take_back(&mut self.slots, &mut self.journal);
    }

    /// Gives a name this command, or takes the one away that it has.
    fn change(&mut self, name: Text, cmd: Option<Cmd>) -> Result<(), NoMemory>
        requires { IsTrue (is_some cmd || has_command self.old.table name) }
        ensures ok { OnOk result
            (self.new ≡ changed self.old (with_option self.old.table name cmd)) }
        ensures err { OnErr result (self.new ≡ self.old) }
    {
        forget(&mut self.latest, &name);
        change(self.alloc, &mut self.slots, &mut self.journal, name, cmd)
    }

    /// Gives a name this command, whatever it had before. That is one step. Where memory wants, the
    /// table and the steps are as they were.
    pub fn put<L: Ledger>(
        &mut self,
        name: Text,
        cmd: Cmd,
        steps: &mut Steps<L>,
    ) -> Result<(), NoMemory>
        ensures table { OnOk result (self.new.table ≡ with_command self.old.table name cmd) }
        ensures steps { OnOk result (steps.new ≡ steps.old + 1) }
        ensures err { OnErr result ((self.new ≡ self.old) × (steps.new ≡ steps.old)) }
        ensures keeps { Keeps self.old self.new }
        ensures marks { steps.new + mark_of self.old ≡ steps.old + mark_of self.new }
    {
        self.change(name, Some(cmd))?;
        steps.tick();
        Ok(())
    }

    /// Calls the command `old` from now on `new`, or removes it where `new` is empty. `NoOld` comes
    /// exactly where `old` is no command, else `NewExists` exactly where `new` isn't empty and is a
    /// command; these change nothing. A rename is two steps, and a removal one. Where memory wants,
    /// the table and the steps are as they were.
    pub fn rename<L: Ledger>(
        &mut self,
        old: &Text,
        new: &Text,
        steps: &mut Steps<L>,
    ) -> Result<Renamed, NoMemory>
        ensures answer { IfOk result (λ answer.
            answer ≡ rename_answer self.old.table old.now new.now) }
        ensures table { OnOk result (self.new.table ≡ renamed self.old.table old.now new.now) }
        ensures steps { IfOk result (λ answer.
            steps.new ≡ steps.old + renaming_steps answer new.now) }
        ensures err { OnErr result ((self.new ≡ self.old) × (steps.new ≡ steps.old)) }
        ensures keeps { Keeps self.old self.new }
        ensures marks { steps.new + mark_of self.old ≡ steps.old + mark_of self.new }
    {
        if self.get(old).is_none() {
            return Ok(Renamed::NoOld);
        }
        if new.is_empty() {
            self.remove(old, steps)?;
            return Ok(Renamed::Done);
        }
        if self.get(new).is_some() {
            return Ok(Renamed::NewExists);
        }
        self.move_to(old, new, steps)?;
        Ok(Renamed::Done)
    }

    /// Makes a definition that applies. Where memory wants, the table and the steps are as they were.
    pub fn apply<L: Ledger>(&mut self, def: &Def, steps: &mut Steps<L>) -> Result<(), NoMemory>
        requires { Applies self.old.table def.now }
        ensures table { OnOk result (self.new.table ≡ defined self.old.table def.now) }
        ensures steps { OnOk result (steps.new ≡ steps.old + writes def.now) }
        ensures err { OnErr result ((self.new ≡ self.old) × (steps.new ≡ steps.old)) }
        ensures keeps { Keeps self.old self.new }
        ensures marks { steps.new + mark_of self.old ≡ steps.old + mark_of self.new }
    {
        self.try_apply(def, steps)?;
        Ok(())
    }

    /// Makes a definition where it applies, and tells whether it does. One that doesn't changes
    /// nothing. A definition that is neither a procedure nor a rename leaves the table as it is. Where
    /// memory wants, the table and the steps are as they were.
    pub fn try_apply<L: Ledger>(
        &mut self,
        def: &Def,
        steps: &mut Steps<L>,
    ) -> Result<bool, NoMemory>
        ensures applies { IfOk result (λ applies. applies ≡ fits self.old.table def.now) }
        ensures table { OnOk result (self.new.table ≡ defined self.old.table def.now) }
        ensures steps { OnOk result (steps.new ≡ steps.old + writes_at self.old.table def.now) }
        ensures err { OnErr result ((self.new ≡ self.old) × (steps.new ≡ steps.old)) }
        ensures keeps { Keeps self.old self.new }
        ensures marks { steps.new + mark_of self.old ≡ steps.old + mark_of self.new }
    {
        match def {
            Def::Proc { name, params, body } => {
                self.define(name, params, body, steps)?;
                Ok(true)
            }
            Def::Rename { old, new } => match self.rename(old, new, steps)? {
                Renamed::Done => Ok(true),
                Renamed::NoOld | Renamed::NewExists => Ok(false),
            },
            Def::Set { name, value: _ } => Ok(!is_element_name(name)),
            Def::Route { .. } | Def::Filter { .. } | Def::Cleanup { .. } => Ok(true),
        }
    }

    /// Gives a name a procedure, of which copies are cheap, and which is found soon.
    fn define<L: Ledger>(
        &mut self,
        name: &Text,
        params: &Text,
        body: &Text,
        steps: &mut Steps<L>,
    ) -> Result<(), NoMemory>
        ensures table { OnOk result
            (self.new.table ≡ with_command self.old.table name.now (Cmd.Proc params.now body.now)) }
        ensures steps { OnOk result (steps.new ≡ steps.old + 1) }
        ensures err { OnErr result ((self.new ≡ self.old) × (steps.new ≡ steps.old)) }
        ensures keeps { Keeps self.old self.new }
        ensures marks { steps.new + mark_of self.old ≡ steps.old + mark_of self.new }
    {
        let key = name.copy(self.alloc)?;
        let params = copy_to_share(self.alloc, params)?;
        let body = copy_to_share(self.alloc, body)?;
        self.put(key, Cmd::Proc { params, body }, steps)?;
        self.note(name);
        Ok(())
    }

    /// Removes a name.
    fn remove<L: Ledger>(&mut self, name: &Text, steps: &mut Steps<L>) -> Result<(), NoMemory>
        requires { IsSome (command_of self.old.table name.now) }
        ensures table { OnOk result (self.new.table ≡ without_command self.old.table name.now) }
        ensures steps { OnOk result (steps.new ≡ steps.old + 1) }
        ensures err { OnErr result ((self.new ≡ self.old) × (steps.new ≡ steps.old)) }
        ensures keeps { Keeps self.old self.new }
        ensures marks { steps.new + mark_of self.old ≡ steps.old + mark_of self.new }
    {
        let name = name.copy(self.alloc)?;
        self.change(name, None)?;
        steps.tick();
        Ok(())
    }

    /// Moves the command of a name to another name, in two changes, or in none where memory wants.
    fn move_to<L: Ledger>(
        &mut self,
        old: &Text,
        new: &Text,
        steps: &mut Steps<L>,
    ) -> Result<(), NoMemory>
        requires { IsSome (command_of self.old.table old.now) }
        ensures table { OnOk result
            (self.new.table
            ≡ with_option (without_command self.old.table old.now) new.now
            (command_of self.old.table old.now)) }
        ensures steps { OnOk result (steps.new ≡ steps.old + 2) }
        ensures err { OnErr result ((self.new ≡ self.old) × (steps.new ≡ steps.old)) }
        ensures keeps { Keeps self.old self.new }
        ensures marks { steps.new + mark_of self.old ≡ steps.old + mark_of self.new }
    {
        let alloc = self.alloc;
        let Some(cmd) = self.get(old) else {
            return Ok(());
        };
        let cmd = copy_cmd(alloc, cmd)?;
        let from = old.copy(alloc)?;
        let to = new.copy(alloc)?;
        self.move_one(from, to, cmd)?;
        steps.tick();
        steps.tick();
        Ok(())
    }

    /// Takes the command of a name away and gives another name this one, or does neither where memory
    /// wants.
    fn move_one(&mut self, old: Text, new: Text, cmd: Cmd) -> Result<(), NoMemory>
        requires { IsSome (command_of self.old.table old) }
        ensures ok { OnOk result
            (self.new
            ≡ changed (changed self.old (without_command self.old.table old))
            (with_command (without_command self.old.table old) new cmd)) }
        ensures err { OnErr result (self.new ≡ self.old) }
    {
        self.change(old, None)?;
        let moved = self.change(new, Some(cmd));
        if moved.is_err() {
            self.take_back();
        }
        moved
    }
}
