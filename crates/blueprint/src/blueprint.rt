//! What was published.

ghost use Rattle.std.specs.Prelude.{◌≡◌, ◌≤◌, ◌<◌, ◌++◌, [], IfOk, OnOk};
ghost use Rattle.natives.specs.Names.{names_of as native_names};
ghost use Rattle.cmd_table.specs.Table.{names_of};
ghost use Rattle.cmd_table.specs.Commands.{Commands};
ghost use Rattle.blueprint.specs.Scripts.{script_of};
ghost use Rattle.blueprint.specs.States.{definitions, fresh, Allowed};
ghost use Rattle.blueprint.specs.Publishing.{answer, Publishes, Saves, Answers, with_saved};
ghost use Rattle.blueprint.specs.Looking.{since, Looks};
ghost use Rattle.blueprint.specs.Kept.{all_of};

use crate::names::{Journal, Names};
use crate::reading::from_script;
use crate::reply::{Look, Published, ScriptFault};
use crate::room::Room;
use crate::script::{add_all_lines, add_lines};
use cmd_table::{CmdTable, Defs, Steps, append_copies};
use natives::Natives;
use std::alloc::Global;
use std::marker::{Brand, Model};
use std::sync::ledger::{Blank, Ledger};
use txt_core::{NoMemory, Sequence, Text, Words};

/// What was published, epoch by epoch. Contracts see the names of the natives, the epoch of the last
/// save, the epoch, and the definitions, each with the epoch in which it was published.
///
/// Beside the definitions it keeps which names are commands now, how many definitions there are and how
/// many bytes their script has, and it finds those of an epoch by their place. So a publication costs
/// what it adds, and a look what it answers.
#[derive(Debug, Drop)]
pub struct Blueprint {
    alloc: Global,
    /// The names of the natives.
    natives: Words,
    /// The names of all built-ins.
    built: Words,
    /// The names that are commands now.
    names: Names,
    /// The epoch of the last save, or 0.
    base: u64,
    /// The definitions of the last save.
    saved: Defs,
    /// What was published since then, epoch by epoch.
    later: Vec<Defs>,
    /// How many definitions there are.
    count: usize,
    /// How many bytes their script has.
    size: usize,
}

impl Model for Blueprint {
    ghost use Rattle.blueprint.specs.States.{State};
    ghost use Rattle.blueprint.specs.Kept.{state_of, Keeps};

    ghost Value = { State };

    ghost view = { λ a. state_of a.natives a.base a.saved a.later.items };

    ghost invariant = { λ a. Keeps a.natives a.built a.names.slots a.base a.saved a.later.items a.count a.size };
}

/// The names of all built-ins, of which the natives are some.
fn built_names<L: Ledger>(alloc: Global, natives: &Natives, blank: Blank) -> Result<Words, NoMemory>
    requires name { blank.name ≡ L.name }
    requires parts { blank.parts ≡ L.parts }
    requires some { 0 < blank.parts }
    ensures { IfOk result (λ names. names ≡ names_of (Commands (native_names natives.now) [])) }
{
    let mut steps = Steps::<L>::new(blank);
    CmdTable::new(alloc, natives, &mut steps)?.names()
}

/// The names of the natives.
fn native_names(alloc: Global, natives: &Natives) -> Result<Words, NoMemory>
    ensures { IfOk result (λ names. names ≡ native_names natives.now) }
{
    let mut names = Words::new(alloc);
    for at in 0..natives.len() {
        if let Some(native) = natives.get(at) {
            names.add(native.name().copy(alloc)?)?;
        }
    }
    Ok(names)
}

/// Puts the definitions of several lists at the end of others, each once more.
fn add_all_copies(alloc: Global, all: &mut Defs, lists: &[Defs]) -> Result<(), NoMemory>
    ensures { OnOk result (all.new ≡ all.old ++ all_of lists.now) }
{
    'lists: for defs in lists {
        append_copies(alloc, all, defs.as_slice())?;
    }
    Ok(())
}

impl Blueprint {
    /// A blueprint without definitions, at epoch 0. Its built-in names are those of a command table: of
    /// the language, of the server and of the natives. The only error is want of memory.
    pub fn new(alloc: Global, natives: &Natives) -> Result<Blueprint, NoMemory>
        ensures { IfOk result (λ made. made ≡ fresh (native_names natives.now)) }
    {
        let built = built_names::<Brand>(alloc, natives, Blank::new(1))?;
        let names = Names::new(alloc, built.as_slice())?;
        let natives = native_names(alloc, natives)?;
        Ok(Blueprint {
            alloc,
            natives,
            built,
            names,
            base: 0,
            saved: Sequence::new(alloc),
            later: Vec::new(alloc),
            count: 0,
            size: 0,
        })
    }

    /// How often something was published or saved.
    pub fn epoch(&self) -> u64
        ensures epoch { result ≡ self.now.epoch }
        ensures allowed { Allowed self.now }
    {
        self.base + self.later.len() as u64
    }

    /// What is new to one who last saw this epoch: `Same` exactly where it is that of now; `Since` with
    /// the definitions that were added since then, where no save came between; else `Whole` with all
    /// definitions, also where a later epoch is named than there is. `Same` takes no memory.
    pub fn look(&self, epoch: u64) -> Look
        ensures look { Looks self.now epoch result }
        ensures allowed { Allowed self.now }
    {
        let now = self.epoch();
        if epoch == now {
            return Look::Same;
        }
        if self.base <= epoch && epoch < now {
            return match self.since(epoch) {
                Ok(defs) => Look::Since { epoch: now, defs },
                Err(NoMemory) => Look::NoMemory,
            };
        }
        match self.definitions() {
            Ok(defs) => Look::Whole { epoch: now, defs },
            Err(NoMemory) => Look::NoMemory,
        }
    }

    /// The definitions that were published after an epoch, to which no save came since.
    fn since(&self, epoch: u64) -> Result<Defs, NoMemory>
        requires base { self.now.base ≤ epoch }
        requires now { epoch < self.now.epoch }
        ensures { IfOk result (λ defs. defs ≡ since epoch self.now.rows) }
    {
        let mut defs = Sequence::new(self.alloc);
        let place = (epoch - self.base) as usize;
        add_all_copies(self.alloc, &mut defs, &self.later[place..])?;
        Ok(defs)
    }

    /// All definitions that stand at the [`epoch`](Blueprint::epoch) of now, in order. The only error is
    /// want of memory.
    pub fn definitions(&self) -> Result<Defs, NoMemory>
        ensures { IfOk result (λ defs. defs ≡ definitions self.now) }
    {
        let mut defs = Sequence::new(self.alloc);
        append_copies(self.alloc, &mut defs, self.saved.as_slice())?;
        add_all_copies(self.alloc, &mut defs, self.later.as_slice())?;
        Ok(defs)
    }

    /// The script of all definitions. The only error is want of memory.
    pub fn script(&self) -> Result<Text, NoMemory>
        ensures { IfOk result (λ script. script ≡ script_of (definitions self.now)) }
    {
        let mut script = Text::empty(self.alloc);
        add_lines(self.alloc, &mut script, self.saved.as_slice())?;
        add_all_lines(self.alloc, &mut script, self.later.as_slice())?;
        Ok(script)
    }

    /// Publishes definitions: they are put behind all others at once, and raise the epoch by 1. It is
    /// `Done` with the new epoch, or is refused, which changes nothing: `NotApplicable` with the place of
    /// the first definition that doesn't apply behind those before it; else `Full(Count)` at more than
    /// 10,000 definitions or where there is no further epoch; else `Full(Bytes)` at more than 4,194,304
    /// bytes of script. After `NoMemory` nothing has changed either.
    pub fn publish(&mut self, defs: Defs) -> Published
        ensures answer { Publishes self.old defs result self.new }
        ensures allowed { Allowed self.new }
    {
        let room = Room {
            epoch: self.base + self.later.len() as u64,
            count: self.count,
            size: self.size,
        };
        if self.later.reserve(1).is_err() {
            return Published::NoMemory;
        }
        let mut journal: Journal = Vec::new(self.alloc);
        match room.check(self.alloc, &mut self.names, &mut journal, &defs) {
            Err(refusal) => {
                self.names.take_back(journal);
                refusal
            }
            Ok(after) => {
                self.count = after.count;
                self.size = after.size;
                self.later.push_reserved(defs);
                Published::Done(after.epoch)
            }
        }
    }

    /// Puts the definitions of a script in the place of all, and raises the epoch by 1. It is `Done` with
    /// the new epoch, or is refused, which changes nothing: `NotADefinition` with the number of the first
    /// command that is none, as [`from_script`] tells it; else as [`publish`](Blueprint::publish) refuses
    /// the definitions of a blueprint that has no others.
    pub fn save(&mut self, script: &Text) -> Published
        ensures answer { Saves self.old script.now result self.new }
        ensures allowed { Allowed self.new }
    {
        match from_script(self.alloc, script) {
            Ok(defs) => self.replace(defs),
            Err(ScriptFault::NotADefinition(number)) => Published::NotADefinition(number),
            Err(ScriptFault::NoMemory) => Published::NoMemory,
        }
    }

    /// Puts definitions in the place of all.
    fn replace(&mut self, defs: Defs) -> Published
        ensures answer { Answers self.old (answer self.old.natives self.old.epoch [] defs)
            (with_saved self.old defs) result self.new }
        ensures allowed { Allowed self.new }
    {
        let Ok(mut names) = Names::new(self.alloc, self.built.as_slice()) else {
            return Published::NoMemory;
        };
        let mut journal: Journal = Vec::new(self.alloc);
        let room = Room {
            epoch: self.base + self.later.len() as u64,
            count: 0,
            size: 0,
        };
        match room.check(self.alloc, &mut names, &mut journal, &defs) {
            Err(refusal) => refusal,
            Ok(after) => {
                self.base = after.epoch;
                self.count = after.count;
                self.size = after.size;
                self.saved = defs;
                self.later = Vec::new(self.alloc);
                self.names = names;
                Published::Done(after.epoch)
            }
        }
    }
}
