//! The engine.

ghost use Rattle.std.specs.Prelude.{◌≡◌, ◌≤◌, ℕ, ◌+◌, ◌-◌, [], ◌∷◌, IsSome, None, OnOk, OnErr, length, false};
ghost use Rattle.std.specs.Option.{option_copied};
ghost use Rattle.cmd_table.specs.Commands.{Applies, defined, writes, Writes};
ghost use Rattle.cmd_table.specs.Table.{command_of, mark_of, table_at, back_at, Keeps as KeepsMarks};
ghost use Rattle.natives.specs.Names.{names_of};
ghost use Rattle.txt_core.specs.Limits.{most_nested};
ghost use Rattle.tcl_frame.specs.Base.{IsAtBase, cleared, kept, unkept};
ghost use Rattle.tcl_frame.specs.Names.{named, is_element};
ghost use Rattle.outside.specs.declared.question.Service.{Service};
ghost use Rattle.outside.specs.declared.question.Question.{Question};
ghost use Rattle.tcl_eval.specs.State.{Given};
ghost use Rattle.tcl_eval.specs.Eval.{eval};
ghost use Rattle.tcl_eval.specs.Laws.{state_in, IsFront};
ghost use Rattle.tcl_eval.specs.Engine.{Holds, Lasts, FellTo, IsKeepable, kept_by, state_of, at_global, IsIdle, IsOpenTo, IfRan, Leaves, Stands, Answered, StandsOn, Falls, comes_to, with_more};
ghost use Rattle.tcl_eval.specs.declared.outcome.Outcome.TheVariants.{Asks};

use crate::outcome::{Outcome, Work};
use crate::readings::Readings;
use crate::spare::Spare;
use crate::stack::Frame;
use cmd_table::{Cmd, CmdTable, Def, Defs, Steps};
use natives::Natives;
use outside::{Answer, Service};
use std::alloc::Global;
use std::sync::ledger::Ledger;
use tcl_frame::Frames;
use tcl_host::Host;
use txt_core::{NoMemory, Text, Words};

/// The question that is open: whom it goes to, the words of the command that asked it, and how many
/// levels are left to what that command may run.
#[derive(Drop)]
pub struct OpenQuestion {
    pub service: Service,
    pub words: Words,
    pub levels: u32,
}

/// What runs scripts and can stand at a question.
///
/// What is still to be run stands on a stack of its own, so that other engines can go on while this
/// one stands at a question.
#[derive(Drop)]
pub struct Engine<H> {
    pub(crate) alloc: Global,
    pub(crate) table: CmdTable,
    pub(crate) frames: Frames,
    pub(crate) host: H,
    pub(crate) made: Defs,
    pub(crate) stack: Vec<Frame>,
    pub(crate) budget: u64,
    pub(crate) question: Option<OpenQuestion>,
    pub(crate) readings: Readings,
    pub(crate) spare: Spare,
}

impl<H: Host> Engine<H> {
    /// An engine with these commands, variables and host. Nothing is suspended, no definition is
    /// listed as made, and no budget is left.
    pub fn new(alloc: Global, table: CmdTable, frames: Frames, host: H) -> Engine<H>
        ensures state { state_of result
            ≡ record { commands = table.table; frames = frames; host = host; made = [] } }
        ensures idle { IsIdle result }
        ensures budget { result.budget ≡ 0 }
    {
        Engine {
            alloc,
            table,
            frames,
            host,
            made: Defs::new(alloc),
            stack: Vec::new(alloc),
            budget: 0,
            question: None,
            readings: Readings::new(alloc),
            spare: Spare::new(alloc),
        }
    }

    /// Runs a script, or a command by its words, with this budget. It stands at this depth, from 1
    /// to 200, and what it runs stands deeper. Nothing may be suspended.
    ///
    /// The run ends, or it stands at a question, or memory wanted; then the engine is in any state,
    /// and `abandon` is allowed. After `Spent` and `TooDeep` no question is open, and `abandon` comes
    /// before the next start. A question is asked only with less budget than was given. In any case one
    /// step is counted for each entry that the definitions made meanwhile write, what the table was at an
    /// earlier mark stays, and so do the base scalars.
    pub fn start<L: Ledger>(
        &mut self,
        natives: &Natives,
        work: Work,
        budget: u64,
        depth: u32,
        steps: &mut Steps<L>,
    ) -> Outcome
        requires idle { IsIdle self.old }
        requires least { 1 ≤ depth }
        requires most { depth ≤ most_nested }
        ensures stands { IfRan result
            (Stands (names_of natives.now) H.table result self.new
            (record { work = work; depth = depth; budget = budget; state = state_of self.old })
            []) }
        ensures leaves { Leaves result self.new }
        ensures lower { IfRan result (self.new.budget ≤ budget) }
        ensures falls { IfRan result (FellTo result self.new budget) }
        ensures steps { steps.old ≤ steps.new }
        ensures counts { steps.new + Writes self.old.made ≡ steps.old + Writes self.new.made }
        ensures lasts { Lasts self.new self.old }
        ensures front { (given : Given)
            → IsFront self.new.made
            (state_in (eval (names_of natives.now) H.table depth work (state_of self.old) budget
            given)).made }
    {
        self.budget = budget;
        match self.begin(natives, work, depth, steps) {
            Ok(outcome) => outcome,
            Err(NoMemory) => {
                self.readings.let_go();
                Outcome::NoMemory
            }
        }
    }

    /// Goes on with the answer to the question that is open, which is answered once, whatever comes
    /// of it. After `Spent`, as where the answer costs more than is left, and after `TooDeep` no
    /// question is open, and `abandon` comes before the next start. A run that has ended may not be
    /// resumed. Steps are counted, marks and base scalars stay, and the definitions that were made are a front
    /// of those that the run makes, as at `start`.
    pub fn resume<L: Ledger>(
        &mut self,
        natives: &Natives,
        answer: Answer,
        steps: &mut Steps<L>,
    ) -> Outcome
        requires { IsSome self.old.question }
        ensures step { IfRan result
            (Answered (names_of natives.now) H.table result self.new self.old answer) }
        ensures stands { IfRan result
            (StandsOn (names_of natives.now) H.table result self.new self.old answer) }
        ensures leaves { Leaves result self.new }
        ensures falls { Falls H.table result self.new self.old answer }
        ensures steps { steps.old ≤ steps.new }
        ensures counts { steps.new + Writes self.old.made ≡ steps.old + Writes self.new.made }
        ensures lasts { Lasts self.new self.old }
        ensures front { (question : Question) (charge : ℕ) (further : Given)
            → IsFront self.new.made
            (state_in (comes_to (names_of natives.now) H.table (Asks question)
            (with_more self.old charge) ((answer, charge) ∷ further))).made }
    {
        match self.answer(natives, answer, steps) {
            Ok(outcome) => outcome,
            Err(NoMemory) => {
                self.readings.let_go();
                Outcome::NoMemory
            }
        }
    }

    /// The budget that is left.
    pub fn left(&self) -> u64
        ensures { result ≡ self.now.budget }
    {
        self.budget
    }

    /// Lowers the budget by what a run inside this one has used, whose question is open.
    pub fn charge(&mut self, used: u64)
        requires left { used ≤ self.old.budget }
        requires inner { IsOpenTo Service.Inner self.old.question }
        ensures change { self.new ≡ record self.old { budget = self.old.budget - used } }
        ensures lasts { Lasts self.new self.old }
    {
        self.budget -= used;
    }

    /// Drops what is suspended and every frame of variables but the global one, and leaves all else.
    /// It takes no memory, and is allowed in every state.
    pub fn abandon(&mut self)
        ensures state { state_of self.new ≡ at_global (state_of self.old) }
        ensures idle { IsIdle self.new }
        ensures budget { self.new.budget ≡ self.old.budget }
        ensures lasts { Lasts self.new self.old }
    {
        self.drop_run();
        self.leave_frames();
    }

    /// The command of a name; `None` exactly where the table hasn't the name.
    pub fn command(&self, name: &Text) -> Option<&Cmd>
        ensures { option_copied result ≡ command_of self.now.table.table name.now }
    {
        self.table.get(name)
    }

    /// The host.
    pub fn host(&self) -> &H
        ensures { result.now ≡ self.now.host }
    {
        &self.host
    }

    /// The definitions that were made since the engine was, or was last cleared, in order.
    pub fn made(&self) -> &Defs
        ensures { result.now ≡ self.now.made }
    {
        &self.made
    }

    /// How often a text was run as a script that was kept from an earlier time. It takes no memory.
    /// No clause says when a script is kept: at most 768 are, each of at most 4,096 bytes, from the
    /// first start on, of those that were run most recently; where memory wanted, all are let go, and
    /// the count begins anew.
    pub fn hits(&self) -> u64 {
        self.readings.hits()
    }

    /// Puts a definition, which applies, into the table, without listing it as made; a `Set` is kept as a
    /// base scalar, on the condition of `Frames::keep`, and one of another kind changes nothing. Nothing
    /// may be suspended. Where memory wants, nothing changes.
    pub fn define<L: Ledger>(&mut self, def: &Def, steps: &mut Steps<L>) -> Result<(), NoMemory>
        requires idle { IsIdle self.old }
        requires applies { Applies self.old.table.table def.now }
        requires base { IsKeepable def.now self.old.frames }
        ensures ok { OnOk result
            (state_of self.new
            ≡ record (state_of self.old) {
              commands = defined self.old.table.table def.now;
              frames = kept_by def.now self.old.frames;
            }) }
        ensures steps { OnOk result (steps.new ≡ steps.old + writes def.now) }
        ensures err { OnErr result
            ((state_of self.new ≡ state_of self.old) × (steps.new ≡ steps.old)) }
        ensures keeps { KeepsMarks self.old.table self.new.table }
        ensures marks { steps.new + mark_of self.old.table ≡ steps.old + mark_of self.new.table }
        ensures idle { IsIdle self.new }
        ensures budget { self.new.budget ≡ self.old.budget }
    {
        match def {
            Def::Set { name, value } => self.keep(name, value),
            Def::Proc { .. }
            | Def::Rename { .. }
            | Def::Route { .. }
            | Def::Filter { .. }
            | Def::Cleanup { .. } => self.table.apply(def, steps),
        }
    }

    /// Keeps a base scalar.
    fn keep(&mut self, name: &Text, value: &Text) -> Result<(), NoMemory>
        requires base { IsAtBase self.old.frames }
        requires whole { is_element (named name.now) ≡ false }
        ensures ok { OnOk result
            (self.new ≡ record self.old { frames = kept self.old.frames name.now value.now }) }
        ensures err { OnErr result (self.new ≡ self.old) }
    {
        let name = name.copy(self.alloc)?;
        let value = value.copy(self.alloc)?;
        self.frames.keep(name, value)
    }

    /// The mark of the table as it is now, to which `clear` can take it back. It takes no memory.
    pub fn mark(&self) -> u64
        ensures { result ≡ mark_of self.now.table }
    {
        self.table.mark()
    }

    /// Drops what is suspended, the question that is open and what is listed as made, takes the table
    /// back to a mark, and clears variables and host. Its steps are those of taking the table back. It is
    /// allowed in every state, takes no memory and can't be refused. The condition is that the mark is of
    /// this engine and not of a later state than it has now.
    pub fn clear<L: Ledger>(&mut self, mark: u64, steps: &mut Steps<L>)
        requires { mark ≤ mark_of self.old.table }
        ensures state { state_of self.new
            ≡ record {
              commands = table_at self.old.table mark;
              frames = cleared self.old.frames;
              host = H.table.clears self.old.host;
              made = [];
            } }
        ensures table { self.new.table ≡ back_at self.old.table mark }
        ensures idle { IsIdle self.new }
        ensures budget { self.new.budget ≡ self.old.budget }
        ensures steps { steps.new + mark ≡ steps.old + mark_of self.old.table }
    {
        self.drop_run();
        self.made.clear();
        self.table.undo(mark, steps);
        self.frames.clear();
        self.host.clear();
    }

    /// How many base scalars were kept. It takes no memory.
    pub fn kept(&self) -> u64
        ensures { result ≡ length self.now.frames.keeps }
    {
        self.frames.kept()
    }

    /// Takes all base scalars but the first ones, so many, back. It takes no memory and can't be refused.
    /// The condition is that nothing is suspended, that only the global frame is there and holds exactly
    /// the base scalars with their base values, and that so many were kept.
    pub fn unkeep(&mut self, kept: u64)
        requires idle { IsIdle self.old }
        requires base { IsAtBase self.old.frames }
        requires within { kept ≤ length self.old.frames.keeps }
        ensures { self.new ≡ record self.old { frames = unkept self.old.frames kept } }
    {
        self.frames.unkeep(kept);
    }

    /// Drops what is suspended and the question that is open.
    fn drop_run(&mut self)
        ensures idle { IsIdle self.new }
        ensures rest { self.new ≡ record self.old { stack = self.new.stack; question = None } }
    {
        self.stack.clear();
        self.question = None;
    }

    /// Leaves the frames of variables above the global one.
    fn leave_frames(&mut self)
        ensures state { state_of self.new ≡ at_global (state_of self.old) }
        ensures stack { self.new.stack ≡ self.old.stack }
        ensures budget { self.new.budget ≡ self.old.budget }
        ensures question { self.new.question ≡ self.old.question }
        ensures holds { Holds self.new self.old }
    {
        'frames: while self.frames.depth() > 0 {
            self.frames.pop();
        }
    }
}
