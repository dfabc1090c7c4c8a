//! Interpreters at a place of their own in memory.

ghost use Rattle.std.specs.Prelude.{◌≡◌, ◌≤◌, ◌+◌, IfOk, OnOk, OnErr, false};
ghost use Rattle.cmd_table.specs.Commands.{Writes};
ghost use Rattle.natives.specs.Names.{names_of};
ghost use Rattle.ictl.specs.Fresh.{build_steps};
ghost use Rattle.ictl.specs.Interps.{IsNew, IsNewOnSome, StaysNew, IsReset, CountsReset, AllApply, IsUpdated, update_steps, KeepsMarked};

use crate::interp::Interp;
use cmd_table::{Defs, Steps};
use natives::Natives;
use std::alloc::Global;
use std::marker::Model;
use std::sync::ledger::Ledger;
use txt_core::NoMemory;

/// An interpreter at a place of its own in memory, where it stays: what is moved is where that is. It runs
/// requests, scheduled scripts and scripts that make definitions, one after the other, as `Run` begins
/// them, on the blueprint that it was made from. `reset` makes it as newly made from each state. Contracts
/// see the interpreter.
pub struct BoxedInterp {
    pub(crate) interp: Box<Interp>,
}

impl Model for BoxedInterp {
    ghost use Rattle.ictl.specs.declared.interp.Interp.{Interp};
    ghost use Rattle.ictl.specs.CameCode.{interp_code};

    ghost Value = { Interp };

    ghost coded = { interp_code };

    ghost view = { λ a. a.interp.value };
}

/// Written out, so that proofs of other crates see one call where an interpreter is dropped.
impl Drop for BoxedInterp {
    fn drop(self) {
        let BoxedInterp { interp } = self;
        drop(interp);
    }
}

impl BoxedInterp {
    /// An interpreter on a blueprint of this epoch and these definitions, which are made one after the
    /// other: one that doesn't apply changes nothing. Its only error is want of memory; the steps are then
    /// no more than with ample memory.
    pub fn build<L: Ledger>(
        alloc: Global,
        natives: &Natives,
        epoch: u64,
        defs: &Defs,
        steps: &mut Steps<L>,
    ) -> Result<BoxedInterp, NoMemory>
        ensures is_new { IfOk result (λ made. IsNew (names_of natives.now) made) }
        ensures blueprint { IfOk result (λ made.
            made.blueprint.value ≡ record { epoch = epoch; defs = defs.now }) }
        ensures unmarked { IfOk result (λ made. made.settling.run.engine.host.marked ≡ false) }
        ensures steps { OnOk result
            (steps.new ≡ steps.old + build_steps (names_of natives.now) defs.now) }
        ensures least { steps.old ≤ steps.new }
        ensures most { steps.new ≤ steps.old + build_steps (names_of natives.now) defs.now }
    {
        let made = Interp::build(alloc, natives, epoch, defs, steps)?;
        let interp = Box::new(alloc, made)?;
        Ok(BoxedInterp { interp })
    }

    /// The epoch of its blueprint. It takes no memory.
    pub fn epoch(&self) -> u64
        ensures { result ≡ self.now.blueprint.value.epoch }
    {
        self.interp.epoch()
    }

    /// Whether the last run asked, by `ns_ictl markfordelete`, that the interpreter be built anew. The next
    /// start takes the mark off; `reset` and `update` leave it. It takes no memory.
    pub fn marked(&self) -> bool
        ensures { result ≡ self.now.settling.run.engine.host.marked }
    {
        self.interp.marked()
    }

    /// Makes it as newly made, from every state and after every outcome, also in the midst of a run inside
    /// and after want of memory. It takes no memory and can't be refused. The mark of the run stays until
    /// the next start.
    ///
    /// The steps are the entries that the run's own definitions wrote: each is taken back.
    pub fn reset<L: Ledger>(&mut self, steps: &mut Steps<L>)
        ensures is_new { IsReset self.new self.old }
        ensures steps { CountsReset steps.new steps.old self.old }
        ensures blueprint { self.new.blueprint.value ≡ self.old.blueprint.value }
        ensures marked { KeepsMarked self.new self.old }
    {
        self.interp.reset(steps);
    }

    /// Goes to a later epoch of its blueprint, by the definitions that were added since, which apply one
    /// after the other behind those that stand. The interpreter is as newly made, and so it is then. Its
    /// only error is want of memory: then it is as it was, but for the steps, since what was defined was
    /// taken back.
    pub fn update<L: Ledger>(
        &mut self,
        epoch: u64,
        defs: &Defs,
        steps: &mut Steps<L>,
    ) -> Result<(), NoMemory>
        requires is_new { IsNewOnSome self.old }
        requires applies { AllApply defs.now self.old }
        ensures ok { OnOk result (StaysNew self.new self.old) }
        ensures blueprint { OnOk result (IsUpdated epoch defs.now self.new self.old) }
        ensures err { OnErr result
            (StaysNew self.new self.old × (self.new.blueprint.value ≡ self.old.blueprint.value)) }
        ensures marked { KeepsMarked self.new self.old }
        ensures steps { OnOk result (steps.new ≡ steps.old + Writes defs.now) }
        ensures most { steps.new ≤ steps.old + update_steps defs.now }
    {
        self.interp.update(epoch, defs, steps)
    }
}
