//! Interpreters that are kept between runs.

ghost use Rattle.std.specs.Prelude.{◌≡◌, IfOk, None};
ghost use Rattle.txt_core.specs.Names.{Names};
ghost use Rattle.blueprint.specs.States.{State};
ghost use Rattle.natives.specs.Names.{names_of};
ghost use Rattle.ictl.specs.Interps.{IsNew, IsSound};
ghost use Rattle.rehearse.specs.Playing.{KeepsOn, IsOn, IsRenewed};

use blueprint::{
    Blueprint, equal_epochs_are_one_state, since_applies, since_is_added, whole_is_all,
};
use cmd_table::Steps;
use ictl::BoxedInterp;
use natives::Natives;
use std::alloc::Global;
use std::mem;
use std::sync::ledger::Ledger;
use txt_core::NoMemory;

/// Keeps the interpreter of the last run, as newly made.
#[derive(Drop)]
pub struct Keeper {
    pub interp: Option<BoxedInterp>,
}

/// An interpreter made from the blueprint as it is published now.
fn build<L: Ledger>(
    alloc: Global,
    natives: &Natives,
    blueprint: &Blueprint,
    steps: &mut Steps<L>,
) -> Result<BoxedInterp, NoMemory>
    requires { blueprint.now.natives ≡ names_of natives.now }
    ensures { IfOk result (λ interp. IsRenewed (names_of natives.now) blueprint.now interp) }
{
    let defs = blueprint.definitions()?;
    BoxedInterp::build(alloc, natives, blueprint.epoch(), &defs, steps)
}

/// An interpreter, as newly made, on the blueprint as it is published now, made of one that was kept.
fn renew<L: Ledger>(
    alloc: Global,
    natives: &Natives,
    interp: BoxedInterp,
    blueprint: &Blueprint,
    steps: &mut Steps<L>,
) -> Result<BoxedInterp, NoMemory>
    requires { IsOn (names_of natives.now) blueprint.now interp
        × IsNew (names_of natives.now) interp }
    ensures { IfOk result (λ interp. IsRenewed (names_of natives.now) blueprint.now interp) }
{
    // What is known of blueprints.
    equal_epochs_are_one_state();
    since_is_added();
    since_applies();
    whole_is_all();
    let look = blueprint.look(interp.epoch());
    BoxedInterp::renew(alloc, natives, Some(interp), look, steps)
}

impl Keeper {
    /// No interpreter was made yet.
    pub fn new() -> Keeper
        ensures { result ≡ record { interp = None } }
    {
        Keeper { interp: None }
    }

    /// Gives an interpreter, as newly made, on the blueprint as it is published now: the one of the last
    /// run where there is one that wasn't marked, and else a new one. It gives it away.
    pub fn take<L: Ledger>(
        &mut self,
        alloc: Global,
        natives: &Natives,
        blueprint: &Blueprint,
        steps: &mut Steps<L>,
    ) -> Result<BoxedInterp, NoMemory>
        requires { KeepsOn (names_of natives.now) blueprint.now self.old }
        ensures is_new { IfOk result (λ interp.
            IsRenewed (names_of natives.now) blueprint.now interp) }
        ensures none { self.new.interp ≡ None }
    {
        let Some(interp) = self.interp.take() else {
            return build(alloc, natives, blueprint, steps);
        };
        if interp.marked() {
            drop(interp);
            return build(alloc, natives, blueprint, steps);
        }
        renew(alloc, natives, interp, blueprint, steps)
    }

    /// Takes the interpreter of a run that has ended, and makes it as newly made.
    pub fn keep<L: Ledger>(&mut self, mut interp: BoxedInterp, steps: &mut Steps<L>)
        ensures { (names : Names) (now : State) → now.natives ≡ names
            → IsSound names interp → IsOn names now interp
            → KeepsOn names now self.new }
    {
        interp.reset(steps);
        drop(mem::replace(&mut self.interp, Some(interp)));
    }
}
