//! Interpreters that are used again, as a look at the blueprint tells.

ghost use Rattle.std.specs.Prelude.{◌≡◌, ◌≤◌, ◌+◌, ◌*◌, IfOk, OnOk};
ghost use Rattle.cmd_table.specs.Commands.{Writes};
ghost use Rattle.natives.specs.Names.{names_of};
ghost use Rattle.ictl.specs.Interps.{update_steps};
ghost use Rattle.ictl.specs.Renewing.{MayAdd, MayRenew, IsAsItWas, Adds, Renews, renewal_steps};

use crate::boxed::BoxedInterp;
use blueprint::Look;
use cmd_table::{Defs, Steps};
use natives::Natives;
use std::alloc::Global;
use std::sync::ledger::Ledger;
use txt_core::NoMemory;

/// The interpreter that there is, unless the last run marked it. Where there is none to use, that counts as
/// want of memory.
fn unmarked(kept: Option<BoxedInterp>) -> Result<BoxedInterp, NoMemory>
    ensures { IfOk result (λ made. IsAsItWas kept made) }
{
    let Some(interp) = kept else {
        return Err(NoMemory);
    };
    if interp.marked() {
        drop(interp);
        return Err(NoMemory);
    }
    Ok(interp)
}

/// The interpreter that there is, with definitions that were added to its blueprint, which has this epoch
/// then. Where there is none, that counts as want of memory.
fn updated<L: Ledger>(
    kept: Option<BoxedInterp>,
    epoch: u64,
    defs: &Defs,
    steps: &mut Steps<L>,
) -> Result<BoxedInterp, NoMemory>
    requires { MayAdd kept defs.now }
    ensures of { IfOk result (λ made. Adds kept epoch defs.now made) }
    ensures steps { OnOk result (steps.new ≡ steps.old + Writes defs.now) }
    ensures most { steps.new ≤ steps.old + update_steps defs.now }
{
    let Some(mut interp) = kept else {
        return Err(NoMemory);
    };
    match interp.update(epoch, defs, steps) {
        Ok(()) => Ok(interp),
        Err(NoMemory) => {
            drop(interp);
            Err(NoMemory)
        }
    }
}

impl BoxedInterp {
    /// An interpreter of the blueprint that a look found, made of the one that there is, if there is one:
    /// where nothing is new it stays as it is, unless the last run marked it; it gets what was added; and
    /// where all is told one is built in its place. Its error is want of memory, or that none can be made
    /// of what was told; the one that there was is let go then.
    pub fn renew<L: Ledger>(
        alloc: Global,
        natives: &Natives,
        kept: Option<BoxedInterp>,
        look: Look,
        steps: &mut Steps<L>,
    ) -> Result<BoxedInterp, NoMemory>
        requires { MayRenew kept look }
        ensures of { IfOk result (λ made. Renews (names_of natives.now) kept look made) }
        ensures steps { OnOk result
            (steps.new ≡ steps.old + renewal_steps (names_of natives.now) look) }
        ensures most { steps.new ≤ steps.old + 2 * renewal_steps (names_of natives.now) look }
    {
        match look {
            Look::Same => unmarked(kept),
            Look::Since { epoch, defs } => updated(kept, epoch, &defs, steps),
            Look::Whole { epoch, defs } => {
                drop(kept);
                BoxedInterp::build(alloc, natives, epoch, &defs, steps)
            }
            Look::NoMemory => {
                // Nothing is told of which an interpreter could be made.
                drop(kept);
                Err(NoMemory)
            }
        }
    }
}
