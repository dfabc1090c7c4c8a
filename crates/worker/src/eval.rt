//! Scripts that make definitions.

ghost use Rattle.std.specs.Prelude.{◌≡◌, None};
ghost use Rattle.natives.specs.Names.{names_of};
ghost use Rattle.shared_state.specs.Cells.{Serve, KeepUnits};
ghost use Rattle.worker.specs.Clean.{IsClean};
ghost use Rattle.worker.specs.Sessions.{at};
ghost use Rattle.worker.specs.Scripts.{Evaluates};
ghost use Rattle.worker.specs.Working.{eval_end};
ghost use Rattle.ictl.specs.Interps.{IsNew};
ghost use Rattle.worker.specs.Beginning.{BeginsDefine};

use crate::heard::{AnswerList, Heard};
use crate::look::{Looked, look, renew};
use crate::run::run_to_end;
use crate::scripts::{EvalEnd, Evaled};
use crate::worker::Worker;
use cmd_table::Steps;
use ictl::{BoxedInterp, Next, Run};
use natives::Natives;
use outside::Pages;
use shared_state::{Passes, Shared};
use std::alloc::Global;
use std::sync::Wait;
use std::sync::ledger::Ledger;
use tcl_eval::Outcome;
use tcl_host::OK;
use txt_core::Text;

/// How a definition run ended that came to this; this is the epoch behind it.
fn end_of(next: Next, epoch: u64) -> EvalEnd
    ensures { result ≡ eval_end next epoch }
{
    match next {
        Next::Ended(Outcome::Done { code: OK, .. }) => EvalEnd::Done { epoch },
        Next::Ended(Outcome::Done { result, .. }) => EvalEnd::Error(result),
        Next::Ended(Outcome::Spent) => EvalEnd::Spent,
        Next::Ended(Outcome::TooDeep) => EvalEnd::TooDeep,
        _ => EvalEnd::NoMemory,
    }
}

/// Begins the definition run of a script in an interpreter as newly made.
fn begin<L: Ledger>(
    interp: BoxedInterp,
    natives: &Natives,
    script: &Text,
    moment: u64,
    steps: &mut Steps<L>,
) -> Run
    requires { IsNew (names_of natives.now) interp }
    ensures { BeginsDefine (names_of natives.now) script.now moment result.next steps.old steps.new
        result.interp interp }
{
    Run::start_define(interp, natives, script, moment, steps)
}

/// Runs a script that makes definitions, at this moment, and publishes what it made.
///
/// The worker takes one turn on the blueprint, a look, and runs the script in an interpreter as newly
/// made from what it found, without a connection. Its questions are answered by turns on the cells and by
/// the pages. Of the run it is told where its look stands, the answers, and how it ended: `Done` with the
/// epoch of its publication, or with that of its look where nothing was published; a save counts as none.
/// The interpreter is as newly made afterwards.
///
/// Where memory wants, the turns that were taken stand, one more perhaps than there are answers.
pub fn do_eval<R: Wait, P: Pages, L: Ledger>(
    rt: &R,
    alloc: Global,
    natives: &Natives,
    shared: &Shared,
    worker: &mut Worker,
    passes: &mut Passes,
    script: &Text,
    moment: u64,
    pages: &mut P,
    steps: &mut Steps<L>,
) -> Evaled
    requires cells { Serve (names_of natives.now) shared.now passes.old }
    requires clean { IsClean (names_of natives.now) passes.old worker.old }
    ensures cells { Serve (names_of natives.now) shared.now passes.new }
    ensures units { KeepUnits passes.old passes.new }
    ensures number { worker.new.number ≡ worker.old.number }
    ensures clean { IsClean (names_of natives.now) passes.new worker.new }
    ensures evaluates { Evaluates (names_of natives.now) (P.held pages.old) script.now moment
        (at passes.old worker.old None None (P.faults pages.old) steps.old) result
        (at passes.new worker.new None None (P.faults pages.new) steps.new) }
    ensures held { P.held pages.new ≡ P.held pages.old }
{
    let Looked { turn, epoch, look } = look(rt, shared, passes, worker);
    let Ok(interp) = renew(alloc, natives, worker, look, steps) else {
        return Evaled {
            turn,
            epoch,
            answers: AnswerList::new(alloc),
            outcome: EvalEnd::NoMemory,
        };
    };
    let run = begin(interp, natives, script, moment, steps);
    let (last, heard) = run_to_end(
        rt, alloc, natives, shared, worker, passes, pages, run, moment, steps,
    );
    let Heard { answers, published } = heard;
    Evaled {
        turn,
        epoch,
        answers,
        outcome: end_of(last, published.unwrap_or(epoch)),
    }
}
