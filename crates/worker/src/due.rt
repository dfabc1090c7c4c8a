//! Scripts that are due.

ghost use Rattle.std.specs.Prelude.{◌≡◌, None};
ghost use Rattle.natives.specs.Names.{names_of};
ghost use Rattle.shared_state.specs.Cells.{Serve, KeepUnits};
ghost use Rattle.worker.specs.Clean.{IsClean};
ghost use Rattle.worker.specs.Sessions.{at};
ghost use Rattle.worker.specs.Scripts.{RunsDue, RunsWhatIsDue};
ghost use Rattle.worker.specs.Working.{run_outcome, RunsList};
ghost use Rattle.ictl.specs.Interps.{IsNew};
ghost use Rattle.worker.specs.Beginning.{BeginsScript};

use crate::heard::AnswerList;
use crate::look::{Looked, look, renew};
use crate::run::run_to_end;
use crate::scripts::{DueRun, Ran, RanList};
use crate::worker::Worker;
use cmd_table::Steps;
use ictl::{BoxedInterp, Next, Run};
use natives::Natives;
use outside::{Clock, Pages};
use sched_core::{DueList, DueScript, SchedCall, SchedReply};
use shared_state::{Passes, Shared};
use std::alloc::Global;
use std::sync::Wait;
use std::sync::ledger::Ledger;
use tcl_eval::Outcome;
use txt_core::{Text, moment_of};

/// How a script ended that came to this.
fn outcome_of(next: Next) -> Outcome
    ensures { result ≡ run_outcome next }
{
    match next {
        Next::Ended(outcome) => outcome,
        _ => Outcome::NoMemory,
    }
}

/// Begins a script in an interpreter as newly made.
fn begin<L: Ledger>(
    interp: BoxedInterp,
    natives: &Natives,
    script: &Text,
    moment: u64,
    steps: &mut Steps<L>,
) -> Run
    requires { IsNew (names_of natives.now) interp }
    ensures { BeginsScript (names_of natives.now) script.now moment result.next steps.old steps.new
        result.interp interp }
{
    Run::start_script(interp, natives, script, moment, steps)
}

/// Runs one script that was due: reads the clock, looks at the blueprint, and runs it in an interpreter as
/// newly made from that, without a connection. The interpreter is as newly made afterwards.
fn run_script<R: Wait, P: Pages, C: Clock, L: Ledger>(
    rt: &R,
    alloc: Global,
    natives: &Natives,
    shared: &Shared,
    worker: &mut Worker,
    passes: &mut Passes,
    due: &DueScript,
    pages: &mut P,
    clock: &mut C,
    steps: &mut Steps<L>,
) -> Ran
    requires cells { Serve (names_of natives.now) shared.now passes.old }
    requires clean { IsClean (names_of natives.now) passes.old worker.old }
    ensures cells { Serve (names_of natives.now) shared.now passes.new }
    ensures units { KeepUnits passes.old passes.new }
    ensures number { worker.new.number ≡ worker.old.number }
    ensures clean { IsClean (names_of natives.now) passes.new worker.new }
    ensures runs { RunsDue (names_of natives.now) (P.held pages.old) due.now
        (at passes.old worker.old (C.held clock.old) None (P.faults pages.old) steps.old) result
        (at passes.new worker.new (C.held clock.new) None (P.faults pages.new) steps.new) }
    ensures held { P.held pages.new ≡ P.held pages.old }
{
    let moment = moment_of(clock.moment());
    let Looked { turn, epoch, look } = look(rt, shared, passes, worker);
    let Ok(interp) = renew(alloc, natives, worker, look, steps) else {
        return Ran {
            id: due.id,
            turn,
            epoch,
            moment,
            answers: AnswerList::new(alloc),
            outcome: Outcome::NoMemory,
        };
    };
    let run = begin(interp, natives, &due.script, moment, steps);
    let (last, heard) = run_to_end(
        rt, alloc, natives, shared, worker, passes, pages, run, moment, steps,
    );
    Ran {
        id: due.id,
        turn,
        epoch,
        moment,
        answers: heard.answers,
        outcome: outcome_of(last),
    }
}

/// Runs scripts that were due, one after the other.
fn run_all<R: Wait, P: Pages, C: Clock, L: Ledger>(
    rt: &R,
    alloc: Global,
    natives: &Natives,
    shared: &Shared,
    worker: &mut Worker,
    passes: &mut Passes,
    list: &DueList,
    pages: &mut P,
    clock: &mut C,
    steps: &mut Steps<L>,
) -> DueRun
    requires cells { Serve (names_of natives.now) shared.now passes.old }
    requires clean { IsClean (names_of natives.now) passes.old worker.old }
    ensures cells { Serve (names_of natives.now) shared.now passes.new }
    ensures units { KeepUnits passes.old passes.new }
    ensures number { worker.new.number ≡ worker.old.number }
    ensures clean { IsClean (names_of natives.now) passes.new worker.new }
    ensures runs { RunsList (names_of natives.now) (P.held pages.old) list.now
        (at passes.old worker.old (C.held clock.old) None (P.faults pages.old) steps.old) result
        (at passes.new worker.new (C.held clock.new) None (P.faults pages.new) steps.new) }
    ensures held { P.held pages.new ≡ P.held pages.old }
{
    let mut ran = RanList::new(alloc);
    if !list.is_empty() && ran.reserve(list.len()).is_err() {
        return DueRun::NoMemory;
    }
    'scripts: for due in list.as_slice() {
        let one = run_script(
            rt, alloc, natives, shared, worker, passes, due, pages, clock, steps,
        );
        ran.push_reserved(one);
    }
    DueRun::Ran(ran)
}

/// Runs the scripts that are due, in their order, and tells of each how it ended.
///
/// It reads the clock and takes one turn on the schedule at that moment. Then it runs each script that
/// this turn listed: with a moment of its own, which is read first, and then a look at the blueprint.
/// Want of memory in one script, also at its look, doesn't keep the next one from running. The interpreter
/// is as newly made after each.
///
/// `Stopped` is answered exactly where the schedule was stopped. `NoMemory` comes only before a script was
/// run.
pub fn run_due<R: Wait, P: Pages, C: Clock, L: Ledger>(
    rt: &R,
    alloc: Global,
    natives: &Natives,
    shared: &Shared,
    worker: &mut Worker,
    passes: &mut Passes,
    pages: &mut P,
    clock: &mut C,
    steps: &mut Steps<L>,
) -> DueRun
    requires cells { Serve (names_of natives.now) shared.now passes.old }
    requires clean { IsClean (names_of natives.now) passes.old worker.old }
    ensures cells { Serve (names_of natives.now) shared.now passes.new }
    ensures units { KeepUnits passes.old passes.new }
    ensures number { worker.new.number ≡ worker.old.number }
    ensures clean { IsClean (names_of natives.now) passes.new worker.new }
    ensures runs { RunsWhatIsDue (names_of natives.now) (P.held pages.old)
        (at passes.old worker.old (C.held clock.old) None (P.faults pages.old) steps.old) result
        (at passes.new worker.new (C.held clock.new) None (P.faults pages.new) steps.new) }
    ensures held { P.held pages.new ≡ P.held pages.old }
{
    let call = SchedCall::Due(moment_of(clock.moment()));
    let turned = shared.schedule.turn(rt, &mut passes.schedule, call);
    match turned.reply {
        SchedReply::Due(list) => run_all(
            rt, alloc, natives, shared, worker, passes, &list, pages, clock, steps,
        ),
        SchedReply::Stopped => DueRun::Stopped,
        _ => DueRun::NoMemory,
    }
}
