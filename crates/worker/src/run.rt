//! Runs, with their questions answered.

ghost use Rattle.std.specs.Prelude.{◌≡◌, ◌≤◌, ◌+◌, [], ℕ, List};
ghost use Rattle.natives.specs.Names.{names_of};
ghost use Rattle.shared_state.specs.Cells.{AreOf};
ghost use Rattle.outside.specs.declared.question.Answer.{Answer as Given};
ghost use Rattle.ictl.specs.Main.{Progress};
ghost use Rattle.ictl.specs.Interps.{gives, taken, interp_written, Counts, IsSameRun, StaysSound, IsWithin};
ghost use Rattle.ictl.specs.Came.{IsAtQuestion};
ghost use Rattle.worker.specs.Asking.{Hears, StandsFor, StaysWithin};
ghost use Rattle.worker.specs.Clean.{edition_in};
ghost use Rattle.worker.specs.Resetting.{Resets, RunsToEnd};
ghost use Rattle.worker.specs.Resuming.{Resumes};

use crate::ask::answer;
use crate::heard::Heard;
use crate::worker::Worker;
use cmd_table::Steps;
use ictl::{BoxedInterp, Next, Run, questions_are_asked};
use natives::Natives;
use outside::{Answer, Pages};
use shared_state::{Passes, Shared};
use std::alloc::Global;
use std::sync::Wait;
use std::sync::ledger::Ledger;
use txt_core::NoMemory;

/// Goes on with the answer to the question at which the run stands.
fn go_on<L: Ledger>(run: &mut Run, natives: &Natives, answer: Answer, steps: &mut Steps<L>)
    requires { IsAtQuestion run.old }
    ensures { Resumes (names_of natives.now) answer run.new.next steps.old steps.new run.new.interp
        run.old.interp }
{
    run.resume(natives, answer, steps);
}

/// Goes on with a run and answers each of its questions, until something else comes of it: a response, its
/// end, or want of memory, there or here.
pub(crate) fn answer_all<R: Wait, P: Pages, L: Ledger>(
    rt: &R,
    alloc: Global,
    natives: &Natives,
    shared: &Shared,
    passes: &mut Passes,
    pages: &mut P,
    run: &mut Run,
    moment: u64,
    heard: &mut Heard,
    steps: &mut Steps<L>,
)
    requires { AreOf shared.now passes.old }
    ensures cells { AreOf shared.now passes.new }
    ensures hears { let names = names_of natives.now in
        (inside : ℕ)
        → Hears names moment (λ further. gives names run.old.next inside run.old.interp further)
        passes.old (P.held pages.old) (P.faults pages.old) heard.old.published heard.old.answers
        run.new.next (inside + taken names steps.new steps.old run.new.interp run.old.interp)
        run.new.interp passes.new (P.faults pages.new) heard.new.published heard.new.answers }
    ensures within { let names = names_of natives.now in
        (of : List Given → Progress) (inside written before : ℕ)
        → StandsFor names of run.old.next inside run.old.interp
        → steps.old + written ≤ before + inside + interp_written names run.old.interp
        → IsWithin written before steps.old run.old.interp (of [])
        → StaysWithin names of heard.old.answers run.new.next
        (inside + taken names steps.new steps.old run.new.interp run.old.interp) run.new.interp
        heard.new.answers written before steps.new }
    ensures counts { Counts (names_of natives.now) steps.new steps.old run.new.interp
        run.old.interp }
    ensures same { IsSameRun run.new.interp run.old.interp }
    ensures blueprint { edition_in run.new.interp ≡ edition_in run.old.interp }
    ensures sound { StaysSound run.new.interp run.old.interp }
    ensures held { P.held pages.new ≡ P.held pages.old }
{
    // A question is open to its answer.
    questions_are_asked();
    'questions: loop {
        let Some(question) = run.take_question() else {
            return;
        };
        match answer(rt, alloc, shared, passes, pages, moment, question, heard) {
            Ok(answer) => go_on(run, natives, answer, steps),
            Err(NoMemory) => {
                run.give_up();
                return;
            }
        }
    }
}

/// Ends a run: what it answered last, and its interpreter, which is as newly made. It takes no memory.
pub(crate) fn end_run<L: Ledger>(run: Run, steps: &mut Steps<L>) -> (Next, BoxedInterp)
    ensures { Resets result.0 run.next steps.old steps.new result.1 run.interp }
{
    let (last, mut interp) = run.into_parts();
    interp.reset(steps);
    (last, interp)
}

/// Answers each question of a run to its end, and gives the worker the interpreter, which is as newly made.
/// Gives what the run answered last, and what it was answered.
pub(crate) fn run_to_end<R: Wait, P: Pages, L: Ledger>(
    rt: &R,
    alloc: Global,
    natives: &Natives,
    shared: &Shared,
    worker: &mut Worker,
    passes: &mut Passes,
    pages: &mut P,
    mut run: Run,
    moment: u64,
    steps: &mut Steps<L>,
) -> (Next, Heard)
    requires { AreOf shared.now passes.old }
    ensures cells { AreOf shared.now passes.new }
    ensures number { worker.new.number ≡ worker.old.number }
    ensures ends { RunsToEnd (names_of natives.now) moment (P.held pages.old) run passes.old
        (P.faults pages.old) steps.old result.0 result.1.published result.1.answers
        worker.new.interp passes.new (P.faults pages.new) steps.new }
    ensures held { P.held pages.new ≡ P.held pages.old }
{
    let mut heard = Heard::new(alloc);
    answer_all(
        rt, alloc, natives, shared, passes, pages, &mut run, moment, &mut heard, steps,
    );
    let (last, interp) = end_run(run, steps);
    worker.interp = Some(interp);
    (last, heard)
}
