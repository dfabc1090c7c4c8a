//! The start script.

ghost use Rattle.std.specs.Prelude.{◌≡◌, ◌<◌, ◌≤◌, Option, Some, length, IfOk, IfErr, OnOk};
ghost use Rattle.txt_core.specs.Names.{Names};
ghost use Rattle.natives.specs.Names.{names_of};
ghost use Rattle.txt_core.specs.Limits.{most_bytes};
ghost use Rattle.outside.specs.Clocks.{Dial};
ghost use Rattle.shared_state.specs.Cells.{Serve, AreOpening, KeepUnits};
ghost use Rattle.serve_run.specs.Starting.{IsPage, StartsWell};
ghost use Rattle.serve_run.specs.Stages.{Misses, EndsRun, started};

use crate::ended::StartFault;
use cmd_table::Steps;
use natives::Natives;
use outside::{Clock, PageAnswer, Pages};
use shared_state::{Passes, Shared};
use std::alloc::Global;
use std::marker::Brand;
use std::sync::Wait;
use std::sync::ledger::{Blank, Ledger};
use txt_core::{MOST_BYTES, MOST_WORKERS, Text, moment_of};
use worker::{EvalEnd, Worker, do_eval};

/// The number of the worker that runs the start script. It is none of those that serve.
const STARTER: u16 = MOST_WORKERS + 1;

/// Why the start script didn't come to a good end.
#[derive(Drop)]
pub(crate) enum NotStarted {
    /// This was wrong with it.
    Fault(StartFault),
    /// Memory ran out.
    NoMemory,
}

/// The page of the start script.
fn start_page<P: Pages>(pages: &mut P, path: &Text) -> Result<Text, NotStarted>
    ensures page { IfOk result (λ page.
        IsPage (P.held pages.old) path.now (Some page) × (length page ≤ most_bytes)) }
    ensures fault { (names : Names) (clock : Option Dial)
        → IfErr result
        (Misses names path.now (P.held pages.old) (P.faults pages.old) clock (P.faults pages.new)) }
    ensures held { P.held pages.new ≡ P.held pages.old }
    ensures faults { P.faults pages.old ≤ P.faults pages.new }
{
    match pages.page(path) {
        PageAnswer::Page(page) => {
            if page.len() > MOST_BYTES {
                Err(NotStarted::Fault(StartFault::TooLong))
            } else {
                Ok(page)
            }
        }
        PageAnswer::NoPage => Err(NotStarted::Fault(StartFault::NoPage)),
        PageAnswer::Failed => Err(NotStarted::Fault(StartFault::Unreadable)),
        PageAnswer::NoMemory => Err(NotStarted::NoMemory),
    }
}

/// Runs a script that makes definitions on cells that nobody has used yet, and counts its steps from 0.
fn define_first<L: Ledger, P: Pages, R: Wait>(
    rt: &R,
    alloc: Global,
    natives: &Natives,
    shared: &Shared,
    passes: &mut Passes,
    script: &Text,
    moment: u64,
    pages: &mut P,
    blank: Blank,
) -> EvalEnd
    requires name { blank.name ≡ L.name }
    requires parts { blank.parts ≡ L.parts }
    requires some { 0 < blank.parts }
    requires cells { Serve (names_of natives.now) shared.now passes.old }
    requires opening { AreOpening (names_of natives.now) passes.old }
    ensures cells { Serve (names_of natives.now) shared.now passes.new }
    ensures units { KeepUnits passes.old passes.new }
    ensures ran { EndsRun (names_of natives.now) (P.held pages.old) script.now moment
        (P.faults pages.old) (P.faults pages.new) result }
    ensures held { P.held pages.new ≡ P.held pages.old }
{
    let mut worker = Worker::new(STARTER);
    let mut steps = Steps::<L>::new(blank);
    let evaled = do_eval(
        rt,
        alloc,
        natives,
        shared,
        &mut worker,
        passes,
        script,
        moment,
        pages,
        &mut steps,
    );
    evaled.outcome
}

/// What is told of a start script whose run ended so.
fn started(end: EvalEnd) -> Result<(), NotStarted>
    ensures { result ≡ started end }
{
    match end {
        EvalEnd::Done { .. } => Ok(()),
        EvalEnd::Error(text) => Err(NotStarted::Fault(StartFault::Error(text))),
        EvalEnd::Spent => Err(NotStarted::Fault(StartFault::Spent)),
        EvalEnd::TooDeep => Err(NotStarted::Fault(StartFault::TooDeep)),
        EvalEnd::NoMemory => Err(NotStarted::NoMemory),
    }
}

/// Reads the page at this path and runs it as a script that makes definitions, on cells that nobody has
/// used yet, at the next moment of the clock.
pub(crate) fn start<P: Pages, C: Clock, R: Wait>(
    rt: &R,
    alloc: Global,
    natives: &Natives,
    shared: &Shared,
    passes: &mut Passes,
    path: &Text,
    pages: &mut P,
    clock: &mut C,
) -> Result<(), NotStarted>
    requires cells { Serve (names_of natives.now) shared.now passes.old }
    requires opening { AreOpening (names_of natives.now) passes.old }
    ensures cells { Serve (names_of natives.now) shared.now passes.new }
    ensures units { KeepUnits passes.old passes.new }
    ensures well { OnOk result
        (StartsWell (names_of natives.now) path.now (P.held pages.old) (P.faults pages.old)
        (C.held clock.old) (P.faults pages.new)) }
    ensures fault { IfErr result
        (Misses (names_of natives.now) path.now (P.held pages.old) (P.faults pages.old)
        (C.held clock.old) (P.faults pages.new)) }
    ensures held { P.held pages.new ≡ P.held pages.old }
{
    let page = start_page(pages, path)?;
    let moment = moment_of(clock.moment());
    let end = define_first::<Brand, _, _>(
        rt,
        alloc,
        natives,
        shared,
        passes,
        &page,
        moment,
        pages,
        Blank::new(1),
    );
    started(end)
}
