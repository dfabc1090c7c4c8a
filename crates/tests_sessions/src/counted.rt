//! The calls of workers, for tests: each has a counter of steps of its own, and says no more than what the
//! next call asks for.

ghost use Rattle.std.specs.Prelude.{◌≡◌, ◌<◌, ◌≤◌};
ghost use Rattle.natives.specs.Names.{names_of};
ghost use Rattle.shared_state.specs.Cells.{Serve};
ghost use Rattle.tests_sessions.specs.Desks.{Works};
ghost use Rattle.worker.specs.Clean.{IsClean};

use crate::wire::text;
use cmd_table::Steps;
use natives::Natives;
use outside::{Gate, MemClock, MemPages, Sink, Source};
use shared_state::{Passes, Shared};
use std::alloc::Global;
use std::marker::Brand;
use std::sync::Wait;
use std::sync::ledger::{Blank, Ledger};
use txt_core::Text;
use worker::{DueRun, EvalEnd, Evaled, Session, Worker, do_eval, run_due, serve_session};

/// Runs a script that makes definitions, with the counter that a blank makes.
fn eval_counted<R: Wait, L: Ledger>(
    rt: &R,
    alloc: Global,
    natives: &Natives,
    shared: &Shared,
    worker: &mut Worker,
    passes: &mut Passes,
    script: &Text,
    moment: u64,
    pages: &mut MemPages,
    blank: Blank,
) -> Evaled
    requires cells { Serve (names_of natives.now) shared.now passes.old }
    requires clean { IsClean (names_of natives.now) passes.old worker.old }
    requires name { blank.name ≡ L.name }
    requires parts { blank.parts ≡ L.parts }
    requires some { 0 < blank.parts }
    ensures cells { Serve (names_of natives.now) shared.now passes.new }
    ensures clean { IsClean (names_of natives.now) passes.new worker.new }
{
    let mut steps = Steps::<L>::new(blank);
    do_eval(
        rt, alloc, natives, shared, worker, passes, script, moment, pages, &mut steps,
    )
}

/// Runs a script that makes definitions, at a moment.
pub(crate) fn define<R: Wait>(
    rt: &R,
    alloc: Global,
    shared: &Shared,
    worker: &mut Worker,
    passes: &mut Passes,
    script: &str,
    moment: u64,
    pages: &mut MemPages,
) -> EvalEnd
    requires { Works shared.now passes.old worker.old }
    ensures { Works shared.now passes.new worker.new }
{
    let natives = Natives::new(alloc);
    let script = text(alloc, script.as_bytes());
    let evaled = eval_counted::<R, Brand>(
        rt,
        alloc,
        &natives,
        shared,
        worker,
        passes,
        &script,
        moment,
        pages,
        Blank::new(1),
    );
    evaled.outcome
}

/// Runs the scripts that are due, with the counter that a blank makes.
fn due_counted<R: Wait, L: Ledger>(
    rt: &R,
    alloc: Global,
    natives: &Natives,
    shared: &Shared,
    worker: &mut Worker,
    passes: &mut Passes,
    pages: &mut MemPages,
    clock: &mut MemClock,
    blank: Blank,
) -> DueRun
    requires cells { Serve (names_of natives.now) shared.now passes.old }
    requires clean { IsClean (names_of natives.now) passes.old worker.old }
    requires name { blank.name ≡ L.name }
    requires parts { blank.parts ≡ L.parts }
    requires some { 0 < blank.parts }
    ensures cells { Serve (names_of natives.now) shared.now passes.new }
    ensures clean { IsClean (names_of natives.now) passes.new worker.new }
{
    let mut steps = Steps::<L>::new(blank);
    run_due(
        rt, alloc, natives, shared, worker, passes, pages, clock, &mut steps,
    )
}

/// Runs the scripts that are due at a moment.
pub(crate) fn run_at<R: Wait>(
    rt: &R,
    alloc: Global,
    shared: &Shared,
    worker: &mut Worker,
    passes: &mut Passes,
    pages: &mut MemPages,
    moment: u64,
) -> DueRun
    requires moment { moment ≤ 253402300799 }
    requires works { Works shared.now passes.old worker.old }
    ensures { Works shared.now passes.new worker.new }
{
    let natives = Natives::new(alloc);
    let mut clock = MemClock::new(moment, 0);
    due_counted::<R, Brand>(
        rt,
        alloc,
        &natives,
        shared,
        worker,
        passes,
        pages,
        &mut clock,
        Blank::new(1),
    )
}

/// Serves a connection at the moment 0, with the counter that a blank makes.
fn serve_counted<R: Wait, S: Source, K: Sink, G: Gate, L: Ledger>(
    rt: &R,
    alloc: Global,
    natives: &Natives,
    shared: &Shared,
    worker: &mut Worker,
    passes: &mut Passes,
    peer: &Text,
    source: &mut S,
    sink: &mut K,
    pages: &mut MemPages,
    gate: &G,
    blank: Blank,
) -> Session
    requires cells { Serve (names_of natives.now) shared.now passes.old }
    requires clean { IsClean (names_of natives.now) passes.old worker.old }
    requires name { blank.name ≡ L.name }
    requires parts { blank.parts ≡ L.parts }
    requires some { 0 < blank.parts }
    ensures cells { Serve (names_of natives.now) shared.now passes.new }
    ensures clean { IsClean (names_of natives.now) passes.new worker.new }
{
    let mut clock = MemClock::new(0, 0);
    let mut steps = Steps::<L>::new(blank);
    serve_session(
        rt, alloc, natives, shared, worker, passes, peer, source, sink, pages, &mut clock, gate,
        &mut steps,
    )
}

/// Serves a connection at the moment 0.
pub(crate) fn serve<R: Wait, S: Source, K: Sink, G: Gate>(
    rt: &R,
    alloc: Global,
    shared: &Shared,
    worker: &mut Worker,
    passes: &mut Passes,
    source: &mut S,
    sink: &mut K,
    pages: &mut MemPages,
    gate: &G,
) -> Session
    requires { Works shared.now passes.old worker.old }
    ensures { Works shared.now passes.new worker.new }
{
    let natives = Natives::new(alloc);
    let peer = text(alloc, b"127.0.0.1");
    serve_counted::<R, S, K, G, Brand>(
        rt,
        alloc,
        &natives,
        shared,
        worker,
        passes,
        &peer,
        source,
        sink,
        pages,
        gate,
        Blank::new(1),
    )
}
