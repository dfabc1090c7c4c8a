//! A session, and a look for what is due, each of which counts its steps from 0.

ghost use Rattle.std.specs.Prelude.{◌≡◌, ◌<◌};
ghost use Rattle.natives.specs.Names.{names_of};
ghost use Rattle.shared_state.specs.Cells.{Serve};
ghost use Rattle.worker.specs.Clean.{IsClean};

use crate::crew::{Crew, Own};
use cmd_table::Steps;
use outside::{Clock, Gate, Pages, Sink, Source};
use server_threads::Conn;
use std::sync::Wait;
use std::sync::ledger::{Blank, Ledger};
use worker::{DueRun, Worker, run_due, serve_session};

/// Serves a connection to its end.
pub(crate) fn serve_counted<
    L: Ledger,
    S: Source + Drop,
    K: Sink + Drop,
    P: Pages,
    C: Clock,
    G: Gate,
    R: Wait,
>(
    rt: &R,
    crew: &Crew<'_, G>,
    worker: &mut Worker,
    own: &mut Own<P, C>,
    conn: Conn<S, K>,
    blank: Blank,
)
    requires name { blank.name ≡ L.name }
    requires parts { blank.parts ≡ L.parts }
    requires some { 0 < blank.parts }
    requires cells { Serve (names_of crew.now.natives.now) crew.now.shared.now own.old.passes }
    requires clean { IsClean (names_of crew.now.natives.now) own.old.passes worker.old }
    ensures cells { Serve (names_of crew.now.natives.now) crew.now.shared.now own.new.passes }
    ensures clean { IsClean (names_of crew.now.natives.now) own.new.passes worker.new }
{
    let Conn {
        mut source,
        mut sink,
        peer,
    } = conn;
    let mut steps = Steps::<L>::new(blank);
    let _session = serve_session(
        rt,
        crew.alloc,
        crew.natives,
        crew.shared,
        worker,
        &mut own.passes,
        &peer,
        &mut source,
        &mut sink,
        &mut own.pages,
        &mut own.clock,
        crew.gate,
        &mut steps,
    );
}

/// Runs what is due.
pub(crate) fn look_counted<L: Ledger, P: Pages, C: Clock, G: Gate, R: Wait>(
    rt: &R,
    crew: &Crew<'_, G>,
    worker: &mut Worker,
    own: &mut Own<P, C>,
    blank: Blank,
) -> DueRun
    requires name { blank.name ≡ L.name }
    requires parts { blank.parts ≡ L.parts }
    requires some { 0 < blank.parts }
    requires cells { Serve (names_of crew.now.natives.now) crew.now.shared.now own.old.passes }
    requires clean { IsClean (names_of crew.now.natives.now) own.old.passes worker.old }
    ensures cells { Serve (names_of crew.now.natives.now) crew.now.shared.now own.new.passes }
    ensures clean { IsClean (names_of crew.now.natives.now) own.new.passes worker.new }
{
    let mut steps = Steps::<L>::new(blank);
    run_due(
        rt,
        crew.alloc,
        crew.natives,
        crew.shared,
        worker,
        &mut own.passes,
        &mut own.pages,
        &mut own.clock,
        &mut steps,
    )
}
