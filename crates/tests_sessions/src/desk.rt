//! A worker at the cells that it uses.

ghost use Rattle.std.specs.Prelude.{◌≤◌};
ghost use Rattle.tests_sessions.specs.Desks.{Works};

use crate::counted::{define, run_at, serve};
use crate::wire::{Told, Wire, no_pages, sink_of, source_of, tell};
use outside::{Gate, MemPages, MemSink, MemSource, OpenGate, Sink, Source};
use shared_state::{Passes, Shared};
use std::alloc::Global;
use std::marker::Model;
use std::sync::Wait;
use worker::{DueRun, EvalEnd, Session, Worker};

/// A worker at the cells that it uses, and its passes. That its calls may be made is true of every desk, so
/// contracts see nothing of it.
#[derive(Drop)]
pub(crate) struct Desk<'a> {
    shared: &'a Shared,
    passes: Passes,
    worker: Worker,
}

impl<'a> Model for Desk<'a> {
    ghost use Rattle.std.specs.Prelude.{ℕ};

    ghost Value = { ℕ };

    ghost use Rattle.tests_sessions.specs.Desks.{Works};

    ghost view = { λ desk. 0 };

    ghost invariant = { λ desk. Works desk.shared.now desk.passes desk.worker };
}

impl<'a> Desk<'a> {
    /// This worker, at these cells.
    pub fn new(shared: &'a Shared, passes: Passes, worker: Worker) -> Desk<'a>
        requires { Works shared.now passes worker }
    {
        Desk {
            shared,
            passes,
            worker,
        }
    }

    /// Runs a script that makes definitions, at a moment, where there is no page.
    pub fn define_at<R: Wait>(
        &mut self,
        rt: &R,
        alloc: Global,
        script: &str,
        moment: u64,
    ) -> EvalEnd {
        let mut pages = no_pages(alloc);
        define(
            rt,
            alloc,
            self.shared,
            &mut self.worker,
            &mut self.passes,
            script,
            moment,
            &mut pages,
        )
    }

    /// Runs a script that makes definitions, at the moment 0.
    pub fn define<R: Wait>(&mut self, rt: &R, alloc: Global, script: &str) -> EvalEnd {
        self.define_at(rt, alloc, script, 0)
    }

    /// Runs the scripts that are due at a moment, with these pages.
    pub fn run_due<R: Wait>(
        &mut self,
        rt: &R,
        alloc: Global,
        moment: u64,
        pages: &mut MemPages,
    ) -> DueRun
        requires { moment ≤ 253402300799 }
    {
        run_at(
            rt,
            alloc,
            self.shared,
            &mut self.worker,
            &mut self.passes,
            pages,
            moment,
        )
    }

    /// Serves a connection at the moment 0, with these pages and a gate.
    pub fn session<R: Wait, S: Source, K: Sink, G: Gate>(
        &mut self,
        rt: &R,
        alloc: Global,
        source: &mut S,
        sink: &mut K,
        pages: &mut MemPages,
        gate: &G,
    ) -> Session {
        serve(
            rt,
            alloc,
            self.shared,
            &mut self.worker,
            &mut self.passes,
            source,
            sink,
            pages,
            gate,
        )
    }

    /// Serves what comes on a wire, with these pages and a gate.
    pub fn serve_at<R: Wait, G: Gate>(
        &mut self,
        rt: &R,
        alloc: Global,
        wire: Wire<'_>,
        pages: &mut MemPages,
        gate: &G,
    ) -> Told
        requires { (1 ≤ wire.read_piece) × (1 ≤ wire.write_piece) }
    {
        let mut source = source_of(alloc, &wire);
        let mut sink = sink_of(alloc, &wire);
        self.told(rt, alloc, &mut source, &mut sink, pages, gate)
    }

    /// Serves a connection, and tells what came of it.
    fn told<R: Wait, G: Gate>(
        &mut self,
        rt: &R,
        alloc: Global,
        source: &mut MemSource,
        sink: &mut MemSink,
        pages: &mut MemPages,
        gate: &G,
    ) -> Told {
        let session = self.session(rt, alloc, source, sink, pages, gate);
        tell(alloc, &session, sink)
    }

    /// Serves what comes on a wire, where there is no page.
    pub fn serve<R: Wait>(&mut self, rt: &R, alloc: Global, wire: Wire<'_>) -> Told
        requires { (1 ≤ wire.read_piece) × (1 ≤ wire.write_piece) }
    {
        let mut pages = no_pages(alloc);
        self.serve_at(rt, alloc, wire, &mut pages, &OpenGate)
    }
}
