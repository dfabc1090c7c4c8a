//! What serves the connections.

ghost use Rattle.std.specs.Prelude.{◌≡◌};

use crate::counted::{look_counted, serve_counted};
use conn_queue::{ConnQueue, QPass};
use http_resp::reply_busy;
use natives::Natives;
use outside::{Clock, Gate, Pages, Sink, Source};
use sched_core::SchedCall;
use server_threads::{Conn, Serve, Staff, look_again, serve_each};
use shared_state::{Passes, Shared};
use std::alloc::Global;
use std::marker::Brand;
use std::sync::Wait;
use std::sync::ledger::Blank;
use txt_core::{MOST_WORKERS, moment_of};
use worker::{DueRun, Worker};

/// The number of the worker that runs what is due. Those that serve have the numbers below.
const KEEPER: u16 = MOST_WORKERS;

/// What all threads share.
#[derive(Drop)]
pub(crate) struct Crew<'a, G> {
    pub(crate) alloc: Global,
    pub(crate) natives: &'a Natives,
    pub(crate) shared: &'a Shared,
    pub(crate) gate: &'a G,
}

/// What a thread has for itself, beside its worker.
#[derive(Drop)]
pub(crate) struct Own<P, C> {
    pub(crate) passes: Passes,
    pub(crate) pages: P,
    pub(crate) clock: C,
}

impl<S: Source + Drop, K: Sink + Drop, P: Pages, C: Clock, G: Gate> Serve<
    Conn<S, K>,
    Own<P, C>,
    Worker,
> for Crew<'_, G> {
    ghost use Rattle.natives.specs.Names.{names_of};
    ghost use Rattle.shared_state.specs.Cells.{Serve as AreServed};
    ghost use Rattle.worker.specs.Clean.{IsClean};

    // Each thread's passes are of the cells, and its worker's interpreter is as newly made.
    ghost belongs = { λ crew worker own.
        AreServed (names_of crew.natives.now) crew.shared.now own.passes
        × IsClean (names_of crew.natives.now) own.passes worker };

    fn serve<R: Wait>(&self, rt: &R, worker: &mut Worker, own: &mut Own<P, C>, conn: Conn<S, K>) {
        serve_counted::<Brand, _, _, _, _, _, _>(rt, self, worker, own, conn, Blank::new(1));
    }

    fn look<R: Wait + std::rt::Clock>(
        &self,
        rt: &R,
        worker: &mut Worker,
        own: &mut Own<P, C>,
    ) -> bool {
        let run = look_counted::<Brand, _, _, _, _>(rt, self, worker, own, Blank::new(1));
        if let DueRun::Stopped = run {
            return false;
        }
        own.clock.pause(rt);
        true
    }
}

impl<S: Source + Drop, K: Sink + Drop, P: Pages + Drop, C: Clock + Drop, G: Gate> Staff<
    Conn<S, K>,
    Own<P, C>,
> for Crew<'_, G> {
    ghost use Rattle.natives.specs.Names.{names_of};
    ghost use Rattle.shared_state.specs.Cells.{Serve as AreServed};

    // Each thread's passes are of the cells.
    ghost fits = { λ crew own. AreServed (names_of crew.natives.now) crew.shared.now own.passes };

    fn work<R: Wait>(
        &self,
        rt: &R,
        number: u16,
        queue: &ConnQueue<Conn<S, K>>,
        pass: &mut QPass<Conn<S, K>>,
        own: &mut Own<P, C>,
    ) {
        let mut worker = Worker::new(number);
        serve_each(rt, self, queue, pass, &mut worker, own);
    }

    fn keep_time<R: Wait + std::rt::Clock>(&self, rt: &R, own: &mut Own<P, C>) {
        let mut worker = Worker::new(KEEPER);
        look_again::<Conn<S, K>, Own<P, C>, Worker, Crew<'_, G>, R>(rt, self, &mut worker, own);
    }

    fn turn_away(&self, own: &mut Own<P, C>, conn: Conn<S, K>) {
        let Conn {
            source: _,
            mut sink,
            peer: _,
        } = conn;
        let moment = moment_of(own.clock.moment());
        let _sent = reply_busy(moment, &mut sink);
    }

    fn stop<R: Wait>(&self, rt: &R, own: &mut Own<P, C>) {
        let _turned = self
            .shared
            .schedule
            .turn(rt, &mut own.passes.schedule, SchedCall::Stop);
    }

    fn join(&self, own: &mut Own<P, C>, other: Own<P, C>) {
        self.shared.join(&mut own.passes, other.passes);
    }
}
