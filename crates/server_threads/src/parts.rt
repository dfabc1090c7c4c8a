//! The parts that run beside the acceptor.

ghost use Rattle.conn_queue.specs.Queues.{IsOf};

use crate::roll::Roll;
use crate::staff::Staff;
use conn_queue::{ConnQueue, QPass};
use std::sync::Wait;

/// A part: what one thread changes. The one without a number keeps the time; the others serve
/// connections.
#[derive(Drop)]
pub struct Part<T, W> {
    /// The number of its worker, from 0.
    pub number: Option<u16>,
    /// Its pass of the queue.
    pub pass: QPass<T>,
    /// What it has of what is shared.
    pub own: W,
}

impl<T, W> Part<T, W> {
    /// Runs until the worker took its end mark, or until the schedule was stopped; or does nothing where it
    /// may not begin any more.
    pub(crate) fn run<V: Staff<T, W>, R: Wait + std::rt::Clock>(
        &mut self,
        rt: &R,
        staff: &V,
        queue: &ConnQueue<T>,
        roll: &Roll,
    )
        requires queue { IsOf queue.now self.old.pass }
        requires own { V.fits staff.now self.old.own }
        ensures queue { IsOf queue.now self.new.pass }
        ensures own { V.fits staff.now self.new.own }
    {
        if !roll.begin() {
            return;
        }
        match self.number {
            Some(number) => staff.work(rt, number, queue, &mut self.pass, &mut self.own),
            None => staff.keep_time(rt, &mut self.own),
        }
    }
}
