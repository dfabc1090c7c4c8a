//! What is done with connections, and what is due.

ghost use Rattle.conn_queue.specs.Queues.{IsOf};

use conn_queue::{ConnQueue, QPass};
use std::sync::Wait;
use txt_core::Text;

/// What is put into a queue for a connection of a net.
pub trait Arrives<S, K>: Sized {
    /// The connection with these two ends and this peer.
    fn arrive(source: S, sink: K, peer: Text) -> Self;
}

/// A connection on its way to a worker.
#[derive(Drop)]
pub struct Conn<S, K> {
    /// Where its peer's bytes come from.
    pub source: S,
    /// Where the bytes for its peer go.
    pub sink: K,
    /// Its peer's name.
    pub peer: Text,
}

impl<S, K> Arrives<S, K> for Conn<S, K> {
    fn arrive(source: S, sink: K, peer: Text) -> Conn<S, K> {
        Conn { source, sink, peer }
    }
}

/// What serves connections of the type `T`. All threads share it, and each has besides a value of the type
/// `W` that it changes.
pub trait Staff<T, W> {
    /// This value of a thread belongs to what is shared.
    ghost fits: { Self → W → Type 0 };

    /// Serves the connections that this pass takes out of the queue, as the worker of this number, until
    /// it took an end mark. `serve_each` is its loop.
    fn work<R: Wait>(
        &self,
        rt: &R,
        number: u16,
        queue: &ConnQueue<T>,
        pass: &mut QPass<T>,
        own: &mut W,
    )
        requires queue { IsOf queue.now pass.old }
        requires own { fits self.now own.old }
        ensures queue { IsOf queue.now pass.new }
        ensures own { fits self.now own.new };

    /// Runs what is due, again and again, until the schedule was stopped. `look_again` is its loop.
    fn keep_time<R: Wait + std::rt::Clock>(&self, rt: &R, own: &mut W)
        requires { fits self.now own.old }
        ensures { fits self.now own.new };

    /// Tells a connection for which there is no room that all are busy, and lets it go.
    fn turn_away(&self, own: &mut W, conn: T)
        requires { fits self.now own.old }
        ensures { fits self.now own.new };

    /// Stops the schedule.
    fn stop<R: Wait>(&self, rt: &R, own: &mut W)
        requires { fits self.now own.old }
        ensures { fits self.now own.new };

    /// Takes in what another thread had, when that thread has ended.
    fn join(&self, own: &mut W, other: W)
        requires own { fits self.now own.old }
        requires other { fits self.now other }
        ensures { fits self.now own.new };
}

/// What one thread does with a connection, and at one look for what is due, with a worker of the type `K`
/// that it made for itself and hands to no other.
pub trait Serve<T, W, K> {
    /// This value of a thread belongs to what is shared, and to this worker of it.
    ghost belongs: { Self → K → W → Type 0 };

    /// Serves a connection to its end.
    fn serve<R: Wait>(&self, rt: &R, worker: &mut K, own: &mut W, conn: T)
        requires { belongs self.now worker.old own.old }
        ensures { belongs self.now worker.new own.new };

    /// Runs what is due, and lets a while pass. It answers false where the schedule was stopped.
    fn look<R: Wait + std::rt::Clock>(&self, rt: &R, worker: &mut K, own: &mut W) -> bool
        requires { belongs self.now worker.old own.old }
        ensures { belongs self.now worker.new own.new };
}

/// Serves each connection that the pass takes out of the queue, until it took an end mark.
pub fn serve_each<T, W, K, V: Serve<T, W, K>, R: Wait>(
    rt: &R,
    staff: &V,
    queue: &ConnQueue<T>,
    pass: &mut QPass<T>,
    worker: &mut K,
    own: &mut W,
)
    requires queue { IsOf queue.now pass.old }
    requires own { V.belongs staff.now worker.old own.old }
    ensures queue { IsOf queue.now pass.new }
    ensures own { V.belongs staff.now worker.new own.new }
{
    for _ in rt.forever() {
        match queue.take(rt, pass) {
            Some(conn) => staff.serve(rt, worker, own, conn),
            None => return,
        }
    }
}

/// Looks for what is due again and again, until the schedule was stopped.
pub fn look_again<T, W, K, V: Serve<T, W, K>, R: Wait + std::rt::Clock>(
    rt: &R,
    staff: &V,
    worker: &mut K,
    own: &mut W,
)
    requires { V.belongs staff.now worker.old own.old }
    ensures { V.belongs staff.now worker.new own.new }
{
    for _ in rt.forever() {
        if !staff.look(rt, worker, own) {
            return;
        }
    }
}
