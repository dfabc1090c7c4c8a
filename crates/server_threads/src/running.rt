//! Serving what a net gives, with all parts.

ghost use Rattle.std.specs.Prelude.{◌≡◌, ◌<◌, ◌≤◌, ◌+◌, vec_len, IfOk, OnErr};
ghost use Rattle.std.specs.List.{All};
ghost use Rattle.txt_core.specs.Shares.{WHOLE};
ghost use Rattle.conn_queue.specs.Queues.{IsOf, pass_view};
ghost use Rattle.outside.specs.Nets.{IsNew};
ghost use Rattle.server_threads.specs.Limits.{most_parts};
ghost use Rattle.server_threads.specs.Stops.{Stops};

use crate::accepting::{Stop, accept_all};
use crate::parts::Part;
use crate::roll::{MOST_LOOKS, Roll};
use crate::side::side_by_side;
use crate::staff::{Arrives, Staff};
use conn_queue::{ConnQueue, QPass};
use outside::Net;
use std::alloc::Global;
use std::net::{TcpListener, TcpStream};
use std::sync::Wait;
use std::thread::Threads;
use txt_core::NoMemory;

/// How much is served, and how.
#[derive(Clone, Copy, Debug)]
pub struct Plan {
    /// How many connections wait for a worker at most.
    pub room: usize,
    /// After how many connections the acceptor stops; at 0 it goes on.
    pub connections: u64,
    pub ghost some: { 0 < room },
}

/// Serves what a new net gives, until it has ended or so many connections were given. Then the queue is
/// closed and the schedule stopped, and all parts end.
///
/// Of the values in `owns` the first is for the part that keeps the time, and each other one for a
/// worker, which are numbered from 0. When the parts have ended, `own` takes in all of them. The one
/// error is want of memory, which comes before a connection is accepted.
///
/// Connections are accepted when all parts have begun. Where some haven't within ten seconds, since the
/// system makes no thread for them, it stops for want of memory, and no connection was accepted.
pub fn serve_all<
    T: Arrives<N::S, N::K> + Send + Drop,
    W: Send + Drop,
    V: Staff<T, W> + Sync,
    N: Net,
    R: Threads
        + Wait
        + Sync
        + std::rt::Clock
        + std::net::Net<Listener = TcpListener, Stream = TcpStream>,
>(
    rt: &R,
    alloc: Global,
    staff: &V,
    plan: Plan,
    owns: Vec<W>,
    own: &mut W,
    net: &mut N,
) -> Result<Stop, NoMemory>
    requires own { V.fits staff.now own.old }
    requires owns { All (V.fits staff.now) owns.items }
    requires few { vec_len owns ≤ most_parts }
    requires new { IsNew (N.state net.old) }
    ensures own { V.fits staff.now own.new }
    ensures stops { IfOk result (λ stop.
        Stops plan.connections (N.state net.old) stop (N.state net.new)) }
    ensures none { OnErr result (N.state net.new ≡ N.state net.old) }
{
    let (queue, mut pass) = ConnQueue::<T>::new(alloc, plan.room)?;
    let mut parts = parts_of(alloc, staff, &queue, &mut pass, owns)?;
    let stop = run_beside(
        rt,
        staff,
        &queue,
        plan.connections,
        parts.as_mut_slice(),
        &mut pass,
        own,
        net,
    );
    join_all(staff, &queue, parts, &mut pass, own);
    Ok(stop)
}

// A part for each of the values: the keeper of time, and the workers.
fn parts_of<T: Drop, W: Drop, V: Staff<T, W>>(
    alloc: Global,
    staff: &V,
    queue: &ConnQueue<T>,
    pass: &mut QPass<T>,
    owns: Vec<W>,
) -> Result<Vec<Part<T, W>>, NoMemory>
    requires queue { IsOf queue.now pass.old }
    requires units { (pass_view pass.old).units ≡ WHOLE }
    requires owns { All (V.fits staff.now) owns.items }
    requires few { vec_len owns ≤ most_parts }
    ensures queue { IsOf queue.now pass.new }
    ensures parts { IfOk result (λ parts.
        All (λ part. IsOf queue.now part.pass × V.fits staff.now part.own) parts.items) }
{
    let mut parts = Vec::new(alloc);
    let mut next = None;
    for own in owns {
        parts.push(Part {
            number: next,
            pass: queue.split(pass)?,
            own,
        })?;
        next = Some(match next {
            None => 0,
            Some(number) => u16::saturating_add(number, 1),
        });
    }
    Ok(parts)
}

// Runs the parts, all but the first of which are workers, beside the acceptor, until all have ended.
fn run_beside<
    T: Arrives<N::S, N::K> + Send + Drop,
    W: Send + Drop,
    V: Staff<T, W> + Sync,
    N: Net,
    R: Threads
        + Wait
        + Sync
        + std::rt::Clock
        + std::net::Net<Listener = TcpListener, Stream = TcpStream>,
>(
    rt: &R,
    staff: &V,
    queue: &ConnQueue<T>,
    connections: u64,
    parts: &mut [Part<T, W>],
    pass: &mut QPass<T>,
    own: &mut W,
    net: &mut N,
) -> Stop
    requires queue { IsOf queue.now pass.old }
    requires own { V.fits staff.now own.old }
    requires parts { All (λ part. IsOf queue.now part.pass × V.fits staff.now part.own) parts.old }
    requires new { IsNew (N.state net.old) }
    ensures queue { IsOf queue.now pass.new }
    ensures own { V.fits staff.now own.new }
    ensures parts { All (λ part. IsOf queue.now part.pass × V.fits staff.now part.own) parts.new }
    ensures stops { Stops connections (N.state net.old) result (N.state net.new) }
{
    let count = u16::try_from(parts.len()).unwrap_or(u16::MAX);
    let roll = Roll::new();
    let called = &roll;
    side_by_side(
        rt,
        parts,
        &|_at, part| part.run(rt, staff, queue, called),
        &mut || -> Stop
            requires { IsOf queue.now pass.now × V.fits staff.now own.now
                × IsNew (N.state net.now) }
            ensures { IsOf queue.entry.now pass.exit.now × V.fits staff.entry.now own.exit.now
                × Stops connections (N.state net.entry.now) result (N.state net.exit.now) }
        { accept_and_stop(rt, staff, queue, called, connections, count, pass, own, net) },
    )
}

// Accepts when all parts have begun, and then ends them.
fn accept_and_stop<
    T: Arrives<N::S, N::K>,
    W,
    V: Staff<T, W>,
    N: Net,
    R: Wait + std::rt::Clock + std::net::Net<Listener = TcpListener, Stream = TcpStream>,
>(
    rt: &R,
    staff: &V,
    queue: &ConnQueue<T>,
    roll: &Roll,
    connections: u64,
    parts: u16,
    pass: &mut QPass<T>,
    own: &mut W,
    net: &mut N,
) -> Stop
    requires queue { IsOf queue.now pass.old }
    requires own { V.fits staff.now own.old }
    requires new { IsNew (N.state net.old) }
    ensures queue { IsOf queue.now pass.new }
    ensures own { V.fits staff.now own.new }
    ensures stops { Stops connections (N.state net.old) result (N.state net.new) }
{
    if let Err(begun) = roll.await_all(rt, u64::from(parts), MOST_LOOKS) {
        // the keeper of time may be among them: the mark too many stays in the queue
        let begun = u16::try_from(begun).unwrap_or(u16::MAX);
        end_parts(rt, staff, queue, begun, pass, own);
        return Stop::NoMemory;
    }
    let stop = accept_all(rt, staff, queue, connections, pass, own, net);
    end_parts(rt, staff, queue, parts.saturating_sub(1), pass, own);
    stop
}

// Closes the queue for so many workers, and stops the schedule.
fn end_parts<T, W, V: Staff<T, W>, R: Wait>(
    rt: &R,
    staff: &V,
    queue: &ConnQueue<T>,
    workers: u16,
    pass: &mut QPass<T>,
    own: &mut W,
)
    requires queue { IsOf queue.now pass.old }
    requires own { V.fits staff.now own.old }
    ensures queue { IsOf queue.now pass.new }
    ensures own { V.fits staff.now own.new }
{
    queue.close(rt, pass, workers);
    staff.stop(rt, own);
}

// Takes in the passes and the values of the parts.
fn join_all<T: Drop, W: Drop, V: Staff<T, W>>(
    staff: &V,
    queue: &ConnQueue<T>,
    parts: Vec<Part<T, W>>,
    pass: &mut QPass<T>,
    own: &mut W,
)
    requires queue { IsOf queue.now pass.old }
    requires own { V.fits staff.now own.old }
    requires parts { All (λ part. IsOf queue.now part.pass × V.fits staff.now part.own)
        parts.items }
    ensures own { V.fits staff.now own.new }
{
    for part in parts {
        let Part {
            number: _,
            pass: seat,
            own: other,
        } = part;
        queue.join(pass, seat);
        staff.join(own, other);
    }
}
