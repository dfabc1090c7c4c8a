//! Nets in memory, served by several threads.
ghost use Rattle.std.specs.Prelude.{◌≤◌, ◌<◌, vec_len};

use conn_queue::{ConnQueue, QPass};
use outside::{MemConn, MemNet, MemSource, Replies, ReplySink, write_all};
use server_threads::{Conn, Plan, Serve, Staff, Stop, look_again, serve_all, serve_each};
use std::alloc::Global;
use std::net::{TcpListener, TcpStream};
use std::rt::Clock;
use std::sync::Wait;
use std::sync::atomic::{AtomicBool, AtomicU64, Ordering};
use std::test::*;
use std::thread::{self, Threads};
use std::time::Duration;
use txt_core::{NoMemory, Text};

/// What a connection that is served gets.
const REPLY: &[u8] = b"served\n";

/// What a connection gets for which there is no room.
const BUSY: &[u8] = b"busy\n";

/// What a thread has: how many connections it served.
#[derive(Drop)]
struct Own {
    served: u64,
}

/// What a worker has for itself: nothing.
#[derive(Drop)]
struct Idle;

/// Answers each connection with one text.
#[derive(Drop)]
struct Desk {
    replies: Replies,
    // The first connection of each thread waits until another one was turned away.
    waits_for_busy: bool,
    // The first connection of each thread waits until the time was kept twice.
    waits_for_time: bool,
    kept: AtomicU64,
    stopped: AtomicBool,
}

impl Desk {
    fn new(replies: Replies) -> Desk {
        Desk {
            replies,
            waits_for_busy: false,
            waits_for_time: false,
            kept: AtomicU64::new(0),
            stopped: AtomicBool::new(false),
        }
    }

    /// Whether one of the first connections was turned away.
    fn is_busy<R: Wait>(&self, rt: &R) -> bool {
        for number in 0..3 {
            if let Ok(Some(text)) = self.replies.taken(rt, number) {
                if text.bytes() == BUSY {
                    return true;
                }
            }
        }
        false
    }

    /// Waits for what the desk says. It comes in any case: with room for one, a connection is turned away
    /// while the first is held, and the time is kept until it was kept twice.
    fn hold<R: Wait>(&self, rt: &R) {
        for _ in rt.forever() {
            let busy = !self.waits_for_busy || self.is_busy(rt);
            let kept = !self.waits_for_time || 2 <= self.kept.load(Ordering::SeqCst);
            if busy && kept {
                return;
            }
            thread::yield_now();
        }
    }
}

impl<K: Wait + Drop> Serve<Conn<MemSource, ReplySink<K>>, Own, Idle> for Desk {
    ghost belongs = { λ desk worker own. Unit {0} };

    fn serve<R: Wait>(
        &self,
        rt: &R,
        _worker: &mut Idle,
        own: &mut Own,
        conn: Conn<MemSource, ReplySink<K>>,
    ) {
        if own.served == 0 {
            self.hold(rt);
        }
        own.served = own.served.saturating_add(1);
        answer(conn, REPLY);
    }

    fn look<R: Wait + Clock>(&self, rt: &R, _worker: &mut Idle, _own: &mut Own) -> bool {
        let earlier = self.kept.fetch_add(1, Ordering::SeqCst);
        thread::sleep(rt, Duration::from_millis(1));
        earlier == 0 || !self.stopped.load(Ordering::SeqCst)
    }
}

impl<K: Wait + Drop> Staff<Conn<MemSource, ReplySink<K>>, Own> for Desk {
    ghost fits = { λ desk own. Unit {0} };

    fn work<R: Wait>(
        &self,
        rt: &R,
        _number: u16,
        queue: &ConnQueue<Conn<MemSource, ReplySink<K>>>,
        pass: &mut QPass<Conn<MemSource, ReplySink<K>>>,
        own: &mut Own,
    ) {
        let mut worker = Idle;
        serve_each(rt, self, queue, pass, &mut worker, own);
    }

    fn keep_time<R: Wait + Clock>(&self, rt: &R, own: &mut Own) {
        let mut worker = Idle;
        look_again::<Conn<MemSource, ReplySink<K>>, Own, Idle, Desk, R>(rt, self, &mut worker, own);
    }

    fn turn_away(&self, _own: &mut Own, conn: Conn<MemSource, ReplySink<K>>) {
        answer(conn, BUSY);
    }

    fn stop<R: Wait>(&self, _rt: &R, _own: &mut Own) {
        self.stopped.store(true, Ordering::SeqCst);
    }

    fn join(&self, own: &mut Own, other: Own) {
        own.served = own.served.saturating_add(other.served);
    }
}

/// Writes a text to a connection, and lets it go.
fn answer<K: Wait + Drop>(conn: Conn<MemSource, ReplySink<K>>, text: &[u8]) {
    let Conn {
        source: _,
        mut sink,
        peer: _,
    } = conn;
    let _sent = write_all(&mut sink, text);
}

/// So many connections that send nothing.
fn silent(alloc: Global, count: u64) -> Result<Vec<MemConn>, NoMemory> {
    let mut conns = Vec::new(alloc);
    for _number in 0..count {
        conns.push(MemConn {
            input: Text::empty(alloc),
            peer: Text::empty(alloc),
            piece: 4,
            reads: Vec::new(alloc),
            writes: Vec::new(alloc),
        })?;
    }
    Ok(conns)
}

/// What each thread has at first.
fn owns_of(alloc: Global, workers: u16) -> Result<Vec<Own>, NoMemory> {
    let mut owns = Vec::new(alloc);
    for _number in 0..workers.saturating_add(1) {
        owns.push(Own { served: 0 })?;
    }
    Ok(owns)
}

/// How a run ended, and how many connections were served.
type Ended = (Stop, u64);

/// What a net is made of: where its replies go, its connections, and the numbers of the accepts that fail.
#[derive(Drop)]
struct Visits {
    replies: Replies,
    conns: Vec<MemConn>,
    fails: Vec<u64>,
}

/// So many connections that send nothing, whose replies go to a desk.
fn visits_of(alloc: Global, desk: &Desk, count: u64, fails: &[u64]) -> Result<Visits, NoMemory> {
    let replies = desk.replies.copy()?;
    let conns = silent(alloc, count)?;
    let fails = Vec::from_slice(alloc, fails)?;
    Ok(Visits {
        replies,
        conns,
        fails,
    })
}

/// Serves what a net of these gives, by as many threads as have something.
fn serve<
    R: Threads
        + Wait
        + Sync
        + Clock
        + std::net::Net<Listener = TcpListener, Stream = TcpStream>
        + Copy
        + Send
        + Drop,
>(
    rt: &R,
    alloc: Global,
    desk: &Desk,
    visits: Visits,
    owns: Vec<Own>,
    plan: Plan,
) -> Result<Ended, NoMemory>
    requires { vec_len owns ≤ 1000 }
{
    let Visits {
        replies,
        conns,
        fails,
    } = visits;
    let mut own = Own { served: 0 };
    let mut net = MemNet::new(*rt, replies, conns, fails);
    let stop = serve_all(rt, alloc, desk, plan, owns, &mut own, &mut net)?;
    Ok((stop, own.served))
}

/// Serves so many connections by so many workers. The accepts whose numbers are listed fail.
fn play<
    R: Threads
        + Wait
        + Sync
        + Clock
        + std::net::Net<Listener = TcpListener, Stream = TcpStream>
        + Copy
        + Send
        + Drop,
>(
    rt: &R,
    alloc: Global,
    desk: &Desk,
    count: u64,
    fails: &[u64],
    workers: u16,
    plan: Plan,
) -> Result<Ended, NoMemory>
    requires { workers ≤ 16 }
{
    let owns = owns_of(alloc, workers)?;
    if owns.len() > 1000 {
        return Err(NoMemory);
    }
    let visits = visits_of(alloc, desk, count, fails)?;
    serve(rt, alloc, desk, visits, owns, plan)
}

/// A plan with so much room, for so many connections.
fn plan(room: usize, connections: u64) -> Plan
    requires { 0 < room }
{
    Plan { room, connections }
}

/// Whether so many connections got the reply of one that is served.
fn are_served<R: Wait>(rt: &R, replies: &Replies, count: u64) -> Result<bool, NoMemory> {
    for number in 0..count {
        let text = replies.taken(rt, number)?;
        if !text.is_some_and(|text| text.bytes() == REPLY) {
            return Ok(false);
        }
    }
    Ok(true)
}

#[test]
fn each_is_served(rt: HostRuntime) -> Result<(), Fail> {
    let desk = Desk::new(Replies::new(rt.alloc())?);
    let ended = play(&rt, rt.alloc(), &desk, 300, &[], 4, plan(300, 300))?;
    assert_eq!(rt; ended, (Stop::Reached, 300));
    assert!(rt; are_served(&rt, &desk.replies, 300)?);
    Ok(())
}

#[test]
fn one_is_turned_away(rt: HostRuntime) -> Result<(), Fail> {
    let mut desk = Desk::new(Replies::new(rt.alloc())?);
    desk.waits_for_busy = true;
    let ended = play(&rt, rt.alloc(), &desk, 3, &[], 1, plan(1, 0))?;
    assert!(rt; ended.0 == Stop::Closed && 1 <= ended.1 && ended.1 <= 2);
    assert!(rt; desk.is_busy(&rt));
    Ok(())
}

#[test]
fn time_is_kept(rt: HostRuntime) -> Result<(), Fail> {
    let mut desk = Desk::new(Replies::new(rt.alloc())?);
    desk.waits_for_time = true;
    let ended = play(&rt, rt.alloc(), &desk, 1, &[], 1, plan(1, 1))?;
    assert_eq!(rt; ended, (Stop::Reached, 1));
    assert!(rt; 2 <= desk.kept.load(Ordering::SeqCst));
    Ok(())
}

#[test]
fn a_fault_ends_it(rt: HostRuntime) -> Result<(), Fail> {
    let desk = Desk::new(Replies::new(rt.alloc())?);
    let ended = play(&rt, rt.alloc(), &desk, 3, &[2], 2, plan(8, 0))?;
    assert_eq!(rt; ended, (Stop::Fault, 2));
    Ok(())
}
