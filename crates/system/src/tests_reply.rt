//! Replies that their peer takes slowly, where another connection waits and where none does.

use crate::conn::{TcpSink, TcpSource};
use crate::reply::Reply;
use crate::tests_visit::{Other, Visit, sends};
use crate::tests_waiting::{UNTOLD, behind, now};
use crate::waiting::Waiting;
use outside::{ReadAnswer, Sink, WriteAnswer};
use std::alloc::Global;
use std::net::{TcpListener, TcpStream};
use std::sync::Wait;
use std::thread;
use std::time::{Duration, Instant};

/// A rest of a reply that is never taken whole here.
const REST: usize = 8_000_000;

/// A piece of which the system keeps many, where their peer takes nothing.
const PIECE: [u8; 65_536] = [b'x'; 65_536];

/// More of them than the system keeps.
const MANY: u32 = 1_024;

/// A peer that takes so many bytes at a time, with so many milliseconds between, so often at most.
#[derive(Clone, Copy)]
struct Taker {
    bytes: usize,
    apart: u64,
    times: u64,
}

/// At the how manieth time the reply to a peer gives way, where it is asked at each.
fn way_at(waiting: &Waiting, begun: Instant, taker: Taker) -> Option<u64> {
    let mut reply = Reply::new();
    let mut way = None;
    for time in 0..taker.times {
        let moment = behind(begun, time.saturating_mul(taker.apart));
        if way.is_none() && reply.gives_way(moment, waiting) {
            way = Some(time);
        }
        if taker.bytes == 0 {
            reply.note_pause();
        } else {
            reply.note_piece(taker.bytes, REST);
        }
    }
    way
}

/// The same, where nobody waits.
fn way_alone(alloc: Global, begun: Instant, taker: Taker) -> Option<u64> {
    match Waiting::new(alloc) {
        Ok(waiting) => way_at(&waiting, begun, taker),
        Err(_) => UNTOLD,
    }
}

/// The same, where one more waits.
fn way_at_one_more(waiting: &Waiting, begun: Instant, taker: Taker) -> Option<u64> {
    match waiting.enter() {
        Ok(place) => {
            let way = way_at(waiting, begun, taker);
            drop(place);
            way
        }
        Err(_) => UNTOLD,
    }
}

/// The same, where another connection waits.
fn way_beside(alloc: Global, begun: Instant, taker: Taker) -> Option<u64> {
    match Waiting::new(alloc) {
        Ok(waiting) => way_at_one_more(&waiting, begun, taker),
        Err(_) => UNTOLD,
    }
}

/// A byte each 29 seconds, as of a peer that wants to keep a worker.
const DRIP: Taker = Taker {
    bytes: 1,
    apart: 29_000,
    times: 100,
};

/// Less than a mebibyte in 30 seconds.
const LITTLE: Taker = Taker {
    bytes: 3_400,
    apart: 100,
    times: 2_000,
};

/// More than that.
const ENOUGH: Taker = Taker {
    bytes: 3_600,
    apart: 100,
    times: 2_000,
};

/// Nothing, in rounds.
const NOTHING: Taker = Taker {
    bytes: 0,
    apart: 100,
    times: 2_000,
};

/// Takers beside whom another connection waits, and at the how manieth time the reply gives way. The time
/// begins behind the first round, and those who wait must be seen to do so twice.
const BESIDE: &[(Taker, Option<u64>)] = &[
    (DRIP, Some(4)),
    (LITTLE, Some(302)),
    (ENOUGH, None),
    (NOTHING, Some(302)),
];

/// How many takers are right: these, and behind them one beside whom nobody waits.
fn right_takers(alloc: Global, begun: Option<Instant>) -> usize {
    let Some(begun) = begun else {
        return 0;
    };
    let mut right = usize::from(way_alone(alloc, begun, DRIP).is_none());
    for &(taker, want) in BESIDE {
        let is_right = way_beside(alloc, begun, taker) == want;
        right = right.saturating_add(usize::from(is_right));
    }
    right
}

#[test]
fn a_reply_that_is_taken_slowly(rt: HostRuntime) {
    assert!(rt; right_takers(rt.alloc(), now(&rt)) == 5);
}

/// Whether a reply has to be told the moment: at first, when a part was taken, and when all was.
fn needs(waiting: &Waiting) -> [bool; 3] {
    let mut reply = Reply::new();
    let first = reply.needs_moment(waiting);
    reply.note_piece(1, REST);
    let part = reply.needs_moment(waiting);
    reply.note_piece(REST, REST);
    [first, part, reply.needs_moment(waiting)]
}

/// Whether a reply has to be told the moment only while a part of it is taken, where one more waits.
fn needs_in_part(waiting: &Waiting) -> bool {
    match waiting.enter() {
        Ok(place) => {
            let needs = needs(waiting);
            drop(place);
            needs == [false, true, false]
        }
        Err(_) => false,
    }
}

/// The same, where another connection waits.
fn needs_in_part_beside(alloc: Global) -> bool {
    match Waiting::new(alloc) {
        Ok(waiting) => needs_in_part(&waiting),
        Err(_) => false,
    }
}

#[test]
fn a_reply_that_is_taken_at_once_needs_no_clock(rt: HostRuntime) {
    assert!(rt; needs_in_part_beside(rt.alloc()));
}

/// At the how manieth tenth second the replies to requests that came together give way, where the peer takes
/// a byte of one, and the rest of it ten seconds later.
fn way_of_many(waiting: &Waiting, begun: Instant) -> Option<u64> {
    let mut reply = Reply::new();
    let mut way = None;
    for time in 0..20 {
        let moment = behind(begun, time * 10_000);
        if way.is_none() && reply.needs_moment(waiting) && reply.gives_way(moment, waiting) {
            way = Some(time);
        }
        if time % 2 == 0 {
            reply.note_piece(1, 200_000);
        } else {
            reply.note_piece(199_999, 199_999);
        }
    }
    way
}

/// The same, where one more waits.
fn way_of_many_at_one_more(waiting: &Waiting, begun: Instant) -> Option<u64> {
    match waiting.enter() {
        Ok(place) => {
            let way = way_of_many(waiting, begun);
            drop(place);
            way
        }
        Err(_) => UNTOLD,
    }
}

/// The same, where another connection waits.
fn way_of_many_beside(alloc: Global, begun: Option<Instant>) -> Option<u64> {
    match (begun, Waiting::new(alloc)) {
        (Some(begun), Ok(waiting)) => way_of_many_at_one_more(&waiting, begun),
        _ => UNTOLD,
    }
}

#[test]
fn replies_that_are_taken_slowly(rt: HostRuntime) {
    assert!(rt; way_of_many_beside(rt.alloc(), now(&rt)) == Some(7));
}

/// Whether a sink fails, where it is written to for a peer that takes nothing, and its reply is held up since
/// a moment that is long ago.
fn fails_when_held<R: std::rt::Clock>(
    sink: &mut TcpSink<R>,
    waiting: &Waiting,
    moment: Instant,
) -> bool {
    for _piece in 0..MANY {
        if sink.write(&PIECE) == WriteAnswer::Failed {
            return true;
        }
        sink.reply.note_pause();
        let _way = sink.reply.gives_way(moment, waiting);
    }
    false
}

/// A moment a second longer ago than a peer has where another connection waits.
fn long_ago(moment: Instant) -> Option<Instant> {
    moment.checked_sub(Duration::from_secs(31))
}

/// Two connections: of the first a request was read, and the other waits.
type Both<R> = (Visit<R>, Other<R>);

/// The same; `None` where they can't be made.
fn read_beside<
    R: Wait
        + std::net::Net<Listener = TcpListener, Stream = TcpStream>
        + std::rt::Clock
        + Copy
        + Send
        + Drop,
>(rt: &R, alloc: Global) -> Option<Both<R>> {
    let mut visit = Visit::new(rt, alloc)?;
    let reads = visit.reads(b"request");
    match visit.another(rt) {
        Some(other) if reads => Some((visit, other)),
        _ => None,
    }
}

/// Whether the reply on the first connection fails, held up since a moment, and that is one fault.
fn gives_way_once(both: Both<HostRuntime>, earlier: Instant) -> bool {
    let (mut visit, other) = both;
    let fails = fails_when_held(&mut visit.sink, &visit.source.waiting, earlier);
    let once = visit.sink.faults.count == 1;
    drop(visit);
    drop(other);
    fails && once
}

/// Whether it does before it would take a peer's whole time: one that takes nothing at all fails after
/// 30 seconds.
fn gives_way_early(
    rt: &HostRuntime,
    both: Option<Both<HostRuntime>>,
    earlier: Option<Instant>,
) -> bool {
    let (Some(both), Some(earlier)) = (both, earlier) else {
        return false;
    };
    let fails = gives_way_once(both, earlier);
    match now(rt) {
        Some(end) => fails && end.duration_since(earlier) < Duration::from_secs(31 + 20),
        None => false,
    }
}

#[test]
fn a_held_reply_gives_way(rt: HostRuntime) {
    let earlier = now(&rt).and_then(long_ago);
    let both = read_beside(&rt, rt.alloc());
    assert!(rt; gives_way_early(&rt, both, earlier));
}

/// Notes that a connection is served since a moment.
fn note_long<R>(source: &mut TcpSource<R>, earlier: Instant) {
    let _over = source.session.gives_way(earlier, &source.waiting);
}

/// A connection that is served for long; `None` where none can be made.
fn long_visit<
    R: Wait
        + std::net::Net<Listener = TcpListener, Stream = TcpStream>
        + std::rt::Clock
        + Copy
        + Send
        + Drop,
>(rt: &R, alloc: Global) -> Option<Visit<R>> {
    let earlier = now(rt).and_then(long_ago)?;
    let mut visit = Visit::new(rt, alloc)?;
    note_long(&mut visit.source, earlier);
    Some(visit)
}

/// Whether a request that comes in two pieces is read and replied to.
fn in_pieces<R: std::rt::Clock + Drop>(visit: &mut Visit<R>) -> bool {
    visit.reads(b"fir") && visit.reads(b"st") && visit.replies()
}

/// The same of a request whose second piece comes later.
fn in_late_pieces<R: std::rt::Clock + Drop>(rt: &R, visit: &mut Visit<R>) -> bool {
    let reads = visit.reads(b"next");
    thread::sleep(rt, Duration::from_millis(110));
    reads && visit.reads(b"rest") && visit.replies()
}

/// Whether the input ends before what the peer sends is read, and that is no fault.
fn is_over<R: std::rt::Clock + Drop>(visit: &mut Visit<R>) -> bool {
    let goes = sends(&mut visit.peer, b"last");
    goes && visit.read() == ReadAnswer::Bytes(0) && visit.source.faults.count == 0
}

/// A connection that is served for long, and another one that waits.
fn long_beside<
    R: Wait
        + std::net::Net<Listener = TcpListener, Stream = TcpStream>
        + std::rt::Clock
        + Copy
        + Send
        + Drop,
>(rt: &R, mut visit: Visit<R>) -> Option<Both<R>> {
    match visit.another(rt) {
        Some(other) => Some((visit, other)),
        None => None,
    }
}

/// The same, behind a request that came in pieces.
fn long_behind_pieces<
    R: Wait
        + std::net::Net<Listener = TcpListener, Stream = TcpStream>
        + std::rt::Clock
        + Copy
        + Send
        + Drop,
>(rt: &R, alloc: Global) -> Option<Both<R>> {
    let mut visit = long_visit(rt, alloc)?;
    if in_pieces(&mut visit) {
        long_beside(rt, visit)
    } else {
        None
    }
}

/// Whether the first of them is served for one more request that comes in pieces, and no further.
fn ends_between(rt: &HostRuntime, both: Option<Both<HostRuntime>>) -> bool {
    let Some((mut visit, other)) = both else {
        return false;
    };
    let is_right = in_late_pieces(rt, &mut visit) && is_over(&mut visit);
    drop(visit);
    drop(other);
    is_right
}

#[test]
fn a_long_session_ends_between_requests(rt: HostRuntime) {
    let both = long_behind_pieces(&rt, rt.alloc());
    assert!(rt; ends_between(&rt, both));
}

/// How many requests that come whole are read and replied to, of three.
fn whole_requests(rt: &HostRuntime, visit: &mut Visit<HostRuntime>) -> u32 {
    let mut whole = 0u32;
    for _request in 0..3 {
        let is_served = visit.reads(b"whole") && visit.replies();
        whole = whole.saturating_add(u32::from(is_served));
        thread::sleep(rt, Duration::from_millis(60));
    }
    whole
}

/// A connection that is served for long, and beside it another one.
fn new_long_beside<
    R: Wait
        + std::net::Net<Listener = TcpListener, Stream = TcpStream>
        + std::rt::Clock
        + Copy
        + Send
        + Drop,
>(rt: &R, alloc: Global) -> Option<Both<R>> {
    let visit = long_visit(rt, alloc)?;
    long_beside(rt, visit)
}

/// Whether the first of them is served for three requests that come whole.
fn goes_on(rt: &HostRuntime, both: Option<Both<HostRuntime>>) -> bool {
    let Some((mut visit, other)) = both else {
        return false;
    };
    let whole = whole_requests(rt, &mut visit);
    drop(visit);
    drop(other);
    whole == 3
}

#[test]
fn a_session_of_whole_requests_goes_on(rt: HostRuntime) {
    let both = new_long_beside(&rt, rt.alloc());
    assert!(rt; goes_on(&rt, both));
}
