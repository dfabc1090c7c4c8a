//! Workers in threads: what no clause says of the calls.

ghost use Rattle.std.specs.Prelude.{◌≤◌, ◌-◌};
ghost use Rattle.shared_state.specs.Cells.{HaveJust};
ghost use Rattle.tests_sessions.specs.Desks.{Open};

use crate::desk::Desk;
use crate::seat::Seat;
use crate::site::{cells, next_seat};
use crate::wire::{Wire, no_pages, put, text};
use outside::{MemSink, MemSource, OpenGate};
use shared_state::{Passes, Shared};
use std::alloc::Global;
use std::sync::Wait;
use std::thread::{Threads, for_each_mut};
use txt_core::Text;
use worker::{End, EvalEnd, Session};

/// One worker's part, and how it has fared.
#[derive(Drop)]
struct Part<'a> {
    number: u16,
    /// Its seat, until it works.
    seat: Option<Seat<'a>>,
    /// How many of its sessions, or publications, were right.
    right: usize,
}

/// How many sessions each worker serves, and how often the publisher publishes.
const TIMES: usize = 25;

/// The number of the part that publishes, which is the last of five.
const PUBLISHER: u16 = 4;

/// `/n` counts, and tells what was published last; `/c` tells how many were counted, and the same.
const COUNTING: &str = "proc v {} {return old}
proc n {} {nsv_incr c n; ns_return 200 text/plain [v]}
proc c {} {ns_return 200 text/plain \"[nsv_get c n] [v]\"}
ns_register_proc GET /n n
ns_register_proc GET /c c
";

/// What is published in turn: this one in the second epoch and each further even one,
const NEW: &str = "proc v {} {return new}";

/// and this one in odd epochs.
const OLD: &str = "proc v {} {return old}";

/// Two requests of one connection.
const TWO: &[u8] = b"GET /n HTTP/1.1\r\nHost: l\r\n\r\nGET /n HTTP/1.1\r\nHost: l\r\n\r\n";

/// A reply without the three bytes of its body.
const HEAD: &[u8] = b"HTTP/1.1 200 OK\r\n\
    Date: Thu, 01 Jan 1970 00:00:00 GMT\r\n\
    Server: AOLserver-profile/1\r\n\
    Content-Type: text/plain\r\n\
    Content-Length: 3\r\n\
    Connection: keep-alive\r\n\
    \r\n";

/// Whether a session of two requests was served to its end with the replies that its blueprints allow, the
/// epochs of which didn't fall and weren't below one; and the last epoch.
fn judge(alloc: Global, session: &Session, bytes: &[u8], least: u64) -> (bool, u64) {
    let mut want = Text::empty(alloc);
    let mut rising = true;
    let mut last = least;
    for item in session.served.as_slice() {
        rising = rising && last <= item.epoch;
        last = item.epoch;
        put(&mut want, HEAD);
        put(&mut want, if item.epoch % 2 == 0 { b"new" } else { b"old" });
    }
    let ended = session.end == End::Ended && session.served.len() == 2;
    (ended && rising && bytes == want.bytes(), last)
}

/// Serves one connection of two requests, behind an epoch that was seen, and judges it.
fn serve_two<R: Wait>(rt: &R, alloc: Global, desk: &mut Desk<'_>, least: u64) -> (bool, u64) {
    let mut source = MemSource::new(text(alloc, TWO), 20, Vec::new(alloc));
    let mut sink = MemSink::new(alloc, 50, Vec::new(alloc));
    let mut pages = no_pages(alloc);
    let session = desk.session(rt, alloc, &mut source, &mut sink, &mut pages, &OpenGate);
    judge(alloc, &session, sink.taken().bytes(), least)
}

/// Whether an end is that of definitions which are published.
fn is_done(end: &EvalEnd) -> bool {
    match end {
        EvalEnd::Done { .. } => true,
        _ => false,
    }
}

/// Whether a publication is done.
fn publish<R: Wait>(rt: &R, alloc: Global, desk: &mut Desk<'_>, script: &str) -> bool {
    let end = desk.define(rt, alloc, script);
    is_done(&end)
}

/// How many sessions of two requests each are right, one after the other, with epochs that don't fall.
fn serve_all<R: Wait>(rt: &R, alloc: Global, desk: &mut Desk<'_>) -> usize {
    let mut right = 0usize;
    let mut last = 0;
    for _time in 0..TIMES {
        let (is_right, epoch) = serve_two(rt, alloc, desk, last);
        last = epoch;
        right = right.saturating_add(usize::from(is_right));
    }
    right
}

/// How many publications are done, one after the other.
fn publish_all<R: Wait>(rt: &R, alloc: Global, desk: &mut Desk<'_>) -> usize {
    let mut right = 0usize;
    for time in 0..TIMES {
        let script = if time % 2 == 0 { NEW } else { OLD };
        let is_done = publish(rt, alloc, desk, script);
        right = right.saturating_add(usize::from(is_done));
    }
    right
}

impl Part<'_> {
    /// What this part does, by its number.
    fn work<R: Wait>(&mut self, rt: &R, alloc: Global) {
        let Some(seat) = self.seat.take() else {
            return;
        };
        let mut desk = seat.desk(self.number);
        let right = if self.number == PUBLISHER {
            publish_all(rt, alloc, &mut desk)
        } else {
            serve_all(rt, alloc, &mut desk)
        };
        drop(desk);
        self.right = right;
    }
}

/// The part of this number, which has done nothing yet, with passes of its own from those that have so many
/// units.
fn next_part<'a>(shared: &'a Shared, passes: &mut Passes, units: u64, number: u16) -> Part<'a>
    requires cells { Open shared.now passes.old }
    requires units { (2 ≤ units) × HaveJust units passes.old }
    ensures cells { Open shared.now passes.new }
    ensures left { HaveJust (units - 1) passes.new }
{
    Part {
        number,
        seat: Some(next_seat(shared, passes, units)),
        right: 0,
    }
}

/// Five parts, each on a seat of its own; the last one publishes.
fn five_parts<'a>(shared: &'a Shared, passes: &mut Passes) -> [Part<'a>; 5]
    requires cells { Open shared.now passes.old }
    requires units { HaveJust 65536 passes.old }
    ensures cells { Open shared.now passes.new }
{
    [
        next_part(shared, passes, 65_536, 0),
        next_part(shared, passes, 65_535, 1),
        next_part(shared, passes, 65_534, 2),
        next_part(shared, passes, 65_533, 3),
        next_part(shared, passes, 65_532, PUBLISHER),
    ]
}

/// The parts work at once, each in a thread of its own.
fn work_at_once<R: Threads + Wait + Sync>(rt: &R, alloc: Global, parts: &mut [Part<'_>]) {
    for_each_mut(rt, parts, 5, &|_, part| part.work(rt, alloc));
}

/// What a connection gets that asks how many were counted.
fn tell_count<R: Wait>(rt: &R, alloc: Global, desk: &mut Desk<'_>) -> Text {
    let told = desk.serve(rt, alloc, Wire::of(b"GET /c HTTP/1.1\r\nHost: l\r\n\r\n"));
    told.bytes
}

/// How many sessions and publications of parts were right.
fn right_of(parts: &[Part<'_>]) -> usize {
    let mut right = 0usize;
    for part in parts {
        right = right.saturating_add(part.right);
    }
    right
}

/// The parts work behind the first definitions, which this worker makes: how many sessions and
/// publications were right, and what this worker then tells of the count.
fn play<R: Threads + Wait + Sync>(
    rt: &R,
    alloc: Global,
    desk: &mut Desk<'_>,
    parts: &mut [Part<'_>],
) -> (usize, Text) {
    let _published = publish(rt, alloc, desk, COUNTING);
    work_at_once(rt, alloc, parts);
    let reply = tell_count(rt, alloc, desk);
    (right_of(parts), reply)
}

/// Four workers serve while a fifth part publishes, at new cells; `None` where memory wants for these.
fn serve_in_four<R: Threads + Wait + Sync>(rt: &R, alloc: Global) -> Option<(usize, Text)> {
    let Ok((shared, mut passes)) = cells(alloc) else {
        return None;
    };
    let mut parts = five_parts(&shared, &mut passes);
    let mut desk = Seat::new(&shared, passes).desk(9);
    let came = play(rt, alloc, &mut desk, &mut parts);
    drop(desk);
    drop(parts);
    drop(shared);
    Some(came)
}

/// Whether all sessions and publications were right, and the count was told that they make.
fn are_right(came: Option<(usize, Text)>) -> bool {
    match came {
        Some((right, reply)) => right == 125 && reply.bytes().ends_with(b"\r\n\r\n200 new"),
        None => false,
    }
}

#[test]
fn four_serve_while_a_fifth_publishes(rt: HostRuntime) {
    assert!(rt; are_right(serve_in_four(&rt, rt.alloc())));
}
