//! What a close leaves of a reply, and how long a peer may be silent.

use crate::silence::Silence;
use crate::tests_visit::{Visit, ends_with, sends};
use outside::{ReadAnswer, Sink, WriteAnswer};
use std::alloc::Global;

/// More than is read of a connection here before it is let go.
const SENT: [u8; 20_000] = [b'x'; 20_000];

/// Whether the reply to a request of which a part is read comes whole, to a peer that sent more.
fn is_replied_whole(alloc: Global, visit: Option<Visit<HostRuntime>>) -> bool {
    let Some(mut visit) = visit else {
        return false;
    };
    let goes = sends(&mut visit.peer, &SENT);
    let reads = visit.read() == ReadAnswer::Bytes(16);
    let replies = visit.replies();
    let (net, mut peer) = visit.leave();
    let comes = ends_with(alloc, &mut peer, b"reply");
    drop(net);
    goes && reads && replies && comes
}

#[test]
fn a_reply_before_unread_bytes(rt: HostRuntime) {
    let visit = Visit::new(&rt, rt.alloc());
    assert!(rt; is_replied_whole(rt.alloc(), visit));
}

/// Whether a peer reads that it is told to come later, before its request is read.
fn is_turned_away(alloc: Global, visit: Option<Visit<HostRuntime>>) -> bool {
    let Some(mut visit) = visit else {
        return false;
    };
    let goes = sends(&mut visit.peer, b"request");
    let Visit {
        net,
        place: _,
        mut peer,
        source,
        mut sink,
    } = visit;
    drop(source);
    let takes = sink.write(b"busy") == WriteAnswer::Took(4);
    drop(sink);
    let comes = ends_with(alloc, &mut peer, b"busy");
    drop(net);
    goes && takes && comes
}

#[test]
fn a_reply_to_one_who_is_turned_away(rt: HostRuntime) {
    let visit = Visit::new(&rt, rt.alloc());
    assert!(rt; is_turned_away(rt.alloc(), visit));
}

/// Whether a peer that sent nothing reads the end at once.
fn ends_at_once(alloc: Global, visit: Option<Visit<HostRuntime>>) -> bool {
    let Some(visit) = visit else {
        return false;
    };
    let (net, mut peer) = visit.leave();
    let ends = ends_with(alloc, &mut peer, b"");
    drop(net);
    ends
}

#[test]
fn a_close_waits_for_nobody(rt: HostRuntime) {
    let visit = Visit::new(&rt, rt.alloc());
    assert!(rt; ends_at_once(rt.alloc(), visit));
}

/// Whether a silence of so many rounds ends the input: of 99 and of 100 where nobody waits, and of one where
/// another does.
fn ends(silence: &Silence) -> [bool; 3] {
    [
        silence.ends_input(99, false),
        silence.ends_input(100, false),
        silence.ends_input(1, true),
    ]
}

/// Whether a request is stalled by so many more rounds, and by one more.
fn stalls(silence: &Silence, rounds: u32) -> [bool; 2] {
    [
        silence.is_stalled(rounds),
        silence.is_stalled(rounds.saturating_add(1)),
    ]
}

/// Notes a piece behind so many rounds, so often.
fn drip(silence: &Silence, rounds: u32, times: u32) {
    for _time in 0..times {
        silence.note_piece(rounds);
    }
}

/// Whether a peer that drips ends a request only behind all of its pauses.
fn drips_well(silence: &Silence) -> bool {
    let first = ends(silence) == [false, true, true];
    drip(silence, 90, 1);
    drip(silence, 10, 20_000);
    let goes_on = !silence.ends_input(100, true) && stalls(silence, 299) == [false, true];
    drip(silence, 290, 10);
    let stalls = stalls(silence, 209) == [false, true];
    silence.note_reply();
    first && goes_on && stalls && silence.ends_input(1, true) && !silence.is_stalled(210)
}

#[test]
fn slow_peers_and_those_that_drip(rt: HostRuntime) {
    assert!(rt; drips_well(&Silence::new()));
}
