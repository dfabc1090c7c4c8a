//! Requests that take long, where another connection waits and where none does.

use crate::turn::Turn;
use crate::waiting::Waiting;
use std::alloc::Global;
use std::rt::Clock;
use std::time::{Duration, Instant};

/// Where no time is told for want of memory, in milliseconds.
pub(crate) const UNTOLD: Option<u64> = Some(u64::MAX);

/// The moment so many milliseconds behind another, or that one where there is none so late.
pub(crate) fn behind(moment: Instant, milliseconds: u64) -> Instant {
    match moment.checked_add(Duration::from_millis(milliseconds)) {
        Some(later) => later,
        None => moment,
    }
}

/// Whether one waits, and whether the first does.
fn look(waiting: &Waiting) -> (bool, bool) {
    (waiting.is_any(), waiting.is_one_of(1))
}

/// The same when two have begun to wait, then, when the first has left, and when both have.
fn looks(waiting: &Waiting) -> Option<[(bool, bool); 3]> {
    let first = waiting.enter().ok()?;
    match waiting.enter() {
        Ok(second) => {
            let both = look(waiting);
            drop(first);
            let one = look(waiting);
            drop(second);
            Some([both, one, look(waiting)])
        }
        Err(_) => None,
    }
}

/// The first of these moments at which a new request gives way, where it is asked at each in turn. They are
/// told in milliseconds since it began.
fn way_at(waiting: &Waiting, begun: Instant, moments: &[u64]) -> Option<u64> {
    let mut request = Turn::of_request();
    let mut way = None;
    for at in moments {
        if way.is_none() && request.gives_way(behind(begun, *at), waiting) {
            way = Some(*at);
        }
    }
    way
}

/// The same, where nobody waits.
fn way_alone(alloc: Global, begun: Instant, moments: &[u64]) -> Option<u64> {
    match Waiting::new(alloc) {
        Ok(waiting) => way_at(&waiting, begun, moments),
        Err(_) => UNTOLD,
    }
}

/// The same, where one more waits.
fn way_at_one_more(waiting: &Waiting, begun: Instant, moments: &[u64]) -> Option<u64> {
    match waiting.enter() {
        Ok(place) => {
            let way = way_at(waiting, begun, moments);
            drop(place);
            way
        }
        Err(_) => UNTOLD,
    }
}

/// The same, where another connection waits.
fn way_beside(alloc: Global, begun: Instant, moments: &[u64]) -> Option<u64> {
    match Waiting::new(alloc) {
        Ok(waiting) => way_at_one_more(&waiting, begun, moments),
        Err(_) => UNTOLD,
    }
}

/// Whether a request gives way at a moment, while another connection waits that leaves then.
fn gives_way_beside(request: &mut Turn, waiting: &Waiting, moment: Instant) -> bool {
    match waiting.enter() {
        Ok(place) => {
            let way = request.gives_way(moment, waiting);
            drop(place);
            way
        }
        Err(_) => true,
    }
}

/// Whether a request gives way, beside which another connection waits for a moment, a hundred times.
fn gives_way_to_passing(waiting: &Waiting, begun: Instant) -> bool {
    let mut request = Turn::of_request();
    let mut gives_way = request.gives_way(begun, waiting);
    for round in 0..100 {
        let moment = behind(begun, 60_000 + round * 200);
        gives_way = gives_way || gives_way_beside(&mut request, waiting, moment);
    }
    gives_way
}

/// Whether a request has to be told the moment, when another waits.
fn needs_beside(request: &Turn, waiting: &Waiting) -> bool {
    match waiting.enter() {
        Ok(place) => {
            let needs = request.needs_moment(waiting);
            drop(place);
            needs
        }
        Err(_) => false,
    }
}

/// Whether a request has to be told the moment: at first, then, and when another waits.
fn needs(waiting: &Waiting, begun: Instant) -> [bool; 3] {
    let mut request = Turn::of_request();
    let first = request.needs_moment(waiting);
    let _way = request.gives_way(begun, waiting);
    let alone = request.needs_moment(waiting);
    [first, alone, needs_beside(&request, waiting)]
}

/// Whether those that wait are seen to do so, before two begin to wait and then.
fn are_seen(waiting: &Waiting) -> bool {
    let before = look(waiting);
    before == (false, true) && looks(waiting) == Some([(true, true), (true, false), (false, false)])
}

/// Whether a request that passes by does as it must.
fn passes(waiting: &Waiting, begun: Instant) -> bool {
    !gives_way_to_passing(waiting, begun) && needs(waiting, begun) == [true, false, true]
}

/// Whether both is so, from this moment on.
fn are_right(alloc: Global, begun: Instant) -> bool {
    match Waiting::new(alloc) {
        Ok(waiting) => are_seen(&waiting) && passes(&waiting, begun),
        Err(_) => false,
    }
}

/// The moment now; `None` where the clock can't be read.
pub(crate) fn now<R: Clock>(rt: &R) -> Option<Instant> {
    Instant::now(rt).ok()
}

/// Whether those that wait are seen, where a clock is there.
fn those_are_seen(alloc: Global, begun: Option<Instant>) -> bool {
    match begun {
        Some(begun) => are_right(alloc, begun),
        None => false,
    }
}

#[test]
fn those_that_wait(rt: HostRuntime) {
    assert!(rt; those_are_seen(rt.alloc(), now(&rt)));
}

/// Moments in milliseconds, whether another connection waits, and at which of them a request gives way.
const LONG: &[(&[u64], bool, Option<u64>)] = &[
    (&[0, 30_000, 30_100, 60_000, 3_600_000], false, None),
    (&[0, 1_000, 20_000, 29_999], true, None),
    (&[0, 29_999, 30_000, 30_099, 30_100], true, Some(30_100)),
    (&[0, 600_000, 700_000], true, Some(700_000)),
];

/// Whether a request gives way at the moment of a row.
fn is_way(alloc: Global, begun: Instant, row: (&[u64], bool, Option<u64>)) -> bool {
    let (moments, beside, want) = row;
    if beside {
        way_beside(alloc, begun, moments) == want
    } else {
        way_alone(alloc, begun, moments) == want
    }
}

/// How many rows are right.
fn right_ways(alloc: Global, begun: Option<Instant>) -> usize {
    let Some(begun) = begun else {
        return 0;
    };
    let mut right = 0usize;
    for &row in LONG {
        right = right.saturating_add(usize::from(is_way(alloc, begun, row)));
    }
    right
}

#[test]
fn a_long_request(rt: HostRuntime) {
    assert!(rt; right_ways(rt.alloc(), now(&rt)) == 4);
}
