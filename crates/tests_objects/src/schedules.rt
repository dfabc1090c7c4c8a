//! A schedule by itself: rows of calls with the replies that the rules give.
ghost use Rattle.turn_cell.specs.Cells.{IsOf};

use sched_core::{DueList, SchedCall, SchedReply, Schedule, steps_are_determined};
use std::alloc::Global;
use std::sync::Wait;
use std::thread::{Threads, join};
use turn_cell::{Obj, Pass, TurnCell};
use txt_core::{NoMemory, Text};

#[derive(Clone, Copy)]
enum Ask {
    Every(u64, u64),
    Once(u64, u64),
    Cancel(u64),
    Due(u64),
    Stop,
}

#[derive(Clone, Copy)]
enum Want {
    Id(u64),
    NoId,
    Full,
    Cancelled,
    Nothing,
    One(u64),
    Two(u64, u64),
    Stopped,
}

use Ask::{Cancel, Due, Every, Once, Stop};
use Want::{Cancelled, Full, Id, NoId, Nothing, One, Stopped, Two};

/// A text; the empty one where memory wants.
fn text(alloc: Global, bytes: &[u8]) -> Text {
    match Text::new(alloc, bytes) {
        Ok(text) => text,
        Err(_) => Text::empty(alloc),
    }
}

/// The call that is asked for.
fn call_of(alloc: Global, call: Ask) -> SchedCall {
    match call {
        Every(moment, seconds) => SchedCall::Add {
            moment,
            seconds,
            once: false,
            script: text(alloc, b"every"),
        },
        Once(moment, seconds) => SchedCall::Add {
            moment,
            seconds,
            once: true,
            script: text(alloc, b"once"),
        },
        Cancel(id) => SchedCall::Cancel(id),
        Due(now) => SchedCall::Due(now),
        Stop => SchedCall::Stop,
    }
}

fn reply_to(alloc: Global, schedule: &mut Schedule, call: Ask) -> SchedReply {
    schedule.act(call_of(alloc, call))
}

fn lists(list: &DueList, at: usize, id: u64) -> bool {
    match list.get(at) {
        Some(due) => due.id == id,
        None => false,
    }
}

fn is(reply: &SchedReply, want: Want) -> bool {
    match (reply, want) {
        (SchedReply::Id(id), Id(number)) => *id == number,
        (SchedReply::NoId, NoId) => true,
        (SchedReply::Full, Full) => true,
        (SchedReply::Cancelled, Cancelled) => true,
        (SchedReply::Stopped, Stopped) => true,
        (SchedReply::Due(list), Nothing) => list.is_empty(),
        (SchedReply::Due(list), One(id)) => list.len() == 1 && lists(list, 0, id),
        (SchedReply::Due(list), Two(first, second)) => {
            list.len() == 2 && lists(list, 0, first) && lists(list, 1, second)
        }
        _ => false,
    }
}

/// Whether a schedule answers a call so.
fn answers_one(alloc: Global, schedule: &mut Schedule, call: Ask, want: Want) -> bool {
    let reply = reply_to(alloc, schedule, call);
    is(&reply, want)
}

/// Whether a schedule answers each of these calls so.
fn answers_all(alloc: Global, schedule: &mut Schedule, rows: &[(Ask, Want)]) -> bool {
    let mut right = true;
    for (call, want) in rows {
        right = answers_one(alloc, schedule, *call, *want) && right;
    }
    right
}

/// Whether a new schedule answers each of these calls so.
fn answers(alloc: Global, rows: &[(Ask, Want)]) -> bool {
    let mut schedule = Schedule::new(alloc);
    answers_all(alloc, &mut schedule, rows)
}

/// Calls in order on a schedule, and what each is answered.
type Rows = &'static [(Ask, Want)];

/// The place of the first of these lists of calls that a new schedule doesn't answer so, if there is one.
fn first_wrong(alloc: Global, lists: &[Rows]) -> Option<usize> {
    for (at, rows) in lists.iter().enumerate() {
        if !answers(alloc, rows) {
            return Some(at);
        }
    }
    None
}

/// What is due: at the same moment, by the moment, once, and behind a gap.
const IN_ORDER: &[Rows] = &[
    &[
        (Every(0, 5), Id(0)),
        (Every(0, 5), Id(1)),
        (Due(4), Nothing),
        (Due(5), Two(0, 1)),
        (Due(5), Nothing),
    ],
    &[
        (Every(0, 9), Id(0)),
        (Every(0, 5), Id(1)),
        (Due(9), Two(1, 0)),
    ],
    &[(Once(0, 5), Id(0)), (Due(20), One(0)), (Due(20), Nothing)],
    &[
        (Every(0, 10), Id(0)),
        (Due(35), One(0)),
        (Due(39), Nothing),
        (Due(40), One(0)),
        (Due(49), Nothing),
        (Due(50), One(0)),
    ],
];

#[test]
fn due_in_order(rt: HostRuntime) {
    assert!(rt; first_wrong(rt.alloc(), IN_ORDER).is_none());
}

/// What is answered by a schedule that was stopped, and of entries that were cancelled.
const ENDED: &[Rows] = &[
    &[
        (Every(0, 1), Id(0)),
        (Stop, Stopped),
        (Due(9), Stopped),
        (Stop, Stopped),
        (Every(0, 1), Id(1)),
        (Cancel(0), Cancelled),
    ],
    &[
        (Every(0, 5), Id(0)),
        (Cancel(1), NoId),
        (Cancel(0), Cancelled),
        (Cancel(0), NoId),
        (Due(9), Nothing),
        (Every(0, 5), Id(1)),
    ],
];

#[test]
fn stopped_and_cancelled(rt: HostRuntime) {
    assert!(rt; first_wrong(rt.alloc(), ENDED).is_none());
}

/// The limits of seconds and of moments.
const LIMITS: &[Rows] = &[
    &[
        (Every(0, 0), Id(0)),
        (Due(0), Nothing),
        (Due(1), One(0)),
        (Cancel(0), Cancelled),
        (Once(0, u64::MAX), Id(1)),
        (Due(31_535_999), Nothing),
        (Due(31_536_000), One(1)),
    ],
    &[
        (Every(u64::MAX, 1), Id(0)),
        (Due(u64::MAX), Nothing),
        (Every(253_402_300_798, 1), Id(1)),
        (Due(253_402_300_798), Nothing),
        (Due(u64::MAX), One(1)),
        (Due(u64::MAX), Nothing),
    ],
];

#[test]
fn limits(rt: HostRuntime) {
    assert!(rt; first_wrong(rt.alloc(), LIMITS).is_none());
    steps_are_determined();
}

/// Whether exactly these scripts are due.
fn are_due(reply: &SchedReply, scripts: &[&[u8]]) -> bool {
    for (at, script) in scripts.iter().enumerate() {
        if !script_is(reply, at, script) {
            return false;
        }
    }
    due_count(reply) == scripts.len()
}

/// Whether exactly these scripts are due at a moment.
fn is_due(alloc: Global, schedule: &mut Schedule, now: u64, scripts: &[&[u8]]) -> bool {
    let reply = reply_to(alloc, schedule, Due(now));
    are_due(&reply, scripts)
}

/// Two entries of scripts.
const TWO: &[(Ask, Want)] = &[(Every(0, 5), Id(0)), (Once(0, 5), Id(1))];

/// Whether a schedule keeps the scripts of its entries.
fn keeps_scripts(alloc: Global, schedule: &mut Schedule) -> bool {
    answers_all(alloc, schedule, TWO)
        && is_due(alloc, schedule, 5, &[b"every", b"once"])
        && is_due(alloc, schedule, 10, &[b"every"])
}

/// Whether a new schedule does.
fn new_keeps_scripts(alloc: Global) -> bool {
    let mut schedule = Schedule::new(alloc);
    keeps_scripts(alloc, &mut schedule)
}

#[test]
fn scripts(rt: HostRuntime) {
    assert!(rt; new_keeps_scripts(rt.alloc()));
}

fn script_is(reply: &SchedReply, at: usize, script: &[u8]) -> bool {
    match reply {
        SchedReply::Due(list) => match list.get(at) {
            Some(due) => due.script.bytes() == script,
            None => false,
        },
        _ => false,
    }
}

/// How many entries are due at a moment.
fn count_due(alloc: Global, schedule: &mut Schedule, now: u64) -> usize {
    let reply = reply_to(alloc, schedule, Due(now));
    due_count(&reply)
}

/// Whether a schedule takes so many entries, which have the numbers from 0 on.
fn takes(alloc: Global, schedule: &mut Schedule, count: u64) -> bool {
    let mut right = true;
    for id in 0..count {
        right = right && answers_one(alloc, schedule, Every(0, 5), Id(id));
    }
    right
}

/// Moments one after another, and how many of ten thousand entries are due.
const DUE: &[(u64, usize)] = &[(5, 10_000), (100, 10_000), (101, 0)];

/// Whether so many entries are due at these moments.
fn are_counted(alloc: Global, schedule: &mut Schedule) -> bool {
    let mut right = true;
    for &(now, count) in DUE {
        right = count_due(alloc, schedule, now) == count && right;
    }
    right
}

/// What is answered where one of ten thousand entries is cancelled.
const AFTER: &[(Ask, Want)] = &[
    (Cancel(7), Cancelled),
    (Every(0, 5), Id(10_000)),
    (Once(0, 5), Full),
];

/// Whether a schedule takes ten thousand entries, and no more until one is cancelled.
fn fills(alloc: Global, schedule: &mut Schedule) -> bool {
    takes(alloc, schedule, 10_000)
        && answers_one(alloc, schedule, Every(0, 5), Full)
        && are_counted(alloc, schedule)
        && answers_all(alloc, schedule, AFTER)
}

/// Whether a new schedule does.
fn new_fills(alloc: Global) -> bool {
    let mut schedule = Schedule::new(alloc);
    fills(alloc, &mut schedule)
}

#[test]
fn ten_thousand(rt: HostRuntime) {
    assert!(rt; new_fills(rt.alloc()));
}

fn due_count(reply: &SchedReply) -> usize {
    match reply {
        SchedReply::Due(list) => list.len(),
        _ => usize::MAX,
    }
}

fn stop<R: Wait>(rt: &R, cell: &TurnCell<Schedule>, pass: Pass<Schedule>) -> bool
    requires { IsOf cell.now pass }
{
    let mut pass = pass;
    let reply = cell.turn(rt, &mut pass, SchedCall::Stop).reply;
    is(&reply, Stopped)
}

/// Two threads stop the schedule of one cell.
fn stop_in_two<R: Threads + Wait + Sync>(rt: &R, alloc: Global) -> Result<(bool, bool), NoMemory> {
    let (cell, mut first) = TurnCell::new(alloc, Schedule::new(alloc))?;
    let second = cell.split(&mut first)?;
    let shared = &cell;
    Ok(join(
        rt,
        move ||
            requires { IsOf shared.now first }
        { stop(rt, shared, first) },
        move ||
            requires { IsOf shared.now second }
        { stop(rt, shared, second) },
    ))
}

#[test]
fn in_a_cell(rt: HostRuntime) {
    assert!(rt; stop_in_two(&rt, rt.alloc()) == Ok((true, true)));
}
