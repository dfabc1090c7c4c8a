//! Scripts that are due, and scripts that make definitions.

ghost use Rattle.std.specs.Prelude.{◌≤◌};

use crate::desk::Desk;
use crate::site::{HI, on_desk};
use crate::tests::{has_body, serves_hi};
use crate::wire::pages_of;
use std::alloc::Global;
use std::sync::Wait;
use tcl_eval::Outcome;
use worker::{DueRun, EvalEnd, Ran, Stock, costs_are_counted, items_are_isolated};

/// A script that was run: its id and epoch, its code and its result. The code is 255 where it was spent, and
/// 254 where it ended otherwise.
type Row<'a> = (u64, u64, u8, &'a [u8]);

/// What is told of a script that was run.
fn row(ran: &Ran) -> Row<'_> {
    match &ran.outcome {
        Outcome::Done { code, result } => (ran.id, ran.epoch, *code, result.bytes()),
        Outcome::Spent => (ran.id, ran.epoch, 255, &[]),
        _ => (ran.id, ran.epoch, 254, &[]),
    }
}

/// Whether exactly these scripts were run.
fn were_run(run: &DueRun, want: &[Row<'_>]) -> bool {
    let DueRun::Ran(list) = run else {
        return false;
    };
    let list = list.as_slice();
    if list.len() != want.len() {
        return false;
    }
    for at in 0..list.len() {
        if row(&list[at]) != want[at] {
            return false;
        }
    }
    true
}

/// A page.
const PAGE: &[(&[u8], &[u8])] = &[(b"/a", b"text")];

/// Whether exactly these scripts run at a moment, where the calls for pages fail that are listed.
fn run_so<R: Wait>(
    rt: &R,
    alloc: Global,
    desk: &mut Desk<'_>,
    moment: u64,
    fails: &[u64],
    want: &[Row<'_>],
) -> bool
    requires moment { moment ≤ 253402300799 }
{
    let mut pages = pages_of(alloc, PAGE, fails);
    let run = desk.run_due(rt, alloc, moment, &mut pages);
    were_run(&run, want)
}

/// When scripts are due, the calls for pages that are to fail, and which scripts are run.
type Due<'a> = (u64, &'a [u64], &'a [Row<'a>]);

/// How many rows are right, up to the first that isn't. Behind each the worker serves `GET /hi` exactly where
/// that is published.
fn right_runs<R: Wait>(
    rt: &R,
    alloc: Global,
    desk: &mut Desk<'_>,
    rows: &[Due<'_>],
    published: bool,
) -> usize {
    let mut right = 0usize;
    for (moment, fails, want) in rows {
        let moment = (*moment).min(1_000_000);
        let ran = run_so(rt, alloc, desk, moment, fails, want);
        if !ran || serves_hi(rt, alloc, desk) != published {
            return right;
        }
        right = right.saturating_add(1);
    }
    right
}

/// How a script that makes definitions ended: 0 with its epoch, 1 in an error, 2 spent, 3 too deep, 4 with
/// want of memory.
fn ended(end: &EvalEnd) -> (u8, u64) {
    match end {
        EvalEnd::Done { epoch } => (0, *epoch),
        EvalEnd::Error(_) => (1, 0),
        EvalEnd::Spent => (2, 0),
        EvalEnd::TooDeep => (3, 0),
        EvalEnd::NoMemory => (4, 0),
    }
}

/// How a script that makes definitions ends.
fn ended_of<R: Wait>(rt: &R, alloc: Global, desk: &mut Desk<'_>, script: &str) -> (u8, u64) {
    let end = desk.define(rt, alloc, script);
    ended(&end)
}

/// How many scripts that make definitions end as they must, up to the first that doesn't.
fn right_definitions<R: Wait>(
    rt: &R,
    alloc: Global,
    desk: &mut Desk<'_>,
    rows: &[(&str, u8, u64)],
) -> usize {
    let mut right = 0usize;
    for (script, kind, epoch) in rows {
        if ended_of(rt, alloc, desk, script) != (*kind, *epoch) {
            return right;
        }
        right = right.saturating_add(1);
    }
    right
}

/// Whether an end is this error.
fn is_error(end: &EvalEnd, want: &[u8]) -> bool {
    match end {
        EvalEnd::Error(why) => why.bytes() == want,
        _ => false,
    }
}

/// Whether a script that makes definitions ends in this error.
fn fails_with<R: Wait>(
    rt: &R,
    alloc: Global,
    desk: &mut Desk<'_>,
    script: &str,
    want: &[u8],
) -> bool {
    let end = desk.define(rt, alloc, script);
    is_error(&end, want)
}

/// Two entries, of which the second is taken away again.
const SCHEDULING: &[(&str, u8, u64)] = &[
    (
        "ns_schedule_proc 10 {nsv_incr s n}; ns_schedule_proc 20 {nsv_incr s n}",
        0,
        0,
    ),
    ("ns_unschedule_proc 1", 0, 0),
];

/// What of them is due, where nothing was published.
const DUE: &[Due<'_>] = &[
    (35, &[], &[(0, 0, 0, b"1")]),
    (36, &[], &[]),
    (40, &[], &[(0, 0, 0, b"2")]),
];

/// The same where `GET /hi` is published, and the first call for a page fails. No page is asked for, so none
/// fails.
const DUE_LATER: &[Due<'_>] = &[
    (55, &[0], &[(0, 1, 0, b"3")]),
    (56, &[0], &[]),
    (60, &[0], &[(0, 1, 0, b"4")]),
];

/// How many of those definitions are right; whether there is no second entry then; and how many runs are
/// right, before and behind the publication.
fn scheduled<R: Wait>(rt: &R, alloc: Global, desk: &mut Desk<'_>) -> (usize, bool, usize, usize) {
    let made = right_definitions(rt, alloc, desk, SCHEDULING);
    let why = b"no schedule \"1\"";
    let none = fails_with(rt, alloc, desk, "ns_unschedule_proc 1", why);
    let runs = right_runs(rt, alloc, desk, DUE, false);
    let _published = ended_of(rt, alloc, desk, HI);
    let later = right_runs(rt, alloc, desk, DUE_LATER, true);
    (made, none, runs, later)
}

#[test]
fn scripts_run_when_they_are_due(rt: HostRuntime) {
    let alloc = rt.alloc();
    let came = on_desk(&rt, alloc, &[], |desk| scheduled(&rt, alloc, desk));
    assert!(rt; came == Some((2, true, 3, 3)));
}

/// A script that is spent, and behind it one that reads a page.
const READING: &[(&str, u8, u64)] = &[(
    "ns_schedule_proc -once 5 {while 1 {}}; ns_schedule_proc 5 {set t [read [open /a]]}",
    0,
    1,
)];

/// The page can't be read the first time.
const SPENT: &[Due<'_>] = &[
    (
        5,
        &[0],
        &[(0, 1, 255, b""), (1, 1, 1, b"can't read page \"/a\"")],
    ),
    (10, &[1], &[(1, 1, 0, b"text")]),
];

/// How many of those definitions, and then of those runs, are right.
fn spent_and_read<R: Wait>(rt: &R, alloc: Global, desk: &mut Desk<'_>) -> (usize, usize) {
    let made = right_definitions(rt, alloc, desk, READING);
    (made, right_runs(rt, alloc, desk, SPENT, true))
}

#[test]
fn a_script_that_is_spent_keeps_none_from_running(rt: HostRuntime) {
    let alloc = rt.alloc();
    let came = on_desk(&rt, alloc, &[HI], |desk| spent_and_read(&rt, alloc, desk));
    assert!(rt; came == Some((1, 2)));
    items_are_isolated();
    costs_are_counted();
}

/// The save makes the second epoch, and the third with the next script, whose publication makes the fourth.
const DEFINITIONS: &[(&str, u8, u64)] = &[
    (HI, 0, 1),
    ("set x 1", 0, 1),
    ("ns_ictl save {proc q {} {}}", 0, 1),
    ("ns_ictl save {proc q {} {}}; proc z {} {}", 0, 4),
    ("while 1 {}", 2, 0),
    ("proc f {} {f}; f", 3, 0),
    ("rename nothing else", 1, 0),
];

#[test]
fn scripts_make_definitions(rt: HostRuntime) {
    let alloc = rt.alloc();
    let right = on_desk(&rt, alloc, &[], |desk| {
        right_definitions(&rt, alloc, desk, DEFINITIONS)
    });
    assert!(rt; right == Some(7));
}

/// Tells what was noted.
const NOTED: &str =
    "proc m {} {ns_return 200 text/plain [nsv_get m t]}\nns_register_proc GET /m m\n";

/// Whether the moment of a definition run is what it was given: one second past the year 9999, at which
/// clocks stop.
fn has_its_moment<R: Wait>(rt: &R, alloc: Global, desk: &mut Desk<'_>) -> bool {
    let end = desk.define_at(rt, alloc, "nsv_set m t [ns_time]", 253_402_300_800);
    let is_made = ended(&end) == (0, 1);
    drop(end);
    has_body(rt, alloc, desk, "/m", b"253402300800") && is_made
}

#[test]
fn a_definition_run_has_the_moment_that_it_was_given(rt: HostRuntime) {
    let alloc = rt.alloc();
    let right = on_desk(
        &rt,
        alloc,
        &[NOTED],
        |desk| has_its_moment(&rt, alloc, desk),
    );
    assert!(rt; right == Some(true));
}

/// Puts two numbers into a list that takes its room before; whether they fit.
fn takes_two(stock: &mut Stock<u64>) -> bool {
    let Ok(()) = stock.reserve(2) else {
        return false;
    };
    stock.push_reserved(5);
    stock.push(6).is_ok()
}

/// Whether a new list takes its room before what is put into it.
fn takes_room_before(alloc: Global) -> bool {
    let mut stock = Stock::new(alloc);
    let was_empty = stock.is_empty();
    let takes = takes_two(&mut stock);
    let is_full = stock.len() == 2 && stock.get(1) == Some(&6) && stock.get(2).is_none();
    was_empty && takes && is_full
}

#[test]
fn lists_take_their_room_before(rt: HostRuntime) {
    assert!(rt; takes_room_before(rt.alloc()));
}
