//! The stages of requests, as letters.
ghost use Rattle.std.specs.Prelude.{◌≡◌, true, IsSome};
ghost use Rattle.stages.specs.declared.event.Counts.{Counts};
ghost use Rattle.stages.specs.Order.{following};

use crate::texts::put;
use cmd_table::When;
use stages::{Counts, Do, Event, Stage};
use std::alloc::Global;
use txt_core::Text;

/// A request with two preauth filters, an authorisation, a postauth filter, two trace filters and a
/// cleanup script.
const ALL: Counts = Counts {
    preauth: 2,
    authorise: true,
    postauth: 1,
    trace: 2,
    cleanup: 1,
};

/// A request with nothing but its procedure.
const BARE: Counts = Counts {
    preauth: 0,
    authorise: false,
    postauth: 0,
    trace: 0,
    cleanup: 0,
};

/// The event that a letter stands for.
fn event_of(letter: u8) -> Event {
    match letter {
        b'b' => Event::Begin,
        b'k' => Event::FilterOk,
        b'x' => Event::FilterBreak,
        b'r' => Event::FilterReturn,
        b'a' => Event::Allowed,
        b'd' => Event::Denied,
        b's' => Event::Served,
        b'f' => Event::Failed,
        b'w' => Event::Written,
        b'n' => Event::NotWritten,
        _ => Event::Ran,
    }
}

/// The two letters by which what is asked is listed: its stage, and its place in the stage.
fn letters_of(asked: Do) -> [u8; 2] {
    match asked {
        Do::Filter { when, index } => {
            let stage = match when {
                When::Preauth => b'p',
                When::Postauth => b'q',
                When::Trace => b't',
            };
            [stage, if index == 0 { b'0' } else { b'1' }]
        }
        Do::Authorise => *b"a-",
        Do::Serve => *b"s-",
        Do::Write => *b"w-",
        Do::Cleanup { index } => [b'c', if index == 0 { b'0' } else { b'1' }],
        Do::End => *b"e-",
    }
}

/// Whether an event fits what was asked last.
fn fits(event: Event, asked: Option<Do>) -> bool
    ensures { (counts : Counts) → result ≡ true → IsSome (following counts event asked) }
{
    match (asked, event) {
        (None, Event::Begin) => true,
        (
            Some(Do::Filter { .. }),
            Event::FilterOk | Event::FilterBreak | Event::FilterReturn | Event::Failed,
        ) => true,
        (Some(Do::Authorise), Event::Allowed | Event::Denied | Event::Failed) => true,
        (Some(Do::Serve), Event::Served | Event::Failed) => true,
        (Some(Do::Write), Event::Written | Event::NotWritten) => true,
        (Some(Do::Cleanup { .. }), Event::Ran) => true,
        _ => false,
    }
}

/// What is asked after each of these events, up to the first that doesn't fit.
fn walk(alloc: Global, counts: Counts, events: &[u8]) -> Text {
    let mut stage = Stage::new(counts);
    let mut asked = None;
    let mut all = Text::empty(alloc);
    for letter in events {
        let event = event_of(*letter);
        if !fits(event, asked) {
            put(&mut all, b"?");
            return all;
        }
        let next = stage.next(event);
        asked = Some(next);
        put(&mut all, &letters_of(next));
    }
    all
}

/// A request, events, and what is asked after each.
const ROWS: &[(Counts, &str, &str)] = &[
    (ALL, "bkkakswkkm", "p0p1a-q0s-w-t0t1c0e-"),
    (ALL, "bxaxswxm", "p0a-q0s-w-t0c0e-"),
    (ALL, "brn", "p0w-e-"),
    (ALL, "brw", "p0w-t0"),
    (ALL, "bkkdw", "p0p1a-w-t0"),
    (ALL, "bkkafwrfm", "p0p1a-q0w-t0t1c0e-"),
    (ALL, "bkkakfn", "p0p1a-q0s-w-e-"),
    (ALL, "bfa", "p0w-?"),
    (BARE, "bsw", "s-w-e-"),
    (BARE, "bfnw", "s-w-e-?"),
];

/// The place of the first row that is wrong, if there is one.
fn first_wrong(alloc: Global) -> Option<usize> {
    for (at, (counts, events, want)) in ROWS.iter().enumerate() {
        if walk(alloc, *counts, events.as_bytes()).bytes() != want.as_bytes() {
            return Some(at);
        }
    }
    None
}

#[test]
fn stages_in_order(rt: HostRuntime) {
    assert_eq!(rt; first_wrong(rt.alloc()), None);
}
