//! Scripts and pages by their tables, and what they come to.

ghost use Rattle.std.specs.Prelude.{◌≡◌, ◌<◌};

use crate::abandoned::{left_alone, unpaid};
use crate::lines::{COMMANDS, EXPRESSIONS, PICKS, ROWS, TURNS};
use crate::marks::taken_back;
use crate::pages::{DEEP_PAGES, PAGES};
use crate::playing::{Run, paged, played, repeated};
use crate::stand_ins::{add, list_none, string_repeat};
use cmd_table::Steps;
use natives::{Native, Natives};
use std::alloc::Global;
use std::marker::Brand;
use std::sync::ledger::{Blank, Ledger};
use std::test::Fail;
use txt_core::Text;

/// The parts of a line before its arrow and behind it; all of it and nothing, where it has no arrow.
fn parts(line: &str) -> (&str, &str) {
    line.split_once(" => ").unwrap_or((line, ""))
}

/// Whether the script of a line comes to what it says.
fn comes<L: Ledger>(alloc: Global, natives: &Natives, line: &str, steps: &mut Steps<L>) -> bool {
    let (front, want) = parts(line);
    let (script, answers) = front.split_once(" <- ").unwrap_or((front, ""));
    let run = Run {
        script: script.as_bytes(),
        budget: 100,
        depth: 1,
        answers,
        tells: true,
    };
    played(alloc, natives, &run, steps).bytes() == want.as_bytes()
}

/// How many lines there are, where each of them is right; `None` where one isn't.
fn right_lines<L: Ledger>(
    alloc: Global,
    natives: &Natives,
    lines: &str,
    steps: &mut Steps<L>,
) -> Option<u64> {
    let mut count = 0u64;
    for line in lines.lines() {
        if !comes(alloc, natives, line, steps) {
            return None;
        }
        count = count.wrapping_add(1);
    }
    Some(count)
}

/// Whether the pages of a line come to what it says, at a depth.
fn page_comes<L: Ledger>(
    alloc: Global,
    natives: &Natives,
    line: &str,
    depth: u32,
    steps: &mut Steps<L>,
) -> bool {
    let (front, want) = parts(line);
    paged(alloc, natives, front, depth, steps).bytes() == want.as_bytes()
}

/// How many lines of pages there are, where each of them is right at a depth; `None` where one isn't.
fn right_pages<L: Ledger>(
    alloc: Global,
    natives: &Natives,
    lines: &str,
    depth: u32,
    steps: &mut Steps<L>,
) -> Option<u64> {
    let mut count = 0u64;
    for line in lines.lines() {
        if !page_comes(alloc, natives, line, depth, steps) {
            return None;
        }
        count = count.wrapping_add(1);
    }
    Some(count)
}

/// A script, its budget, the answers that it is given, and what it comes to at the end.
type Answered = (&'static str, u64, &'static str, &'static str);

const ANSWERED: &[Answered] = &[
    (
        "while {[ask] < 3} {append s x}; return $s",
        100,
        "1 <- 2 <- 3",
        "2 xx 88|",
    ),
    (
        "foreach a {1 2} {append s [ask]}; return $s",
        100,
        "p <- q",
        "2 pq 92|",
    ),
    ("expr {[ask] + [ask]}", 100, "4 <- 5", "0 9 96|"),
    (
        "proc p {} {set i 0; while {$i < 65} {incr i}; return $i}; p",
        201,
        "",
        "0 65 0|",
    ),
    (
        "proc p {} {set i 0; while {$i < 66} {incr i}; return $i}; p",
        201,
        "",
        "spent 0|",
    ),
    ("proc hi {} {if 1 hi}; hi", 2_000, "", "deep 1699|"),
];

/// Whether a script that is answered comes to what its row says.
fn answered_comes<L: Ledger>(
    alloc: Global,
    natives: &Natives,
    row: &Answered,
    steps: &mut Steps<L>,
) -> bool {
    let (script, budget, answers, want) = *row;
    let run = Run {
        script: script.as_bytes(),
        budget,
        depth: 1,
        answers,
        tells: false,
    };
    played(alloc, natives, &run, steps).bytes() == want.as_bytes()
}

/// How many scripts that are answered there are, where each of them is right; `None` where one isn't.
fn right_answered<L: Ledger>(
    alloc: Global,
    natives: &Natives,
    steps: &mut Steps<L>,
) -> Option<u64> {
    let mut count = 0u64;
    for row in ANSWERED {
        if !answered_comes(alloc, natives, row, steps) {
            return None;
        }
        count = count.wrapping_add(1);
    }
    Some(count)
}

/// A script as `repeated` makes it, its budget and depth, and what it comes to.
type Limit = (
    (&'static str, &'static str, &'static str, u32),
    u64,
    u32,
    &'static str,
);

const LIMITS: &[Limit] = &[
    (
        ("", "[", "]", 199),
        500,
        1,
        "1 invalid command name \"\" 499|",
    ),
    (("", "[", "]", 200), 500, 1, "deep 500|"),
    (("return x", "", "", 0), 100, 200, "2 x 99|"),
    (("return [return x]", "", "", 0), 100, 199, "2 x 99|"),
    (("return [ ]", "", "", 0), 100, 200, "deep 100|"),
    (("proc r {} {r}; r", "", "", 0), 1000, 1, "deep 799|"),
    (("", "keep a 1;", "", 10_000), 10_000, 1, "0 1 0|"),
    (("", "keep a 1;", "", 10_000), 9_999, 1, "spent 0|"),
    (
        ("return ", "sixteen.bytes.xx", "", 65_536),
        1_024,
        1,
        "spent 1024|",
    ),
    (
        ("info exists ", "sixteen.bytes.xx", "", 65_536),
        2_000,
        1,
        "0 0 975|",
    ),
    (
        ("return x", "sixteen.bytes.xx", "", 65_536),
        100,
        1,
        "1 value too long 100|",
    ),
    (("keep a x; return $a", "", "", 0), 1, 1, "spent 0|"),
];

/// Whether a script comes to what a limit says.
fn is_limited<L: Ledger>(
    alloc: Global,
    natives: &Natives,
    limit: &Limit,
    script: &[u8],
    steps: &mut Steps<L>,
) -> bool {
    let (_, budget, depth, want) = *limit;
    let run = Run {
        script,
        budget,
        depth,
        answers: "",
        tells: false,
    };
    played(alloc, natives, &run, steps).bytes() == want.as_bytes()
}

/// Whether the script of a limit comes to what it says.
fn is_right<L: Ledger>(
    alloc: Global,
    natives: &Natives,
    limit: &Limit,
    steps: &mut Steps<L>,
) -> bool {
    let (front, unit, close, count) = limit.0;
    let script = repeated(alloc, front, unit, close, count);
    is_limited(alloc, natives, limit, script.bytes(), steps)
}

/// The place of the first limit that is wrong, if there is one.
fn first_wrong_limit<L: Ledger>(
    alloc: Global,
    natives: &Natives,
    steps: &mut Steps<L>,
) -> Option<usize> {
    for (at, limit) in LIMITS.iter().enumerate() {
        if !is_right(alloc, natives, limit, steps) {
            return Some(at);
        }
    }
    None
}

/// The same, over a counter of its own.
fn check_limits<L: Ledger>(alloc: Global, blank: Blank) -> Option<usize>
    requires name { blank.name ≡ L.name }
    requires parts { blank.parts ≡ L.parts }
    requires some { 0 < blank.parts }
{
    let mut steps = Steps::<L>::new(blank);
    first_wrong_limit(alloc, &Natives::new(alloc), &mut steps)
}

#[test]
fn limits(rt: HostRuntime) {
    assert_eq!(rt; check_limits::<Brand>(rt.alloc(), Blank::new(1)), None);
}

/// How many lines, scripts that are answered and pages there are, table by table, where each of a table is right.
fn right_tables<L: Ledger>(
    alloc: Global,
    natives: &Natives,
    steps: &mut Steps<L>,
) -> [Option<u64>; 8] {
    [
        right_lines(alloc, natives, ROWS, steps),
        right_lines(alloc, natives, EXPRESSIONS, steps),
        right_lines(alloc, natives, TURNS, steps),
        right_lines(alloc, natives, PICKS, steps),
        right_lines(alloc, natives, COMMANDS, steps),
        right_answered(alloc, natives, steps),
        right_pages(alloc, natives, PAGES, 1, steps),
        right_pages(alloc, natives, DEEP_PAGES, 200, steps),
    ]
}

/// How many there must be.
const TABLES: [Option<u64>; 8] = [
    Some(50),
    Some(25),
    Some(36),
    Some(28),
    Some(19),
    Some(6),
    Some(20),
    Some(3),
];

/// What comes of a run that is abandoned at a question.
const LEFT_ALONE: &[u8] = b"asks ask 3 96|2|1 can't read \"v\": no such variable 99|2|";

/// What comes of a run whose answer costs more than is left.
const UNPAID: &[u8] = b"asks ask 2 1|spent 1|2 1 99|0|";

/// What comes of an engine that is taken back to a mark.
const TAKEN_BACK: &[u8] =
    b"asks ask bye 2 94|0 hello 99|0|1 invalid command name \"g\" 99|0|1|1 can't read \"motd\": no such variable 99|0|";

/// Whether runs that are abandoned, not paid and taken back come to that.
fn right_runs<L: Ledger>(alloc: Global, natives: &Natives, steps: &mut Steps<L>) -> [bool; 3] {
    [
        left_alone(alloc, natives, steps).bytes() == LEFT_ALONE,
        unpaid(alloc, natives, steps).bytes() == UNPAID,
        taken_back(alloc, natives, steps).bytes() == TAKEN_BACK,
    ]
}

/// Whether all tables are right, and which of those runs.
fn check_all<L: Ledger>(alloc: Global, natives: &Natives, blank: Blank) -> (bool, [bool; 3])
    requires name { blank.name ≡ L.name }
    requires parts { blank.parts ≡ L.parts }
    requires some { 0 < blank.parts }
{
    let mut steps = Steps::<L>::new(blank);
    let tables = right_tables(alloc, natives, &mut steps);
    (tables == TABLES, right_runs(alloc, natives, &mut steps))
}

#[test]
#[tactic(auto, unfolding(natives::specs::Ranges::range_of))]
fn the_language(rt: HostRuntime) -> Result<(), Fail> {
    let alloc = rt.alloc();
    let mut natives = Natives::new(alloc);
    let list = Native::new(Text::new(alloc, b"list")?, 1, 200_001, list_none);
    add(&mut natives, list)?;
    let string = Native::new(Text::new(alloc, b"string")?, 3, 5, string_repeat);
    add(&mut natives, string)?;
    let came = check_all::<Brand>(alloc, &natives, Blank::new(1));
    assert_eq!(rt; came, (true, [true, true, true]));
    Ok(())
}
