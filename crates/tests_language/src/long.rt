//! Words that are too long, and commands whose words cost more than is left of the budget: what the pieces and
//! words behind them do, and what all comes to.

ghost use Rattle.std.specs.Prelude.{◌≡◌, ◌<◌};

use crate::playing::{Run, played, repeated};
use crate::told::put;
use cmd_table::Steps;
use natives::Natives;
use std::alloc::Global;
use std::marker::Brand;
use std::sync::ledger::{Blank, Ledger};
use txt_core::Text;

/// What it costs to give `a` its value of 1,048,576 bytes.
const MAKING: u64 = 3_087;

/// A script that gives `a` a value of 1,048,576 bytes and goes on with `front`, so often `unit`, and `behind`; what
/// is left of its budget behind the value; the answers that it is given; and what it comes to at the end.
#[derive(Clone, Copy)]
struct Case<'a> {
    front: &'a str,
    unit: &'a str,
    count: u32,
    behind: &'a str,
    left: u64,
    answers: &'a str,
    want: &'a str,
}

/// What stands before and behind so many times `$a` in one word, the answers, and what the script comes to with 100
/// left.
type TooLong = (&'static str, u32, &'static str, &'static str, &'static str);

/// An error is caught, so that the script goes on.
const TOO_LONG: &[TooLong] = &[
    (
        "catch {set b ",
        10_000,
        "} m; return $m",
        "",
        "2 value too long 79|",
    ),
    (
        "catch {set b x",
        10_000,
        "-y} m; return $m",
        "",
        "2 value too long 79|",
    ),
    (
        "catch {set b \"",
        10_000,
        "\"} m; return $m",
        "",
        "2 value too long 79|",
    ),
    (
        "catch {set b $x(",
        10_000,
        ")} m; return $m",
        "",
        "2 value too long 79|",
    ),
    (
        "catch {expr {\"",
        10_000,
        "\"}} m; return $m",
        "",
        "2 value too long 58|",
    ),
    (
        "catch {set b .",
        1,
        "} m; return $m,[info exists b]",
        "",
        "2 value too long,0 97|",
    ),
    (
        "catch {set b ",
        1,
        ".} m; return $m,[info exists b]",
        "",
        "2 value too long,0 97|",
    ),
    (
        "catch {set b ",
        2,
        "[set c 1]} m; return $m,$c,[info exists b]",
        "",
        "2 value too long,1,0 96|",
    ),
    (
        "catch {set b ",
        2,
        "[wrong boom][set c 1]} m; return $m,[info exists c]",
        "",
        "2 boom,0 96|",
    ),
    (
        "catch {set b ",
        2,
        "$gone} m; return $m",
        "",
        "2 can't read \"gone\": no such variable 98|",
    ),
    (
        "catch {set b ",
        2,
        "$x([set c 1])} m; return $m,$c",
        "",
        "2 can't read \"x(1)\": no such variable,1 97|",
    ),
    (
        "set x(1) 2; catch {set b ",
        2,
        "$x([set c 1])} m; return $m,$c",
        "",
        "2 value too long,1 96|",
    ),
    ("set b ", 2, "[return x]", "", "2 x 99|"),
    ("set b ", 2, "[break]", "", "3  99|"),
    ("set b ", 2, "[ask]", "", "asks ask 3 99|"),
    (
        "catch {set b ",
        2,
        "[set c [ask]]} m; return $m,$c",
        "7",
        "2 value too long,7 96|",
    ),
    (
        "catch {set b ",
        2,
        " [set c 1]} m; return $m,[info exists c]",
        "",
        "2 value too long,0 97|",
    ),
    (
        "catch {set b $x(",
        2,
        "[set c 1])[set d 2]} m; return $m,$c,[info exists d]",
        "",
        "2 value too long,1,0 96|",
    ),
    (
        "catch {set b $x(",
        2,
        "[wrong boom])} m; return $m",
        "",
        "2 boom 97|",
    ),
    (
        "catch {set b $x($y(",
        2,
        "[set c 1])[set d 2])} m; return $m,$c,[info exists d]",
        "",
        "2 value too long,1,0 96|",
    ),
    (
        "catch {expr {\"",
        2,
        "[set c 1]\" eq [set d 2]}} m; return $m,$c,[info exists d]",
        "",
        "2 value too long,1,0 94|",
    ),
];

/// What stands before and behind so many words `$a`, what is left of the budget, the answers, and what the script
/// comes to.
type TooCostly = (
    &'static str,
    u32,
    &'static str,
    u64,
    &'static str,
    &'static str,
);

const TOO_COSTLY: &[TooCostly] = &[
    ("list", 300, "", 200_000, "", "spent 200000|"),
    ("catch {list", 100, "} m", 5_000, "", "spent 4999|"),
    ("ns_adp_append", 1, "", 1_025, "", "0  0|"),
    ("ns_adp_append", 1, "", 1_024, "", "spent 1024|"),
    ("ns_adp_append", 1, " [set c 1]", 1_026, "", "0  0|"),
    ("ns_adp_append", 1, " [set c 1]", 1_025, "", "spent 1024|"),
    ("ns_adp_append [set c 1]", 1, "", 1_025, "", "spent 1024|"),
    (
        "catch {list",
        10,
        " [wrong boom]} m; return $m",
        5_000,
        "",
        "2 boom 4997|",
    ),
    (
        "catch {list",
        10,
        " [set c 1] [wrong $c]} m; return $m,$c",
        5_000,
        "",
        "2 1,1 4996|",
    ),
    (
        "catch {list",
        10,
        " $gone} m; return $m",
        5_000,
        "",
        "2 can't read \"gone\": no such variable 4998|",
    ),
    (
        "catch {list",
        10,
        " $a[set c 1]. [set d 2]} m; return $m,$c,[info exists d]",
        5_000,
        "",
        "2 value too long,1,0 4996|",
    ),
    ("list", 10, " [return x]", 5_000, "", "2 x 4999|"),
    ("list", 10, " [ask]", 5_000, "", "asks ask 3 4999|"),
    ("list", 10, " [ask]", 5_000, "7", "spent 4999|"),
];

/// The script of a case.
fn script(alloc: Global, case: &Case<'_>) -> Text {
    let mut script = repeated(alloc, "set a 0123456789abcdef;", "append a $a;", "", 16);
    let words = repeated(alloc, case.front, case.unit, "", case.count);
    put(&mut script, words.bytes());
    put(&mut script, case.behind.as_bytes());
    script
}

/// Whether a script comes to what a case says.
fn comes<L: Ledger>(
    alloc: Global,
    natives: &Natives,
    case: &Case<'_>,
    script: &[u8],
    steps: &mut Steps<L>,
) -> bool {
    let run = Run {
        script,
        budget: MAKING.saturating_add(case.left),
        depth: 1,
        answers: case.answers,
        tells: false,
    };
    played(alloc, natives, &run, steps).bytes() == case.want.as_bytes()
}

/// Whether the script of a case comes to what it says.
fn is_right<L: Ledger>(
    alloc: Global,
    natives: &Natives,
    case: &Case<'_>,
    steps: &mut Steps<L>,
) -> bool {
    let script = script(alloc, case);
    comes(alloc, natives, case, script.bytes(), steps)
}

/// The case of words that are too long.
fn too_long(row: &TooLong) -> Case<'static> {
    let (front, count, behind, answers, want) = *row;
    Case {
        front,
        unit: "$a",
        count,
        behind,
        left: 100,
        answers,
        want,
    }
}

/// The case of a command whose words cost more than is left.
fn too_costly(row: &TooCostly) -> Case<'static> {
    let (front, count, behind, left, answers, want) = *row;
    Case {
        front,
        unit: " $a",
        count,
        behind,
        left,
        answers,
        want,
    }
}

/// What is left of a value's budget is too little for so many results in one word.
const RESULTS: Case<'static> = Case {
    front: "set b ",
    unit: "[set a]",
    count: 10_000,
    behind: "",
    left: 5_000,
    answers: "",
    want: "spent 899|",
};

/// The place of the first row of words that are too long that is wrong, if there is one.
fn first_too_long<L: Ledger>(
    alloc: Global,
    natives: &Natives,
    steps: &mut Steps<L>,
) -> Option<usize> {
    for (at, row) in TOO_LONG.iter().enumerate() {
        if !is_right(alloc, natives, &too_long(row), steps) {
            return Some(at);
        }
    }
    None
}

/// The place of the first row of commands whose words cost more than is left that is wrong, if there is one.
fn first_too_costly<L: Ledger>(
    alloc: Global,
    natives: &Natives,
    steps: &mut Steps<L>,
) -> Option<usize> {
    for (at, row) in TOO_COSTLY.iter().enumerate() {
        if !is_right(alloc, natives, &too_costly(row), steps) {
            return Some(at);
        }
    }
    None
}

/// The place of the first wrong row of words that are too long, over a counter of its own.
fn check_words<L: Ledger>(alloc: Global, blank: Blank) -> Option<usize>
    requires name { blank.name ≡ L.name }
    requires parts { blank.parts ≡ L.parts }
    requires some { 0 < blank.parts }
{
    let mut steps = Steps::<L>::new(blank);
    first_too_long(alloc, &Natives::new(alloc), &mut steps)
}

/// Whether results in a word that cost more than is left come to what they must, and the place of the first wrong
/// row of commands whose words do, over a counter of their own.
fn check_commands<L: Ledger>(alloc: Global, blank: Blank) -> (bool, Option<usize>)
    requires name { blank.name ≡ L.name }
    requires parts { blank.parts ≡ L.parts }
    requires some { 0 < blank.parts }
{
    let mut steps = Steps::<L>::new(blank);
    let natives = Natives::new(alloc);
    let wrong = first_too_costly(alloc, &natives, &mut steps);
    (is_right(alloc, &natives, &RESULTS, &mut steps), wrong)
}

#[test]
fn words_that_are_too_long(rt: HostRuntime) {
    assert_eq!(rt; check_words::<Brand>(rt.alloc(), Blank::new(1)), None);
}

#[test]
fn commands_that_cost_too_much(rt: HostRuntime) {
    assert_eq!(rt;
        check_commands::<Brand>(rt.alloc(), Blank::new(1)),
        (true, None)
    );
}
