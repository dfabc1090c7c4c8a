//! Which scripts an engine finds among those that it keeps.

ghost use Rattle.std.specs.Prelude.{◌≡◌, ◌<◌};
ghost use Rattle.tcl_eval.specs.Engine.{IsIdle};

use crate::abandoned::run_script;
use crate::echo::Echo;
use crate::engines::engine;
use crate::playing::repeated;
use cmd_table::Steps;
use natives::Natives;
use std::alloc::Global;
use std::marker::Brand;
use std::sync::ledger::{Blank, Ledger};
use tcl_eval::Engine;
use txt_core::Text;

/// A script as `repeated` makes it, which an engine runs twice, and its hits behind both runs.
type Ran = ((&'static str, &'static str, &'static str, u32), u64);

/// The script itself is found in the second run, where it is short enough, and so is each script in it that runs by
/// itself; a body of a loop is looked for once, as the loop begins.
const RUNS: &[Ran] = &[
    (("set x 1", "", "", 0), 1),
    (("set x {", "", "", 0), 0),
    (("", " ", "", 4_096), 1),
    (("", " ", "", 4_097), 0),
    (("set i 0; while {$i < 3} {incr i}", "", "", 0), 2),
    (("for {set i 0} {$i < 3} {incr i} {set j $i}", "", "", 0), 4),
    (("foreach x {1 2 3} {set y $x}", "", "", 0), 2),
    (("catch {set x 1}; catch {set x 1}", "", "", 0), 4),
    (("if 1 {set x 1}; if 1 {set x 1}", "", "", 0), 4),
    (("eval {set x 1}; switch a a {set x 1}", "", "", 0), 4),
];

/// Takes an engine back to what it is now without what is under way.
fn clear<L: Ledger>(engine: &mut Engine<Echo>, steps: &mut Steps<L>)
    ensures { IsIdle engine.new }
{
    let mark = engine.mark();
    engine.clear(mark, steps);
}

/// Runs a script twice.
fn run_twice<L: Ledger>(
    engine: &mut Engine<Echo>,
    natives: &Natives,
    script: &[u8],
    steps: &mut Steps<L>,
    all: &mut Text,
)
    requires { IsIdle engine.old }
{
    run_script(engine, natives, script, steps, all);
    clear(engine, steps);
    run_script(engine, natives, script, steps, all);
}

/// The hits of an engine that runs a script twice.
fn hits_of<L: Ledger>(
    engine: &mut Engine<Echo>,
    natives: &Natives,
    script: &[u8],
    steps: &mut Steps<L>,
) -> u64
    requires { IsIdle engine.old }
{
    let mut all = Text::empty(engine.host().alloc);
    run_twice(engine, natives, script, steps, &mut all);
    engine.hits()
}

/// The hits of an engine that ran a script twice; `None` where memory wants.
fn hits_behind<L: Ledger>(
    alloc: Global,
    natives: &Natives,
    script: &[u8],
    steps: &mut Steps<L>,
) -> Option<u64> {
    match engine(alloc, natives, steps) {
        Ok(mut engine) => {
            let hits = hits_of(&mut engine, natives, script, steps);
            drop(engine);
            Some(hits)
        }
        Err(_) => None,
    }
}

/// Whether an engine has the hits of a row.
fn has_hits<L: Ledger>(alloc: Global, natives: &Natives, ran: &Ran, steps: &mut Steps<L>) -> bool {
    let ((front, unit, close, count), want) = *ran;
    let script = repeated(alloc, front, unit, close, count);
    hits_behind(alloc, natives, script.bytes(), steps) == Some(want)
}

/// The place of the first row whose hits are others, if there is one.
fn first_wrong<L: Ledger>(alloc: Global, natives: &Natives, steps: &mut Steps<L>) -> Option<usize> {
    for (at, ran) in RUNS.iter().enumerate() {
        if !has_hits(alloc, natives, ran, steps) {
            return Some(at);
        }
    }
    None
}

/// The same, over a counter of its own.
fn check_hits<L: Ledger>(alloc: Global, blank: Blank) -> Option<usize>
    requires name { blank.name ≡ L.name }
    requires parts { blank.parts ≡ L.parts }
    requires some { 0 < blank.parts }
{
    let mut steps = Steps::<L>::new(blank);
    first_wrong(alloc, &Natives::new(alloc), &mut steps)
}

#[test]
fn an_engine_keeps_short_scripts(rt: HostRuntime) {
    assert_eq!(rt; check_hits::<Brand>(rt.alloc(), Blank::new(1)), None);
}
