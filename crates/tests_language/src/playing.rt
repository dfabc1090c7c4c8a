//! Runs and pages that are played on an engine.

ghost use Rattle.tcl_eval.specs.Engine.{IsIdle, Leaves};

use crate::echo::Echo;
use crate::engines::{answer, charge, engine, start};
use crate::told::{put, show, show_number, text};
use adp_parse::pieces;
use cmd_table::Steps;
use natives::Natives;
use outside::Answer;
use std::alloc::Global;
use std::sync::ledger::Ledger;
use tcl_eval::{Engine, Outcome, Work};
use txt_core::{Text, Words};

/// A script with its budget and depth, and the answers that it is given, with `<-` between them. Each question
/// is told and charged, or only what it comes to at the end is told.
#[derive(Clone, Copy)]
pub struct Run<'a> {
    pub script: &'a [u8],
    pub budget: u64,
    pub depth: u32,
    pub answers: &'a str,
    pub tells: bool,
}

/// Starts a run of a script.
pub fn start_script<L: Ledger>(
    engine: &mut Engine<Echo>,
    natives: &Natives,
    run: &Run<'_>,
    steps: &mut Steps<L>,
) -> Outcome
    requires { IsIdle engine.old }
    ensures { Leaves result engine.new }
{
    let work = Work::Script(text(engine.host().alloc, run.script));
    start(engine, natives, work, run.budget, run.depth, steps)
}

/// Tells of a question and charges it, or doesn't.
fn tell(engine: &mut Engine<Echo>, outcome: &Outcome, tells: bool, all: &mut Text)
    requires { Leaves outcome.now engine.old }
    ensures { Leaves outcome.now engine.new }
{
    if tells {
        show(outcome, engine.left(), engine.host().alloc, all);
        charge(engine, outcome);
    }
}

/// Answers the question at which a run stands, if it does, and tells of it first, or doesn't.
fn go_on<L: Ledger>(
    engine: &mut Engine<Echo>,
    natives: &Natives,
    outcome: Outcome,
    said: &str,
    tells: bool,
    steps: &mut Steps<L>,
    all: &mut Text,
) -> Outcome
    requires { Leaves outcome engine.old }
    ensures { Leaves result engine.new }
{
    tell(engine, &outcome, tells, all);
    let said = Answer::Said(text(engine.host().alloc, said.as_bytes()));
    answer(engine, natives, outcome, said, steps)
}

/// Plays a run on an engine, and appends what it comes to.
fn play<L: Ledger>(
    engine: &mut Engine<Echo>,
    natives: &Natives,
    run: &Run<'_>,
    steps: &mut Steps<L>,
    all: &mut Text,
)
    requires { IsIdle engine.old }
{
    let mut outcome = start_script(engine, natives, run, steps);
    'answers: for said in run.answers.split(" <- ") {
        if said.is_empty() {
            continue;
        }
        outcome = go_on(engine, natives, outcome, said, run.tells, steps, all);
    }
    show(&outcome, engine.left(), engine.host().alloc, all);
}

/// What a run comes to; nothing where memory wants.
pub fn played<L: Ledger>(
    alloc: Global,
    natives: &Natives,
    run: &Run<'_>,
    steps: &mut Steps<L>,
) -> Text {
    let mut all = Text::empty(alloc);
    if let Ok(mut engine) = engine(alloc, natives, steps) {
        play(&mut engine, natives, run, steps, &mut all);
        drop(engine);
    }
    all
}

/// The pieces of a page without arguments; a script of nothing where memory wants.
fn page_of(alloc: Global, page: &str) -> Work {
    match pieces(alloc, &text(alloc, page.as_bytes()), Words::new(alloc)) {
        Ok(pieces) => Work::Page(pieces),
        Err(_) => Work::Script(Text::empty(alloc)),
    }
}

/// Appends what an engine came to and what its host was told.
fn show_page(engine: &Engine<Echo>, outcome: &Outcome, all: &mut Text) {
    let alloc = engine.host().alloc;
    show(outcome, engine.left(), alloc, all);
    put(all, engine.host().output.bytes());
    put(all, b"|");
    show_number(engine.host().told, b"", alloc, all);
}

/// Runs a first page, and the pages that it includes in turn, at a depth; appends what they come to.
fn turn_pages<L: Ledger>(
    engine: &mut Engine<Echo>,
    natives: &Natives,
    front: &str,
    depth: u32,
    steps: &mut Steps<L>,
    all: &mut Text,
)
    requires { IsIdle engine.old }
{
    let alloc = engine.host().alloc;
    let (first, others) = front.split_once(" <- ").unwrap_or((front, ""));
    let mut outcome = start(engine, natives, page_of(alloc, first), 100, depth, steps);
    'pages: for page in others.split(" <- ") {
        if page.is_empty() {
            continue;
        }
        let page = Answer::Page(text(alloc, page.as_bytes()));
        outcome = answer(engine, natives, outcome, page, steps);
    }
    show_page(engine, &outcome, all);
}

/// What a first page, and the pages that it includes in turn, come to at a depth; nothing where memory wants.
pub fn paged<L: Ledger>(
    alloc: Global,
    natives: &Natives,
    front: &str,
    depth: u32,
    steps: &mut Steps<L>,
) -> Text {
    let mut all = Text::empty(alloc);
    if let Ok(mut engine) = engine(alloc, natives, steps) {
        turn_pages(&mut engine, natives, front, depth, steps, &mut all);
        drop(engine);
    }
    all
}

/// Appends a text so often.
fn put_often(all: &mut Text, unit: &str, count: u32) {
    for _ in 0..count {
        put(all, unit.as_bytes());
    }
}

/// A script: `front`, then so often `unit`, and then as often `close`.
pub fn repeated(alloc: Global, front: &str, unit: &str, close: &str, count: u32) -> Text {
    let mut script = text(alloc, front.as_bytes());
    put_often(&mut script, unit, count);
    put_often(&mut script, close, count);
    script
}
