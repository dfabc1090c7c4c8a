//! Runs that are abandoned, and what runs behind them.

ghost use Rattle.std.specs.Prelude.{◌≡◌, IfOk};
ghost use Rattle.tcl_eval.specs.Engine.{IsIdle, Leaves};
ghost use Rattle.cmd_table.specs.declared.definition.Def.{Def};

use crate::echo::Echo;
use crate::engines::{answer, engine, start};
use crate::playing::{Run, repeated, start_script};
use crate::told::{show, show_number, text};
use cmd_table::{Def, Steps};
use natives::Natives;
use outside::Answer;
use std::alloc::Global;
use std::sync::ledger::Ledger;
use tcl_eval::{Engine, Outcome, Work};
use txt_core::{NoMemory, Text, Words};

/// A procedure.
fn procedure(alloc: Global, name: &str, params: &str, body: &str) -> Result<Def, NoMemory>
    ensures { IfOk result (λ def. def ≡ Def.Proc name.now params.now body.now) }
{
    Ok(Def::Proc {
        name: Text::new(alloc, name.as_bytes())?,
        params: Text::new(alloc, params.as_bytes())?,
        body: Text::new(alloc, body.as_bytes())?,
    })
}

/// Defines a procedure `f`.
fn define_procedure<L: Ledger>(
    engine: &mut Engine<Echo>,
    steps: &mut Steps<L>,
) -> Result<(), NoMemory>
    requires { IsIdle engine.old }
    ensures { IsIdle engine.new }
{
    let alloc = engine.host().alloc;
    let def = procedure(alloc, "f", "v", "note $v; proc g {} {}; ask")?;
    engine.define(&def, steps)
}

/// An engine with a procedure `f`, which lists a cleanup script, makes a procedure `g` and asks.
fn engine_with_procedure<L: Ledger>(
    alloc: Global,
    natives: &Natives,
    steps: &mut Steps<L>,
) -> Result<Engine<Echo>, NoMemory>
    ensures { IfOk result (λ made. IsIdle made) }
{
    let mut engine = engine(alloc, natives, steps)?;
    define_procedure(&mut engine, steps)?;
    Ok(engine)
}

/// A call of `f` with 1.
fn call_of_procedure(alloc: Global) -> Work {
    let mut words = Words::new(alloc);
    let _name = words.add(text(alloc, b"f"));
    let _one = words.add(text(alloc, b"1"));
    Work::Call(words)
}

/// Runs this and abandons what is left of it; appends what it came to, and how many definitions are
/// listed as made.
fn run_and_abandon<L: Ledger>(
    engine: &mut Engine<Echo>,
    natives: &Natives,
    work: Work,
    steps: &mut Steps<L>,
    all: &mut Text,
)
    requires { IsIdle engine.old }
    ensures { IsIdle engine.new }
{
    let alloc = engine.host().alloc;
    let outcome = start(engine, natives, work, 100, 1, steps);
    let left = engine.left();
    engine.abandon();
    show(&outcome, left, alloc, all);
    show_number(engine.made().len() as u64, b"|", alloc, all);
}

/// Runs a script and abandons what is left of it; appends what it came to.
pub fn run_script<L: Ledger>(
    engine: &mut Engine<Echo>,
    natives: &Natives,
    script: &[u8],
    steps: &mut Steps<L>,
    all: &mut Text,
)
    requires { IsIdle engine.old }
    ensures { IsIdle engine.new }
{
    let work = Work::Script(text(engine.host().alloc, script));
    run_and_abandon(engine, natives, work, steps, all);
}

/// Stands at a question in `f`, which is abandoned, and runs on after that.
fn leave_alone<L: Ledger>(
    engine: &mut Engine<Echo>,
    natives: &Natives,
    steps: &mut Steps<L>,
    all: &mut Text,
)
    requires { IsIdle engine.old }
{
    let call = call_of_procedure(engine.host().alloc);
    run_and_abandon(engine, natives, call, steps, all);
    run_script(engine, natives, b"g; return $v", steps, all);
}

/// What comes of a call of `f` that is abandoned at its question, and of a run after that; nothing where memory
/// wants.
pub fn left_alone<L: Ledger>(alloc: Global, natives: &Natives, steps: &mut Steps<L>) -> Text {
    let mut all = Text::empty(alloc);
    if let Ok(mut engine) = engine_with_procedure(alloc, natives, steps) {
        leave_alone(&mut engine, natives, steps, &mut all);
        drop(engine);
    }
    all
}

/// Starts a script that asks, with a budget of 3.
fn ask_with_three<L: Ledger>(
    engine: &mut Engine<Echo>,
    natives: &Natives,
    steps: &mut Steps<L>,
) -> Outcome
    requires { IsIdle engine.old }
    ensures { Leaves result engine.new }
{
    let run = Run {
        script: b"keep a 1; ask",
        budget: 3,
        depth: 1,
        answers: "",
        tells: false,
    };
    start_script(engine, natives, &run, steps)
}

/// Answers the question of a run with 2,048 bytes.
fn answer_long<L: Ledger>(
    engine: &mut Engine<Echo>,
    natives: &Natives,
    outcome: Outcome,
    steps: &mut Steps<L>,
) -> Outcome
    requires { Leaves outcome engine.old }
{
    let long = repeated(engine.host().alloc, "", "sixteen.bytes.xx", "", 128);
    answer(engine, natives, outcome, Answer::Said(long), steps)
}

/// Stands at a question whose answer costs more than is left, which ends the run. Appends both.
fn ask_unpaid<L: Ledger>(
    engine: &mut Engine<Echo>,
    natives: &Natives,
    steps: &mut Steps<L>,
    all: &mut Text,
)
    requires { IsIdle engine.old }
{
    let alloc = engine.host().alloc;
    let outcome = ask_with_three(engine, natives, steps);
    show(&outcome, engine.left(), alloc, all);
    let ended = answer_long(engine, natives, outcome, steps);
    show(&ended, engine.left(), alloc, all);
}

/// Runs on after a run whose answer wasn't paid.
fn go_unpaid<L: Ledger>(
    engine: &mut Engine<Echo>,
    natives: &Natives,
    steps: &mut Steps<L>,
    all: &mut Text,
)
    requires { IsIdle engine.old }
{
    ask_unpaid(engine, natives, steps, all);
    engine.abandon();
    run_script(engine, natives, b"return $a", steps, all);
}

/// What comes of a question whose answer costs more than is left, and of a run after that; nothing where memory
/// wants.
pub fn unpaid<L: Ledger>(alloc: Global, natives: &Natives, steps: &mut Steps<L>) -> Text {
    let mut all = Text::empty(alloc);
    if let Ok(mut engine) = engine(alloc, natives, steps) {
        go_unpaid(&mut engine, natives, steps, &mut all);
        drop(engine);
    }
    all
}
