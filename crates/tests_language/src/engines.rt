//! Engines over a host that echoes. The calls of the crate are made by small functions that say no more of them
//! than what the next call asks for.

ghost use Rattle.std.specs.Prelude.{◌≡◌, IfOk};
ghost use Rattle.tcl_eval.specs.Engine.{IsIdle, IsOpenTo, Leaves};
ghost use Rattle.tcl_frame.specs.Frames.{fresh};

use crate::echo::Echo;
use crate::told::text;
use cmd_table::{Cmd, CmdTable, Steps};
use natives::Natives;
use outside::{Answer, Service};
use std::alloc::Global;
use std::sync::ledger::Ledger;
use tcl_eval::{Engine, Outcome, Work};
use tcl_frame::Frames;
use txt_core::NoMemory;

/// The commands of the host.
const ECHOES: &[&str] = &[
    "ask",
    "keep",
    "note",
    "page",
    "ns_adp_append",
    "ns_adp_return",
    "ns_adp_break",
    "ns_adp_abort",
];

/// Puts a command of the host into a table.
fn put_echo<L: Ledger>(alloc: Global, table: &mut CmdTable, name: &[u8], steps: &mut Steps<L>) {
    let built = Cmd::Built(text(alloc, name));
    let _put = table.put(text(alloc, name), built, steps);
}

/// Gives a command another name.
fn rename<L: Ledger>(
    alloc: Global,
    table: &mut CmdTable,
    old: &[u8],
    new: &[u8],
    steps: &mut Steps<L>,
) {
    let _renamed = table.rename(&text(alloc, old), &text(alloc, new), steps);
}

/// Puts the commands of the host into a table, and gives `error` the name `wrong`.
fn put_commands<L: Ledger>(alloc: Global, table: &mut CmdTable, steps: &mut Steps<L>) {
    for name in ECHOES {
        put_echo(alloc, table, name.as_bytes(), steps);
    }
    rename(alloc, table, b"error", b"wrong", steps);
}

/// The built-ins, these natives and the host's commands, where `error` has the name `wrong`.
fn commands<L: Ledger>(
    alloc: Global,
    natives: &Natives,
    steps: &mut Steps<L>,
) -> Result<CmdTable, NoMemory> {
    let mut table = CmdTable::new(alloc, natives, steps)?;
    put_commands(alloc, &mut table, steps);
    Ok(table)
}

/// An engine with these commands.
pub fn engine<L: Ledger>(
    alloc: Global,
    natives: &Natives,
    steps: &mut Steps<L>,
) -> Result<Engine<Echo>, NoMemory>
    ensures idle { IfOk result (λ made. IsIdle made) }
    ensures frames { IfOk result (λ made. made.frames ≡ fresh) }
{
    let table = commands(alloc, natives, steps)?;
    let frames = Frames::new(alloc)?;
    Ok(Engine::new(alloc, table, frames, Echo::new(alloc)))
}

/// Starts a run at a depth from 1 to 200.
pub fn start<L: Ledger>(
    engine: &mut Engine<Echo>,
    natives: &Natives,
    work: Work,
    budget: u64,
    depth: u32,
    steps: &mut Steps<L>,
) -> Outcome
    requires { IsIdle engine.old }
    ensures { Leaves result engine.new }
{
    engine.start(natives, work, budget, depth.clamp(1, 200), steps)
}

/// Answers the question at which a run stands, if it does.
pub fn answer<L: Ledger>(
    engine: &mut Engine<Echo>,
    natives: &Natives,
    outcome: Outcome,
    answer: Answer,
    steps: &mut Steps<L>,
) -> Outcome
    requires { Leaves outcome engine.old }
    ensures { Leaves result engine.new }
{
    match outcome {
        Outcome::Asks(_) => engine.resume(natives, answer, steps),
        ended => ended,
    }
}

/// Charges 3 to a run that stands at a question to this service, where a run inside it answers that
/// and so much is left.
fn charge_three(engine: &mut Engine<Echo>, service: Service)
    requires { IsOpenTo service engine.old.question }
    ensures { engine.new.question ≡ engine.old.question }
{
    match service {
        Service::Inner => {
            if engine.left() >= 3 {
                engine.charge(3);
            }
        }
        Service::Page | Service::Nsv | Service::Schedule | Service::Publish | Service::Save => {}
    }
}

/// Charges 3 to a run that stands at a question.
pub fn charge(engine: &mut Engine<Echo>, outcome: &Outcome)
    requires { Leaves outcome.now engine.old }
    ensures { Leaves outcome.now engine.new }
{
    if let Outcome::Asks(question) = outcome {
        charge_three(engine, question.service);
    }
}
