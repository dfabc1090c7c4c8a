//! An engine that is taken back to a mark, and base scalars of it.

ghost use Rattle.std.specs.Prelude.{◌≡◌, ◌≤◌, IfOk, codes};
ghost use Rattle.cmd_table.specs.Table.{mark_of};
ghost use Rattle.cmd_table.specs.declared.definition.Def.{Def};
ghost use Rattle.tcl_eval.specs.Engine.{IsIdle};
ghost use Rattle.tcl_frame.specs.Frames.{fresh};

use crate::abandoned::run_script;
use crate::echo::Echo;
use crate::engines::engine;
use crate::told::{put, show, show_number, text};
use cmd_table::{Def, Steps};
use natives::Natives;
use std::alloc::Global;
use std::sync::ledger::Ledger;
use tcl_eval::{Engine, Outcome, Work};
use tcl_frame::base_scalars_stand;
use txt_core::{NoMemory, Text};

/// The base scalar `motd`.
fn message(alloc: Global) -> Result<Def, NoMemory>
    ensures { IfOk result (λ def. def ≡ Def.Set (codes "motd") (codes "hello")) }
{
    Ok(Def::Set {
        name: Text::new(alloc, b"motd")?,
        value: Text::new(alloc, b"hello")?,
    })
}

/// Keeps `motd` in an engine whose frames are new.
fn keep_message<L: Ledger>(engine: &mut Engine<Echo>, steps: &mut Steps<L>) -> Result<(), NoMemory>
    requires idle { IsIdle engine.old }
    requires frames { engine.old.frames ≡ fresh }
    ensures { IsIdle engine.new }
{
    base_scalars_stand();
    let def = message(engine.host().alloc)?;
    engine.define(&def, steps)
}

/// An engine that keeps `motd`.
fn engine_with_message<L: Ledger>(
    alloc: Global,
    natives: &Natives,
    steps: &mut Steps<L>,
) -> Result<Engine<Echo>, NoMemory>
    ensures { IfOk result (λ made. IsIdle made) }
{
    let mut engine = engine(alloc, natives, steps)?;
    keep_message(&mut engine, steps)?;
    Ok(engine)
}

/// Starts a run of a script, which leaves the mark.
fn run_from_mark<L: Ledger>(
    engine: &mut Engine<Echo>,
    natives: &Natives,
    script: &[u8],
    steps: &mut Steps<L>,
) -> Outcome
    requires { IsIdle engine.old }
    ensures { mark_of engine.old.table ≤ mark_of engine.new.table }
{
    let work = Work::Script(text(engine.host().alloc, script));
    engine.start(natives, work, 100, 1, steps)
}

/// Takes the engine back to the mark, and all base scalars too.
fn take_all_back<L: Ledger>(engine: &mut Engine<Echo>, mark: u64, steps: &mut Steps<L>)
    requires { mark ≤ mark_of engine.old.table }
    ensures { IsIdle engine.new }
{
    base_scalars_stand();
    engine.clear(mark, steps);
    engine.unkeep(0);
}

/// Takes back all that was kept, and appends what is left of the base scalar.
fn forget<L: Ledger>(
    engine: &mut Engine<Echo>,
    natives: &Natives,
    steps: &mut Steps<L>,
    all: &mut Text,
) {
    let mark = engine.mark();
    take_all_back(engine, mark, steps);
    run_script(engine, natives, b"set motd", steps, all);
}

/// Changes commands and variables, asks, and takes all of it back.
fn change_and_clear<L: Ledger>(
    engine: &mut Engine<Echo>,
    natives: &Natives,
    steps: &mut Steps<L>,
    all: &mut Text,
)
    requires { IsIdle engine.old }
    ensures { IsIdle engine.new }
{
    let alloc = engine.host().alloc;
    let mark = engine.mark();
    let script =
        b"set motd bye; set x 1; proc g {} {}; rename keep held; ns_adp_append a; ask $motd";
    let outcome = run_from_mark(engine, natives, script, steps);
    let left = engine.left();
    engine.clear(mark, steps);
    show(&outcome, left, alloc, all);
    put(all, engine.host().output.bytes());
}

/// Appends how many base scalars were kept.
fn show_kept(engine: &Engine<Echo>, all: &mut Text) {
    show_number(engine.kept(), b"|", engine.host().alloc, all);
}

/// Changes commands and variables and takes that back, and then the base scalar; runs scripts behind each.
fn take_back<L: Ledger>(
    engine: &mut Engine<Echo>,
    natives: &Natives,
    steps: &mut Steps<L>,
    all: &mut Text,
)
    requires { IsIdle engine.old }
{
    change_and_clear(engine, natives, steps, all);
    run_script(engine, natives, b"keep x $motd", steps, all);
    run_script(engine, natives, b"g", steps, all);
    show_kept(engine, all);
    forget(engine, natives, steps, all);
}

/// What stands behind a run that changed commands and variables and was left at a question, once it was
/// taken back, and once the base scalar was too; nothing where memory wants.
pub fn taken_back<L: Ledger>(alloc: Global, natives: &Natives, steps: &mut Steps<L>) -> Text {
    let mut all = Text::empty(alloc);
    if let Ok(mut engine) = engine_with_message(alloc, natives, steps) {
        take_back(&mut engine, natives, steps, &mut all);
        drop(engine);
    }
    all
}
