//! How interpreters are made from blueprints.

ghost use Rattle.std.specs.Prelude.{◌≡◌, ◌≤◌, ◌+◌, ◌++◌, ◌∷◌, None, IfOk, OnOk, fold, length, take};
ghost use Rattle.cmd_table.specs.Table.{command_of, mark_of, Keeps};
ghost use Rattle.cmd_table.specs.Commands.{defined, Writes};
ghost use Rattle.blueprint.specs.States.{first_misfit};
ghost use Rattle.natives.specs.Names.{names_of};
ghost use Rattle.tcl_frame.specs.Base.{IsAtBase, at_base};
ghost use Rattle.url_tables.specs.Tables.{IsBuiltOf};
ghost use Rattle.server_host.specs.Hosts.{fresh};
ghost use Rattle.tcl_eval.specs.Engine.{state_of, IsIdle};
ghost use Rattle.cmd_table.specs.declared.definition.Def.TheVariants as defs;
ghost use Rattle.ictl.specs.Fresh.{Fresh, keeps_in, keeps_of, writes_in, build_steps};
ghost use Rattle.ictl.specs.Visits.{cleanup_in, cleanups_of, is_procedure};

use crate::visit::is_procedure;
use cmd_table::{CmdTable, Def, Defs, Steps, copy_defs, definitions_fit_where_they_apply};
use natives::Natives;
use server_host::{Edition, RunHost};
use std::alloc::Global;
use std::rc::Rc;
use std::sync::ledger::Ledger;
use tcl_eval::Engine;
use tcl_frame::{Frames, is_element_name};
use txt_core::{NoMemory, Text, Words};
use url_tables::Routes;

/// Puts definitions, which apply one after the other, into an engine, up to the first for which memory
/// wants. They aren't listed as made.
pub fn define_all<L: Ledger>(
    engine: &mut Engine<RunHost>,
    defs: &[Def],
    steps: &mut Steps<L>,
) -> Result<(), NoMemory>
    requires idle { IsIdle engine.old }
    requires base { IsAtBase engine.old.frames }
    requires applies { first_misfit engine.old.table.table defs.now ≡ None }
    ensures ok { OnOk result
        (state_of engine.new
        ≡ record (state_of engine.old) {
          commands = fold defined engine.old.table.table defs.now;
          frames = at_base (engine.old.frames.keeps ++ keeps_of defs.now);
        }) }
    ensures steps { OnOk result (steps.new ≡ steps.old + Writes defs.now) }
    ensures most { steps.new ≤ steps.old + Writes defs.now }
    ensures marks { steps.new + mark_of engine.old.table ≡ steps.old + mark_of engine.new.table }
    ensures keeps { Keeps engine.old.table engine.new.table }
    ensures idle { IsIdle engine.new }
    ensures base { IsAtBase engine.new.frames }
    ensures front { take (length engine.old.frames.keeps) engine.new.frames.keeps
        ≡ engine.old.frames.keeps }
    ensures rest { (engine.new.host ≡ engine.old.host) × (engine.new.made ≡ engine.old.made) }
{
    definitions_fit_where_they_apply();
    'defs: for def in defs {
        engine.define(def, steps)?;
    }
    Ok(())
}

/// A blueprint once more. Its only error is want of memory.
pub fn copy_edition(alloc: Global, blueprint: &Edition) -> Result<Edition, NoMemory>
    ensures { IfOk result (λ copy. copy ≡ blueprint.now) }
{
    Ok(Edition {
        epoch: blueprint.epoch,
        defs: copy_defs(alloc, &blueprint.defs)?,
    })
}

/// What an interpreter has of a blueprint beside its engine.
#[derive(Drop)]
pub struct Tables {
    pub blueprint: Rc<Edition>,
    pub routes: Routes,
    pub cleanups: Words,
}

/// The tables of a blueprint. Its only error is want of memory.
pub fn tables_of(alloc: Global, edition: Edition) -> Result<Tables, NoMemory>
    ensures blueprint { IfOk result (λ tables. tables.blueprint.value ≡ edition) }
    ensures routes { IfOk result (λ tables. IsBuiltOf tables.routes tables.blueprint.value.defs) }
    ensures cleanups { IfOk result (λ tables.
        tables.cleanups ≡ cleanups_of tables.blueprint.value.defs) }
{
    let blueprint = Rc::new(alloc, edition)?;
    let routes = Routes::build(alloc, &blueprint.defs)?;
    let cleanups = cleanups_of(alloc, &blueprint.defs)?;
    Ok(Tables {
        blueprint,
        routes,
        cleanups,
    })
}

/// Keeps a base scalar, unless its name is that of an element.
fn keep_global(
    alloc: Global,
    frames: &mut Frames,
    name: &Text,
    value: &Text,
) -> Result<(), NoMemory>
    requires { IsAtBase frames.old }
    ensures { OnOk result
        (frames.new ≡ at_base (frames.old.keeps ++ keeps_in (defs.Set name.now value.now))) }
{
    if is_element_name(name) {
        return Ok(());
    }
    frames.keep(name.copy(alloc)?, value.copy(alloc)?)
}

/// Keeps the base scalar that a definition makes, where it makes one.
fn keep_in(alloc: Global, frames: &mut Frames, def: &Def) -> Result<(), NoMemory>
    requires { IsAtBase frames.old }
    ensures { OnOk result (frames.new ≡ at_base (frames.old.keeps ++ keeps_in def.now)) }
{
    match def {
        Def::Set { name, value } => keep_global(alloc, frames, name, value),
        Def::Proc { .. }
        | Def::Rename { .. }
        | Def::Route { .. }
        | Def::Filter { .. }
        | Def::Cleanup { .. } => Ok(()),
    }
}

/// Makes definitions, one after the other, in a command table and as base scalars. One that doesn't
/// apply changes nothing.
fn define_on<L: Ledger>(
    alloc: Global,
    table: &mut CmdTable,
    frames: &mut Frames,
    defs: &[Def],
    steps: &mut Steps<L>,
) -> Result<(), NoMemory>
    requires { IsAtBase frames.old }
    ensures table { OnOk result (table.new.table ≡ fold defined table.old.table defs.now) }
    ensures frames { OnOk result (frames.new ≡ at_base (frames.old.keeps ++ keeps_of defs.now)) }
    ensures steps { OnOk result (steps.new ≡ steps.old + writes_in table.old.table defs.now) }
    ensures least { steps.old ≤ steps.new }
    ensures most { steps.new ≤ steps.old + writes_in table.old.table defs.now }
{
    'defs: for def in defs {
        table.try_apply(def, steps)?;
        keep_in(alloc, frames, def)?;
    }
    Ok(())
}

/// A host on a blueprint, outside of any run. Its only error is want of memory.
fn host_on(alloc: Global, blueprint: &Rc<Edition>) -> Result<RunHost, NoMemory>
    ensures { IfOk result (λ host. host ≡ fresh blueprint.now.value) }
{
    RunHost::new(alloc, blueprint.clone()?)
}

/// An engine on a blueprint. Its only error is want of memory.
pub fn engine_on<L: Ledger>(
    alloc: Global,
    natives: &Natives,
    blueprint: &Rc<Edition>,
    steps: &mut Steps<L>,
) -> Result<Engine<RunHost>, NoMemory>
    ensures state { IfOk result (λ engine.
        state_of engine ≡ Fresh (names_of natives.now) blueprint.now.value) }
    ensures idle { IfOk result (λ engine. IsIdle engine) }
    ensures steps { OnOk result
        (steps.new ≡ steps.old + build_steps (names_of natives.now) blueprint.now.value.defs) }
    ensures least { steps.old ≤ steps.new }
    ensures most { steps.new ≤ steps.old + build_steps (names_of natives.now)
        blueprint.now.value.defs }
{
    let mut frames = Frames::new(alloc)?;
    let Ok(mut table) = CmdTable::new(alloc, natives, steps) else {
        drop(frames);
        return Err(NoMemory);
    };
    let defs = blueprint.defs.as_slice();
    if define_on(alloc, &mut table, &mut frames, defs, steps).is_err() {
        drop(table);
        drop(frames);
        return Err(NoMemory);
    }
    match host_on(alloc, blueprint) {
        Ok(host) => Ok(Engine::new(alloc, table, frames, host)),
        Err(NoMemory) => {
            drop(table);
            drop(frames);
            Err(NoMemory)
        }
    }
}

/// Whether the command of this name is a procedure. It takes no memory.
pub fn has_procedure(engine: &Engine<RunHost>, name: &Text) -> bool
    ensures { result ≡ is_procedure (command_of engine.now.table.table name.now) }
{
    is_procedure(engine.command(name))
}

/// Puts a cleanup script behind others, where a definition has one.
fn add_cleanup(alloc: Global, scripts: &mut Words, def: &Def) -> Result<(), NoMemory>
    ensures { OnOk result (scripts.new ≡ scripts.old ++ cleanup_in def.now) }
{
    match def {
        Def::Cleanup { script } => scripts.add(script.copy(alloc)?),
        Def::Proc { .. }
        | Def::Rename { .. }
        | Def::Route { .. }
        | Def::Filter { .. }
        | Def::Set { .. } => Ok(()),
    }
}

/// Puts the cleanup scripts of definitions behind others, in their order.
fn add_cleanups(alloc: Global, scripts: &mut Words, defs: &[Def]) -> Result<(), NoMemory>
    ensures { OnOk result (scripts.new ≡ scripts.old ++ cleanups_of defs.now) }
{
    'defs: for def in defs {
        add_cleanup(alloc, scripts, def)?;
    }
    Ok(())
}

/// The cleanup scripts of definitions, in their order. Its only error is want of memory.
pub fn cleanups_of(alloc: Global, defs: &Defs) -> Result<Words, NoMemory>
    ensures { IfOk result (λ scripts. scripts ≡ cleanups_of defs.now) }
{
    let mut scripts = Words::new(alloc);
    add_cleanups(alloc, &mut scripts, defs.as_slice())?;
    Ok(scripts)
}
