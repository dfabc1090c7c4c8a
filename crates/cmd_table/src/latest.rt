//! What names stand for that were looked up lately, by a place that each name gives.

ghost use Rattle.std.specs.Prelude.{◌≡◌, ◌↔◌, IfOk, IfSome, IsTrue, Some};
ghost use Rattle.std.specs.Option.{option_copied};
ghost use Rattle.cmd_table.specs.Table.{Table, command_of};
ghost use Rattle.cmd_table.specs.Latest.{IsTrueOf, AreLatest, IsSameBut};

use crate::command::Cmd;
use crate::copy::copy_cmd;
use natives::Places;
use std::alloc::Global;
use txt_core::{NoMemory, Text, same_bytes};

/// A name with what it stands for.
#[derive(Debug, Drop)]
pub(crate) struct Looked {
    name: Text,
    /// Its command, or none.
    pub cmd: Option<Cmd>,
    /// Whether that is the built-in of this very name.
    pub own: bool,
}

/// What was looked up lately, one name at each place.
pub(crate) type Latest = Places<Looked>;

/// Whether a name stands for the built-in of this very name.
#[tactic(auto, using(crate::proofs::Latests::own_name))]
pub(crate) fn is_own(cmd: Option<&Cmd>, name: &Text) -> bool
    ensures { IsTrue result ↔ (option_copied cmd.entry ≡ Some (Cmd.Built name.now)) }
{
    match cmd {
        Some(Cmd::Built(own)) => same_bytes(own.bytes(), name.bytes()),
        Some(Cmd::Proc { .. }) | None => false,
    }
}

/// What was looked up, where it is of this name.
fn of_name<'a>(looked: &'a Looked, name: &Text) -> Option<&'a Looked>
    ensures { IfSome result (λ found.
        (looked.now.name ≡ name.now) × (found.now ≡ looked.now)) }
{
    if !same_bytes(looked.name.bytes(), name.bytes()) {
        return None;
    }
    Some(looked)
}

/// What a name stands for, where it is at its place.
#[tactic(auto, using(crate::proofs::Latests::stands_for))]
pub(crate) fn find_latest<'a>(latest: &'a Latest, name: &Text) -> Option<&'a Looked>
    ensures { (table : Table) → AreLatest table latest.now
        → IfSome result (λ looked.
        IsTrueOf (command_of table name.now) name.now looked.now) }
{
    let looked = latest.find(name.bytes())?;
    of_name(looked, name)
}

/// A command once more, where there is one.
fn copy_found(alloc: Global, cmd: Option<&Cmd>) -> Result<Option<Cmd>, NoMemory>
    ensures { IfOk result (λ copy. copy ≡ option_copied cmd.entry) }
{
    match cmd {
        Some(cmd) => Ok(Some(copy_cmd(alloc, cmd)?)),
        None => Ok(None),
    }
}

/// A name and what it stands for, once more.
fn looked_up(alloc: Global, name: &Text, cmd: Option<&Cmd>) -> Result<Looked, NoMemory>
    ensures named { IfOk result (λ looked. looked.name ≡ name.now) }
    ensures holds { IfOk result (λ looked. IsTrueOf (option_copied cmd.entry) name.now looked) }
{
    let own = is_own(cmd, name);
    let name = name.copy(alloc)?;
    let cmd = copy_found(alloc, cmd)?;
    Ok(Looked { name, cmd, own })
}

/// Puts a name with what it stands for at its place. The only error is want of memory.
pub(crate) fn put_latest(
    alloc: Global,
    latest: &mut Latest,
    name: &Text,
    cmd: Option<&Cmd>,
) -> Result<(), NoMemory>
    ensures { (table : Table) → command_of table name.now ≡ option_copied cmd.entry
        → AreLatest table latest.old → AreLatest table latest.new }
{
    let looked = looked_up(alloc, name, cmd)?;
    latest.put(name.bytes(), looked)
}

/// Lets go what a name stood for. It takes no memory.
pub(crate) fn forget(latest: &mut Latest, name: &Text)
    ensures { (before after : Table) → IsSameBut name.now before after
        → AreLatest before latest.old → AreLatest after latest.new }
{
    latest.remove(name.bytes());
}
