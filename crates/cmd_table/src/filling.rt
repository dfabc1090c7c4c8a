//! The slots of a new command table: one for each built-in name.

ghost use Rattle.std.specs.Prelude.{◌≡◌, ◌≤◌, ◌+◌, OnOk, OnErr, [], length, map};
ghost use Rattle.cmd_table.specs.Table.{with_command};
ghost use Rattle.cmd_table.specs.Slots.{present, AreReady};
ghost use Rattle.cmd_table.specs.Commands.{built_ins, with_built};
ghost use Rattle.natives.specs.Names.{names_of as native_names};

use crate::command::Cmd;
use crate::slots::Slots;
use crate::steps::Steps;
use natives::Natives;
use std::alloc::Global;
use std::collections::BTreeMap;
use std::sync::ledger::Ledger;
use txt_core::{NoMemory, Text};

/// The names of the built-ins that are no natives: those of the language, then those of the server.
const BUILT_INS: [&str; 60] = [
    "set",
    "unset",
    "incr",
    "append",
    "lappend",
    "global",
    "array",
    "info",
    "proc",
    "rename",
    "if",
    "while",
    "for",
    "foreach",
    "switch",
    "catch",
    "eval",
    "expr",
    "return",
    "break",
    "continue",
    "error",
    "ns_set",
    "open",
    "gets",
    "read",
    "eof",
    "close",
    "ns_conn",
    "ns_queryget",
    "ns_return",
    "ns_returnredirect",
    "ns_returnnotfound",
    "ns_urlencode",
    "ns_urldecode",
    "ns_time",
    "ns_httptime",
    "ns_adp_append",
    "ns_adp_puts",
    "ns_adp_include",
    "ns_adp_argc",
    "ns_adp_argv",
    "ns_adp_return",
    "ns_adp_break",
    "ns_adp_abort",
    "ns_register_proc",
    "ns_register_filter",
    "ns_ictl",
    "ns_eval",
    "ns_schedule_proc",
    "ns_unschedule_proc",
    "nsv_set",
    "nsv_get",
    "nsv_exists",
    "nsv_incr",
    "nsv_append",
    "nsv_lappend",
    "nsv_unset",
    "nsv_names",
    "nsv_array",
];

/// No slots.
pub(crate) fn no_slots(alloc: Global) -> Slots
    ensures empty { present result.entries ≡ [] }
    ensures ready { AreReady result.entries }
{
    BTreeMap::new(alloc)
}

/// Gives the name of each built-in that is no native its built-in.
#[tactic(auto, unfolding(crate::specs::Commands::built_ins, crate::specs::Commands::language_names, crate::specs::Commands::server_names))]
pub(crate) fn fill_built_ins<L: Ledger>(
    alloc: Global,
    slots: &mut Slots,
    steps: &mut Steps<L>,
) -> Result<(), NoMemory>
    requires { AreReady slots.old.entries }
    ensures table { OnOk result
        (present slots.new.entries ≡ with_built (present slots.old.entries) built_ins) }
    ensures ready { AreReady slots.new.entries }
    ensures steps { OnOk result (steps.new ≡ steps.old + length built_ins) }
    ensures least { steps.old ≤ steps.new }
    ensures most { steps.new ≤ steps.old + length built_ins }
{
    let names: [&str; 60] = BUILT_INS;
    fill_names(alloc, slots, names.as_slice(), steps)
}

/// Gives each of these names its built-in.
fn fill_names<L: Ledger>(
    alloc: Global,
    slots: &mut Slots,
    names: &[&str],
    steps: &mut Steps<L>,
) -> Result<(), NoMemory>
    requires { AreReady slots.old.entries }
    ensures table { OnOk result
        (present slots.new.entries
        ≡ with_built (present slots.old.entries) (map (λ name. name.now) names.now)) }
    ensures ready { AreReady slots.new.entries }
    ensures steps { OnOk result (steps.new ≡ steps.old + length names.now) }
    ensures least { steps.old ≤ steps.new }
    ensures most { steps.new ≤ steps.old + length names.now }
{
    for name in names {
        fill(alloc, slots, name.as_bytes(), steps)?;
    }
    Ok(())
}

/// Gives the name of each of the natives its built-in.
pub(crate) fn fill_natives<L: Ledger>(
    alloc: Global,
    slots: &mut Slots,
    natives: &Natives,
    steps: &mut Steps<L>,
) -> Result<(), NoMemory>
    requires { AreReady slots.old.entries }
    ensures table { OnOk result
        (present slots.new.entries
        ≡ with_built (present slots.old.entries) (native_names natives.now)) }
    ensures ready { AreReady slots.new.entries }
    ensures steps { OnOk result (steps.new ≡ steps.old + length (native_names natives.now)) }
    ensures least { steps.old ≤ steps.new }
    ensures most { steps.new ≤ steps.old + length (native_names natives.now) }
{
    for at in 0..natives.len() {
        if let Some(native) = natives.get(at) {
            fill(alloc, slots, native.name().bytes(), steps)?;
        }
    }
    Ok(())
}

/// Gives a name its built-in. That is one step.
fn fill<L: Ledger>(
    alloc: Global,
    slots: &mut Slots,
    name: &[u8],
    steps: &mut Steps<L>,
) -> Result<(), NoMemory>
    requires { AreReady slots.old.entries }
    ensures table { OnOk result
        (present slots.new.entries
        ≡ with_command (present slots.old.entries) name.now (Cmd.Built name.now)) }
    ensures ready { AreReady slots.new.entries }
    ensures steps { OnOk result (steps.new ≡ steps.old + 1) }
    ensures err { OnErr result ((slots.new.entries ≡ slots.old.entries) × (steps.new ≡ steps.old)) }
{
    let built = Cmd::Built(Text::new(alloc, name)?);
    put_slot(slots, Text::new(alloc, name)?, built)?;
    steps.tick();
    Ok(())
}

/// Gives a name this command.
fn put_slot(slots: &mut Slots, name: Text, cmd: Cmd) -> Result<(), NoMemory>
    requires { AreReady slots.old.entries }
    ensures table { OnOk result
        (present slots.new.entries ≡ with_command (present slots.old.entries) name cmd) }
    ensures ready { AreReady slots.new.entries }
    ensures err { OnErr result (slots.new.entries ≡ slots.old.entries) }
{
    slots.insert(name, Some(cmd))?;
    Ok(())
}
