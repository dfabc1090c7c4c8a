//! The slots of a command table.

ghost use Rattle.std.specs.Prelude.{◌≡◌, ◌++◌, ◌∷◌, [], IfOk, OnOk};
ghost use Rattle.std.specs.Option.{option_copied};
ghost use Rattle.cmd_table.specs.Table.{command_of, names_of};
ghost use Rattle.cmd_table.specs.Slots.{present, AreInOrder};

use crate::command::Cmd;
use std::alloc::Global;
use std::collections::BTreeMap;
use txt_core::{NoMemory, Text, Words};

/// A slot for each name that has a command. A name that was removed keeps its slot, which is then
/// empty, so that the command can come back without memory; it goes when the table is taken back to
/// where the name hadn't one.
pub(crate) type Slots = BTreeMap<Text, Option<Cmd>>;

/// The command of a name, where its slot is there and isn't empty.
pub(crate) fn find<'a>(slots: &'a Slots, name: &Text) -> Option<&'a Cmd>
    requires { AreInOrder slots.now.entries }
    ensures { option_copied result ≡ command_of (present slots.now.entries) name.now }
{
    slots.get(name)?.as_ref()
}

/// Puts a copy of a name at the end of a list.
fn push_name(alloc: Global, names: &mut Words, name: &Text) -> Result<(), NoMemory>
    ensures { OnOk result (names.new ≡ names.old ++ name.now ∷ []) }
{
    names.add(name.copy(alloc)?)
}

/// Copies of the names whose slots aren't empty, in their order.
pub(crate) fn present_names(alloc: Global, slots: &Slots) -> Result<Words, NoMemory>
    ensures { IfOk result (λ names. names ≡ names_of (present slots.now.entries)) }
{
    let mut names = Words::new(alloc);
    'names: for (name, cmd) in slots.iter() {
        if cmd.is_some() {
            push_name(alloc, &mut names, name)?;
        }
    }
    Ok(names)
}
