//! What was done to the slots of a command table, so that it can be taken back.

ghost use Rattle.std.specs.Prelude.{◌≡◌, ◌<◌, ◌+◌, ◌++◌, ◌∷◌, ◌||◌, [], length, IsTrue, OnOk, OnErr};
ghost use Rattle.std.specs.Option.{is_some};
ghost use Rattle.std.specs.Map.{set_value};
ghost use Rattle.std.specs.BTreeMap.{is_at};
ghost use Rattle.txt_core.specs.Order.{text_cmp};
ghost use Rattle.cmd_table.specs.Places.{has_command};
ghost use Rattle.cmd_table.specs.Slots.{present, with_option, AreInOrder};
ghost use Rattle.cmd_table.specs.Journal.{back, past_of, ArePlaced};
ghost use Rattle.cmd_table.specs.Latest.{IsSameBut};

use crate::command::Cmd;
use crate::slots::Slots;
use std::alloc::Global;
use txt_core::{NoMemory, Text};

/// A change of the slot of a name: what it was before, `None` where there was no slot.
#[derive(Debug, Drop)]
pub(crate) struct Row {
    name: Text,
    before: Option<Option<Cmd>>,
}

/// The changes, the first one first.
pub(crate) type Journal = Vec<Row>;

/// Gives a name this command, or takes away what it has where there is none to give, and notes it.
/// The journal's room is taken first, so that what is changed is noted in any case; the old entry
/// moves into it. A name whose command is taken away keeps its slot, which is then empty; only one
/// that has a command can be taken away. Where memory wants, nothing changes.
pub(crate) fn change(
    alloc: Global,
    slots: &mut Slots,
    journal: &mut Journal,
    name: Text,
    cmd: Option<Cmd>,
) -> Result<(), NoMemory>
    requires ordered { AreInOrder slots.old.entries }
    requires placed { ArePlaced journal.old.items slots.old.entries }
    requires some { IsTrue (is_some cmd || has_command (present slots.old.entries) name) }
    ensures table { OnOk result
        (present slots.new.entries ≡ with_option (present slots.old.entries) name cmd) }
    ensures past { OnOk result
        (past_of journal.new.items slots.new.entries
        ≡ past_of journal.old.items slots.old.entries ++ present slots.old.entries ∷ []) }
    ensures err { OnErr result
        ((journal.new.items ≡ journal.old.items) × (slots.new.entries ≡ slots.old.entries)) }
    ensures others { IsSameBut name (present slots.old.entries) (present slots.new.entries) }
    ensures ordered { AreInOrder slots.new.entries }
    ensures placed { ArePlaced journal.new.items slots.new.entries }
{
    journal.reserve(1)?;
    let key = name.copy(alloc)?;
    let before = slots.insert(key, cmd)?;
    journal.push_reserved(Row { name, before });
    Ok(())
}

/// Takes the last change back. It takes no memory.
pub(crate) fn take_back(slots: &mut Slots, journal: &mut Journal)
    requires some { 0 < length journal.old.items }
    requires ordered { AreInOrder slots.old.entries }
    requires placed { ArePlaced journal.old.items slots.old.entries }
    ensures past { past_of journal.old.items slots.old.entries
        ≡ past_of journal.new.items slots.new.entries ++ present slots.new.entries ∷ [] }
    ensures ordered { AreInOrder slots.new.entries }
    ensures placed { ArePlaced journal.new.items slots.new.entries }
{
    if let Some(row) = journal.pop() {
        put_back(slots, row);
    }
}

/// Makes the slot of a name what it was before a change; where it had none, it has none again.
fn put_back(slots: &mut Slots, row: Row)
    requires { AreInOrder slots.old.entries }
    ensures back { slots.new.entries ≡ back row slots.old.entries }
    ensures ordered { AreInOrder slots.new.entries }
{
    let Row { name, before } = row;
    match before {
        Some(cmd) => set_slot(slots, &name, cmd),
        None => {
            slots.remove(&name);
        }
    }
}

/// Makes the slot of a name hold this, where it is there.
fn set_slot(slots: &mut Slots, name: &Text, cmd: Option<Cmd>)
    requires { AreInOrder slots.old.entries }
    ensures set { slots.new.entries
        ≡ set_value (is_at (text_cmp name.now)) slots.old.entries cmd }
    ensures ordered { AreInOrder slots.new.entries }
{
    if let Some(slot) = slots.get_mut(name) {
        *slot = cmd;
    }
}
