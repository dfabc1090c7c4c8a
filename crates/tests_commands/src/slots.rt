//! A command table that was taken back has no more slots than at the mark.

ghost use Rattle.std.specs.Prelude.{◌≡◌, ◌<◌};

use cmd_table::{Cmd, CmdTable, Steps};
use natives::Natives;
use std::alloc::Global;
use std::marker::Brand;
use std::sync::ledger::{Blank, Ledger};
use std::test::Fail;
use txt_core::{NoMemory, Text};

/// How many built-in names there are that are no natives.
const BUILT_INS: usize = 60;

/// How many new names are made.
const NEW_NAMES: u32 = 100_000;

/// Gives each of these many names, the bytes of its number, a command.
fn put_all<L: Ledger>(
    alloc: Global,
    table: &mut CmdTable,
    steps: &mut Steps<L>,
) -> Result<(), NoMemory> {
    for number in 0..NEW_NAMES {
        let bytes: [u8; 4] = number.to_be_bytes();
        let name = Text::new(alloc, &bytes)?;
        let built = Cmd::Built(name.copy(alloc)?);
        table.put(name, built, steps)?;
    }
    Ok(())
}

/// Takes a table back to a mark; `false` where it isn't one of the table.
fn undo<L: Ledger>(table: &mut CmdTable, mark: u64, steps: &mut Steps<L>) -> bool {
    if mark > table.mark() {
        return false;
    }
    table.undo(mark, steps);
    true
}

/// Removes a name of the table.
fn remove<L: Ledger>(
    alloc: Global,
    table: &mut CmdTable,
    steps: &mut Steps<L>,
) -> Result<(), NoMemory> {
    table.rename(&Text::new(alloc, b"set")?, &Text::empty(alloc), steps)?;
    Ok(())
}

/// How many slots a new table has, with one name removed and many made, once these are taken back, and
/// once the removal is.
fn counts_of<L: Ledger>(
    alloc: Global,
    table: &mut CmdTable,
    steps: &mut Steps<L>,
) -> Result<[usize; 4], NoMemory> {
    let new = table.slots();
    let start = table.mark();
    remove(alloc, table, steps)?;
    let mark = table.mark();
    put_all(alloc, table, steps)?;
    let grown = table.slots();
    let one = undo(table, mark, steps);
    let back = table.slots();
    let both = undo(table, start, steps);
    if !one || !both {
        return Ok([0, 0, 0, 0]);
    }
    Ok([new, grown, back, table.slots()])
}

/// The numbers of slots of a new table.
fn counts<L: Ledger>(alloc: Global, blank: Blank) -> Result<[usize; 4], NoMemory>
    requires name { blank.name ≡ L.name }
    requires parts { blank.parts ≡ L.parts }
    requires some { 0 < blank.parts }
{
    let mut steps = Steps::<L>::new(blank);
    let mut table = CmdTable::new(alloc, &Natives::new(alloc), &mut steps)?;
    counts_of(alloc, &mut table, &mut steps)
}

#[test]
fn new_names_leave_no_slot(rt: HostRuntime) -> Result<(), Fail> {
    let came = counts::<Brand>(rt.alloc(), Blank::new(1))?;
    let grown = BUILT_INS + NEW_NAMES as usize;
    assert_eq!(rt; came, [BUILT_INS, grown, BUILT_INS, BUILT_INS]);
    Ok(())
}
