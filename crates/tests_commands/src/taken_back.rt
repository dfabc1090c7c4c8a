//! Random changes, marks and undos against a plain map that is copied at each mark.

ghost use Rattle.std.specs.Prelude.{◌≡◌, ◌<◌};

use cmd_table::{Cmd, CmdTable, Renamed, Steps};
use natives::Natives;
use std::alloc::Global;
use std::marker::Brand;
use std::sync::ledger::{Blank, Ledger};
use std::test::Fail;
use txt_core::{NoMemory, Text, Words};

/// How many random turns are taken.
const TURNS: u32 = 1_000_000;

/// After how many turns all names are compared again.
const ALL_EACH: u32 = 1_000;

/// How many names are changed, each of one byte.
const NAMES: u8 = 8;

/// What the plain map holds for a name without a command.
const NOTHING: u8 = 255;

/// The plain map: what each name stands for. A command is a built-in whose own name is one byte.
type Plain = [u8; 8];

/// The plain map as it is, and its copies with the marks at which they were made.
#[derive(Drop)]
struct Twin {
    now: Plain,
    copies: Vec<(u64, Plain)>,
}

/// The next one of a row of numbers that looks random.
fn next(random: u64) -> u64 {
    random
        .wrapping_mul(6_364_136_223_846_793_005)
        .wrapping_add(1_442_695_040_888_963_407)
}

/// A number below `most` from the upper half of another one.
fn pick(random: u64, shift: u32, most: u8) -> u8 {
    if most == 0 || shift >= 64 {
        return 0;
    }
    ((random >> shift) % most as u64) as u8
}

/// A text of one byte; the empty one for the number of names.
fn text(alloc: Global, byte: u8) -> Result<Text, NoMemory> {
    if byte == NAMES {
        return Ok(Text::empty(alloc));
    }
    let bytes: [u8; 1] = [byte];
    Text::new(alloc, &bytes)
}

/// What the plain map holds.
fn held(map: &Plain, at: u8) -> u8 {
    map[at as usize % 8]
}

/// Changes what the plain map holds.
fn hold(map: &mut Plain, at: u8, what: u8) {
    map[at as usize % 8] = what;
}

/// What the table holds, in the same words.
fn shown(table: &CmdTable, name: &Text) -> u8 {
    match table.get(name) {
        Some(Cmd::Built(own)) => match own.bytes() {
            [byte] => *byte,
            _ => 254,
        },
        Some(Cmd::Proc { .. }) => 253,
        None => NOTHING,
    }
}

/// The names that are changed.
fn all_names(alloc: Global) -> Result<Words, NoMemory> {
    let mut names = Words::new(alloc);
    for at in 0..NAMES {
        names.add(text(alloc, at)?)?;
    }
    Ok(names)
}

/// Whether both hold the same for one name; the empty one is never changed.
fn agree_on(table: &CmdTable, names: &Words, map: &Plain, at: u8) -> bool {
    if at == NAMES {
        return true;
    }
    match names.get(at as usize) {
        Some(name) => shown(table, name) == held(map, at),
        None => false,
    }
}

/// Whether both hold the same for each name.
fn agree(table: &CmdTable, names: &Words, map: &Plain) -> bool {
    for at in 0..NAMES {
        if !agree_on(table, names, map, at) {
            return false;
        }
    }
    true
}

/// Puts a command into both; whether it is then found in both.
fn put<L: Ledger>(
    alloc: Global,
    table: &mut CmdTable,
    names: &Words,
    map: &mut Plain,
    random: u64,
    steps: &mut Steps<L>,
) -> Result<bool, NoMemory> {
    let at = pick(random, 40, NAMES);
    let what = pick(random, 48, 100);
    let name = text(alloc, at)?;
    let bytes: [u8; 1] = [what];
    let cmd = Cmd::Built(Text::new(alloc, &bytes)?);
    table.put(name, cmd, steps)?;
    hold(map, at, what);
    Ok(agree_on(table, names, map, at))
}

/// What a rename of the plain map answers; it is made where it isn't refused.
fn rename_plain(map: &mut Plain, old: u8, new: u8) -> Renamed {
    let what = held(map, old);
    if what == NOTHING {
        return Renamed::NoOld;
    }
    if new < NAMES {
        if held(map, new) != NOTHING {
            return Renamed::NewExists;
        }
        hold(map, new, what);
    }
    hold(map, old, NOTHING);
    Renamed::Done
}

/// Renames or removes a name in both; whether both answer the same, and then hold the same for the old
/// name and the new one.
fn rename<L: Ledger>(
    alloc: Global,
    table: &mut CmdTable,
    names: &Words,
    map: &mut Plain,
    random: u64,
    steps: &mut Steps<L>,
) -> Result<bool, NoMemory> {
    let old = pick(random, 40, NAMES);
    let new = pick(random, 48, NAMES + 1);
    let answer = table.rename(&text(alloc, old)?, &text(alloc, new)?, steps)?;
    let same = answer == rename_plain(map, old, new);
    Ok(same && agree_on(table, names, map, old) && agree_on(table, names, map, new))
}

/// Marks both.
fn mark(table: &CmdTable, twin: &mut Twin) -> Result<bool, NoMemory> {
    if twin.copies.len() < 32 {
        let now = twin.now;
        twin.copies.push((table.mark(), now))?;
    }
    Ok(true)
}

/// Takes both back to one of the marks; whether they then agree on all names.
fn undo<L: Ledger>(
    table: &mut CmdTable,
    names: &Words,
    twin: &mut Twin,
    random: u64,
    steps: &mut Steps<L>,
) -> bool {
    twin.copies.truncate(pick(random, 40, 33) as usize);
    let Some(last) = twin.copies.pop() else {
        return true;
    };
    let mark = last.0;
    let copy = last.1;
    if mark > table.mark() {
        return false;
    }
    table.undo(mark, steps);
    twin.now = copy;
    agree(table, names, &twin.now)
}

/// One random turn on both; whether they agree.
fn turn<L: Ledger>(
    alloc: Global,
    table: &mut CmdTable,
    names: &Words,
    twin: &mut Twin,
    random: u64,
    steps: &mut Steps<L>,
) -> Result<bool, NoMemory> {
    match pick(random, 56, 16) {
        0..=6 => put(alloc, table, names, &mut twin.now, random, steps),
        7..=13 => rename(alloc, table, names, &mut twin.now, random, steps),
        14 => mark(table, twin),
        _ => Ok(undo(table, names, twin, random, steps)),
    }
}

/// How many of the random turns on a table agree; at each thousandth one all names are to.
fn agreeing_on<L: Ledger>(
    alloc: Global,
    table: &mut CmdTable,
    names: &Words,
    twin: &mut Twin,
    steps: &mut Steps<L>,
) -> Result<u32, NoMemory> {
    let mut random = 31;
    let mut count: u32 = 0;
    for number in 1..=TURNS {
        random = next(random);
        let same = turn(alloc, table, names, twin, random, steps)?;
        if same && (number % ALL_EACH != 0 || agree(table, names, &twin.now)) {
            count = count.saturating_add(1);
        }
    }
    Ok(count)
}

/// How many of the random turns agree.
fn agreeing<L: Ledger>(alloc: Global, blank: Blank) -> Result<u32, NoMemory>
    requires name { blank.name ≡ L.name }
    requires parts { blank.parts ≡ L.parts }
    requires some { 0 < blank.parts }
{
    let mut steps = Steps::<L>::new(blank);
    let mut table = CmdTable::new(alloc, &Natives::new(alloc), &mut steps)?;
    let names = all_names(alloc)?;
    let mut twin = Twin {
        now: [NOTHING; 8],
        copies: Vec::new(alloc),
    };
    agreeing_on(alloc, &mut table, &names, &mut twin, &mut steps)
}

#[test]
fn random_changes_are_taken_back(rt: HostRuntime) -> Result<(), Fail> {
    assert_eq!(rt; agreeing::<Brand>(rt.alloc(), Blank::new(1))?, TURNS);
    Ok(())
}
