//! Random changes of variables, clears, keeps and unkeeps against plain maps that are copied.

ghost use Rattle.tcl_frame.specs.Base.{IsAtBase};

use crate::random::{next, pick};
use std::alloc::Global;
use std::test::Fail;
use tcl_frame::{Frames, VarFault, is_element_name};
use txt_core::{NoMemory, Text, Words};

/// How many random turns are taken.
const TURNS: u32 = 1_000_000;

/// After how many turns all places are compared again.
const ALL_EACH: u32 = 1_000;

/// How many variables there are, each of a name of one byte.
const NAMES: u8 = 4;

/// How many places there are: each variable and its two elements.
const PLACES: u8 = 12;

/// The place of a whole variable behind those of its two elements.
const WHOLE: u8 = 2;

/// What a name is, in a plain map.
const FREE: u8 = 0;

const SCALAR: u8 = 1;

const ARRAY: u8 = 2;

const LINK: u8 = 3;

/// What calls answer: a value below 100, or one of these.
const DONE: u8 = 100;

const NO_VARIABLE: u8 = 101;

const IS_ARRAY: u8 = 102;

const NOT_ARRAY: u8 = 103;

const EXISTS: u8 = 104;

const NO_MEMORY: u8 = 105;

/// What an element that is absent holds.
const NOTHING: u8 = 255;

/// The variables of a frame: of each name what it is, and two values.
type Plain = [u8; 16];

/// The plain maps: the global frame, those above it, the base scalars and copies of these as they were
/// before each keep.
#[derive(Drop)]
struct Twin {
    global: Plain,
    above: Vec<Plain>,
    base: Plain,
    copies: Vec<Plain>,
}

/// A variable, or an element of it.
#[derive(Clone, Copy)]
struct Place {
    name: u8,
    index: u8,
}

/// What a cell holds.
fn held(map: &Plain, at: u8) -> u8 {
    map[at as usize % 16]
}

/// Changes what a cell holds.
fn hold(map: &mut Plain, at: u8, what: u8) {
    map[at as usize % 16] = what;
}

/// The cell that says what a name is.
fn kind_cell(place: Place) -> u8 {
    place.name % NAMES * 4
}

/// The cell of a value: of an element, and of a scalar.
fn value_cell(place: Place) -> u8 {
    kind_cell(place).wrapping_add(1 + place.index % 3)
}

/// A text of one byte.
fn one(alloc: Global, byte: u8) -> Result<Text, NoMemory> {
    let bytes: [u8; 1] = [byte];
    Text::new(alloc, &bytes)
}

/// The name of a place.
fn text(alloc: Global, place: Place) -> Result<Text, NoMemory> {
    let variable = b'a' + place.name % NAMES;
    if place.index >= WHOLE {
        return one(alloc, variable);
    }
    let element: [u8; 4] = [variable, b'(', b'x' + place.index % 2, b')'];
    Text::new(alloc, &element)
}

/// Why a call was refused.
fn refused(fault: VarFault) -> u8 {
    match fault {
        VarFault::NoVariable => NO_VARIABLE,
        VarFault::IsArray => IS_ARRAY,
        VarFault::NotArray => NOT_ARRAY,
        VarFault::Exists => EXISTS,
        VarFault::NoMemory => NO_MEMORY,
    }
}

/// What a call answers.
fn answered(answer: Result<(), VarFault>) -> u8 {
    match answer {
        Ok(()) => DONE,
        Err(fault) => refused(fault),
    }
}

/// What the frames say of a name.
fn shown(frames: &Frames, name: &Text) -> u8 {
    match frames.value(name) {
        Ok(value) => match value.bytes() {
            [byte] => *byte,
            _ => NOTHING,
        },
        Err(fault) => refused(fault),
    }
}

/// What a plain map says of a place.
fn plain_read(map: &Plain, place: Place) -> u8 {
    let kind = held(map, kind_cell(place));
    let value = held(map, value_cell(place));
    match (kind, place.index < WHOLE) {
        (SCALAR, false) => value,
        (SCALAR, true) => NOT_ARRAY,
        (ARRAY, false) => IS_ARRAY,
        (ARRAY, true) if value != NOTHING => value,
        _ => NO_VARIABLE,
    }
}

/// Makes a name an array without elements, where it is none.
fn make_array(map: &mut Plain, place: Place) {
    if held(map, kind_cell(place)) != ARRAY {
        hold(map, kind_cell(place), ARRAY);
        hold(map, kind_cell(place).wrapping_add(1), NOTHING);
        hold(map, kind_cell(place).wrapping_add(2), NOTHING);
    }
}

/// Writes to a plain map.
fn plain_write(map: &mut Plain, place: Place, value: u8) -> u8 {
    let before = plain_read(map, place);
    if before == IS_ARRAY || before == NOT_ARRAY {
        return before;
    }
    if place.index < WHOLE {
        make_array(map, place);
    } else {
        hold(map, kind_cell(place), SCALAR);
    }
    hold(map, value_cell(place), value);
    DONE
}

/// Removes from a plain map.
fn plain_remove(map: &mut Plain, place: Place) -> u8 {
    let before = plain_read(map, place);
    if before == NO_VARIABLE || before == NOT_ARRAY {
        return before;
    }
    if place.index < WHOLE {
        hold(map, value_cell(place), NOTHING);
    } else {
        hold(map, kind_cell(place), FREE);
    }
    DONE
}

/// Writes both elements of an array of a plain map.
fn plain_write_array(map: &mut Plain, place: Place, value: u8) -> u8 {
    if place.index < WHOLE || held(map, kind_cell(place)) == SCALAR {
        return NOT_ARRAY;
    }
    make_array(map, place);
    hold(map, kind_cell(place).wrapping_add(1), value);
    hold(map, kind_cell(place).wrapping_add(2), value);
    DONE
}

/// The plain map in which a place is looked up.
fn table(twin: &mut Twin, place: Place) -> &mut Plain {
    match twin.above.last_mut() {
        Some(frame) if held(frame, kind_cell(place)) != LINK => frame,
        _ => &mut twin.global,
    }
}

/// Links a name of the topmost plain map.
fn plain_link(twin: &mut Twin, place: Place) -> u8 {
    let Some(frame) = twin.above.last_mut() else {
        return DONE;
    };
    let kind = held(frame, kind_cell(place));
    if kind == SCALAR || kind == ARRAY {
        return EXISTS;
    }
    hold(frame, kind_cell(place), LINK);
    DONE
}

/// Clears both.
fn clear(frames: &mut Frames, twin: &mut Twin)
    ensures { IsAtBase frames.new }
{
    frames.clear();
    twin.above.clear();
    twin.global = twin.base;
}

/// Pushes a frame on both, or takes one off both.
fn push_or_pop(frames: &mut Frames, twin: &mut Twin, random: u64) -> Result<bool, NoMemory> {
    if pick(random, 40, 2) == 0 && twin.above.len() < 3 {
        frames.push()?;
        twin.above.push([FREE; 16])?;
    } else if frames.depth() > 0 {
        frames.pop();
        twin.above.pop();
    }
    Ok(frames.depth() == twin.above.len())
}

/// Keeps a scalar in both, from cleared ones.
fn keep(
    alloc: Global,
    frames: &mut Frames,
    twin: &mut Twin,
    place: Place,
    value: u8,
) -> Result<bool, NoMemory> {
    clear(frames, twin);
    let whole = Place {
        name: place.name,
        index: WHOLE,
    };
    let name = text(alloc, whole)?;
    if is_element_name(&name) || twin.copies.len() > 5 {
        return Ok(frames.kept() == twin.copies.len() as u64);
    }
    frames.keep(name, one(alloc, value)?)?;
    twin.copies.push(twin.base)?;
    plain_write(&mut twin.base, whole, value);
    twin.global = twin.base;
    Ok(true)
}

/// Takes keeps back in both, from cleared ones.
fn unkeep(frames: &mut Frames, twin: &mut Twin, random: u64) -> bool {
    clear(frames, twin);
    let kept = pick(random, 40, 7) as usize;
    let Some(base) = twin.copies.get(kept) else {
        return true;
    };
    twin.base = *base;
    twin.global = *base;
    twin.copies.truncate(kept);
    if frames.kept() < kept as u64 {
        return false;
    }
    frames.unkeep(kept as u64);
    frames.kept() == kept as u64
}

/// Whether both say the same of a place.
fn read(alloc: Global, frames: &Frames, twin: &mut Twin, place: Place) -> Result<bool, NoMemory> {
    let name = text(alloc, place)?;
    Ok(shown(frames, &name) == plain_read(table(twin, place), place))
}

/// Writes to both.
fn write(
    alloc: Global,
    frames: &mut Frames,
    twin: &mut Twin,
    place: Place,
    value: u8,
) -> Result<bool, NoMemory> {
    let answer = frames.write(&text(alloc, place)?, one(alloc, value)?);
    Ok(answered(answer) == plain_write(table(twin, place), place, value))
}

/// Writes to the global frame of both.
fn write_global(
    alloc: Global,
    frames: &mut Frames,
    twin: &mut Twin,
    place: Place,
    value: u8,
) -> Result<bool, NoMemory> {
    let answer = frames.write_global(&text(alloc, place)?, one(alloc, value)?);
    Ok(answered(answer) == plain_write(&mut twin.global, place, value))
}

/// Both elements of an array with this value.
fn both_elements(alloc: Global, value: u8) -> Result<Words, NoMemory> {
    let mut pairs = Words::new(alloc);
    for byte in [b'x', value, b'y', value] {
        pairs.add(one(alloc, byte)?)?;
    }
    Ok(pairs)
}

/// Writes both elements of an array of both.
fn write_array(
    alloc: Global,
    frames: &mut Frames,
    twin: &mut Twin,
    place: Place,
    value: u8,
) -> Result<bool, NoMemory> {
    let name = text(alloc, place)?;
    let pairs = both_elements(alloc, value)?;
    let answer = frames.write_array(&name, pairs.as_slice());
    Ok(answered(answer) == plain_write_array(table(twin, place), place, value))
}

/// Removes from both.
fn remove(
    alloc: Global,
    frames: &mut Frames,
    twin: &mut Twin,
    place: Place,
) -> Result<bool, NoMemory> {
    let answer = frames.remove(&text(alloc, place)?);
    Ok(answered(answer) == plain_remove(table(twin, place), place))
}

/// Links a name in both.
fn link(
    alloc: Global,
    frames: &mut Frames,
    twin: &mut Twin,
    place: Place,
) -> Result<bool, NoMemory> {
    let name = text(alloc, place)?;
    if is_element_name(&name) {
        return Ok(true);
    }
    Ok(answered(frames.link(&name)) == plain_link(twin, place))
}

/// The place of a number below 12.
fn place_at(at: u8) -> Place {
    Place {
        name: at / 3,
        index: at % 3,
    }
}

/// The names of all places, in the order of their numbers.
fn all_names(alloc: Global) -> Result<Words, NoMemory> {
    let mut names = Words::new(alloc);
    for at in 0..PLACES {
        names.add(text(alloc, place_at(at))?)?;
    }
    Ok(names)
}

/// Whether both say the same of each place.
fn agree(frames: &Frames, names: &Words, twin: &mut Twin) -> bool {
    for at in 0..PLACES {
        let place = place_at(at);
        let Some(name) = names.get(at as usize) else {
            return false;
        };
        if shown(frames, name) != plain_read(table(twin, place), place) {
            return false;
        }
    }
    true
}

/// One random turn on both; whether they answer the same, and after a clear say the same of each place.
fn turn(
    alloc: Global,
    frames: &mut Frames,
    names: &Words,
    twin: &mut Twin,
    random: u64,
) -> Result<bool, NoMemory> {
    let place = Place {
        name: pick(random, 36, NAMES),
        index: pick(random, 44, 3),
    };
    let value = pick(random, 48, 100);
    match pick(random, 56, 32) {
        0..=5 => read(alloc, frames, twin, place),
        6..=9 => write(alloc, frames, twin, place, value),
        10..=11 => write_global(alloc, frames, twin, place, value),
        12..=14 => write_array(alloc, frames, twin, place, value),
        15..=20 => remove(alloc, frames, twin, place),
        21..=23 => link(alloc, frames, twin, place),
        24..=27 => push_or_pop(frames, twin, random),
        28 => {
            clear(frames, twin);
            Ok(agree(frames, names, twin))
        }
        29..=30 => {
            let same = keep(alloc, frames, twin, place, value)?;
            Ok(same && agree(frames, names, twin))
        }
        _ => {
            let same = unkeep(frames, twin, random);
            Ok(same && agree(frames, names, twin))
        }
    }
}

/// How many of the random turns agree; at each thousandth one all places are to.
fn count_agreeing(
    alloc: Global,
    frames: &mut Frames,
    names: &Words,
    twin: &mut Twin,
) -> Result<u32, NoMemory> {
    let mut random = 31;
    let mut count: u32 = 0;
    for number in 1..=TURNS {
        random = next(random);
        let same = turn(alloc, frames, names, twin, random)?;
        if same && (number % ALL_EACH != 0 || agree(frames, names, twin)) {
            count = count.saturating_add(1);
        }
    }
    Ok(count)
}

/// How many of the random turns on new frames agree.
fn agreeing(alloc: Global) -> Result<u32, NoMemory> {
    let names = all_names(alloc)?;
    let mut frames = Frames::new(alloc)?;
    let mut twin = Twin {
        global: [FREE; 16],
        above: Vec::new(alloc),
        base: [FREE; 16],
        copies: Vec::new(alloc),
    };
    count_agreeing(alloc, &mut frames, &names, &mut twin)
}

#[test]
fn random_changes_are_cleared(rt: HostRuntime) -> Result<(), Fail> {
    assert_eq!(rt; agreeing(rt.alloc())?, TURNS);
    Ok(())
}
