//! Calls on frames, and questions about them.

use std::alloc::Global;
use tcl_frame::{Frames, VarFault, is_element_name};
use test_rows::{Answer, Row, count_in, find};
use txt_core::{Known, NoMemory, Text, Words, write_int};

/// Adds a fault by its name.
fn add_fault(fault: VarFault, out: &mut Answer) {
    match fault {
        VarFault::NoVariable => out.add(b"NoVariable"),
        VarFault::IsArray => out.add(b"IsArray"),
        VarFault::NotArray => out.add(b"NotArray"),
        VarFault::Exists => out.add(b"Exists"),
        VarFault::NoMemory => out.lack_memory(),
    }
}

/// Adds how a call ended.
fn add_done(done: Result<(), VarFault>, out: &mut Answer) {
    match done {
        Ok(()) => out.add(b"done"),
        Err(fault) => add_fault(fault, out),
    }
}

/// Adds a text, or why there is none.
fn add_text(text: &Result<Text, VarFault>, out: &mut Answer) {
    match text {
        Ok(text) => out.add(text.bytes()),
        Err(fault) => add_fault(*fault, out),
    }
}

/// Adds the value of a variable as it stands in the frames.
fn add_value(frames: &Frames, name: &Text, out: &mut Answer) {
    match frames.value(name) {
        Ok(value) => out.add(value.bytes()),
        Err(fault) => add_fault(fault, out),
    }
}

/// Adds an index and a value as `index=value;`.
fn add_pair(index: &Text, value: &Text, out: &mut Answer) {
    out.add(index.bytes());
    out.add(b"=");
    out.add(value.bytes());
    out.add(b";");
}

/// Adds the indexes and values of an array.
fn add_elements(frames: &Frames, name: &Text, out: &mut Answer) {
    match frames.elements(name) {
        Ok(pairs) => {
            for (index, value) in pairs.as_slice() {
                add_pair(index, value, out);
            }
        }
        Err(NoMemory) => out.lack_memory(),
    }
}

/// Keeps a base scalar, in frames that are cleared first.
fn keep(frames: &mut Frames, name: Text, value: Text) -> Result<(), NoMemory> {
    frames.clear();
    if !is_element_name(&name) {
        frames.keep(name, value)?;
    }
    Ok(())
}

/// Takes all keeps but so many back, in frames that are cleared first.
fn unkeep(frames: &mut Frames, kept: u64) {
    frames.clear();
    if kept <= frames.kept() {
        frames.unkeep(kept);
    }
}

/// Links a name that is no element's.
fn link(frames: &mut Frames, name: &Text) -> Result<(), VarFault> {
    if !is_element_name(name) {
        frames.link(name)?;
    }
    Ok(())
}

/// Leaves the frame, if it isn't the global one.
fn pop(frames: &mut Frames) {
    if frames.depth() > 0 {
        frames.pop();
    }
}

/// Appends to a variable, and keeps what comes of it.
fn append(frames: &mut Frames, name: &Text, bytes: &[u8], all: &mut Words) -> Result<(), VarFault> {
    all.add(frames.append(name, bytes, Known::Nothing)?)?;
    Ok(())
}

/// Appends to a variable three times, and changes what is read of it behind the first; what comes of each
/// of these, that of the reading behind the second.
fn grow(frames: &mut Frames, name: &Text, all: &mut Words) -> Result<(), VarFault> {
    append(frames, name, b"ab", all)?;
    let mut read = frames.read(name)?;
    append(frames, name, b"cd", all)?;
    read.append(b"-")?;
    all.add(read)?;
    append(frames, name, b"ef", all)
}

/// Adds what comes of a variable that grows, each text with a bar behind it.
fn add_grown(frames: &mut Frames, name: &Text, out: &mut Answer) {
    let mut all = Words::new(out.alloc());
    let grown = grow(frames, name, &mut all);
    out.add_words(all.as_slice());
    add_done(grown, out);
}

/// Writes so many variables, each with its name as its value.
fn write_many(alloc: Global, frames: &mut Frames, count: u64) -> Result<(), VarFault> {
    for number in 0..i64::try_from(count).unwrap_or(0) {
        let name = write_int(alloc, number)?;
        frames.write(&name, write_int(alloc, number)?)?;
    }
    Ok(())
}

/// A call on frames, or a question about them.
#[derive(Clone, Copy)]
enum Act {
    Push,
    Pop,
    Clear,
    Depth,
    Kept,
    Unkeep,
    Read,
    Value,
    IsLinked,
    Has,
    IsArray,
    Elements,
    Count,
    Remove,
    Link,
    Unlink,
    Grow,
    WriteMany,
    Write,
    WriteGlobal,
    WriteArray,
    Append,
    Keep,
}

/// These by their names.
const ACTS: &[(&str, Act)] = &[
    ("push", Act::Push),
    ("pop", Act::Pop),
    ("clear", Act::Clear),
    ("depth", Act::Depth),
    ("kept", Act::Kept),
    ("unkeep", Act::Unkeep),
    ("read", Act::Read),
    ("value", Act::Value),
    ("is_linked", Act::IsLinked),
    ("has", Act::Has),
    ("is_array", Act::IsArray),
    ("elements", Act::Elements),
    ("count", Act::Count),
    ("remove", Act::Remove),
    ("link", Act::Link),
    ("unlink", Act::Unlink),
    ("grow", Act::Grow),
    ("write_many", Act::WriteMany),
    ("write", Act::Write),
    ("write_global", Act::WriteGlobal),
    ("write_array", Act::WriteArray),
    ("append", Act::Append),
    ("keep", Act::Keep),
];

/// Makes a call that always ends well.
fn make(frames: &mut Frames, act: Act, name: &Text, out: &mut Answer) {
    match act {
        Act::Pop => pop(frames),
        Act::Clear => frames.clear(),
        Act::Unkeep => unkeep(frames, count_in(name)),
        _ => frames.unlink(name),
    }
    out.add(b"done");
}

/// Adds what a question about frames, or a variable, answers.
fn look(frames: &Frames, act: Act, name: &Text, out: &mut Answer) {
    match act {
        Act::Depth => out.add_number(frames.depth() as u64),
        Act::Kept => out.add_number(frames.kept()),
        Act::Read => add_text(&frames.read(name), out),
        Act::Value => add_value(frames, name, out),
        Act::IsLinked => out.add_truth(frames.is_linked(name)),
        Act::Has => out.add_truth(frames.has(name)),
        Act::IsArray => out.add_truth(frames.is_array(name)),
        Act::Elements => add_elements(frames, name, out),
        _ => out.add_number(frames.count(name) as u64),
    }
}

/// Enters a frame.
fn push(frames: &mut Frames) -> Result<(), VarFault> {
    frames.push()?;
    Ok(())
}

/// Keeps a base scalar of copies of a name and a value.
fn keep_copies(
    alloc: Global,
    frames: &mut Frames,
    name: &Text,
    value: &Text,
) -> Result<(), VarFault> {
    keep(frames, name.copy(alloc)?, value.copy(alloc)?)?;
    Ok(())
}

/// Writes a copy of a value.
fn write(alloc: Global, frames: &mut Frames, name: &Text, value: &Text) -> Result<(), VarFault> {
    frames.write(name, value.copy(alloc)?)
}

/// Writes a copy of a value in the global frame.
fn write_global(
    alloc: Global,
    frames: &mut Frames,
    name: &Text,
    value: &Text,
) -> Result<(), VarFault> {
    frames.write_global(name, value.copy(alloc)?)
}

/// Adds what a call on frames, or a question about them, answers.
fn add_act(frames: &mut Frames, act: Act, row: &Row<'_>, out: &mut Answer) {
    let (alloc, name, value) = (out.alloc(), row.second, row.third);
    match act {
        Act::Push => add_done(push(frames), out),
        Act::Remove => add_done(frames.remove(name), out),
        Act::Link => add_done(link(frames, name), out),
        Act::Grow => add_grown(frames, name, out),
        Act::WriteMany => add_done(write_many(alloc, frames, count_in(name)), out),
        Act::Write => add_done(write(alloc, frames, name, value), out),
        Act::WriteGlobal => add_done(write_global(alloc, frames, name, value), out),
        Act::WriteArray => add_done(frames.write_array(name, rest(row)), out),
        Act::Append => add_text(&frames.append(name, value.bytes(), Known::Nothing), out),
        Act::Keep => add_done(keep_copies(alloc, frames, name, value), out),
        Act::Pop | Act::Clear | Act::Unkeep | Act::Unlink => make(frames, act, name, out),
        _ => look(frames, act, name, out),
    }
}

/// The fields behind the first two.
fn rest<'a>(row: &Row<'a>) -> &'a [Text] {
    row.all.get(2..).unwrap_or(&[])
}

/// Adds what a call on frames, or a question about them, answers.
pub fn acted(frames: &mut Frames, row: &Row<'_>, out: &mut Answer) {
    match find(ACTS, row.first.bytes()) {
        Some(act) => add_act(frames, act, row, out),
        None => out.add(b"no row"),
    }
}
