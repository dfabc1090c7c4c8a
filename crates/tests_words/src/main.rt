//! Cases of the commands on words, and of variables, sets and channels: what no clause of them says. Each line of standard input
//! is a row, and is written to standard output with its answer; the file `stdout` has the answers that the
//! rules give. Rows on variables, sets and channels act on those of the rows before them, from the last row
//! `new` on.
#![tactic(auto)]

mod calls;
mod channels;
mod frames;
mod on_lists;
mod on_texts;
mod on_variables;
mod sets;
mod word_faults;

use chan_core::Chans;
use ns_sets::Sets;
use std::alloc::Global;
use std::io;
use tcl_frame::Frames;
use test_rows::{Answer, Row, find, read_fields, row_name};
use txt_core::{NoMemory, Text};

/// What rows act on.
#[derive(Drop)]
struct State {
    frames: Frames,
    sets: Sets,
    chans: Chans,
}

impl State {
    /// New frames, no set and no channel.
    fn new(alloc: Global) -> Result<State, NoMemory> {
        Ok(State {
            frames: Frames::new(alloc)?,
            sets: Sets::new(alloc),
            chans: Chans::new(alloc),
        })
    }
}

/// What a row tries.
#[derive(Clone, Copy)]
enum Case {
    New,
    OnLists,
    OnTexts,
    FormatLong,
    Fault,
    Index,
    Lines,
    CountLines,
    Var,
    PutBytes,
    Known,
    Frames,
    Sets,
    Chans,
}

/// The cases by their names.
const CASES: &[(&str, Case)] = &[
    ("new", Case::New),
    ("on_lists", Case::OnLists),
    ("on_texts", Case::OnTexts),
    ("format_long", Case::FormatLong),
    ("fault", Case::Fault),
    ("index", Case::Index),
    ("lines", Case::Lines),
    ("count_lines", Case::CountLines),
    ("var", Case::Var),
    ("put_bytes", Case::PutBytes),
    ("known", Case::Known),
    ("frames", Case::Frames),
    ("sets", Case::Sets),
    ("chans", Case::Chans),
];

/// Makes the state new, and says so.
fn renew(state: &mut State, out: &mut Answer) {
    match State::new(out.alloc()) {
        Ok(made) => *state = made,
        Err(NoMemory) => out.lack_memory(),
    }
    out.add(b"done");
}

/// Adds the answer to a row.
fn add_answer(state: &mut State, case: Case, row: &Row<'_>, out: &mut Answer) {
    match case {
        Case::New => renew(state, out),
        Case::OnLists => on_lists::called(row.first, row.all, out),
        Case::OnTexts => on_texts::called(row.first, row.all, out),
        Case::FormatLong => on_texts::format_long(row, out),
        Case::Fault => word_faults::fault(row.first, row.second, out),
        Case::Index => word_faults::index(row.first, out),
        Case::Lines => channels::lines_of(row.first, out),
        Case::CountLines => channels::count_lines(row.first, out),
        Case::Var => on_variables::answered(&mut state.frames, row.first, out),
        Case::PutBytes => {
            on_variables::length_put(&mut state.frames, row.first, row.second, out)
        }
        Case::Known => on_variables::known(&mut state.frames, row.first, row.second, out),
        Case::Frames => frames::acted(&mut state.frames, row, out),
        Case::Sets => sets::acted(&mut state.sets, row, out),
        Case::Chans => channels::acted(&mut state.chans, row, out),
    }
}

/// Adds the answer to a row of this name.
fn add_named(state: &mut State, name: &str, row: &Row<'_>, out: &mut Answer) {
    match find(CASES, name.as_bytes()) {
        Some(case) => add_answer(state, case, row, out),
        None => out.add(b"no row"),
    }
}

/// What is written behind a row.
fn answer(alloc: Global, state: &mut State, line: &str) -> Result<String, NoMemory> {
    let fields = read_fields(alloc, line)?;
    let none = Text::empty(alloc);
    let mut out = Answer::new(alloc);
    let row = Row::new(fields.as_slice(), &none);
    add_named(state, row_name(line), &row, &mut out);
    Ok(out.spelled()?)
}

/// Reads each row, and writes it with its answer.
fn play(rt: HostRuntime, state: &mut State) -> io::Result<()> {
    for line in rt.lines(rt.alloc()) {
        let line = line?;
        match answer(rt.alloc(), state, line.as_str()) {
            Ok(answer) => println!(rt; "{line} => {answer}")?,
            Err(NoMemory) => println!(rt; "{line} => no memory")?,
        }
    }
    Ok(())
}

fn main(rt: HostRuntime) -> io::Result<()> {
    match State::new(rt.alloc()) {
        Ok(mut state) => play(rt, &mut state),
        Err(NoMemory) => println!(rt; "no memory"),
    }
}
