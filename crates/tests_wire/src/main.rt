//! Cases of what is read from the outside and written to it: what no clause says. Each line of standard input
//! is a row, and is written to standard output with its answer; the file `stdout` has the answers that the
//! rules give.
#![tactic(auto)]

mod pieces;
mod requests;
mod responses;
mod streams;

use std::alloc::Global;
use std::io;
use test_rows::{Answer, Row, find, read_fields, row_name};
use txt_core::{NoMemory, Text};

/// What a row tries.
#[derive(Clone, Copy)]
enum Case {
    Request,
    Cuts,
    Fault,
    Asked,
    Front,
    Respond,
    Plain,
    PlainBody,
    Date,
    Write,
    Busy,
    NoMemory,
    Read,
    ReadSingly,
    WriteTwice,
    Pages,
}

/// The cases by their names.
const CASES: &[(&str, Case)] = &[
    ("request", Case::Request),
    ("cuts", Case::Cuts),
    ("fault", Case::Fault),
    ("asked", Case::Asked),
    ("front", Case::Front),
    ("respond", Case::Respond),
    ("plain", Case::Plain),
    ("plain_body", Case::PlainBody),
    ("date", Case::Date),
    ("write", Case::Write),
    ("busy", Case::Busy),
    ("no_memory", Case::NoMemory),
    ("read", Case::Read),
    ("read_singly", Case::ReadSingly),
    ("write_twice", Case::WriteTwice),
    ("pages", Case::Pages),
];

/// Adds the answer to a row.
fn add_answer(case: Case, row: &Row<'_>, out: &mut Answer) {
    match case {
        Case::Request => requests::answered(row, out),
        Case::Cuts => requests::cut(row, out),
        Case::Fault => requests::faulty(row, out),
        Case::Asked => requests::asked(row, out),
        Case::Front => requests::front(row, out),
        Case::Respond => responses::respond(row, out),
        Case::Plain => responses::plain_reply(row, out),
        Case::PlainBody => responses::plain_body(row, out),
        Case::Date => responses::date(row, out),
        Case::Write => responses::written(row, out),
        Case::Busy => responses::busy(row, out),
        Case::NoMemory => responses::no_memory(row, out),
        Case::Read => streams::given(row, out),
        Case::ReadSingly => streams::read_singly(row, out),
        Case::WriteTwice => streams::written_twice(row, out),
        Case::Pages => streams::asked(row, out),
    }
}

/// Adds the answer to a row of this name.
fn add_named(name: &str, row: &Row<'_>, out: &mut Answer) {
    match find(CASES, name.as_bytes()) {
        Some(case) => add_answer(case, row, out),
        None => out.add(b"no row"),
    }
}

/// What is written behind a row.
fn answer(alloc: Global, line: &str) -> Result<String, NoMemory> {
    let fields = read_fields(alloc, line)?;
    let none = Text::empty(alloc);
    let mut out = Answer::new(alloc);
    let row = Row::new(fields.as_slice(), &none);
    add_named(row_name(line), &row, &mut out);
    Ok(out.spelled()?)
}

fn main(rt: HostRuntime) -> io::Result<()> {
    for line in rt.lines(rt.alloc()) {
        let line = line?;
        match answer(rt.alloc(), line.as_str()) {
            Ok(answer) => println!(rt; "{line} => {answer}")?,
            Err(NoMemory) => println!(rt; "{line} => no memory")?,
        }
    }
    Ok(())
}
