//! Channels on pages.

use chan_core::{ChanFault, Chans, lines};
use std::alloc::Global;
use test_rows::{Answer, Row, count_in, find};
use txt_core::Text;

/// Adds a fault by its name.
fn add_fault(fault: ChanFault, out: &mut Answer) {
    match fault {
        ChanFault::NoChannel => out.add(b"NoChannel"),
        ChanFault::Full => out.add(b"Full"),
        ChanFault::NoMemory => out.lack_memory(),
    }
}

/// Adds a line with a bar behind it, `none` where there is none, or the fault.
fn add_line(line: &Result<Option<Text>, ChanFault>, out: &mut Answer) {
    match line {
        Ok(Some(line)) => {
            out.add(line.bytes());
            out.add(b"|");
        }
        Ok(None) => out.add(b"none"),
        Err(fault) => add_fault(*fault, out),
    }
}

/// Adds bytes, or the fault.
fn add_bytes(bytes: &Result<Text, ChanFault>, out: &mut Answer) {
    match bytes {
        Ok(bytes) => out.add(bytes.bytes()),
        Err(fault) => add_fault(*fault, out),
    }
}

/// Adds the number of a channel, or the fault.
fn add_opened(opened: Result<u64, ChanFault>, out: &mut Answer) {
    match opened {
        Ok(number) => out.add_number(number),
        Err(fault) => add_fault(fault, out),
    }
}

/// Adds how a call ended.
fn add_done(done: Result<(), ChanFault>, out: &mut Answer) {
    match done {
        Ok(()) => out.add(b"done"),
        Err(fault) => add_fault(fault, out),
    }
}

/// Adds whether a channel is at its end, or the fault.
fn add_end(is_end: Result<bool, ChanFault>, out: &mut Answer) {
    match is_end {
        Ok(is_end) => out.add_truth(is_end),
        Err(fault) => add_fault(fault, out),
    }
}

/// A call on channels, or a question about them.
#[derive(Clone, Copy)]
enum Verb {
    Open,
    Gets,
    Read,
    ReadAll,
    Eof,
    Close,
    Clear,
}

/// These by their names.
const VERBS: &[(&str, Verb)] = &[
    ("open", Verb::Open),
    ("gets", Verb::Gets),
    ("read", Verb::Read),
    ("read_all", Verb::ReadAll),
    ("eof", Verb::Eof),
    ("close", Verb::Close),
    ("clear", Verb::Clear),
];

/// Opens a channel on a page.
fn open(alloc: Global, chans: &mut Chans, page: &Text) -> Result<u64, ChanFault> {
    chans.open(page.copy(alloc)?)
}

/// Closes all channels.
fn clear(chans: &mut Chans, out: &mut Answer) {
    chans.clear();
    out.add(b"done");
}

/// Adds what a call on channels answers.
fn add_act(chans: &mut Chans, verb: Verb, row: &Row<'_>, out: &mut Answer) {
    let number = count_in(row.second);
    match verb {
        Verb::Open => add_opened(open(out.alloc(), chans, row.second), out),
        Verb::Gets => add_line(&chans.gets(number), out),
        Verb::Read => add_bytes(&chans.read(number, count_in(row.third)), out),
        Verb::ReadAll => add_bytes(&chans.read(number, u64::MAX), out),
        Verb::Eof => add_end(chans.eof(number), out),
        Verb::Close => add_done(chans.close(number), out),
        Verb::Clear => clear(chans, out),
    }
}

/// Adds what a call on channels, or a question about them, answers.
pub fn acted(chans: &mut Chans, row: &Row<'_>, out: &mut Answer) {
    match find(VERBS, row.first.bytes()) {
        Some(verb) => add_act(chans, verb, row, out),
        None => out.add(b"no row"),
    }
}

/// Adds the lines of the first channel, of which there are no more than a number.
fn add_lines(chans: &mut Chans, most: usize, out: &mut Answer) {
    for _ in 0..most {
        add_line(&chans.gets(0), out);
    }
}

/// Channels with one open on these bytes.
fn on(alloc: Global, bytes: &Text) -> Result<Chans, ChanFault> {
    let mut chans = Chans::new(alloc);
    open(alloc, &mut chans, bytes)?;
    Ok(chans)
}

/// Adds the lines of a channel on these bytes, each with a bar behind it, and behind them `none` for each
/// further one of as many calls as there are bytes.
pub fn lines_of(bytes: &Text, out: &mut Answer) {
    lines();
    match on(out.alloc(), bytes) {
        Ok(mut chans) => add_lines(&mut chans, bytes.len(), out),
        Err(fault) => add_fault(fault, out),
    }
}

/// How many of a mebibyte of calls find a line.
fn count(chans: &mut Chans) -> u64 {
    let mut count = 0u64;
    for _ in 0..1_048_576 {
        if matches!(chans.gets(0), Ok(Some(_))) {
            count = count.wrapping_add(1);
        }
    }
    count
}

/// Adds how many lines a page has, which a channel that moved its bytes at each line would take hours for.
pub fn count_lines(bytes: &Text, out: &mut Answer) {
    match on(out.alloc(), bytes) {
        Ok(mut chans) => out.add_number(count(&mut chans)),
        Err(fault) => add_fault(fault, out),
    }
}
