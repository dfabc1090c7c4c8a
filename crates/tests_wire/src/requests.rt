//! Requests: what is read of an input.

use crate::pieces::Pieces;
use http_req::{Carry, FIELD_ROOM, Front, Got, Request, find_head, read_request};
use httparse::spans::EMPTY_HEADER_SPAN;
use std::alloc::{AllocError, Global};
use test_rows::{Answer, Row, count_in};
use txt_core::{NoMemory, Text};

/// The size of pieces in which most inputs come whole.
const LARGE_PIECE: usize = 5_000;

/// Adds a bar and how long something is.
fn add_length(length: usize, out: &mut Answer) {
    out.add(b"|");
    out.add_number(length as u64);
}

/// Adds a body, if it is short.
fn add_body(body: &[u8], out: &mut Answer) {
    if !body.is_empty() && body.len() < 20 {
        out.add(b":");
        out.add(body);
    }
}

/// Adds the parts of a request, joined by a bar.
fn add_request(request: &Request, out: &mut Answer) {
    for segment in request.segments.as_slice() {
        out.add(b"/");
        out.add(segment.bytes());
    }
    add_length(request.query.len(), out);
    add_length(request.fields.len(), out);
    add_length(request.body.len(), out);
    add_body(request.body.bytes(), out);
}

/// Adds an answer.
fn add_got(got: &Got, out: &mut Answer) {
    match got {
        Got::Request(request) => add_request(request.get(), out),
        Got::End => out.add(b"end"),
        Got::Truncated { have } => {
            out.add(b"truncated ");
            out.add_number(*have as u64);
        }
        Got::Refused { status } => {
            out.add(b"refused ");
            out.add_number(*status as u64);
        }
        Got::ReadFault => out.add(b"fault"),
        Got::NoMemory => out.lack_memory(),
    }
}

/// Adds the answers of so many calls on the source, each with a space behind it.
fn add_answers(source: &mut Pieces, peer: &Text, calls: u64, out: &mut Answer) {
    let mut carry = Carry::new(out.alloc());
    for _ in 0..calls {
        add_got(&read_request(out.alloc(), source, &mut carry, peer), out);
        out.add(b" ");
    }
}

/// Adds the answers of so many calls on the source, and how often it was asked.
fn add_all(made: Result<(Pieces, Text), NoMemory>, calls: u64, out: &mut Answer) -> u64 {
    match made {
        Ok((mut source, peer)) => {
            add_answers(&mut source, &peer, calls, out);
            source.calls as u64
        }
        Err(NoMemory) => {
            out.lack_memory();
            0
        }
    }
}

/// A source of an input in pieces of this size, and its peer.
fn source_of(
    alloc: Global,
    input: &Text,
    piece: usize,
    cut: usize,
    fails_at: usize,
) -> Result<(Pieces, Text), NoMemory> {
    let source = Pieces::new(alloc, input, piece, cut, fails_at)?;
    Ok((source, Text::new(alloc, b"peer")?))
}

/// Adds the answers of calls on an input: the size of the pieces in which it comes, how many calls, and the
/// input.
pub fn answered(row: &Row<'_>, out: &mut Answer) {
    let piece = count_in(row.first) as usize;
    let source = source_of(out.alloc(), row.third, piece, 0, usize::MAX);
    add_all(source, count_in(row.second), out);
}

/// The answers of calls if the input is cut before a byte.
fn cut_at(alloc: Global, input: &Text, cut: usize, calls: u64) -> Answer {
    let mut answers = Answer::new(alloc);
    let source = source_of(alloc, input, LARGE_PIECE, cut, usize::MAX);
    add_all(source, calls, &mut answers);
    answers
}

/// How many of the cuts before each byte leave the answers as they are.
fn count_cuts(input: &Text, calls: u64, answers: &Answer) -> u64 {
    let mut count = 0u64;
    for cut in 0..input.len() {
        if cut_at(answers.alloc(), input, cut, calls).bytes() == answers.bytes() {
            count = count.wrapping_add(1);
        }
    }
    count
}

/// Adds the answers of calls on an input, and how many of the cuts before each byte leave them so: how many
/// calls, and the input.
pub fn cut(row: &Row<'_>, out: &mut Answer) {
    let calls = count_in(row.first);
    let answers = cut_at(out.alloc(), row.second, 0, calls);
    out.add(answers.bytes());
    out.add_number(count_cuts(row.second, calls, &answers));
    out.add(b" of ");
    out.add_number(row.second.len() as u64);
}

/// Adds the first answer on a source that fails behind the input.
pub fn faulty(row: &Row<'_>, out: &mut Answer) {
    let fails_at = row.first.len().div_ceil(16);
    let source = source_of(out.alloc(), row.first, 16, 0, fails_at);
    add_all(source, 1, out);
}

/// Adds the answers of calls on an input of one piece, and how often its source is asked: how many calls, and
/// the input.
pub fn asked(row: &Row<'_>, out: &mut Answer) {
    let source = source_of(out.alloc(), row.second, LARGE_PIECE, 0, usize::MAX);
    let calls = add_all(source, count_in(row.first), out);
    out.add(b"asked ");
    out.add_number(calls);
}

/// What is found at the front of an input, where there is room for so many fields.
fn found(alloc: Global, input: &[u8], room: usize) -> Result<&'static [u8], AllocError> {
    let mut spans = vec![in alloc; EMPTY_HEADER_SPAN; room]?;
    Ok(match find_head(input, &mut spans) {
        Front::Head(_) => b"head",
        Front::Refused(_) => b"refused",
        Front::Cut => b"cut",
        Front::Crowded => b"crowded",
    })
}

/// Adds what is found at the front of an input: the room for its fields, where it isn't all that there may be,
/// and the input.
pub fn front(row: &Row<'_>, out: &mut Answer) {
    let room = if row.first.is_empty() {
        FIELD_ROOM
    } else {
        count_in(row.first) as usize
    };
    match found(out.alloc(), row.second.bytes(), room) {
        Ok(found) => out.add(found),
        Err(_) => out.lack_memory(),
    }
}
