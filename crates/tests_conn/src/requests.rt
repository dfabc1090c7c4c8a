//! Whole requests, by their bytes: what commands tell of them, and the replies to those that are refused.

use crate::rows::{CHUNKS, REQUESTS};
use crate::telling::{Told, on_boxed, parts, put, spelled, text, told_on};
use http_req::{Carry, Got, read_request};
use http_resp::{plain, response_bytes};
use outside::MemSource;
use std::alloc::{AllocError, Global};
use txt_core::Text;

/// The head of a request whose body comes in chunks.
const CHUNKED: &str = "POST /x HTTP/1.1^Host: l^Transfer-Encoding: chunked^^";

/// How many bytes it has.
const CHUNKED_LENGTH: usize = 57;

/// A text again; the empty one where memory wants.
fn again(alloc: Global, text: &Text) -> Text {
    match text.copy(alloc) {
        Ok(other) => other,
        Err(_) => Text::empty(alloc),
    }
}

/// An input that comes in pieces of so many bytes.
fn source(alloc: Global, input: &Text, piece: usize) -> MemSource {
    MemSource::new(again(alloc, input), piece.max(1), Vec::new(alloc))
}

/// The request that comes of a source.
fn read_of(alloc: Global, source: &mut MemSource, peer: &Text) -> Got {
    read_request(alloc, source, &mut Carry::new(alloc), peer)
}

/// The answer to an input that comes in pieces of so many bytes.
fn read(alloc: Global, input: &Text, piece: usize) -> Got {
    let mut source = source(alloc, input, piece);
    read_of(alloc, &mut source, &text(alloc, "127.0.0.1"))
}

/// In how many bytes a refusal of a status is replied; 0 where memory wants.
fn length_refused(alloc: Global, status: u16) -> usize {
    match plain(alloc, status) {
        Ok(response) => match response_bytes(alloc, &response, 0, false, true) {
            Ok(bytes) => bytes.len(),
            Err(_) => 0,
        },
        Err(_) => 0,
    }
}

/// A text of what was written; the empty one where memory wanted.
fn written(alloc: Global, told: Result<String, AllocError>) -> Text {
    match told {
        Ok(told) => Text::from_vec(told.into_bytes()),
        Err(_) => Text::empty(alloc),
    }
}

/// The refusal of a status, and in how many bytes it is replied.
fn refused(alloc: Global, status: u16) -> Text {
    let length = length_refused(alloc, status);
    written(
        alloc,
        format!(in alloc; "refused {status} in {length} bytes"),
    )
}

/// How many bytes came of a request that isn't whole.
fn truncated(alloc: Global, have: u64) -> Text {
    written(alloc, format!(in alloc; "truncated {have}"))
}

/// What a command on a request comes to, or why there is none; nothing where memory wants.
fn told(alloc: Global, got: Got, line: &str) -> Text {
    match got {
        Got::Request(request) => {
            told_on(alloc, Ok(on_boxed(alloc, request)), Told::Command, line)
        }
        Got::Refused { status } => refused(alloc, status),
        Got::Truncated { have } => truncated(alloc, have),
        Got::End => text(alloc, "end"),
        Got::ReadFault => text(alloc, "fault"),
        Got::NoMemory => Text::empty(alloc),
    }
}

/// What of a row stands behind its input: the command on the request, and what comes of it.
type Asked<'a> = (&'a str, &'a str);

/// The three parts of a row: what is sent, the command on the request, and what comes of it.
fn parts_of(row: &str) -> (&str, Asked<'_>) {
    let (front, want) = parts(row);
    let (sent, line) = front
        .split_once(" then ")
        .unwrap_or((front, "ns_conn|content"));
    (sent, (line, want))
}

/// The bytes that a head spells, and those that what follows it spells.
fn spelled_behind(alloc: Global, head: &str, sent: &str) -> Text {
    let mut input = spelled(alloc, head, b"\r\n");
    put(&mut input, spelled(alloc, sent, b"\r\n").bytes());
    input
}

/// Whether an input that comes in pieces of so many bytes comes to what its row says.
fn is_read(alloc: Global, input: &Text, piece: usize, asked: Asked<'_>) -> bool {
    let (line, want) = asked;
    let came = told(alloc, read(alloc, input, piece), line);
    came.bytes() == want.as_bytes()
}

/// Whether the input of a row comes to what it says, in pieces of some sizes.
fn is_read_in_pieces(alloc: Global, row: &str) -> bool {
    let (sent, asked) = parts_of(row);
    let input = spelled(alloc, sent, b"\r\n");
    let mut right = true;
    for piece in [1, 7, 5_000] {
        right = is_read(alloc, &input, piece, asked) && right;
    }
    right
}

/// The place of the first row that is wrong, if there is one.
fn first_wrong_request(alloc: Global) -> Option<usize> {
    for (at, row) in REQUESTS.lines().enumerate() {
        if !is_read_in_pieces(alloc, row) {
            return Some(at);
        }
    }
    None
}

#[test]
fn requests_in_pieces(rt: HostRuntime) {
    assert_eq!(rt; first_wrong_request(rt.alloc()), None);
}

/// Whether the input of a row, which follows a head, comes to what it says byte by byte, and with a first piece
/// that ends behind the head, or behind one of the bytes that follow it.
fn is_read_at_each_byte(alloc: Global, row: &str) -> bool {
    let (sent, asked) = parts_of(row);
    let input = spelled_behind(alloc, CHUNKED, sent);
    let mut right = is_read(alloc, &input, 1, asked);
    for piece in CHUNKED_LENGTH..=input.len() {
        right = is_read(alloc, &input, piece, asked) && right;
    }
    right
}

/// The place of the first row that is wrong, if there is one.
fn first_wrong_body(alloc: Global) -> Option<usize> {
    for (at, row) in CHUNKS.lines().enumerate() {
        if !is_read_at_each_byte(alloc, row) {
            return Some(at);
        }
    }
    None
}

#[test]
fn bodies_in_chunks_cut_at_each_byte(rt: HostRuntime) {
    assert_eq!(rt; first_wrong_body(rt.alloc()), None);
}
