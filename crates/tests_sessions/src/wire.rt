//! What comes and goes on one connection, and what is told of it.

ghost use Rattle.std.specs.Prelude.{◌≤◌};

use outside::{MemPages, MemSink, MemSource};
use std::alloc::Global;
use txt_core::Text;
use worker::{End, ServedOutcome, Session};

/// What comes and goes on one connection.
#[derive(Clone, Copy)]
pub(crate) struct Wire<'a> {
    pub input: &'a [u8],
    /// The most bytes of one read, and those of one write; at least 1.
    pub read_piece: usize,
    pub write_piece: usize,
    /// The reads and writes that are to fail.
    pub reads: &'a [u64],
    pub writes: &'a [u64],
}

impl Wire<'_> {
    /// A connection of this input, which meets no fault.
    pub fn of(input: &[u8]) -> Wire<'_>
        ensures read { 1 ≤ result.read_piece }
        ensures write { 1 ≤ result.write_piece }
    {
        Wire {
            input,
            read_piece: 1_000,
            write_piece: 1_000,
            reads: &[],
            writes: &[],
        }
    }
}

/// A text; the empty one where memory wants.
pub(crate) fn text(alloc: Global, bytes: &[u8]) -> Text {
    match Text::new(alloc, bytes) {
        Ok(text) => text,
        Err(_) => Text::empty(alloc),
    }
}

/// Appends bytes to a text, which stays as it is where memory wants.
pub(crate) fn put(all: &mut Text, bytes: &[u8]) {
    let _put = all.append(bytes);
}

/// The numbers of calls; none where memory wants.
fn calls_of(alloc: Global, calls: &[u64]) -> Vec<u64> {
    match Vec::from_slice(alloc, calls) {
        Ok(list) => list,
        Err(_) => Vec::new(alloc),
    }
}

/// What comes on a wire.
pub(crate) fn source_of(alloc: Global, wire: &Wire<'_>) -> MemSource
    requires { 1 ≤ wire.now.read_piece }
{
    let reads = calls_of(alloc, wire.reads);
    MemSource::new(text(alloc, wire.input), wire.read_piece, reads)
}

/// What takes what goes out on a wire.
pub(crate) fn sink_of(alloc: Global, wire: &Wire<'_>) -> MemSink
    requires { 1 ≤ wire.now.write_piece }
{
    MemSink::new(alloc, wire.write_piece, calls_of(alloc, wire.writes))
}

/// What came of a session.
#[derive(Drop)]
pub(crate) struct Told {
    pub end: End,
    /// All bytes that went out.
    pub bytes: Text,
    /// How many requests were served.
    pub count: usize,
    /// Of the last request that was served: its epoch, its outcome and the bytes of its reply.
    pub epoch: u64,
    pub outcome: ServedOutcome,
    pub wrote: u64,
}

/// What is told of a session and of what went out.
pub(crate) fn tell(alloc: Global, session: &Session, sink: &MemSink) -> Told {
    let served = session.served.as_slice();
    let (epoch, outcome, wrote) = match served.last() {
        Some(item) => (item.epoch, item.outcome, item.wrote),
        None => (0, ServedOutcome::Answered, 0),
    };
    Told {
        end: session.end,
        bytes: text(alloc, sink.taken().bytes()),
        count: served.len(),
        epoch,
        outcome,
        wrote,
    }
}

/// Pages without one.
pub(crate) fn no_pages(alloc: Global) -> MemPages {
    MemPages::new(alloc, Vec::new(alloc))
}

/// Sets the page at a path.
fn set_page(alloc: Global, pages: &mut MemPages, path: &[u8], page: &[u8]) {
    let _set = pages.set(text(alloc, path), text(alloc, page));
}

/// Pages at these paths, of which those calls fail that are listed.
pub(crate) fn pages_of(alloc: Global, rows: &[(&[u8], &[u8])], fails: &[u64]) -> MemPages {
    let mut pages = MemPages::new(alloc, calls_of(alloc, fails));
    for (path, page) in rows {
        set_page(alloc, &mut pages, path, page);
    }
    pages
}
