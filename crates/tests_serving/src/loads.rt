//! Files of loads, of one connection and of as many as there may be.

use load_gen::{MOST_REQUESTS, Pieces, load};
use std::alloc::Global;
use std::test::Fail;
use txt_core::{NoMemory, Text};

/// The events in front of each file.
const FRONT: &[u8] = b"workers 4
define 174
proc hit {} {ns_return 200 text/plain [nsv_incr c n]}
proc form {} {ns_return 200 text/plain [ns_queryget name]}
ns_register_proc GET /hit hit
ns_register_proc GET /form form
";

/// The events at the end of each file.
const BACK: &[u8] = b"run 0
run 1
run 2
run 3
";

/// The file of one connection: the number that is drawn is 1103527590.
const ONE: &[u8] = b"workers 4
define 174
proc hit {} {ns_return 200 text/plain [nsv_incr c n]}
proc form {} {ns_return 200 text/plain [ns_queryget name]}
ns_register_proc GET /hit hit
ns_register_proc GET /form form
run 2
connect 2 39
GET /form?name=n1 HTTP/1.1\r
Host: l\r
\r

step 0
step 1
step 2
step 3
run 0
run 1
run 2
run 3
";

/// More pieces than the largest file has: two, and one for 512 connections each.
const MOST_PIECES: u32 = 300;

/// The file of so many connections, or of the most.
fn load_for(alloc: Global, n: u32) -> Result<Text, NoMemory> {
    load(alloc, n.clamp(1, MOST_REQUESTS))
}

#[test]
fn one_connection(rt: HostRuntime) -> Result<(), Fail> {
    assert!(rt; load_for(rt.alloc(), 1)?.bytes() == ONE);
    Ok(())
}

#[test]
fn the_largest_file_is_no_larger_than_it_may_be(rt: HostRuntime) -> Result<(), Fail> {
    let file = load_for(rt.alloc(), MOST_REQUESTS)?;
    assert!(rt; file.len() < 12_000_000);
    assert!(rt; file.bytes().starts_with(FRONT));
    assert!(rt; file.bytes().ends_with(BACK));
    Ok(())
}

/// The pieces of a file, one behind the other.
fn in_pieces(alloc: Global, n: u32) -> Result<Text, NoMemory> {
    let mut pieces = Pieces::new(n.clamp(1, MOST_REQUESTS));
    let mut file = Text::empty(alloc);
    // What is taken behind the end is empty.
    for _ in 0..MOST_PIECES {
        let piece = pieces.next_piece(alloc)?;
        file.append(piece.bytes())?;
    }
    Ok(file)
}

#[test]
fn one_connection_in_pieces(rt: HostRuntime) -> Result<(), Fail> {
    assert!(rt; in_pieces(rt.alloc(), 1)?.bytes() == ONE);
    Ok(())
}

/// Files of as many connections as a piece has, of one more, and of the most.
#[test]
fn pieces_are_the_file(rt: HostRuntime) -> Result<(), Fail> {
    for n in [512, 513, MOST_REQUESTS] {
        let pieces = in_pieces(rt.alloc(), n)?;
        assert!(rt; pieces.bytes() == load_for(rt.alloc(), n)?.bytes(), "{n}");
    }
    Ok(())
}
