//! Each status, its line, and what the connections were sent.

use crate::site::{Case, REPLY, greeting, new_net, play, serve_words, was_sent, words_of};
use outside::{MemClock, OpenGate, Replies};
use std::net::{TcpListener, TcpStream};
use std::process::Abort;
use std::sync::Wait;
use std::test::*;
use std::thread::Threads;

/// A script that never ends.
const SPINS: &[u8] = b"while 1 {}";

/// A script that goes too deep.
const DIVES: &[u8] = b"proc p {} {p}\np";

/// Room for three hundred connections, and four workers.
const THREE_HUNDRED: &[&[u8]] = &[
    b"--workers",
    b"4",
    b"--queue",
    b"300",
    b"--connections",
    b"300",
];

/// The line for faulty words.
const BAD_WORDS: &[u8] = b"bad words\n";

/// The line for a fault of the net.
const NET_FAULT: &[u8] = b"net fault\n";

/// How many bytes a start page may have.
const MOST_BYTES: usize = 1_048_576;

/// A case, its status and its line.
type Row = (Case, u8, &'static [u8]);

/// A case with this start page, or none.
fn starting(page: Option<&'static [u8]>) -> Case {
    Case {
        page,
        ..greeting(&[b"--connections", b"2"], 2)
    }
}

/// A case with a start page of so many bytes.
fn starting_with(length: usize) -> Case {
    Case {
        page_length: length,
        ..greeting(&[b"--connections", b"2"], 2)
    }
}

#[test]
fn both_are_served(rt: HostRuntime) -> Result<(), Fail> {
    let replies = Replies::new(rt.alloc())?;
    let case = greeting(&[b"--connections", b"2"], 2);
    let came = play(&rt, rt.alloc(), &case, &replies, &OpenGate)?;
    assert_eq!(rt; came.status, 0);
    assert!(rt; came.errors.is_empty());
    assert!(rt; was_sent(&rt, &replies, 0, REPLY));
    assert!(rt; was_sent(&rt, &replies, 1, REPLY));
    Ok(())
}

#[test]
fn three_hundred_are_served(rt: HostRuntime) -> Result<(), Fail> {
    let replies = Replies::new(rt.alloc())?;
    let case = greeting(THREE_HUNDRED, 300);
    let came = play(&rt, rt.alloc(), &case, &replies, &OpenGate)?;
    assert_eq!(rt; came.status, 0);
    for connection in 0..300 {
        assert!(rt;
            was_sent(&rt, &replies, connection, REPLY),
            "connection {connection}"
        );
    }
    Ok(())
}

/// Serves as each row says, and looks at what came.
fn check_rows<
    R: Abort
        + AllocGlobal
        + Threads
        + Wait
        + Sync
        + std::rt::Clock
        + std::net::Net<Listener = TcpListener, Stream = TcpStream>
        + Copy
        + Send
        + Drop,
>(rt: &R, rows: &[Row]) -> Result<(), Fail> {
    for (number, row) in rows.iter().enumerate() {
        let replies = Replies::new(rt.alloc())?;
        let came = play(rt, rt.alloc(), &row.0, &replies, &OpenGate)?;
        assert_eq!(rt; came.status, row.1, "status of row {number}");
        assert!(rt; came.errors.bytes() == row.2, "line of row {number}");
    }
    Ok(())
}

#[test]
fn all_is_well(rt: HostRuntime) -> Result<(), Fail> {
    let rows: [Row; 5] = [
        (greeting(&[], 2), 0, b""),
        (greeting(&[b"--connections", b"1"], 2), 0, b""),
        (greeting(&[b"--connections=-0"], 2), 0, b""),
        (greeting(&[b"--workers", b"+4"], 2), 0, b""),
        (starting_with(MOST_BYTES), 0, b""),
    ];
    check_rows(&rt, &rows)
}

#[test]
fn words_are_refused(rt: HostRuntime) -> Result<(), Fail> {
    let rows: [Row; 4] = [
        (greeting(&[b"--workers", b"17"], 0), 2, BAD_WORDS),
        (greeting(&[b"--workers", b"0"], 0), 2, BAD_WORDS),
        (greeting(&[b"more"], 0), 2, BAD_WORDS),
        (greeting(&[b"\xff"], 0), 2, BAD_WORDS),
    ];
    check_rows(&rt, &rows)
}

#[test]
fn a_start_script_is_told(rt: HostRuntime) -> Result<(), Fail> {
    let few = greeting(&[b"--connections", b"2"], 2);
    let rows: [Row; 7] = [
        (starting(None), 6, b"start: no page \"/s\"\n"),
        (
            Case {
                page_fails: &[0],
                ..few
            },
            6,
            b"start: can't read page \"/s\"\n",
        ),
        (
            starting_with(MOST_BYTES + 1),
            6,
            b"start: page \"/s\" is too long\n",
        ),
        (starting(Some(b"error boom")), 6, b"start: boom\n"),
        (starting(Some(SPINS)), 6, b"start: budget spent\n"),
        (starting(Some(DIVES)), 6, b"start: nesting too deep\n"),
        (
            Case {
                error_fails: &[0],
                ..starting(None)
            },
            6,
            b"",
        ),
    ];
    check_rows(&rt, &rows)
}

#[test]
fn a_fault_of_the_net_is_told(rt: HostRuntime) -> Result<(), Fail> {
    let few = greeting(&[b"--connections", b"2"], 2);
    let rows: [Row; 2] = [
        (
            Case {
                net_fails: &[0],
                ..few
            },
            7,
            NET_FAULT,
        ),
        (
            Case {
                net_fails: &[1],
                ..few
            },
            7,
            NET_FAULT,
        ),
    ];
    check_rows(&rt, &rows)
}

#[test]
fn what_was_accepted_before_a_fault_is_served(rt: HostRuntime) -> Result<(), Fail> {
    let replies = Replies::new(rt.alloc())?;
    let case = Case {
        net_fails: &[3],
        ..greeting(&[], 3)
    };
    let came = play(&rt, rt.alloc(), &case, &replies, &OpenGate)?;
    assert_eq!(rt; came.status, 7);
    assert!(rt; came.errors.bytes() == NET_FAULT);
    assert!(rt; was_sent(&rt, &replies, 0, REPLY));
    assert!(rt; was_sent(&rt, &replies, 1, REPLY));
    Ok(())
}

#[test]
fn a_word_alone_is_refused(rt: HostRuntime) -> Result<(), Fail> {
    let replies = Replies::new(rt.alloc())?;
    let case = greeting(&[], 1);
    let words = words_of(rt.alloc(), &[b"serve"])?;
    let mut net = new_net(&rt, rt.alloc(), &case, &replies)?;
    let mut clock = MemClock::new(0, 0);
    let came = serve_words(
        &rt,
        rt.alloc(),
        &case,
        &words,
        &mut net,
        &mut clock,
        &OpenGate,
    )?;
    assert_eq!(rt; came.status, 2);
    assert!(rt; came.errors.bytes() == BAD_WORDS);
    Ok(())
}
