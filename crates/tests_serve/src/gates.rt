//! Gates that wait for what others are sent.

use crate::site::{REPLY, greeting, play, was_sent};
use http_resp::reply_busy;
use outside::{Gate, MemSink, Replies};
use std::alloc::Global;
use std::sync::Wait;
use std::sync::atomic::{AtomicBool, Ordering};
use std::test::*;
use std::thread::yield_now;
use txt_core::{NoMemory, Text};

/// How often a gate looks before it gives up.
const TRIES: u64 = 100_000_000;

/// One worker, room for one, and three connections.
const NARROW: &[&[u8]] = &[b"--workers", b"1", b"--queue", b"1", b"--connections", b"3"];

/// A gate at which the first one to come waits until one of two connections was sent a text.
#[derive(Drop)]
struct WaitingGate<'a> {
    replies: &'a Replies,
    connections: [u64; 2],
    text: &'a [u8],
    // Nobody has come yet.
    first: AtomicBool,
    // It gave up.
    failed: AtomicBool,
}

impl Gate for WaitingGate<'_> {
    fn enter<R: Wait>(&self, rt: &R, _worker: u16, _request: u64) {
        if !self.first.swap(false, Ordering::SeqCst) {
            return;
        }
        for _try in 0..TRIES {
            if self.is_open(rt) {
                return;
            }
            yield_now();
        }
        self.failed.store(true, Ordering::SeqCst);
    }
}

impl<'a> WaitingGate<'a> {
    /// A gate that waits until one of these connections was sent this text.
    fn new(replies: &'a Replies, connections: [u64; 2], text: &'a [u8]) -> WaitingGate<'a> {
        WaitingGate {
            replies,
            connections,
            text,
            first: AtomicBool::new(true),
            failed: AtomicBool::new(false),
        }
    }

    fn is_open<R: Wait>(&self, rt: &R) -> bool {
        let [one, other] = self.connections;
        was_sent(rt, self.replies, one, self.text) || was_sent(rt, self.replies, other, self.text)
    }
}

/// What a connection is sent for which there is no room.
fn busy(alloc: Global) -> Result<Text, NoMemory> {
    let mut sink = MemSink::new(alloc, 1_000, Vec::new(alloc));
    let _sent = reply_busy(0, &mut sink);
    sink.taken().copy(alloc)
}

#[test]
fn one_is_served_while_another_waits(rt: HostRuntime) -> Result<(), Fail> {
    let replies = Replies::new(rt.alloc())?;
    let gate = WaitingGate::new(&replies, [0, 1], REPLY);
    let case = greeting(&[b"--workers", b"2", b"--connections", b"2"], 2);
    let came = play(&rt, rt.alloc(), &case, &replies, &gate)?;
    assert_eq!(rt; came.status, 0);
    assert!(rt; !gate.failed.load(Ordering::SeqCst));
    assert!(rt; was_sent(&rt, &replies, 0, REPLY));
    assert!(rt; was_sent(&rt, &replies, 1, REPLY));
    Ok(())
}

#[test]
fn one_is_told_that_all_are_busy(rt: HostRuntime) -> Result<(), Fail> {
    let replies = Replies::new(rt.alloc())?;
    let busy = busy(rt.alloc())?;
    let gate = WaitingGate::new(&replies, [1, 2], busy.bytes());
    let came = play(&rt, rt.alloc(), &greeting(NARROW, 3), &replies, &gate)?;
    assert_eq!(rt; came.status, 0);
    assert!(rt; !gate.failed.load(Ordering::SeqCst));
    assert!(rt; was_sent(&rt, &replies, 0, REPLY));
    let mut turned_away = false;
    for connection in 1..3 {
        if was_sent(&rt, &replies, connection, busy.bytes()) {
            turned_away = true;
        } else {
            assert!(rt; was_sent(&rt, &replies, connection, REPLY));
        }
    }
    assert!(rt; turned_away);
    Ok(())
}
