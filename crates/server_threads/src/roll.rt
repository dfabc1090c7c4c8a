//! Which parts have begun.

use std::rt::Clock;
use std::sync::atomic::{AtomicU64, Ordering};
use std::thread;
use std::time::Duration;

/// Milliseconds between two looks whether all parts have begun.
const PAUSE: u64 = 1;

/// How many looks there are before it is given up: 10 seconds of pauses.
pub(crate) const MOST_LOOKS: u64 = 10_000;

/// The count where no part may begin any more. There are never so many parts.
const CLOSED: u64 = 1 << 32;

/// How many parts have begun.
///
/// Where the system makes no thread for a part, that part would run when the acceptor has ended, and
/// nothing says so. So the acceptor waits until all parts have begun, and where they don't, it accepts
/// nothing.
#[derive(Drop)]
pub(crate) struct Roll {
    begun: AtomicU64,
}

impl Roll {
    /// No part has begun.
    pub(crate) fn new() -> Roll {
        Roll {
            begun: AtomicU64::new(0),
        }
    }

    /// A part begins. It answers false where none may begin any more.
    pub(crate) fn begin(&self) -> bool {
        self.begun.fetch_add(1, Ordering::SeqCst) < CLOSED
    }

    /// Waits until so many parts have begun. Where they haven't after so many looks, none may begin any
    /// more, and the error says how many have.
    pub(crate) fn await_all<R: Clock>(&self, rt: &R, parts: u64, looks: u64) -> Result<(), u64> {
        for _look in 0..looks {
            if parts <= self.begun.load(Ordering::SeqCst) {
                return Ok(());
            }
            thread::sleep(rt, Duration::from_millis(PAUSE));
        }
        let begun = self.begun.swap(CLOSED, Ordering::SeqCst);
        if parts <= begun { Ok(()) } else { Err(begun) }
    }
}
