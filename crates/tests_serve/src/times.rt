//! What is due runs while the net waits; and when the clock is read.

ghost use Rattle.std.specs.Prelude.{◌≡◌};

use crate::site::{Case, greeting, new_net, play_on, was_sent};
use outside::{Accepted, Clock, MemClock, Net, OpenGate, Replies};
use std::net::{TcpListener, TcpStream};
use std::sync::Wait;
use std::sync::atomic::{AtomicBool, AtomicU64, Ordering};
use std::test::*;
use std::thread::yield_now;
use txt_core::{NoMemory, Text};

/// How often the net looks before it gives up.
const TRIES: u64 = 100_000_000;

/// Sets a value once it is due, and tells it.
const ONCE: &[u8] = b"ns_schedule_proc -once 1 {nsv_set s n 1}\n\
    proc n {} {ns_return 200 text/plain [nsv_get s n]}\n\
    ns_register_proc GET /n n";

/// A GET of what it tells.
const GET_N: &[u8] = b"GET /n HTTP/1.1\r\nHost: l\r\n\r\n";

/// How many bytes the reply has.
const REPLY: usize = 155;

/// A clock that counts its pauses, together with its copies.
#[derive(Drop)]
struct CountingClock<'a> {
    clock: MemClock,
    pauses: &'a AtomicU64,
}

impl Clock for CountingClock<'_> {
    ghost use Rattle.std.specs.Prelude.{None};

    ghost held = { λ c. None };

    fn moment(&mut self) -> u64 {
        self.clock.moment()
    }

    fn pause<R: Wait + std::rt::Clock>(&mut self, _rt: &R) {
        self.pauses.fetch_add(1, Ordering::SeqCst);
        yield_now();
    }

    fn copy(&self) -> Result<Self, NoMemory> {
        Ok(CountingClock {
            clock: self.clock.copy()?,
            pauses: self.pauses,
        })
    }
}

/// Answers with the text of its blueprint, and publishes another one.
const SWAP: &[u8] = b"proc text {} {return old}\n\
    proc swap {} {ns_return 200 text/plain [text]; ns_eval {proc text {} {return new}}}\n\
    ns_register_proc GET /s swap";

/// Two requests for that in one piece.
const TWO_SWAPS: &[u8] = b"GET /s HTTP/1.1\r\nHost: l\r\n\r\nGET /s HTTP/1.1\r\nHost: l\r\n\r\n";

/// What these are replied where nothing was published before the look of the first.
const OLD_THEN_NEW: &[u8] = b"HTTP/1.1 200 OK\r\n\
    Date: Thu, 01 Jan 1970 00:00:00 GMT\r\n\
    Server: AOLserver-profile/1\r\n\
    Content-Type: text/plain\r\n\
    Content-Length: 3\r\n\
    Connection: keep-alive\r\n\r\n\
    old\
    HTTP/1.1 200 OK\r\n\
    Date: Thu, 01 Jan 1970 00:00:00 GMT\r\n\
    Server: AOLserver-profile/1\r\n\
    Content-Type: text/plain\r\n\
    Content-Length: 3\r\n\
    Connection: keep-alive\r\n\r\n\
    new";

/// A clock of which, behind two pauses of the keeper's, the first reading of a worker waits until workers
/// have read it twice more.
#[derive(Drop)]
struct HoldingClock<'a> {
    clock: MemClock,
    pauses: &'a AtomicU64,
    readings: &'a AtomicU64,
    // The first reading gave up.
    failed: &'a AtomicBool,
    // It is the keeper's.
    paused: bool,
}

impl HoldingClock<'_> {
    /// Waits, where this is the first reading of a worker.
    fn hold(&self) {
        if self.paused || self.pauses.load(Ordering::SeqCst) < 2 {
            return;
        }
        if self.readings.fetch_add(1, Ordering::SeqCst) != 0 {
            return;
        }
        for _try in 0..TRIES {
            if 3 <= self.readings.load(Ordering::SeqCst) {
                return;
            }
            yield_now();
        }
        self.failed.store(true, Ordering::SeqCst);
    }
}

impl Clock for HoldingClock<'_> {
    ghost use Rattle.std.specs.Prelude.{None};

    ghost held = { λ c. None };

    fn moment(&mut self) -> u64 {
        self.hold();
        self.clock.moment()
    }

    fn pause<R: Wait + std::rt::Clock>(&mut self, _rt: &R) {
        self.paused = true;
        self.pauses.fetch_add(1, Ordering::SeqCst);
        yield_now();
    }

    fn copy(&self) -> Result<Self, NoMemory> {
        Ok(HoldingClock {
            clock: self.clock.copy()?,
            pauses: self.pauses,
            readings: self.readings,
            failed: self.failed,
            paused: false,
        })
    }
}

/// A net whose first accept waits until there were two pauses.
#[derive(Drop)]
struct WaitingNet<'a, N> {
    net: N,
    pauses: &'a AtomicU64,
    waits: bool,
    failed: bool,
}

impl<N> WaitingNet<'_, N> {
    /// Where this is the first accept, waits until there were two pauses.
    fn hold(&mut self)
        ensures { self.new.net ≡ self.old.net }
    {
        if !self.waits {
            return;
        }
        self.waits = false;
        for _try in 0..TRIES {
            if 2 <= self.pauses.load(Ordering::SeqCst) {
                return;
            }
            yield_now();
        }
        self.failed = true;
    }
}

impl<I: Net> Net for WaitingNet<'_, I> {
    type S = I::S;

    type K = I::K;

    ghost state = { λ n. I.state n.net };

    fn listen<R: Wait + std::net::Net<Listener = TcpListener, Stream = TcpStream>>(
        &mut self,
        rt: &R,
        address: &Text,
    ) -> bool {
        self.net.listen(rt, address)
    }

    fn accept<R: Wait + std::net::Net<Listener = TcpListener, Stream = TcpStream>>(
        &mut self,
        rt: &R,
    ) -> Accepted<I::S, I::K> {
        self.hold();
        self.net.accept(rt)
    }
}

#[test]
fn what_is_due_runs_beside(rt: HostRuntime) -> Result<(), Fail> {
    let replies = Replies::new(rt.alloc())?;
    let pauses = AtomicU64::new(0);
    let case = Case {
        page: Some(ONCE),
        request: GET_N,
        ..greeting(&[b"--connections", b"1"], 1)
    };
    let mut net = WaitingNet {
        net: new_net(&rt, rt.alloc(), &case, &replies)?,
        pauses: &pauses,
        waits: true,
        failed: false,
    };
    let mut clock = CountingClock {
        clock: MemClock::new(0, 10),
        pauses: &pauses,
    };
    let came = play_on(&rt, rt.alloc(), &case, &mut net, &mut clock, &OpenGate)?;
    assert_eq!(rt; came.status, 0);
    assert!(rt; !net.failed);
    let taken = replies.taken(&rt, 0)?;
    assert!(rt;
        taken.is_some_and(|text| text.len() == REPLY && text.bytes().ends_with(b"\r\n\r\n1"))
    );
    Ok(())
}

#[test]
fn a_look_stands_before_the_clock(rt: HostRuntime) -> Result<(), Fail> {
    let replies = Replies::new(rt.alloc())?;
    let pauses = AtomicU64::new(0);
    let readings = AtomicU64::new(0);
    let failed = AtomicBool::new(false);
    let case = Case {
        page: Some(SWAP),
        request: TWO_SWAPS,
        ..greeting(&[b"--workers", b"2", b"--connections", b"2"], 2)
    };
    let mut net = WaitingNet {
        net: new_net(&rt, rt.alloc(), &case, &replies)?,
        pauses: &pauses,
        waits: true,
        failed: false,
    };
    let mut clock = HoldingClock {
        clock: MemClock::new(0, 0),
        pauses: &pauses,
        readings: &readings,
        failed: &failed,
        paused: false,
    };
    let came = play_on(&rt, rt.alloc(), &case, &mut net, &mut clock, &OpenGate)?;
    assert_eq!(rt; came.status, 0);
    assert!(rt; !net.failed && !failed.load(Ordering::SeqCst));
    assert!(rt; was_sent(&rt, &replies, 0, OLD_THEN_NEW));
    assert!(rt; was_sent(&rt, &replies, 1, OLD_THEN_NEW));
    Ok(())
}
