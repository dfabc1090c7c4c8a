//! The two ends of a connection over TCP.

ghost use Rattle.std.specs.Prelude.{◌≡◌, ◌<◌, ◌≤◌, length, IfOk, IfSome};

use crate::counts::Faults;
use crate::reply::Reply;
use crate::silence::Silence;
use crate::turn::Turn;
use crate::waiting::{PlaceInLine, Waiting};
use outside::{ReadAnswer, Sink, Source, WriteAnswer};
use std::alloc::{AllocError, Global};
use std::io::{self, ErrorKind, Read, Write};
use std::net::{Shutdown, TcpStream};
use std::sync::Arc;
use std::sync::atomic::{AtomicBool, Ordering};
use std::time::{Duration, Instant};

/// A read or a write waits in rounds of so many milliseconds, so that it needs no clock.
const ROUND: u64 = 100;

/// Rounds in which a peer takes nothing of a reply after which the write fails: 30 seconds.
const UNTAKEN_ROUNDS: u32 = 300;

/// How many bytes one read takes away at a close.
const PIECE: usize = 16_384;

/// How many reads a close makes at most.
const MOST_PIECES: u32 = 64;

/// Rounds of silence that a close waits for its peer to close too: 1 second.
const PARTING_ROUNDS: u32 = 10;

/// What the two ends share. It is closed when both are let go.
struct Line {
    stream: TcpStream,
    silence: Silence,
    // Something was received, and the peer has neither ended its input nor been silent for too long.
    open: AtomicBool,
}

impl Drop for Line {
    fn drop(self) {
        let Line {
            stream,
            silence: _,
            open,
        } = self;
        if stream.shutdown(Shutdown::Write).is_err() {
            return;
        }
        if open.load(Ordering::SeqCst) {
            take_away(&stream, PARTING_ROUNDS);
        } else if stream.set_nonblocking(true).is_ok() {
            take_away(&stream, 1);
        }
    }
}

/// Takes away what comes, until the peer has closed too, or is silent for so many rounds.
fn take_away(mut stream: &TcpStream, rounds: u32) {
    let mut piece = [0u8; PIECE];
    let mut silent = 0u32;
    for _try in 0..MOST_PIECES {
        match stream.read(&mut piece) {
            Ok(0) => return,
            Ok(_) => {}
            Err(error) => match why(error.kind()) {
                Missed::Over => {
                    silent = silent.saturating_add(1);
                    if rounds <= silent {
                        return;
                    }
                }
                Missed::Interrupted => {}
                Missed::Broken => return,
            },
        }
    }
}

/// Where the bytes of a peer come from. It tells nothing of them.
///
/// Where nothing was received since the last write, no request is taken to be under way. A peer that is
/// then silent for 10 seconds has ended its input; where other connections wait for a worker, it has so
/// after a tenth of a second. A request of which a part came together with the one before is under way
/// only when more of it comes.
///
/// Within a request a peer that is silent for 30 seconds is a fault, and so is one that is silent for 5
/// minutes in all, where the first second of each silence isn't counted. Where another connection waits for
/// a worker, a request that isn't whole 30 seconds after its first byte is a fault too, and the input ends
/// behind a request that came in pieces once the connection is served for 30 seconds.
#[derive(Drop)]
pub struct TcpSource<R> {
    rt: R,
    line: Arc<Line, Global>,
    pub(crate) waiting: Waiting,
    place: Option<PlaceInLine>,
    request: Turn,
    pub(crate) session: Turn,
    pub(crate) faults: Faults,
}

/// Where the bytes for a peer go. It tells nothing of them.
///
/// Each piece is one write to the system, where its peer takes it within a tenth of a second; else what
/// was taken by then is told. A peer that takes nothing for 30 seconds is a fault. Where another connection
/// waits for a worker, so is one that takes less than a mebibyte of a reply, or of those to requests that
/// came together, in 30 seconds, and not all that is left of it.
///
/// When both ends of a connection are let go, the peer is told that nothing more comes, and what it sends
/// is taken away until it has closed too or is silent for a second, up to a mebibyte: the system resets a
/// connection that is let go with bytes unread, and by that the peer may lose the end of a reply. A peer
/// of which nothing was read, or that was silent for too long before, isn't waited for.
#[derive(Drop)]
pub struct TcpSink<R> {
    rt: R,
    line: Arc<Line, Global>,
    waiting: Waiting,
    pub(crate) reply: Reply,
    pub(crate) faults: Faults,
}

/// The two ends of a connection that now waits for a worker.
pub(crate) fn ends<R: Copy + Drop>(
    rt: R,
    alloc: Global,
    stream: TcpStream,
    waiting: &Waiting,
) -> Result<(TcpSource<R>, TcpSink<R>), AllocError> {
    let line = Arc::new(
        alloc,
        Line {
            stream,
            silence: Silence::new(),
            open: AtomicBool::new(false),
        },
    )?;
    let sink = TcpSink {
        rt,
        line: Arc::try_clone(&line)?,
        waiting: waiting.copy()?,
        reply: Reply::new(),
        faults: Faults::none(),
    };
    let source = TcpSource {
        rt,
        line,
        waiting: waiting.copy()?,
        place: Some(waiting.enter()?),
        request: Turn::of_request(),
        session: Turn::of_session(),
        faults: Faults::none(),
    };
    Ok((source, sink))
}

/// Sets a stream's times, once for all of its reads and writes, and that small pieces aren't held back.
pub(crate) fn prepare(stream: &TcpStream) -> io::Result<()> {
    let round = Duration::from_millis(ROUND);
    stream.set_nodelay(true)?;
    stream.set_read_timeout(Some(round))?;
    stream.set_write_timeout(Some(round))
}

/// Why a round moved no byte.
#[derive(Clone, Copy)]
enum Missed {
    /// It is over.
    Over,
    /// A signal came before it was over.
    Interrupted,
    /// The connection failed.
    Broken,
}

/// What an error of a read or a write says of its round.
fn why(kind: ErrorKind) -> Missed {
    match kind {
        ErrorKind::WouldBlock => Missed::Over,
        ErrorKind::Interrupted => Missed::Interrupted,
        _ => Missed::Broken,
    }
}

impl<R: std::rt::Clock> TcpSource<R> {
    // Whether no request is under way, and the connection has to give way to another one that waits: its
    // last request came in pieces. Of a peer whose requests come whole the next one may be there already.
    fn is_over(&mut self) -> bool
        ensures { self.new.faults ≡ self.old.faults }
    {
        let is_asked = self.request.is_begun() || !self.session.is_begun();
        if !is_asked || !self.line.silence.is_idle() || !self.session.needs_moment(&self.waiting) {
            return false;
        }
        match Instant::now(&self.rt) {
            Ok(now) => self.session.gives_way(now, &self.waiting),
            Err(_) => false,
        }
    }

    // Whether a request is under way that has to give way to a connection that waits.
    fn gives_way(&mut self) -> bool
        ensures { self.new.faults ≡ self.old.faults }
    {
        if self.line.silence.is_idle() {
            self.request = Turn::of_request();
            return false;
        }
        if !self.request.needs_moment(&self.waiting) {
            return false;
        }
        match Instant::now(&self.rt) {
            Ok(now) => self.request.gives_way(now, &self.waiting),
            Err(_) => false,
        }
    }

    // Reads for one round.
    fn receive(&self, into: &mut [u8]) -> Result<usize, Missed>
        ensures kept { length into.new ≡ length into.old }
        ensures fits { IfOk result (λ count. count ≤ length into.old) }
    {
        (&self.line.stream)
            .read(into)
            .map_err(|error| why(error.kind()))
    }

    // Reads for as many rounds as there may be; `None` where the connection failed or stalled, or gave way
    // to another.
    fn await_bytes(&mut self, into: &mut [u8]) -> Option<usize>
        ensures kept { length into.new ≡ length into.old }
        ensures fits { IfSome result (λ count. count ≤ length into.old) }
        ensures faults { self.new.faults ≡ self.old.faults }
    {
        let mut silent = 0u32;
        for _try in 0..u64::MAX {
            if self.gives_way() {
                self.line.open.store(false, Ordering::SeqCst);
                return None;
            }
            match self.receive(into) {
                Ok(count) => {
                    self.line.silence.note_piece(silent);
                    self.line.open.store(count != 0, Ordering::SeqCst);
                    return Some(count);
                }
                Err(Missed::Over) => {
                    silent = silent.saturating_add(1);
                    let others_wait = self.waiting.is_any();
                    if self.line.silence.ends_input(silent, others_wait) {
                        self.line.open.store(false, Ordering::SeqCst);
                        return Some(0);
                    }
                    if self.line.silence.is_stalled(silent) {
                        self.line.open.store(false, Ordering::SeqCst);
                        return None;
                    }
                }
                Err(Missed::Interrupted) => {}
                Err(Missed::Broken) => return None,
            }
        }
        None
    }
}

impl<R: std::rt::Clock> Source for TcpSource<R> {
    ghost use Rattle.std.specs.Prelude.{None};

    ghost rest = { λ s. None };

    ghost faults = { λ s. s.faults.count };

    fn read(&mut self, into: &mut [u8]) -> ReadAnswer {
        self.place = None;
        if self.is_over() {
            return ReadAnswer::Bytes(0);
        }
        match self.await_bytes(into) {
            Some(count) => ReadAnswer::Bytes(count),
            None => {
                self.faults.rise();
                ReadAnswer::Failed
            }
        }
    }
}

impl<R: std::rt::Clock> TcpSink<R> {
    // Whether the rest of a reply has to give way to a connection that waits.
    fn gives_way(&mut self) -> bool
        ensures { self.new.faults ≡ self.old.faults }
    {
        if !self.reply.needs_moment(&self.waiting) {
            return false;
        }
        match Instant::now(&self.rt) {
            Ok(now) => self.reply.gives_way(now, &self.waiting),
            Err(_) => false,
        }
    }

    // Writes for one round.
    fn send(&self, piece: &[u8]) -> Result<usize, Missed>
        requires { 0 < length piece.now }
        ensures { IfOk result (λ count. (0 < count) × (count ≤ length piece.now)) }
    {
        match (&self.line.stream).write(piece) {
            Ok(0) => Err(Missed::Broken),
            Ok(count) => Ok(count),
            Err(error) => Err(why(error.kind())),
        }
    }

    // Writes for as many rounds as there may be; `None` where the connection failed or stalled, or gave way
    // to another.
    fn take(&mut self, piece: &[u8]) -> Option<usize>
        requires { 0 < length piece.now }
        ensures taken { IfSome result (λ count. (0 < count) × (count ≤ length piece.now)) }
        ensures faults { self.new.faults ≡ self.old.faults }
    {
        let mut stalled = 0u32;
        for _try in 0..u64::MAX {
            if self.gives_way() {
                self.line.open.store(false, Ordering::SeqCst);
                return None;
            }
            match self.send(piece) {
                Ok(count) => {
                    self.reply.note_piece(count, piece.len());
                    return Some(count);
                }
                Err(Missed::Over) => {
                    self.reply.note_pause();
                    stalled = stalled.saturating_add(1);
                    if UNTAKEN_ROUNDS <= stalled {
                        return None;
                    }
                }
                Err(Missed::Interrupted) => {}
                Err(Missed::Broken) => return None,
            }
        }
        None
    }
}

impl<R: std::rt::Clock> Sink for TcpSink<R> {
    ghost use Rattle.std.specs.Prelude.{None};

    ghost taken = { λ s. None };

    ghost faults = { λ s. s.faults.count };

    fn write(&mut self, piece: &[u8]) -> WriteAnswer {
        if !self.line.silence.is_idle() {
            self.reply = Reply::new();
        }
        self.line.silence.note_reply();
        match self.take(piece) {
            Some(count) => WriteAnswer::Took(count),
            None => {
                self.faults.rise();
                WriteAnswer::Failed
            }
        }
    }
}
