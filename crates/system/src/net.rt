//! Connections over TCP.

ghost use Rattle.std.specs.Prelude.{◌≡◌, false, IfOk};

use crate::conn::{TcpSink, TcpSource, ends, prepare};
use crate::counts::Faults;
use crate::waiting::Waiting;
use outside::{Accepted, Net};
use std::alloc::Global;
use std::io::{Error, ErrorKind};
use std::net::{IpAddr, SocketAddr, TcpListener, TcpStream};
use std::sync::Wait;
use std::thread;
use std::time::Duration;
use txt_core::{NoMemory, Text};

/// How many milliseconds an accept waits before it tries again, where there was no descriptor or no
/// memory left for a connection.
const SHORTAGE: u64 = 100;

/// What the system says where a listener is none any more: that its descriptor isn't open, that it
/// doesn't listen, or that it is no socket.
const LOST: [i32; 3] = [9, 22, 88];

/// A net over TCP. It never ends by itself, and tells nothing of the connections to come.
///
/// An accept fails only where there is no listener, or none any more. A connection that breaks before it
/// is given is passed over. Where the system has no descriptor left, or anything else is in the way, it
/// waits a tenth of a second, in which silent peers give way, and tries again. A connection for which
/// memory wants is let go, and after the same time the next one is taken, so that an accept never answers
/// that memory ran out.
#[derive(Drop)]
pub struct TcpNet<R> {
    rt: R,
    alloc: Global,
    pub(crate) listener: Option<TcpListener>,
    waiting: Waiting,
    pub(crate) given: u64,
    pub(crate) faults: Faults,
}

impl<R: Copy + Drop> TcpNet<R> {
    /// A net that listens nowhere yet. The one refusal is want of memory.
    pub fn new(rt: R, alloc: Global) -> Result<TcpNet<R>, NoMemory>
        ensures { IfOk result (λ net. net.given ≡ 0) }
    {
        Ok(TcpNet {
            rt,
            alloc,
            listener: None,
            waiting: Waiting::new(alloc)?,
            given: 0,
            faults: Faults::none(),
        })
    }

    /// The two ends of a stream that was accepted, and its peer's address.
    fn connected(
        &self,
        stream: TcpStream,
        peer: SocketAddr,
    ) -> Result<(TcpSource<R>, TcpSink<R>, Text), NoMemory> {
        let name = name_of(self.alloc, peer.ip())?;
        let (source, sink) = ends(self.rt, self.alloc, stream, &self.waiting)?;
        Ok((source, sink, name))
    }
}

/// An address in digits. One of the old form within the new one is written in the old form. Each request
/// of its connection has it once more, so its bytes are shared.
fn name_of(alloc: Global, address: IpAddr) -> Result<Text, NoMemory> {
    let address = address.to_canonical();
    let name = format!(in alloc; "{address}")?;
    Text::new(alloc, name.as_bytes())?.share(alloc)
}

/// Whether an error of an accept is of the connection alone that was to be given, or of a signal.
fn is_passing(kind: ErrorKind) -> bool {
    matches!(
        kind,
        ErrorKind::ConnectionAborted
            | ErrorKind::ConnectionReset
            | ErrorKind::Interrupted
            | ErrorKind::NetworkDown
            | ErrorKind::NetworkUnreachable
            | ErrorKind::HostUnreachable
            | ErrorKind::TimedOut
    )
}

/// Whether after this error of an accept no other can give a connection.
fn is_lost(error: &Error) -> bool {
    match error.raw_os_error() {
        Some(code) => LOST.contains(&code),
        None => false,
    }
}

impl<T: std::rt::Clock + Copy + Drop> TcpNet<T> {
    /// Waits a moment for descriptors or memory to be let go. Meanwhile a connection waits, so that silent
    /// peers give way.
    fn await_room(&self) {
        let _place = self.waiting.enter();
        thread::sleep(&self.rt, Duration::from_millis(SHORTAGE));
    }

    /// The next stream that can be used, for which it waits. `None` where the listener is none any more.
    fn next_stream(&self, listener: &TcpListener) -> Option<(TcpStream, SocketAddr)> {
        for _try in 0..u64::MAX {
            match listener.accept() {
                Ok((stream, peer)) => {
                    if prepare(&stream).is_ok() {
                        return Some((stream, peer));
                    }
                }
                Err(error) => {
                    if is_lost(&error) {
                        return None;
                    }
                    if !is_passing(error.kind()) {
                        self.await_room();
                    }
                }
            }
        }
        None
    }

    /// The two ends of the next connection and its peer's address, for which it waits. `None` where there
    /// is no listener, or none any more.
    fn next_connection(&self) -> Option<(TcpSource<T>, TcpSink<T>, Text)> {
        let listener = self.listener.as_ref()?;
        for _try in 0..u64::MAX {
            let (stream, peer) = self.next_stream(listener)?;
            match self.connected(stream, peer) {
                Ok(connection) => return Some(connection),
                Err(NoMemory) => self.await_room(),
            }
        }
        None
    }
}

impl<T: std::rt::Clock + Copy + Send + Drop> Net for TcpNet<T> {
    ghost use Rattle.std.specs.Prelude.{false, None};
    ghost use Rattle.outside.specs.Guests.{NetState};

    type S = TcpSource<T>;

    type K = TcpSink<T>;

    ghost state = { λ s. record { faults = s.faults.count; given = s.given; ended = false; coming = None } };

    fn listen<R: Wait + std::net::Net<Listener = TcpListener, Stream = TcpStream>>(
        &mut self,
        rt: &R,
        address: &Text,
    ) -> bool {
        if let Ok(address) = str::from_utf8(address.bytes()) {
            if let Ok(listener) = TcpListener::bind(rt, address) {
                self.listener = Some(listener);
                return true;
            }
        }
        self.faults.rise();
        false
    }

    fn accept<R: Wait + std::net::Net<Listener = TcpListener, Stream = TcpStream>>(
        &mut self,
        _rt: &R,
    ) -> Accepted<TcpSource<T>, TcpSink<T>> {
        let Some((source, sink, peer)) = self.next_connection() else {
            self.faults.rise();
            return Accepted::Failed;
        };
        self.given = self.given.saturating_add(1);
        Accepted::Conn { source, sink, peer }
    }
}
