//! Connections from this machine, for tests.

use crate::conn::{TcpSink, TcpSource};
use crate::net::TcpNet;
use outside::{Accepted, Net, ReadAnswer, Sink, Source, WriteAnswer};
use std::alloc::Global;
use std::io::{Read, Write};
use std::net::{SocketAddr, TcpListener, TcpStream};
use std::sync::Wait;
use txt_core::Text;

/// A text; the empty one where memory wants.
pub(crate) fn text(alloc: Global, bytes: &[u8]) -> Text {
    match Text::new(alloc, bytes) {
        Ok(text) => text,
        Err(_) => Text::empty(alloc),
    }
}

/// The address at which a net listens; `None` where it doesn't.
fn place_of<R>(net: &TcpNet<R>) -> Option<SocketAddr> {
    match &net.listener {
        Some(listener) => listener.local_addr().ok(),
        None => None,
    }
}

/// A net that listens at a free port of this machine, and its address; `None` where it doesn't.
pub(crate) fn listening<
    R: Wait
        + std::net::Net<Listener = TcpListener, Stream = TcpStream>
        + std::rt::Clock
        + Copy
        + Send
        + Drop,
>(rt: &R, alloc: Global) -> Option<(TcpNet<R>, SocketAddr)> {
    let mut net = TcpNet::new(*rt, alloc).ok()?;
    let _listens = net.listen(rt, &text(alloc, b"127.0.0.1:0"));
    match place_of(&net) {
        Some(place) => Some((net, place)),
        None => None,
    }
}

/// The two ends of a connection.
pub(crate) type Ends<R> = (TcpSource<R>, TcpSink<R>);

/// The two ends of the next connection, which is one from this machine; `None` where it isn't.
pub(crate) fn next_ends<
    R: Wait
        + std::net::Net<Listener = TcpListener, Stream = TcpStream>
        + std::rt::Clock
        + Copy
        + Send
        + Drop,
>(rt: &R, net: &mut TcpNet<R>) -> Option<Ends<R>> {
    match net.accept(rt) {
        Accepted::Conn { source, sink, peer } if peer.bytes() == b"127.0.0.1".as_slice() => {
            Some((source, sink))
        }
        _ => None,
    }
}

/// Sends bytes from a peer, and tells whether they went.
pub(crate) fn sends(peer: &mut TcpStream, bytes: &[u8]) -> bool {
    peer.write_all(bytes).is_ok()
}

/// A connection from this machine: the net that took it, the net's address, the peer's end, and the two ends
/// of it.
#[derive(Drop)]
pub(crate) struct Visit<R> {
    pub net: TcpNet<R>,
    pub place: SocketAddr,
    pub peer: TcpStream,
    pub source: TcpSource<R>,
    pub sink: TcpSink<R>,
}

/// A connection beside a visit, which waits: the peer's end, and the two ends of it.
pub(crate) type Other<R> = (TcpStream, Ends<R>);

impl<
    R: Wait
        + std::net::Net<Listener = TcpListener, Stream = TcpStream>
        + std::rt::Clock
        + Copy
        + Send
        + Drop,
> Visit<R> {
    /// One that was just taken; `None` where none can be made.
    pub fn new(rt: &R, alloc: Global) -> Option<Visit<R>> {
        let (net, place) = listening(rt, alloc)?;
        Visit::to(rt, net, place)
    }

    /// One to this net.
    fn to(rt: &R, net: TcpNet<R>, place: SocketAddr) -> Option<Visit<R>> {
        let peer: TcpStream = TcpStream::connect(rt, place).ok()?;
        Visit::taken(rt, net, place, peer)
    }

    /// The one that this peer makes.
    fn taken(rt: &R, mut net: TcpNet<R>, place: SocketAddr, peer: TcpStream) -> Option<Visit<R>> {
        let (source, sink) = next_ends(rt, &mut net)?;
        Some(Visit {
            net,
            place,
            peer,
            source,
            sink,
        })
    }

    /// Takes another connection; `None` where there is none.
    pub fn another(&mut self, rt: &R) -> Option<Other<R>> {
        let other: TcpStream = TcpStream::connect(rt, self.place).ok()?;
        match next_ends(rt, &mut self.net) {
            Some(ends) => Some((other, ends)),
            None => None,
        }
    }
}

impl<R: std::rt::Clock + Drop> Visit<R> {
    /// What is read of at most 16 bytes.
    pub fn read(&mut self) -> ReadAnswer {
        let mut piece = [0u8; 16];
        self.source.read(&mut piece)
    }

    /// Whether what the peer sends is read at once.
    pub fn reads(&mut self, sent: &[u8]) -> bool {
        let goes = sends(&mut self.peer, sent);
        let mut piece = [0u8; 16];
        let answer = self.source.read(&mut piece);
        goes && answer == ReadAnswer::Bytes(sent.len()) && piece.as_slice().starts_with(sent)
    }

    /// Whether a reply is taken at once.
    pub fn replies(&mut self) -> bool {
        self.sink.write(b"reply") == WriteAnswer::Took(5)
    }

    /// Lets both ends go.
    pub fn leave(self) -> (TcpNet<R>, TcpStream) {
        let Visit {
            net,
            place: _,
            peer,
            source,
            sink,
        } = self;
        drop((source, sink));
        (net, peer)
    }
}

/// Whether a peer reads just these bytes until its connection ends.
pub(crate) fn ends_with(alloc: Global, peer: &mut TcpStream, want: &[u8]) -> bool {
    let mut rest = Vec::new(alloc);
    let ends = peer.read_to_end(&mut rest).is_ok();
    ends && rest.as_slice() == want
}
