//! Where connections come from.

ghost use Rattle.outside.specs.Guests.{NetState};
ghost use Rattle.outside.specs.Nets.{Listens, Accepts};

use crate::sink::Sink;
use crate::source::Source;
use std::net::{TcpListener, TcpStream};
use std::sync::Wait;
use txt_core::Text;

/// What an accept answers.
#[derive(Drop)]
pub enum Accepted<S, K> {
    /// A connection: where the peer's bytes come from, where the bytes for it go, and its name.
    Conn { source: S, sink: K, peer: Text },
    /// No connection comes any more.
    Closed,
    /// The accept failed. The net's count of faults rose.
    Failed,
    /// Memory ran out.
    NoMemory,
}

/// A net of connections.
pub trait Net {
    /// Where the bytes of a connection's peer come from.
    type S: Source + Send + Drop;

    /// Where the bytes for a connection's peer go.
    type K: Sink + Send + Drop;

    /// Its counts, whether it has ended, and the connections still to come, where it tells them.
    ghost state: { Self → NetState };

    /// Begins to listen at an address. False comes only where the count of faults rose in this call.
    fn listen<R: Wait + std::net::Net<Listener = TcpListener, Stream = TcpStream>>(
        &mut self,
        rt: &R,
        address: &Text,
    ) -> bool
        ensures { Listens (state self.old) result (state self.new) };

    /// The next connection, for which it may wait. `Failed` comes only where the count of faults rose
    /// in this call; where the connections still to come are told, the first of them is given, and
    /// `Closed` comes only where there is none.
    fn accept<R: Wait + std::net::Net<Listener = TcpListener, Stream = TcpStream>>(
        &mut self,
        rt: &R,
    ) -> Accepted<Self::S, Self::K>
        ensures { Accepts Self.S.rest (state self.old) result (state self.new) };
}
