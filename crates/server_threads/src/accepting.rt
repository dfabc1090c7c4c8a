//! The acceptor.

ghost use Rattle.conn_queue.specs.Queues.{IsOf};
ghost use Rattle.outside.specs.Nets.{IsNew};
ghost use Rattle.server_threads.specs.Stops.{Stops};

use crate::staff::{Arrives, Staff};
use conn_queue::{ConnQueue, QPass};
use outside::{Accepted, Net};
use std::net::{TcpListener, TcpStream};
use std::sync::Wait;

/// Why an acceptor stopped.
#[derive(Clone, Copy, Debug, PartialEq, Eq)]
pub enum Stop {
    /// The net has ended.
    Closed,
    /// So many connections were given as were asked for.
    Reached,
    /// The net failed.
    Fault,
    /// Memory ran out.
    NoMemory,
}

/// Puts each connection of a new net into the queue, and turns away one that is handed back. It stops
/// after so many connections, where that number isn't 0.
pub fn accept_all<
    T: Arrives<N::S, N::K>,
    W,
    V: Staff<T, W>,
    N: Net,
    R: Wait + std::net::Net<Listener = TcpListener, Stream = TcpStream>,
>(
    rt: &R,
    staff: &V,
    queue: &ConnQueue<T>,
    connections: u64,
    pass: &mut QPass<T>,
    own: &mut W,
    net: &mut N,
) -> Stop
    requires queue { IsOf queue.now pass.old }
    requires own { V.fits staff.now own.old }
    requires new { IsNew (N.state net.old) }
    ensures queue { IsOf queue.now pass.new }
    ensures own { V.fits staff.now own.new }
    ensures stops { Stops connections (N.state net.old) result (N.state net.new) }
{
    let mut given = 0u64;
    for _ in rt.forever() {
        if connections != 0 && given == connections {
            return Stop::Reached;
        }
        match net.accept(rt) {
            Accepted::Conn { source, sink, peer } => {
                given = given.saturating_add(1);
                let conn = T::arrive(source, sink, peer);
                if let Err(back) = queue.put(rt, pass, conn) {
                    staff.turn_away(own, back);
                }
            }
            Accepted::Closed => return Stop::Closed,
            Accepted::Failed => return Stop::Fault,
            Accepted::NoMemory => return Stop::NoMemory,
        }
    }
    unreachable!()
}
