//! A net in memory.

ghost use Rattle.std.specs.Prelude.{◌≡◌, ◌++◌, ◌∷◌, false};

use crate::calls::CallPlan;
use crate::mem_conn::MemConn;
use crate::mem_source::MemSource;
use crate::net::{Accepted, Net};
use crate::replies::Replies;
use crate::reply_sink::ReplySink;
use std::marker::Model;
use std::net::{TcpListener, TcpStream};
use std::sync::Wait;
use txt_core::{NoMemory, Text};

/// A net that gives the connections that it was told, in order, and fails at the calls that it was
/// told.
///
/// It tells the connections still to come. The calls that are counted are those of `listen` and
/// `accept` together: they have numbers from 0, in the order in which they are made; from 2^64 - 1 on
/// they all have that number.
#[derive(Drop)]
pub struct MemNet<R> {
    rt: R,
    replies: Replies,
    coming: Vec<MemConn>,
    given: u64,
    ended: bool,
    calls: CallPlan,
}

impl<R> Model for MemNet<R> {
    ghost use Rattle.outside.specs.Halls.{Hall};

    ghost Value = { Hall };

    ghost view = { λ a. record { coming = a.coming.items; given = a.given; ended = a.ended; calls = a.calls } };
}

impl<R> MemNet<R> {
    /// A net that gave no connection yet and hasn't ended. What its connections are sent stands in
    /// `replies`, for which the sinks wait by `rt`. The calls whose numbers are listed are to fail.
    pub fn new(rt: R, replies: Replies, conns: Vec<MemConn>, fails: Vec<u64>) -> MemNet<R>
        ensures { result
            ≡ record {
              coming = conns.items;
              given = 0;
              ended = false;
              calls = record { fails = fails.items; made = 0; faults = 0 };
            } }
    {
        MemNet {
            rt,
            replies,
            coming: conns,
            given: 0,
            ended: false,
            calls: CallPlan::new(fails),
        }
    }

    /// A handle of the replies, and the number of a text that was added to them. The only error is
    /// want of memory.
    fn text_for_one(&self) -> Result<(Replies, usize), NoMemory>
    where
        R: Wait,
    {
        let replies = self.replies.copy()?;
        let at = replies.open(&self.rt)?;
        Ok((replies, at))
    }
}

impl<N: Wait + Copy + Send + Drop> Net for MemNet<N> {
    ghost use Rattle.std.specs.Prelude.{Some};
    ghost use Rattle.outside.specs.Nets.{Listens, Accepts};
    ghost use Rattle.outside.specs.Halls.{state_of, Opens, Admits};

    type S = MemSource;

    type K = ReplySink<N>;

    ghost state = { state_of };

    fn listen<R: Wait + std::net::Net<Listener = TcpListener, Stream = TcpStream>>(
        &mut self,
        _rt: &R,
        _address: &Text,
    ) -> bool
        ensures opens { Opens self.old result self.new }
        ensures listens { Listens (state_of self.old) result (state_of self.new) }
    {
        if self.calls.begin() {
            self.calls.fault();
            return false;
        }
        true
    }

    fn accept<R: Wait + std::net::Net<Listener = TcpListener, Stream = TcpStream>>(
        &mut self,
        _rt: &R,
    ) -> Accepted<MemSource, ReplySink<N>>
        ensures admits { Admits self.old result self.new }
        ensures accepts { Accepts (λ s. Some s.rest) (state_of self.old) result
            (state_of self.new) }
    {
        if self.calls.begin() {
            self.calls.fault();
            return Accepted::Failed;
        }
        if self.coming.is_empty() {
            self.ended = true;
            return Accepted::Closed;
        }
        let Ok((replies, at)) = self.text_for_one() else {
            return Accepted::NoMemory;
        };
        let MemConn {
            input,
            peer,
            piece,
            reads,
            writes,
        } = self.coming.remove(0);
        self.given = self.given.saturating_add(1);
        Accepted::Conn {
            source: MemSource::new(input, piece, reads),
            sink: ReplySink::new(self.rt, replies, at, piece, writes),
            peer,
        }
    }
}
