//! The sink of a connection in memory.

ghost use Rattle.std.specs.Prelude.{◌≡◌, ◌≤◌};

use crate::calls::CallPlan;
use crate::replies::Replies;
use crate::sink::{Sink, WriteAnswer};
use std::marker::Model;
use std::sync::Wait;

/// The sink of a connection of a net in memory. What it takes stands in the net's `Replies`; it tells
/// nothing of it, and a write may wait while another thread has the texts.
///
/// It takes bytes in pieces, and fails at the calls that it was told, and where there is no memory
/// for the bytes. Its calls have numbers from 0, in the order in which they are made; from 2^64 - 1
/// on they all have that number.
#[derive(Drop)]
pub struct ReplySink<R> {
    rt: R,
    replies: Replies,
    at: usize,
    piece: usize,
    calls: CallPlan,
}

impl<R> Model for ReplySink<R> {
    ghost use Rattle.std.specs.Prelude.{◌≤◌};
    ghost use Rattle.outside.specs.Outlets.{Outlet};

    ghost Value = { Outlet };

    ghost view = { λ a. record { piece = a.piece; calls = a.calls } };

    ghost invariant = { λ a. 1 ≤ a.piece };
}

impl<R> ReplySink<R> {
    /// A sink that appends to the text of this number, at most `piece` bytes a call, and fails at the
    /// calls whose numbers are listed.
    pub(crate) fn new(
        rt: R,
        replies: Replies,
        at: usize,
        piece: usize,
        fails: Vec<u64>,
    ) -> ReplySink<R>
        requires { 1 ≤ piece }
        ensures { result
            ≡ record {
              piece = piece;
              calls = record { fails = fails.items; made = 0; faults = 0 };
            } }
    {
        ReplySink {
            rt,
            replies,
            at,
            piece,
            calls: CallPlan::new(fails),
        }
    }
}

impl<R: Wait> Sink for ReplySink<R> {
    ghost use Rattle.std.specs.Prelude.{◌<◌, length, None};
    ghost use Rattle.outside.specs.Writing.{Writes};
    ghost use Rattle.outside.specs.Outlets.{Passes};

    ghost taken = { λ s. None };

    ghost faults = { λ s. s.calls.faults };

    fn write(&mut self, piece: &[u8]) -> WriteAnswer
        requires some { 0 < length piece.now }
        ensures passes { Passes self.old piece.now result self.new }
        ensures writes { Writes None self.old.calls.faults piece.now result None
            self.new.calls.faults }
    {
        if self.calls.begin() {
            return self.calls.fail_write();
        }
        let count = self.piece.min(piece.len());
        match self.replies.append(&self.rt, self.at, &piece[..count]) {
            Ok(()) => WriteAnswer::Took(count),
            Err(_) => self.calls.fail_write(),
        }
    }
}
