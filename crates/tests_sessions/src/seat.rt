//! A place at the cells of a server.

ghost use Rattle.tests_sessions.specs.Desks.{Open};

use crate::desk::Desk;
use shared_state::{Passes, Shared};
use std::marker::Model;
use worker::Worker;

/// Cells, and passes by which one thread uses them. That its calls may be made is true of every seat, so
/// contracts see nothing of it.
#[derive(Drop)]
pub(crate) struct Seat<'a> {
    shared: &'a Shared,
    passes: Passes,
}

impl<'a> Model for Seat<'a> {
    ghost use Rattle.std.specs.Prelude.{ℕ};

    ghost Value = { ℕ };

    ghost use Rattle.tests_sessions.specs.Desks.{Open};

    ghost view = { λ seat. 0 };

    ghost invariant = { λ seat. Open seat.shared.now seat.passes };
}

impl<'a> Seat<'a> {
    /// A seat at these cells.
    pub fn new(shared: &'a Shared, passes: Passes) -> Seat<'a>
        requires { Open shared.now passes }
    {
        Seat { shared, passes }
    }

    /// A worker of this number, which ran nothing yet, on this seat.
    pub fn desk(self, number: u16) -> Desk<'a> {
        let Seat { shared, passes } = self;
        Desk::new(shared, passes, Worker::new(number))
    }
}
