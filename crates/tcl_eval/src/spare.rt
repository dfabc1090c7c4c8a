//! Room for the values of commands, which is used again.

ghost use Rattle.std.specs.Prelude.{◌≡◌, []};

use crate::gather::Gathered;
use std::alloc::Global;
use std::marker::Model;

/// How many rooms are kept at most: those of a command, and of the brackets in its words.
const MOST_ROOMS: usize = 4;

/// How many values there are at most whose room is kept.
const MOST_VALUES: usize = 16;

/// Room for values, without any. Contracts see nothing of it.
#[derive(Drop)]
struct Room {
    values: Gathered,
}

impl Model for Room {
    ghost use Rattle.std.specs.Prelude.{⊤, ◌≡◌, []};

    ghost Value = { ⊤ };

    ghost view = { λ _. tt };

    ghost invariant = { λ a. a.values ≡ [] };
}

impl Room {
    /// The room of these values, which are let go.
    fn of(mut values: Gathered) -> Room {
        values.clear();
        Room { values }
    }

    /// No values, in this room.
    fn values(self) -> Gathered
        ensures { result ≡ [] }
    {
        self.values
    }
}

/// Room of commands that were done. Contracts see nothing of it, as no run can tell where values stand.
#[derive(Drop)]
pub(crate) struct Spare {
    rooms: Vec<Room>,
}

impl Model for Spare {
    ghost use Rattle.std.specs.Prelude.{⊤};

    ghost Value = { ⊤ };

    ghost view = { λ _. tt };
}

impl Spare {
    /// No room yet. It takes no memory.
    pub(crate) fn new(alloc: Global) -> Spare {
        Spare {
            rooms: Vec::new(alloc),
        }
    }

    /// No values, in room that was used before where there is any. It takes no memory.
    #[inline(always)]
    pub(crate) fn take(&mut self, alloc: Global) -> Gathered
        ensures { result ≡ [] }
    {
        match self.rooms.pop() {
            Some(room) => room.values(),
            None => Gathered::new(alloc),
        }
    }

    /// Lets values go and keeps their room, where it isn't much and there isn't enough of it. Where memory
    /// wants, it isn't kept.
    pub(crate) fn put(&mut self, values: Gathered) {
        if values.len() > MOST_VALUES || self.rooms.len() >= MOST_ROOMS {
            return;
        }
        let _kept = self.rooms.push(Room::of(values));
    }
}
