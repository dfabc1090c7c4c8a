//! What the server is told to do.

ghost use Rattle.std.specs.Prelude.{◌≡◌};
ghost use Rattle.serve_options.specs.declared.options.Refused.TheVariants as refused;

use std::alloc::AllocError;
use txt_core::{NoMemory, Text};

/// What the server is told to do.
#[derive(Drop)]
pub struct Options {
    /// The folder of the pages.
    pub root: Text,
    /// The page of the script that runs first.
    pub start: Text,
    /// The address at which it listens.
    pub listen: Text,
    /// How many workers serve connections.
    pub workers: u16,
    /// How many connections wait for a worker at most.
    pub queue: u16,
    /// After how many connections it ends; at 0 it goes on.
    pub connections: u32,
}

/// Why words are refused.
#[derive(Clone, Copy, Debug, PartialEq, Eq)]
pub enum Refused {
    /// They aren't the words of a command.
    BadWords,
    /// Memory ran out.
    NoMemory,
}

impl From<NoMemory> for Refused {
    ghost from_gives = { λ _ e. e ≡ refused.NoMemory };

    fn from(_error: NoMemory) -> Refused {
        Refused::NoMemory
    }
}

impl From<AllocError> for Refused {
    ghost from_gives = { λ _ e. e ≡ refused.NoMemory };

    fn from(_error: AllocError) -> Refused {
        Refused::NoMemory
    }
}
