//! The file of a load, piece by piece.

ghost use Rattle.std.specs.Prelude.{◌≡◌, ◌≤◌, ◌++◌, [], length, IfOk, OnErr};
ghost use Rattle.load_gen.specs.Load.{load_file, most_requests, piece_limit};

use crate::{BACK, FRONT, push_rounds};
use std::alloc::Global;
use std::marker::Model;
use txt_core::{NoMemory, Text};

/// The most connections of a piece. Each of them has at most 92 bytes.
const AT_ONCE: u32 = 512;

/// What comes next.
#[derive(Clone, Copy, Debug, PartialEq, Eq)]
enum Part {
    /// The events in front.
    Front,
    /// The connections that are still to come, and behind the last of them the events at the end.
    Rounds,
    /// Nothing: the file is at its end.
    Nothing,
}

/// The file of so many connections, made piece by piece in order, so that nobody has to hold it. Contracts
/// see the bytes that are still to come.
#[derive(Debug, Drop)]
pub struct Pieces {
    part: Part,
    /// How many connections are still to come.
    left: u32,
    /// The number of the first of these, counted from 1.
    number: u32,
    /// The number that was drawn last.
    drawn: u64,
}

impl Model for Pieces {
    ghost use Rattle.std.specs.Prelude.{◌<◌, ◌≤◌, ◌+◌};
    ghost use Rattle.std.specs.Coded.{coded_list, coded_ℕ};
    ghost use Rattle.txt_core.specs.Names.{Bytes};
    ghost use Rattle.load_gen.specs.Load.{most_requests};
    ghost use Rattle.load_gen.specs.Parts.{still};

    ghost Value = { Bytes };

    ghost coded = { coded_list coded_ℕ };

    ghost view = { λ a. still a.part a.left a.number a.drawn };

    ghost invariant = { λ a. (a.number + a.left ≤ most_requests + 1) × (a.drawn < 2147483648) };
}

impl Pieces {
    /// The file of so many connections, at most 100,000, of which nothing was made.
    pub fn new(n: u32) -> Pieces
        requires { n ≤ most_requests }
        ensures { result ≡ load_file n }
    {
        Pieces {
            part: Part::Front,
            left: n,
            number: 1,
            drawn: u64::from(n),
        }
    }

    /// Makes the next piece, of at most 48,000 bytes. It is empty only where nothing was to come. The only
    /// error is want of memory, and what is to come is then as it was.
    pub fn next_piece(&mut self, alloc: Global) -> Result<Text, NoMemory>
        ensures piece { IfOk result (λ piece. self.old ≡ piece ++ self.new) }
        ensures some { IfOk result (λ piece. piece ≡ [] → self.old ≡ []) }
        ensures short { IfOk result (λ piece. length piece ≤ piece_limit) }
        ensures err { OnErr result (self.new ≡ self.old) }
    {
        match self.part {
            Part::Front => {
                let piece = Text::new(alloc, FRONT)?;
                self.part = Part::Rounds;
                Ok(piece)
            }
            Part::Rounds if self.left == 0 => {
                let piece = Text::new(alloc, BACK)?;
                self.part = Part::Nothing;
                Ok(piece)
            }
            Part::Rounds => {
                let count = self.left.min(AT_ONCE);
                let mut piece = Text::empty(alloc);
                let drawn = push_rounds(alloc, &mut piece, self.drawn, self.number, count)?;
                self.drawn = drawn;
                self.number += count;
                self.left -= count;
                Ok(piece)
            }
            Part::Nothing => Ok(Text::empty(alloc)),
        }
    }
}
