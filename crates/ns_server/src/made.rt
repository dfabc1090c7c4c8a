//! The file of a load as a source.

ghost use Rattle.std.specs.Prelude.{◌≡◌, ◌<◌, ◌≤◌, ◌++◌, [], length, take, OnOk, OnErr};
ghost use Rattle.outside.specs.Faults.{Rose};
ghost use Rattle.load_gen.specs.Load.{load_file, most_requests};

use load_gen::Pieces;
use outside::{ReadAnswer, Source};
use std::alloc::Global;
use std::marker::Model;
use std::mem;
use txt_core::{NoMemory, Text, Unread};

/// The file of a load, which is made piece by piece as it is read: one piece is held, and the file isn't.
/// It fails for want of memory alone, which counts as a fault. Contracts see what is at hand, what is made
/// behind it, and the faults.
#[derive(Debug, Drop)]
pub struct MadeFile {
    alloc: Global,
    pieces: Pieces,
    /// What is left of the piece that was made last.
    piece: Unread,
    faults: u64,
}

impl Model for MadeFile {
    ghost use Rattle.ns_server.specs.Made.{Made};

    ghost Value = { Made };

    ghost view = { λ a. record { at_hand = a.piece; behind = a.pieces; faults = a.faults } };
}

impl MadeFile {
    /// The file of so many connections, from 1 to 100,000, of which nothing was made.
    pub fn new(alloc: Global, requests: u32) -> MadeFile
        requires { requests ≤ most_requests }
        ensures { result ≡ record { at_hand = []; behind = load_file requests; faults = 0 } }
    {
        MadeFile {
            alloc,
            pieces: Pieces::new(requests),
            piece: Unread::new(Text::empty(alloc)),
            faults: 0,
        }
    }

    /// Makes the next piece, where nothing is at hand. The only error is want of memory, which counts as a
    /// fault.
    fn fill(&mut self) -> Result<(), NoMemory>
        ensures rest { self.new.at_hand ++ self.new.behind ≡ self.old.at_hand ++ self.old.behind }
        ensures some { OnOk result (self.new.at_hand ≡ [] → self.new.behind ≡ []) }
        ensures kept { self.old.faults ≤ self.new.faults }
        ensures rose { OnErr result (Rose self.old.faults self.new.faults) }
    {
        if self.piece.left().is_empty() {
            match self.pieces.next_piece(self.alloc) {
                Ok(piece) => {
                    drop(mem::replace(&mut self.piece, Unread::new(piece)));
                    Ok(())
                }
                Err(want) => {
                    self.faults = self.faults.saturating_add(1);
                    Err(want)
                }
            }
        } else {
            Ok(())
        }
    }

    /// Puts what is at hand at the front of the buffer, as much as fits.
    fn give(&mut self, into: &mut [u8]) -> usize
        requires room { 0 < length into.old }
        ensures fits { result ≤ length into.old }
        ensures length { length into.new ≡ length into.old }
        ensures gives { self.old.at_hand ≡ take result into.new ++ self.new.at_hand }
        ensures some { result ≡ 0 → self.old.at_hand ≡ [] }
        ensures behind { (self.new.behind ≡ self.old.behind) × (self.new.faults ≡ self.old.faults) }
    {
        let most = into.len();
        self.piece.take_into(into, most)
    }
}

impl Source for MadeFile {
    ghost use Rattle.std.specs.Prelude.{◌++◌, Some};

    ghost rest = { λ s. Some (s.at_hand ++ s.behind) };

    ghost faults = { λ s. s.faults };

    fn read(&mut self, into: &mut [u8]) -> ReadAnswer {
        match self.fill() {
            Ok(()) => ReadAnswer::Bytes(self.give(into)),
            Err(NoMemory) => ReadAnswer::Failed,
        }
    }
}
