//! A source that counts its calls.

use outside::{ReadAnswer, Source};
use std::alloc::Global;
use txt_core::{NoMemory, Text};

/// A source of these bytes, at most so many a call. No call goes past the cut, and one may fail.
#[derive(Drop)]
pub struct Pieces {
    content: Text,
    given: usize,
    piece: usize,
    cut: usize,
    pub calls: usize,
    fails_at: usize,
}

impl Pieces {
    /// A source of a copy of these bytes, at most so many a call.
    pub fn new(
        alloc: Global,
        content: &Text,
        piece: usize,
        cut: usize,
        fails_at: usize,
    ) -> Result<Pieces, NoMemory> {
        Ok(Pieces {
            content: content.copy(alloc)?,
            given: 0,
            piece,
            cut,
            calls: 0,
            fails_at,
        })
    }
}

impl Source for Pieces {
    ghost use Rattle.std.specs.Prelude.{None};
    ghost use Rattle.outside.specs.Faults.{last_count};

    ghost rest = { λ s. None };

    ghost faults = { λ s. last_count };

    fn read(&mut self, into: &mut [u8]) -> ReadAnswer {
        let call = self.calls;
        self.calls = call.wrapping_add(1);
        if call == self.fails_at {
            return ReadAnswer::Failed;
        }
        let content = self.content.bytes();
        let given = self.given.min(content.len());
        let end = if given < self.cut {
            self.cut
        } else {
            usize::MAX
        };
        let count = (end.min(content.len()).max(given) - given)
            .min(into.len())
            .min(self.piece);
        into[..count].copy_from_slice(&content[given..given + count]);
        self.given = given + count;
        ReadAnswer::Bytes(count)
    }
}
