//! A text that is taken from its front.

ghost use Rattle.std.specs.Prelude.{◌≡◌, ◌≤◌, ◌++◌, drop, length, min, take};

use crate::text::Text;
use std::marker::Model;

/// A text that is taken from its front. Contracts see the bytes that are left.
#[derive(Debug, Drop)]
pub struct Unread {
    text: Text,
    /// How many bytes were taken.
    taken: usize,
}

impl Model for Unread {
    ghost use Rattle.std.specs.Prelude.{◌≤◌, drop, length};
    ghost use Rattle.std.specs.Coded.{coded_list, coded_ℕ};
    ghost use Rattle.txt_core.specs.Names.{Bytes};

    ghost Value = { Bytes };

    ghost coded = { coded_list coded_ℕ };

    ghost view = { λ a. drop a.taken a.text };

    ghost invariant = { λ a. a.taken ≤ length a.text };
}

impl Unread {
    /// A text of which nothing was taken.
    pub fn new(text: Text) -> Unread
        ensures { result ≡ text }
    {
        Unread { text, taken: 0 }
    }

    /// The bytes that are left.
    pub fn left(&self) -> &[u8]
        ensures { result.now ≡ self.now }
    {
        &self.text.bytes()[self.taken..]
    }

    /// Passes over the first bytes.
    pub fn pass(&mut self, count: usize)
        requires { count ≤ length self.old }
        ensures { self.new ≡ drop count self.old }
    {
        let len = self.text.len();
        prove!(self.taken + count <= len);
        self.taken += count;
    }

    /// Moves the first bytes to the front of a buffer, at most so many, as many as there are and fit. It
    /// gives how many these were.
    pub fn take_into(&mut self, buffer: &mut [u8], most: usize) -> usize
        ensures count { result ≡ min most (min (length buffer.old) (length self.old)) }
        ensures filled { buffer.new ≡ take result self.old ++ drop result buffer.old }
        ensures left { self.new ≡ drop result self.old }
    {
        let left = self.left();
        let count = most.min(buffer.len()).min(left.len());
        buffer[..count].copy_from_slice(&left[..count]);
        self.pass(count);
        count
    }
}
