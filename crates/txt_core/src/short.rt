//! A few bytes, which stand in place.

ghost use Rattle.std.specs.Prelude.{◌≡◌, ◌++◌, [], IfSome, true, false};

use std::alloc::Global;
use std::marker::Model;

/// How many bytes stand in place at most. With them, and how many they are, a text is as big as with a
/// buffer, and each number of 64 bits is short.
pub const MOST_SHORT: usize = 23;

/// A few bytes, which stand in the value itself. Contracts see the list of them.
#[derive(Debug, Drop)]
pub struct Short {
    bytes: [u8; MOST_SHORT],
    len: u8,
    /// Takes no room, but the value stands where 64-bit words may stand, so that a move copies words.
    aligned: [u64; 0],
    alloc: Global,
}

impl Model for Short {
    ghost use Rattle.std.specs.Prelude.{◌≡◌, ◌≤◌, length, take};
    ghost use Rattle.std.specs.Coded.{coded_list, coded_ℕ};
    ghost use Rattle.txt_core.specs.Names.{Bytes};

    ghost Value = { Bytes };

    ghost coded = { coded_list coded_ℕ };

    ghost view = { λ a. take a.len a.bytes };

    ghost invariant = { λ a. (a.len ≤ 23) × (length a.bytes ≡ 23) };
}

impl Short {
    /// No bytes.
    pub fn empty(alloc: Global) -> Short
        ensures { result ≡ [] }
    {
        Short {
            alloc,
            len: 0,
            aligned: [],
            bytes: [0; MOST_SHORT],
        }
    }

    /// A copy of these bytes, where they are few.
    pub fn new(alloc: Global, bytes: &[u8]) -> Option<Short>
        ensures { IfSome result (λ short. short ≡ bytes.now) }
    {
        let mut short = Short::empty(alloc);
        if !short.append(bytes) {
            return None;
        }
        Some(short)
    }

    /// The same bytes once more.
    pub fn copy(&self) -> Short
        ensures { result ≡ self.now }
    {
        Short {
            alloc: self.alloc,
            len: self.len,
            aligned: [],
            bytes: self.bytes,
        }
    }

    /// What a buffer for more bytes is taken from.
    pub fn allocator(&self) -> Global {
        self.alloc
    }

    /// Its bytes.
    pub fn as_slice(&self) -> &[u8]
        ensures { result.now ≡ self.now }
    {
        &self.bytes[..self.len as usize]
    }

    /// Puts bytes at the end where they fit, and says whether they do. Where they don't, nothing
    /// changes.
    pub fn append(&mut self, more: &[u8]) -> bool
        ensures fits { result ≡ true → self.new ≡ self.old ++ more.now }
        ensures full { result ≡ false → self.new ≡ self.old }
    {
        let start = self.len as usize;
        if more.len() > MOST_SHORT - start {
            return false;
        }
        let end = start + more.len();
        self.bytes[start..end].copy_from_slice(more);
        self.len = end as u8;
        true
    }

    /// Lets all bytes go.
    pub fn clear(&mut self)
        ensures { self.new ≡ [] }
    {
        self.len = 0;
    }
}
