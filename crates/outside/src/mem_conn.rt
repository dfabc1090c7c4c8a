//! A connection to come.

ghost use Rattle.std.specs.Prelude.{◌≡◌, ◌≤◌};

use txt_core::Text;

/// A connection to come of a net in memory.
#[derive(Drop)]
pub struct MemConn {
    /// All that its peer sends.
    pub input: Text,
    /// The peer's name.
    pub peer: Text,
    /// The most bytes of one read or write, at least 1.
    pub piece: usize,
    /// The numbers of the reads that are to fail, from 0.
    pub reads: Vec<u64>,
    /// The numbers of the writes that are to fail, from 0.
    pub writes: Vec<u64>,
    pub ghost some: { 1 ≤ piece },
}
