//! How rehearsals end.

/// How a rehearsal ended.
#[derive(Clone, Copy, Debug, PartialEq, Eq)]
pub enum Rehearsal {
    /// The input was read to its end, and the listing of its events was written.
    Done,
    /// The event of this number, counted from 1, is none. The listing of those before it was written.
    BadEvent { event: u64 },
    /// The source failed. The listing of the whole events that it had given by then was written.
    ReadFault,
    /// The sink failed when it had taken so many bytes of the listing, and fewer than all.
    WriteFault { sent: u64 },
    /// Memory ran out. The listing of some first events was written.
    NoMemory,
}
