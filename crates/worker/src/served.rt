//! What a session tells.

use crate::heard::AnswerList;
use crate::stock::Stock;

/// How the run of a request ended.
#[derive(Clone, Copy, Debug, PartialEq, Eq)]
pub enum ServedOutcome {
    /// It came to its end, well or not; or to its response, behind which nothing ran, where the sink
    /// failed in that.
    Answered,
    /// It cost more than its budget, before its response or behind it.
    Spent,
    /// A script stood too deep, before its response or behind it.
    TooDeep,
    /// Memory ran out.
    NoMemory,
}

/// What is told of a request that was served.
#[derive(Debug, Drop)]
pub struct Served {
    /// The place of its look in the history of the blueprint.
    pub turn: u64,
    /// The epoch of the blueprint that it found.
    pub epoch: u64,
    /// Its moment, in seconds since 1970.
    pub moment: u64,
    /// What its questions were answered, in order.
    pub answers: AnswerList,
    pub outcome: ServedOutcome,
    /// How many bytes of its reply were written.
    pub wrote: u64,
}

/// What is told of the requests of a session, in order.
pub type ServedList = Stock<Served>;

/// How a session ended.
#[derive(Clone, Copy, Debug, PartialEq, Eq)]
pub enum End {
    /// No byte is left.
    Ended,
    /// The last request asked to close, or was of HTTP/1.0.
    Closing,
    /// So many bytes are left, which are less than a request.
    Truncated { have: u64 },
    /// What came next is refused with this status, and the reply of that was written.
    Refused { status: u16 },
    /// The last request was the hundredth, or the answers passed 8,388,608 bytes.
    Spent,
    /// The source failed.
    ReadFault,
    /// The sink failed when it had taken so many bytes of a reply, and fewer than all.
    WriteFault { sent: u64 },
    /// Memory ran out.
    NoMemory,
}

/// A session: how it ended, and what was served.
#[derive(Debug, Drop)]
pub struct Session {
    pub end: End,
    pub served: ServedList,
}
