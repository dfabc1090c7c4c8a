//! What is asked of a schedule, and what it answers.

use txt_core::{Sequence, Text};

/// A call on a schedule. Moments are seconds since the beginning of 1970.
#[derive(Drop)]
pub enum SchedCall {
    /// Puts in an entry made at `moment`: its script is due `seconds` later, and then every
    /// `seconds` again, unless it is to run `once`.
    Add {
        moment: u64,
        seconds: u64,
        once: bool,
        script: Text,
    },
    /// Takes out the entry of this id.
    Cancel(u64),
    /// Asks for the scripts that are due at this moment, and moves their entries on.
    Due(u64),
    /// Stops the schedule: from then on nothing is due.
    Stop,
}

/// What a schedule answers.
#[derive(Drop)]
pub enum SchedReply {
    /// To `Add`: the new entry's id.
    Id(u64),
    /// To `Cancel`: no entry has this id.
    NoId,
    /// To `Add`: there are 10,000 entries, or no id is left.
    Full,
    /// To `Cancel`: the entry is out.
    Cancelled,
    /// To `Due`: what is due, by due moment and then by id.
    Due(DueList),
    /// To `Stop`, and to `Due` after it.
    Stopped,
    /// To `Add` and `Due`: memory ran out, and the schedule is as it was.
    NoMemory,
}

/// A script that is due, with its entry's id.
#[derive(Drop)]
pub struct DueScript {
    pub id: u64,
    pub script: Text,
}

/// The scripts that are due, in order.
pub type DueList = Sequence<DueScript>;
