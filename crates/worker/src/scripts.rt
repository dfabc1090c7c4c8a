//! What is told of scripts.

use crate::heard::AnswerList;
use crate::stock::Stock;
use tcl_eval::Outcome;
use txt_core::Text;

/// What is told of a script that was due.
#[derive(Debug, Drop)]
pub struct Ran {
    /// The id of its entry in the schedule.
    pub id: u64,
    /// The place of its look in the history of the blueprint; 0 where it had no look that was answered.
    pub turn: u64,
    /// The epoch of the blueprint that it found; 0 where it had no look that was answered.
    pub epoch: u64,
    /// Its moment, in seconds since 1970.
    pub moment: u64,
    /// What its questions were answered, in order.
    pub answers: AnswerList,
    /// How it ended; never at a question.
    pub outcome: Outcome,
}

/// What is told of the scripts that were due, in order.
pub type RanList = Stock<Ran>;

/// What came of asking for what is due.
#[derive(Debug, Drop)]
pub enum DueRun {
    /// These scripts were due and were run.
    Ran(RanList),
    /// The schedule was stopped.
    Stopped,
    /// Memory ran out before a script was run.
    NoMemory,
}

/// How a definition run ended.
#[derive(Debug, Drop)]
pub enum EvalEnd {
    /// Well. This is the epoch of what it published, or that of its look where it published nothing.
    Done { epoch: u64 },
    /// With this error.
    Error(Text),
    /// It cost more than its budget.
    Spent,
    /// A script stood too deep.
    TooDeep,
    /// Memory ran out.
    NoMemory,
}

/// What is told of a definition run.
#[derive(Debug, Drop)]
pub struct Evaled {
    /// The place of its look in the history of the blueprint; 0 where it had no look that was answered.
    pub turn: u64,
    /// The epoch of the blueprint that it found; 0 where it had no look that was answered.
    pub epoch: u64,
    /// What its questions were answered, in order.
    pub answers: AnswerList,
    pub outcome: EvalEnd,
}
