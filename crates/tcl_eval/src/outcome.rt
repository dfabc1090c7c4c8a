//! What a run begins with, and what it comes to.

use adp_parse::Pieces;
use outside::Question;
use txt_core::{Text, Words};

/// What is run.
#[derive(Debug, Drop)]
pub enum Work {
    /// A script.
    Script(Text),
    /// A command, by its words.
    Call(Words),
    /// The pieces of a page, which the host has opened.
    Page(Pieces),
}

/// What a run comes to.
#[derive(Debug, Drop)]
pub enum Outcome {
    /// It ended with this code and result: 0 is a good end, 1 an error, 2 a return, 3 a break, 4 a
    /// continue; 5, 6 and 7 leave a page.
    Done { code: u8, result: Text },
    /// It stands at this question.
    Asks(Question),
    /// It ended where a cost was more than what was left of its budget.
    Spent,
    /// It ended where a script stood too deep.
    TooDeep,
    /// Memory ran out.
    NoMemory,
}
