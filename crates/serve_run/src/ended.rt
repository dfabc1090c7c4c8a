//! How a run of the server ends.

ghost use Rattle.std.specs.Prelude.{◌≡◌, ◌++◌, IfOk, codes};
ghost use Rattle.outside.specs.Sending.{Sends};
ghost use Rattle.outside.specs.declared.sending.Sent.{Sent};
ghost use Rattle.serve_run.specs.Statuses.{number_of, start_text, line_of, IsTold};

use ictl::{BUDGET_SPENT, NESTING_TOO_DEEP};
use outside::{Sink, write_all};
use std::alloc::Global;
use txt_core::error_text::{no_page, page_fault, page_too_long};
use txt_core::{NoMemory, Text};

/// The line that is written on errors where the words of the command line are no command.
pub const BAD_WORDS: &str = "bad words\n";

/// The line that is written on errors where memory ran out.
pub const OUT_OF_MEMORY: &str = "out of memory\n";

/// What kept the start script from its good end.
#[derive(Debug, Drop)]
pub enum StartFault {
    /// There is no page at its path.
    NoPage,
    /// Its page couldn't be read.
    Unreadable,
    /// Its page has more than 1,048,576 bytes.
    TooLong,
    /// It ended with this error.
    Error(Text),
    /// It cost more than its budget.
    Spent,
    /// A script stood too deep.
    TooDeep,
}

/// How a run of the server ended.
#[derive(Debug, Drop)]
pub enum Ended {
    /// The net has ended, or as many connections were given as were asked for.
    Done,
    /// The words of the command line are faulty.
    BadWords,
    /// Memory ran out.
    NoMemory,
    /// The start script, which stands at this path, had no good end.
    BadStart { path: Text, fault: StartFault },
    /// The net failed to listen or to accept.
    NetFault,
}

impl StartFault {
    /// What is said of it on errors, where the start script stands at this path.
    fn text(&self, alloc: Global, path: &Text) -> Result<Text, NoMemory>
        ensures { IfOk result (λ text. text ≡ start_text path.now self.now) }
    {
        match self {
            StartFault::NoPage => no_page(alloc, path.bytes()),
            StartFault::Unreadable => page_fault(alloc, path.bytes()),
            StartFault::TooLong => page_too_long(alloc, path.bytes()),
            StartFault::Error(text) => text.copy(alloc),
            StartFault::Spent => Text::new(alloc, BUDGET_SPENT),
            StartFault::TooDeep => Text::new(alloc, NESTING_TOO_DEEP),
        }
    }
}

impl Ended {
    /// The number with which the program ends.
    pub fn number(&self) -> u8
        ensures { result ≡ number_of self.now }
    {
        match self {
            Ended::Done => 0,
            Ended::BadWords => 2,
            Ended::NoMemory => 5,
            Ended::BadStart { .. } => 6,
            Ended::NetFault => 7,
        }
    }

    /// The line that is written on errors, with its newline; empty where all went well.
    pub fn line(&self, alloc: Global) -> Result<Text, NoMemory>
        ensures { IfOk result (λ line. line ≡ line_of self.now) }
    {
        match self {
            Ended::Done => Ok(Text::empty(alloc)),
            Ended::BadWords => Text::new(alloc, BAD_WORDS.as_bytes()),
            Ended::NoMemory => Text::new(alloc, OUT_OF_MEMORY.as_bytes()),
            Ended::BadStart { path, fault } => start_line(alloc, path, fault),
            Ended::NetFault => Text::new(alloc, b"net fault\n"),
        }
    }
}

/// The line for what kept the start script at this path from its good end.
fn start_line(alloc: Global, path: &Text, fault: &StartFault) -> Result<Text, NoMemory>
    ensures { IfOk result (λ line.
        line ≡ codes "start: " ++ start_text path.now fault.now ++ codes "\n") }
{
    let text = fault.text(alloc, path)?;
    let mut line = Text::new(alloc, b"start: ")?;
    line.append(text.bytes())?;
    line.append(b"\n")?;
    Ok(line)
}

/// Writes the line of an end on errors, and gives the number of its status. Where there is no memory for
/// the line, the end is want of memory. A fault of errors changes no status.
pub(crate) fn report<E: Sink>(alloc: Global, ended: &Ended, errors: &mut E) -> u8
    ensures { (told : Ended) × IsTold ended.now told × (result ≡ number_of told)
        × (sent : Sent)
        × Sends (E.taken errors.old) (E.faults errors.old) (line_of told) sent (E.taken errors.new)
        (E.faults errors.new) }
{
    match ended.line(alloc) {
        Ok(line) => {
            let _ = write_all(errors, line.bytes());
            ended.number()
        }
        Err(_) => {
            let _ = write_all(errors, OUT_OF_MEMORY.as_bytes());
            Ended::NoMemory.number()
        }
    }
}
