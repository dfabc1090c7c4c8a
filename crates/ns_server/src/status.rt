//! How a run of the program ends.

ghost use Rattle.std.specs.Prelude.{◌≡◌};
ghost use Rattle.ns_server.specs.Statuses.{number_of, line_of};

use arrayvec::ArrayString;
use itoa::Buffer;
use rehearse::Rehearsal;
use serve_run::{BAD_WORDS, OUT_OF_MEMORY};

/// The bytes of the longest line: `bad event `, a number of 64 bits and a newline.
const LONGEST_LINE: usize = 31;

/// How a run of the program ended.
#[derive(Clone, Copy, Debug, PartialEq, Eq)]
pub enum Status {
    /// All was read and written.
    Done,
    /// The event of this number, counted from 1, is none.
    BadEvent { event: u64 },
    /// The words of the command line are no command.
    BadWords,
    /// The input failed.
    ReadFault,
    /// The output failed.
    WriteFault,
    /// Memory ran out.
    NoMemory,
}

impl Status {
    /// The number with which the program ends.
    pub fn number(self) -> u8
        ensures { result ≡ number_of self }
    {
        match self {
            Status::Done => 0,
            Status::BadEvent { .. } => 1,
            Status::BadWords => 2,
            Status::ReadFault => 3,
            Status::WriteFault => 4,
            Status::NoMemory => 5,
        }
    }

    /// The line that is written on errors, with its newline; empty where all went well. It takes no memory.
    pub fn line(self) -> ArrayString<LONGEST_LINE>
        ensures { result.bytes ≡ line_of self }
    {
        let mut line = ArrayString::new();
        match self {
            Status::Done => {}
            Status::BadEvent { event } => {
                let mut digits = Buffer::new();
                line.push_str("bad event ");
                line.push_str(digits.format(event));
                line.push_str("\n");
            }
            Status::BadWords => line.push_str(BAD_WORDS),
            Status::ReadFault => line.push_str("read fault\n"),
            Status::WriteFault => line.push_str("write fault\n"),
            Status::NoMemory => line.push_str(OUT_OF_MEMORY),
        }
        line
    }
}

impl From<Rehearsal> for Status {
    ghost use Rattle.ns_server.specs.Answers.{status_of};

    ghost from_gives = { λ rehearsal status. status ≡ status_of rehearsal };

    fn from(rehearsal: Rehearsal) -> Status {
        match rehearsal {
            Rehearsal::Done => Status::Done,
            Rehearsal::BadEvent { event } => Status::BadEvent { event },
            Rehearsal::ReadFault => Status::ReadFault,
            Rehearsal::WriteFault { .. } => Status::WriteFault,
            Rehearsal::NoMemory => Status::NoMemory,
        }
    }
}
