//! The lines of events.

ghost use Rattle.std.specs.Prelude.{◌≡◌};
ghost use Rattle.rehearse.specs.Numbers.{Finds};
ghost use Rattle.rehearse.specs.Reading.{IsHead, IsActor, PageAt, ConnectAt, head_block, SizeOf};

use crate::cut::cut_at;
use crate::keyword::{Keyword, find_keyword};
use crate::number::{read_length, read_number};
use txt_core::MOST_BYTES;

/// The most bytes of a page.
const MOST_PAGE: u64 = MOST_BYTES as u64;

/// The most bytes of a block that is run.
const MOST_BLOCK: u64 = 8_388_608;

/// The most bytes of a connection's input.
const MOST_INPUT: u64 = 16_777_216;

/// The word of the scheduler.
const SCHEDULER: &[u8] = b"s";

/// Who takes steps.
#[derive(Clone, Copy, Debug, PartialEq, Eq)]
pub enum Actor {
    /// The worker of this number.
    Worker(u64),
    Scheduler,
}

/// The line of an event, with the length of the block that follows, where there is one.
#[derive(Clone, Copy, Debug)]
pub enum Head<'a> {
    Workers(u64),
    Clock(u64),
    Page(&'a [u8], usize),
    Define(usize),
    Connect(u64, usize),
    Step(Actor),
    Run(Actor),
}

/// The actor that a word names; `None` where it names none by a number of at most twelve digits.
fn read_actor(word: &[u8]) -> Option<Actor>
    ensures { Finds (λ actor. IsActor actor word.now) result }
{
    if word == SCHEDULER {
        return Some(Actor::Scheduler);
    }
    Some(Actor::Worker(read_number(word)?))
}

/// A path and the length of its page, which are the last words of a line.
fn read_page(words: &[u8]) -> Option<Head<'_>>
    ensures { Finds (λ head. PageAt head words.now) result }
{
    let (path, size) = cut_at(words, b' ')?;
    if path.first() != Some(&b'/') {
        return None;
    }
    Some(Head::Page(path, read_length(size, MOST_PAGE)?))
}

/// A worker's number and the length of an input, which are the last words of a line.
fn read_connect(words: &[u8]) -> Option<Head<'_>>
    ensures { Finds (λ head. ConnectAt head words.now) result }
{
    let (number, size) = cut_at(words, b' ')?;
    let number = read_number(number)?;
    Some(Head::Connect(number, read_length(size, MOST_INPUT)?))
}

/// What a line without its newline says; `None` where it is no event's, or one that never comes: with a
/// number of more than twelve digits, with a block that is too long, or with a path that is none.
pub fn read_head(line: &[u8]) -> Option<Head<'_>>
    ensures { Finds (λ head. IsHead head line.now) result }
{
    let (name, words) = cut_at(line, b' ')?;
    match find_keyword(name)? {
        Keyword::Workers => Some(Head::Workers(read_number(words)?)),
        Keyword::Clock => Some(Head::Clock(read_number(words)?)),
        Keyword::Page => read_page(words),
        Keyword::Define => Some(Head::Define(read_length(words, MOST_BLOCK)?)),
        Keyword::Connect => read_connect(words),
        Keyword::Step => Some(Head::Step(read_actor(words)?)),
        Keyword::Run => Some(Head::Run(read_actor(words)?)),
    }
}

impl Head<'_> {
    /// The length of the block; `None` where there is none.
    fn block(&self) -> Option<usize>
        ensures { result ≡ head_block self.now }
    {
        match self {
            Head::Page(_, size) | Head::Define(size) | Head::Connect(_, size) => Some(*size),
            Head::Workers(_) | Head::Clock(_) | Head::Step(_) | Head::Run(_) => None,
        }
    }
}

/// How many bytes the event of a line has, with both its newlines; `None` where the line is none.
pub fn event_size(line: &[u8]) -> Option<usize>
    ensures { Finds (SizeOf line.now) result }
{
    let behind = match read_head(line)?.block() {
        Some(size) => size + 1,
        None => 0,
    };
    Some(line.len() + 1 + behind)
}
