//! Events as a file spells them.

ghost use Rattle.std.specs.Prelude.{◌≡◌, Some, length};
ghost use Rattle.std.specs.Option.{option_copied, option_map};
ghost use Rattle.rehearse.specs.Events.{spelled, block_of, block_end};
ghost use Rattle.rehearse.specs.Numbers.{Finds};
ghost use Rattle.rehearse.specs.Reading.{IsShort, HasHead, event_of};

use crate::cut::cut_at;
use crate::head::{Actor, Head, read_head};

/// The byte of a file past which no event may go.
pub const MOST_FILE: usize = 67_108_864;

/// An event.
#[derive(Clone, Copy, Debug)]
pub enum Event<'a> {
    /// Says how many workers there are.
    Workers(u64),
    /// Sets the moment that the clock shows, in seconds since 1970.
    Clock(u64),
    /// Sets the page of a path.
    Page(&'a [u8], &'a [u8]),
    /// Runs a block as a start script.
    Define(&'a [u8]),
    /// Gives the worker of this number a connection with this input.
    Connect(u64, &'a [u8]),
    /// Lets an actor take one step.
    Step(Actor),
    /// Lets an actor take steps until it is idle.
    Run(Actor),
}

/// The block behind a line, where it has so many bytes and a newline follows, and nothing else.
fn read_block(bytes: &[u8], size: usize) -> Option<&[u8]>
    ensures { Finds (λ block. (length block ≡ size) × (bytes.now ≡ block_end (Some block)))
        (option_copied result) }
{
    let block = bytes.strip_suffix(b"\n")?;
    if block.len() == size {
        Some(block)
    } else {
        None
    }
}

/// The event that stands behind a line; `None` where the block isn't as long as the line says.
fn with_block<'a>(head: Head<'a>, behind: &'a [u8]) -> Option<Event<'a>>
    ensures { Finds (λ e. HasHead head.entry e × (behind.entry.now ≡ block_end (block_of e)))
        (option_map event_of result) }
{
    match head {
        Head::Page(path, size) => Some(Event::Page(path, read_block(behind, size)?)),
        Head::Define(size) => Some(Event::Define(read_block(behind, size)?)),
        Head::Connect(number, size) => Some(Event::Connect(number, read_block(behind, size)?)),
        _ if !behind.is_empty() => None,
        Head::Workers(count) => Some(Event::Workers(count)),
        Head::Clock(moment) => Some(Event::Clock(moment)),
        Head::Step(actor) => Some(Event::Step(actor)),
        Head::Run(actor) => Some(Event::Run(actor)),
    }
}

/// The event that all these bytes spell; `None` where they spell none, or one that never comes.
pub fn read_event(bytes: &[u8]) -> Option<Event<'_>>
    ensures { Finds (λ e. IsShort e × (bytes.now ≡ spelled e)) (option_map event_of result) }
{
    let (line, behind) = cut_at(bytes, b'\n')?;
    let head = read_head(line)?;
    with_block(head, behind)
}
