//! Reading a file in pieces, event by event.

ghost use Rattle.std.specs.Prelude.{◌≡◌, ◌≤◌, ◌<◌, ◌+◌, [], length, take, drop, IfOk, None};
ghost use Rattle.outside.specs.Reading.{Reads};
ghost use Rattle.rehearse.specs.Events.{most_file};
ghost use Rattle.rehearse.specs.Playing.{stop_of, Fetches, Took, FindsLine, HasBytes, FindsEvent, rehearsal_end};

use crate::answer::Rehearsal;
use crate::cut::cut_at;
use crate::event::MOST_FILE;
use crate::head::event_size;
use outside::{ReadAnswer, Source, count_of, read_behind};
use std::alloc::Global;
use std::marker::Model;
use txt_core::NoMemory;

/// The most bytes that are asked of the source at once.
const PIECE_SIZE: usize = 65_536;

/// Why no more is read.
#[derive(Clone, Copy, Debug, PartialEq, Eq)]
pub enum Stopped {
    /// The input ended.
    AtEnd,
    /// The source failed.
    AtFault,
}

/// What was read of a file and not played yet. Contracts see these bytes, the place of the file at which
/// they begin, and why no more is read.
#[derive(Drop)]
pub struct Intake {
    /// What was read, from some place of the file on.
    bytes: Vec<u8>,
    /// How many of these bytes were played.
    used: usize,
    /// The place of the file up to which it was played.
    place: usize,
    stopped: Option<Stopped>,
}

impl Model for Intake {
    ghost use Rattle.std.specs.Prelude.{◌≤◌, drop, length};
    ghost use Rattle.rehearse.specs.Intakes.{IntakeState};

    ghost Value = { IntakeState };

    ghost view = { λ a. record { left = drop a.used a.bytes.items; place = a.place; stopped = a.stopped } };

    ghost invariant = { λ a. a.used ≤ length a.bytes.items };
}

/// Why a read is the last one; `None` where it isn't.
fn stop_of(answer: ReadAnswer) -> Option<Stopped>
    ensures { result ≡ stop_of answer }
{
    match answer {
        ReadAnswer::Bytes(0) => Some(Stopped::AtEnd),
        ReadAnswer::Bytes(_) => None,
        ReadAnswer::Failed => Some(Stopped::AtFault),
    }
}

impl Intake {
    /// Nothing was read.
    pub fn new(alloc: Global) -> Intake
        ensures { result ≡ record { left = []; place = 0; stopped = None } }
    {
        Intake {
            bytes: Vec::new(alloc),
            used: 0,
            place: 0,
            stopped: None,
        }
    }

    /// What was read and not played yet.
    pub fn left(&self) -> &[u8]
        ensures { result.now ≡ self.now.left }
    {
        &self.bytes[self.used..]
    }

    /// Lets go of what was played. Where that is nothing, nothing is moved: so a long event isn't copied at
    /// each piece of it that comes.
    fn drop_used(&mut self)
        ensures { self.new ≡ self.old }
    {
        if self.used == 0 {
            return;
        }
        let len = self.bytes.len();
        self.bytes.copy_within(self.used..len, 0);
        self.bytes.truncate(len - self.used);
        self.used = 0;
    }

    /// Reads one piece more, and tells whether any byte came.
    fn fetch<S: Source>(&mut self, source: &mut S) -> Result<bool, NoMemory>
        ensures fetches { Fetches self.old (S.rest source.old) (S.faults source.old) self.new
            (S.rest source.new) (S.faults source.new) }
        ensures took { IfOk result (λ came. Took came self.old self.new) }
    {
        if self.stopped.is_some() {
            return Ok(false);
        }
        self.drop_used();
        let start = self.bytes.len();
        let end = start.saturating_add(PIECE_SIZE);
        if end == start {
            return Err(NoMemory);
        }
        self.bytes.resize(end, 0)?;
        let answer = read_behind(source, self.bytes.as_mut_slice(), start);
        let count = count_of(answer);
        self.bytes.truncate(start + count);
        self.stopped = stop_of(answer);
        Ok(count > 0)
    }

    /// Reads until a line is there, and gives its length without the newline; `None` where none comes
    /// that ends in time.
    fn fetch_line<S: Source>(&mut self, source: &mut S) -> Result<Option<usize>, NoMemory>
        ensures finds { IfOk result (λ found. FindsLine found self.new) }
        ensures fetches { Fetches self.old (S.rest source.old) (S.faults source.old) self.new
            (S.rest source.new) (S.faults source.new) }
    {
        let mut seen = 0;
        'pieces: loop {
            if let Some((line, _)) = cut_at(&self.left()[seen..], b'\n') {
                return Ok(Some(seen + line.len()));
            }
            seen = self.left().len();
            if seen > MOST_FILE.saturating_sub(self.place) {
                return Ok(None);
            }
            if !self.fetch(source)? {
                return Ok(None);
            }
        }
    }

    /// Reads until so many bytes are there, and tells whether they are.
    fn fetch_bytes<S: Source>(&mut self, source: &mut S, size: usize) -> Result<bool, NoMemory>
        ensures has { IfOk result (λ there. HasBytes there size self.new) }
        ensures fetches { Fetches self.old (S.rest source.old) (S.faults source.old) self.new
            (S.rest source.new) (S.faults source.new) }
    {
        'pieces: while self.left().len() < size {
            if !self.fetch(source)? {
                return Ok(false);
            }
        }
        Ok(true)
    }

    /// Reads until the line of an event and its block are there, and gives the length of both; `None`
    /// where none comes that ends in time, whatever follows what was read, or the source stopped first.
    pub fn fetch_event<S: Source>(&mut self, source: &mut S) -> Result<Option<usize>, NoMemory>
        ensures fetches { Fetches self.old (S.rest source.old) (S.faults source.old) self.new
            (S.rest source.new) (S.faults source.new) }
        ensures finds { IfOk result (λ found. FindsEvent found self.new) }
    {
        let Some(line) = self.fetch_line(source)? else {
            return Ok(None);
        };
        let Some(size) = event_size(&self.left()[..line]) else {
            return Ok(None);
        };
        if size > MOST_FILE.saturating_sub(self.place) {
            return Ok(None);
        }
        let there = self.fetch_bytes(source, size)?;
        Ok(if there { Some(size) } else { None })
    }

    /// The event of so many bytes was played.
    pub fn use_up(&mut self, size: usize)
        requires there { size ≤ length self.old.left }
        requires in_time { self.old.place + size ≤ most_file }
        ensures { self.new
            ≡ record {
              left = drop size self.old.left;
              place = self.old.place + size;
              stopped = self.old.stopped;
            } }
    {
        self.used += size;
        self.place += size;
    }

    /// How a rehearsal ends of which the event of this number, from 1, didn't come: a fault of the source
    /// goes before a bad event.
    pub fn ending(&self, event: u64) -> Rehearsal
        ensures { result ≡ rehearsal_end self.now.stopped self.now.left event }
    {
        match self.stopped {
            Some(Stopped::AtFault) => Rehearsal::ReadFault,
            Some(Stopped::AtEnd) if self.left().is_empty() => Rehearsal::Done,
            _ => Rehearsal::BadEvent { event },
        }
    }
}
