//! Bytes that were read and not used.

ghost use Rattle.std.specs.Prelude.{◌≡◌, ◌≤◌, ◌<◌, ℕ, [], length, take, drop, OnOk, OnErr, IfErr};
ghost use Rattle.outside.specs.Reading.{Reads};
ghost use Rattle.http_req.specs.Limits.{head_limit};
ghost use Rattle.http_req.specs.Fetching.{Moves, Stopped};
ghost use Rattle.http_req.specs.declared.carry.Stop.TheVariants as stop;

use crate::checks::FIELD_LIMIT;
use crate::head::HEAD_LIMIT;
use httparse::spans::{EMPTY_HEADER_SPAN, HeaderSpan};
use outside::{ReadAnswer, Source, count_of, read_behind};
use std::alloc::{AllocError, Global};
use std::marker::Model;
use std::mem;

/// So many bytes are asked of a source at once where it isn't known how many are missing, and the
/// least where it is.
pub(crate) const PIECE_SIZE: usize = 4_096;

/// The most bytes that are asked of a source at once.
const LARGE_PIECE_SIZE: usize = 1_048_576;

/// Bytes that were read from a source and not used yet. Contracts see it as the list of them.
///
/// They are the first ones of a buffer that is kept from one read to the next, so a read clears nothing
/// but what the buffer grows by.
#[derive(Debug, Drop)]
pub struct Carry {
    buffer: Vec<u8>,
    /// How many bytes of the buffer are carried.
    len: usize,
    /// Room for the places of a head's fields, kept from one request to the next.
    spans: Vec<HeaderSpan>,
}

impl Model for Carry {
    ghost use Rattle.std.specs.Prelude.{◌≤◌, length, take};
    ghost use Rattle.std.specs.Coded.{coded_list, coded_ℕ};
    ghost use Rattle.txt_core.specs.Names.{Bytes};

    ghost Value = { Bytes };

    ghost coded = { coded_list coded_ℕ };

    ghost view = { λ a. take a.len a.buffer.items };

    ghost invariant = { λ a. a.len ≤ length a.buffer.items };
}

/// Why no more bytes were fetched.
#[derive(Clone, Copy, Debug, PartialEq, Eq)]
pub(crate) enum Stop {
    /// The input has ended.
    End,
    /// The source failed.
    Fault,
    /// Memory ran out.
    NoMemory,
}

impl Carry {
    /// Nothing. Nothing is allocated until the first read.
    pub fn new(alloc: Global) -> Carry
        ensures { result ≡ [] }
    {
        Carry {
            buffer: Vec::new(alloc),
            len: 0,
            spans: Vec::new(alloc),
        }
    }

    pub(crate) fn bytes(&self) -> &[u8]
        ensures { result.now ≡ self.now }
    {
        &self.buffer[..self.len]
    }

    pub(crate) fn len(&self) -> usize
        ensures { result ≡ length self.now }
    {
        self.len
    }

    /// Takes out the room for the places of fields, of which there may be `FIELD_LIMIT` at least.
    pub(crate) fn take_spans(&mut self, alloc: Global) -> Result<Vec<HeaderSpan>, AllocError>
        ensures { self.new ≡ self.old }
    {
        let mut spans = mem::replace(&mut self.spans, Vec::new(alloc));
        if spans.len() < FIELD_LIMIT {
            spans.resize(FIELD_LIMIT, EMPTY_HEADER_SPAN)?;
        }
        Ok(spans)
    }

    /// Puts the room for the places of fields back.
    pub(crate) fn keep_spans(&mut self, spans: Vec<HeaderSpan>)
        ensures { self.new ≡ self.old }
    {
        self.spans = spans;
    }

    /// Takes the bytes of a request off the front. Only those behind them are moved.
    pub(crate) fn use_up(&mut self, count: usize)
        requires { count ≤ length self.old }
        ensures { self.new ≡ drop count self.old }
    {
        self.buffer.copy_within(count..self.len, 0);
        self.len -= count;
    }

    /// Reads one piece, of at most so many bytes, and puts it at the end: the source writes it there
    /// itself.
    pub(crate) fn fetch<S: Source>(&mut self, source: &mut S, most: usize) -> Result<(), Stop>
        requires room { 0 < most }
        ensures moves { Moves self.old (S.rest source.old) (S.faults source.old) self.new
            (S.rest source.new) (S.faults source.new) }
        ensures more { OnOk result (length self.old < length self.new) }
        ensures kept { OnErr result (self.new ≡ self.old) }
        ensures stopped { IfErr result (λ stop.
            Stopped (S.rest source.old) (S.faults source.old) stop (S.rest source.new)
            (S.faults source.new)) }
    {
        let start = self.len;
        let end = start.saturating_add(most);
        if end == start || lengthen(&mut self.buffer, end).is_err() {
            return Err(Stop::NoMemory);
        }
        let answer = read_between(source, &mut self.buffer, start, end);
        self.len = start + count_of(answer);
        match answer {
            ReadAnswer::Bytes(0) => Err(Stop::End),
            ReadAnswer::Bytes(_) => Ok(()),
            ReadAnswer::Failed => Err(Stop::Fault),
        }
    }

    /// Reads pieces until another look for a head is worth while: the head has come to its empty
    /// line, or a line has ended and twice as many bytes are there as at the last look, or as many
    /// as a head may take. So all the looks together cost no more than a few times the last.
    pub(crate) fn fetch_lines<S: Source>(&mut self, source: &mut S) -> Result<(), Stop>
        requires { length self.old < head_limit }
        ensures moves { Moves self.old (S.rest source.old) (S.faults source.old) self.new
            (S.rest source.new) (S.faults source.new) }
        ensures more { OnOk result (length self.old < length self.new) }
        ensures stopped { IfErr result (λ stop.
            Stopped (S.rest source.old) (S.faults source.old) stop (S.rest source.new)
            (S.faults source.new)) }
    {
        let looked = self.len();
        while self.len() < HEAD_LIMIT {
            let start = self.len();
            self.fetch(source, PIECE_SIZE)?;
            if is_worth_a_look(self.bytes(), looked, start) {
                return Ok(());
            }
        }
        Ok(())
    }

    /// Reads pieces until so many bytes are there. Room for all of them is taken first, so no byte is
    /// moved again as they come in.
    pub(crate) fn fetch_up_to<S: Source>(&mut self, source: &mut S, size: usize) -> Result<(), Stop>
        ensures moves { Moves self.old (S.rest source.old) (S.faults source.old) self.new
            (S.rest source.new) (S.faults source.new) }
        ensures enough { OnOk result (size ≤ length self.new) }
        ensures short { OnErr result (length self.new < size) }
        ensures stopped { IfErr result (λ stop.
            Stopped (S.rest source.old) (S.faults source.old) stop (S.rest source.new)
            (S.faults source.new)) }
    {
        self.make_room(size)?;
        let mut given = LARGE_PIECE_SIZE;
        while self.len() < size {
            let start = self.len();
            self.fetch(source, piece_size(size - start, given))?;
            given = self.len() - start;
        }
        Ok(())
    }

    /// Takes room for so many bytes.
    fn make_room(&mut self, size: usize) -> Result<(), Stop>
        ensures kept { self.new ≡ self.old }
        ensures short { OnErr result (length self.new < size) }
        ensures stopped { IfErr result (λ why. why ≡ stop.NoMemory) }
    {
        let there = self.buffer.len();
        if there < size && self.buffer.reserve(size - there).is_err() {
            return Err(Stop::NoMemory);
        }
        Ok(())
    }
}

/// Makes a buffer so long at least. It keeps what stands in it, and what it grows by is cleared.
fn lengthen(buffer: &mut Vec<u8>, end: usize) -> Result<(), AllocError>
    ensures long { OnOk result (end ≤ length buffer.new.items) }
    ensures grows { length buffer.old.items ≤ length buffer.new.items }
    ensures front { (len : ℕ) → len ≤ length buffer.old.items
        → take len buffer.new.items ≡ take len buffer.old.items }
{
    if end <= buffer.len() {
        return Ok(());
    }
    buffer.resize(end, 0)
}

/// Reads into what stands between two places of a buffer, and leaves what stands before.
fn read_between<S: Source>(
    source: &mut S,
    buffer: &mut [u8],
    start: usize,
    end: usize,
) -> ReadAnswer
    requires room { start < end }
    requires within { end ≤ length buffer.old }
    ensures reads { Reads (S.rest source.old) (S.faults source.old)
        (drop start (take end buffer.old)) result (drop start (take end buffer.new))
        (S.rest source.new) (S.faults source.new) }
    ensures front { take start buffer.new ≡ take start buffer.old }
    ensures kept { length buffer.new ≡ length buffer.old }
{
    read_behind(source, &mut buffer[..end], start)
}

/// How many bytes to ask for where so many are missing, and the last read gave so many: no more than
/// twice as many, since what isn't read is zeroed in vain.
fn piece_size(missing: usize, given: usize) -> usize
    ensures { 0 < result }
{
    missing
        .min(given.saturating_mul(2))
        .clamp(PIECE_SIZE, LARGE_PIECE_SIZE)
}

/// Whether a look for a head is worth while after the last one, at `looked` bytes, where the bytes
/// from `start` on are new.
fn is_worth_a_look(bytes: &[u8], looked: usize, start: usize) -> bool
    requires { start ≤ length bytes.now }
{
    bytes[start..].contains(&b'\n') && (bytes.len() / 2 >= looked || closes_a_head(bytes, start))
}

/// Whether an empty line that follows a line with text ends at one of the bytes from `start` on.
fn closes_a_head(bytes: &[u8], start: usize) -> bool {
    for end in start..bytes.len() {
        if ends_in_empty_line(&bytes[..end + 1]) {
            return true;
        }
    }
    false
}

/// Whether the bytes end in an empty line that follows a line with text.
fn ends_in_empty_line(bytes: &[u8]) -> bool {
    let text = without_line_end(bytes).and_then(without_line_end);
    text.is_some_and(|text| text.last().is_some_and(|byte| *byte != b'\n'))
}

/// The bytes without the end of a line, where they end in one.
fn without_line_end(bytes: &[u8]) -> Option<&[u8]> {
    let line = bytes.strip_suffix(b"\n")?;
    Some(line.strip_suffix(b"\r").unwrap_or(line))
}
