//! The reading of a body, by its length or in chunks.
//!
//! A byte of a body is copied twice: by the source into what is carried, and from there into the
//! request. What a buffer moves where it grows comes on top: by the length nothing, since room for the
//! whole request is taken before its bytes come; in chunks less than one move for each byte of what is
//! carried and of the body, since both double as they grow. To take a request off the carry moves only
//! what was read past it, which is less than one piece.

ghost use Rattle.std.specs.Prelude.{◌≡◌, ◌≤◌, ◌<◌, ◌+◌, true, false, List, length, OnOk, IfOk, IfErr, Ok};
ghost use Rattle.http_req.specs.Bodies.{EndsChunks, EndsTrailer, Halts, SentStops, comes_to};
ghost use Rattle.http_req.specs.Chunks.{ChunksAt, trailing};
ghost use Rattle.http_req.specs.Fetching.{Moves};
ghost use Rattle.http_req.specs.Fields.{is_chunked};
ghost use Rattle.http_req.specs.Limits.{head_limit};
ghost use Rattle.http_req.specs.Outcomes.{sent_front};
ghost use Rattle.http_req.specs.Readings.{Passes, Received, cut_answer};
ghost use Rattle.std.specs.Prelude.{drop};

use crate::boxed::BoxedRequest;
use crate::carry::{Carry, PIECE_SIZE, Stop};
use crate::chunk::{Chunk, behind, find_chunk};
use crate::fields::{body_length, is_chunked};
use crate::request::Got;
use crate::status::{BAD_REQUEST, CONTENT_TOO_LARGE, FIELDS_TOO_LARGE};
use crate::trailer::{Trailer, TrailerSpot, trailer_from};
use outside::Source;
use std::alloc::Global;
use txt_core::Text;

/// A chunked body takes at most so many bytes as it is sent.
const SENT_LIMIT: usize = 33_554_432;

/// The chunks of a body.
#[derive(Debug, Drop)]
struct Chunks {
    body: Text,
    /// How many bytes they and the last line take.
    len: usize,
}

/// Reads the body of a request whose head takes so many bytes, puts it in, and takes the request off the
/// carry.
pub(crate) fn read_body<S: Source>(
    alloc: Global,
    source: &mut S,
    carry: &mut Carry,
    request: &mut BoxedRequest,
    start: usize,
) -> Result<(), Got>
    requires { Passes carry.old request.old.peer start request.old }
    ensures { Received carry.old (S.rest source.old) (S.faults source.old) request.old.peer
        (comes_to result request.new) carry.new (S.rest source.new) (S.faults source.new) }
{
    if is_chunked(request.get().fields.as_slice()) {
        read_in_chunks(alloc, source, carry, request, start)
    } else {
        read_by_length(alloc, source, carry, request, start)
    }
}

/// Reads a body of as many bytes as Content-Length says, or none.
#[inline(never)]
fn read_by_length<S: Source>(
    alloc: Global,
    source: &mut S,
    carry: &mut Carry,
    request: &mut BoxedRequest,
    start: usize,
) -> Result<(), Got>
    requires passes { Passes carry.old request.old.peer start request.old }
    requires plain { is_chunked request.old.fields ≡ false }
    ensures { Received carry.old (S.rest source.old) (S.faults source.old) request.old.peer
        (comes_to result request.new) carry.new (S.rest source.new) (S.faults source.new) }
{
    let length = body_length(request.get().fields.as_slice()).unwrap_or(0);
    let used = start + length as usize;
    if let Err(stop) = carry.fetch_up_to(source, used) {
        return Err(cut_off(carry, stop));
    }
    let body = Text::new(alloc, &carry.bytes()[start..used])?;
    request.set_body(body);
    carry.use_up(used);
    Ok(())
}

/// Reads a body that comes in chunks.
#[inline(never)]
fn read_in_chunks<S: Source>(
    alloc: Global,
    source: &mut S,
    carry: &mut Carry,
    request: &mut BoxedRequest,
    start: usize,
) -> Result<(), Got>
    requires passes { Passes carry.old request.old.peer start request.old }
    requires chunked { is_chunked request.old.fields ≡ true }
    ensures { Received carry.old (S.rest source.old) (S.faults source.old) request.old.peer
        (comes_to result request.new) carry.new (S.rest source.new) (S.faults source.new) }
{
    let Chunks { body, len: begin } = read_chunks(alloc, source, carry, start)?;
    let len = read_trailer(source, carry, start, begin)?;
    request.set_body(body);
    carry.use_up(start + len);
    Ok(())
}

/// Reads chunks and the last line behind them, which begin behind so many bytes.
fn read_chunks<S: Source>(
    alloc: Global,
    source: &mut S,
    carry: &mut Carry,
    start: usize,
) -> Result<Chunks, Got>
    requires within { start ≤ length carry.old }
    requires early { start ≤ head_limit }
    ensures moves { Moves carry.old (S.rest source.old) (S.faults source.old) carry.new
        (S.rest source.new) (S.faults source.new) }
    ensures ends { IfOk result (λ chunks.
        EndsChunks (sent_front start carry.new) chunks.body chunks.len) }
    ensures stops { IfErr result (λ answer.
        SentStops (ChunksAt 0 (sent_front start carry.new)) carry.new start (S.rest source.old)
        (S.faults source.old) (S.rest source.new) (S.faults source.new) answer) }
{
    let mut body = Text::empty(alloc);
    let mut at = 0;
    let mut fetched = Ok(());
    loop {
        let sent = sent_behind(carry, start);
        let need = match find_chunk(behind(sent, at), body.len()) {
            Chunk::Data { line, size } => {
                body.append(&sent[at + line..at + line + size])?;
                at += line + size + 2;
                continue;
            }
            Chunk::Last { line } => {
                return Ok(Chunks {
                    body,
                    len: at + line,
                });
            }
            Chunk::Refused(status) => return Err(Got::Refused { status }),
            Chunk::Cut { need } => need,
        };
        may_ask(carry, fetched, start + SENT_LIMIT)?;
        fetched = carry.fetch_up_to(source, start + at.saturating_add(need).min(SENT_LIMIT));
    }
}

/// Reads the trailer, which begins behind so many bytes of what is sent. Answers how many bytes are
/// sent with it.
fn read_trailer<S: Source>(
    source: &mut S,
    carry: &mut Carry,
    start: usize,
    begin: usize,
) -> Result<usize, Got>
    requires within { start ≤ length carry.old }
    requires begins { begin ≤ length (sent_front start carry.old) }
    requires early { start ≤ head_limit }
    ensures moves { Moves carry.old (S.rest source.old) (S.faults source.old) carry.new
        (S.rest source.new) (S.faults source.new) }
    ensures ends { IfOk result (λ len. EndsTrailer (sent_front start carry.new) begin len) }
    ensures stops { IfErr result (λ answer.
        SentStops (λ is. trailing (drop begin (sent_front start carry.new)) ≡ is) carry.new start
        (S.rest source.old) (S.faults source.old) (S.rest source.new) (S.faults source.new)
        answer) }
{
    let mut spot = TrailerSpot::Begin;
    let mut at = begin;
    let mut fetched = Ok(());
    loop {
        let sent = sent_behind(carry, start);
        match trailer_from(spot, at - begin, behind(sent, at)) {
            Trailer::Whole { taken } => return Ok(begin + taken),
            Trailer::Bad => return Err(Got::Refused {
                status: BAD_REQUEST,
            }),
            Trailer::Crowded => {
                return Err(Got::Refused {
                    status: FIELDS_TOO_LARGE,
                });
            }
            Trailer::Cut(to) => spot = to,
        }
        at = sent.len();
        may_ask(carry, fetched, start + SENT_LIMIT)?;
        fetched = carry.fetch(source, PIECE_SIZE);
    }
}

/// What is sent behind a head of so many bytes, as far as a chunked body may go.
fn sent_behind(carry: &Carry, start: usize) -> &[u8]
    requires within { start ≤ length carry.now }
    requires early { start ≤ head_limit }
    ensures { result.now ≡ sent_front start carry.now }
{
    let end = carry.len().min(start + SENT_LIMIT);
    &carry.bytes()[start..end]
}

/// Whether more may be asked for: less is there than so many bytes, and the source hasn't ended or
/// failed.
fn may_ask(carry: &Carry, fetched: Result<(), Stop>, most: usize) -> Result<(), Got>
    ensures more { OnOk result ((length carry.now < most) × (fetched ≡ Ok record {})) }
    ensures halts { IfErr result (λ answer. Halts carry.now fetched most answer) }
{
    if carry.len() >= most {
        return Err(Got::Refused {
            status: CONTENT_TOO_LARGE,
        });
    }
    match fetched {
        Ok(()) => Ok(()),
        Err(stop) => Err(cut_off(carry, stop)),
    }
}

/// The answer where what is carried is less than a request and no more came.
pub(crate) fn cut_off(carry: &Carry, stop: Stop) -> Got
    ensures { result ≡ cut_answer carry.now stop }
{
    match stop {
        Stop::End if carry.len() == 0 => Got::End,
        Stop::End => Got::Truncated {
            have: carry.len() as u64,
        },
        Stop::Fault => Got::ReadFault,
        Stop::NoMemory => Got::NoMemory,
    }
}
