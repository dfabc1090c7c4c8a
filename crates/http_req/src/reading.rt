//! The reading of one request.

ghost use Rattle.std.specs.Prelude.{◌≡◌, ◌≤◌, [], length, map, All, IfOk, IfErr};
ghost use Rattle.txt_core.specs.Names.{Bytes};
ghost use Rattle.outside.specs.Faults.{Rose};
ghost use Rattle.httparse.specs.Grammar.{RequestHead};
ghost use Rattle.httparse.specs.Spans.{IsHeaderWithin, IsRequestAt, header_bytes};
ghost use Rattle.http_req.specs.Fetching.{Moves};
ghost use Rattle.http_req.specs.Fronts.{HeadStands};
ghost use Rattle.http_req.specs.Heads.{front};
ghost use Rattle.http_req.specs.Outcomes.{Gets, ended};
ghost use Rattle.http_req.specs.Readings.{left_of, Answers, Consumes, OnReadFault, Stops, Received};
ghost use Rattle.http_req.specs.Requests.{shown};

use crate::body::{cut_off, read_body};
use crate::boxed::BoxedRequest;
use crate::carry::Carry;
use crate::checks::{FIELD_LIMIT, refusal};
use crate::head::{FIELD_ROOM, Front, HEAD_LIMIT, find_head};
use crate::request::{Got, Request};
use crate::status::FIELDS_TOO_LARGE;
use crate::target::{query, segments};
use httparse::spans::{EMPTY_HEADER_SPAN, HeaderSpan, RequestSpans};
use outside::Source;
use std::alloc::Global;
use txt_core::{NoMemory, Pairs, Text};

/// Reads the next request: from the bytes that are carried, and then from the source.
///
/// What is answered depends on the bytes alone, and not on the pieces in which they come. After a
/// request the bytes that it took are gone, and what was read past them is carried on; a further
/// call begins there. After `Refused`, `ReadFault` and `NoMemory` the carry isn't used again.
#[inline(never)]
pub fn read_request<S: Source>(alloc: Global, source: &mut S, carry: &mut Carry, peer: &Text) -> Got
    ensures answers { Answers (left_of carry.old (S.rest source.old)) peer.now result
        (left_of carry.new (S.rest source.new)) }
    ensures consumes { Consumes carry.old (S.rest source.old) peer.now result carry.new
        (S.rest source.new) }

    // A fault is answered only where the source's count rose and what was read is no whole request
    // and isn't refused. The count never falls.
    ensures undecided { OnReadFault result (Gets carry.new peer.now (ended carry.new)) }
    ensures rose { OnReadFault result (Rose (S.faults source.old) (S.faults source.new)) }
    ensures counts { S.faults source.old ≤ S.faults source.new }
{
    match receive(alloc, source, carry, peer) {
        Ok(request) => Got::Request(request),
        Err(got) => got,
    }
}

fn receive<S: Source>(
    alloc: Global,
    source: &mut S,
    carry: &mut Carry,
    peer: &Text,
) -> Result<BoxedRequest, Got>
    ensures { Received carry.old (S.rest source.old) (S.faults source.old) peer.now result carry.new
        (S.rest source.new) (S.faults source.new) }
{
    let mut spans = carry.take_spans(alloc)?;
    let received = receive_with(alloc, source, carry, &mut spans, peer);
    carry.keep_spans(spans);
    received
}

/// Receives a request, with room for the places of its fields.
fn receive_with<S: Source>(
    alloc: Global,
    source: &mut S,
    carry: &mut Carry,
    spans: &mut Vec<HeaderSpan>,
    peer: &Text,
) -> Result<BoxedRequest, Got>
    ensures { Received carry.old (S.rest source.old) (S.faults source.old) peer.now result carry.new
        (S.rest source.new) (S.faults source.new) }
{
    let head = read_head(source, carry, spans)?;
    read_headed(alloc, source, carry, &head, spans, peer)
}

/// Receives the request whose head stands at the front of the carry, if it passes the checks.
fn read_headed<S: Source>(
    alloc: Global,
    source: &mut S,
    carry: &mut Carry,
    head: &RequestSpans,
    spans: &[HeaderSpan],
    peer: &Text,
) -> Result<BoxedRequest, Got>
    requires { HeadStands (front carry.old) spans.now head.now }
    ensures { Received carry.old (S.rest source.old) (S.faults source.old) peer.now result carry.new
        (S.rest source.new) (S.faults source.new) }
{
    if head.headers > FIELD_LIMIT {
        return Err(Got::Refused {
            status: FIELDS_TOO_LARGE,
        });
    }
    let shown = show_front(alloc, carry.bytes(), head, spans, peer)?;
    match refusal(&shown) {
        Some(status) => Err(Got::Refused { status }),
        None => {
            let mut request = BoxedRequest::new(alloc, shown)?;
            read_body(alloc, source, carry, &mut request, head.len)?;
            Ok(request)
        }
    }
}

/// Reads until a whole head stands at the front of the carry. The places of its fields are written to
/// `spans`, which grows to room for all that a head can hold once there is no room for those that come.
fn read_head<S: Source>(
    source: &mut S,
    carry: &mut Carry,
    spans: &mut Vec<HeaderSpan>,
) -> Result<RequestSpans, Got>
    ensures moves { Moves carry.old (S.rest source.old) (S.faults source.old) carry.new
        (S.rest source.new) (S.faults source.new) }
    ensures stands { IfOk result (λ head. HeadStands (front carry.new) spans.new.items head) }
    ensures stops { IfErr result (λ answer.
        (peer : Bytes)
        → Stops carry.new peer (S.rest source.old) (S.faults source.old) (S.rest source.new)
        (S.faults source.new) answer) }
{
    let mut fetched = Ok(());
    loop {
        match find_head(carry.bytes(), spans) {
            Front::Head(head) => return Ok(head),
            Front::Refused(status) => return Err(Got::Refused { status }),
            Front::Crowded => {
                spans.resize(FIELD_ROOM, EMPTY_HEADER_SPAN)?;
                continue;
            }
            Front::Cut => {}
        }
        match fetched {
            Ok(()) => fetched = carry.fetch_lines(source),
            Err(stop) => return Err(cut_off(carry, stop)),
        }
    }
}

/// The request that a head at the front of an input shows, without its body.
fn show_front(
    alloc: Global,
    input: &[u8],
    head: &RequestSpans,
    spans: &[HeaderSpan],
    peer: &Text,
) -> Result<Request, NoMemory>
    requires { HeadStands (front input.now) spans.now head.now }
    ensures { IfOk result (λ request.
        (tree : RequestHead) → IsRequestAt (front input.now) spans.now head.now tree
        → request ≡ shown tree [] peer.now) }
{
    let front = &input[..input.len().min(HEAD_LIMIT)];
    show(alloc, front, head, spans, peer)
}

/// The request that a head shows, without its body.
fn show(
    alloc: Global,
    bytes: &[u8],
    head: &RequestSpans,
    spans: &[HeaderSpan],
    peer: &Text,
) -> Result<Request, NoMemory>
    requires { HeadStands bytes.now spans.now head.now }
    ensures { IfOk result (λ request.
        (tree : RequestHead) → IsRequestAt bytes.now spans.now head.now tree
        → request ≡ shown tree [] peer.now) }
{
    let target = head.path.of(bytes);
    Ok(Request {
        method: Text::new(alloc, head.method.of(bytes))?,
        target: Text::new(alloc, target)?,
        segments: segments(alloc, target)?,
        query: Text::new(alloc, query(target))?,
        minor: head.version,
        fields: pairs(alloc, bytes, &spans[..head.headers])?,
        body: Text::empty(alloc),
        peer: peer.copy(alloc)?,
    })
}

/// The names and values that the spans cover.
fn pairs(alloc: Global, bytes: &[u8], spans: &[HeaderSpan]) -> Result<Pairs, NoMemory>
    requires { All (IsHeaderWithin (length bytes.now)) spans.now }
    ensures { IfOk result (λ pairs. pairs ≡ map (header_bytes bytes.now) spans.now) }
{
    let mut pairs = Pairs::from_vec(Vec::with_capacity(alloc, spans.len())?);
    for span in spans {
        pairs.add(pair(alloc, bytes, span)?)?;
    }
    Ok(pairs)
}

fn pair(alloc: Global, bytes: &[u8], span: &HeaderSpan) -> Result<(Text, Text), NoMemory>
    requires { IsHeaderWithin (length bytes.now) span.now }
    ensures { IfOk result (λ pair. pair ≡ header_bytes bytes.now span.now) }
{
    let name = Text::new(alloc, span.name.of(bytes))?;
    let value = Text::new(alloc, span.value.of(bytes))?;
    Ok((name, value))
}
