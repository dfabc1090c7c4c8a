//! Responses: how they are written.

ghost use Rattle.std.specs.Prelude.{◌≤◌};

use http_resp::{
    Response, Sent, Wrote, plain, reply_busy, reply_no_memory, response_bytes, write_response,
};
use outside::MemSink;
use std::alloc::Global;
use test_rows::{Answer, Row, count_in};
use txt_core::{NoMemory, Pairs, Text};

/// The pairs of these, one behind another.
fn pairs(alloc: Global, fields: &[Text]) -> Result<Pairs, NoMemory> {
    let mut pairs = Pairs::new(alloc);
    for pair in fields.chunks(2) {
        if let [name, value] = pair {
            pairs.add((name.copy(alloc)?, value.copy(alloc)?))?;
        }
    }
    Ok(pairs)
}

/// A response of plain text with these output fields.
fn response(
    alloc: Global,
    status: u16,
    fields: &[Text],
    body: &Text,
) -> Result<Response, NoMemory> {
    Ok(Response {
        status,
        fields: pairs(alloc, fields)?,
        kind: Text::new(alloc, b"text/plain")?,
        body: body.copy(alloc)?,
    })
}

/// The status that a field is.
fn status_in(field: &Text) -> u16 {
    (count_in(field) % 65_536) as u16
}

/// Adds how many bytes a text has, and these.
fn add_measured(text: &Result<Text, NoMemory>, out: &mut Answer) {
    if let Ok(text) = text {
        out.add_number(text.len() as u64);
        out.add(b": ");
    }
    out.add_made(text);
}

/// Adds how a response is written at the moment 0: `h` in the marks answers a request for the head alone, `c`
/// closes the connection.
fn add_bytes(response: &Result<Response, NoMemory>, marks: &[u8], out: &mut Answer) {
    let (head_only, close) = (marks.contains(&b'h'), marks.contains(&b'c'));
    match response {
        Ok(response) => add_measured(
            &response_bytes(out.alloc(), response, 0, head_only, close),
            out,
        ),
        Err(NoMemory) => out.lack_memory(),
    }
}

/// The fields of a row behind so many of them.
fn behind<'a>(row: &Row<'a>, count: usize) -> &'a [Text] {
    row.all.get(count..).unwrap_or(&[])
}

/// Adds how a response is written: its status, marks, its body, and its output fields.
pub fn respond(row: &Row<'_>, out: &mut Answer) {
    let status = status_in(row.first);
    let response = response(out.alloc(), status, behind(row, 3), row.third);
    add_bytes(&response, row.second.bytes(), out);
}

/// Adds how a plain reply is written: its status and marks.
pub fn plain_reply(row: &Row<'_>, out: &mut Answer) {
    let reply = plain(out.alloc(), status_in(row.first));
    add_bytes(&reply, row.second.bytes(), out);
}

/// Adds the body of the plain reply of a status.
pub fn plain_body(row: &Row<'_>, out: &mut Answer) {
    match plain(out.alloc(), status_in(row.first)) {
        Ok(reply) => out.add(reply.body.bytes()),
        Err(NoMemory) => out.lack_memory(),
    }
}

/// The bytes of a response without a body at a moment.
fn bytes_at(alloc: Global, moment: u64, body: &Text) -> Result<Text, NoMemory> {
    let response = response(alloc, 304, &[], body)?;
    response_bytes(alloc, &response, moment, false, false)
}

/// Adds how a moment is written in a response.
pub fn date(row: &Row<'_>, out: &mut Answer) {
    match bytes_at(out.alloc(), count_in(row.first), row.second) {
        Ok(text) => out.add(text.bytes().get(33..62).unwrap_or(b"")),
        Err(NoMemory) => out.lack_memory(),
    }
}

/// Adds how many bytes a sink took, as it is said, and these.
fn add_taken(said: &[u8], bytes: u64, sink: &MemSink, out: &mut Answer) {
    out.add(said);
    out.add_number(bytes);
    out.add(b": ");
    out.add(sink.taken().bytes());
}

/// Adds how writing to a sink ended, and what the sink took.
fn add_wrote(wrote: Wrote, sink: &MemSink, out: &mut Answer) {
    match wrote {
        Wrote::Whole { bytes } => add_taken(b"whole ", bytes, sink, out),
        Wrote::WriteFault { sent } => add_taken(b"fault ", sent, sink, out),
        Wrote::NoMemory => out.lack_memory(),
    }
}

/// Adds how sending to a sink ended, and what the sink took.
fn add_sent(sent: Sent, sink: &MemSink, out: &mut Answer) {
    match sent {
        Sent::Whole { bytes } => add_taken(b"whole ", bytes, sink, out),
        Sent::WriteFault { sent } => add_taken(b"fault ", sent, sink, out),
    }
}

/// The numbers that fields are.
pub fn numbers(alloc: Global, fields: &[Text]) -> Result<Vec<u64>, NoMemory> {
    let mut numbers = Vec::new(alloc);
    for field in fields {
        numbers.push(count_in(field))?;
    }
    Ok(numbers)
}

/// A sink that takes so many bytes a call, and one at least, with the calls that fail.
pub fn sink_of(alloc: Global, piece: &Text, fails: &[Text]) -> Result<MemSink, NoMemory> {
    let calls = numbers(alloc, fails)?;
    let piece = (count_in(piece) as usize).max(1);
    Ok(MemSink::new(alloc, piece, calls))
}

/// Adds how writing a reply to a sink ends.
fn add_written(reply: &Response, sink: &mut MemSink, out: &mut Answer) {
    let wrote = write_response(out.alloc(), reply, 0, false, false, sink);
    add_wrote(wrote, sink, out);
}

/// The plain reply of 404, and a sink for it.
fn reply_and_sink(alloc: Global, row: &Row<'_>) -> Result<(Response, MemSink), NoMemory> {
    let reply = plain(alloc, 404)?;
    Ok((reply, sink_of(alloc, row.first, row.behind)?))
}

/// Adds how writing the plain reply of 404 ends: how many bytes the sink takes a call, and its calls that fail.
pub fn written(row: &Row<'_>, out: &mut Answer) {
    match reply_and_sink(out.alloc(), row) {
        Ok((reply, mut sink)) => add_written(&reply, &mut sink, out),
        Err(NoMemory) => out.lack_memory(),
    }
}

/// Adds how the reply ends that is written where too much waits: the moment, how many bytes the sink takes a
/// call, and its calls that fail.
pub fn busy(row: &Row<'_>, out: &mut Answer) {
    match sink_of(out.alloc(), row.second, behind(row, 2)) {
        Ok(mut sink) => {
            let sent = reply_busy(count_in(row.first), &mut sink);
            add_sent(sent, &sink, out);
        }
        Err(NoMemory) => out.lack_memory(),
    }
}

/// Adds how the reply ends that is written where memory wants: the moment, how many bytes the sink takes a call,
/// and its calls that fail.
pub fn no_memory(row: &Row<'_>, out: &mut Answer) {
    match sink_of(out.alloc(), row.second, behind(row, 2)) {
        Ok(mut sink) => {
            let sent = reply_no_memory(count_in(row.first), &mut sink);
            add_sent(sent, &sink, out);
        }
        Err(NoMemory) => out.lack_memory(),
    }
}
