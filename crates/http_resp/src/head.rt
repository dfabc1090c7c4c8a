//! The bytes of a response.

ghost use Rattle.std.specs.Prelude.{◌≡◌, ◌++◌, IfOk, OnOk, MatchOption, codes};
ghost use Rattle.http_resp.specs.OutputFields.{field_line, field_lines};
ghost use Rattle.http_resp.specs.HeadLines.{first_lines, last_lines};
ghost use Rattle.http_resp.specs.ResponseBytes.{response_bytes, head_bytes, content_fields, server_name, has_content};
ghost use Rattle.http_resp.specs.StatusLine.{reason, status_text, status_line};

use crate::date::Dated;
use crate::fields::{push_line, push_output_fields};
use crate::response::Response;
use crate::status::OK;
use itoa::Buffer;
use std::alloc::{AllocError, Global};
use txt_core::{NoMemory, Text};

/// 204, whose responses have no content (RFC 9110, section 15.3.5).
const NO_CONTENT: u16 = 204;

/// 304, whose responses have none either (RFC 9110, section 15.4.5).
const NOT_MODIFIED: u16 = 304;

/// A head's room for its status line and the fields that the server writes itself. More is taken where
/// it is missing.
const HEAD_ROOM: usize = 256;

/// What stands before the output fields of a response of status 200, but for its date.
const OK_START: [u8; 83] = *b"HTTP/1.1 200 OK\r\n\
    Date: Thu, 01 Jan 1970 00:00:00 GMT\r\n\
    Server: AOLserver-profile/1\r\n";

/// Where the date begins in it.
const DATE_START: usize = 23;

/// Where it ends.
const DATE_END: usize = DATE_START + 29;

/// Where the field that names the server begins in it.
const SERVER_START: usize = DATE_END + 2;

/// The code and the reason phrase of a status that has a phrase of its own.
#[tactic(auto, unfolding(crate::specs::StatusLine::reason))]
fn known_status(status: u16) -> Option<&'static [u8]>
    ensures { MatchOption result (reason status ≡ codes "Unknown")
        (λ text. text.now ≡ status_text status) }
{
    match status {
        200 => Some(b"200 OK"),
        201 => Some(b"201 Created"),
        204 => Some(b"204 No Content"),
        301 => Some(b"301 Moved Permanently"),
        302 => Some(b"302 Found"),
        304 => Some(b"304 Not Modified"),
        400 => Some(b"400 Bad Request"),
        401 => Some(b"401 Unauthorized"),
        403 => Some(b"403 Forbidden"),
        404 => Some(b"404 Not Found"),
        405 => Some(b"405 Method Not Allowed"),
        413 => Some(b"413 Content Too Large"),
        431 => Some(b"431 Request Header Fields Too Large"),
        500 => Some(b"500 Internal Server Error"),
        501 => Some(b"501 Not Implemented"),
        503 => Some(b"503 Service Unavailable"),
        _ => None,
    }
}

/// Appends a status code that has no reason phrase of its own.
fn push_unknown(text: &mut Vec<u8>, status: u16) -> Result<(), AllocError>
    requires { reason status ≡ codes "Unknown" }
    ensures { OnOk result (text.new.items ≡ text.old.items ++ status_text status) }
{
    text.extend_from_slice(Buffer::new().format(status).as_bytes())?;
    text.extend_from_slice(b" Unknown")
}

/// Appends a status code and its reason phrase.
pub fn push_status(text: &mut Vec<u8>, status: u16) -> Result<(), AllocError>
    ensures { OnOk result (text.new.items ≡ text.old.items ++ status_text status) }
{
    match known_status(status) {
        Some(known) => text.extend_from_slice(known),
        None => push_unknown(text, status),
    }
}

/// Appends the status line.
#[tactic(auto, unfolding(crate::specs::StatusLine::status_line))]
fn push_status_line(text: &mut Vec<u8>, status: u16) -> Result<(), AllocError>
    ensures { OnOk result (text.new.items ≡ text.old.items ++ status_line status) }
{
    text.extend_from_slice(b"HTTP/1.1 ")?;
    push_status(text, status)?;
    text.extend_from_slice(b"\r\n")
}

/// Whether a response of this status may have content.
fn has_content(status: u16) -> bool
    ensures { result ≡ has_content status }
{
    status != NO_CONTENT && status != NOT_MODIFIED
}

/// The last lines of a head: the field that says whether the connection stays open, and the empty
/// line.
#[tactic(auto, unfolding(crate::specs::OutputFields::field_line))]
fn last_lines(close: bool) -> &'static [u8]
    ensures { result.now ≡ last_lines close }
{
    if close {
        return b"Connection: close\r\n\r\n";
    }
    b"Connection: keep-alive\r\n\r\n"
}

/// The end of a head behind the digits of its Content-Length field: the end of that line, and the last
/// lines.
#[tactic(auto, unfolding(crate::specs::OutputFields::field_line))]
fn behind_length(close: bool) -> &'static [u8]
    ensures { result.now ≡ codes "\r\n" ++ last_lines close }
{
    if close {
        return b"\r\nConnection: close\r\n\r\n";
    }
    b"\r\nConnection: keep-alive\r\n\r\n"
}

/// Appends the last lines.
fn push_last_lines(text: &mut Vec<u8>, close: bool) -> Result<(), AllocError>
    ensures { OnOk result (text.new.items ≡ text.old.items ++ last_lines close) }
{
    text.extend_from_slice(last_lines(close))
}

/// Appends what stands behind the output fields: the fields that say what the content is, where there
/// may be any, and the last lines.
fn push_end(text: &mut Vec<u8>, response: &Response, close: bool) -> Result<(), AllocError>
    ensures { OnOk result
        (text.new.items
        ≡ text.old.items ++ (field_lines (content_fields response.now) ++ last_lines close)) }
{
    if !has_content(response.status) {
        return push_last_lines(text, close);
    }
    text.extend_from_slice(b"Content-Type: ")?;
    text.extend_from_slice(response.kind.bytes())?;
    text.extend_from_slice(b"\r\nContent-Length: ")?;
    let mut digits = Buffer::new();
    text.extend_from_slice(digits.format(response.body.len()).as_bytes())?;
    text.extend_from_slice(behind_length(close))?;
    Ok(())
}

/// Appends the field that names the server.
#[tactic(auto, unfolding(crate::specs::OutputFields::field_line))]
fn push_server_field(text: &mut Vec<u8>) -> Result<(), AllocError>
    ensures { OnOk result
        (text.new.items ≡ text.old.items ++ field_line (codes "Server") server_name) }
{
    text.extend_from_slice(&OK_START[SERVER_START..])
}

/// Appends what stands before the output fields of a response of any status.
#[inline(never)]
fn push_any_start(text: &mut Vec<u8>, status: u16, date: &Dated) -> Result<(), AllocError>
    ensures { OnOk result (text.new.items ≡ text.old.items ++ first_lines status date.now.moment) }
{
    push_status_line(text, status)?;
    push_line(text, b"Date: ", date.bytes())?;
    push_server_field(text)?;
    Ok(())
}

/// Appends what stands before the output fields of a response of status 200, in one piece.
fn push_ok_start(text: &mut Vec<u8>, date: &Dated) -> Result<(), AllocError>
    ensures { OnOk result (text.new.items ≡ text.old.items ++ first_lines 200 date.now.moment) }
{
    let mut start = OK_START;
    start[DATE_START..DATE_END].copy_from_slice(date.bytes());
    text.extend_from_slice(&start)?;
    Ok(())
}

/// Appends what stands before the output fields: the status line, and the fields that say when and by
/// whom it was made.
fn push_start(text: &mut Vec<u8>, status: u16, date: &Dated) -> Result<(), AllocError>
    ensures { OnOk result (text.new.items ≡ text.old.items ++ first_lines status date.now.moment) }
{
    if status == OK {
        return push_ok_start(text, date);
    }
    push_any_start(text, status, date)
}

/// Appends the head of a response, with its empty line.
fn push_head(
    alloc: Global,
    text: &mut Vec<u8>,
    response: &Response,
    date: &Dated,
    close: bool,
) -> Result<(), NoMemory>
    ensures { OnOk result
        (text.new.items ≡ text.old.items ++ head_bytes response.now date.now.moment close) }
{
    push_start(text, response.status, date)?;
    push_output_fields(alloc, text, &response.fields)?;
    push_end(text, response, close)?;
    Ok(())
}

/// How much room the bytes of a response mostly take. More is taken where it is missing.
pub(crate) fn room_for(response: &Response) -> usize {
    HEAD_ROOM.saturating_add(response.body.len())
}

/// Appends the bytes of a response, as `response_bytes` tells them. Its only error is want of memory.
pub(crate) fn push_response(
    alloc: Global,
    text: &mut Vec<u8>,
    response: &Response,
    date: &Dated,
    head_only: bool,
    close: bool,
) -> Result<(), NoMemory>
    ensures { OnOk result
        (text.new.items
        ≡ text.old.items ++ response_bytes response.now date.now.moment head_only close) }
{
    push_head(alloc, text, response, date, close)?;
    if head_only || !has_content(response.status) {
        return Ok(());
    }
    text.extend_from_slice(response.body.bytes())?;
    Ok(())
}

/// The bytes of a response: its head, and its body unless the request asks for the head alone
/// (`head_only`, as HEAD does) or the status has no content (RFC 9112, section 2.1).
///
/// The Date field shows the moment, in seconds since 1970; one past the year 9999 counts as that
/// year's last second. The Connection field says `close` or `keep-alive` by `close`. An output field
/// that could end its line, or that the server writes itself, is left out.
pub fn response_bytes(
    alloc: Global,
    response: &Response,
    moment: u64,
    head_only: bool,
    close: bool,
) -> Result<Text, NoMemory>
    ensures { IfOk result (λ text. text ≡ response_bytes response.now moment head_only close) }
{
    let mut bytes = Vec::with_capacity(alloc, room_for(response))?;
    let date = Dated::at(moment);
    push_response(alloc, &mut bytes, response, &date, head_only, close)?;
    Ok(Text::from_vec(bytes))
}
