//! The head of a request at the front of an input.

ghost use Rattle.std.specs.Prelude.{◌≤◌, List, length};
ghost use Rattle.httparse.specs.Grammar.{HasNoRequest};
ghost use Rattle.httparse.specs.declared.spans.HeaderSpan.{HeaderSpan};
ghost use Rattle.txt_core.specs.Names.{Bytes};
ghost use Rattle.http_req.specs.Heads.{front, IsMalformed};
ghost use Rattle.http_req.specs.Fronts.{AreWholeLines, FindsFront};
ghost use Rattle.http_req.specs.Outcomes.{Outcome, GetsOnly};

use crate::status::{BAD_REQUEST, FIELDS_TOO_LARGE};
use httparse::spans::{HeaderSpan, RequestSpans, parse_request};
use httparse::{Error, Status};

/// A head takes at most so many bytes.
pub const HEAD_LIMIT: usize = 16_384;

/// Room for more fields than as many bytes as a head may take can hold.
pub const FIELD_ROOM: usize = 8_192;

/// What the front of an input is.
#[derive(Clone, Copy, Debug, PartialEq, Eq)]
pub enum Front {
    /// A whole head, with the places of its parts.
    Head(RequestSpans),
    /// To be refused with this status, whatever follows.
    Refused(u16),
    /// Less than a head, which more bytes may make one.
    Cut,
    /// More fields than there is room for.
    Crowded,
}

/// Looks for a whole head at the front of an input. The places of its fields are written to `spans`.
///
/// With room for `FIELD_ROOM` fields it is never `Crowded`. And whatever the input, it is exactly one
/// of four: a whole request, no byte, less than a request, or what is refused.
pub fn find_head(input: &[u8], spans: &mut [HeaderSpan]) -> Front
    ensures finds { FindsFront input.now spans.new result }
    ensures one { FIELD_ROOM ≤ length spans.old → (peer : Bytes)
        → (outcome : Outcome) × GetsOnly input.now peer outcome }
{
    let front = &input[..input.len().min(HEAD_LIMIT)];
    let lines = whole_lines(front);
    if lines.is_empty() {
        return without_head(input);
    }
    match parse_request(lines, spans) {
        Ok(Status::Complete(head)) => Front::Head(head),
        Ok(Status::Partial) => without_head(input),
        Err(error) => match error {
            Error::TooManyHeaders => Front::Crowded,
            _ => Front::Refused(BAD_REQUEST),
        },
    }
}

/// What an input is in whose front there is no head, and no line that shows that there will be none.
fn without_head(input: &[u8]) -> Front
    requires none { HasNoRequest (front input.now) }
    requires fine { ¬ (IsMalformed (front input.now)) }
    ensures { (spans : List HeaderSpan) → FindsFront input.now spans result }
{
    if input.len() < HEAD_LIMIT {
        Front::Cut
    } else {
        Front::Refused(FIELDS_TOO_LARGE)
    }
}

/// The lines that have ended: the bytes up to the last line feed.
fn whole_lines(text: &[u8]) -> &[u8]
    ensures { AreWholeLines text.now result.now }
{
    let mut end = text.len();
    while end > 0 && text[end - 1] != b'\n' {
        end -= 1;
    }
    &text[..end]
}
