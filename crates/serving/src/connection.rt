//! When a connection closes, and what counts for it.

ghost use Rattle.std.specs.Prelude.{◌≡◌};
ghost use Rattle.std.specs.List.{list_any};
ghost use Rattle.serving.specs.Connections.{is_close, holds_close, is_closing, asks_close, is_head_only, answer_bytes, is_spent, closes, after_request};
ghost use Rattle.serving.specs.Counting.{counted};

use http_req::Request;
use outside::Answer;
use txt_core::{Text, trim};

/// How many requests a connection may have.
pub const MOST_REQUESTS: u64 = 100;

/// How many bytes of answers the requests of a connection may have had, and another one follow.
pub const MOST_ANSWERED: u64 = 8_388_608;

/// What follows a request.
#[derive(Clone, Copy, Debug, PartialEq, Eq)]
pub enum Behind {
    /// The next request.
    GoesOn,
    /// The connection closes, as the request asked.
    Closing,
    /// The connection closes, since it has had all that it may.
    Spent,
}

/// Whether an element is `close`.
fn is_close(element: &[u8]) -> bool
    ensures { result ≡ is_close element.now }
{
    trim(element).eq_ignore_ascii_case(b"close")
}

/// Whether one of the elements between the commas is `close`.
fn holds_close(value: &[u8]) -> bool
    ensures { result ≡ holds_close value.now }
{
    value.split(|byte| *byte == b',').any(is_close)
}

/// Whether a field asks that the connection close.
fn is_closing(field: &(Text, Text)) -> bool
    ensures { result ≡ is_closing field.now }
{
    field.0.bytes().eq_ignore_ascii_case(b"connection") && holds_close(field.1.bytes())
}

/// Whether one of the fields asks that the connection close.
fn has_closing(fields: &[(Text, Text)]) -> bool
    ensures { result ≡ list_any is_closing fields.now }
{
    fields.iter().any(is_closing)
}

/// Whether a request asks that its connection close behind it: it is of HTTP/1.0, or a Connection field
/// of it has the element `close`, whatever the case of its letters. It takes no memory.
pub fn asks_close(request: &Request) -> bool
    ensures { result ≡ asks_close request.now }
{
    request.minor == 0 || has_closing(request.fields.as_slice())
}

/// Whether the head of the response alone is sent: to HEAD. It takes no memory.
pub fn is_head_only(request: &Request) -> bool
    ensures { result ≡ is_head_only request.now }
{
    request.method.bytes() == b"HEAD".as_slice()
}

/// How many bytes an answer has: those of its text or page. It takes no memory.
pub fn answer_bytes(answer: &Answer) -> u64
    ensures { result ≡ answer_bytes answer.now }
{
    match answer {
        Answer::Said(text) | Answer::Failed(text) | Answer::Page(text) => text.len() as u64,
        Answer::NoPage | Answer::PageFault => 0,
    }
}

/// So many bytes of answers, and those of one more. The count stands still at 2^64 - 1.
pub fn counted(bytes: u64, answer: &Answer) -> u64
    ensures { result ≡ counted bytes answer.now }
{
    bytes.saturating_add(answer_bytes(answer))
}

/// Whether a connection has had all that it may: so many requests, the one under way among them, and so
/// many bytes of answers.
pub fn is_spent(requests: u64, bytes: u64) -> bool
    ensures { result ≡ is_spent requests bytes }
{
    requests >= MOST_REQUESTS || bytes > MOST_ANSWERED
}

/// Whether the response to a request, which asks to close or doesn't, says that the connection closes,
/// which has had so much.
pub fn closes(asks: bool, requests: u64, bytes: u64) -> bool
    ensures { result ≡ closes asks requests bytes }
{
    asks || is_spent(requests, bytes)
}

/// What follows a request, which asks to close or doesn't, of a connection that has had so much.
pub fn after_request(asks: bool, requests: u64, bytes: u64) -> Behind
    ensures { result ≡ after_request asks requests bytes }
{
    if asks {
        Behind::Closing
    } else if is_spent(requests, bytes) {
        Behind::Spent
    } else {
        Behind::GoesOn
    }
}
