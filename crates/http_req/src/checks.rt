//! What is wrong with a request.

ghost use Rattle.std.specs.Prelude.{◌≡◌, ◌≤◌, length};
ghost use Rattle.std.specs.List.{list_any};
ghost use Rattle.http_req.specs.Fields.{has_host};
ghost use Rattle.http_req.specs.Limits.{field_limit};
ghost use Rattle.http_req.specs.Requests.{is_served, refusal};
ghost use Rattle.http_req.specs.Targets.{is_unsafe};

use crate::fields::{body_length, count_of, is_coded, is_mixed};
use crate::request::Request;
use crate::status::{BAD_REQUEST, CONTENT_TOO_LARGE, NOT_IMPLEMENTED};
use crate::target::{is_target, is_unsafe};
use txt_core::Text;

/// A body has at most so many bytes.
pub(crate) const BODY_LIMIT: u64 = 8_388_608;

/// A head has at most so many fields.
pub(crate) const FIELD_LIMIT: usize = 100;

/// The status by which the request is refused for what its head says, if it is.
pub(crate) fn refusal(request: &Request) -> Option<u16>
    requires few { length request.now.fields ≤ field_limit }
    ensures { result ≡ refusal request.now }
{
    let fields = request.fields.as_slice();
    if !is_served(request.method.bytes()) || is_coded(fields) {
        return Some(NOT_IMPLEMENTED);
    }
    if is_mixed(request.minor, fields) {
        return Some(BAD_REQUEST);
    }
    let Some(length) = body_length(fields) else {
        return Some(BAD_REQUEST);
    };
    if length > BODY_LIMIT {
        return Some(CONTENT_TOO_LARGE);
    }
    if !has_host(request.minor, fields)
        || !is_target(request.target.bytes())
        || has_unsafe_segment(request.segments.as_slice())
    {
        return Some(BAD_REQUEST);
    }
    None
}

/// Whether the server serves this method (RFC 9110, section 9.3).
fn is_served(method: &[u8]) -> bool
    ensures { result ≡ is_served method.now }
{
    method == b"GET".as_slice()
        || method == b"HEAD".as_slice()
        || method == b"POST".as_slice()
        || method == b"PUT".as_slice()
        || method == b"DELETE".as_slice()
}

/// Whether one host is named, or none by HTTP/1.0 (RFC 9112, section 3.2).
fn has_host(minor: u8, fields: &[(Text, Text)]) -> bool
    ensures { result ≡ has_host minor fields.now }
{
    let count = count_of(fields, b"host");
    count == 1 || (count == 0 && minor == 0)
}

fn has_unsafe_segment(segments: &[Text]) -> bool
    ensures { result ≡ list_any is_unsafe segments.now }
{
    segments.iter().any(|segment| is_unsafe(segment.bytes()))
}
