//! What the target of a request says (RFC 9112, section 3.2).

ghost use Rattle.std.specs.Prelude.{◌≡◌, ◌==◌, ◌≤◌, length, IfOk};
ghost use Rattle.std.specs.List.{list_any, position_or_len};
ghost use Rattle.percent_encoding.specs.Percent.{percent_decode};
ghost use Rattle.http_req.specs.Targets.{path_of, query_of, segments_of, is_target, is_unsafe, is_unsafe_byte, begins_with_host};

use percent_encoding::percent_decode;
use std::alloc::Global;
use std::borrow::CowSlice;
use txt_core::{NoMemory, Text, Words, begins_with_slash, place_of};

const SCHEME: &[u8] = b"http://";

/// Whether the target is a path, or `http://` with a host, which a path may follow.
pub(crate) fn is_target(target: &[u8]) -> bool
    ensures { result ≡ is_target target.now }
{
    if begins_with_slash(target) {
        return true;
    }
    match target.strip_prefix(SCHEME) {
        Some(rest) => begins_with_host(rest),
        None => false,
    }
}

fn begins_with_host(rest: &[u8]) -> bool
    ensures { result ≡ begins_with_host rest.now }
{
    match rest.first() {
        Some(byte) => *byte != b'/' && *byte != b'?',
        None => false,
    }
}

/// The path: what stands before the first question mark, without scheme and host.
fn path(target: &[u8]) -> &[u8]
    ensures { result.now ≡ path_of target.now }
{
    let path = &target[..place_or_end(target, b'?')];
    match path.strip_prefix(SCHEME) {
        Some(rest) => &rest[place_or_end(rest, b'/')..],
        None => path,
    }
}

/// The query: what stands after the first question mark.
pub(crate) fn query(target: &[u8]) -> &[u8]
    ensures { result.now ≡ query_of target.now }
{
    let end = place_or_end(target, b'?');
    if end < target.len() {
        &target[end + 1..]
    } else {
        &[]
    }
}

/// The place of the first such byte, or the length where there is none.
fn place_or_end(text: &[u8], wanted: u8) -> usize
    ensures within { result ≤ length text.now }
    ensures place { result ≡ position_or_len (λ byte. byte == wanted) text.now }
{
    place_of(wanted, text).unwrap_or(text.len())
}

/// The parts of the path between its slashes that have a byte, each percent-decoded.
pub(crate) fn segments(alloc: Global, target: &[u8]) -> Result<Words, NoMemory>
    ensures { IfOk result (λ segments. segments ≡ segments_of target.now) }
{
    let mut segments = Words::new(alloc);
    for part in path(target).split(|byte| *byte == b'/') {
        if !part.is_empty() {
            segments.add(decoded(alloc, part)?)?;
        }
    }
    Ok(segments)
}

fn decoded(alloc: Global, part: &[u8]) -> Result<Text, NoMemory>
    ensures { IfOk result (λ segment. segment ≡ percent_decode part.now) }
{
    match percent_decode(part).into_cow(alloc)? {
        CowSlice::Borrowed(bytes) => Text::new(alloc, bytes),
        CowSlice::Owned(bytes) => Ok(Text::from_vec(bytes)),
    }
}

/// Whether the segment could lead out of the folder in which it is looked up.
pub(crate) fn is_unsafe(segment: &[u8]) -> bool
    ensures { result ≡ is_unsafe segment.now }
{
    segment == b".".as_slice() || segment == b"..".as_slice() || has_unsafe_byte(segment)
}

fn has_unsafe_byte(segment: &[u8]) -> bool
    ensures { result ≡ list_any is_unsafe_byte segment.now }
{
    segment
        .iter()
        .any(|byte| *byte == b'/' || *byte == b'\\' || *byte == 0)
}
