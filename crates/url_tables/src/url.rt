//! The URL of a registration.

ghost use Rattle.std.specs.Prelude.{◌≡◌, ◌++◌, IfOk, OnOk};
ghost use Rattle.url_tables.specs.Urls.{segments, plain_of, suffix_of, is_pattern, last_of};

use std::alloc::Global;
use txt_core::{NoMemory, Text};

/// The plain segments of a URL, and in what the last segment of a path must end, where it ends in a
/// pattern.
#[derive(Debug, Drop)]
pub(crate) struct Url {
    pub plain: Vec<Text>,
    pub suffix: Option<Text>,
}

/// The segments of a URL.
fn segments(alloc: Global, url: &[u8]) -> Result<Vec<Text>, NoMemory>
    ensures { IfOk result (λ all. all.items ≡ segments url.now) }
{
    let mut segments = Vec::new(alloc);
    for piece in url.split(|byte| *byte == b'/') {
        if !piece.is_empty() {
            segments.push(Text::new(alloc, piece)?)?;
        }
    }
    Ok(segments)
}

/// Whether a segment begins with `*.` and has a byte more.
fn is_pattern(segment: &[u8]) -> bool
    ensures { result ≡ is_pattern segment.now }
{
    segment.len() > 2 && &segment[..2] == b"*.".as_slice()
}

/// The suffix of the pattern that stands last, where one does.
fn last_suffix(alloc: Global, segments: &[Text]) -> Result<Option<Text>, NoMemory>
    ensures { IfOk result (λ suffix. suffix ≡ suffix_of segments.now) }
{
    match segments.last() {
        Some(last) if is_pattern(last.bytes()) => Ok(Some(Text::new(alloc, &last.bytes()[1..])?)),
        _ => Ok(None),
    }
}

/// A URL as it was registered, in its parts. The only error is want of memory.
pub(crate) fn read_url(alloc: Global, url: &[u8]) -> Result<Url, NoMemory>
    ensures plain { IfOk result (λ parts. parts.plain.items ≡ plain_of (segments url.now)) }
    ensures suffix { IfOk result (λ parts. parts.suffix ≡ suffix_of (segments url.now)) }
{
    let mut plain = segments(alloc, url)?;
    let suffix = last_suffix(alloc, &plain)?;
    if suffix.is_some() {
        plain.pop();
    }
    Ok(Url { plain, suffix })
}
