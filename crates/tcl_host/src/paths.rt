//! The paths of pages, as scripts write them.

ghost use Rattle.std.specs.Prelude.{◌≡◌, IfOk};
ghost use Rattle.std.specs.List.{list_any};
ghost use Rattle.tcl_host.specs.PagePaths.{behind_slash, page_path, is_bad_byte, is_bad_segment, is_page_path};

use std::alloc::Global;
use txt_core::{NoMemory, Text};

/// Whether a segment has a byte that no path of a page has.
fn has_bad_byte(segment: &[u8]) -> bool
    ensures { result ≡ list_any is_bad_byte segment.now }
{
    segment.iter().any(|byte| *byte == b'\\' || *byte == 0)
}

/// Whether no path of a page has this segment.
fn is_bad_segment(segment: &[u8]) -> bool
    ensures { result ≡ is_bad_segment segment.now }
{
    segment == b"".as_slice()
        || segment == b".".as_slice()
        || segment == b"..".as_slice()
        || has_bad_byte(segment)
}

/// A path without the slash that it may begin with.
fn behind_slash(path: &[u8]) -> &[u8]
    ensures { result.now ≡ behind_slash path.now }
{
    match path.split_first() {
        Some((b'/', rest)) => rest,
        _ => path,
    }
}

/// Whether what is written is the path of a page. It is none where a segment is empty, `.` or `..`, or
/// holds a backslash or byte 0; a slash in front counts for nothing.
pub fn is_page_path(written: &[u8]) -> bool
    ensures { result ≡ is_page_path written.now }
{
    !behind_slash(written)
        .split(|byte| *byte == b'/')
        .any(is_bad_segment)
}

/// What is written, with a slash put in front where it lacks one. The only error is want of memory.
pub fn page_path(alloc: Global, written: &[u8]) -> Result<Text, NoMemory>
    ensures { IfOk result (λ path. path ≡ page_path written.now) }
{
    let mut path = Text::new(alloc, b"/")?;
    path.append(behind_slash(written))?;
    Ok(path)
}
