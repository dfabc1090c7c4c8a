//! The chunks of a body (RFC 9112, section 7.1).

ghost use Rattle.std.specs.Prelude.{◌≡◌, ◌≤◌, length, drop};
ghost use Rattle.http_req.specs.declared.chunk_line.ChunkLine.TheVariants as line;
ghost use Rattle.http_req.specs.Chunks.{data_end, behind_line, piece_at, Finds};
ghost use Rattle.http_req.specs.Limits.{body_limit};

use crate::checks::BODY_LIMIT;
use crate::chunk_line::{ChunkLine, chunk_line};
use crate::status::{BAD_REQUEST, CONTENT_TOO_LARGE};

/// The CR LF behind the data of a chunk.
#[derive(Clone, Copy, Debug, PartialEq, Eq)]
pub(crate) enum DataEnd {
    /// It is there.
    Ended,
    /// The text ends before it is.
    Missing,
    /// Another byte stands there.
    Wrong,
}

/// What stands at the front of a text.
#[derive(Clone, Copy, Debug, PartialEq, Eq)]
pub(crate) enum Chunk {
    /// A chunk; its line takes so many bytes, and its data.
    Data { line: usize, size: usize },
    /// The last line, which takes so many bytes.
    Last { line: usize },
    /// To be refused with this status, whatever follows.
    Refused(u16),
    /// Less than a chunk, which is whole with so many bytes at the least.
    Cut { need: usize },
}

/// The chunk at the front of a text, behind chunks whose sizes come to this sum.
pub(crate) fn find_chunk(text: &[u8], sum: usize) -> Chunk
    requires { sum ≤ body_limit }
    ensures { Finds (piece_at sum text.now) (length text.now) result }
{
    match chunk_line(text) {
        ChunkLine::Whole { size, taken } => behind_line(text, sum, size, taken),
        ChunkLine::Bad => Chunk::Refused(BAD_REQUEST),
        ChunkLine::Cut => Chunk::Cut {
            need: text.len() + 1,
        },
    }
}

/// What follows a chunk line of this size, which takes so many bytes.
fn behind_line(text: &[u8], sum: usize, size: u64, taken: usize) -> Chunk
    requires few { sum ≤ body_limit }
    requires within { taken ≤ length text.now }
    ensures { Finds (behind_line sum text.now (line.Whole size taken)) (length text.now) result }
{
    if size > BODY_LIMIT - sum as u64 {
        return Chunk::Refused(CONTENT_TOO_LARGE);
    }
    if size == 0 {
        return Chunk::Last { line: taken };
    }
    let size = size as usize;
    match data_end(behind(text, taken + size)) {
        DataEnd::Ended => Chunk::Data { line: taken, size },
        DataEnd::Missing => Chunk::Cut {
            need: taken + size + 2,
        },
        DataEnd::Wrong => Chunk::Refused(BAD_REQUEST),
    }
}

/// What stands behind so many bytes.
pub(crate) fn behind(text: &[u8], count: usize) -> &[u8]
    ensures { result.now ≡ drop count text.now }
{
    if count < text.len() {
        &text[count..]
    } else {
        &[]
    }
}

fn data_end(text: &[u8]) -> DataEnd
    ensures { result ≡ data_end text.now }
{
    let Some((first, rest)) = text.split_first() else {
        return DataEnd::Missing;
    };
    if *first != b'\r' {
        return DataEnd::Wrong;
    }
    match rest.first() {
        None => DataEnd::Missing,
        Some(byte) => {
            if *byte == b'\n' {
                DataEnd::Ended
            } else {
                DataEnd::Wrong
            }
        }
    }
}
