//! Where the marks of blocks stand.

ghost use Rattle.std.specs.Prelude.{[], length, ◌<◌, MatchOption};
ghost use Rattle.adp_parse.specs.Marks.{Holds};
ghost use Rattle.adp_parse.specs.Pieces.{OpensBlock};
ghost use Rattle.adp_parse.specs.Steps.{FirstMark, FirstBlock};

use memchr::memmem;

/// What opens a block.
const OPENING: &[u8] = b"<%";

/// What closes a block.
const CLOSING: &[u8] = b"%>";

/// The first closed block of a text, and what stands on both sides of it.
#[derive(Clone, Copy, Debug)]
pub struct Block<'a> {
    pub before: &'a [u8],
    pub content: &'a [u8],
    pub behind: &'a [u8],
}

/// The text before the first such mark, and what stands behind the mark.
fn around<'a>(text: &'a [u8], mark: &[u8]) -> Option<(&'a [u8], &'a [u8])>
    requires { 0 < length mark.now }
    ensures { MatchOption result (¬ Holds text.now mark.now) (λ sides.
        FirstMark text.now mark.now sides.0.now sides.1.now) }
{
    let at = memmem::find(text, mark)?;
    Some((&text[..at], &text[at + mark.len()..]))
}

/// The first block; `None` exactly where no `<%` is closed. Each search goes over bytes that no
/// later one sees again, or is the last.
pub fn first_block(text: &[u8]) -> Option<Block<'_>>
    ensures { MatchOption result (¬ OpensBlock text.now []) (λ block.
        FirstBlock text.now block.before.now block.content.now block.behind.now) }
{
    let (before, inside) = around(text, OPENING)?;
    let (content, behind) = around(inside, CLOSING)?;
    Some(Block {
        before,
        content,
        behind,
    })
}
