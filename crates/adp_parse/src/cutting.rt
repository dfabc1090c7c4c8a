//! A page cut into its pieces.

ghost use Rattle.std.specs.Prelude.{◌≡◌, ◌++◌, ◌∷◌, [], OnOk, IfOk};
ghost use Rattle.adp_parse.specs.Pieces.{ArePiecesOf};
ghost use Rattle.adp_parse.specs.PiecesOf.{pieces_of};
ghost use Rattle.adp_parse.specs.Steps.{text_of, block_of};

use crate::marks::first_block;
use crate::piece::{Piece, PieceList, Pieces};
use std::alloc::Global;
use txt_core::{NoMemory, Text, Words};

/// What stands first in a block of words.
const WORDS: &[u8] = b"=";

/// Puts what stands outside the blocks at the end of a list, where there is any.
fn push_text(alloc: Global, list: &mut PieceList, text: &[u8]) -> Result<(), NoMemory>
    ensures { OnOk result (list.new ≡ list.old ++ text_of text.now) }
{
    if text.is_empty() {
        return Ok(());
    }
    list.add(Piece::Text(Text::new(alloc, text)?))
}

/// The piece of a block with this content.
fn block(alloc: Global, content: &[u8]) -> Result<Piece, NoMemory>
    ensures { IfOk result (λ piece. piece ≡ block_of content.now) }
{
    match content.strip_prefix(WORDS) {
        Some(words) => Ok(Piece::Words(Text::new(alloc, words)?)),
        None => Ok(Piece::Script(Text::new(alloc, content)?)),
    }
}

/// The pieces of a page, with the arguments that it is given. From left to right `<%` opens a
/// block, which the first `%>` behind those two bytes closes; `<%=` opens a block of words. All
/// else is text, also a `<%` that nothing closes and what stands behind it. Texts are never empty.
/// Takes time linear in the page.
pub fn pieces(alloc: Global, page: &Text, args: Words) -> Result<Pieces, NoMemory>
    ensures list { IfOk result (λ made. ArePiecesOf page.now made.list) }
    ensures named { IfOk result (λ made. made.list ≡ pieces_of page.now) }
    ensures args { IfOk result (λ made. made.args ≡ args) }
{
    let mut list = PieceList::new(alloc);
    let mut rest = page.bytes();
    'next_block: while let Some(found) = first_block(rest) {
        push_text(alloc, &mut list, found.before)?;
        list.add(block(alloc, found.content)?)?;
        rest = found.behind;
    }
    push_text(alloc, &mut list, rest)?;
    Ok(Pieces { list, args })
}
