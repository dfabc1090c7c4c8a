//! `split`: a text cut into pieces.

ghost use Rattle.std.specs.Prelude.{◌≡◌, ◌++◌, ◌∷◌, [], IfOk, OnOk, codes};
ghost use Rattle.txt_core.specs.Quoting.{quoting};
ghost use Rattle.natives.specs.Answers.{Answers};
ghost use Rattle.natives.specs.Cutting.{pieces, single_bytes, split_text};
ghost use Rattle.natives.specs.Pure.{pure_of};
ghost use Rattle.natives.specs.Ranges.{InRange};
ghost use Rattle.tcl_string.specs.Sets.{set_has};

use crate::argument::{USUAL_CHARS, word_or};
use crate::byte_set::ByteSet;
use natives::{Fault, within_limit, word_at};
use std::alloc::Global;
use tcl_list::quote;
use txt_core::{NoMemory, Text, Words};

/// Each byte as a word.
fn single_bytes(alloc: Global, bytes: &[u8]) -> Result<Words, NoMemory>
    ensures { IfOk result (λ words. words ≡ single_bytes bytes.now) }
{
    let mut words = Words::new(alloc);
    for byte in bytes {
        words.add(Text::new(alloc, &[*byte])?)?;
    }
    Ok(words)
}

/// The pieces between the bytes that are in a set.
fn pieces(alloc: Global, bytes: &[u8], cuts: &ByteSet) -> Result<Words, NoMemory>
    ensures { IfOk result (λ words. words ≡ pieces (set_has cuts.now.holds) bytes.now) }
{
    let mut words = Words::new(alloc);
    let mut piece = Vec::new(alloc);
    for byte in bytes {
        if cuts.has(*byte) {
            words.add(Text::from_vec(piece))?;
            piece = Vec::new(alloc);
        } else {
            piece.push(*byte)?;
        }
    }
    let last = Text::from_vec(piece);
    words.add(last)?;
    Ok(words)
}

/// The pieces of a text at these bytes: none of the empty text, and each byte where there are no
/// bytes to cut at.
fn split_text(alloc: Global, text: &[u8], chars: &[u8]) -> Result<Words, NoMemory>
    ensures { IfOk result (λ words. words ≡ split_text text.now chars.now) }
{
    if text.is_empty() {
        return Ok(Words::new(alloc));
    }
    if chars.is_empty() {
        return single_bytes(alloc, text);
    }
    pieces(alloc, text, &ByteSet::new(chars))
}

/// The list of a text's pieces.
fn split_list(alloc: Global, text: &[u8], chars: &[u8]) -> Result<Text, NoMemory>
    ensures { IfOk result (λ list. list ≡ quoting (split_text text.now chars.now)) }
{
    quote(alloc, &split_text(alloc, text, chars)?)
}

/// `split text ?chars?`: the list of the text's pieces between the bytes of `chars`, which are
/// space, tab, newline and carriage return where they are left out. The empty text has no piece; an
/// empty `chars` gives single bytes.
///
/// # Errors
///
/// `Error` exactly where the list is over the limit of a value; `NoMemory` for want of memory alone.
#[tactic(auto, unfolding(natives::specs::Ranges::range_of))]
pub fn split_command(alloc: Global, words: &Words) -> Result<Text, Fault>
    requires { InRange (codes "split") words.now }
    ensures { Answers (pure_of (codes "split") words.now) result }
{
    let chars = word_or(words, 2, USUAL_CHARS);
    let list = split_list(alloc, word_at(words, 1).bytes(), chars)?;
    within_limit(alloc, Ok(list))
}
