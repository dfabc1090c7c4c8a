//! Words that may be left out.

ghost use Rattle.std.specs.Prelude.{◌≡◌};
ghost use Rattle.natives.specs.Words.{arg_or};

use txt_core::Words;

/// The bytes that are meant where none are given: space, tab, newline and carriage return.
pub const USUAL_CHARS: &[u8] = b" \t\n\r";

/// The word at a place, or these bytes where it is left out.
pub fn word_or<'a>(words: &'a Words, at: usize, bytes: &'a [u8]) -> &'a [u8]
    ensures { result.now ≡ arg_or words.now at bytes.now }
{
    match words.get(at) {
        Some(word) => word.bytes(),
        None => bytes,
    }
}
