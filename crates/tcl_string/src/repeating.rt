//! A text a number of times.

ghost use Rattle.std.specs.Prelude.{◌≡◌, ◌≤◌, ◌*◌, length, nat_lt, Ok};
ghost use Rattle.std.specs.List.{repeat};
ghost use Rattle.txt_core.specs.Limits.{most_bytes};
ghost use Rattle.natives.specs.Strings.{repeat_by, repeat_reply};
ghost use Rattle.tcl_string.specs.Early.{Comes};

use natives::{Fault, number_in, word_at};
use std::alloc::Global;
use txt_core::{Text, Words, is_over_limit};

/// Whether so many times so many bytes are over the limit of a value.
fn is_too_much(len: usize, count: usize) -> bool
    ensures { result ≡ nat_lt most_bytes (count * len) }
{
    match len.checked_mul(count) {
        Some(all) => is_over_limit(all),
        None => true,
    }
}

/// A text so many times. What would be over the limit of a value isn't made.
fn times(alloc: Global, text: &[u8], count: usize) -> Result<Text, Fault>
    ensures { Comes (Ok (repeat count text.now)) result }
{
    if is_too_much(text.len(), count) {
        return Err(Fault::too_long(alloc));
    }
    Ok(Text::from_vec(text.repeat(alloc, count)?))
}

/// A text so many times, where the number, which this word is, isn't below 0.
fn repeated(alloc: Global, text: &[u8], word: &[u8], count: i64) -> Result<Text, Fault>
    ensures { Comes (repeat_by text.now word.now count) result }
{
    match usize::try_from(count) {
        Ok(count) => times(alloc, text, count),
        Err(_) => Err(Fault::bad_value(alloc, word, "string")),
    }
}

/// `string repeat s n`.
pub fn repeat(alloc: Global, words: &Words) -> Result<Text, Fault>
    requires { 4 ≤ length words.now }
    ensures { Comes (repeat_reply words.now) result }
{
    let word = word_at(words, 3);
    let count = number_in(alloc, word)?;
    repeated(alloc, word_at(words, 2).bytes(), word.bytes(), count)
}
