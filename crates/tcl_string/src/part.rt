//! Parts of a text by their places.

ghost use Rattle.std.specs.Prelude.{◌≡◌, ◌≤◌, ◌+ℤ◌, pos, length, min, option_to_list};
ghost use Rattle.natives.specs.Answers.{Answers};
ghost use Rattle.natives.specs.Indexes.{cut, at_place, part_between, last_of};
ghost use Rattle.natives.specs.Strings.{index_in, index_reply, range_in, range_reply};

use natives::{Fault, cut_place, index_in, word_at};
use std::alloc::Global;
use txt_core::{Text, Words};

/// The last place of so many bytes, -1 where there are none.
fn last_place(bytes: &[u8]) -> i64
    ensures { result ≡ last_of (length bytes.now) }
{
    bytes.len() as i64 - 1
}

/// The byte at a place as a text, which is empty where there is none.
fn byte_at(bytes: &[u8], place: i128) -> &[u8]
    ensures { result.now ≡ option_to_list (at_place bytes.now place) }
{
    match usize::try_from(place) {
        Ok(at) if at < bytes.len() => &bytes[at..at + 1],
        _ => &bytes[..0],
    }
}

/// The place behind a place, cut to the first one and to `most`.
fn cut_behind(place: i128, most: usize) -> usize
    ensures { result ≡ min (cut (place +ℤ pos 1)) most }
{
    if place < 0 {
        return 0;
    }
    match usize::try_from(place) {
        Ok(place) if place < most => place + 1,
        _ => most,
    }
}

/// The bytes from one place up to another, both included, as far as they are there.
fn part_between(bytes: &[u8], from: i128, to: i128) -> &[u8]
    ensures { result.now ≡ part_between bytes.now from to }
{
    let end = cut_behind(to, bytes.len());
    let start = cut_place(from, end);
    &bytes[start..end]
}

/// The byte of a text at an index.
fn index_of(alloc: Global, text: &Text, i: &Text) -> Result<Text, Fault>
    ensures { Answers (index_in text.now i.now) result }
{
    let bytes = text.bytes();
    let place = index_in(alloc, i, last_place(bytes), "string")?;
    Ok(Text::new(alloc, byte_at(bytes, place))?)
}

/// The bytes of a text from one index up to another.
fn range_of(alloc: Global, text: &Text, from: &Text, to: &Text) -> Result<Text, Fault>
    ensures { Answers (range_in text.now from.now to.now) result }
{
    let bytes = text.bytes();
    let last = last_place(bytes);
    let from = index_in(alloc, from, last, "string")?;
    let to = index_in(alloc, to, last, "string")?;
    Ok(Text::new(alloc, part_between(bytes, from, to))?)
}

/// `string index s i`.
pub fn index(alloc: Global, words: &Words) -> Result<Text, Fault>
    requires { 4 ≤ length words.now }
    ensures { Answers (index_reply words.now) result }
{
    index_of(alloc, word_at(words, 2), word_at(words, 3))
}

/// `string range s a b`.
pub fn range(alloc: Global, words: &Words) -> Result<Text, Fault>
    requires { 5 ≤ length words.now }
    ensures { Answers (range_reply words.now) result }
{
    range_of(
        alloc,
        word_at(words, 2),
        word_at(words, 3),
        word_at(words, 4),
    )
}
