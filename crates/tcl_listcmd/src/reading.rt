//! `list`, `llength`, `lindex` and `lrange`.

ghost use Rattle.std.specs.Prelude.{◌≡◌, ◌<◌, length, codes, decimal, Ok, [], unwrap_or};
ghost use Rattle.std.specs.Option.{option_copied};
ghost use Rattle.txt_core.specs.Quoting.{quoting};
ghost use Rattle.natives.specs.Answers.{Answers};
ghost use Rattle.natives.specs.Indexes.{at_place, part_between};
ghost use Rattle.natives.specs.Lists.{list_reply, llength_reply, lindex_reply, lindex_in, lrange_reply, lrange_in};
ghost use Rattle.natives.specs.Pure.{pure_of};
ghost use Rattle.natives.specs.Ranges.{InRange};

use crate::elements::{cut_behind, last_of, text_of};
use natives::{Fault, cut_place, index_in, list_in, within_limit, word_at};
use std::alloc::Global;
use txt_core::{Text, Words, write_natural};

/// The words behind the first one as a list.
fn list(alloc: Global, words: &Words) -> Result<Text, Fault>
    requires { 0 < length words.now }
    ensures { Answers (list_reply words.now) result }
{
    let list = Words::of_copies(alloc, &words.as_slice()[1..])?;
    text_of(alloc, &list)
}

/// `list word*`: the words as a list.
///
/// # Errors
///
/// `value too long` exactly where the list's text is over the limit; `NoMemory` for want of memory
/// alone.
#[tactic(auto, unfolding(natives::specs::Ranges::range_of))]
pub fn list_command(alloc: Global, words: &Words) -> Result<Text, Fault>
    requires { InRange (codes "list") words.now }
    ensures { Answers (pure_of (codes "list") words.now) result }
{
    within_limit(alloc, list(alloc, words))
}

/// A count in decimal. Its only error is want of memory.
fn count_text(alloc: Global, count: usize) -> Result<Text, Fault>
    ensures { Answers (Ok (decimal count)) result }
{
    Ok(write_natural(alloc, count as u64)?)
}

/// How many elements the list has.
fn llength(alloc: Global, words: &Words) -> Result<Text, Fault>
    requires { 1 < length words.now }
    ensures { Answers (llength_reply words.now) result }
{
    let list = list_in(alloc, word_at(words, 1))?;
    count_text(alloc, list.len())
}

/// `llength list`: how many elements the list has.
///
/// # Errors
///
/// `bad list at PLACE` exactly where the word is no list; `NoMemory` for want of memory alone.
#[tactic(auto, unfolding(natives::specs::Ranges::range_of))]
pub fn llength_command(alloc: Global, words: &Words) -> Result<Text, Fault>
    requires { InRange (codes "llength") words.now }
    ensures { Answers (pure_of (codes "llength") words.now) result }
{
    within_limit(alloc, llength(alloc, words))
}

/// The element at a place; `None` exactly where there is none.
fn at_place(list: &Words, place: i128) -> Option<&Text>
    ensures { option_copied result ≡ at_place list.now place }
{
    if place < 0 {
        return None;
    }
    list.get(cut_place(place, list.len()))
}

/// A copy of the element at a place, or the empty text where there is none. Its only error is want
/// of memory.
fn element_at(alloc: Global, list: &Words, place: i128) -> Result<Text, Fault>
    ensures { Answers (Ok (unwrap_or (at_place list.now place) [])) result }
{
    match at_place(list, place) {
        Some(element) => Ok(element.copy(alloc)?),
        None => Ok(Text::empty(alloc)),
    }
}

/// The element that an index names.
fn indexed(alloc: Global, list: &Words, index: &Text) -> Result<Text, Fault>
    ensures { Answers (lindex_in list.now index.now) result }
{
    let place = index_in(alloc, index, last_of(list), "lindex")?;
    element_at(alloc, list, place)
}

/// The element that an index names, of a word that must be a list.
fn lindex(alloc: Global, words: &Words) -> Result<Text, Fault>
    requires { 2 < length words.now }
    ensures { Answers (lindex_reply words.now) result }
{
    let list = list_in(alloc, word_at(words, 1))?;
    indexed(alloc, &list, word_at(words, 2))
}

/// `lindex list i`: the element at place i, or the empty text where there is none.
///
/// # Errors
///
/// In this order: `bad list at PLACE` where the first word is no list, `bad value "I" for "lindex"`
/// where the second is no index; `value too long` where the element is over the limit. `NoMemory`
/// for want of memory alone.
#[tactic(auto, unfolding(natives::specs::Ranges::range_of))]
pub fn lindex_command(alloc: Global, words: &Words) -> Result<Text, Fault>
    requires { InRange (codes "lindex") words.now }
    ensures { Answers (pure_of (codes "lindex") words.now) result }
{
    within_limit(alloc, lindex(alloc, words))
}

/// The elements from one place up to another, both included, as far as they are there.
fn part_between(list: &Words, first: i128, last: i128) -> &[Text]
    ensures { result.now ≡ part_between list.now first last }
{
    let end = cut_behind(last, list.len());
    let start = cut_place(first, end);
    &list.as_slice()[start..end]
}

/// The text of the elements from one place up to another. Its only error is want of memory.
fn part_text(alloc: Global, list: &Words, first: i128, last: i128) -> Result<Text, Fault>
    ensures { Answers (Ok (quoting (part_between list.now first last))) result }
{
    let part = Words::of_copies(alloc, part_between(list, first, last))?;
    text_of(alloc, &part)
}

/// The elements from the place of one index up to that of another.
fn ranged(alloc: Global, list: &Words, first: &Text, last: &Text) -> Result<Text, Fault>
    ensures { Answers (lrange_in list.now first.now last.now) result }
{
    let first = index_in(alloc, first, last_of(list), "lrange")?;
    let last = index_in(alloc, last, last_of(list), "lrange")?;
    part_text(alloc, list, first, last)
}

/// The elements from the place of one index up to that of another, of a word that must be a list.
fn lrange(alloc: Global, words: &Words) -> Result<Text, Fault>
    requires { 3 < length words.now }
    ensures { Answers (lrange_reply words.now) result }
{
    let list = list_in(alloc, word_at(words, 1))?;
    ranged(alloc, &list, word_at(words, 2), word_at(words, 3))
}

/// `lrange list a b`: the list of the elements from place a up to place b, both included, as far as
/// they are there.
///
/// # Errors
///
/// In this order: `bad list at PLACE` where the first word is no list, `bad value "I" for "lrange"`
/// for the first of the others that is no index; `value too long` where the list is over the limit.
/// `NoMemory` for want of memory alone.
#[tactic(auto, unfolding(natives::specs::Ranges::range_of))]
pub fn lrange_command(alloc: Global, words: &Words) -> Result<Text, Fault>
    requires { InRange (codes "lrange") words.now }
    ensures { Answers (pure_of (codes "lrange") words.now) result }
{
    within_limit(alloc, lrange(alloc, words))
}
