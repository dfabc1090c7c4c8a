//! `linsert` and `lreplace`.

ghost use Rattle.std.specs.Prelude.{◌<◌, length, codes, Ok};
ghost use Rattle.txt_core.specs.Quoting.{quoting};
ghost use Rattle.natives.specs.Answers.{Answers};
ghost use Rattle.natives.specs.Lists.{put_before, replaced, linsert_in, linsert_reply, lreplace_in, lreplace_reply};
ghost use Rattle.natives.specs.Pure.{pure_of};
ghost use Rattle.natives.specs.Ranges.{InRange};

use crate::elements::{cut_behind, last_of, text_of_parts};
use natives::{Fault, cut_place, index_in, list_in, within_limit, word_at};
use std::alloc::Global;
use txt_core::{Text, Words};

/// The text of a list with more elements before a place of it. Its only error is want of memory.
fn put_before(alloc: Global, list: &Words, place: i128, more: &[Text]) -> Result<Text, Fault>
    ensures { Answers (Ok (quoting (put_before list.now place more.now))) result }
{
    let elements = list.as_slice();
    let at = cut_place(place, elements.len());
    text_of_parts(alloc, &elements[..at], more, &elements[at..])
}

/// More elements put before the place of an index, where `end` is behind the last.
fn inserted(alloc: Global, list: &Words, index: &Text, more: &[Text]) -> Result<Text, Fault>
    ensures { Answers (linsert_in list.now index.now more.now) result }
{
    let place = index_in(alloc, index, list.as_slice().len() as i64, "linsert")?;
    put_before(alloc, list, place, more)
}

/// Words put into a word that must be a list.
fn linsert(alloc: Global, words: &Words) -> Result<Text, Fault>
    requires { 2 < length words.now }
    ensures { Answers (linsert_reply words.now) result }
{
    let list = list_in(alloc, word_at(words, 1))?;
    inserted(alloc, &list, word_at(words, 2), &words.as_slice()[3..])
}

/// `linsert list i word word*`: the list with the words before place i, where `end` is behind the
/// last element; a place that isn't there is cut to the nearest.
///
/// # Errors
///
/// In this order: `bad list at PLACE` where the first word is no list, `bad value "I" for "linsert"`
/// where the second is no index; `value too long` where the list is over the limit. `NoMemory` for
/// want of memory alone.
#[tactic(auto, unfolding(natives::specs::Ranges::range_of))]
pub fn linsert_command(alloc: Global, words: &Words) -> Result<Text, Fault>
    requires { InRange (codes "linsert") words.now }
    ensures { Answers (pure_of (codes "linsert") words.now) result }
{
    within_limit(alloc, linsert(alloc, words))
}

/// The text of a list with other elements in the place of those between two places. Its only error
/// is want of memory.
fn replaced(
    alloc: Global,
    list: &Words,
    first: i128,
    last: i128,
    more: &[Text],
) -> Result<Text, Fault>
    ensures { Answers (Ok (quoting (replaced list.now first last more.now))) result }
{
    let elements = list.as_slice();
    let start = cut_place(first, elements.len());
    let end = cut_behind(last, elements.len()).max(start);
    text_of_parts(alloc, &elements[..start], more, &elements[end..])
}

/// Elements in the place of those from the place of one index up to that of another.
fn replaced_at(
    alloc: Global,
    list: &Words,
    first: &Text,
    last: &Text,
    more: &[Text],
) -> Result<Text, Fault>
    ensures { Answers (lreplace_in list.now first.now last.now more.now) result }
{
    let first = index_in(alloc, first, last_of(list), "lreplace")?;
    let last = index_in(alloc, last, last_of(list), "lreplace")?;
    replaced(alloc, list, first, last, more)
}

/// Words in the place of elements of a word that must be a list.
fn lreplace(alloc: Global, words: &Words) -> Result<Text, Fault>
    requires { 3 < length words.now }
    ensures { Answers (lreplace_reply words.now) result }
{
    let list = list_in(alloc, word_at(words, 1))?;
    replaced_at(
        alloc,
        &list,
        word_at(words, 2),
        word_at(words, 3),
        &words.as_slice()[4..],
    )
}

/// `lreplace list a b word*`: the list with the words in the place of the elements from place a up
/// to place b, both included, as far as they are there; where b is before a, no element goes and the
/// words are put before a.
///
/// # Errors
///
/// In this order: `bad list at PLACE` where the first word is no list, `bad value "I" for
/// "lreplace"` for the first of the next two that is no index; `value too long` where the list is
/// over the limit. `NoMemory` for want of memory alone.
#[tactic(auto, unfolding(natives::specs::Ranges::range_of))]
pub fn lreplace_command(alloc: Global, words: &Words) -> Result<Text, Fault>
    requires { InRange (codes "lreplace") words.now }
    ensures { Answers (pure_of (codes "lreplace") words.now) result }
{
    within_limit(alloc, lreplace(alloc, words))
}
