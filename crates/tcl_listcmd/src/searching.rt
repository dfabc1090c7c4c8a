//! `lsearch`.

ghost use Rattle.std.specs.Prelude.{◌≡◌, ◌<◌, length, position, codes, Ok};
ghost use Rattle.natives.specs.Answers.{Answers};
ghost use Rattle.natives.specs.Searching.{is_found, is_search_option, is_no_search_option, place_text, lsearch_list, lsearch_reply};
ghost use Rattle.natives.specs.Pure.{pure_of};
ghost use Rattle.natives.specs.Ranges.{InRange};

use crate::options::{check_options, is_word, last_is};
use natives::{Fault, list_in, within_limit, word_at};
use std::alloc::Global;
use txt_core::{Text, Words, glob, write_natural};

/// Whether a word is an option of `lsearch`.
fn is_option(word: &Text) -> bool
    ensures { result ≡ is_search_option word.now }
{
    is_word(word, b"-exact") || is_word(word, b"-glob")
}

/// Where the first word stands that is no option of `lsearch`.
fn other_word(options: &[Text]) -> Option<usize>
    ensures { result ≡ position is_no_search_option options.now }
{
    options.iter().position(|word| !is_option(word))
}

/// Whether an element is the one that is looked for.
fn is_found(exact: bool, pattern: &Text, element: &Text) -> bool
    ensures { result ≡ is_found exact pattern.now element.now }
{
    if exact {
        element == pattern
    } else {
        glob(pattern, element)
    }
}

/// The place of the first element that is looked for.
fn place_of(list: &Words, exact: bool, pattern: &Text) -> Option<usize>
    ensures { result ≡ position (is_found exact pattern.now) list.now }
{
    list.as_slice()
        .iter()
        .position(|element| is_found(exact, pattern, element))
}

/// A place in decimal, or -1 where there is none. Its only error is want of memory.
fn place_text(alloc: Global, place: Option<usize>) -> Result<Text, Fault>
    ensures { Answers (Ok (place_text place)) result }
{
    match place {
        None => Ok(Text::new(alloc, b"-1")?),
        Some(place) => Ok(write_natural(alloc, place as u64)?),
    }
}

/// Searches a word that must be a list.
fn searched(alloc: Global, options: &[Text], list: &Text, pattern: &Text) -> Result<Text, Fault>
    ensures { Answers (lsearch_list options.now list.now pattern.now) result }
{
    let exact = last_is(options, b"-exact", b"-glob");
    let list = list_in(alloc, list)?;
    place_text(alloc, place_of(&list, exact, pattern))
}

/// Looks at the options, and searches the word before the last.
fn lsearch(alloc: Global, words: &Words) -> Result<Text, Fault>
    requires { 2 < length words.now }
    ensures { Answers (lsearch_reply words.now) result }
{
    let list = words.len() - 2;
    let options = &words.as_slice()[1..list];
    check_options(alloc, options, other_word(options), "lsearch")?;
    searched(
        alloc,
        options,
        word_at(words, list),
        word_at(words, list + 1),
    )
}

/// `lsearch ?-exact? ?-glob? list pattern`: the place of the first element that the pattern matches
/// or, behind `-exact`, that is the text itself; -1 where there is none. The last two words are the
/// list and the pattern, whatever they spell, and each word before them must be an option.
///
/// # Errors
///
/// In this order: `bad value "WORD" for "lsearch"` of the first word before the last two that is no
/// option; `bad list at PLACE` where the list is none. `NoMemory` for want of memory alone.
#[tactic(auto, unfolding(natives::specs::Ranges::range_of))]
pub fn lsearch_command(alloc: Global, words: &Words) -> Result<Text, Fault>
    requires { InRange (codes "lsearch") words.now }
    ensures { Answers (pure_of (codes "lsearch") words.now) result }
{
    within_limit(alloc, lsearch(alloc, words))
}
