//! Where a text stands in another.

ghost use Rattle.std.specs.Prelude.{◌≡◌, ◌≤◌, length, IfOk};
ghost use Rattle.natives.specs.Answers.{Answers};
ghost use Rattle.natives.specs.Searching.{place_text};
ghost use Rattle.natives.specs.Strings.{first_place, last_place, first_reply, last_reply};

use memchr::memmem;
use natives::{Fault, word_at};
use std::alloc::Global;
use txt_core::{NoMemory, Text, Words, write_natural};

/// The first place at which a text stands in another; an empty one stands nowhere.
fn first_place(text: &[u8], within: &[u8]) -> Option<usize>
    ensures { result ≡ first_place text.now within.now }
{
    if text.is_empty() {
        return None;
    }
    memmem::find(within, text)
}

/// The last place at which a text stands in another; an empty one stands nowhere.
fn last_place(text: &[u8], within: &[u8]) -> Option<usize>
    ensures { result ≡ last_place text.now within.now }
{
    if text.is_empty() {
        return None;
    }
    memmem::rfind(within, text)
}

/// A place, or -1 where there is none.
fn place_text(alloc: Global, place: Option<usize>) -> Result<Text, NoMemory>
    ensures { IfOk result (λ text. text ≡ place_text place) }
{
    match place {
        Some(place) => write_natural(alloc, place as u64),
        None => Text::new(alloc, b"-1"),
    }
}

/// `string first a b`.
pub fn first(alloc: Global, words: &Words) -> Result<Text, Fault>
    requires { 4 ≤ length words.now }
    ensures { Answers (first_reply words.now) result }
{
    let place = first_place(word_at(words, 2).bytes(), word_at(words, 3).bytes());
    Ok(place_text(alloc, place)?)
}

/// `string last a b`.
pub fn last(alloc: Global, words: &Words) -> Result<Text, Fault>
    requires { 4 ≤ length words.now }
    ensures { Answers (last_reply words.now) result }
{
    let place = last_place(word_at(words, 2).bytes(), word_at(words, 3).bytes());
    Ok(place_text(alloc, place)?)
}
