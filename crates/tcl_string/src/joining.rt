//! `join`: a list's elements as one text.

ghost use Rattle.std.specs.Prelude.{◌≡◌, ◌≤◌, codes, length, Ok, OnOk};
ghost use Rattle.natives.specs.Answers.{Answers};
ghost use Rattle.natives.specs.Cutting.{join_reply};
ghost use Rattle.natives.specs.Lists.{joined};
ghost use Rattle.natives.specs.Pure.{pure_of};
ghost use Rattle.natives.specs.Ranges.{InRange};
ghost use Rattle.tcl_string.specs.Early.{Comes};
ghost use Rattle.tcl_string.specs.Joins.{with_next};

use crate::argument::word_or;
use natives::{Fault, list_in, within_limit, word_at};
use std::alloc::Global;
use txt_core::{NoMemory, Text, Words, is_too_long};

/// Puts a text behind others, with these bytes before it where it isn't the first.
fn put_next(text: &mut Text, first: bool, between: &[u8], word: &[u8]) -> Result<(), NoMemory>
    ensures { OnOk result (text.new ≡ with_next first text.old between.now word.now) }
{
    if first {
        return text.append(word);
    }
    text.append(between)?;
    text.append(word)
}

/// Texts with these bytes between each two. It stops where they are over the limit of a value.
fn joined(alloc: Global, between: &[u8], list: &Words) -> Result<Text, Fault>
    ensures { Comes (Ok (joined between.now list.now)) result }
{
    let mut text = Text::empty(alloc);
    'items: for at in 0..list.len() {
        put_next(&mut text, at == 0, between, word_at(list, at).bytes())?;
        if is_too_long(&text) {
            return Err(Fault::too_long(alloc));
        }
    }
    Ok(text)
}

/// What `join` comes to, before its length is judged.
fn join_reply(alloc: Global, words: &Words) -> Result<Text, Fault>
    requires { 2 ≤ length words.now }
    ensures { Comes (join_reply words.now) result }
{
    let list = list_in(alloc, word_at(words, 1))?;
    joined(alloc, word_or(words, 2, b" "), &list)
}

/// `join list ?text?`: the elements of the list with the text between each two, a space where it is
/// left out.
///
/// # Errors
///
/// `Error` exactly where the word is no list, with the place where it is bad, or where the text is
/// over the limit of a value; `NoMemory` for want of memory alone.
#[tactic(auto, unfolding(natives::specs::Ranges::range_of))]
pub fn join_command(alloc: Global, words: &Words) -> Result<Text, Fault>
    requires { InRange (codes "join") words.now }
    ensures { Answers (pure_of (codes "join") words.now) result }
{
    within_limit(alloc, join_reply(alloc, words))
}
