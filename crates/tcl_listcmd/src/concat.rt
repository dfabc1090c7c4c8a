//! `concat`.

ghost use Rattle.std.specs.Prelude.{◌≡◌, ◌<◌, length, map, OnOk, codes};
ghost use Rattle.txt_core.specs.Number.{trimmed};
ghost use Rattle.natives.specs.Answers.{Answers};
ghost use Rattle.natives.specs.Lists.{concat_reply};
ghost use Rattle.natives.specs.Pure.{pure_of};
ghost use Rattle.natives.specs.Ranges.{InRange};
ghost use Rattle.tcl_listcmd.specs.Joining.{with_word, with_words};

use natives::{Fault, within_limit};
use std::alloc::Global;
use txt_core::{NoMemory, Text, Words, trim};

/// Puts a text behind those that are joined already, with a space between; an empty one is left out.
fn put_word(joined: &mut Text, word: &[u8]) -> Result<(), NoMemory>
    ensures { OnOk result (joined.new ≡ with_word joined.old word.now) }
{
    if word.is_empty() {
        return Ok(());
    }
    if !joined.is_empty() {
        joined.append(b" ")?;
    }
    joined.append(word)
}

/// Puts words, each without what surrounds it, behind those that are joined already.
fn put_words(joined: &mut Text, words: &[Text]) -> Result<(), NoMemory>
    ensures { OnOk result (joined.new ≡ with_words joined.old (map trimmed words.now)) }
{
    'words: for word in words {
        put_word(joined, trim(word.bytes()))?;
    }
    Ok(())
}

/// The words behind the first one, joined.
fn concat(alloc: Global, words: &Words) -> Result<Text, Fault>
    requires { 0 < length words.now }
    ensures { Answers (concat_reply words.now) result }
{
    let mut joined = Text::empty(alloc);
    put_words(&mut joined, &words.as_slice()[1..])?;
    Ok(joined)
}

/// `concat word*`: each word without the blanks and newlines round it, the empty ones left out, with
/// a space between each two.
///
/// # Errors
///
/// `value too long` exactly where the text is over the limit; `NoMemory` for want of memory alone.
#[tactic(auto, unfolding(natives::specs::Ranges::range_of))]
pub fn concat_command(alloc: Global, words: &Words) -> Result<Text, Fault>
    requires { InRange (codes "concat") words.now }
    ensures { Answers (pure_of (codes "concat") words.now) result }
{
    within_limit(alloc, concat(alloc, words))
}
