//! What `string` tells of whole texts: length, order, equality and match.

ghost use Rattle.std.specs.Prelude.{◌≡◌, ◌≤◌, length, IfOk};
ghost use Rattle.natives.specs.Answers.{Answers};
ghost use Rattle.natives.specs.Strings.{length_reply, compare_reply, equal_reply, match_reply, order_text};

use natives::{Fault, word_at};
use std::alloc::Global;
use std::cmp::Ordering;
use txt_core::{NoMemory, Text, Words, glob, truth_text, write_natural};

/// `string length s`.
pub fn length(alloc: Global, words: &Words) -> Result<Text, Fault>
    requires { 3 ≤ length words.now }
    ensures { Answers (length_reply words.now) result }
{
    Ok(write_natural(alloc, word_at(words, 2).len() as u64)?)
}

/// The order of two texts as a number.
fn order_text(alloc: Global, order: Ordering) -> Result<Text, NoMemory>
    ensures { IfOk result (λ text. text ≡ order_text order) }
{
    match order {
        Ordering::Less => Text::new(alloc, b"-1"),
        Ordering::Equal => Text::new(alloc, b"0"),
        Ordering::Greater => Text::new(alloc, b"1"),
    }
}

/// `string compare a b`.
pub fn compare(alloc: Global, words: &Words) -> Result<Text, Fault>
    requires { 4 ≤ length words.now }
    ensures { Answers (compare_reply words.now) result }
{
    let order = word_at(words, 2).cmp(word_at(words, 3));
    Ok(order_text(alloc, order)?)
}

/// `string equal a b`.
pub fn equal(alloc: Global, words: &Words) -> Result<Text, Fault>
    requires { 4 ≤ length words.now }
    ensures { Answers (equal_reply words.now) result }
{
    let same = word_at(words, 2) == word_at(words, 3);
    Ok(truth_text(alloc, same)?)
}

/// `string match glob s`.
pub fn matches(alloc: Global, words: &Words) -> Result<Text, Fault>
    requires { 4 ≤ length words.now }
    ensures { Answers (match_reply words.now) result }
{
    let found = glob(word_at(words, 2), word_at(words, 3));
    Ok(truth_text(alloc, found)?)
}
