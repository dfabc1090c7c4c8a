//! Texts in another case, or without bytes at their ends.

ghost use Rattle.std.specs.Prelude.{◌≡◌, ◌≤◌, length};
ghost use Rattle.natives.specs.Answers.{Answers};
ghost use Rattle.natives.specs.Strings.{without_front, without_end, tolower_reply, toupper_reply, trim_reply, trimleft_reply, trimright_reply};
ghost use Rattle.tcl_string.specs.Sets.{set_has};

use crate::argument::{USUAL_CHARS, word_or};
use crate::byte_set::ByteSet;
use natives::{Fault, word_at};
use std::alloc::Global;
use txt_core::{Text, Words};

/// The bytes without those at their front that are in a set.
fn without_front<'a>(bytes: &'a [u8], set: &ByteSet) -> &'a [u8]
    ensures { result.now ≡ without_front (set_has set.now.holds) bytes.now }
{
    let mut rest = bytes;
    'front: while let Some((byte, tail)) = rest.split_first() {
        if !set.has(*byte) {
            break;
        }
        rest = tail;
    }
    rest
}

/// The bytes without those at their end that are in a set.
fn without_end<'a>(bytes: &'a [u8], set: &ByteSet) -> &'a [u8]
    ensures { result.now ≡ without_end (set_has set.now.holds) bytes.now }
{
    let mut rest = bytes;
    'end: while let Some((byte, front)) = rest.split_last() {
        if !set.has(*byte) {
            break;
        }
        rest = front;
    }
    rest
}

/// `string tolower s`.
pub fn tolower(alloc: Global, words: &Words) -> Result<Text, Fault>
    requires { 3 ≤ length words.now }
    ensures { Answers (tolower_reply words.now) result }
{
    let bytes = word_at(words, 2).bytes();
    let lower = bytes.iter().map(|b| b.to_ascii_lowercase()).collect(alloc)?;
    Ok(Text::from_vec(lower))
}

/// `string toupper s`.
pub fn toupper(alloc: Global, words: &Words) -> Result<Text, Fault>
    requires { 3 ≤ length words.now }
    ensures { Answers (toupper_reply words.now) result }
{
    let bytes = word_at(words, 2).bytes();
    let upper = bytes.iter().map(|b| b.to_ascii_uppercase()).collect(alloc)?;
    Ok(Text::from_vec(upper))
}

/// `string trim s ?chars?`.
pub fn trim(alloc: Global, words: &Words) -> Result<Text, Fault>
    requires { 3 ≤ length words.now }
    ensures { Answers (trim_reply words.now) result }
{
    let set = ByteSet::new(word_or(words, 3, USUAL_CHARS));
    let bytes = word_at(words, 2).bytes();
    Ok(Text::new(alloc, without_end(without_front(bytes, &set), &set))?)
}

/// `string trimleft s ?chars?`.
pub fn trimleft(alloc: Global, words: &Words) -> Result<Text, Fault>
    requires { 3 ≤ length words.now }
    ensures { Answers (trimleft_reply words.now) result }
{
    let set = ByteSet::new(word_or(words, 3, USUAL_CHARS));
    Ok(Text::new(alloc, without_front(word_at(words, 2).bytes(), &set))?)
}

/// `string trimright s ?chars?`.
pub fn trimright(alloc: Global, words: &Words) -> Result<Text, Fault>
    requires { 3 ≤ length words.now }
    ensures { Answers (trimright_reply words.now) result }
{
    let set = ByteSet::new(word_or(words, 3, USUAL_CHARS));
    Ok(Text::new(alloc, without_end(word_at(words, 2).bytes(), &set))?)
}
