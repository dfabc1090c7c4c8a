//! Words of a command, and the limit of what it comes to.

ghost use Rattle.std.specs.Prelude.{◌≡◌, ◌<◌, length};
ghost use Rattle.natives.specs.Answers.{Reply, Answers, Tried, limited, has_long_text};
ghost use Rattle.natives.specs.Checks.{integer_error, integer};
ghost use Rattle.natives.specs.Words.{arg};

use crate::fault::Fault;
use std::alloc::Global;
use txt_core::{Text, Words, is_too_long, read_int};

/// The word at a place, counted from the command's name at 0.
pub fn word_at(words: &Words, at: usize) -> &Text
    requires { at < length words.now }
    ensures { result.now ≡ arg words.now at }
{
    &words.as_slice()[at]
}

/// The number that a word is.
///
/// # Errors
///
/// `Error` exactly where it is none, with the text `expected integer but got "WORD"`; `NoMemory`
/// for want of memory alone.
pub fn number_in(alloc: Global, word: &Text) -> Result<i64, Fault>
    ensures { Tried (integer_error word.now) (λ n. n ≡ integer word.now) result }
{
    match read_int(word) {
        Some(number) => Ok(number),
        None => Err(Fault::no_integer(alloc, word.bytes())),
    }
}

/// Whether an answer has a text over the limit: a result or an error's text.
pub fn has_long_text(answer: &Result<Text, Fault>) -> bool
    ensures { result ≡ has_long_text answer.now }
{
    match answer {
        Ok(text) | Err(Fault::Error(text)) => is_too_long(text),
        Err(Fault::NoMemory) => false,
    }
}

/// What a command answers, or the error `value too long` where its result or its error's text is
/// over the limit.
pub fn within_limit(alloc: Global, answer: Result<Text, Fault>) -> Result<Text, Fault>
    ensures { (reply : Reply) → Answers reply answer → Answers (limited reply) result }
{
    if has_long_text(&answer) {
        return Err(Fault::too_long(alloc));
    }
    answer
}
