//! `format`: a pattern with its forms filled in.

ghost use Rattle.std.specs.Prelude.{◌≡◌, ◌<◌, ◌≤◌, true, codes, drop, length};
ghost use Rattle.natives.specs.Answers.{Answers};
ghost use Rattle.natives.specs.Formatting.{takes_word, format_with, format_reply};
ghost use Rattle.natives.specs.Parts.{taken_by, parts};
ghost use Rattle.natives.specs.Pure.{pure_of};
ghost use Rattle.natives.specs.Ranges.{InRange};
ghost use Rattle.tcl_string.specs.Early.{Comes};
ghost use Rattle.tcl_string.specs.Patterns.{part_of, Fits, written_of};

use crate::filling::put_next;
use crate::output::Output;
use crate::pattern::{Part, first_part, takes_word, words_taken};
use natives::{Fault, within_limit, word_at};
use std::alloc::Global;
use txt_core::{Text, Words};

/// The words behind the one that a part takes, if it takes one.
fn words_behind(part: Part, words: &[Text]) -> &[Text]
    requires { takes_word (part_of part) ≡ true → 0 < length words.now }
    ensures { result.now ≡ drop (taken_by (takes_word (part_of part))) words.now }
{
    if takes_word(part) { &words[1..] } else { words }
}

/// The parts of a pattern written from left to right, each form that takes a word with the next one.
/// Of a text over the limit of a value nothing is kept, but the words behind are looked at.
fn written(alloc: Global, pattern: &[u8], words: &[Text]) -> Result<Text, Fault>
    requires { Fits (parts pattern.now) words.now }
    ensures { Comes (written_of (parts pattern.now) words.now) result }
{
    let mut out = Output::empty(alloc);
    let mut rest = pattern;
    let mut left = words;
    'parts: while let Some((byte, behind)) = rest.split_first() {
        let Some((part, more)) = first_part(*byte, behind) else {
            unreachable!();
        };
        out = put_next(alloc, out, part, left)?;
        left = words_behind(part, left);
        rest = more;
    }
    out.into_text(alloc)
}

/// What a pattern and the words behind it come to, before the length is judged.
fn format_words(alloc: Global, pattern: &[u8], words: &[Text]) -> Result<Text, Fault>
    ensures { Comes (format_with pattern.now (parts pattern.now) words.now) result }
{
    let Some(taken) = words_taken(pattern) else {
        return Err(Fault::bad_value(alloc, pattern, "format"));
    };
    if words.len() < taken {
        return Err(Fault::wrong_words(alloc, "format"));
    }
    written(alloc, pattern, words)
}

/// What `format` comes to, before its length is judged.
fn format_reply(alloc: Global, words: &Words) -> Result<Text, Fault>
    requires { 2 ≤ length words.now }
    ensures { Comes (format_reply words.now) result }
{
    format_words(alloc, word_at(words, 1).bytes(), &words.as_slice()[2..])
}

/// `format pattern word*`: the pattern, in which each form stands for the next word.
///
/// A form is `%`, an optional `-`, an optional `0`, an optional width up to 1,000 and a letter: `d`
/// for a number in decimal, `x` for its 64 bits in hexadecimal, `c` for the character with this
/// number, `s` for the word, and `%` for itself. What is narrower than the width is filled up: behind
/// it with spaces for `-`, else with zeros behind a sign for `0`, else with spaces before it. Surplus
/// words are passed over.
///
/// # Errors
///
/// `Error` exactly where a `%` begins no form; else where there are too few words; else where a word
/// isn't what its form takes, the first such; else where the text is over the limit of a value.
/// `NoMemory` for want of memory alone.
#[tactic(auto, unfolding(natives::specs::Ranges::range_of))]
pub fn format_command(alloc: Global, words: &Words) -> Result<Text, Fault>
    requires { InRange (codes "format") words.now }
    ensures { Answers (pure_of (codes "format") words.now) result }
{
    within_limit(alloc, format_reply(alloc, words))
}
