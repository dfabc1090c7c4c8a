//! `string`: its subcommands by their names.

ghost use Rattle.std.specs.Prelude.{◌≤◌, codes, length};
ghost use Rattle.natives.specs.Answers.{Answers};
ghost use Rattle.natives.specs.Pure.{pure_of};
ghost use Rattle.natives.specs.Ranges.{InRange};
ghost use Rattle.natives.specs.Strings.{counted};
ghost use Rattle.natives.specs.Subcommands.{least_words, most_words, reply_by, string_reply};
ghost use Rattle.tcl_string.specs.Early.{Comes};

use crate::part::{index, range};
use crate::question::{compare, equal, length, matches};
use crate::repeating::repeat;
use crate::searching::{first, last};
use crate::trimming::{tolower, toupper, trim, trimleft, trimright};
use natives::subcommand::{Subcommand, least_words, most_words, subcommand_named};
use natives::{Fault, within_limit, word_at};
use std::alloc::Global;
use txt_core::{Text, Words};

/// What a subcommand comes to on as many words as it takes.
fn run(alloc: Global, subcommand: Subcommand, words: &Words) -> Result<Text, Fault>
    requires least { least_words subcommand ≤ length words.now }
    requires most { length words.now ≤ most_words subcommand }
    ensures { Comes (reply_by subcommand words.now) result }
{
    match subcommand {
        Subcommand::Length => length(alloc, words),
        Subcommand::Index => index(alloc, words),
        Subcommand::Range => range(alloc, words),
        Subcommand::Compare => compare(alloc, words),
        Subcommand::Equal => equal(alloc, words),
        Subcommand::First => first(alloc, words),
        Subcommand::Last => last(alloc, words),
        Subcommand::Match => matches(alloc, words),
        Subcommand::Tolower => tolower(alloc, words),
        Subcommand::Toupper => toupper(alloc, words),
        Subcommand::Trim => trim(alloc, words),
        Subcommand::Trimleft => trimleft(alloc, words),
        Subcommand::Trimright => trimright(alloc, words),
        Subcommand::Repeat => repeat(alloc, words),
    }
}

/// The same on any number of words.
fn run_counted(alloc: Global, subcommand: Subcommand, words: &Words) -> Result<Text, Fault>
    ensures { Comes
        (counted (least_words subcommand) (most_words subcommand) words.now
        (reply_by subcommand words.now))
        result }
{
    let count = words.len();
    if count < least_words(subcommand) {
        return Err(Fault::wrong_words(alloc, "string"));
    }
    if most_words(subcommand) < count {
        return Err(Fault::wrong_words(alloc, "string"));
    }
    run(alloc, subcommand, words)
}

/// What `string` comes to, before its length is judged.
fn string_reply(alloc: Global, words: &Words) -> Result<Text, Fault>
    requires { 3 ≤ length words.now }
    ensures { Comes (string_reply words.now) result }
{
    let name = word_at(words, 1).bytes();
    match subcommand_named(name) {
        Some(subcommand) => run_counted(alloc, subcommand, words),
        None => Err(Fault::unknown_subcommand(alloc, name, "string")),
    }
}

/// `string subcommand word*`: a text looked at or changed.
///
/// `length s` counts bytes; `index s i` and `range s a b` take bytes by their places; `compare a b`
/// is -1, 0 or 1 by the order of bytes, `equal a b` 1 or 0; `first a b` and `last a b` are the first
/// and the last place of a in b, or -1 (an empty a stands nowhere); `match glob s` is 1 or 0;
/// `tolower s` and `toupper s` change ASCII letters; `trim`, `trimleft` and `trimright` with
/// `s ?chars?` take bytes off the ends; `repeat s n` is s n times.
///
/// # Errors
///
/// `Error` exactly where the words call for one: no subcommand of this name, a wrong number of words
/// for it, a word that is no index or no number, a number of times below 0, a value over
/// the limit. `NoMemory` for want of memory alone.
#[tactic(auto, unfolding(natives::specs::Ranges::range_of))]
pub fn string_command(alloc: Global, words: &Words) -> Result<Text, Fault>
    requires { InRange (codes "string") words.now }
    ensures { Answers (pure_of (codes "string") words.now) result }
{
    within_limit(alloc, string_reply(alloc, words))
}
