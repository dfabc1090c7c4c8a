//! What commands look at before they do anything.

ghost use Rattle.std.specs.Prelude.{◌≤◌, OnOk, length};
ghost use Rattle.txt_core.specs.ErrorTexts.{wrong_words, unknown_subcommand};
ghost use Rattle.natives.specs.Words.{arg};
ghost use Rattle.natives.specs.Answers.{Says};
ghost use Rattle.conn_host.specs.Answers.{Finds, Passes};
ghost use Rattle.tcl_host.specs.Checks.{is_counted};
ghost use Rattle.conn_host.specs.Checks.{count};

use natives::Fault;
use std::alloc::Global;
use tcl_host::{integer, is_counted, no_subcommand, require_words, unfit};
use txt_core::Words;

/// Goes on where the number of words is in this range.
pub fn require_count(alloc: Global, least: usize, most: usize, words: &Words) -> Result<(), Fault>
    ensures passes { Passes result (is_counted least most words.now)
        (wrong_words (arg words.now 0)) }
    ensures count { OnOk result ((least ≤ length words.now) × (length words.now ≤ most)) }
{
    require_words(alloc, is_counted(words, least, most), words)
}

/// The error of a second word that is none of the command's subcommands.
pub fn unknown_subcommand(alloc: Global, words: &Words) -> Fault
    ensures { Says (unknown_subcommand (arg words.now 1) (arg words.now 0)) result }
{
    Fault::saying(no_subcommand(alloc, words))
}

/// The number from 0 on that the word at a place is.
pub fn count(alloc: Global, words: &Words, place: usize) -> Result<u64, Fault>
    ensures { Finds result (count words.now place) }
{
    let number = integer(alloc, words, place)?;
    if number < 0 {
        return Err(Fault::saying(unfit(alloc, words, place)));
    }
    Ok(number as u64)
}
