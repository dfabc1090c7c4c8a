//! What commands look at before they do anything.

ghost use Rattle.std.specs.Prelude.{◌≡◌, IfOk};
ghost use Rattle.txt_core.specs.ErrorTexts.{wrong_words, unknown_subcommand};
ghost use Rattle.natives.specs.Words.{arg};
ghost use Rattle.tcl_host.specs.Checks.{is_counted, unfit, integer};
ghost use Rattle.tcl_host.specs.Outcomes.{Passes, Finds};

use natives::Fault;
use std::alloc::Global;
use txt_core::{NoMemory, Text, Words, error_text, read_int_bytes};

/// Whether so many words, with the command's name among them, are from the least to the most.
pub fn is_counted(words: &Words, least: usize, most: usize) -> bool
    ensures { result ≡ is_counted least most words.now }
{
    least <= words.len() && words.len() <= most
}

/// Goes on where the number of words is right.
///
/// # Errors
///
/// `Error` exactly where it isn't, with the text `wrong number of words for "NAME"`; `NoMemory` for
/// want of memory alone.
pub fn require_words(alloc: Global, right: bool, words: &Words) -> Result<(), Fault>
    ensures { Passes result right (wrong_words (arg words.now 0)) }
{
    if !right {
        return Err(Fault::saying(error_text::wrong_words(alloc, words.bytes_at(0))));
    }
    Ok(())
}

/// The text of the error of a second word that is none of the command's subcommands. Its only error
/// is want of memory.
pub fn no_subcommand(alloc: Global, words: &Words) -> Result<Text, NoMemory>
    ensures { IfOk result (λ text. text ≡ unknown_subcommand (arg words.now 1) (arg words.now 0)) }
{
    error_text::unknown_subcommand(alloc, words.bytes_at(1), words.bytes_at(0))
}

/// The text of the error of a word, at this place, that the command can't take. Its only error is
/// want of memory.
pub fn unfit(alloc: Global, words: &Words, place: usize) -> Result<Text, NoMemory>
    ensures { IfOk result (λ text. text ≡ unfit words.now place) }
{
    error_text::bad_value(alloc, words.bytes_at(place), words.bytes_at(0))
}

/// Goes on where the command can take the word at a place.
///
/// # Errors
///
/// `Error` exactly where it can't, with the text `bad value "WORD" for "NAME"`; `NoMemory` for want
/// of memory alone.
pub fn require_fit(alloc: Global, fit: bool, words: &Words, place: usize) -> Result<(), Fault>
    ensures { Passes result fit (unfit words.now place) }
{
    if !fit {
        return Err(Fault::saying(unfit(alloc, words, place)));
    }
    Ok(())
}

/// The number that the word at a place is.
///
/// # Errors
///
/// `Error` exactly where it is none, with the text `expected integer but got "WORD"`; `NoMemory` for
/// want of memory alone.
pub fn integer(alloc: Global, words: &Words, place: usize) -> Result<i64, Fault>
    ensures { Finds result (integer words.now place) }
{
    let word = words.bytes_at(place);
    match read_int_bytes(word) {
        Some(number) => Ok(number),
        None => Err(Fault::saying(error_text::no_integer(alloc, word))),
    }
}
