//! Indexes: words that name a place.

ghost use Rattle.std.specs.Prelude.{◌≡◌, min};
ghost use Rattle.txt_core.specs.Number.{number};
ghost use Rattle.natives.specs.Answers.{Tried};
ghost use Rattle.natives.specs.Indexes.{place_of, place_before, index_error, index, cut};

use crate::fault::Fault;
use std::alloc::Global;
use txt_core::{Text, read_int_bytes};

/// The number that these bytes are, with room for sums.
fn number_of(word: &[u8]) -> Option<i128>
    ensures { result ≡ number word.now }
{
    read_int_bytes(word).map(i128::from)
}

/// The place that stands so many places before another.
fn place_before(last: i64, behind: &[u8]) -> Option<i128>
    ensures { result ≡ place_before last (number behind.now) }
{
    read_int_bytes(behind).map(|n| i128::from(last) - i128::from(n))
}

/// The place that an index names, where `end` names the place `last`: a number is itself, `end-N`
/// is N places before `last`. `None` exactly where the word is of none of these forms.
pub fn read_index(word: &[u8], last: i64) -> Option<i128>
    ensures { result ≡ place_of last word.now }
{
    if word == b"end".as_slice() {
        return Some(i128::from(last));
    }
    if word.starts_with(b"end-") {
        return place_before(last, &word[4..]);
    }
    number_of(word)
}

/// The place that an index of a command names.
///
/// # Errors
///
/// `Error` exactly where the word is no index, with the text `bad value "WORD" for "COMMAND"`;
/// `NoMemory` for want of memory alone.
pub fn index_in(alloc: Global, word: &Text, last: i64, command: &str) -> Result<i128, Fault>
    ensures { Tried (index_error command.now last word.now) (λ place. place ≡ index last word.now)
        result }
{
    match read_index(word.bytes(), last) {
        Some(place) => Ok(place),
        None => Err(Fault::bad_value(alloc, word.bytes(), command)),
    }
}

/// A place, cut to the first one and to `most`.
pub fn cut_place(place: i128, most: usize) -> usize
    ensures { result ≡ min (cut place) most }
{
    if place < 0 {
        return 0;
    }
    match usize::try_from(place) {
        Ok(place) => place.min(most),
        Err(_) => most,
    }
}
