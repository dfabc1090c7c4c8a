//! The questions that change nothing.

ghost use Rattle.std.specs.Prelude.{◌≡◌, ◌≤◌, length, IfOk};
ghost use Rattle.std.specs.FinMap as map;
ghost use Rattle.nsv_bucket.specs.Arrays.{seen, array_of};
ghost use Rattle.nsv_bucket.specs.Reads.{get_step, exists_step, names_step, array_get_step, array_names_step, array_size_step, array_exists_step};

use crate::arrays::{Arrays, array_named, has_array, value};
use crate::listing::names;
use crate::message::{answer, no_array, no_key, refuse};
use crate::question::word;
use crate::reply::NsvReply;
use std::alloc::Global;
use tcl_list::quote;
use txt_core::{NoMemory, Text, Words, truth_text, write_natural};

/// Answers `nsv_get`: the value.
pub(crate) fn get(alloc: Global, arrays: &Arrays, words: &Words) -> Result<NsvReply, NoMemory>
    requires { 3 ≤ length words.now }
    ensures { IfOk result (λ reply. reply ≡ (get_step (seen arrays.now) words.now).0) }
{
    let name = word(words, 1);
    let key = word(words, 2);
    match array_named(arrays, name) {
        None => refuse(alloc, no_array(alloc, name)?),
        Some(array) => match array.get(key) {
            None => refuse(alloc, no_key(alloc, key, name)?),
            Some(value) => answer(alloc, value.copy(alloc)?),
        },
    }
}

/// Answers `nsv_exists`: 1 where the array has the key, else 0.
pub(crate) fn exists(alloc: Global, arrays: &Arrays, words: &Words) -> Result<NsvReply, NoMemory>
    requires { 3 ≤ length words.now }
    ensures { IfOk result (λ reply. reply ≡ (exists_step (seen arrays.now) words.now).0) }
{
    let standing = value(arrays, word(words, 1), word(words, 2));
    answer(alloc, truth_text(alloc, standing.is_some())?)
}

/// Answers `nsv_names`: the list of the names.
pub(crate) fn names_of_arrays(
    alloc: Global,
    arrays: &Arrays,
    words: &Words,
) -> Result<NsvReply, NoMemory>
    ensures { IfOk result (λ reply. reply ≡ (names_step (seen arrays.now) words.now).0) }
{
    let found = names(alloc, arrays, words.get(2))?;
    answer(alloc, quote(alloc, &found)?)
}

/// Answers `nsv_array get`: the list of keys and values.
pub(crate) fn array_get(alloc: Global, arrays: &Arrays, words: &Words) -> Result<NsvReply, NoMemory>
    requires { 3 ≤ length words.now }
    ensures { IfOk result (λ reply. reply ≡ (array_get_step (seen arrays.now) words.now).0) }
{
    match array_named(arrays, word(words, 2)) {
        None => answer(alloc, Text::empty(alloc)),
        Some(array) => {
            let found = array.pairs(alloc, words.get(3))?;
            answer(alloc, quote(alloc, &found)?)
        }
    }
}

/// Answers `nsv_array names`: the list of keys.
pub(crate) fn array_names(
    alloc: Global,
    arrays: &Arrays,
    words: &Words,
) -> Result<NsvReply, NoMemory>
    requires { 3 ≤ length words.now }
    ensures { IfOk result (λ reply. reply ≡ (array_names_step (seen arrays.now) words.now).0) }
{
    match array_named(arrays, word(words, 2)) {
        None => answer(alloc, Text::empty(alloc)),
        Some(array) => {
            let found = array.names(alloc, words.get(3))?;
            answer(alloc, quote(alloc, &found)?)
        }
    }
}

/// How many keys the array of this name holds; 0 where there is none.
fn size_of(arrays: &Arrays, name: &Text) -> usize
    ensures { result ≡ map.len (array_of (seen arrays.now) name.now) }
{
    match array_named(arrays, name) {
        None => 0,
        Some(array) => array.len(),
    }
}

/// Answers `nsv_array size`: how many keys there are.
pub(crate) fn array_size(
    alloc: Global,
    arrays: &Arrays,
    words: &Words,
) -> Result<NsvReply, NoMemory>
    requires { 3 ≤ length words.now }
    ensures { IfOk result (λ reply. reply ≡ (array_size_step (seen arrays.now) words.now).0) }
{
    let size = size_of(arrays, word(words, 2));
    answer(alloc, write_natural(alloc, size as u64)?)
}

/// Answers `nsv_array exists`: 1 where there is the array, else 0.
pub(crate) fn array_exists(
    alloc: Global,
    arrays: &Arrays,
    words: &Words,
) -> Result<NsvReply, NoMemory>
    requires { 3 ≤ length words.now }
    ensures { IfOk result (λ reply. reply ≡ (array_exists_step (seen arrays.now) words.now).0) }
{
    let stands = has_array(arrays, word(words, 2));
    answer(alloc, truth_text(alloc, stands)?)
}
