//! The questions of `nsv_array` that write a list of pairs.

ghost use Rattle.std.specs.Prelude.{◌≡◌, ◌≤◌, length, IfOk, OnOk, OnErr};
ghost use Rattle.std.specs.FinMap as map;
ghost use Rattle.txt_core.specs.Lists.{elements};
ghost use Rattle.txt_core.specs.Listing.{listing};
ghost use Rattle.nsv_bucket.specs.Arrays.{seen};
ghost use Rattle.nsv_bucket.specs.Bases.{base_of};
ghost use Rattle.txt_core.specs.Keyed.{with_pairs};
ghost use Rattle.txt_core.specs.Words.{arg};
ghost use Rattle.nsv_bucket.specs.Lists.{paired, array_set_step, array_reset_step, is_even, has_long_value};

use crate::arrays::{Arrays, place_pairs, put_pairs};
use crate::message::{bad_pairs, refuse, refuse_long};
use crate::question::word;
use crate::reply::NsvReply;
use std::alloc::Global;
use tcl_list::{ListFault, split};
use txt_core::{NoMemory, Text, Words, error_text, first_pair, is_too_long};

/// Whether a list is one of pairs.
fn even(list: &[Text]) -> bool
    ensures { result ≡ is_even list.now }
{
    list.len() % 2 == 0
}

/// Whether a value of the pairs is too long.
fn any_long_value(pairs: &[Text]) -> bool
    ensures { result ≡ has_long_value pairs.now }
{
    let mut rest = pairs;
    'pairs: while let Some((_, value, tail)) = first_pair(rest) {
        if is_too_long(value) {
            return true;
        }
        rest = tail;
    }
    false
}

/// What the pairs of a list are written over.
#[derive(Clone, Copy)]
pub(crate) enum Base {
    /// The array that has the name; an absent one is made.
    Standing,
    /// An array that holds no key.
    Nothing,
}

/// Writes pairs over the keys and values of an array, which has this name then.
fn write(
    alloc: Global,
    arrays: &mut Arrays,
    name: &Text,
    base: Base,
    pairs: &[Text],
) -> Result<(), NoMemory>
    ensures ok { OnOk result
        (seen arrays.new
        ≡ map.insert (seen arrays.old) name.now
        (with_pairs (base_of (seen arrays.old) name.now base) pairs.now)) }
    ensures err { OnErr result (seen arrays.new ≡ seen arrays.old) }
{
    match base {
        Base::Standing => put_pairs(alloc, arrays, name, pairs),
        Base::Nothing => place_pairs(alloc, arrays, name, pairs),
    }
}

/// Writes the pairs of the list that the words have, where they can be written.
fn pair(alloc: Global, arrays: &mut Arrays, words: &Words, base: Base) -> Result<NsvReply, NoMemory>
    requires { 4 ≤ length words.now }
    ensures reply { IfOk result (λ reply.
        reply
        ≡ (paired (seen arrays.old) words.now (base_of (seen arrays.old) (arg words.now 2) base)
        (listing (arg words.now 3))).0) }
    ensures ok { OnOk result
        (seen arrays.new
        ≡ (paired (seen arrays.old) words.now (base_of (seen arrays.old) (arg words.now 2) base)
        (listing (arg words.now 3))).1) }
    ensures err { OnErr result (seen arrays.new ≡ seen arrays.old) }
{
    match split(alloc, word(words, 3)) {
        Err(ListFault::NoMemory) => Err(NoMemory),
        Err(ListFault::Bad { at }) => refuse(alloc, error_text::no_list(alloc, at)?),
        Ok(pairs) => pair_elements(alloc, arrays, words, base, &pairs),
    }
}

/// The same of the elements of the list.
fn pair_elements(
    alloc: Global,
    arrays: &mut Arrays,
    words: &Words,
    base: Base,
    pairs: &Words,
) -> Result<NsvReply, NoMemory>
    requires { 4 ≤ length words.now }
    ensures reply { IfOk result (λ reply.
        reply
        ≡ (paired (seen arrays.old) words.now (base_of (seen arrays.old) (arg words.now 2) base)
        (elements pairs.now)).0) }
    ensures ok { OnOk result
        (seen arrays.new
        ≡ (paired (seen arrays.old) words.now (base_of (seen arrays.old) (arg words.now 2) base)
        (elements pairs.now)).1) }
    ensures err { OnErr result (seen arrays.new ≡ seen arrays.old) }
{
    let pairs = pairs.as_slice();
    if !even(pairs) {
        return refuse(alloc, bad_pairs(alloc, word(words, 3))?);
    }
    if any_long_value(pairs) {
        return refuse_long(alloc);
    }
    write(alloc, arrays, word(words, 2), base, pairs)?;
    Ok(NsvReply::Said(Text::empty(alloc)))
}

/// Answers `nsv_array set`: writes the pairs over those that stand.
pub(crate) fn array_set(
    alloc: Global,
    arrays: &mut Arrays,
    words: &Words,
) -> Result<NsvReply, NoMemory>
    requires { 4 ≤ length words.now }
    ensures reply { IfOk result (λ reply. reply ≡ (array_set_step (seen arrays.old) words.now).0) }
    ensures ok { OnOk result (seen arrays.new ≡ (array_set_step (seen arrays.old) words.now).1) }
    ensures err { OnErr result (seen arrays.new ≡ seen arrays.old) }
{
    pair(alloc, arrays, words, Base::Standing)
}

/// Answers `nsv_array reset`: makes the array anew.
pub(crate) fn array_reset(
    alloc: Global,
    arrays: &mut Arrays,
    words: &Words,
) -> Result<NsvReply, NoMemory>
    requires { 4 ≤ length words.now }
    ensures reply { IfOk result (λ reply.
        reply ≡ (array_reset_step (seen arrays.old) words.now).0) }
    ensures ok { OnOk result (seen arrays.new ≡ (array_reset_step (seen arrays.old) words.now).1) }
    ensures err { OnErr result (seen arrays.new ≡ seen arrays.old) }
{
    pair(alloc, arrays, words, Base::Nothing)
}
