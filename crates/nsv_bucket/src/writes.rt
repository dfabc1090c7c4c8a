//! The questions that write or remove keys.

ghost use Rattle.std.specs.Prelude.{◌≡◌, ◌≤◌, ◌++◌, length, slice_get, IfOk, IfSome, OnOk, OnErr, codes};
ghost use Rattle.std.specs.List.{concat};
ghost use Rattle.std.specs.Option.{unwrap_or};
ghost use Rattle.txt_core.specs.Knowing.{Holds, IsWrittenList};
ghost use Rattle.txt_core.specs.Words.{arg};
ghost use Rattle.nsv_bucket.specs.Arrays.{seen, array_of, text_at, value_of};
ghost use Rattle.nsv_bucket.specs.Writes.{stored, grown, set_step, sum_of, incr_step, append_step, unset_key, unset_array, unset_step};
ghost use Rattle.nsv_bucket.specs.Lists.{lappend_step};

use crate::arrays::{Arrays, append_value, has_array, put_value, remove_array, remove_key, value};
use crate::message::{no_array, no_key, refuse, refuse_long};
use crate::question::word;
use crate::reply::NsvReply;
use std::alloc::Global;
use tcl_list::{ListFault, append_elements, elements_behind};
use txt_core::{
    Known, NoMemory, Text, Words, error_text, is_too_long, is_too_long_behind, read_int, write_int,
};

/// Stores a value and gives it; one that is too long is refused.
fn store(
    alloc: Global,
    arrays: &mut Arrays,
    name: &Text,
    key: &Text,
    mut value: Text,
) -> Result<NsvReply, NoMemory>
    ensures reply { IfOk result (λ reply.
        reply ≡ (stored (seen arrays.old) name.now key.now value).0) }
    ensures ok { OnOk result
        (seen arrays.new ≡ (stored (seen arrays.old) name.now key.now value).1) }
    ensures err { OnErr result (seen arrays.new ≡ seen arrays.old) }
{
    if is_too_long(&value) {
        return refuse_long(alloc);
    }
    let said = value.share(alloc)?;
    put_value(alloc, arrays, name, key, value)?;
    Ok(NsvReply::Said(said))
}

/// Answers `nsv_set`: stores the value.
pub(crate) fn set(alloc: Global, arrays: &mut Arrays, words: &Words) -> Result<NsvReply, NoMemory>
    requires { 4 ≤ length words.now }
    ensures reply { IfOk result (λ reply. reply ≡ (set_step (seen arrays.old) words.now).0) }
    ensures ok { OnOk result (seen arrays.new ≡ (set_step (seen arrays.old) words.now).1) }
    ensures err { OnErr result (seen arrays.new ≡ seen arrays.old) }
{
    let value = word(words, 3).copy(alloc)?;
    store(alloc, arrays, word(words, 1), word(words, 2), value)
}

/// The value of a key, or another text where the key is absent.
fn standing(alloc: Global, arrays: &Arrays, words: &Words, absent: &[u8]) -> Result<Text, NoMemory>
    requires { 3 ≤ length words.now }
    ensures { IfOk result (λ text.
        text
        ≡ unwrap_or (value_of (seen arrays.now) (arg words.now 1) (arg words.now 2))
        absent.now) }
{
    match value(arrays, word(words, 1), word(words, 2)) {
        Some(value) => value.copy(alloc),
        None => Text::new(alloc, absent),
    }
}

/// The number that is added: the word behind the key, or 1.
fn added(alloc: Global, words: &Words) -> Result<Text, NoMemory>
    ensures { IfOk result (λ text. text ≡ unwrap_or (slice_get words.now 3) (codes "1")) }
{
    match words.get(3) {
        Some(number) => number.copy(alloc),
        None => Text::new(alloc, b"1"),
    }
}

/// The sum of two numbers; `None` where it has no room in 64 bits.
fn sum_of(number: i64, step: i64) -> Option<i64>
    ensures { result ≡ sum_of number step }
{
    number.checked_add(step)
}

/// Answers `nsv_incr`: adds to the number that stands, which is looked at before the one that is
/// added.
pub(crate) fn incr(alloc: Global, arrays: &mut Arrays, words: &Words) -> Result<NsvReply, NoMemory>
    requires { 3 ≤ length words.now }
    ensures reply { IfOk result (λ reply. reply ≡ (incr_step (seen arrays.old) words.now).0) }
    ensures ok { OnOk result (seen arrays.new ≡ (incr_step (seen arrays.old) words.now).1) }
    ensures err { OnErr result (seen arrays.new ≡ seen arrays.old) }
{
    let old = standing(alloc, arrays, words, b"0")?;
    let Some(number) = read_int(&old) else {
        return refuse(alloc, error_text::no_integer(alloc, old.bytes())?);
    };
    let more = added(alloc, words)?;
    let Some(step) = read_int(&more) else {
        return refuse(alloc, error_text::no_integer(alloc, more.bytes())?);
    };
    match sum_of(number, step) {
        None => refuse(alloc, error_text::overflow(alloc)?),
        Some(sum) => {
            let value = write_int(alloc, sum)?;
            store(alloc, arrays, word(words, 1), word(words, 2), value)
        }
    }
}

/// How many bytes the value of a key has; none where the key is absent.
fn length_of(arrays: &Arrays, name: &Text, key: &Text) -> usize
    ensures { result ≡ length (text_at (array_of (seen arrays.now) name.now) key.now) }
{
    match value(arrays, name, key) {
        Some(value) => value.len(),
        None => 0,
    }
}

/// Puts a text behind the value of a key, or behind the empty text where the key is absent, and gives
/// the new value; one that is too long is refused. The condition is that what is known of it is true.
fn grow(
    alloc: Global,
    arrays: &mut Arrays,
    name: &Text,
    key: &Text,
    more: &Text,
    known: Known,
) -> Result<NsvReply, NoMemory>
    requires { Holds known (text_at (array_of (seen arrays.old) name.now) key.now ++ more.now) }
    ensures reply { IfOk result (λ reply.
        reply ≡ (grown (seen arrays.old) name.now key.now more.now).0) }
    ensures ok { OnOk result
        (seen arrays.new ≡ (grown (seen arrays.old) name.now key.now more.now).1) }
    ensures err { OnErr result (seen arrays.new ≡ seen arrays.old) }
{
    let front = length_of(arrays, name, key);
    if is_too_long_behind(front, more) {
        return refuse_long(alloc);
    }
    let said = append_value(alloc, arrays, name, key, more.bytes(), known)?;
    Ok(NsvReply::Said(said))
}

/// Answers `nsv_append`: puts the values behind the one that stands, in place.
pub(crate) fn append(
    alloc: Global,
    arrays: &mut Arrays,
    words: &Words,
) -> Result<NsvReply, NoMemory>
    requires { 4 ≤ length words.now }
    ensures reply { IfOk result (λ reply. reply ≡ (append_step (seen arrays.old) words.now).0) }
    ensures ok { OnOk result (seen arrays.new ≡ (append_step (seen arrays.old) words.now).1) }
    ensures err { OnErr result (seen arrays.new ≡ seen arrays.old) }
{
    let more = Text::concat(alloc, &words.as_slice()[3..])?;
    grow(
        alloc,
        arrays,
        word(words, 1),
        word(words, 2),
        &more,
        Known::Nothing,
    )
}

/// The value of a key, where it is known to be a list of at least one element, as a list is written.
fn written_list<'a>(arrays: &'a Arrays, name: &Text, key: &Text) -> Option<&'a Text>
    ensures value { IfSome result (λ list.
        list.now ≡ text_at (array_of (seen arrays.now) name.now) key.now) }
    ensures list { IfSome result (λ list. IsWrittenList list.now) }
{
    match value(arrays, name, key) {
        Some(value) => match value.known() {
            Known::WrittenList => Some(value),
            Known::Number(_) | Known::Nothing => None,
        },
        None => None,
    }
}

/// Puts values as elements behind a list, and writes all of its elements.
fn lappend_anew(alloc: Global, arrays: &mut Arrays, words: &Words) -> Result<NsvReply, NoMemory>
    requires { 4 ≤ length words.now }
    ensures reply { IfOk result (λ reply. reply ≡ (lappend_step (seen arrays.old) words.now).0) }
    ensures ok { OnOk result (seen arrays.new ≡ (lappend_step (seen arrays.old) words.now).1) }
    ensures err { OnErr result (seen arrays.new ≡ seen arrays.old) }
{
    let old = standing(alloc, arrays, words, b"")?;
    match append_elements(alloc, old, &words.as_slice()[3..]) {
        Err(ListFault::NoMemory) => Err(NoMemory),
        Err(ListFault::Bad { at }) => refuse(alloc, error_text::no_list(alloc, at)?),
        Ok(value) => store(alloc, arrays, word(words, 1), word(words, 2), value),
    }
}

/// Answers `nsv_lappend`: puts the values as elements behind the list that stands, in place where the
/// list is known to be one as it is written.
pub(crate) fn lappend(
    alloc: Global,
    arrays: &mut Arrays,
    words: &Words,
) -> Result<NsvReply, NoMemory>
    requires { 4 ≤ length words.now }
    ensures reply { IfOk result (λ reply. reply ≡ (lappend_step (seen arrays.old) words.now).0) }
    ensures ok { OnOk result (seen arrays.new ≡ (lappend_step (seen arrays.old) words.now).1) }
    ensures err { OnErr result (seen arrays.new ≡ seen arrays.old) }
{
    let name = word(words, 1);
    let key = word(words, 2);
    if let Some(list) = written_list(arrays, name, key) {
        let more = elements_behind(alloc, list, &words.as_slice()[3..])?;
        return grow(alloc, arrays, name, key, &more, Known::WrittenList);
    }
    lappend_anew(alloc, arrays, words)
}

/// Removes a key that has to stand.
fn unset_of_key(
    alloc: Global,
    arrays: &mut Arrays,
    name: &Text,
    key: &Text,
) -> Result<NsvReply, NoMemory>
    ensures reply { IfOk result (λ reply.
        reply ≡ (unset_key (seen arrays.old) name.now key.now).0) }
    ensures ok { OnOk result (seen arrays.new ≡ (unset_key (seen arrays.old) name.now key.now).1) }
    ensures err { OnErr result (seen arrays.new ≡ seen arrays.old) }
{
    if !has_array(arrays, name) {
        return refuse(alloc, no_array(alloc, name)?);
    }
    if value(arrays, name, key).is_none() {
        return refuse(alloc, no_key(alloc, key, name)?);
    }
    remove_key(arrays, name, key);
    Ok(NsvReply::Said(Text::empty(alloc)))
}

/// Removes an array that has to stand.
fn unset_of_array(alloc: Global, arrays: &mut Arrays, name: &Text) -> Result<NsvReply, NoMemory>
    ensures reply { IfOk result (λ reply. reply ≡ (unset_array (seen arrays.old) name.now).0) }
    ensures ok { OnOk result (seen arrays.new ≡ (unset_array (seen arrays.old) name.now).1) }
    ensures err { OnErr result (seen arrays.new ≡ seen arrays.old) }
{
    if !has_array(arrays, name) {
        return refuse(alloc, no_array(alloc, name)?);
    }
    remove_array(arrays, name);
    Ok(NsvReply::Said(Text::empty(alloc)))
}

/// Answers `nsv_unset`: removes the key, or the array where no key is named.
pub(crate) fn unset(alloc: Global, arrays: &mut Arrays, words: &Words) -> Result<NsvReply, NoMemory>
    requires { 2 ≤ length words.now }
    ensures reply { IfOk result (λ reply. reply ≡ (unset_step (seen arrays.old) words.now).0) }
    ensures ok { OnOk result (seen arrays.new ≡ (unset_step (seen arrays.old) words.now).1) }
    ensures err { OnErr result (seen arrays.new ≡ seen arrays.old) }
{
    let name = word(words, 1);
    match words.get(2) {
        Some(key) => unset_of_key(alloc, arrays, name, key),
        None => unset_of_array(alloc, arrays, name),
    }
}
