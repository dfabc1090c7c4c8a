//! The arrays of a bucket, by name.

ghost use Rattle.std.specs.Prelude.{◌≡◌, ◌++◌, OnOk, OnErr, IfOk, IsSome};
ghost use Rattle.std.specs.FinMap as map;
ghost use Rattle.std.specs.Option.{option_copied};
ghost use Rattle.txt_core.specs.Knowing.{Holds};
ghost use Rattle.nsv_bucket.specs.Arrays.{seen, array_of, text_at, value_of, with_value, without_key};
ghost use Rattle.txt_core.specs.Keyed.{with_pairs};

use crate::array::{NsvArray, twice};
use std::alloc::Global;
use std::collections::BTreeMap;
use txt_core::{Known, NoMemory, Text};

/// Arrays by name.
pub(crate) type Arrays = BTreeMap<Text, NsvArray>;

/// Gives an array this name, in place of the one that had it. Its only error is want of memory, and
/// the arrays are then as they were.
pub(crate) fn place(
    alloc: Global,
    arrays: &mut Arrays,
    name: &Text,
    array: NsvArray,
) -> Result<(), NoMemory>
    ensures ok { OnOk result (seen arrays.new ≡ map.insert (seen arrays.old) name.now array) }
    ensures err { OnErr result (seen arrays.new ≡ seen arrays.old) }
{
    let name = name.copy(alloc)?;
    arrays.insert(name, array)?;
    Ok(())
}

/// Puts a value at a key of the array of this name; an absent array is made. Its only error is want
/// of memory, and the arrays are then as they were.
pub(crate) fn put_value(
    alloc: Global,
    arrays: &mut Arrays,
    name: &Text,
    key: &Text,
    value: Text,
) -> Result<(), NoMemory>
    ensures ok { OnOk result
        (seen arrays.new ≡ with_value (seen arrays.old) name.now key.now value) }
    ensures err { OnErr result (seen arrays.new ≡ seen arrays.old) }
{
    match arrays.get_mut(name) {
        Some(array) => array.put(alloc, key, value),
        None => {
            let array = NsvArray::of_one(alloc, key, value)?;
            place(alloc, arrays, name, array)
        }
    }
}

/// Puts bytes behind the value of a key of the array of this name, or behind the empty text where the
/// key is absent, and gives the new value; an absent array is made. The condition is that what is known
/// of the new value is true. Its only error is want of memory, and the arrays are then as they were.
pub(crate) fn append_value(
    alloc: Global,
    arrays: &mut Arrays,
    name: &Text,
    key: &Text,
    more: &[u8],
    known: Known,
) -> Result<Text, NoMemory>
    requires { Holds known (text_at (array_of (seen arrays.old) name.now) key.now ++ more.now) }
    ensures value { IfOk result (λ text.
        text ≡ text_at (array_of (seen arrays.old) name.now) key.now ++ more.now) }
    ensures ok { OnOk result
        (seen arrays.new
        ≡ with_value (seen arrays.old) name.now key.now
        (text_at (array_of (seen arrays.old) name.now) key.now ++ more.now)) }
    ensures err { OnErr result (seen arrays.new ≡ seen arrays.old) }
{
    match arrays.get_mut(name) {
        Some(array) => array.append(alloc, key, more, known),
        None => {
            let (value, said) = twice(alloc, more, known)?;
            let made = NsvArray::of_one(alloc, key, value)?;
            place(alloc, arrays, name, made)?;
            Ok(said)
        }
    }
}

/// Makes an array of this name that holds the keys and values of a list, in which they take turns, in
/// place of the array that had the name. Its only error is want of memory, and the arrays are then as
/// they were.
pub(crate) fn place_pairs(
    alloc: Global,
    arrays: &mut Arrays,
    name: &Text,
    pairs: &[Text],
) -> Result<(), NoMemory>
    ensures ok { OnOk result
        (seen arrays.new ≡ map.insert (seen arrays.old) name.now (with_pairs map.empty pairs.now)) }
    ensures err { OnErr result (seen arrays.new ≡ seen arrays.old) }
{
    let mut array = NsvArray::new(alloc);
    array.put_all(alloc, pairs)?;
    place(alloc, arrays, name, array)
}

/// Writes the keys and values of a list, in which they take turns, over those of the array of this
/// name; an absent array is made. Its only error is want of memory, and the arrays are then as they
/// were.
pub(crate) fn put_pairs(
    alloc: Global,
    arrays: &mut Arrays,
    name: &Text,
    pairs: &[Text],
) -> Result<(), NoMemory>
    ensures ok { OnOk result
        (seen arrays.new
        ≡ map.insert (seen arrays.old) name.now
        (with_pairs (array_of (seen arrays.old) name.now) pairs.now)) }
    ensures err { OnErr result (seen arrays.new ≡ seen arrays.old) }
{
    match arrays.get_mut(name) {
        Some(array) => array.put_all(alloc, pairs),
        None => place_pairs(alloc, arrays, name, pairs),
    }
}

/// Takes a key out of the array of this name, where the array stands.
pub(crate) fn remove_key(arrays: &mut Arrays, name: &Text, key: &Text)
    requires { IsSome (map.get (seen arrays.old) name.now) }
    ensures { seen arrays.new ≡ without_key (seen arrays.old) name.now key.now }
{
    match arrays.get_mut(name) {
        Some(array) => array.remove(key),
        None => {}
    }
}

/// Takes the array of this name out, where it stands.
pub(crate) fn remove_array(arrays: &mut Arrays, name: &Text)
    ensures { seen arrays.new ≡ map.remove (seen arrays.old) name.now }
{
    arrays.remove(name);
}

/// The array of this name; `None` exactly where there is none.
pub(crate) fn array_named<'a>(arrays: &'a Arrays, name: &Text) -> Option<&'a NsvArray>
    ensures { option_copied result ≡ map.get (seen arrays.now) name.now }
{
    arrays.get(name)
}

/// Whether there is an array of this name.
pub(crate) fn has_array(arrays: &Arrays, name: &Text) -> bool
    ensures { result ≡ map.contains_key (seen arrays.now) name.now }
{
    arrays.contains_key(name)
}

/// The value of a key in the array of this name; `None` exactly where the array or the key is
/// absent.
pub(crate) fn value<'a>(arrays: &'a Arrays, name: &Text, key: &Text) -> Option<&'a Text>
    ensures { option_copied result ≡ value_of (seen arrays.now) name.now key.now }
{
    match array_named(arrays, name) {
        Some(array) => array.get(key),
        None => None,
    }
}
