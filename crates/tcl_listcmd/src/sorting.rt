//! `lsort`.

ghost use Rattle.std.specs.Prelude.{◌≡◌, ◌<◌, length, position, codes, Ok, IfOk};
ghost use Rattle.std.specs.Ordering.{is_lt};
ghost use Rattle.natives.specs.Answers.{Answers, Tried};
ghost use Rattle.natives.specs.Checks.{integer};
ghost use Rattle.natives.specs.Sorting.{in_order, order_of, sorts_before, is_sort_option, is_no_sort_option, numbers_error, elements_error, lsort_in, lsort_list, lsort_reply};
ghost use Rattle.natives.specs.Pure.{pure_of};
ghost use Rattle.natives.specs.Ranges.{InRange};

use crate::elements::text_of;
use crate::options::{check_options, is_word, last_is};
use natives::{Fault, list_in, number_in, within_limit, word_at};
use std::alloc::Global;
use std::cmp::Ordering;
use txt_core::{NoMemory, Text, Words, read_int};

/// Whether a word is an option of `lsort`.
fn is_option(word: &Text) -> bool
    ensures { result ≡ is_sort_option word.now }
{
    is_word(word, b"-ascii")
        || is_word(word, b"-integer")
        || is_word(word, b"-increasing")
        || is_word(word, b"-decreasing")
}

/// Where the first word stands that is no option of `lsort`.
fn other_word(options: &[Text]) -> Option<usize>
    ensures { result ≡ position is_no_sort_option options.now }
{
    options.iter().position(|word| !is_option(word))
}

/// The number that an element is, or 0 where it is none.
fn number_of(element: &Text) -> i64
    ensures { result ≡ integer element.now }
{
    match read_int(element) {
        Some(number) => number,
        None => 0,
    }
}

/// The order of two elements by their numbers, or by their bytes.
fn rising(numbers: bool, one: &Text, other: &Text) -> Ordering
    ensures { result ≡ order_of numbers one.now other.now }
{
    if numbers {
        number_of(one).cmp(&number_of(other))
    } else {
        one.cmp(other)
    }
}

/// The order of two elements that is asked for.
fn order(numbers: bool, falls: bool, one: &Text, other: &Text) -> Ordering
    ensures { is_lt result ≡ sorts_before numbers falls one.now other.now }
{
    if falls {
        rising(numbers, other, one)
    } else {
        rising(numbers, one, other)
    }
}

/// The list once more, each element with the number that it is where it is one: each comparison then
/// reads no digits.
fn numbered(alloc: Global, list: &[Text]) -> Result<Words, NoMemory>
    ensures { IfOk result (λ copies. copies ≡ list.now) }
{
    let mut copies = Words::new(alloc);
    'elements: for element in list {
        copies.add(element.copy(alloc)?.noting_number())?;
    }
    Ok(copies)
}

/// The list once more, for sorting by number or by bytes.
fn copies_of(alloc: Global, numbers: bool, list: &[Text]) -> Result<Words, NoMemory>
    ensures { IfOk result (λ copies. copies ≡ list.now) }
{
    if numbers {
        return numbered(alloc, list);
    }
    Words::of_copies(alloc, list)
}

/// The elements in order. Those that tie stay in their order.
fn in_order(alloc: Global, numbers: bool, falls: bool, list: &Words) -> Result<Words, NoMemory>
    ensures { IfOk result (λ sorted. sorted ≡ in_order (sorts_before numbers falls) list.now) }
{
    let copies = copies_of(alloc, numbers, list.as_slice())?;
    let mut elements = copies.into_vec();
    elements.sort_by(|one, other| order(numbers, falls, one, other))?;
    Ok(Words::from_vec(elements))
}

/// Looks whether each element is a number.
fn check_numbers(alloc: Global, list: &[Text]) -> Result<(), Fault>
    ensures { Tried (numbers_error list.now) (λ _. Unit {0}) result }
{
    'elements: for element in list {
        if let Err(fault) = number_in(alloc, element) {
            return Err(fault);
        }
    }
    Ok(())
}

/// Looks whether each element is a number, where they are sorted by number.
fn check_elements(alloc: Global, numbers: bool, list: &[Text]) -> Result<(), Fault>
    ensures { Tried (elements_error numbers list.now) (λ _. Unit {0}) result }
{
    if numbers {
        return check_numbers(alloc, list);
    }
    Ok(())
}

/// The text of the elements in order.
fn sorted_text(alloc: Global, numbers: bool, falls: bool, list: &Words) -> Result<Text, Fault>
    ensures { Answers (lsort_in numbers falls list.now) result }
{
    check_elements(alloc, numbers, list.as_slice())?;
    let sorted = in_order(alloc, numbers, falls, list)?;
    text_of(alloc, &sorted)
}

/// Sorts a word that must be a list.
fn sorted(alloc: Global, options: &[Text], list: &Text) -> Result<Text, Fault>
    ensures { Answers (lsort_list options.now list.now) result }
{
    let numbers = last_is(options, b"-integer", b"-ascii");
    let falls = last_is(options, b"-decreasing", b"-increasing");
    let list = list_in(alloc, list)?;
    sorted_text(alloc, numbers, falls, &list)
}

/// Looks at the options, and sorts the last word.
fn lsort(alloc: Global, words: &Words) -> Result<Text, Fault>
    requires { 1 < length words.now }
    ensures { Answers (lsort_reply words.now) result }
{
    let last = words.len() - 1;
    let options = &words.as_slice()[1..last];
    check_options(alloc, options, other_word(options), "lsort")?;
    sorted(alloc, options, word_at(words, last))
}

/// `lsort ?-ascii? ?-integer? ?-increasing? ?-decreasing? list`: the list in order, by bytes or by
/// number, rising or falling; elements that tie stay in their order. By default by bytes, rising; of
/// contrary options the last counts. The last word is the list, whatever it spells, and each word
/// before it must be an option.
///
/// # Errors
///
/// In this order: `bad value "WORD" for "lsort"` of the first word before the last that is no
/// option; `bad list at PLACE` where the list is none; by number, `expected integer but got "ELEMENT"` of the first element that
/// is none; `value too long` where the list is over the limit. `NoMemory` for want of memory alone.
#[tactic(auto, unfolding(natives::specs::Ranges::range_of))]
pub fn lsort_command(alloc: Global, words: &Words) -> Result<Text, Fault>
    requires { InRange (codes "lsort") words.now }
    ensures { Answers (pure_of (codes "lsort") words.now) result }
{
    within_limit(alloc, lsort(alloc, words))
}
