//! The commands on arrays, and `info exists`.

ghost use Rattle.std.specs.Prelude.{◌≡◌, ◌≤◌, ◌%◌, ◌==◌, length, map, decimal, IfOk, Some};
ghost use Rattle.std.specs.Option.{option_copied};
ghost use Rattle.std.specs.FinMap as finite;
ghost use Rattle.txt_core.specs.Quoting.{quoting};
ghost use Rattle.tcl_frame.specs.Frames.{elements_of};
ghost use Rattle.natives.specs.Answers.{Tried};
ghost use Rattle.tcl_varcmd.specs.Answers.{Answers, IfNoMemory};
ghost use Rattle.natives.specs.Checks.{items};
ghost use Rattle.tcl_varcmd.specs.Errors.{array_error};
ghost use Rattle.tcl_varcmd.specs.Arrays.{picked, in_turn, listed_words, pairs_error, array_set, unset_array, array_part, array_came, info_came};

use crate::message::{check_count, refusal};
use crate::part::{Part, part_of};
use crate::variable::{remove, write_array};
use natives::{Fault, list_in, word_at};
use std::alloc::Global;
use tcl_frame::{Frames, VarFault, is_element_name};
use tcl_list::quote;
use txt_core::{NoMemory, Pairs, Text, Words, picks, truth_text, write_natural};

/// The indexes and values in turn of the elements that are listed.
fn elements_in_turn(alloc: Global, pairs: &Pairs, pattern: Option<&Text>) -> Result<Words, NoMemory>
    ensures { IfOk result (λ words.
        words ≡ in_turn (picked (option_copied pattern.entry) pairs.now)) }
{
    let mut words = Words::new(alloc);
    'pairs: for pair in pairs.as_slice() {
        if picks(pattern, &pair.0) {
            words.add(pair.0.copy(alloc)?)?;
            words.add(pair.1.copy(alloc)?)?;
        }
    }
    Ok(words)
}

/// The indexes of the elements that are listed.
fn indexes(alloc: Global, pairs: &Pairs, pattern: Option<&Text>) -> Result<Words, NoMemory>
    ensures { IfOk result (λ words.
        words ≡ map (λ pair. pair.0) (picked (option_copied pattern.entry) pairs.now)) }
{
    let mut words = Words::new(alloc);
    'pairs: for pair in pairs.as_slice() {
        if picks(pattern, &pair.0) {
            words.add(pair.0.copy(alloc)?)?;
        }
    }
    Ok(words)
}

/// What is listed of those elements that are listed.
#[derive(Clone, Copy)]
enum Listed {
    /// Their indexes and values in turn.
    Elements,
    /// Their indexes.
    Indexes,
}

/// What is listed of elements.
fn listed_words(
    alloc: Global,
    listed: Listed,
    pairs: &Pairs,
    pattern: Option<&Text>,
) -> Result<Words, NoMemory>
    ensures { IfOk result (λ words.
        words ≡ listed_words listed (picked (option_copied pattern.entry) pairs.now)) }
{
    match listed {
        Listed::Elements => elements_in_turn(alloc, pairs, pattern),
        Listed::Indexes => indexes(alloc, pairs, pattern),
    }
}

/// `array get a ?glob?` and `array names a ?glob?`.
fn list_text(
    alloc: Global,
    listed: Listed,
    frames: &Frames,
    name: &Text,
    pattern: Option<&Text>,
) -> Result<Text, NoMemory>
    ensures { IfOk result (λ text.
        text
        ≡ quoting
        (listed_words listed
        (picked (option_copied pattern.entry)
        (finite.entries (elements_of frames.now name.now))))) }
{
    let pairs = frames.elements(name)?;
    quote(alloc, &listed_words(alloc, listed, &pairs, pattern)?)
}

/// `array size a`.
fn size(alloc: Global, frames: &Frames, name: &Text) -> Result<Text, NoMemory>
    ensures { IfOk result (λ text.
        text ≡ decimal (length (finite.entries (elements_of frames.now name.now)))) }
{
    write_natural(alloc, frames.count(name) as u64)
}

/// `array unset a`.
fn unset(alloc: Global, frames: &mut Frames, name: &Text) -> Result<Text, Fault>
    ensures came { Answers (unset_array frames.old name.now) result frames.new }
    ensures kept { IfNoMemory result (frames.new ≡ frames.old) }
    ensures depth { length frames.new.above ≡ length frames.old.above }
{
    if frames.is_array(name) {
        remove(alloc, frames, name)?;
    }
    Ok(Text::empty(alloc))
}

/// Whether a list has an index without a value.
fn is_uneven(list: &Words) -> bool
    ensures { result ≡ (length list.now % 2 == 1) }
{
    list.len() % 2 == 1
}

/// The indexes and values of a text that is a list of as many values as indexes.
fn pairs_in(alloc: Global, text: &Text) -> Result<Words, Fault>
    ensures { Tried (pairs_error text.now) (λ list. list ≡ items text.now) result }
{
    let list = list_in(alloc, text)?;
    if is_uneven(&list) {
        return Err(Fault::bad_value(alloc, text.bytes(), "array"));
    }
    Ok(list)
}

/// Whether an array of this name is there or can be made.
fn check_array(alloc: Global, frames: &Frames, name: &Text) -> Result<(), Fault>
    ensures { Tried (array_error frames.now name.now) (λ _. Unit {0}) result }
{
    if is_element_name(name) {
        return Err(refusal(alloc, VarFault::NotArray, name));
    }
    if frames.is_array(name) {
        return Ok(());
    }
    if frames.has(name) {
        return Err(refusal(alloc, VarFault::NotArray, name));
    }
    Ok(())
}

/// `array set a list`.
fn set(alloc: Global, frames: &mut Frames, name: &Text, list: &Text) -> Result<Text, Fault>
    ensures came { Answers (array_set frames.old name.now list.now) result frames.new }
    ensures kept { IfNoMemory result (frames.new ≡ frames.old) }
    ensures depth { length frames.new.above ≡ length frames.old.above }
{
    check_array(alloc, frames, name)?;
    let list = pairs_in(alloc, list)?;
    write_array(alloc, frames, name, list.as_slice())?;
    Ok(Text::empty(alloc))
}

/// A subcommand of `array` with three or four words.
fn run_part(alloc: Global, frames: &mut Frames, part: Part, words: &Words) -> Result<Text, Fault>
    requires { (3 ≤ length words.now) × (length words.now ≤ 4) }
    ensures came { Answers (array_part frames.old (Some part) words.now) result frames.new }
    ensures kept { IfNoMemory result (frames.new ≡ frames.old) }
    ensures depth { length frames.new.above ≡ length frames.old.above }
{
    let name = word_at(words, 2);
    match part {
        Part::Exists => {
            check_count(alloc, words, 3, 3, "array")?;
            Ok(truth_text(alloc, frames.is_array(name))?)
        }
        Part::Size => {
            check_count(alloc, words, 3, 3, "array")?;
            Ok(size(alloc, frames, name)?)
        }
        Part::Unset => {
            check_count(alloc, words, 3, 3, "array")?;
            unset(alloc, frames, name)
        }
        Part::Get => Ok(list_text(alloc, Listed::Elements, frames, name, words.get(3))?),
        Part::Names => Ok(list_text(alloc, Listed::Indexes, frames, name, words.get(3))?),
        Part::Set => {
            check_count(alloc, words, 4, 4, "array")?;
            set(alloc, frames, name, word_at(words, 3))
        }
    }
}

/// `array` with its subcommands.
#[inline(never)]
pub(crate) fn array(alloc: Global, frames: &mut Frames, words: &Words) -> Result<Text, Fault>
    ensures came { Answers (array_came frames.old words.now) result frames.new }
    ensures kept { IfNoMemory result (frames.new ≡ frames.old) }
    ensures depth { length frames.new.above ≡ length frames.old.above }
{
    check_count(alloc, words, 3, 4, "array")?;
    let word = word_at(words, 1).bytes();
    match part_of(word) {
        Some(part) => run_part(alloc, frames, part, words),
        None => Err(Fault::unknown_subcommand(alloc, word, "array")),
    }
}

/// `info exists name`.
#[inline(never)]
pub(crate) fn info(alloc: Global, frames: &Frames, words: &Words) -> Result<Text, Fault>
    ensures { Answers (info_came frames.now words.now) result frames.now }
{
    check_count(alloc, words, 3, 3, "info")?;
    Ok(truth_text(alloc, frames.has(word_at(words, 2)))?)
}
