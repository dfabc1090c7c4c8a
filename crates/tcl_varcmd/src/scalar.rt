//! The commands that read or write one variable.

ghost use Rattle.std.specs.Prelude.{◌≡◌, ◌++◌, [], length, IfOk};
ghost use Rattle.std.specs.Option.{option_copied};
ghost use Rattle.txt_core.specs.Knowing.{Holds, IsWrittenList};
ghost use Rattle.tcl_frame.specs.Frames.{read_of};
ghost use Rattle.natives.specs.Answers.{Tried, Answers as Replies};
ghost use Rattle.tcl_varcmd.specs.Answers.{Answers, IfNoMemory};
ghost use Rattle.tcl_varcmd.specs.Growing.{grown};
ghost use Rattle.tcl_varcmd.specs.InPlace.{storing, adding, lappending, Leaves};
ghost use Rattle.tcl_varcmd.specs.Scalars.{stored, set_to, set_came, step_error, step_of, incr_by, incr_came, append_to, append_came, lappend_to, lappend_came};

use crate::message::{check_count, check_least};
use crate::value::{sum, with_elements};
use crate::variable::{self, length_or_none, read, read_or_empty, write, written_list};
use natives::{Fault, number_in, word_at};
use std::alloc::Global;
use tcl_frame::Frames;
use tcl_list::elements_behind;
use txt_core::{Known, NoMemory, Text, Words, is_too_long, is_too_long_behind, write_int};

/// Writes a value, which is the result.
fn store(alloc: Global, frames: &mut Frames, name: &Text, mut value: Text) -> Result<Text, Fault>
    ensures came { Answers (stored frames.old name.now value) result frames.new }
    ensures kept { IfNoMemory result (frames.new ≡ frames.old) }
    ensures depth { length frames.new.above ≡ length frames.old.above }
{
    if is_too_long(&value) {
        return Err(Fault::too_long(alloc));
    }
    let shared = value.share(alloc)?;
    write(alloc, frames, name, shared)?;
    Ok(value)
}

/// Reads a variable, or writes it where there is a value.
fn set_value(
    alloc: Global,
    frames: &mut Frames,
    name: &Text,
    value: Option<&Text>,
) -> Result<Text, Fault>
    ensures came { Answers (set_to frames.old name.now (option_copied value.entry)) result
        frames.new }
    ensures kept { IfNoMemory result (frames.new ≡ frames.old) }
    ensures depth { length frames.new.above ≡ length frames.old.above }
{
    match value {
        None => read(alloc, frames, name),
        Some(value) => {
            let value = value.copy(alloc)?;
            store(alloc, frames, name, value)
        }
    }
}

/// `set name ?value?`.
pub(crate) fn set(alloc: Global, frames: &mut Frames, words: &Words) -> Result<Text, Fault>
    ensures came { Answers (set_came frames.old words.now) result frames.new }
    ensures kept { IfNoMemory result (frames.new ≡ frames.old) }
    ensures depth { length frames.new.above ≡ length frames.old.above }
{
    check_count(alloc, words, 2, 3, "set")?;
    set_value(alloc, frames, word_at(words, 1), words.get(2))
}

/// The number by which `incr` changes a variable: 1 where it is left out.
fn step(alloc: Global, n: Option<&Text>) -> Result<i64, Fault>
    ensures { Tried (step_error (option_copied n.entry))
        (λ number. number ≡ step_of (option_copied n.entry)) result }
{
    match n {
        None => Ok(1),
        Some(n) => number_in(alloc, n),
    }
}

/// Writes a value in the place of another. The value is the result.
#[tactic(auto, using(crate::proofs::InPlace::no_room))]
fn store_at(alloc: Global, place: &mut Text, mut value: Text) -> Result<Text, Fault>
    ensures came { Replies (storing value) result }
    ensures left { Leaves place.old result place.new }
{
    if is_too_long(&value) {
        return Err(Fault::too_long(alloc));
    }
    *place = value.share(alloc)?;
    Ok(value)
}

/// Writes a number in the place of a value: a copy of its few bytes. The number is the result.
#[tactic(auto, using(crate::proofs::InPlace::no_room))]
fn store_number_at(alloc: Global, place: &mut Text, number: Text) -> Result<Text, Fault>
    ensures came { Replies (storing number) result }
    ensures left { Leaves place.old result place.new }
{
    if is_too_long(&number) {
        return Err(Fault::too_long(alloc));
    }
    *place = number.copy(alloc)?;
    Ok(number)
}

/// Adds to a value in its place.
#[tactic(auto, using(crate::proofs::InPlace::no_room))]
fn add_at(alloc: Global, place: &mut Text, n: Option<&Text>) -> Result<Text, Fault>
    ensures came { Replies (adding place.old (option_copied n.entry)) result }
    ensures left { Leaves place.old result place.new }
{
    let number = number_in(alloc, place)?;
    let by = step(alloc, n)?;
    let total = sum(alloc, number, by)?;
    let value = write_int(alloc, total)?;
    store_number_at(alloc, place, value)
}

/// Adds to a variable whose value isn't changed in its place.
#[inline(never)]
fn add_apart(
    alloc: Global,
    frames: &mut Frames,
    name: &Text,
    n: Option<&Text>,
) -> Result<Text, Fault>
    ensures came { Answers (incr_by frames.old name.now (option_copied n.entry)) result frames.new }
    ensures kept { IfNoMemory result (frames.new ≡ frames.old) }
    ensures depth { length frames.new.above ≡ length frames.old.above }
{
    let mut value = read(alloc, frames, name)?;
    let total = add_at(alloc, &mut value, n)?;
    write(alloc, frames, name, value)?;
    Ok(total)
}

/// Adds to a variable.
fn add(alloc: Global, frames: &mut Frames, name: &Text, n: Option<&Text>) -> Result<Text, Fault>
    ensures came { Answers (incr_by frames.old name.now (option_copied n.entry)) result frames.new }
    ensures kept { IfNoMemory result (frames.new ≡ frames.old) }
    ensures depth { length frames.new.above ≡ length frames.old.above }
{
    match frames.scalar_mut(name) {
        Some(place) => add_at(alloc, place, n),
        None => add_apart(alloc, frames, name, n),
    }
}

/// `incr name ?n?`.
pub(crate) fn incr(alloc: Global, frames: &mut Frames, words: &Words) -> Result<Text, Fault>
    ensures came { Answers (incr_came frames.old words.now) result frames.new }
    ensures kept { IfNoMemory result (frames.new ≡ frames.old) }
    ensures depth { length frames.new.above ≡ length frames.old.above }
{
    check_count(alloc, words, 2, 3, "incr")?;
    add(alloc, frames, word_at(words, 1), words.get(2))
}

/// Puts a text behind a value in its place, and gives the new value. The condition is that what is
/// known of it is true.
#[tactic(auto, using(crate::proofs::InPlace::no_room))]
fn grow_at(alloc: Global, place: &mut Text, more: &Text, known: Known) -> Result<Text, Fault>
    requires { Holds known (place.old ++ more.now) }
    ensures came { Replies (storing (place.old ++ more.now)) result }
    ensures left { Leaves place.old result place.new }
{
    if is_too_long_behind(place.len(), more) {
        return Err(Fault::too_long(alloc));
    }
    let value = place.append_sharing(alloc, more.bytes(), known)?;
    Ok(value)
}

/// Puts a text behind the value of a variable that isn't changed in its place.
#[inline(never)]
fn grow_apart(
    alloc: Global,
    frames: &mut Frames,
    name: &Text,
    more: &Text,
    known: Known,
) -> Result<Text, Fault>
    requires { Holds known (read_of frames.old name.now ++ more.now) }
    ensures came { Answers (grown frames.old name.now more.now) result frames.new }
    ensures kept { IfNoMemory result (frames.new ≡ frames.old) }
    ensures depth { length frames.new.above ≡ length frames.old.above }
{
    let front = length_or_none(alloc, frames, name)?;
    if is_too_long_behind(front, more) {
        return Err(Fault::too_long(alloc));
    }
    variable::append(alloc, frames, name, more.bytes(), known)
}

/// Puts a text behind a variable's own, and gives the new value. The condition is that what is known
/// of it is true.
fn grow(
    alloc: Global,
    frames: &mut Frames,
    name: &Text,
    more: &Text,
    known: Known,
) -> Result<Text, Fault>
    requires { Holds known (read_of frames.old name.now ++ more.now) }
    ensures came { Answers (grown frames.old name.now more.now) result frames.new }
    ensures kept { IfNoMemory result (frames.new ≡ frames.old) }
    ensures depth { length frames.new.above ≡ length frames.old.above }
{
    match frames.scalar_mut(name) {
        Some(place) => grow_at(alloc, place, more, known),
        None => grow_apart(alloc, frames, name, more, known),
    }
}

/// Puts values behind a variable's own.
fn append_values(
    alloc: Global,
    frames: &mut Frames,
    name: &Text,
    values: &[Text],
) -> Result<Text, Fault>
    ensures came { Answers (append_to frames.old name.now values.now) result frames.new }
    ensures kept { IfNoMemory result (frames.new ≡ frames.old) }
    ensures depth { length frames.new.above ≡ length frames.old.above }
{
    let more = Text::concat(alloc, values)?;
    grow(alloc, frames, name, &more, Known::Nothing)
}

/// `append name value*`.
pub(crate) fn append(alloc: Global, frames: &mut Frames, words: &Words) -> Result<Text, Fault>
    ensures came { Answers (append_came frames.old words.now) result frames.new }
    ensures kept { IfNoMemory result (frames.new ≡ frames.old) }
    ensures depth { length frames.new.above ≡ length frames.old.above }
{
    check_least(alloc, words, 2, "append")?;
    append_values(alloc, frames, word_at(words, 1), &words.as_slice()[2..])
}

/// Puts values behind a list in its place, which stands as a list is written.
#[tactic(auto, using(crate::proofs::InPlace::no_room))]
fn lappend_behind(alloc: Global, place: &mut Text, values: &[Text]) -> Result<Text, Fault>
    requires { IsWrittenList place.old }
    ensures came { Replies (lappending place.old values.now) result }
    ensures left { Leaves place.old result place.new }
{
    let more = elements_behind(alloc, place, values)?;
    grow_at(alloc, place, &more, Known::WrittenList)
}

/// Puts values at the end of a list in its place, which is read and written anew.
#[tactic(auto, using(crate::proofs::InPlace::no_room))]
fn lappend_anew(alloc: Global, place: &mut Text, values: &[Text]) -> Result<Text, Fault>
    ensures came { Replies (lappending place.old values.now) result }
    ensures left { Leaves place.old result place.new }
{
    let old = place.copy(alloc)?;
    let whole = with_elements(alloc, old, values)?;
    store_at(alloc, place, whole)
}

/// Puts values at the end of a list in its place.
fn lappend_at(alloc: Global, place: &mut Text, values: &[Text]) -> Result<Text, Fault>
    ensures came { Replies (lappending place.old values.now) result }
    ensures left { Leaves place.old result place.new }
{
    match place.known() {
        Known::WrittenList => lappend_behind(alloc, place, values),
        Known::Number(_) | Known::Nothing => lappend_anew(alloc, place, values),
    }
}

/// Puts values at the end of the list of a variable whose value isn't changed in its place.
#[inline(never)]
fn lappend_apart(
    alloc: Global,
    frames: &mut Frames,
    name: &Text,
    values: &[Text],
) -> Result<Text, Fault>
    ensures came { Answers (lappend_to frames.old name.now values.now) result frames.new }
    ensures kept { IfNoMemory result (frames.new ≡ frames.old) }
    ensures depth { length frames.new.above ≡ length frames.old.above }
{
    if let Some(old) = written_list(frames, name) {
        let more = elements_behind(alloc, old, values)?;
        return grow(alloc, frames, name, &more, Known::WrittenList);
    }
    let old = read_or_empty(alloc, frames, name)?;
    let value = with_elements(alloc, old, values)?;
    store(alloc, frames, name, value)
}

/// Puts values at the end of a variable's list.
fn lappend_values(
    alloc: Global,
    frames: &mut Frames,
    name: &Text,
    values: &[Text],
) -> Result<Text, Fault>
    ensures came { Answers (lappend_to frames.old name.now values.now) result frames.new }
    ensures kept { IfNoMemory result (frames.new ≡ frames.old) }
    ensures depth { length frames.new.above ≡ length frames.old.above }
{
    match frames.scalar_mut(name) {
        Some(place) => lappend_at(alloc, place, values),
        None => lappend_apart(alloc, frames, name, values),
    }
}

/// `lappend name value*`.
pub(crate) fn lappend(alloc: Global, frames: &mut Frames, words: &Words) -> Result<Text, Fault>
    ensures came { Answers (lappend_came frames.old words.now) result frames.new }
    ensures kept { IfNoMemory result (frames.new ≡ frames.old) }
    ensures depth { length frames.new.above ≡ length frames.old.above }
{
    check_least(alloc, words, 2, "lappend")?;
    lappend_values(alloc, frames, word_at(words, 1), &words.as_slice()[2..])
}
