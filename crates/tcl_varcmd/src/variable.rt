//! Calls on variables, whose refusals are errors with their texts.

ghost use Rattle.std.specs.Prelude.{◌≡◌, ◌++◌, length, false, None, IfSome};
ghost use Rattle.txt_core.specs.Knowing.{Holds, IsWrittenList};
ghost use Rattle.tcl_frame.specs.Names.{named, is_element};
ghost use Rattle.tcl_frame.specs.Frames.{read_of, link_fault, written, removed, pairs_written, linked};
ghost use Rattle.natives.specs.Answers.{Tried};
ghost use Rattle.tcl_varcmd.specs.Answers.{Answers, Changes, IfNoMemory};
ghost use Rattle.tcl_varcmd.specs.Reading.{IsOrEmpty};
ghost use Rattle.tcl_varcmd.specs.Growing.{put_behind};
ghost use Rattle.tcl_varcmd.specs.Errors.{refused, read_error, write_error, remove_error, array_error};

use crate::message::refusal;
use natives::Fault;
use std::alloc::Global;
use tcl_frame::{Frames, VarFault};
use txt_core::{Known, Text};

/// The value of a variable.
pub(crate) fn read(alloc: Global, frames: &Frames, name: &Text) -> Result<Text, Fault>
    ensures { Tried (read_error frames.now name.now) (λ value. value ≡ read_of frames.now name.now)
        result }
{
    match frames.read(name) {
        Ok(value) => Ok(value),
        Err(fault) => Err(refusal(alloc, fault, name)),
    }
}

/// What stands for a variable that couldn't be read: the empty text where it is absent.
fn or_empty(alloc: Global, fault: VarFault, name: &Text) -> Result<Text, Fault>
    ensures { IsOrEmpty fault name.now result }
{
    match fault {
        VarFault::NoVariable => Ok(Text::empty(alloc)),
        VarFault::IsArray => Err(refusal(alloc, VarFault::IsArray, name)),
        VarFault::NotArray => Err(refusal(alloc, VarFault::NotArray, name)),
        VarFault::Exists => Err(refusal(alloc, VarFault::Exists, name)),
        VarFault::NoMemory => Err(Fault::NoMemory),
    }
}

/// The value of a variable that is to be written, which is empty where it is absent.
pub(crate) fn read_or_empty(alloc: Global, frames: &Frames, name: &Text) -> Result<Text, Fault>
    ensures { Tried (write_error frames.now name.now) (λ value. value ≡ read_of frames.now name.now)
        result }
{
    match frames.read(name) {
        Ok(value) => Ok(value),
        Err(fault) => or_empty(alloc, fault, name),
    }
}

/// How many bytes the value of a variable that is to be written has, none where it is absent.
pub(crate) fn length_or_none(alloc: Global, frames: &Frames, name: &Text) -> Result<usize, Fault>
    ensures { Tried (write_error frames.now name.now)
        (λ count. count ≡ length (read_of frames.now name.now)) result }
{
    match frames.value(name) {
        Ok(value) => Ok(value.len()),
        Err(fault) => {
            let empty = or_empty(alloc, fault, name)?;
            Ok(empty.len())
        }
    }
}

/// The value of a variable, where it is known to be a list of at least one element, as a list is
/// written.
pub(crate) fn written_list<'a>(frames: &'a Frames, name: &Text) -> Option<&'a Text>
    ensures value { IfSome result (λ list.
        (list.now ≡ read_of frames.now name.now) × (write_error frames.now name.now ≡ None)) }
    ensures list { IfSome result (λ list. IsWrittenList list.now) }
{
    match frames.value(name) {
        Ok(value) => match value.known() {
            Known::WrittenList => Some(value),
            Known::Number(_) | Known::Nothing => None,
        },
        Err(_) => None,
    }
}

/// Puts bytes behind a variable's value, and gives the new value.
pub(crate) fn append(
    alloc: Global,
    frames: &mut Frames,
    name: &Text,
    more: &[u8],
    known: Known,
) -> Result<Text, Fault>
    requires { Holds known (read_of frames.old name.now ++ more.now) }
    ensures came { Answers (put_behind frames.old name.now more.now) result frames.new }
    ensures kept { IfNoMemory result (frames.new ≡ frames.old) }
    ensures depth { length frames.new.above ≡ length frames.old.above }
{
    match frames.append(name, more, known) {
        Ok(value) => Ok(value),
        Err(fault) => Err(refusal(alloc, fault, name)),
    }
}

/// Writes a variable.
pub(crate) fn write(
    alloc: Global,
    frames: &mut Frames,
    name: &Text,
    value: Text,
) -> Result<(), Fault>
    ensures change { Changes (write_error frames.old name.now) (written frames.old name.now value)
        frames.old result frames.new }
    ensures depth { length frames.new.above ≡ length frames.old.above }
{
    match frames.write(name, value) {
        Ok(()) => Ok(()),
        Err(fault) => Err(refusal(alloc, fault, name)),
    }
}

/// Removes a variable.
pub(crate) fn remove(alloc: Global, frames: &mut Frames, name: &Text) -> Result<(), Fault>
    ensures change { Changes (remove_error frames.old name.now) (removed frames.old name.now)
        frames.old result frames.new }
    ensures depth { length frames.new.above ≡ length frames.old.above }
{
    match frames.remove(name) {
        Ok(()) => Ok(()),
        Err(fault) => Err(refusal(alloc, fault, name)),
    }
}

/// Writes each index's value to the array.
pub(crate) fn write_array(
    alloc: Global,
    frames: &mut Frames,
    name: &Text,
    pairs: &[Text],
) -> Result<(), Fault>
    ensures change { Changes (array_error frames.old name.now)
        (pairs_written frames.old name.now pairs.now) frames.old result frames.new }
    ensures depth { length frames.new.above ≡ length frames.old.above }
{
    match frames.write_array(name, pairs) {
        Ok(()) => Ok(()),
        Err(fault) => Err(refusal(alloc, fault, name)),
    }
}

/// Links a name to the global variable.
pub(crate) fn link(alloc: Global, frames: &mut Frames, name: &Text) -> Result<(), Fault>
    requires { is_element (named name.now) ≡ false }
    ensures change { Changes (refused name.now (link_fault frames.old name.now))
        (linked frames.old name.now) frames.old result frames.new }
    ensures depth { length frames.new.above ≡ length frames.old.above }
{
    match frames.link(name) {
        Ok(()) => Ok(()),
        Err(fault) => Err(refusal(alloc, fault, name)),
    }
}
