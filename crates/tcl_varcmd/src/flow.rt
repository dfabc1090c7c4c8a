//! Variable commands.

ghost use Rattle.std.specs.Prelude.{◌≡◌, length, Some, IsTrue, true};
ghost use Rattle.tcl_varcmd.specs.Answers.{Answers, IfNoMemory};
ghost use Rattle.tcl_varcmd.specs.Commands.{command_came, bounded, var_came, begins_var_command};
ghost use Rattle.tcl_varcmd.specs.Judging.{is_on_one};

use crate::array::{array, info};
use crate::command::{Command, command_in, is_on_one};
use crate::names::{global, unset};
use crate::scalar::{append, incr, lappend, set};
use natives::{Fault, has_long_text};
use std::alloc::Global;
use tcl_frame::Frames;
use txt_core::{Text, Words, error_text};

/// What a command answers, before its length is judged.
fn answer(
    alloc: Global,
    frames: &mut Frames,
    command: Command,
    words: &Words,
) -> Result<Text, Fault>
    ensures came { Answers (command_came frames.old (Some command) words.now) result frames.new }
    ensures kept { IfNoMemory result (frames.new ≡ frames.old) }
    ensures depth { length frames.new.above ≡ length frames.old.above }
{
    match command {
        Command::Set => set(alloc, frames, words),
        Command::Unset => unset(alloc, frames, words),
        Command::Incr => incr(alloc, frames, words),
        Command::Append => append(alloc, frames, words),
        Command::Lappend => lappend(alloc, frames, words),
        Command::Global => global(alloc, frames, words),
        Command::Array => array(alloc, frames, words),
        Command::Info => info(alloc, frames, words),
    }
}

/// What a command on one variable comes to. Its answer is over the limit only where it changed
/// nothing, so that want of memory for the error's text changes nothing.
fn judged(
    alloc: Global,
    frames: &mut Frames,
    command: Command,
    words: &Words,
) -> Result<Text, Fault>
    requires { is_on_one command ≡ true }
    ensures came { Answers (bounded (command_came frames.old (Some command) words.now)) result
        frames.new }
    ensures kept { IfNoMemory result (frames.new ≡ frames.old) }
    ensures depth { length frames.new.above ≡ length frames.old.above }
{
    let came = answer(alloc, frames, command, words);
    if has_long_text(&came) {
        return Err(Fault::too_long(alloc));
    }
    came
}

/// What any other command comes to. The text of the error is had before anything changes, so that want
/// of memory for it changes nothing.
#[inline(never)]
fn judged_apart(
    alloc: Global,
    frames: &mut Frames,
    command: Command,
    words: &Words,
) -> Result<Text, Fault>
    ensures came { Answers (bounded (command_came frames.old (Some command) words.now)) result
        frames.new }
    ensures kept { IfNoMemory result (frames.new ≡ frames.old) }
    ensures depth { length frames.new.above ≡ length frames.old.above }
{
    let over = error_text::too_long(alloc)?;
    let came = answer(alloc, frames, command, words);
    if has_long_text(&came) {
        return Err(Fault::Error(over));
    }
    came
}

/// Does one of the commands on variables: `set`, `unset`, `incr`, `append`, `lappend`, `global`,
/// `array` and `info exists`. The condition is that the words begin with one of these
/// (`is_var_command`).
///
/// The result is a text: of `set`, `incr`, `append` and `lappend` the variable's new value, of
/// `array exists` and `info exists` 1 or 0, of `array size` a number, of `array get` and `array
/// names` a list in byte order of the indexes; else it is empty.
///
/// # Errors
///
/// `Error` exactly where the command's rule has an error, with its text: first a wrong number of
/// words or an unknown subcommand, then what the arguments, from left to right, don't allow. The
/// variables are then as they were, but for the names before the failing one in `unset` and
/// `global`. `NoMemory` for want of memory alone; the variables are then as they were, in `unset` and
/// `global` too.
pub fn var_command(alloc: Global, frames: &mut Frames, words: &Words) -> Result<Text, Fault>
    requires { IsTrue (begins_var_command words.now) }
    ensures came { Answers (var_came frames.old words.now) result frames.new }
    ensures kept { IfNoMemory result (frames.new ≡ frames.old) }
    ensures depth { length frames.new.above ≡ length frames.old.above }
{
    match command_in(words) {
        Some(command) => {
            if is_on_one(command) {
                return judged(alloc, frames, command, words);
            }
            judged_apart(alloc, frames, command, words)
        }
        None => unreachable!(),
    }
}
