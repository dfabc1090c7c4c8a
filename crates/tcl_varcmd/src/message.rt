//! The texts of errors, and the checks that need no variable.

ghost use Rattle.std.specs.Prelude.{◌≡◌, ◌↔◌, ◌<◌, ◌≤◌, nat_lt, length, IsTrue};
ghost use Rattle.natives.specs.Answers.{Tried};
ghost use Rattle.tcl_varcmd.specs.Answers.{Refuses};
ghost use Rattle.tcl_varcmd.specs.Errors.{count_error, least_error};

use natives::Fault;
use std::alloc::Global;
use tcl_frame::{VarFault, variable_fault};
use txt_core::{NoMemory, Text, Words};

/// Why a variable is refused.
pub(crate) fn refusal(alloc: Global, why: VarFault, name: &Text) -> Fault
    ensures { Refuses why name.now result }
{
    match variable_fault(alloc, why, name.bytes()) {
        Ok(text) => Fault::Error(text),
        Err(NoMemory) => Fault::NoMemory,
    }
}

/// Whether there are fewer words than so many.
fn are_fewer(words: &Words, count: usize) -> bool
    ensures test { result ≡ nat_lt (length words.now) count }
    ensures means { IsTrue result ↔ (length words.now < count) }
{
    words.len() < count
}

/// Whether there are more words than so many.
fn are_more(words: &Words, count: usize) -> bool
    ensures test { result ≡ nat_lt count (length words.now) }
    ensures means { IsTrue result ↔ (count < length words.now) }
{
    words.len() > count
}

/// Whether there are from `least` to `most` words.
pub(crate) fn check_count(
    alloc: Global,
    words: &Words,
    least: usize,
    most: usize,
    command: &str,
) -> Result<(), Fault>
    ensures { Tried (count_error least most words.now command.now)
        (λ _. (least ≤ length words.now) × (length words.now ≤ most)) result }
{
    if are_fewer(words, least) {
        return Err(Fault::wrong_words(alloc, command));
    }
    if are_more(words, most) {
        return Err(Fault::wrong_words(alloc, command));
    }
    Ok(())
}

/// Whether there are at least so many words.
pub(crate) fn check_least(
    alloc: Global,
    words: &Words,
    least: usize,
    command: &str,
) -> Result<(), Fault>
    ensures { Tried (least_error least words.now command.now) (λ _. least ≤ length words.now)
        result }
{
    if are_fewer(words, least) {
        return Err(Fault::wrong_words(alloc, command));
    }
    Ok(())
}
