//! A word as a list.

ghost use Rattle.std.specs.Prelude.{◌≡◌};
ghost use Rattle.natives.specs.Answers.{Tried};
ghost use Rattle.natives.specs.Checks.{items, list_error};

use crate::fault::Fault;
use std::alloc::Global;
use tcl_list::{ListFault, split};
use txt_core::{Text, Words};

/// The elements of a word that must be a list.
///
/// # Errors
///
/// `Error` exactly where it is none, with the text `bad list at PLACE`; `NoMemory` for want of
/// memory alone.
pub fn list_in(alloc: Global, word: &Text) -> Result<Words, Fault>
    ensures { Tried (list_error word.now) (λ list. list ≡ items word.now) result }
{
    match split(alloc, word) {
        Ok(list) => Ok(list),
        Err(ListFault::Bad { at }) => Err(Fault::no_list(alloc, at)),
        Err(ListFault::NoMemory) => Err(Fault::NoMemory),
    }
}
