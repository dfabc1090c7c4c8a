//! Values as numbers and lists.

ghost use Rattle.std.specs.Prelude.{◌≡◌, ◌++◌, ◌+ℤ◌};
ghost use Rattle.txt_core.specs.Quoting.{quoting};
ghost use Rattle.natives.specs.Answers.{Tried};
ghost use Rattle.natives.specs.Checks.{list_error, items};
ghost use Rattle.tcl_varcmd.specs.Reading.{SaysOfList};
ghost use Rattle.tcl_varcmd.specs.Errors.{sum_error};

use natives::Fault;
use std::alloc::Global;
use tcl_list::{ListFault, append_elements};
use txt_core::Text;

/// The sum of two numbers.
pub(crate) fn sum(alloc: Global, left: i64, right: i64) -> Result<i64, Fault>
    ensures { Tried (sum_error (left +ℤ right)) (λ n. n ≡ left +ℤ right) result }
{
    match left.checked_add(right) {
        Some(sum) => Ok(sum),
        None => Err(Fault::overflow(alloc)),
    }
}

/// The error of a text that is no list.
fn bad_list(alloc: Global, fault: ListFault) -> Fault
    ensures { SaysOfList fault result }
{
    match fault {
        ListFault::Bad { at } => Fault::no_list(alloc, at),
        ListFault::NoMemory => Fault::NoMemory,
    }
}

/// The text of a list's elements with others behind them.
pub(crate) fn with_elements(alloc: Global, list: Text, others: &[Text]) -> Result<Text, Fault>
    ensures { Tried (list_error list) (λ text. text ≡ quoting (items list ++ others.now)) result }
{
    match append_elements(alloc, list, others) {
        Ok(text) => Ok(text),
        Err(fault) => Err(bad_list(alloc, fault)),
    }
}
