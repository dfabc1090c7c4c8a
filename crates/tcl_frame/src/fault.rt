//! Why a call on a variable is refused, and what is said of it.

ghost use Rattle.std.specs.Prelude.{◌≡◌, ◌≢◌, IfOk};
ghost use Rattle.tcl_frame.specs.FaultTexts.{variable_fault};

use std::alloc::Global;
use txt_core::error_text::{is_an_array, is_no_array, no_variable, variable_exists};
use txt_core::{NoMemory, Text};

/// Why a call on a variable is refused. A refusal changes nothing.
#[derive(Clone, Copy, Debug, PartialEq, Eq)]
pub enum VarFault {
    /// There is no variable, or no element, of this name.
    NoVariable,
    /// The name is an array's, which has no value of its own.
    IsArray,
    /// The name of the array is a scalar's, or is no array's name.
    NotArray,
    /// The frame has a variable of this name.
    Exists,
    NoMemory,
}

impl From<NoMemory> for VarFault {
    ghost use Rattle.std.specs.Prelude.{◌≡◌};
    ghost use Rattle.tcl_frame.specs.declared.fault.VarFault.TheVariants.{NoMemory as NoRoom};

    ghost from_gives = { λ _ e. e ≡ NoRoom };

    fn from(_e: NoMemory) -> VarFault {
        VarFault::NoMemory
    }
}

/// What is said of a variable of this name that is refused. The only error is want of memory, which
/// comes also where that is why.
#[cold]
#[inline(never)]
pub fn variable_fault(alloc: Global, why: VarFault, name: &[u8]) -> Result<Text, NoMemory>
    ensures text { IfOk result (λ message. message ≡ variable_fault why name.now) }
    ensures memory { IfOk result (λ _. why ≢ VarFault.NoMemory) }
{
    match why {
        VarFault::NoVariable => no_variable(alloc, name),
        VarFault::IsArray => is_an_array(alloc, name),
        VarFault::NotArray => is_no_array(alloc, name),
        VarFault::Exists => variable_exists(alloc, name),
        VarFault::NoMemory => Err(NoMemory),
    }
}
