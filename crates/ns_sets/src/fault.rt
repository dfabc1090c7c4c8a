//! Why a call on a set is refused.

ghost use Rattle.std.specs.Prelude.{◌≡◌};

use txt_core::NoMemory;

/// Why a call on a set is refused. A set that is missing is seen before a place in it.
#[derive(Clone, Copy, Debug, PartialEq, Eq)]
pub enum SetFault {
    /// No set has this number.
    NoSet,
    /// The set has no field at this place.
    NoField,
    NoMemory,
}

impl From<NoMemory> for SetFault {
    ghost use Rattle.ns_sets.specs.declared.fault.SetFault.TheVariants.{NoMemory as NoRoom};

    ghost from_gives = { λ _ e. e ≡ NoRoom };

    fn from(_e: NoMemory) -> SetFault {
        SetFault::NoMemory
    }
}
