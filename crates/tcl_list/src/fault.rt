//! Why a text is no list.

ghost use Rattle.std.specs.Prelude.{◌≡◌};
ghost use Rattle.tcl_list.specs.declared.fault.ListFault.TheVariants as list_fault;

use txt_core::NoMemory;

/// Why there is no list.
#[derive(Clone, Copy, Debug, PartialEq, Eq)]
pub enum ListFault {
    /// The text is no list. `at` counts bytes from 0: there stands the brace or the quote that
    /// nothing closes, or the byte behind a closing one that is no blank and no newline.
    Bad { at: u64 },
    /// Memory ran out.
    NoMemory,
}

impl From<NoMemory> for ListFault {
    ghost from_gives = { λ _ e. e ≡ list_fault.NoMemory };

    fn from(_e: NoMemory) -> ListFault {
        ListFault::NoMemory
    }
}
