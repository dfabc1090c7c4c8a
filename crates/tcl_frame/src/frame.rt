//! A frame above the global one.

ghost use Rattle.std.specs.Prelude.{◌≡◌};
ghost use Rattle.tcl_frame.specs.Frames.{empty_frame};

use crate::dictionary::Dictionary;
use crate::table::Table;
use std::alloc::Global;

/// Variables, and names that mean the global variables.
#[derive(Debug, Drop)]
pub struct Frame {
    pub variables: Table,
    pub links: Dictionary<()>,
}

impl Frame {
    /// A frame without variables and links.
    pub fn new(alloc: Global) -> Frame
        ensures { result ≡ empty_frame }
    {
        Frame {
            variables: Table::new(alloc),
            links: Dictionary::new(alloc),
        }
    }
}
