//! What a name finds.

ghost use Rattle.std.specs.Prelude.{◌≡◌};
ghost use Rattle.tcl_frame.specs.Findings.{found_seen};
ghost use Rattle.tcl_frame.specs.Meaning.{is_there, is_array_there, no_removal};

use crate::fault::VarFault;
use crate::variable::Elements;
use txt_core::Text;

/// What a name finds among variables.
#[derive(Clone, Copy, Debug)]
pub enum Found<'a> {
    /// No variable, no array or no element of this name.
    Nothing,
    /// The value of a scalar, or of an element.
    Value(&'a Text),
    /// An array as a whole.
    AnArray(&'a Elements),
    /// An element's name whose array's name is a scalar.
    InScalar,
}

impl Found<'_> {
    /// Whether a scalar, an array or an element is there.
    pub fn is_there(&self) -> bool
        ensures { result ≡ is_there (found_seen self.now) }
    {
        matches!(self, Found::Value(_) | Found::AnArray(_))
    }

    /// Whether an array is there.
    pub fn is_array(&self) -> bool
        ensures { result ≡ is_array_there (found_seen self.now) }
    {
        matches!(self, Found::AnArray(_))
    }

    /// Why a removal is refused, if it is.
    pub fn no_removal(&self) -> Option<VarFault>
        ensures { result ≡ no_removal (found_seen self.now) }
    {
        match self {
            Found::Nothing => Some(VarFault::NoVariable),
            Found::Value(_) | Found::AnArray(_) => None,
            Found::InScalar => Some(VarFault::NotArray),
        }
    }
}
