//! Names of variables and of elements.

ghost use Rattle.std.specs.Prelude.{◌≡◌, ◌<◌, length, position, IfSome};
ghost use Rattle.tcl_frame.specs.Names.{is_opening, is_closed, is_element, named, variable_name};
ghost use Rattle.tcl_frame.specs.Seen.{name_seen};

use txt_core::Text;

/// What a name means.
#[derive(Clone, Copy, Debug)]
pub enum Name<'a> {
    /// The variable of this name.
    Whole(&'a [u8]),
    /// In the array of the first name the element of this index.
    Element(&'a [u8], &'a [u8]),
}

/// The place of the first `(`.
fn opening(name: &[u8]) -> Option<usize>
    ensures place { result ≡ position is_opening name.now }
    ensures within { IfSome result (λ at. at < length name.now) }
{
    name.iter().position(|byte| *byte == b'(')
}

/// Whether the last byte is `)`.
pub fn is_closed(name: &[u8]) -> bool
    ensures { result ≡ is_closed name.now }
{
    match name.last() {
        Some(last) => *last == b')',
        None => false,
    }
}

/// Whether a name has the form of an array's element: it holds `(` and ends in `)`.
pub fn is_element_name(name: &Text) -> bool
    ensures { result ≡ is_element (named name.now) }
{
    matches!(Name::new(name.bytes()), Name::Element(_, _))
}

impl<'a> Name<'a> {
    /// What a name means: an element where it holds `(` and ends in `)`, else a variable.
    pub fn new(name: &'a [u8]) -> Name<'a>
        ensures { name_seen result ≡ named name.now }
    {
        if !is_closed(name) {
            return Name::Whole(name);
        }
        match opening(name) {
            Some(at) => Name::Element(&name[..at], &name[at + 1..name.len() - 1]),
            None => Name::Whole(name),
        }
    }

    /// The name of the variable itself, which is the array's for an element.
    pub fn variable(&self) -> &'a [u8]
        ensures { result.now ≡ variable_name (name_seen self.now) }
    {
        match self {
            Name::Whole(name) => *name,
            Name::Element(array, _) => *array,
        }
    }
}
