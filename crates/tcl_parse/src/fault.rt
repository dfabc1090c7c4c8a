//! Why a text is no script.

ghost use Rattle.std.specs.Prelude.{◌≡◌, ◌+◌, length};

/// What is wrong with a text.
#[derive(Clone, Copy, Debug, PartialEq, Eq)]
pub enum Kind {
    /// A `"` that begins a word isn't closed.
    Quote,
    /// A `{` that begins a word has no matching brace.
    Brace,
    /// A `[` isn't closed.
    Bracket,
    /// A `${` or a `$name(` isn't closed; the place is that of its `$`.
    Variable,
    /// A closing brace or quote is followed by a byte that doesn't end the word; the place is that
    /// of this byte.
    Extra,
    /// A `[` or the `(` of a `$name(` stands inside [`MOST_NESTED`](txt_core::MOST_NESTED) others.
    Deep,
}

/// Why there is no script.
#[derive(Clone, Copy, Debug, PartialEq, Eq)]
pub enum ParseFault {
    /// The text is no script: the first fault that is reached is of this kind, at this byte,
    /// counted from 0.
    Unclosed { at: u64, kind: Kind },
    /// Memory ran out.
    NoMemory,
}

/// What is wrong in a text, and where.
#[derive(Clone, Copy, Debug, PartialEq, Eq)]
pub struct Fault {
    pub kind: Kind,
    /// How many bytes are left from the byte on where it stands.
    pub left: usize,
}

impl Fault {
    /// The fault at the byte in front of these.
    pub(crate) fn before(kind: Kind, rest: &[u8]) -> Fault
        ensures { result ≡ record { kind = kind; left = length rest.now + 1 } }
    {
        Fault {
            kind,
            left: rest.len() + 1,
        }
    }
}
