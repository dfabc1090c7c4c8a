//! When two keys are the same.

ghost use Rattle.std.specs.Prelude.{◌≡◌};
ghost use Rattle.ns_sets.specs.Matching.{same};

use txt_core::Text;

/// When two keys count as the same.
#[derive(Clone, Copy, Debug)]
pub enum Matching {
    /// Where their bytes are the same.
    Exact,
    /// Where they are the same but for the case of the letters A to Z.
    IgnoringCase,
}

impl Matching {
    /// Whether these keys are the same.
    pub fn is_same(self, one: &Text, other: &Text) -> bool
        ensures { result ≡ same self one.now other.now }
    {
        match self {
            Matching::Exact => one == other,
            Matching::IgnoringCase => one.bytes().eq_ignore_ascii_case(other.bytes()),
        }
    }
}
