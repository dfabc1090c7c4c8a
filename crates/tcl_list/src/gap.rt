//! What separates elements.

ghost use Rattle.std.specs.Prelude.{◌≡◌, ◌≤◌, length};
ghost use Rattle.txt_core.specs.Lists.{skip_gaps, ends_element, is_end};

use txt_core::{is_space, trim_front};

/// What is left behind the blanks and newlines in front.
pub fn to_element(bytes: &[u8]) -> &[u8]
    ensures same { result.now ≡ skip_gaps bytes.now }
    ensures shorter { length result.now ≤ length bytes.now }
    ensures stands { ends_element result.now ≡ is_end result.now }
{
    trim_front(bytes)
}

/// Whether an element may end here.
pub fn element_ends(bytes: &[u8]) -> bool
    ensures { result ≡ ends_element bytes.now }
{
    match bytes {
        [] => true,
        [b, ..] => is_space(*b),
    }
}
