//! How paths and URLs begin.

ghost use Rattle.std.specs.Prelude.{◌≡◌};
ghost use Rattle.txt_core.specs.Paths.{begins_with_slash};

/// Whether a path or a URL begins with a slash.
pub fn begins_with_slash(text: &[u8]) -> bool
    ensures { result ≡ begins_with_slash text.now }
{
    match text.split_first() {
        None => false,
        Some((first, _behind)) => *first == b'/',
    }
}
