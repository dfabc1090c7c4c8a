//! Which methods and stages a registration may name.

ghost use Rattle.std.specs.Prelude.{◌≡◌};
ghost use Rattle.blueprint.specs.Reading.{is_method, is_filter_method, stage_named};

use cmd_table::When;

/// Whether a word is a method for which a procedure can be registered.
pub fn is_method(word: &[u8]) -> bool
    ensures { result ≡ is_method word.now }
{
    word == b"GET".as_slice()
        || word == b"POST".as_slice()
        || word == b"PUT".as_slice()
        || word == b"DELETE".as_slice()
}

/// Whether a word is a method for which a filter can be registered, or stands for all.
pub fn is_filter_method(word: &[u8]) -> bool
    ensures { result ≡ is_filter_method word.now }
{
    word == b"*".as_slice() || is_method(word)
}

/// The stage of this name; `None` exactly where there is none.
pub fn stage_named(word: &[u8]) -> Option<When>
    ensures { result ≡ stage_named word.now }
{
    if word == b"preauth".as_slice() {
        Some(When::Preauth)
    } else if word == b"postauth".as_slice() {
        Some(When::Postauth)
    } else if word == b"trace".as_slice() {
        Some(When::Trace)
    } else {
        None
    }
}
