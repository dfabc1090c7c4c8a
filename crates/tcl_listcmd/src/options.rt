//! Options in front of a command's other words.

ghost use Rattle.std.specs.Prelude.{◌≡◌, false, bytes_eq};
ghost use Rattle.natives.specs.Answers.{Tried};
ghost use Rattle.natives.specs.Options.{last_is, refused_at};

use natives::Fault;
use std::alloc::Global;
use txt_core::Text;

/// Whether a word is these bytes.
pub fn is_word(word: &Text, bytes: &[u8]) -> bool
    ensures { result ≡ bytes_eq word.now bytes.now }
{
    word.bytes() == bytes
}

/// Whether the last of two contrary options that stands among the options is this one; neither means
/// the other.
pub fn last_is(options: &[Text], this: &[u8], other: &[u8]) -> bool
    ensures { result ≡ last_is this.now other.now false options.now }
{
    let mut so = false;
    'options: for word in options {
        if is_word(word, this) {
            so = true;
        } else if is_word(word, other) {
            so = false;
        }
    }
    so
}

/// Looks whether each of these words is an option; this is the place of the first that is none.
///
/// # Errors
///
/// `Error` exactly where one is none, with the text `bad value "WORD" for "COMMAND"` of the first;
/// `NoMemory` for want of memory alone.
pub fn check_options(
    alloc: Global,
    options: &[Text],
    other: Option<usize>,
    command: &str,
) -> Result<(), Fault>
    ensures { Tried (refused_at command.now options.now other) (λ _. Unit {0}) result }
{
    let Some(at) = other else {
        return Ok(());
    };
    let word = match options.get(at) {
        Some(word) => word.bytes(),
        None => &[],
    };
    Err(Fault::bad_value(alloc, word, command))
}
