//! What the words of a script may ask of a schedule.

ghost use Rattle.std.specs.Prelude.{◌≡◌};
ghost use Rattle.sched_core.specs.Asking.{is_period, is_once_option};

use crate::plan::MOST_SECONDS;

/// Whether a script may run every so many seconds: from 1 to 31,536,000.
pub fn is_period(seconds: i64) -> bool
    ensures { result ≡ is_period seconds }
{
    1 <= seconds && seconds <= MOST_SECONDS as i64
}

/// Whether a word is the option by which a script runs once.
pub fn is_once_option(word: &[u8]) -> bool
    ensures { result ≡ is_once_option word.now }
{
    word == b"-once".as_slice()
}
