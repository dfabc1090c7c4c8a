//! What a schedule keeps of an entry.

ghost use Rattle.std.specs.Prelude.{◌≡◌};
ghost use Rattle.sched_core.specs.Steps.{seconds_of};

use std::collections::BTreeMap;
use txt_core::Text;

/// A year of 365 days. A longer time between two runs counts as this one.
pub(crate) const MOST_SECONDS: u64 = 31_536_000;

/// How many entries a schedule holds at most.
pub(crate) const MOST_ENTRIES: usize = 10_000;

/// When an entry is due, and its id.
pub(crate) type Key = (u64, u64);

/// What an entry does: run its script, every so many seconds unless once.
#[derive(Drop)]
pub struct Plan {
    pub(crate) seconds: u64,
    pub(crate) once: bool,
    pub(crate) script: Text,
}

/// The entries by due moment and then by id.
pub(crate) type Plans = BTreeMap<Key, Plan>;

/// The seconds that these count as.
pub(crate) fn clamp_seconds(seconds: u64) -> u64
    ensures { result ≡ seconds_of seconds }
{
    seconds.max(1).min(MOST_SECONDS)
}
