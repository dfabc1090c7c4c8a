//! The limits that several parts of the server have in common.

ghost use Rattle.std.specs.Prelude.{◌≡◌, ◌+◌, length, nat_lt};
ghost use Rattle.txt_core.specs.Limits.{is_long, most_bytes, most_nested, last_moment, moment_of, run_budget, bucket_count, most_workers};

use crate::text::Text;

/// How many bytes a value may have: a word, a variable, an element, a result, the text of an error,
/// a page.
pub const MOST_BYTES: usize = 1_048_576;

/// How deep scripts, brackets and indexes, or parentheses, may stand in one another.
pub const MOST_NESTED: u32 = 200;

/// The last moment: the last second of the year 9999, in seconds since the beginning of 1970.
pub const LAST_MOMENT: u64 = 253_402_300_799;

/// What a run may spend.
pub const RUN_BUDGET: u64 = 200_000;

/// How many workers there may be.
pub const MOST_WORKERS: u16 = 16;

/// In how many buckets the shared arrays stand.
pub const BUCKET_COUNT: u8 = 8;

/// The limits are those of the rules. The function does nothing: its contract is the law.
pub fn limits_have_their_numbers()
    ensures values { (MOST_BYTES ≡ most_bytes) × (MOST_NESTED ≡ most_nested) }
    ensures moments { LAST_MOMENT ≡ last_moment }
    ensures runs { RUN_BUDGET ≡ run_budget }
    ensures workers { MOST_WORKERS ≡ most_workers }
    ensures buckets { BUCKET_COUNT ≡ bucket_count }
{}

/// Whether so many bytes are over the limit of a value.
pub fn is_over_limit(bytes: usize) -> bool
    ensures { result ≡ nat_lt most_bytes bytes }
{
    bytes > MOST_BYTES
}

/// Whether a text is over the limit of a value.
pub fn is_too_long(text: &Text) -> bool
    ensures { result ≡ is_long text.now }
{
    is_over_limit(text.len())
}

/// Whether so many bytes, with a text behind them, are over the limit of a value.
pub fn is_too_long_behind(front: usize, text: &Text) -> bool
    ensures { result ≡ nat_lt most_bytes (front + length text.now) }
{
    is_over_limit(front.saturating_add(text.len()))
}

/// A moment, in seconds since the beginning of 1970; a later one than the last counts as the last.
pub fn moment_of(moment: u64) -> u64
    ensures { result ≡ moment_of moment }
{
    moment.min(LAST_MOMENT)
}
