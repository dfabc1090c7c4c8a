//! Scripts that were run most lately, by a place that takes no reading of the whole text.

ghost use Rattle.std.specs.Prelude.{IfOk, IfSome};
ghost use Rattle.parse_cache.specs.Readings.{IsReading};

use natives::Places;
use parse_cache::{ReadScript, Reading};
use std::alloc::Global;
use txt_core::{NoMemory, Text, same_bytes};

/// Scripts that were run most lately. What is kept of a text is true by itself.
pub(crate) type Latest = Places<ReadScript>;

/// What a text is as a script, where it is the one that was run.
fn reading_of(run: &ReadScript, text: &Text) -> Result<Option<Reading>, NoMemory>
    ensures { IfOk result (λ found. IfSome found (λ read. IsReading text.now read)) }
{
    if !same_bytes(run.text().bytes(), text.bytes()) {
        return Ok(None);
    }
    let read = run.reading()?;
    Ok(Some(read))
}

/// What a text is as a script, where it stands at its place. The only error is want of memory.
pub(crate) fn find_latest(latest: &Latest, text: &Text) -> Result<Option<Reading>, NoMemory>
    ensures { IfOk result (λ found. IfSome found (λ read. IsReading text.now read)) }
{
    match latest.find(text.bytes()) {
        None => Ok(None),
        Some(run) => reading_of(run, text),
    }
}

/// Puts what a text is at its place. The only error is want of memory.
pub(crate) fn put_latest(
    alloc: Global,
    latest: &mut Latest,
    text: &Text,
    reading: Reading,
) -> Result<(), NoMemory>
    requires { IsReading text.now reading }
{
    let run = ReadScript::with(text.copy(alloc)?, reading);
    latest.put(text.bytes(), run)
}
