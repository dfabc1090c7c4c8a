//! The keys of a map that a pattern picks.

ghost use Rattle.std.specs.Prelude.{◌≡◌, IfOk};
ghost use Rattle.std.specs.Option.{option_copied};
ghost use Rattle.std.specs.FinMap as fin;
ghost use Rattle.nsv_bucket.specs.Arrays.{text_cmp};
ghost use Rattle.nsv_bucket.specs.Listings.{names_in, pairs_in};

use std::alloc::Global;
use std::collections::BTreeMap;
use txt_core::{NoMemory, Text, Words, picks};

/// The keys that the pattern picks, in byte order.
pub(crate) fn names<V>(
    alloc: Global,
    map: &BTreeMap<Text, V>,
    pattern: Option<&Text>,
) -> Result<Words, NoMemory>
    ensures { IfOk result (λ found.
        found
        ≡ names_in (option_copied pattern.entry)
        (fin.entries (fin.from_entries {R = text_cmp} map.now.entries))) }
{
    let mut found = Words::new(alloc);
    for (key, _) in map {
        if picks(pattern, key) {
            found.add(key.copy(alloc)?)?;
        }
    }
    Ok(found)
}

/// The keys that the pattern picks, each followed by its value, in byte order.
pub(crate) fn pairs(
    alloc: Global,
    map: &BTreeMap<Text, Text>,
    pattern: Option<&Text>,
) -> Result<Words, NoMemory>
    ensures { IfOk result (λ found.
        found
        ≡ pairs_in (option_copied pattern.entry)
        (fin.entries (fin.from_entries {R = text_cmp} map.now.entries))) }
{
    let mut found = Words::new(alloc);
    for (key, value) in map {
        if picks(pattern, key) {
            found.add(key.copy(alloc)?)?;
            found.add(value.copy(alloc)?)?;
        }
    }
    Ok(found)
}
