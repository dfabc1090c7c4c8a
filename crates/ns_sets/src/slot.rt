//! The slot of a set among all that were made, which is empty once the set was freed.

ghost use Rattle.std.specs.Prelude.{◌≡◌, ◌≢◌, ◌↔◌, ◌≤◌, ◌++◌, None, Err, IsErr, IsSomeAnd, IfOk, IfErr, OnOk, OnErr, length, pos, take, remove};
ghost use Rattle.ns_sets.specs.Fields.{exact, with_field, without_first, with_absent, place_put};
ghost use Rattle.ns_sets.specs.Matching.{same};
ghost use Rattle.ns_sets.specs.Sets.{fields_at, holding};

use crate::fault::SetFault;
use crate::fields::Fields;
use crate::matching::Matching;
use crate::set::Set;
use std::alloc::Global;
use txt_core::Text;

/// Puts a field at the end of the set, and gives its place in it.
pub fn put_at(
    slot: &mut Option<Set>,
    alloc: Global,
    key: &Text,
    value: &Text,
) -> Result<i64, SetFault>
    ensures number { IfOk result (λ number. number ≡ pos (length (fields_at slot.old))) }
    ensures ok { OnOk result
        (slot.new ≡ holding slot.old (with_field (fields_at slot.old) key.now value.now)) }
    ensures absent { (result ≡ Err SetFault.NoSet) ↔ (slot.old ≡ None) }
    ensures other { result ≢ Err SetFault.NoField }
    ensures err { OnErr result (slot.new ≡ slot.old) }
{
    match slot {
        Some(set) => Ok(set.fields.put(alloc, key, value)?),
        None => Err(SetFault::NoSet),
    }
}

/// Puts a field at the end of the set where its key is absent, and gives its place in it, or -1.
pub fn put_absent_at(
    slot: &mut Option<Set>,
    alloc: Global,
    matching: Matching,
    key: &Text,
    value: &Text,
) -> Result<i64, SetFault>
    ensures number { IfOk result (λ number.
        number ≡ place_put (same matching) (fields_at slot.old) key.now) }
    ensures ok { OnOk result
        (slot.new
        ≡ holding slot.old (with_absent (same matching) (fields_at slot.old) key.now value.now)) }
    ensures absent { (result ≡ Err SetFault.NoSet) ↔ (slot.old ≡ None) }
    ensures other { result ≢ Err SetFault.NoField }
    ensures err { OnErr result (slot.new ≡ slot.old) }
{
    match slot {
        Some(set) => Ok(set.fields.put_absent(alloc, matching, key, value)?),
        None => Err(SetFault::NoSet),
    }
}

/// Puts a field at the end of the set in place of the first of its key, and gives its place in it.
pub fn update_at(
    slot: &mut Option<Set>,
    alloc: Global,
    key: &Text,
    value: &Text,
) -> Result<i64, SetFault>
    ensures number { IfOk result (λ number.
        number ≡ pos (length (without_first exact (fields_at slot.old) key.now))) }
    ensures ok { OnOk result
        (slot.new
        ≡ holding slot.old
        (with_field (without_first exact (fields_at slot.old) key.now) key.now value.now)) }
    ensures absent { (result ≡ Err SetFault.NoSet) ↔ (slot.old ≡ None) }
    ensures other { result ≢ Err SetFault.NoField }
    ensures err { OnErr result (slot.new ≡ slot.old) }
{
    match slot {
        Some(set) => Ok(set.fields.update(alloc, key, value)?),
        None => Err(SetFault::NoSet),
    }
}

/// Puts more fields at the end of the set.
pub fn append_at(slot: &mut Option<Set>, more: Fields) -> Result<(), SetFault>
    ensures ok { OnOk result (slot.new ≡ holding slot.old (fields_at slot.old ++ more)) }
    ensures absent { (result ≡ Err SetFault.NoSet) ↔ (slot.old ≡ None) }
    ensures other { result ≢ Err SetFault.NoField }
    ensures err { OnErr result (slot.new ≡ slot.old) }
{
    match slot {
        Some(set) => Ok(set.fields.append(more)?),
        None => Err(SetFault::NoSet),
    }
}

/// Removes the first field of a key from the set, where there is one.
pub fn remove_key_at(slot: &mut Option<Set>, matching: Matching, key: &Text) -> Result<(), SetFault>
    ensures ok { OnOk result
        (slot.new ≡ holding slot.old (without_first (same matching) (fields_at slot.old) key.now)) }
    ensures absent { IsErr result ↔ (slot.old ≡ None) }
    ensures fault { IfErr result (λ fault. fault ≡ SetFault.NoSet) }
    ensures err { OnErr result (slot.new ≡ slot.old) }
{
    match slot {
        Some(set) => {
            set.fields.remove_key(matching, key);
            Ok(())
        }
        None => Err(SetFault::NoSet),
    }
}

/// Removes the field at a place in the set.
pub fn delete_at(slot: &mut Option<Set>, at: u64) -> Result<(), SetFault>
    ensures ok { OnOk result (slot.new ≡ holding slot.old (remove (fields_at slot.old) at)) }
    ensures absent { (result ≡ Err SetFault.NoSet) ↔ (slot.old ≡ None) }
    ensures outside { (result ≡ Err SetFault.NoField)
        ↔ IsSomeAnd slot.old (λ set. length set.fields ≤ at) }
    ensures other { result ≢ Err SetFault.NoMemory }
    ensures err { OnErr result (slot.new ≡ slot.old) }
{
    match slot {
        Some(set) => set.fields.delete(at),
        None => Err(SetFault::NoSet),
    }
}

/// Keeps the first fields of the set, at most so many.
pub fn truncate_at(slot: &mut Option<Set>, size: u64) -> Result<(), SetFault>
    ensures ok { OnOk result (slot.new ≡ holding slot.old (take size (fields_at slot.old))) }
    ensures absent { IsErr result ↔ (slot.old ≡ None) }
    ensures fault { IfErr result (λ fault. fault ≡ SetFault.NoSet) }
    ensures err { OnErr result (slot.new ≡ slot.old) }
{
    match slot {
        Some(set) => {
            set.fields.truncate(size);
            Ok(())
        }
        None => Err(SetFault::NoSet),
    }
}
