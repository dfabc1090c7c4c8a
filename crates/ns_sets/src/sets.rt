//! The sets of an interpreter.

ghost use Rattle.std.specs.Prelude.{◌≡◌, ◌≢◌, ◌↔◌, ◌≤◌, ◌++◌, ◌∷◌, ◌⊎◌, [], Some, None, Ok, Err, IsErr, IsSomeAnd, IfOk, IfErr, OnOk, OnErr, length, pos, take, remove, slice_set, slice_get};
ghost use Rattle.std.specs.Option.{option_map};
ghost use Rattle.ns_sets.specs.Fields.{exact, ignoring_case, place_of, place_number, value_of, with_field, without_first, with_absent, place_put, merged};
ghost use Rattle.ns_sets.specs.Sets.{set_of, name_of, fields_of, with_new, with_fields};

use crate::fault::SetFault;
use crate::fields::Fields;
use crate::matching::Matching;
use crate::set::Set;
use crate::slot::{
    append_at, delete_at, put_absent_at, put_at, remove_key_at, truncate_at, update_at,
};
use std::alloc::Global;
use std::marker::Model;
use txt_core::{NoMemory, Text};

/// Sets by number: each has a name, and fields that are keys with values, in order. Contracts see
/// the list of all that were made since it was new or was cleared: of one that stands its name
/// and fields, of a freed one nothing. So the number of a set is its place in the list, and no
/// number is given twice.
///
/// Where a call has several faults, a missing set is seen before a missing field.
#[derive(Debug, Drop)]
pub struct Sets {
    alloc: Global,
    sets: Vec<Option<Set>>,
}

impl Model for Sets {
    ghost use Rattle.std.specs.Prelude.{List, Option};
    ghost use Rattle.ns_sets.specs.declared.set.Set.{Set};

    ghost Value = { List (Option Set) };

    ghost view = { λ a. a.sets.items };
}

impl Sets {
    /// No set, and none that was made. Nothing is allocated until the first is.
    pub fn new(alloc: Global) -> Sets
        ensures { result ≡ [] }
    {
        Sets {
            alloc,
            sets: Vec::new(alloc),
        }
    }

    /// Makes a set of this name, without fields. Its number is how many sets were made before it,
    /// since `new` or the last `clear`. Where memory wants, no set is made.
    pub fn create(&mut self, name: Text) -> Result<u64, NoMemory>
        ensures number { IfOk result (λ number. number ≡ length self.old) }
        ensures ok { OnOk result (self.new ≡ with_new self.old name []) }
        ensures err { OnErr result (self.new ≡ self.old) }
    {
        let fields = Fields::new(self.alloc);
        self.add(Set { name, fields })
    }

    /// Frees all sets and begins to count anew: they are as they were new. Takes no memory.
    pub fn clear(&mut self)
        ensures { self.new ≡ [] }
    {
        self.sets.clear();
    }

    /// Puts a field at the end of a set, and gives its place. `NoSet` comes exactly where no set
    /// has this number, and `NoField` never. Whatever the fault, no set is changed.
    pub fn put(&mut self, set: u64, key: &Text, value: &Text) -> Result<i64, SetFault>
        ensures place { IfOk result (λ place. place ≡ pos (length (fields_of self.old set))) }
        ensures ok { OnOk result
            (self.new
            ≡ with_fields self.old set (with_field (fields_of self.old set) key.now value.now)) }

        ensures absent { (result ≡ Err SetFault.NoSet) ↔ (set_of self.old set ≡ None) }
        ensures other { result ≢ Err SetFault.NoField }
        ensures err { OnErr result (self.new ≡ self.old) }
    {
        match self.sets.get_mut(set as usize) {
            Some(slot) => put_at(slot, self.alloc, key, value),
            None => Err(SetFault::NoSet),
        }
    }

    /// Puts a field at the end of a set that has no field of this key, and gives its place. Where
    /// the set has one, nothing is put, and the answer is -1. `NoSet` comes exactly where no set
    /// has this number, and `NoField` never. Whatever the fault, no set is changed.
    pub fn cput(&mut self, set: u64, key: &Text, value: &Text) -> Result<i64, SetFault>
        ensures place { IfOk result (λ place.
            place ≡ place_put exact (fields_of self.old set) key.now) }
        ensures ok { OnOk result
            (self.new
            ≡ with_fields self.old set
            (with_absent exact (fields_of self.old set) key.now value.now)) }

        ensures absent { (result ≡ Err SetFault.NoSet) ↔ (set_of self.old set ≡ None) }
        ensures other { result ≢ Err SetFault.NoField }
        ensures err { OnErr result (self.new ≡ self.old) }
    {
        match self.sets.get_mut(set as usize) {
            Some(slot) => put_absent_at(slot, self.alloc, Matching::Exact, key, value),
            None => Err(SetFault::NoSet),
        }
    }

    /// As `cput`, but keys that differ only in the case of the letters A to Z are the same.
    pub fn icput(&mut self, set: u64, key: &Text, value: &Text) -> Result<i64, SetFault>
        ensures place { IfOk result (λ place.
            place ≡ place_put ignoring_case (fields_of self.old set) key.now) }
        ensures ok { OnOk result
            (self.new
            ≡ with_fields self.old set
            (with_absent ignoring_case (fields_of self.old set) key.now value.now)) }

        ensures absent { (result ≡ Err SetFault.NoSet) ↔ (set_of self.old set ≡ None) }
        ensures other { result ≢ Err SetFault.NoField }
        ensures err { OnErr result (self.new ≡ self.old) }
    {
        match self.sets.get_mut(set as usize) {
            Some(slot) => put_absent_at(slot, self.alloc, Matching::IgnoringCase, key, value),
            None => Err(SetFault::NoSet),
        }
    }

    /// Removes the first field of this key, where the set has one, puts a field of it at the end,
    /// and gives its place then. `NoSet` comes exactly where no set has this number, and `NoField`
    /// never. Whatever the fault, no set is changed.
    pub fn update(&mut self, set: u64, key: &Text, value: &Text) -> Result<i64, SetFault>
        ensures place { IfOk result (λ place.
            place ≡ pos (length (without_first exact (fields_of self.old set) key.now))) }
        ensures ok { OnOk result
            (self.new
            ≡ with_fields self.old set
            (with_field (without_first exact (fields_of self.old set) key.now) key.now value.now)) }

        ensures absent { (result ≡ Err SetFault.NoSet) ↔ (set_of self.old set ≡ None) }
        ensures other { result ≢ Err SetFault.NoField }
        ensures err { OnErr result (self.new ≡ self.old) }
    {
        match self.sets.get_mut(set as usize) {
            Some(slot) => update_at(slot, self.alloc, key, value),
            None => Err(SetFault::NoSet),
        }
    }

    /// The value of the first field of this key; the empty text where the set has none. `NoSet`
    /// comes exactly where no set has this number, and `NoField` never.
    pub fn get(&self, set: u64, key: &Text) -> Result<Text, SetFault>
        ensures value { IfOk result (λ value.
            value ≡ value_of exact (fields_of self.now set) key.now) }

        ensures absent { (result ≡ Err SetFault.NoSet) ↔ (set_of self.now set ≡ None) }
        ensures other { result ≢ Err SetFault.NoField }
    {
        let set = self.standing(set)?;
        Ok(set.fields.value(self.alloc, Matching::Exact, key)?)
    }

    /// As `get`, but keys that differ only in the case of the letters A to Z are the same.
    pub fn iget(&self, set: u64, key: &Text) -> Result<Text, SetFault>
        ensures value { IfOk result (λ value.
            value ≡ value_of ignoring_case (fields_of self.now set) key.now) }

        ensures absent { (result ≡ Err SetFault.NoSet) ↔ (set_of self.now set ≡ None) }
        ensures other { result ≢ Err SetFault.NoField }
    {
        let set = self.standing(set)?;
        Ok(set.fields.value(self.alloc, Matching::IgnoringCase, key)?)
    }

    /// The place of the first field of this key, counted from 0; -1 where the set has none.
    /// `NoSet`, the only fault, comes exactly where no set has this number.
    pub fn find(&self, set: u64, key: &Text) -> Result<i64, SetFault>
        ensures place { IfOk result (λ place.
            place ≡ place_number (place_of exact (fields_of self.now set) key.now)) }

        ensures absent { IsErr result ↔ (set_of self.now set ≡ None) }
        ensures fault { IfErr result (λ fault. fault ≡ SetFault.NoSet) }
    {
        let set = self.standing(set)?;
        Ok(set.fields.place(Matching::Exact, key))
    }

    /// As `find`, but keys that differ only in the case of the letters A to Z are the same.
    pub fn ifind(&self, set: u64, key: &Text) -> Result<i64, SetFault>
        ensures place { IfOk result (λ place.
            place ≡ place_number (place_of ignoring_case (fields_of self.now set) key.now)) }

        ensures absent { IsErr result ↔ (set_of self.now set ≡ None) }
        ensures fault { IfErr result (λ fault. fault ≡ SetFault.NoSet) }
    {
        let set = self.standing(set)?;
        Ok(set.fields.place(Matching::IgnoringCase, key))
    }

    /// Removes the first field of this key, where the set has one. `NoSet`, the only fault, comes
    /// exactly where no set has this number, and no set is then changed.
    pub fn delkey(&mut self, set: u64, key: &Text) -> Result<(), SetFault>
        ensures ok { OnOk result
            (self.new
            ≡ with_fields self.old set (without_first exact (fields_of self.old set) key.now)) }

        ensures absent { IsErr result ↔ (set_of self.old set ≡ None) }
        ensures fault { IfErr result (λ fault. fault ≡ SetFault.NoSet) }
        ensures err { OnErr result (self.new ≡ self.old) }
    {
        match self.sets.get_mut(set as usize) {
            Some(slot) => remove_key_at(slot, Matching::Exact, key),
            None => Err(SetFault::NoSet),
        }
    }

    /// As `delkey`, but keys that differ only in the case of the letters A to Z are the same.
    pub fn idelkey(&mut self, set: u64, key: &Text) -> Result<(), SetFault>
        ensures ok { OnOk result
            (self.new
            ≡ with_fields self.old set
            (without_first ignoring_case (fields_of self.old set) key.now)) }

        ensures absent { IsErr result ↔ (set_of self.old set ≡ None) }
        ensures fault { IfErr result (λ fault. fault ≡ SetFault.NoSet) }
        ensures err { OnErr result (self.new ≡ self.old) }
    {
        match self.sets.get_mut(set as usize) {
            Some(slot) => remove_key_at(slot, Matching::IgnoringCase, key),
            None => Err(SetFault::NoSet),
        }
    }

    /// Removes the field at a place, counted from 0; those behind it move one place down. `NoSet`
    /// comes exactly where no set has this number, `NoField` exactly where the set has no field at
    /// this place, and `NoMemory` never. Whatever the fault, no set is changed.
    pub fn delete(&mut self, set: u64, at: u64) -> Result<(), SetFault>
        ensures ok { OnOk result
            (self.new ≡ with_fields self.old set (remove (fields_of self.old set) at)) }

        ensures absent { (result ≡ Err SetFault.NoSet) ↔ (set_of self.old set ≡ None) }
        ensures outside { (result ≡ Err SetFault.NoField)
            ↔ IsSomeAnd (set_of self.old set) (λ set. length set.fields ≤ at) }
        ensures other { result ≢ Err SetFault.NoMemory }
        ensures err { OnErr result (self.new ≡ self.old) }
    {
        match self.sets.get_mut(set as usize) {
            Some(slot) => delete_at(slot, at),
            None => Err(SetFault::NoSet),
        }
    }

    /// Keeps the first `size` fields of a set, or all where it has no more. `NoSet`, the only
    /// fault, comes exactly where no set has this number, and no set is then changed.
    pub fn truncate(&mut self, set: u64, size: u64) -> Result<(), SetFault>
        ensures ok { OnOk result
            (self.new ≡ with_fields self.old set (take size (fields_of self.old set))) }

        ensures absent { IsErr result ↔ (set_of self.old set ≡ None) }
        ensures fault { IfErr result (λ fault. fault ≡ SetFault.NoSet) }
        ensures err { OnErr result (self.new ≡ self.old) }
    {
        match self.sets.get_mut(set as usize) {
            Some(slot) => truncate_at(slot, size),
            None => Err(SetFault::NoSet),
        }
    }

    /// Puts at the end of the set `high`, one after the other and in order, each field of the set
    /// `low` whose key `high` then lacks. So a key that `low` has twice is put once, and nothing
    /// is put where the two are one set. `NoSet` comes exactly where no set has one of the
    /// numbers, and `NoField` never. Whatever the fault, no set is changed.
    pub fn merge(&mut self, high: u64, low: u64) -> Result<(), SetFault>
        ensures ok { OnOk result
            (self.new
            ≡ with_fields self.old high
            (merged (fields_of self.old high) (fields_of self.old low))) }

        ensures absent { (result ≡ Err SetFault.NoSet)
            ↔ ((set_of self.old high ≡ None) ⊎ (set_of self.old low ≡ None)) }
        ensures other { result ≢ Err SetFault.NoField }
        ensures err { OnErr result (self.new ≡ self.old) }
    {
        let lacking = self.lacking(high, low)?;
        match self.sets.get_mut(high as usize) {
            Some(slot) => append_at(slot, lacking),
            None => Err(SetFault::NoSet),
        }
    }

    /// Makes a set of the same name and fields, and gives its number, which is how many sets were
    /// made before it, since `new` or the last `clear`. `NoSet` comes exactly where no set has the
    /// number `set`, and `NoField` never. Whatever the fault, no set is made.
    pub fn copy(&mut self, set: u64) -> Result<u64, SetFault>
        ensures number { IfOk result (λ number. number ≡ length self.old) }
        ensures ok { OnOk result
            (self.new ≡ with_new self.old (name_of self.old set) (fields_of self.old set)) }

        ensures absent { (result ≡ Err SetFault.NoSet) ↔ (set_of self.old set ≡ None) }
        ensures other { result ≢ Err SetFault.NoField }
        ensures err { OnErr result (self.new ≡ self.old) }
    {
        let set = self.standing(set)?;
        let copy = set.copied(self.alloc)?;
        Ok(self.add(copy)?)
    }

    /// Frees a set. Its number is not given again. `NoSet`, the only fault, comes exactly where no
    /// set has this number, and no set is then changed.
    pub fn free(&mut self, set: u64) -> Result<(), SetFault>
        ensures ok { OnOk result (self.new ≡ slice_set self.old set None) }

        ensures absent { IsErr result ↔ (set_of self.old set ≡ None) }
        ensures fault { IfErr result (λ fault. fault ≡ SetFault.NoSet) }
        ensures err { OnErr result (self.new ≡ self.old) }
    {
        let Some(slot) = self.sets.get_mut(set as usize) else {
            return Err(SetFault::NoSet);
        };
        if slot.take().is_none() {
            return Err(SetFault::NoSet);
        }
        Ok(())
    }

    /// How many fields a set has. `NoSet`, the only fault, comes exactly where no set has this
    /// number.
    pub fn size(&self, set: u64) -> Result<u64, SetFault>
        ensures size { IfOk result (λ size. size ≡ length (fields_of self.now set)) }

        ensures absent { IsErr result ↔ (set_of self.now set ≡ None) }
        ensures fault { IfErr result (λ fault. fault ≡ SetFault.NoSet) }
    {
        let set = self.standing(set)?;
        Ok(set.fields.len() as u64)
    }

    /// The name of a set. `NoSet` comes exactly where no set has this number, and `NoField` never.
    pub fn name(&self, set: u64) -> Result<Text, SetFault>
        ensures name { IfOk result (λ name. name ≡ name_of self.now set) }

        ensures absent { (result ≡ Err SetFault.NoSet) ↔ (set_of self.now set ≡ None) }
        ensures other { result ≢ Err SetFault.NoField }
    {
        let set = self.standing(set)?;
        Ok(set.name.copy(self.alloc)?)
    }

    /// The key of the field at a place, counted from 0. `NoSet` comes exactly where no set has
    /// this number, and `NoField` exactly where the set has no field at this place.
    pub fn key(&self, set: u64, at: u64) -> Result<Text, SetFault>
        ensures key { IfOk result (λ key.
            option_map (λ field. field.0) (slice_get (fields_of self.now set) at) ≡ Some key) }

        ensures absent { (result ≡ Err SetFault.NoSet) ↔ (set_of self.now set ≡ None) }
        ensures outside { (result ≡ Err SetFault.NoField)
            ↔ IsSomeAnd (set_of self.now set) (λ set. length set.fields ≤ at) }
    {
        let set = self.standing(set)?;
        set.fields.key_at(self.alloc, at)
    }

    /// The value of the field at a place, counted from 0. `NoSet` comes exactly where no set has
    /// this number, and `NoField` exactly where the set has no field at this place.
    pub fn value(&self, set: u64, at: u64) -> Result<Text, SetFault>
        ensures value { IfOk result (λ value.
            option_map (λ field. field.1) (slice_get (fields_of self.now set) at) ≡ Some value) }

        ensures absent { (result ≡ Err SetFault.NoSet) ↔ (set_of self.now set ≡ None) }
        ensures outside { (result ≡ Err SetFault.NoField)
            ↔ IsSomeAnd (set_of self.now set) (λ set. length set.fields ≤ at) }
    {
        let set = self.standing(set)?;
        set.fields.value_at(self.alloc, at)
    }

    /// Puts one more set behind all that were made, and gives its number.
    fn add(&mut self, set: Set) -> Result<u64, NoMemory>
        ensures number { IfOk result (λ number. number ≡ length self.old) }
        ensures ok { OnOk result (self.new ≡ self.old ++ Some set ∷ []) }
        ensures err { OnErr result (self.new ≡ self.old) }
    {
        let number = self.sets.len();
        self.sets.push(Some(set))?;
        Ok(number as u64)
    }

    /// The set of this number. `NoSet` is the only fault.
    fn standing(&self, number: u64) -> Result<&Set, SetFault>
        ensures ok { IfOk result (λ set. set_of self.now number ≡ Some set.now) }
        ensures absent { IsErr result ↔ (set_of self.now number ≡ None) }
        ensures fault { IfErr result (λ fault. fault ≡ SetFault.NoSet) }
    {
        match self.sets.get(number as usize) {
            Some(Some(set)) => Ok(set),
            _ => Err(SetFault::NoSet),
        }
    }

    /// Copies of the fields that a merge puts at the end of the set `high`.
    fn lacking(&self, high: u64, low: u64) -> Result<Fields, SetFault>
        ensures ok { IfOk result (λ fields.
            fields_of self.now high ++ fields
            ≡ merged (fields_of self.now high) (fields_of self.now low)) }

        ensures absent { (result ≡ Err SetFault.NoSet)
            ↔ ((set_of self.now high ≡ None) ⊎ (set_of self.now low ≡ None)) }
        ensures other { result ≢ Err SetFault.NoField }
    {
        let high = self.standing(high)?;
        let low = self.standing(low)?;
        Ok(high.fields.lacking(self.alloc, &low.fields)?)
    }
}
