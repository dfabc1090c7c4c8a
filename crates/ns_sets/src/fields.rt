//! The fields of a set.

ghost use Rattle.std.specs.Prelude.{◌≡◌, ◌≢◌, ◌<◌, ◌++◌, [], Some, Err, IfOk, IfSome, OnOk, OnErr, IsErr, IfErr, ◌≤◌, ◌↔◌, ◌-◌, length, pos, remove, take, slice_get};
ghost use Rattle.std.specs.Option.{option_map, ForSome};
ghost use Rattle.ns_sets.specs.Fields.{place_of, place_number, holds, value_of, with_field, without_place, without_first, with_absent, place_put, merged, exact};
ghost use Rattle.ns_sets.specs.Matching.{same};

use crate::fault::SetFault;
use crate::matching::Matching;
use std::alloc::Global;
use std::marker::Model;
use txt_core::{NoMemory, Text};

/// The answer of a call that puts a field, where it put none.
const NO_PLACE: i64 = -1;

/// Keys with their values, in order. Contracts see the list of them.
#[derive(Debug, Drop)]
pub struct Fields {
    list: Vec<(Text, Text)>,
}

impl Model for Fields {
    ghost use Rattle.txt_core.specs.Names.{Pairs};

    ghost Value = { Pairs };

    ghost view = { λ a. a.list.items };
}

impl Fields {
    /// No fields.
    pub fn new(alloc: Global) -> Fields
        ensures { result ≡ [] }
    {
        Fields {
            list: Vec::new(alloc),
        }
    }

    /// How many there are.
    pub fn len(&self) -> usize
        ensures { result ≡ length self.now }
    {
        self.list.len()
    }

    /// The first place of a key.
    fn find(&self, matching: Matching, key: &Text) -> Option<usize>
        ensures place { result ≡ place_of (same matching) self.now key.now }
        ensures within { IfSome result (λ at. at < length self.now) }
    {
        self.list
            .iter()
            .position(|field| matching.is_same(&field.0, key))
    }

    /// The first place of a key; -1 where the key is absent.
    pub fn place(&self, matching: Matching, key: &Text) -> i64
        ensures { result ≡ place_number (place_of (same matching) self.now key.now) }
    {
        let len = self.list.len();
        match self.find(matching, key) {
            Some(at) => {
                prove!(at < len);
                at as i64
            }
            None => NO_PLACE,
        }
    }

    /// Whether a field has this key.
    fn has(&self, matching: Matching, key: &Text) -> bool
        ensures { result ≡ holds (same matching) self.now key.now }
    {
        self.list
            .iter()
            .any(|field| matching.is_same(&field.0, key))
    }

    /// The place of the last field.
    fn last_place(&self) -> i64
        requires { 0 < length self.now }
        ensures { result ≡ pos (length self.now - 1) }
    {
        let last = self.list.len() - 1;
        last as i64
    }

    /// The value of the first field of a key; the empty text where the key is absent.
    pub fn value(&self, alloc: Global, matching: Matching, key: &Text) -> Result<Text, NoMemory>
        ensures { IfOk result (λ value. value ≡ value_of (same matching) self.now key.now) }
    {
        match self.find(matching, key) {
            Some(at) => self.list[at].1.copy(alloc),
            None => Ok(Text::empty(alloc)),
        }
    }

    /// The key of the field at a place. `NoField` comes exactly where there is none.
    pub fn key_at(&self, alloc: Global, at: u64) -> Result<Text, SetFault>
        ensures key { IfOk result (λ key.
            option_map (λ field. field.0) (slice_get self.now at) ≡ Some key) }
        ensures outside { (result ≡ Err SetFault.NoField) ↔ (length self.now ≤ at) }
        ensures other { result ≢ Err SetFault.NoSet }
    {
        match self.list.get(at as usize) {
            Some(field) => Ok(field.0.copy(alloc)?),
            None => Err(SetFault::NoField),
        }
    }

    /// The value of the field at a place. `NoField` comes exactly where there is none.
    pub fn value_at(&self, alloc: Global, at: u64) -> Result<Text, SetFault>
        ensures value { IfOk result (λ value.
            option_map (λ field. field.1) (slice_get self.now at) ≡ Some value) }
        ensures outside { (result ≡ Err SetFault.NoField) ↔ (length self.now ≤ at) }
        ensures other { result ≢ Err SetFault.NoSet }
    {
        match self.list.get(at as usize) {
            Some(field) => Ok(field.1.copy(alloc)?),
            None => Err(SetFault::NoField),
        }
    }

    /// Puts a field at the end, and gives its place.
    pub fn put(&mut self, alloc: Global, key: &Text, value: &Text) -> Result<i64, NoMemory>
        ensures place { IfOk result (λ place. place ≡ pos (length self.old)) }
        ensures ok { OnOk result (self.new ≡ with_field self.old key.now value.now) }
        ensures err { OnErr result (self.new ≡ self.old) }
    {
        let field = (key.copy(alloc)?, value.copy(alloc)?);
        self.list.push(field)?;
        Ok(self.last_place())
    }

    /// Puts a field at the end where its key is absent, and gives its place, or -1.
    pub fn put_absent(
        &mut self,
        alloc: Global,
        matching: Matching,
        key: &Text,
        value: &Text,
    ) -> Result<i64, NoMemory>
        ensures place { IfOk result (λ place. place ≡ place_put (same matching) self.old key.now) }
        ensures ok { OnOk result
            (self.new ≡ with_absent (same matching) self.old key.now value.now) }
        ensures err { OnErr result (self.new ≡ self.old) }
    {
        if self.has(matching, key) {
            return Ok(NO_PLACE);
        }
        self.put(alloc, key, value)
    }

    /// Puts a field at the end in place of the first of its key, and gives its place.
    pub fn update(&mut self, alloc: Global, key: &Text, value: &Text) -> Result<i64, NoMemory>
        ensures place { IfOk result (λ place.
            place ≡ pos (length (without_first exact self.old key.now))) }
        ensures ok { OnOk result
            (self.new ≡ with_field (without_first exact self.old key.now) key.now value.now) }
        ensures err { OnErr result (self.new ≡ self.old) }
    {
        self.replace(alloc, key, value)?;
        Ok(self.last_place())
    }

    /// Puts a field at the end in place of the first of its key.
    fn replace(&mut self, alloc: Global, key: &Text, value: &Text) -> Result<(), NoMemory>
        ensures ok { OnOk result
            (self.new ≡ with_field (without_first exact self.old key.now) key.now value.now) }
        ensures err { OnErr result (self.new ≡ self.old) }
    {
        let standing = self.find(Matching::Exact, key);
        self.put(alloc, key, value)?;
        self.remove_standing(standing);
        Ok(())
    }

    /// Removes the first field of a key, where there is one.
    pub fn remove_key(&mut self, matching: Matching, key: &Text)
        ensures { self.new ≡ without_first (same matching) self.old key.now }
    {
        let standing = self.find(matching, key);
        self.remove_standing(standing);
    }

    /// Removes the field at this place, where there is one.
    fn remove_standing(&mut self, standing: Option<usize>)
        requires { ForSome standing (λ at. at < length self.old) }
        ensures { self.new ≡ without_place self.old standing }
    {
        if let Some(at) = standing {
            self.list.remove(at);
        }
    }

    /// Removes the field at a place. `NoField`, the only fault, comes exactly where there is none.
    pub fn delete(&mut self, at: u64) -> Result<(), SetFault>
        ensures ok { OnOk result (self.new ≡ remove self.old at) }
        ensures outside { IsErr result ↔ (length self.old ≤ at) }
        ensures fault { IfErr result (λ fault. fault ≡ SetFault.NoField) }
        ensures err { OnErr result (self.new ≡ self.old) }
    {
        let at = at as usize;
        if at >= self.list.len() {
            return Err(SetFault::NoField);
        }
        self.list.remove(at);
        Ok(())
    }

    /// Keeps the first fields, at most so many.
    pub fn truncate(&mut self, size: u64)
        ensures { self.new ≡ take size self.old }
    {
        self.list.truncate(size as usize);
    }

    /// A copy of all fields.
    pub fn copied(&self, alloc: Global) -> Result<Fields, NoMemory>
        ensures { IfOk result (λ fields. fields ≡ self.now) }
    {
        let mut fields = Fields::new(alloc);
        for field in &self.list {
            fields.put(alloc, &field.0, &field.1)?;
        }
        Ok(fields)
    }

    /// Copies of the fields of another set that a merge puts behind these.
    pub fn lacking(&self, alloc: Global, low: &Fields) -> Result<Fields, NoMemory>
        ensures { IfOk result (λ fields. self.now ++ fields ≡ merged self.now low.now) }
    {
        let mut fields = Fields::new(alloc);
        for field in &low.list {
            if !self.has(Matching::Exact, &field.0) {
                fields.put_absent(alloc, Matching::Exact, &field.0, &field.1)?;
            }
        }
        Ok(fields)
    }

    /// Puts more fields at the end.
    pub fn append(&mut self, mut more: Fields) -> Result<(), NoMemory>
        ensures ok { OnOk result (self.new ≡ self.old ++ more) }
        ensures err { OnErr result (self.new ≡ self.old) }
    {
        self.list.append(&mut more.list)?;
        Ok(())
    }
}
