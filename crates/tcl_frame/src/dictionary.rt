//! Values by text.

ghost use Rattle.std.specs.Prelude.{◌≡◌, length, IfOk, OnOk, OnErr};
ghost use Rattle.std.specs.Borrow.{sem};
ghost use Rattle.std.specs.Option.{option_copied, option_copied_mut};
ghost use Rattle.std.specs.FinMap as map;
ghost use Rattle.tcl_frame.specs.Lending.{lends_value};
ghost use Rattle.txt_core.specs.Keyed.{given_back};

use std::alloc::Global;
use std::collections::BTreeMap;
use std::marker::Model;
use std::mem;
use txt_core::NoMemory;

/// Values by the bytes of their keys, in byte order of these. Contracts see a finite map.
#[derive(Debug, Drop)]
pub struct Dictionary<V> {
    pub(crate) alloc: Global,
    pub(crate) values: BTreeMap<Vec<u8>, V>,
}

impl<V> Model for Dictionary<V> {
    ghost use Rattle.std.specs.Ordering.{nat_cmp};
    ghost use Rattle.std.specs.Cmp.Lexicographic.{slice_cmp};
    ghost use Rattle.std.specs.Coded.{coded_list, coded_ℕ};
    ghost use Rattle.std.specs.FinMap as map;
    ghost use Rattle.tcl_frame.specs.Entries.{by_bytes};

    ghost Value = { map.FinMap (slice_cmp nat_cmp) V };

    ghost coded = { map.code (coded_list coded_ℕ) V.code };

    ghost view = { λ a. map.from_entries (by_bytes a.values.entries) };
}

impl<V> Dictionary<V> {
    /// No values. Nothing is allocated until the first is put.
    pub fn new(alloc: Global) -> Self
        ensures { result ≡ map.empty }
    {
        Dictionary {
            alloc,
            values: BTreeMap::new(alloc),
        }
    }

    /// Takes all keys away. It takes no memory.
    pub fn clear(&mut self)
    where
        V: Drop,
        ensures { self.new ≡ map.empty }
    {
        self.values = BTreeMap::new(self.alloc);
    }

    /// How many keys have a value.
    pub fn len(&self) -> usize
        ensures { result ≡ length (map.entries self.now) }
    {
        self.values.len()
    }

    /// The value of a key; `None` exactly where it has none.
    pub fn get(&self, key: &[u8]) -> Option<&V>
        ensures { option_copied result ≡ map.get self.now key.now }
    {
        if self.values.is_empty() {
            return None;
        }
        self.values.get(key)
    }

    /// The value of a key, to be changed; `None` exactly where it has none.
    pub fn get_mut(&mut self, key: &[u8]) -> Option<&mut V>
        ensures* writes_back { sem 𝓛 (lends_value V.row self.entry key.now result) }
        ensures value { option_copied_mut result ≡ map.get self.old key.now }
    {
        self.values.get_mut(key)
    }

    /// Whether a key has a value.
    pub fn contains(&self, key: &[u8]) -> bool
        ensures { result ≡ map.contains_key self.now key.now }
    {
        self.get(key).is_some()
    }

    /// Gives a key this value in place of any that it had. A key that has a value takes no memory.
    /// Where memory wants, nothing changes.
    pub fn insert(&mut self, key: &[u8], value: V) -> Result<(), NoMemory>
    where
        V: Drop,
        ensures ok { OnOk result (self.new ≡ map.insert self.old key.now value) }
        ensures err { OnErr result (self.new ≡ self.old) }
    {
        match self.get_mut(key) {
            Some(place) => {
                *place = value;
                Ok(())
            }
            None => self.put(key, value),
        }
    }

    /// Gives a key this value, and hands back the one that it had; `None` exactly where it had none.
    /// A key that has a value takes no memory. Where memory wants, nothing changes.
    pub fn replace(&mut self, key: &[u8], value: V) -> Result<Option<V>, NoMemory>
    where
        V: Drop,
        ensures ok { OnOk result (self.new ≡ map.insert self.old key.now value) }
        ensures before { IfOk result (λ before. before ≡ map.get self.old key.now) }
        ensures err { OnErr result (self.new ≡ self.old) }
    {
        match self.get_mut(key) {
            Some(place) => Ok(Some(mem::replace(place, value))),
            None => {
                self.put(key, value)?;
                Ok(None)
            }
        }
    }

    /// Gives a key this value in place of any that it had, with a copy of the key. Where memory wants,
    /// nothing changes.
    fn put(&mut self, key: &[u8], value: V) -> Result<(), NoMemory>
    where
        V: Drop,
        ensures ok { OnOk result (self.new ≡ map.insert self.old key.now value) }
        ensures err { OnErr result (self.new ≡ self.old) }
    {
        let key = Vec::from_slice(self.alloc, key)?;
        self.values.insert(key, value)?;
        Ok(())
    }

    /// Gives a key that has a value this one, or takes the key's value away where there is none to
    /// give. It takes no memory.
    pub fn put_back(&mut self, key: &[u8], value: Option<V>)
    where
        V: Drop,
        ensures { self.new ≡ given_back self.old key.now value }
    {
        match value {
            Some(value) => {
                if let Some(place) = self.get_mut(key) {
                    *place = value;
                }
            }
            None => self.remove(key),
        }
    }

    /// Takes a key's value away, where it has one.
    pub fn remove(&mut self, key: &[u8])
    where
        V: Drop,
        ensures { self.new ≡ map.remove self.old key.now }
    {
        self.values.remove(key);
    }
}
