//! One array: values by key.

ghost use Rattle.std.specs.Prelude.{◌≡◌, ◌++◌, IfOk, OnOk, OnErr};
ghost use Rattle.std.specs.FinMap as map;
ghost use Rattle.std.specs.Option.{option_copied};
ghost use Rattle.txt_core.specs.Knowing.{Holds};
ghost use Rattle.nsv_bucket.specs.Arrays.{text_at};
ghost use Rattle.nsv_bucket.specs.Listings.{names_in, pairs_in};
ghost use Rattle.txt_core.specs.Keyed.{given_back};

use crate::listing::{names, pairs};
use std::alloc::Global;
use std::collections::BTreeMap;
use std::marker::Model;
use txt_core::{Known, NoMemory, Text, Words};

/// The values of one array by key. Contracts see the finite map.
#[derive(Drop)]
pub struct NsvArray {
    values: BTreeMap<Text, Text>,
}

impl Model for NsvArray {
    ghost use Rattle.std.specs.FinMap as map;
    ghost use Rattle.std.specs.Coded.{coded_list, coded_ℕ};
    ghost use Rattle.nsv_bucket.specs.Arrays.{Array};

    ghost Value = { Array };

    ghost coded = { map.code (coded_list coded_ℕ) (coded_list coded_ℕ) };

    ghost view = { λ a. map.from_entries a.values.entries };
}

/// The text of these bytes twice, which share them. The condition is that what is known of it is
/// true.
pub(crate) fn twice(alloc: Global, bytes: &[u8], known: Known) -> Result<(Text, Text), NoMemory>
    requires { Holds known bytes.now }
    ensures { IfOk result (λ texts. (texts.0 ≡ bytes.now) × (texts.1 ≡ bytes.now)) }
{
    let mut first = Text::new(alloc, bytes)?.knowing(known);
    let second = first.share(alloc)?;
    Ok((first, second))
}

impl NsvArray {
    /// An array that holds no key.
    pub fn new(alloc: Global) -> NsvArray
        ensures { result ≡ map.empty }
    {
        NsvArray {
            values: BTreeMap::new(alloc),
        }
    }

    /// An array that holds this key alone. Its only error is want of memory.
    pub fn of_one(alloc: Global, key: &Text, value: Text) -> Result<NsvArray, NoMemory>
        ensures { IfOk result (λ array. array ≡ map.insert map.empty key.now value) }
    {
        let mut array = NsvArray::new(alloc);
        array.put(alloc, key, value)?;
        Ok(array)
    }

    /// How many keys there are.
    pub fn len(&self) -> usize
        ensures { result ≡ map.len self.now }
    {
        self.values.len()
    }

    /// The value of a key; `None` exactly where the key is absent.
    pub fn get(&self, key: &Text) -> Option<&Text>
        ensures { option_copied result ≡ map.get self.now key.now }
    {
        self.values.get(key)
    }

    /// Puts a value at a key, in place of the one that stood there. Its only error is want of
    /// memory, and the array is then as it was.
    pub fn put(&mut self, alloc: Global, key: &Text, value: Text) -> Result<(), NoMemory>
        ensures ok { OnOk result (self.new ≡ map.insert self.old key.now value) }
        ensures err { OnErr result (self.new ≡ self.old) }
    {
        self.replace(alloc, key, value)?;
        Ok(())
    }

    /// The same, and hands back the value that stood there; `None` exactly where none did.
    pub fn replace(
        &mut self,
        alloc: Global,
        key: &Text,
        value: Text,
    ) -> Result<Option<Text>, NoMemory>
        ensures ok { OnOk result (self.new ≡ map.insert self.old key.now value) }
        ensures before { IfOk result (λ before. before ≡ map.get self.old key.now) }
        ensures err { OnErr result (self.new ≡ self.old) }
    {
        let key = key.copy(alloc)?;
        let before = self.values.insert(key, value)?;
        Ok(before)
    }

    /// Puts bytes behind the value of a key, or behind the empty text where the key is absent, and
    /// gives the new value, with which the one that stands shares its bytes. The condition is that what
    /// is known of it is true. Its only error is want of memory, and the array is then as it was.
    pub fn append(
        &mut self,
        alloc: Global,
        key: &Text,
        more: &[u8],
        known: Known,
    ) -> Result<Text, NoMemory>
        requires { Holds known (text_at self.old key.now ++ more.now) }
        ensures value { IfOk result (λ text. text ≡ text_at self.old key.now ++ more.now) }
        ensures ok { OnOk result
            (self.new ≡ map.insert self.old key.now (text_at self.old key.now ++ more.now)) }
        ensures err { OnErr result (self.new ≡ self.old) }
    {
        match self.values.get_mut(key) {
            Some(text) => text.append_sharing(alloc, more, known),
            None => {
                let (value, said) = twice(alloc, more, known)?;
                self.put(alloc, key, value)?;
                Ok(said)
            }
        }
    }

    /// Gives a key that stands this value, or takes the key out where there is none to give. It takes
    /// no memory.
    pub fn put_back(&mut self, key: &Text, value: Option<Text>)
        ensures { self.new ≡ given_back self.old key.now value }
    {
        match value {
            Some(value) => {
                if let Some(place) = self.values.get_mut(key) {
                    *place = value;
                }
            }
            None => self.remove(key),
        }
    }

    /// Takes a key out, where it stands.
    pub fn remove(&mut self, key: &Text)
        ensures { self.new ≡ map.remove self.old key.now }
    {
        self.values.remove(key);
    }

    /// The keys that the pattern matches, or all, in byte order.
    pub fn names(&self, alloc: Global, pattern: Option<&Text>) -> Result<Words, NoMemory>
        ensures { IfOk result (λ found.
            found ≡ names_in (option_copied pattern.entry) (map.entries self.now)) }
    {
        names(alloc, &self.values, pattern)
    }

    /// The keys that the pattern matches, or all, each followed by its value, in byte order.
    pub fn pairs(&self, alloc: Global, pattern: Option<&Text>) -> Result<Words, NoMemory>
        ensures { IfOk result (λ found.
            found ≡ pairs_in (option_copied pattern.entry) (map.entries self.now)) }
    {
        pairs(alloc, &self.values, pattern)
    }
}
