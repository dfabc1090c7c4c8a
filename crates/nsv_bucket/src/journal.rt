//! Pairs that are written to an array, and undone where memory wants.

ghost use Rattle.std.specs.Prelude.{◌≡◌, OnOk, OnErr};
ghost use Rattle.txt_core.specs.Keyed.{with_pairs};

use crate::array::NsvArray;
use std::alloc::Global;
use txt_core::{Keyed, NoMemory, Text, write_pairs};

impl Keyed for NsvArray {
    ghost texts = { λ a. a };

    fn exchange(
        &mut self,
        alloc: Global,
        key: &Text,
        text: Text,
    ) -> Result<Option<Text>, NoMemory> {
        self.replace(alloc, key, text)
    }

    fn give_back(&mut self, key: &Text, text: Option<Text>) {
        self.put_back(key, text);
    }
}

impl NsvArray {
    /// Writes keys and values, which take turns in `pairs`. A key without a value, at the end, is
    /// left out. Its only error is want of memory, and the array is then as it was.
    pub fn put_all(&mut self, alloc: Global, pairs: &[Text]) -> Result<(), NoMemory>
        ensures ok { OnOk result (self.new ≡ with_pairs self.old pairs.now) }
        ensures err { OnErr result (self.new ≡ self.old) }
    {
        write_pairs(alloc, self, pairs)
    }
}
