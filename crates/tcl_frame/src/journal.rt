//! Writes to an array that are undone where memory wants.

ghost use Rattle.std.specs.Prelude.{◌≡◌, OnOk, OnErr};
ghost use Rattle.txt_core.specs.Keyed.{with_pairs};

use crate::variable::Elements;
use std::alloc::Global;
use txt_core::{Keyed, NoMemory, Text, write_pairs};

impl Keyed for Elements {
    ghost texts = { λ a. a };

    fn exchange(
        &mut self,
        _alloc: Global,
        key: &Text,
        text: Text,
    ) -> Result<Option<Text>, NoMemory> {
        self.replace(key.bytes(), text)
    }

    fn give_back(&mut self, key: &Text, text: Option<Text>) {
        self.put_back(key.bytes(), text);
    }
}

impl Elements {
    /// Gives each index of a list the value behind it. An index without a value, at the end, is left
    /// out. Where memory wants, the array is as it was.
    pub fn write_pairs(&mut self, pairs: &[Text]) -> Result<(), NoMemory>
        ensures ok { OnOk result (self.new ≡ with_pairs self.old pairs.now) }
        ensures err { OnErr result (self.new ≡ self.old) }
    {
        write_pairs(self.alloc, self, pairs)
    }
}
