//! Words that several share.

ghost use Rattle.std.specs.Prelude.{◌≡◌, IfOk};

use std::alloc::Global;
use std::marker::Model;
use std::rc::Rc;
use txt_core::{NoMemory, Text, Words};

/// Words that others may share. Contracts see the list of the words.
#[derive(Debug, Drop)]
pub struct SharedWords {
    words: Rc<Words>,
}

impl Model for SharedWords {
    ghost use Rattle.std.specs.Coded.{coded_list, coded_ℕ};
    ghost use Rattle.txt_core.specs.Names.{Words};

    ghost Value = { Words };

    ghost coded = { coded_list (coded_list coded_ℕ) };

    ghost view = { λ a. a.words.value };
}

impl SharedWords {
    /// These words, which are not copied. Its only error is want of memory.
    pub fn new(alloc: Global, words: Words) -> Result<SharedWords, NoMemory>
        ensures { IfOk result (λ shared. shared ≡ words) }
    {
        let words = Rc::new(alloc, words)?;
        Ok(SharedWords { words })
    }

    /// The same words, shared. Its only error is want of memory.
    pub fn share(&self) -> Result<SharedWords, NoMemory>
        ensures { IfOk result (λ other. other ≡ self.now) }
    {
        let words = self.words.clone()?;
        Ok(SharedWords { words })
    }

    /// The words in order.
    pub fn as_slice(&self) -> &[Text]
        ensures { result.now ≡ self.now }
    {
        self.words.as_slice()
    }

    /// A list of these words that nothing shares. Its only error is want of memory.
    pub fn copy(&self, alloc: Global) -> Result<Words, NoMemory>
        ensures { IfOk result (λ copy. copy ≡ self.now) }
    {
        Words::of_copies(alloc, self.as_slice())
    }
}
