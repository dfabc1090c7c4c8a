//! Texts at a place of their own in memory.

use std::alloc::Global;
use std::marker::Model;
use txt_core::{NoMemory, Text};

/// A text at a place of its own in memory, so that what holds it is small and moved quickly. Contracts
/// see the text.
#[derive(Drop)]
pub struct BoxedText {
    text: Box<Text>,
}

impl Model for BoxedText {
    ghost use Rattle.std.specs.Coded.{coded_list, coded_ℕ};
    ghost use Rattle.txt_core.specs.Names.{Bytes};

    ghost Value = { Bytes };

    ghost coded = { coded_list coded_ℕ };

    ghost view = { λ a. a.text.value };
}

impl BoxedText {
    ghost use Rattle.std.specs.Prelude.{◌≡◌, IfOk};

    /// The text, which is moved there. Its only error is want of memory.
    pub fn new(alloc: Global, text: Text) -> Result<BoxedText, NoMemory>
        ensures { IfOk result (λ boxed. boxed ≡ text) }
    {
        let text = Box::new(alloc, text)?;
        Ok(BoxedText { text })
    }

    /// The text. It takes no memory.
    pub fn get(&self) -> &Text
        ensures { result.now ≡ self.now }
    {
        &self.text
    }

    /// The text, which is moved out. It takes no memory.
    pub fn into_text(self) -> Text
        ensures { result ≡ self }
    {
        let BoxedText { text } = self;
        Box::into_inner(text)
    }
}
