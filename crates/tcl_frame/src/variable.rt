//! A variable.

ghost use Rattle.std.specs.Prelude.{◌≡◌, ◌++◌, Some, IfOk, OnOk, OnErr};
ghost use Rattle.std.specs.Borrow.{sem};
ghost use Rattle.std.specs.Option.{option_copied, option_copied_mut};
ghost use Rattle.std.specs.FinMap as map;
ghost use Rattle.txt_core.specs.Keyed.{with_pairs};
ghost use Rattle.txt_core.specs.Knowing.{Holds};
ghost use Rattle.tcl_frame.specs.Arrays.{without_index};
ghost use Rattle.tcl_frame.specs.Variables.{elements_in};
ghost use Rattle.tcl_frame.specs.Appending.{text_in, text_at, text_of};
ghost use Rattle.tcl_frame.specs.Meaning.{whole, element, no_write, no_array};
ghost use Rattle.tcl_frame.specs.Refusal.{IsRefusedFor};
ghost use Rattle.tcl_frame.specs.Texts.{text_of_scalar};
ghost use Rattle.tcl_frame.specs.TextLending.{lends_text};

use crate::dictionary::Dictionary;
use crate::fault::VarFault;
use std::alloc::Global;
use txt_core::{Known, NoMemory, Pairs, Text};

/// The texts of an array by index.
pub type Elements = Dictionary<Text>;

/// What a variable is.
#[derive(Debug, Drop)]
pub enum Variable {
    /// One text.
    Scalar(Text),
    /// Texts by index.
    Array(Elements),
}

impl Variable {
    /// The text of a scalar; `None` exactly where it is an array.
    pub fn text(&self) -> Option<&Text>
        ensures { option_copied result ≡ text_of_scalar (Some self.now) }
    {
        match self {
            Variable::Scalar(text) => Some(text),
            Variable::Array(_) => None,
        }
    }

    /// The text of a scalar, to be changed; `None` exactly where it is an array.
    pub fn text_mut(&mut self) -> Option<&mut Text>
        ensures* writes_back { sem 𝓛 (lends_text self.entry result) }
        ensures value { option_copied_mut result ≡ text_of_scalar (Some self.old) }
    {
        match self {
            Variable::Scalar(text) => Some(text),
            Variable::Array(_) => None,
        }
    }

    /// Gives a scalar this text. An array is refused.
    pub fn write(&mut self, value: Text) -> Result<(), VarFault>
        ensures ok { OnOk result (self.new ≡ Variable.Scalar value) }
        ensures refused { IsRefusedFor (no_write (whole (Some self.old))) result }
        ensures err { OnErr result (self.new ≡ self.old) }
    {
        match self {
            Variable::Scalar(text) => {
                *text = value;
                Ok(())
            }
            Variable::Array(_) => Err(VarFault::IsArray),
        }
    }

    /// Gives an element of an array this value. A scalar is refused.
    #[tactic(auto, using(crate::proofs::Tables::element_open))]
    pub fn write_element(&mut self, index: &[u8], value: Text) -> Result<(), VarFault>
        ensures ok { OnOk result
            (self.new
            ≡ Variable.Array (map.insert (elements_in (Some self.old)) index.now value)) }
        ensures refused { IsRefusedFor (no_write (element (Some self.old) index.now)) result }
        ensures err { OnErr result (self.new ≡ self.old) }
    {
        match self {
            Variable::Array(elements) => {
                elements.insert(index, value)?;
                Ok(())
            }
            Variable::Scalar(_) => Err(VarFault::NotArray),
        }
    }

    /// Gives each index of a list the value behind it. A scalar is refused.
    pub fn write_pairs(&mut self, pairs: &[Text]) -> Result<(), VarFault>
        ensures ok { OnOk result
            (self.new ≡ Variable.Array (with_pairs (elements_in (Some self.old)) pairs.now)) }
        ensures refused { IsRefusedFor (no_array (whole (Some self.old))) result }
        ensures err { OnErr result (self.new ≡ self.old) }
    {
        match self {
            Variable::Array(elements) => {
                elements.write_pairs(pairs)?;
                Ok(())
            }
            Variable::Scalar(_) => Err(VarFault::NotArray),
        }
    }

    /// Puts bytes behind a scalar's text, and gives the new text. An array is refused.
    pub fn append(&mut self, alloc: Global, more: &[u8], known: Known) -> Result<Text, VarFault>
        requires { Holds known (text_in self.old ++ more.now) }
        ensures value { IfOk result (λ text. text ≡ text_in self.old ++ more.now) }
        ensures ok { OnOk result (self.new ≡ Variable.Scalar (text_in self.old ++ more.now)) }
        ensures refused { IsRefusedFor (no_write (whole (Some self.old))) result }
        ensures err { OnErr result (self.new ≡ self.old) }
    {
        match self {
            Variable::Scalar(text) => {
                let same = text.append_sharing(alloc, more, known)?;
                Ok(same)
            }
            Variable::Array(_) => Err(VarFault::IsArray),
        }
    }

    /// Puts bytes behind an element's text, which is empty where it is absent, and gives the new
    /// text. A scalar is refused.
    #[tactic(auto, using(crate::proofs::Tables::element_open))]
    pub fn append_at(&mut self, index: &[u8], more: &[u8], known: Known) -> Result<Text, VarFault>
        requires { Holds known (text_at self.old index.now ++ more.now) }
        ensures value { IfOk result (λ text. text ≡ text_at self.old index.now ++ more.now) }
        ensures ok { OnOk result
            (self.new
            ≡ Variable.Array
            (map.insert
            (elements_in (Some self.old))
            index.now
            (text_at self.old index.now ++ more.now))) }

        ensures refused { IsRefusedFor (no_write (element (Some self.old) index.now)) result }
        ensures err { OnErr result (self.new ≡ self.old) }
    {
        match self {
            Variable::Array(elements) => {
                let same = elements.append(index, more, known)?;
                Ok(same)
            }
            Variable::Scalar(_) => Err(VarFault::NotArray),
        }
    }

    /// Takes an element out of an array. A scalar is left as it is.
    pub fn remove_element(&mut self, index: &[u8])
        ensures { self.new ≡ without_index self.old index.now }
    {
        if let Variable::Array(elements) = self {
            elements.remove(index);
        }
    }
}

impl Elements {
    /// Puts bytes behind the text at an index, which is empty where it is absent, and gives the new
    /// text. Where memory wants, nothing changes.
    pub fn append(&mut self, index: &[u8], more: &[u8], known: Known) -> Result<Text, NoMemory>
        requires { Holds known (text_of (map.get self.old index.now) ++ more.now) }
        ensures value { IfOk result (λ text.
            text ≡ text_of (map.get self.old index.now) ++ more.now) }
        ensures ok { OnOk result
            (self.new
            ≡ map.insert self.old index.now (text_of (map.get self.old index.now) ++ more.now)) }
        ensures err { OnErr result (self.new ≡ self.old) }
    {
        let alloc = self.alloc;
        match self.get_mut(index) {
            Some(text) => text.append_sharing(alloc, more, known),
            None => {
                let mut text = Text::new(alloc, more)?.knowing(known);
                let same = text.share(alloc)?;
                self.insert(index, text)?;
                Ok(same)
            }
        }
    }

    /// The indexes with copies of their texts, in byte order of the indexes.
    pub fn pairs(&self) -> Result<Pairs, NoMemory>
        ensures { IfOk result (λ pairs. pairs ≡ map.entries self.now) }
    {
        let mut pairs = Pairs::new(self.alloc);
        for (index, value) in &self.values {
            let index = Text::new(self.alloc, index)?;
            let value = value.copy(self.alloc)?;
            pairs.add((index, value))?;
        }
        Ok(pairs)
    }
}
