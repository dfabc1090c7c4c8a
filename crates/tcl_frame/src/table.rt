//! Variables by name, without frames.

ghost use Rattle.std.specs.Prelude.{◌≡◌, ◌≢◌, None, IfOk, IfErr, OnOk, OnErr};
ghost use Rattle.std.specs.Borrow.{sem};
ghost use Rattle.std.specs.Option.{option_copied, option_copied_mut};
ghost use Rattle.std.specs.FinMap as map;
ghost use Rattle.txt_core.specs.Knowing.{Holds};
ghost use Rattle.tcl_frame.specs.Variables.{with_value, without, with_array};
ghost use Rattle.tcl_frame.specs.Appending.{longer, with_longer};
ghost use Rattle.tcl_frame.specs.Names as names;
ghost use Rattle.tcl_frame.specs.Meaning.{found, no_write, no_removal, no_array};
ghost use Rattle.tcl_frame.specs.Seen.{name_seen};
ghost use Rattle.tcl_frame.specs.Findings.{found_seen};
ghost use Rattle.tcl_frame.specs.Refusal.{IsRefusedFor};
ghost use Rattle.tcl_frame.specs.Texts.{text_of_scalar};
ghost use Rattle.tcl_frame.specs.TableLending.{lends_variable, lends_scalar};

use crate::dictionary::Dictionary;
use crate::fault::VarFault;
use crate::few::{Entry, find_entry, place_of};
use crate::found::Found;
use crate::name::Name;
use crate::variable::{Elements, Variable};
use std::alloc::Global;
use std::marker::Model;
use txt_core::{Known, NoMemory, Text};

/// How many variables stand in the list at most.
const MOST_FEW: usize = 8;

/// Variables by name. The first ones stand in a list, which is searched from its front; those that come
/// while it is full stand in a dictionary. Contracts see a finite map.
#[derive(Debug, Drop)]
pub struct Table {
    alloc: Global,
    few: Vec<Entry>,
    rest: Dictionary<Variable>,
}

impl Model for Table {
    ghost use Rattle.tcl_frame.specs.Variables.{Table};
    ghost use Rattle.tcl_frame.specs.Few.{in_front};
    ghost use Rattle.tcl_frame.specs.TableCode.{table_code};

    ghost Value = { Table };

    ghost coded = { table_code };

    ghost view = { λ a. in_front a.few.items a.rest };
}

impl Table {
    /// No variables. Nothing is allocated until the first is put.
    pub fn new(alloc: Global) -> Self
        ensures { result ≡ map.empty }
    {
        Table {
            alloc,
            few: Vec::new(alloc),
            rest: Dictionary::new(alloc),
        }
    }

    /// Takes all variables away. It takes no memory.
    pub fn clear(&mut self)
        ensures { self.new ≡ map.empty }
    {
        self.few.clear();
        self.rest.clear();
    }

    /// The variable of a name; `None` exactly where there is none.
    fn get(&self, name: &[u8]) -> Option<&Variable>
        ensures { option_copied result ≡ map.get self.now name.now }
    {
        match find_entry(&self.few, name) {
            Some(entry) => Some(&entry.variable),
            None => self.rest.get(name),
        }
    }

    /// The variable of a name, to be changed; `None` exactly where there is none.
    fn get_mut(&mut self, name: &[u8]) -> Option<&mut Variable>
        ensures* writes_back { sem 𝓛 (lends_variable self.entry name.now result) }
        ensures value { option_copied_mut result ≡ map.get self.old name.now }
    {
        match place_of(&self.few, name) {
            Some(place) => match self.few.get_mut(place) {
                Some(entry) => Some(&mut entry.variable),
                None => None,
            },
            None => self.rest.get_mut(name),
        }
    }

    /// The text of the scalar of a name; `None` exactly where there is no such scalar.
    pub fn scalar(&self, name: &[u8]) -> Option<&Text>
        ensures { option_copied result ≡ text_of_scalar (map.get self.now name.now) }
    {
        match self.get(name) {
            Some(variable) => variable.text(),
            None => None,
        }
    }

    /// The text of the scalar of a name, to be changed; `None` exactly where there is no such scalar.
    pub fn scalar_mut(&mut self, name: &[u8]) -> Option<&mut Text>
        ensures* writes_back { sem 𝓛 (lends_scalar self.entry name.now result) }
        ensures value { option_copied_mut result ≡ text_of_scalar (map.get self.old name.now) }
    {
        match self.get_mut(name) {
            Some(variable) => match variable.text_mut() {
                Some(text) => Some(text),
                None => None,
            },
            None => None,
        }
    }

    /// Whether there is a variable of a name.
    pub fn contains(&self, name: &[u8]) -> bool
        ensures { result ≡ map.contains_key self.now name.now }
    {
        self.get(name).is_some()
    }

    /// Makes this the variable of a name, in place of any that there was. Where memory wants, nothing
    /// changes.
    pub fn insert(&mut self, name: &[u8], variable: Variable) -> Result<(), NoMemory>
        ensures ok { OnOk result (self.new ≡ map.insert self.old name.now variable) }
        ensures err { OnErr result (self.new ≡ self.old) }
    {
        match self.get_mut(name) {
            Some(place) => {
                *place = variable;
                Ok(())
            }
            None => self.add(name, variable),
        }
    }

    /// Makes this the variable of a name that has none. Where memory wants, nothing changes.
    fn add(&mut self, name: &[u8], variable: Variable) -> Result<(), NoMemory>
        requires { map.get self.old name.now ≡ None }
        ensures ok { OnOk result (self.new ≡ map.insert self.old name.now variable) }
        ensures err { OnErr result (self.new ≡ self.old) }
    {
        if self.few.len() >= MOST_FEW {
            return self.rest.insert(name, variable);
        }
        let name = Text::new(self.alloc, name)?;
        self.few.push(Entry { name, variable })?;
        Ok(())
    }

    /// Takes the variable of a name away, where there is one. It takes no memory.
    pub fn remove(&mut self, name: &[u8])
        ensures { self.new ≡ map.remove self.old name.now }
    {
        self.few.retain(|entry| !entry.is_named(name));
        self.rest.remove(name);
    }

    /// What a name finds.
    pub fn find(&self, name: &Name<'_>) -> Found<'_>
        ensures { found_seen result ≡ found self.now (name_seen name.now) }
    {
        match name {
            Name::Whole(name) => self.find_whole(name),
            Name::Element(array, index) => self.find_element(array, index),
        }
    }

    /// What the name of a whole variable finds.
    fn find_whole(&self, name: &[u8]) -> Found<'_>
        ensures { found_seen result ≡ found self.now (names.Whole name.now) }
    {
        match self.get(name) {
            None => Found::Nothing,
            Some(Variable::Scalar(value)) => Found::Value(value),
            Some(Variable::Array(elements)) => Found::AnArray(elements),
        }
    }

    /// What an element's name finds.
    fn find_element(&self, array: &[u8], index: &[u8]) -> Found<'_>
        ensures { found_seen result ≡ found self.now (names.Element array.now index.now) }
    {
        match self.get(array) {
            None => Found::Nothing,
            Some(Variable::Scalar(_)) => Found::InScalar,
            Some(Variable::Array(elements)) => match elements.get(index) {
                Some(value) => Found::Value(value),
                None => Found::Nothing,
            },
        }
    }

    /// Gives a scalar or an element this value. An absent array is made.
    pub fn write(&mut self, name: &Name<'_>, value: Text) -> Result<(), VarFault>
        ensures ok { OnOk result (self.new ≡ with_value self.old (name_seen name.now) value) }
        ensures refused { IsRefusedFor (no_write (found self.old (name_seen name.now))) result }
        ensures err { OnErr result (self.new ≡ self.old) }
    {
        match name {
            Name::Whole(name) => self.write_whole(name, value),
            Name::Element(array, index) => self.write_element(array, index, value),
        }
    }

    /// Gives a scalar this value.
    fn write_whole(&mut self, name: &[u8], value: Text) -> Result<(), VarFault>
        ensures ok { OnOk result (self.new ≡ with_value self.old (names.Whole name.now) value) }
        ensures refused { IsRefusedFor (no_write (found self.old (names.Whole name.now))) result }
        ensures err { OnErr result (self.new ≡ self.old) }
    {
        match self.get_mut(name) {
            Some(variable) => variable.write(value),
            None => {
                self.add(name, Variable::Scalar(value))?;
                Ok(())
            }
        }
    }

    /// Gives an element this value, in an array that is made where the name has none.
    fn write_element(&mut self, array: &[u8], index: &[u8], value: Text) -> Result<(), VarFault>
        ensures ok { OnOk result
            (self.new ≡ with_value self.old (names.Element array.now index.now) value) }
        ensures refused { IsRefusedFor
            (no_write (found self.old (names.Element array.now index.now))) result }
        ensures err { OnErr result (self.new ≡ self.old) }
    {
        match self.get_mut(array) {
            Some(variable) => variable.write_element(index, value),
            None => {
                let mut elements = Elements::new(self.alloc);
                elements.insert(index, value)?;
                self.add(array, Variable::Array(elements))?;
                Ok(())
            }
        }
    }

    /// Puts bytes behind the value of a scalar or an element, which is empty where it is absent, and
    /// gives the new value. What is absent is made.
    pub fn append(&mut self, name: &Name<'_>, more: &[u8], known: Known) -> Result<Text, VarFault>
        requires { Holds known (longer self.old (name_seen name.now) more.now) }
        ensures value { IfOk result (λ value.
            value ≡ longer self.old (name_seen name.now) more.now) }
        ensures ok { OnOk result (self.new ≡ with_longer self.old (name_seen name.now) more.now) }
        ensures refused { IsRefusedFor (no_write (found self.old (name_seen name.now))) result }
        ensures err { OnErr result (self.new ≡ self.old) }
    {
        match name {
            Name::Whole(name) => self.append_whole(name, more, known),
            Name::Element(array, index) => self.append_element(array, index, more, known),
        }
    }

    /// Puts bytes behind a scalar's value. An absent scalar is made.
    fn append_whole(&mut self, name: &[u8], more: &[u8], known: Known) -> Result<Text, VarFault>
        requires { Holds known (longer self.old (names.Whole name.now) more.now) }
        ensures value { IfOk result (λ value.
            value ≡ longer self.old (names.Whole name.now) more.now) }
        ensures ok { OnOk result (self.new ≡ with_longer self.old (names.Whole name.now) more.now) }
        ensures refused { IsRefusedFor (no_write (found self.old (names.Whole name.now))) result }
        ensures err { OnErr result (self.new ≡ self.old) }
    {
        let alloc = self.alloc;
        match self.get_mut(name) {
            Some(variable) => variable.append(alloc, more, known),
            None => {
                let mut text = Text::new(alloc, more)?.knowing(known);
                let same = text.share(alloc)?;
                self.add(name, Variable::Scalar(text))?;
                Ok(same)
            }
        }
    }

    /// Puts bytes behind an element's value, in an array that is made where the name has none.
    fn append_element(
        &mut self,
        array: &[u8],
        index: &[u8],
        more: &[u8],
        known: Known,
    ) -> Result<Text, VarFault>
        requires { Holds known (longer self.old (names.Element array.now index.now) more.now) }
        ensures value { IfOk result (λ value.
            value ≡ longer self.old (names.Element array.now index.now) more.now) }
        ensures ok { OnOk result
            (self.new ≡ with_longer self.old (names.Element array.now index.now) more.now) }
        ensures refused { IsRefusedFor
            (no_write (found self.old (names.Element array.now index.now))) result }
        ensures err { OnErr result (self.new ≡ self.old) }
    {
        match self.get_mut(array) {
            Some(variable) => variable.append_at(index, more, known),
            None => {
                let mut elements = Elements::new(self.alloc);
                let value = elements.append(index, more, known)?;
                self.add(array, Variable::Array(elements))?;
                Ok(value)
            }
        }
    }

    /// Takes a variable or an element away. An array stays when its last element goes. It takes no
    /// memory.
    pub fn take_away(&mut self, name: &Name<'_>) -> Result<(), VarFault>
        ensures ok { OnOk result (self.new ≡ without self.old (name_seen name.now)) }
        ensures refused { IsRefusedFor (no_removal (found self.old (name_seen name.now))) result }
        ensures err { OnErr result (self.new ≡ self.old) }
        ensures memory { IfErr result (λ fault. fault ≢ VarFault.NoMemory) }
    {
        if let Some(fault) = self.find(name).no_removal() {
            return Err(fault);
        }
        match name {
            Name::Whole(name) => self.remove(name),
            Name::Element(array, index) => self.remove_element(array, index),
        }
        Ok(())
    }

    /// Takes an element out of an array.
    fn remove_element(&mut self, array: &[u8], index: &[u8])
        requires { no_removal (found self.old (names.Element array.now index.now)) ≡ None }
        ensures { self.new ≡ without self.old (names.Element array.now index.now) }
    {
        if let Some(variable) = self.get_mut(array) {
            variable.remove_element(index);
        }
    }

    /// Gives each index of a list the value behind it, in the array of this name. An array that stands
    /// is written to in place; an absent one is made apart.
    pub fn write_array(&mut self, name: &[u8], pairs: &[Text]) -> Result<(), VarFault>
        ensures ok { OnOk result (self.new ≡ with_array self.old name.now pairs.now) }
        ensures refused { IsRefusedFor (no_array (found self.old (names.Whole name.now))) result }
        ensures err { OnErr result (self.new ≡ self.old) }
    {
        match self.get_mut(name) {
            Some(variable) => variable.write_pairs(pairs),
            None => {
                let mut elements = Elements::new(self.alloc);
                elements.write_pairs(pairs)?;
                self.add(name, Variable::Array(elements))?;
                Ok(())
            }
        }
    }
}
