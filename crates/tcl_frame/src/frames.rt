//! The variables of an interpreter.

ghost use Rattle.std.specs.Prelude.{◌≡◌, ◌≤◌, ◌<◌, ◌++◌, ◌≢◌, Some, IfOk, IfErr, IfSome, IfNone, OnOk, OnErr, length, false};
ghost use Rattle.std.specs.Borrow.{sem};
ghost use Rattle.std.specs.Option.{option_copied, option_copied_mut};
ghost use Rattle.std.specs.FinMap as map;
ghost use Rattle.txt_core.specs.Knowing.{Holds};
ghost use Rattle.tcl_frame.specs.Names.{named, is_element};
ghost use Rattle.tcl_frame.specs.Frames.{fresh, pushed, popped, links_name, table_of, found_in, has, is_array, elements_of, read_of, read_fault, write_fault, global_fault, remove_fault, array_fault, link_fault, written, globally_written, removed, pairs_written, linked, unlinked};
ghost use Rattle.tcl_frame.specs.Base.{IsAtBase, cleared, kept, unkept};
ghost use Rattle.tcl_frame.specs.Seen.{name_seen};
ghost use Rattle.tcl_frame.specs.Findings.{found_seen};
ghost use Rattle.tcl_frame.specs.Refusal.{IsRefusedFor};
ghost use Rattle.tcl_frame.specs.declared.variable.Variable.TheVariants.{Scalar};
ghost use Rattle.tcl_frame.specs.Meaning.{Value};
ghost use Rattle.tcl_frame.specs.Texts.{text_of_scalar};
ghost use Rattle.tcl_frame.specs.ScalarLending.{lends_written};
ghost use Rattle.tcl_frame.specs.NotLending.{IsPlainNotLent, IsNotLent};
ghost use Rattle.tcl_frame.specs.OwnLending.{own_variables, lends_own, lends_plain};

use crate::fault::VarFault;
use crate::found::Found;
use crate::frame::Frame;
use crate::globals::Globals;
use crate::name::{Name, is_closed};
use crate::table::Table;
use std::alloc::Global;
use std::marker::Model;
use txt_core::{Known, NoMemory, Pairs, Text};

/// The variables of an interpreter: the global ones, and above them a stack of frames. A name is
/// looked up in the topmost frame, and among the global variables where there is no frame above
/// these or where the topmost one links it.
///
/// A name that ends in `)` and holds `(` means an element of an array: the array's name stands
/// before the first `(`, the index between it and the last byte. Any other name means a variable,
/// which is a scalar or an array.
///
/// Some global scalars may be base scalars (`keep`): they are there with their base values whenever the
/// frames are cleared, whatever became of them meanwhile.
///
/// Contracts see a `Stack`: the global variables, the frames above them, the topmost first, and the
/// keeps that stand. What a call does is a function of it and of the name.
#[derive(Debug, Drop)]
pub struct Frames {
    alloc: Global,
    global: Globals,
    above: Vec<Frame>,
}

impl Model for Frames {
    ghost use Rattle.std.specs.Prelude.{reverse};
    ghost use Rattle.tcl_frame.specs.Stack.{Stack};
    ghost use Rattle.tcl_frame.specs.StackCode.{stack_code};

    ghost Value = { Stack };

    ghost coded = { stack_code };

    ghost view = { λ a. record { global = a.global.table; above = reverse a.above.items; keeps = a.global.keeps } };
}

impl Frames {
    /// The global frame alone, without variables and base scalars.
    pub fn new(alloc: Global) -> Result<Frames, NoMemory>
        ensures { IfOk result (λ frames. frames ≡ fresh) }
    {
        Ok(Frames {
            alloc,
            global: Globals::new(alloc),
            above: Vec::new(alloc),
        })
    }

    /// Puts a frame without variables on top. Where memory wants, there is none more.
    pub fn push(&mut self) -> Result<(), NoMemory>
        ensures ok { OnOk result (self.new ≡ pushed self.old) }
        ensures err { OnErr result (self.new ≡ self.old) }
    {
        self.above.push(Frame::new(self.alloc))?;
        Ok(())
    }

    /// Takes the topmost frame away, with its variables and links.
    pub fn pop(&mut self)
        requires { 0 < length self.old.above }
        ensures { self.new ≡ popped self.old }
    {
        self.above.pop();
    }

    /// Leaves one global frame with exactly the base scalars and their base values. It takes no memory
    /// and can't be refused. Its cost is that of dropping what is cleared away.
    pub fn clear(&mut self)
        ensures { self.new ≡ cleared self.old }
    {
        self.above.clear();
        self.global.clear();
    }

    /// Makes a scalar of this name and value a base scalar, in place of any base scalar of this name:
    /// from now on it is there whenever the frames are cleared. It is the global variable of this name
    /// at once. The condition is that only the global frame is there and holds exactly the base scalars
    /// with their base values, as after `clear`, and that the name hasn't an element's form
    /// (`is_element_name`). Where memory wants, nothing changes.
    pub fn keep(&mut self, name: Text, value: Text) -> Result<(), NoMemory>
        requires base { IsAtBase self.old }
        requires whole { is_element (named name) ≡ false }
        ensures ok { OnOk result (self.new ≡ kept self.old name value) }
        ensures err { OnErr result (self.new ≡ self.old) }
    {
        self.global.keep(name, value)
    }

    /// How many keeps stand. It takes no memory.
    pub fn kept(&self) -> u64
        ensures { result ≡ length self.now.keeps }
    {
        self.global.kept()
    }

    /// Takes all keeps but the first ones, so many, back, in the base scalars and the global variables
    /// alike: a name has the base value again that it had before, or none. It takes no memory and can't
    /// be refused. The condition is that of `keep` on the frames, and that there are so many keeps.
    pub fn unkeep(&mut self, kept: u64)
        requires base { IsAtBase self.old }
        requires within { kept ≤ length self.old.keeps }
        ensures { self.new ≡ unkept self.old kept }
    {
        self.global.unkeep(kept);
    }

    /// How many frames stand above the global one.
    pub fn depth(&self) -> usize
        ensures { result ≡ length self.now.above }
    {
        self.above.len()
    }

    /// The topmost frame's variables, where it has this variable's name for its own. `None` where the
    /// name means a global variable.
    fn own(&self, name: &[u8]) -> Option<&Table>
        ensures { option_copied result ≡ own_variables self.now.above name.now }
    {
        match self.above.last() {
            Some(frame) if !frame.links.contains(name) => Some(&frame.variables),
            _ => None,
        }
    }

    /// The same, to be changed.
    fn own_mut(&mut self, name: &[u8]) -> Option<&mut Table>
        ensures* writes_back { sem 𝓛 (lends_own self.entry name.now result) }
        ensures value { option_copied_mut result ≡ own_variables self.old.above name.now }
    {
        match self.above.last_mut() {
            Some(frame) if !frame.links.contains(name) => Some(&mut frame.variables),
            _ => None,
        }
    }

    /// Whether the topmost frame leaves a variable's name to the global variables.
    fn leaves(&self, name: &[u8]) -> bool
        ensures { result ≡ links_name self.now.above name.now }
    {
        self.own(name).is_none()
    }

    /// The text of the scalar of a variable's name; `None` exactly where there is no such scalar.
    fn scalar(&self, name: &[u8]) -> Option<&Text>
        ensures { option_copied result
            ≡ text_of_scalar (map.get (table_of self.now name.now) name.now) }
    {
        match self.own(name) {
            Some(variables) => variables.scalar(name),
            None => self.global.scalar(name),
        }
    }

    /// The text of the scalar of a variable's name, to be changed; `None` where there is no such
    /// scalar, and where it is a base scalar that was never changed.
    fn scalar_place(&mut self, name: &[u8]) -> Option<&mut Text>
        ensures* writes_back { sem 𝓛 (lends_plain self.entry name.now result) }
        ensures value { IfSome (option_copied_mut result) (λ text.
            map.get (table_of self.old name.now) name.now ≡ Some (Scalar text)) }
        ensures none { IfNone result (IsPlainNotLent self.old name.now) }
    {
        if self.leaves(name) {
            return self.global.scalar_mut(name);
        }
        match self.above.last_mut() {
            Some(frame) => frame.variables.scalar_mut(name),
            None => None,
        }
    }

    /// The value of a scalar, to be changed in its place, which is looked up once: what is left there
    /// is written to the name, as by `write`. `None` comes only where the name ends in `)`, as an
    /// element's does, where there is no scalar of it, and where it may mean a base scalar that wasn't
    /// changed since the frames were cleared.
    pub fn scalar_mut(&mut self, name: &Text) -> Option<&mut Text>
        ensures* writes_back { sem 𝓛 (lends_written self.entry name.now result) }
        ensures value { IfSome (option_copied_mut result) (λ value.
            found_in self.old (named name.now) ≡ Value value) }
        ensures same { IfSome (option_copied_mut result) (λ value.
            written self.old name.now value ≡ self.old) }
        ensures none { IfNone result (IsNotLent self.old name.now) }
    {
        let name = name.bytes();
        if is_closed(name) {
            return None;
        }
        self.scalar_place(name)
    }

    /// What a name finds.
    fn find(&self, name: &Name<'_>) -> Found<'_>
        ensures { found_seen result ≡ found_in self.now (name_seen name.now) }
    {
        match self.own(name.variable()) {
            Some(variables) => variables.find(name),
            None => self.global.find(name),
        }
    }

    /// The value of a scalar or an element, without a copy. `NoVariable` comes exactly where the
    /// variable, the array or the element is absent, `IsArray` where the name is an array's, and
    /// `NotArray` where an element's array is a scalar.
    pub fn value(&self, name: &Text) -> Result<&Text, VarFault>
        ensures value { IfOk result (λ value. value.now ≡ read_of self.now name.now) }
        ensures refused { IsRefusedFor (read_fault self.now name.now) result }
    {
        let bytes = name.bytes();
        if !is_closed(bytes) {
            if let Some(value) = self.scalar(bytes) {
                return Ok(value);
            }
        }
        self.value_of(name)
    }

    /// The value of a scalar or an element, by what the name finds.
    #[inline(never)]
    fn value_of(&self, name: &Text) -> Result<&Text, VarFault>
        ensures value { IfOk result (λ value. value.now ≡ read_of self.now name.now) }
        ensures refused { IsRefusedFor (read_fault self.now name.now) result }
    {
        match self.find(&Name::new(name.bytes())) {
            Found::Nothing => Err(VarFault::NoVariable),
            Found::Value(value) => Ok(value),
            Found::AnArray(_) => Err(VarFault::IsArray),
            Found::InScalar => Err(VarFault::NotArray),
        }
    }

    /// A copy of the value of a scalar or an element. `NoVariable` comes exactly where the
    /// variable, the array or the element is absent, `IsArray` where the name is an array's, and
    /// `NotArray` where an element's array is a scalar.
    pub fn read(&self, name: &Text) -> Result<Text, VarFault>
        ensures value { IfOk result (λ value. value ≡ read_of self.now name.now) }
        ensures refused { IsRefusedFor (read_fault self.now name.now) result }
    {
        let value = self.value(name)?;
        Ok(value.copy(self.alloc)?)
    }

    /// Whether the name is a scalar, an array or an element that is there.
    pub fn has(&self, name: &Text) -> bool
        ensures { result ≡ has self.now name.now }
    {
        self.find(&Name::new(name.bytes())).is_there()
    }

    /// Whether the name is an array's.
    pub fn is_array(&self, name: &Text) -> bool
        ensures { result ≡ is_array self.now name.now }
    {
        self.find(&Name::new(name.bytes())).is_array()
    }

    /// The indexes of an array with their values, in byte order of the indexes; none where the
    /// name is no array's.
    pub fn elements(&self, name: &Text) -> Result<Pairs, NoMemory>
        ensures { IfOk result (λ pairs. pairs ≡ map.entries (elements_of self.now name.now)) }
    {
        match self.find(&Name::new(name.bytes())) {
            Found::AnArray(elements) => elements.pairs(),
            _ => Ok(Pairs::new(self.alloc)),
        }
    }

    /// How many elements the array of this name has, 0 where the name is no array's. It takes no memory.
    pub fn count(&self, name: &Text) -> usize
        ensures { result ≡ length (map.entries (elements_of self.now name.now)) }
    {
        match self.find(&Name::new(name.bytes())) {
            Found::AnArray(elements) => elements.len(),
            _ => 0,
        }
    }

    /// Gives a scalar or an element this value; an absent variable or array is made. `IsArray`
    /// comes exactly where the name is an array's, `NotArray` where an element's array is a
    /// scalar. A refusal changes nothing.
    pub fn write(&mut self, name: &Text, value: Text) -> Result<(), VarFault>
        ensures ok { OnOk result (self.new ≡ written self.old name.now value) }
        ensures refused { IsRefusedFor (write_fault self.old name.now) result }
        ensures err { OnErr result (self.new ≡ self.old) }
        ensures depth { length self.new.above ≡ length self.old.above }
    {
        match self.scalar_mut(name) {
            Some(place) => {
                *place = value;
                Ok(())
            }
            None => self.write_found(name, value),
        }
    }

    /// Gives a scalar or an element this value, by what the name means.
    #[inline(never)]
    fn write_found(&mut self, name: &Text, value: Text) -> Result<(), VarFault>
        ensures ok { OnOk result (self.new ≡ written self.old name.now value) }
        ensures refused { IsRefusedFor (write_fault self.old name.now) result }
        ensures err { OnErr result (self.new ≡ self.old) }
        ensures depth { length self.new.above ≡ length self.old.above }
    {
        let name = Name::new(name.bytes());
        match self.own_mut(name.variable()) {
            Some(variables) => variables.write(&name, value),
            None => self.global.write(&name, value),
        }
    }

    /// Gives a global scalar or a global array's element this value, whatever the topmost frame has
    /// under this name; an absent variable or array is made. `IsArray` comes exactly where the name
    /// is a global array's, `NotArray` where an element's array is a global scalar. A refusal changes
    /// nothing.
    pub fn write_global(&mut self, name: &Text, value: Text) -> Result<(), VarFault>
        ensures ok { OnOk result (self.new ≡ globally_written self.old name.now value) }
        ensures refused { IsRefusedFor (global_fault self.old name.now) result }
        ensures err { OnErr result (self.new ≡ self.old) }
        ensures depth { length self.new.above ≡ length self.old.above }
    {
        let meant = Name::new(name.bytes());
        self.global.write(&meant, value)
    }

    /// Puts bytes behind the value of a scalar or an element, which is empty where the variable, the
    /// array or the element is absent, and gives the new value, with which the variable shares its
    /// bytes: a value that nothing else shares is written to in place. The condition is that what is
    /// known of the new value is true. `IsArray` comes exactly where the name is an array's,
    /// `NotArray` where an element's array is a scalar. A refusal, and want of memory, change
    /// nothing.
    pub fn append(&mut self, name: &Text, more: &[u8], known: Known) -> Result<Text, VarFault>
        requires { Holds known (read_of self.old name.now ++ more.now) }
        ensures value { IfOk result (λ value. value ≡ read_of self.old name.now ++ more.now) }
        ensures ok { OnOk result
            (self.new ≡ written self.old name.now (read_of self.old name.now ++ more.now)) }
        ensures refused { IsRefusedFor (write_fault self.old name.now) result }
        ensures err { OnErr result (self.new ≡ self.old) }
        ensures depth { length self.new.above ≡ length self.old.above }
    {
        let name = Name::new(name.bytes());
        match self.own_mut(name.variable()) {
            Some(variables) => variables.append(&name, more, known),
            None => self.global.append(&name, more, known),
        }
    }

    /// Takes a scalar, an array or an element away; an array stays when its last element goes.
    /// `NoVariable` comes exactly where the variable, the array or the element is absent,
    /// `NotArray` where an element's array is a scalar. A refusal changes nothing. It takes no memory,
    /// so that `NoMemory` never comes.
    pub fn remove(&mut self, name: &Text) -> Result<(), VarFault>
        ensures ok { OnOk result (self.new ≡ removed self.old name.now) }
        ensures refused { IsRefusedFor (remove_fault self.old name.now) result }
        ensures err { OnErr result (self.new ≡ self.old) }
        ensures memory { IfErr result (λ fault. fault ≢ VarFault.NoMemory) }
        ensures depth { length self.new.above ≡ length self.old.above }
    {
        let name = Name::new(name.bytes());
        match self.own_mut(name.variable()) {
            Some(variables) => variables.take_away(&name),
            None => self.global.take_away(&name),
        }
    }

    /// Gives each index of a list the value behind it, in the array of this name, which is made where
    /// it is absent, also by an empty list. Of an index that comes twice the last value stands; an
    /// index without a value, at the end, is left out. `NotArray` comes exactly where the name is a
    /// scalar or has an element's form. A refusal, and want of memory, change nothing.
    pub fn write_array(&mut self, name: &Text, pairs: &[Text]) -> Result<(), VarFault>
        ensures ok { OnOk result (self.new ≡ pairs_written self.old name.now pairs.now) }
        ensures refused { IsRefusedFor (array_fault self.old name.now) result }
        ensures err { OnErr result (self.new ≡ self.old) }
        ensures depth { length self.new.above ≡ length self.old.above }
    {
        let name = Name::new(name.bytes());
        let Name::Whole(name) = name else {
            return Err(VarFault::NotArray);
        };
        match self.own_mut(name) {
            Some(variables) => variables.write_array(name, pairs),
            None => self.global.write_array(name, pairs),
        }
    }

    /// Whether the topmost frame leaves this name to the global variables: it links the name, or there
    /// is no frame above the global one. It takes no memory.
    pub fn is_linked(&self, name: &Text) -> bool
        ensures { result ≡ links_name self.now.above name.now }
    {
        self.leaves(name.bytes())
    }

    /// Makes the name mean the global variable of this name, in all calls while this frame is the
    /// topmost, also where that variable is removed and made again. In the global frame it does
    /// nothing. The condition is that the name hasn't an element's form (`is_element_name`).
    /// `Exists` comes exactly where the name is a variable of this frame that isn't a link. A
    /// refusal changes nothing.
    pub fn link(&mut self, name: &Text) -> Result<(), VarFault>
        requires { is_element (named name.now) ≡ false }
        ensures ok { OnOk result (self.new ≡ linked self.old name.now) }
        ensures refused { IsRefusedFor (link_fault self.old name.now) result }
        ensures err { OnErr result (self.new ≡ self.old) }
        ensures depth { length self.new.above ≡ length self.old.above }
    {
        let bytes = name.bytes();
        let Some(frame) = self.above.last_mut() else {
            return Ok(());
        };
        if frame.variables.contains(bytes) {
            return Err(VarFault::Exists);
        }
        frame.links.insert(bytes, ())?;
        Ok(())
    }

    /// Takes a link of the topmost frame away, where it links the name. In the global frame it does
    /// nothing. It takes no memory.
    pub fn unlink(&mut self, name: &Text)
        ensures change { self.new ≡ unlinked self.old name.now }
        ensures depth { length self.new.above ≡ length self.old.above }
    {
        let Some(frame) = self.above.last_mut() else {
            return;
        };
        frame.links.remove(name.bytes());
    }
}
