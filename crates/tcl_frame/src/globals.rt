//! The global variables, with the base scalars among them.

ghost use Rattle.std.specs.Prelude.{◌≡◌, ◌≢◌, ◌≤◌, ◌<◌, ◌+◌, ◌++◌, ◌∷◌, [], length, take, None, Some, IsSome, IfOk, IfErr, IfSome, IfNone, OnOk, OnErr, ◌⊎◌};
ghost use Rattle.std.specs.Borrow.{sem};
ghost use Rattle.std.specs.Option.{option_copied, option_copied_mut, option_map};
ghost use Rattle.std.specs.FinMap as map;
ghost use Rattle.txt_core.specs.Names.{Bytes};
ghost use Rattle.txt_core.specs.Knowing.{Holds};
ghost use Rattle.tcl_frame.specs.Names as names;
ghost use Rattle.tcl_frame.specs.Variables.{with_value, without, with_array};
ghost use Rattle.tcl_frame.specs.Appending.{longer, with_longer};
ghost use Rattle.tcl_frame.specs.Meaning.{found, no_write, no_removal, no_array};
ghost use Rattle.tcl_frame.specs.Seen.{name_seen};
ghost use Rattle.tcl_frame.specs.Findings.{found_seen};
ghost use Rattle.tcl_frame.specs.Refusal.{IsRefusedFor};
ghost use Rattle.tcl_frame.specs.Base.{base_of, as_variables};
ghost use Rattle.tcl_frame.specs.Texts.{text_of_scalar};
ghost use Rattle.tcl_frame.specs.GlobalLending.{lends_global};
ghost use Rattle.tcl_frame.specs.NotLending.{IsNoScalar, IsBase};
ghost use Rattle.tcl_frame.specs.Globals.{together, values_of, standing_value, standing_again, keeps_of, KnowBefore, base_fault};

use crate::base::{Base, Bases};
use crate::fault::VarFault;
use crate::found::Found;
use crate::keep::Keep;
use crate::name::Name;
use crate::table::Table;
use crate::variable::Variable;
use std::alloc::Global;
use std::marker::Model;
use txt_core::{Known, NoMemory, Text};

/// The global variables. The base scalars among them stand apart, so that they can be there again
/// without memory: before one is changed for the first time, its value is copied to the other
/// variables, and then it is set aside. A base value is shared text, of which a copy takes no new
/// bytes.
///
/// Contracts see the variables, and the keeps that stand.
#[derive(Debug, Drop)]
pub(crate) struct Globals {
    alloc: Global,
    base: Bases,
    own: Table,
    keeps: Vec<Keep>,
}

impl Model for Globals {
    ghost use Rattle.std.specs.Prelude.{◌≡◌};
    ghost use Rattle.std.specs.FinMap as map;
    ghost use Rattle.tcl_frame.specs.Base.{base_of};
    ghost use Rattle.tcl_frame.specs.Globals.{Globals, together, values_of, keeps_of, KnowBefore};
    ghost use Rattle.tcl_frame.specs.StackCode.{globals_code};

    ghost Value = { Globals };

    ghost coded = { globals_code };

    ghost view = { λ a. record { table = together a.base a.own; keeps = keeps_of a.keeps.items } };

    ghost invariant = { λ a. (values_of a.base ≡ base_of (keeps_of a.keeps.items))
        × KnowBefore map.empty a.keeps.items };
}

/// The value of a base scalar that isn't set aside.
fn base_value<'a>(base: &'a Bases, name: &[u8]) -> Option<&'a Text>
    ensures { option_copied result ≡ standing_value (map.get base.now name.now) }
{
    match base.get(name) {
        Some(base) if !base.aside => Some(&base.value),
        _ => None,
    }
}

/// Sets the base scalar of this name aside, where there is one that isn't: the variable stays what it
/// is. An element of it can't be meant, as it is no array.
fn set_aside(
    alloc: Global,
    base: &mut Bases,
    own: &mut Table,
    name: &Name<'_>,
) -> Result<(), VarFault>
    ensures same { together base.new own.new ≡ together base.old own.old }
    ensures values { values_of base.new ≡ values_of base.old }
    ensures aside { OnOk result
        (standing_value (map.get base.new (names.variable_name (name_seen name.now))) ≡ None) }
    ensures refused { IsRefusedFor
        (base_fault (standing_value (map.get base.old (names.variable_name (name_seen name.now))))
        (name_seen name.now))
        result }
    ensures stood { OnErr result
        (IsSome (standing_value (map.get base.old (names.variable_name (name_seen name.now))))) }
{
    let Some(value) = base_value(base, name.variable()) else {
        return Ok(());
    };
    let Name::Whole(name) = name else {
        return Err(VarFault::NotArray);
    };
    let value = value.copy(alloc)?;
    own.insert(name, Variable::Scalar(value))?;
    base.set_aside(name);
    Ok(())
}

/// Takes a base scalar that isn't set aside away from the variables. An element of it isn't there. It
/// takes no memory.
fn take_base(base: &mut Bases, own: &mut Table, name: &Name<'_>) -> Result<(), VarFault>
    requires { IsSome
        (standing_value (map.get base.old (names.variable_name (name_seen name.now)))) }
    ensures ok { OnOk result
        (together base.new own.new ≡ without (together base.old own.old) (name_seen name.now)) }
    ensures values { values_of base.new ≡ values_of base.old }
    ensures refused { IsRefusedFor
        (no_removal (found (together base.old own.old) (name_seen name.now))) result }
    ensures err { OnErr result (together base.new own.new ≡ together base.old own.old) }
    ensures memory { IfErr result (λ fault. fault ≢ VarFault.NoMemory) }
{
    match name {
        Name::Whole(name) => {
            own.remove(name);
            base.set_aside(name);
            Ok(())
        }
        Name::Element(_, _) => Err(VarFault::NotArray),
    }
}

/// Lets all variables go but the base scalars, which have their base values again. It takes no memory.
fn clear(base: &mut Bases, own: &mut Table)
    ensures table { together base.new own.new ≡ as_variables (values_of base.old) }
    ensures values { values_of base.new ≡ values_of base.old }
    ensures own { own.new ≡ map.empty }
    ensures stands { (name : Bytes)
        → map.get base.new name ≡ option_map standing_again (map.get base.old name) }
{
    own.clear();
    base.stand_again();
}

/// Takes the keeps behind the first ones, so many, back, the last one first.
fn take_back(base: &mut Bases, keeps: &mut Vec<Keep>, kept: u64)
    requires base { values_of base.old ≡ base_of (keeps_of keeps.old.items) }
    requires known { KnowBefore map.empty keeps.old.items }
    requires within { kept ≤ length keeps.old.items }
    ensures keeps { keeps_of keeps.new.items ≡ take kept (keeps_of keeps.old.items) }
    ensures base { values_of base.new ≡ base_of (keeps_of keeps.new.items) }
    ensures known { KnowBefore map.empty keeps.new.items }
{
    'keeps: while keeps.len() as u64 > kept {
        take_back_last(base, keeps);
    }
}

/// Takes the last keep back: its name has the base value again that it had before, or none.
fn take_back_last(base: &mut Bases, keeps: &mut Vec<Keep>)
    requires some { 0 < length keeps.old.items }
    requires base { values_of base.old ≡ base_of (keeps_of keeps.old.items) }
    requires known { KnowBefore map.empty keeps.old.items }
    ensures fewer { length keeps.new.items + 1 ≡ length keeps.old.items }
    ensures keeps { keeps_of keeps.new.items
        ≡ take (length keeps.new.items) (keeps_of keeps.old.items) }
    ensures base { values_of base.new ≡ base_of (keeps_of keeps.new.items) }
    ensures known { KnowBefore map.empty keeps.new.items }
{
    if let Some(keep) = keeps.pop() {
        let Keep { name, before, .. } = keep;
        base.put_back(name.bytes(), before);
    }
}

impl Globals {
    /// No variables and no base scalars.
    pub fn new(alloc: Global) -> Globals
        ensures table { result.table ≡ map.empty }
        ensures keeps { result.keeps ≡ [] }
    {
        let base = Bases::new(alloc);
        let own = Table::new(alloc);
        let keeps = Vec::new(alloc);
        Globals {
            alloc,
            base,
            own,
            keeps,
        }
    }

    /// What a name finds.
    pub fn find(&self, name: &Name<'_>) -> Found<'_>
        ensures { found_seen result ≡ found self.now.table (name_seen name.now) }
    {
        match base_value(&self.base, name.variable()) {
            None => self.own.find(name),
            Some(value) => match name {
                Name::Whole(_) => Found::Value(value),
                Name::Element(_, _) => Found::InScalar,
            },
        }
    }

    /// The text of the scalar of a name; `None` exactly where there is no such scalar.
    pub fn scalar(&self, name: &[u8]) -> Option<&Text>
        ensures { option_copied result ≡ text_of_scalar (map.get self.now.table name.now) }
    {
        match base_value(&self.base, name) {
            Some(value) => Some(value),
            None => self.own.scalar(name),
        }
    }

    /// The text of the scalar of a name, to be changed; `None` where there is no such scalar, and where
    /// it is a base scalar that isn't set aside.
    pub fn scalar_mut(&mut self, name: &[u8]) -> Option<&mut Text>
        ensures* writes_back { sem 𝓛 (lends_global self.entry name.now result) }
        ensures value { IfSome (option_copied_mut result) (λ text.
            map.get self.old.table name.now ≡ Some (Variable.Scalar text)) }
        ensures none { IfNone result
            (IsNoScalar self.old.table name.now ⊎ IsBase self.old.keeps name.now) }
    {
        match base_value(&self.base, name) {
            Some(_) => None,
            None => self.own.scalar_mut(name),
        }
    }

    /// Gives a scalar or an element this value. What is absent is made.
    pub fn write(&mut self, name: &Name<'_>, value: Text) -> Result<(), VarFault>
        ensures ok { OnOk result
            (self.new
            ≡ record self.old { table = with_value self.old.table (name_seen name.now) value }) }
        ensures refused { IsRefusedFor (no_write (found self.old.table (name_seen name.now)))
            result }
        ensures err { OnErr result (self.new ≡ self.old) }
    {
        set_aside(self.alloc, &mut self.base, &mut self.own, name)?;
        self.own.write(name, value)
    }

    /// Puts bytes behind the value of a scalar or an element, which is empty where it is absent, and
    /// gives the new value. What is absent is made.
    pub fn append(&mut self, name: &Name<'_>, more: &[u8], known: Known) -> Result<Text, VarFault>
        requires { Holds known (longer self.old.table (name_seen name.now) more.now) }
        ensures value { IfOk result (λ value.
            value ≡ longer self.old.table (name_seen name.now) more.now) }
        ensures ok { OnOk result
            (self.new
            ≡ record self.old
            { table = with_longer self.old.table (name_seen name.now) more.now }) }
        ensures refused { IsRefusedFor (no_write (found self.old.table (name_seen name.now)))
            result }
        ensures err { OnErr result (self.new ≡ self.old) }
    {
        set_aside(self.alloc, &mut self.base, &mut self.own, name)?;
        self.own.append(name, more, known)
    }

    /// Takes a variable or an element away. An array stays when its last element goes. It takes no
    /// memory.
    pub fn take_away(&mut self, name: &Name<'_>) -> Result<(), VarFault>
        ensures ok { OnOk result
            (self.new ≡ record self.old { table = without self.old.table (name_seen name.now) }) }
        ensures refused { IsRefusedFor (no_removal (found self.old.table (name_seen name.now)))
            result }
        ensures err { OnErr result (self.new ≡ self.old) }
        ensures memory { IfErr result (λ fault. fault ≢ VarFault.NoMemory) }
    {
        match base_value(&self.base, name.variable()) {
            None => self.own.take_away(name),
            Some(_) => take_base(&mut self.base, &mut self.own, name),
        }
    }

    /// Gives each index of a list the value behind it, in the array of this name, which is made where
    /// it is absent.
    pub fn write_array(&mut self, name: &[u8], pairs: &[Text]) -> Result<(), VarFault>
        ensures ok { OnOk result
            (self.new ≡ record self.old { table = with_array self.old.table name.now pairs.now }) }
        ensures refused { IsRefusedFor (no_array (found self.old.table (names.Whole name.now)))
            result }
        ensures err { OnErr result (self.new ≡ self.old) }
    {
        match base_value(&self.base, name) {
            None => self.own.write_array(name, pairs),
            Some(_) => Err(VarFault::NotArray),
        }
    }

    /// Leaves exactly the base scalars, with their base values. It takes no memory.
    pub fn clear(&mut self)
        ensures table { self.new.table ≡ as_variables (base_of self.old.keeps) }
        ensures keeps { self.new.keeps ≡ self.old.keeps }
    {
        clear(&mut self.base, &mut self.own);
    }

    /// How many keeps stand.
    pub fn kept(&self) -> u64
        ensures { result ≡ length self.now.keeps }
    {
        self.keeps.len() as u64
    }

    /// Makes a scalar of this name and value a base scalar, in place of any of this name. The
    /// condition is that the variables are exactly the base scalars with their base values.
    pub fn keep(&mut self, name: Text, value: Text) -> Result<(), NoMemory>
        requires { self.old.table ≡ as_variables (base_of self.old.keeps) }
        ensures table { OnOk result
            (self.new.table ≡ as_variables (base_of (self.old.keeps ++ (name, value) ∷ []))) }
        ensures keeps { OnOk result (self.new.keeps ≡ self.old.keeps ++ (name, value) ∷ []) }
        ensures err { OnErr result (self.new ≡ self.old) }
    {
        self.keeps.reserve(1)?;
        let mut value = value;
        let shared = value.share(self.alloc)?;
        let base = Base {
            value: shared,
            aside: false,
        };
        let before = self.base.replace(name.bytes(), base)?;
        self.keeps.push_reserved(Keep {
            name,
            value,
            before,
        });
        Ok(())
    }

    /// Takes all keeps but the first ones, so many, back, in the base scalars and the variables alike.
    /// It takes no memory. The condition is that the variables are exactly the base scalars with their
    /// base values, and that there are so many keeps.
    pub fn unkeep(&mut self, kept: u64)
        requires base { self.old.table ≡ as_variables (base_of self.old.keeps) }
        requires within { kept ≤ length self.old.keeps }
        ensures table { self.new.table ≡ as_variables (base_of (take kept self.old.keeps)) }
        ensures keeps { self.new.keeps ≡ take kept self.old.keeps }
    {
        take_back(&mut self.base, &mut self.keeps, kept);
        clear(&mut self.base, &mut self.own);
    }
}
