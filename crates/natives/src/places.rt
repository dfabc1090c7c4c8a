//! What was put most lately, at the places that names give.

ghost use Rattle.std.specs.Prelude.{◌≡◌, ◌≤◌, [], None, Some, OnErr, OnOk, length};
ghost use Rattle.std.specs.Option.{option_copied};
ghost use Rattle.natives.specs.Hints.{hint_place};
ghost use Rattle.natives.specs.Places.{item_at, HaveSameItems, IsSetAt};

use crate::hints::{HINTS, hint_place};
use std::alloc::Global;
use std::marker::Model;
use txt_core::NoMemory;

/// What was put most lately, one item at each place that names have among hints. Contracts see it as the
/// list of the places, each with its item or with none. There are no places before the first item.
#[derive(Debug, Drop)]
pub struct Places<T> {
    places: Vec<Option<T>>,
}

impl<T> Model for Places<T> {
    ghost use Rattle.std.specs.Prelude.{List, Option};

    ghost Value = { List (Option T) };

    ghost view = { λ a. a.places.items };
}

impl<T> Places<T> {
    /// No item. It takes no memory.
    pub fn new(alloc: Global) -> Self
        ensures { result ≡ [] }
    {
        Places {
            places: Vec::new(alloc),
        }
    }

    /// The item at the place of a name, which may be one of another name; `None` exactly where there is
    /// none.
    pub fn find(&self, name: &[u8]) -> Option<&T>
        ensures { option_copied result ≡ item_at self.now (hint_place name.now) }
    {
        let place = self.places.get(hint_place(name))?;
        place.as_ref()
    }

    /// Puts an item at the place of a name; the item that stood there is let go. Its only error is
    /// want of memory for the places, and the items are then as they were.
    pub fn put(&mut self, name: &[u8], item: T) -> Result<(), NoMemory>
    where
        T: Drop,
        ensures put { OnOk result (IsSetAt self.old (hint_place name.now) (Some item) self.new) }
        ensures kept { OnErr result (HaveSameItems self.old self.new) }
    {
        make_places(&mut self.places)?;
        self.places[hint_place(name)] = Some(item);
        Ok(())
    }

    /// Lets the item at the place of a name go, where there is one. It takes no memory.
    pub fn remove(&mut self, name: &[u8])
    where
        T: Drop,
        ensures { IsSetAt self.old (hint_place name.now) None self.new }
    {
        let place = hint_place(name);
        if place < self.places.len() {
            self.places[place] = None;
        }
    }

    /// Lets all items go. It takes no memory, and keeps no places.
    pub fn clear(&mut self)
    where
        T: Drop,
        ensures { self.new ≡ [] }
    {
        self.places.clear();
    }
}

/// Makes the places that aren't there. Its only error is want of memory.
fn make_places<T: Drop>(places: &mut Vec<Option<T>>) -> Result<(), NoMemory>
    ensures all { OnOk result (256 ≤ length places.new.items) }
    ensures same { HaveSameItems places.old.items places.new.items }
{
    'each: while places.len() < HINTS {
        places.push(None)?;
    }
    Ok(())
}
