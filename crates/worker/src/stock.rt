//! Lists that have room taken before.

ghost use Rattle.std.specs.Prelude.{◌≡◌, ◌≤◌, ◌<◌, ◌-◌, ◌++◌, ◌∷◌, ◌↔◌, [], length, slice_get, IsTrue, OnOk, IfErr};
ghost use Rattle.std.specs.Option.{option_copied};
ghost use Rattle.worker.specs.Lists.{listed, spare};

use std::alloc::Global;
use txt_core::NoMemory;

/// A list that grows at its end, and for which room can be taken before. Contracts see its items, and how
/// many more it surely takes.
#[derive(Debug, Drop)]
pub struct Stock<T> {
    items: Vec<T>,
}

impl<T> Stock<T> {
    /// No items. Nothing is allocated yet.
    pub fn new(alloc: Global) -> Self
        ensures { listed result ≡ [] }
    {
        Stock {
            items: Vec::new(alloc),
        }
    }

    /// How many items there are.
    pub fn len(&self) -> usize
        ensures { result ≡ length (listed self.now) }
    {
        self.items.len()
    }

    /// Whether there is no item.
    pub fn is_empty(&self) -> bool
        ensures { IsTrue result ↔ (listed self.now ≡ []) }
    {
        self.items.is_empty()
    }

    /// The item at a place, counted from 0; `None` exactly where the list ends before it.
    pub fn get(&self, at: usize) -> Option<&T>
        ensures { option_copied result ≡ slice_get (listed self.now) at }
    {
        self.items.get(at)
    }

    /// The items in order.
    pub fn as_slice(&self) -> &[T]
        ensures { result.now ≡ listed self.now }
    {
        self.items.as_slice()
    }

    /// Takes room for so many items more. Its only error is want of memory, and the list is then as it
    /// was.
    pub fn reserve(&mut self, more: usize) -> Result<(), NoMemory>
        ensures room { OnOk result (more ≤ spare self.new) }
        ensures same { listed self.new ≡ listed self.old }
    {
        self.items.reserve(more)?;
        Ok(())
    }

    /// Puts an item at the end. It is handed back only for want of memory, and the list is then as it
    /// was; never where there is room.
    pub fn push(&mut self, item: T) -> Result<(), T>
        ensures ok { OnOk result (listed self.new ≡ listed self.old ++ item ∷ []) }
        ensures kept { IfErr result (λ back.
            (back ≡ item) × (listed self.new ≡ listed self.old) × (spare self.old ≡ 0)) }
        ensures room { spare self.old - 1 ≤ spare self.new }
    {
        match self.items.push(item) {
            Ok(()) => Ok(()),
            Err(failed) => Err(failed.value),
        }
    }

    /// Puts an item at the end, for which there is room.
    pub fn push_reserved(&mut self, item: T)
        requires { 0 < spare self.old }
        ensures items { listed self.new ≡ listed self.old ++ item ∷ [] }
        ensures room { spare self.old - 1 ≤ spare self.new }
    {
        self.items.push_reserved(item);
    }
}
