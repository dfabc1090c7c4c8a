//! Natives by their names.

ghost use Rattle.std.specs.Prelude.{◌≡◌, ◌≢◌, ◌∷◌, ◌++◌, [], false, map, length, option_map, slice_get, slice_index, is_some, OnOk, IfErr, IfSome};
ghost use Rattle.std.specs.Option.{option_copied};
ghost use Rattle.natives.specs.Hints.{hint_place};
ghost use Rattle.natives.specs.Hinted.{AreHinted};

use crate::hints::{ANYWHERE, hint_place, next_hint};
use crate::native::Native;
use std::alloc::Global;
use txt_core::Text;

/// Natives, each of another name. Contracts see the list of their names.
///
/// The hints tell of each name at which place its native stands: 0 at the place of a name says that
/// there is none of it, and another number that it is the native in front of it or none.
#[derive(Drop)]
pub struct Natives {
    list: Vec<Native>,
    hints: [u8; 256],
    ghost hinted: { AreHinted hints (map (λ native. native.name) list.items) },
}

impl Natives {
    ghost use Rattle.natives.specs.Names.{name_of, names_of, has_name};

    /// No natives. Nothing is allocated until the first is added.
    pub fn new(alloc: Global) -> Natives
        ensures { names_of result ≡ [] }
    {
        Natives {
            list: Vec::new(alloc),
            hints: [0; 256],
        }
    }

    /// Adds a native of a new name behind the others. It is handed back only for want of memory,
    /// and the natives are then as they were.
    pub fn add(&mut self, native: Native) -> Result<(), Native>
        requires { has_name (names_of self.old) (name_of native) ≡ false }
        ensures ok { OnOk result (names_of self.new ≡ names_of self.old ++ name_of native ∷ []) }
        ensures kept { IfErr result (λ back.
            (back ≡ native) × (names_of self.new ≡ names_of self.old)) }
    {
        let place = hint_place(native.name().bytes());
        let hint = next_hint(self.hints[place], self.list.len());
        match self.list.push(native) {
            Ok(()) => {
                self.hints[place] = hint;
                Ok(())
            }
            Err(failed) => Err(failed.value),
        }
    }

    /// The native of a name; `None` exactly where there is none. It takes no memory.
    pub fn find(&self, name: &Text) -> Option<&Native>
        ensures named { IfSome result (λ native. name_of native.now ≡ name.now) }
        ensures there { is_some result ≡ has_name (names_of self.now) name.now }
    {
        let hint = self.hints[hint_place(name.bytes())];
        if hint == ANYWHERE {
            self.search(name)
        } else {
            self.hinted(hint, name)
        }
    }

    /// The native of a name, by going over all.
    fn search(&self, name: &Text) -> Option<&Native>
        ensures named { IfSome result (λ native. name_of native.now ≡ name.now) }
        ensures there { is_some result ≡ has_name (names_of self.now) name.now }
    {
        for native in self.list.iter() {
            if native.name() == name {
                return Some(native);
            }
        }
        None
    }

    /// The native of a name, by its hint.
    fn hinted(&self, hint: u8, name: &Text) -> Option<&Native>
        requires hint { hint ≡ slice_index self.now.hints (hint_place name.now) }
        requires one { hint ≢ 255 }
        ensures named { IfSome result (λ native. name_of native.now ≡ name.now) }
        ensures there { is_some result ≡ has_name (names_of self.now) name.now }
    {
        let at = usize::from(hint).checked_sub(1)?;
        let native = self.list.get(at)?;
        if native.name() == name {
            return Some(native);
        }
        None
    }

    /// How many natives there are.
    pub fn len(&self) -> usize
        ensures { result ≡ length (names_of self.now) }
    {
        self.list.len()
    }

    /// The native at a place in the order in which they were added, counted from 0; `None` exactly
    /// where there are no more.
    pub fn get(&self, at: usize) -> Option<&Native>
        ensures { option_map name_of (option_copied result) ≡ slice_get (names_of self.now) at }
    {
        self.list.get(at)
    }
}
