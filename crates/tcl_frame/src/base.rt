//! The base scalars.

ghost use Rattle.std.specs.Prelude.{◌≡◌};
ghost use Rattle.std.specs.Option.{option_map};
ghost use Rattle.std.specs.FinMap as map;
ghost use Rattle.txt_core.specs.Names.{Bytes};
ghost use Rattle.tcl_frame.specs.Globals.{standing_again, with_aside};

use crate::dictionary::Dictionary;
use txt_core::Text;

/// A base scalar: its base value, and whether it is set aside, because the variable of its name was
/// changed or removed since the variables were cleared last.
#[derive(Debug, Drop)]
pub struct Base {
    pub value: Text,
    pub aside: bool,
}

/// The base scalars by name.
pub type Bases = Dictionary<Base>;

impl Bases {
    /// Sets the base scalar of this name aside, where there is one.
    pub fn set_aside(&mut self, name: &[u8])
        ensures { self.new ≡ with_aside self.old name.now }
    {
        if let Some(base) = self.get_mut(name) {
            base.aside = true;
        }
    }

    /// Sets no base scalar aside any more.
    pub fn stand_again(&mut self)
        ensures { (name : Bytes)
            → map.get self.new name ≡ option_map standing_again (map.get self.old name) }
    {
        self.values.retain(|_, base| {
            base.aside = false;
            true
        });
    }
}
