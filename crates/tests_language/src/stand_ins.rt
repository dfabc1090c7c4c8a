//! Natives that stand in for `list` and for `string`.

ghost use Rattle.std.specs.Prelude.{◌≡◌, ◌∷◌, ◌++◌, [], false, codes, OnOk};
ghost use Rattle.natives.specs.Answers.{Answers};
ghost use Rattle.natives.specs.Names.{name_of, names_of, has_name};
ghost use Rattle.natives.specs.Pure.{pure_of};
ghost use Rattle.natives.specs.Ranges.{InRange};

use crate::echo::word_at;
use natives::{Fault, Native, Natives};
use std::alloc::Global;
use txt_core::{NoMemory, Text, Words};

/// `list` of no word; it gives up on others.
pub fn list_none(alloc: Global, words: &Words) -> Result<Text, Fault>
    requires { InRange (codes "list") words.now }
    ensures { Answers (pure_of (codes "list") words.now) result }
{
    if words.len() != 1 {
        return Err(Fault::NoMemory);
    }
    Ok(Text::empty(alloc))
}

/// `string repeat` with a word too few; it gives up on others.
pub fn string_repeat(alloc: Global, words: &Words) -> Result<Text, Fault>
    requires { InRange (codes "string") words.now }
    ensures { Answers (pure_of (codes "string") words.now) result }
{
    if words.len() != 3 {
        return Err(Fault::NoMemory);
    }
    if word_at(words, 1) != b"repeat".as_slice() {
        return Err(Fault::NoMemory);
    }
    Err(Fault::wrong_words(alloc, "string"))
}

/// Adds a native.
pub fn add(natives: &mut Natives, native: Native) -> Result<(), NoMemory>
    requires { has_name (names_of natives.old) (name_of native) ≡ false }
    ensures { OnOk result (names_of natives.new ≡ names_of natives.old ++ name_of native ∷ []) }
{
    match natives.add(native) {
        Ok(()) => Ok(()),
        Err(_) => Err(NoMemory),
    }
}
