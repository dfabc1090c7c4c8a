//! A list as a text, and copies of elements.

ghost use Rattle.std.specs.Prelude.{◌≡◌, ◌++◌, length, min, pos, ◌+ℤ◌, Ok};
ghost use Rattle.txt_core.specs.Quoting.{quoting};
ghost use Rattle.natives.specs.Answers.{Answers};
ghost use Rattle.natives.specs.Indexes.{cut, last_of};

use natives::{Fault, cut_place};
use std::alloc::Global;
use tcl_list::quote;
use txt_core::{NoMemory, Text, Words};

/// The text of a list. Its only error is want of memory.
pub fn text_of(alloc: Global, list: &Words) -> Result<Text, Fault>
    ensures { Answers (Ok (quoting list.now)) result }
{
    match quote(alloc, list) {
        Ok(text) => Ok(text),
        Err(NoMemory) => Err(Fault::NoMemory),
    }
}

/// The last place of a list: -1 where it is empty.
pub fn last_of(list: &Words) -> i64
    ensures { result ≡ last_of (length list.now) }
{
    list.as_slice().len() as i64 - 1
}

/// The place behind another, cut to the first one and to `most`.
pub fn cut_behind(place: i128, most: usize) -> usize
    ensures { result ≡ min (cut (place +ℤ pos 1)) most }
{
    if place < 0 {
        return 0;
    }
    let at = cut_place(place, most);
    if at < most { at + 1 } else { most }
}

/// The text of a list of three parts. Its only error is want of memory.
pub fn text_of_parts(
    alloc: Global,
    front: &[Text],
    middle: &[Text],
    back: &[Text],
) -> Result<Text, Fault>
    ensures { Answers (Ok (quoting (front.now ++ middle.now ++ back.now))) result }
{
    let mut list = Words::of_copies(alloc, front)?;
    list.append_copies(alloc, middle)?;
    list.append_copies(alloc, back)?;
    text_of(alloc, &list)
}
