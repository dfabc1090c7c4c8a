//! A text under way that may come to be over the limit of a value.

ghost use Rattle.std.specs.Prelude.{[], Ok};
ghost use Rattle.txt_core.specs.Names.{Bytes};
ghost use Rattle.tcl_string.specs.Early.{Comes};
ghost use Rattle.tcl_string.specs.Keeping.{Keeps};

use natives::Fault;
use std::alloc::Global;
use txt_core::{Text, is_too_long};

/// What is kept of a text under way: never more bytes than a value may have.
#[derive(Debug, Drop)]
pub enum Output {
    /// All of it.
    Whole(Text),
    /// Only that it is over the limit of a value.
    TooLong,
}

impl Output {
    /// The empty text. It takes no memory.
    pub fn empty(alloc: Global) -> Output
        ensures { Keeps result [] }
    {
        Output::Whole(Text::empty(alloc))
    }

    /// What is kept of a text: all of it, but nothing of one over the limit.
    pub fn of(text: Text) -> Output
        ensures { Keeps result text }
    {
        if is_too_long(&text) {
            Output::TooLong
        } else {
            Output::Whole(text)
        }
    }

    /// The whole text, or the error `value too long`.
    pub fn into_text(self, alloc: Global) -> Result<Text, Fault>
        ensures { (text : Bytes) → Keeps self text → Comes (Ok text) result }
    {
        match self {
            Output::Whole(text) => Ok(text),
            Output::TooLong => Err(Fault::too_long(alloc)),
        }
    }
}
