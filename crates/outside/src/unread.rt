//! A text as a source.

use crate::source::{ReadAnswer, Source};
use txt_core::Unread;

/// It gives what is left, and never fails.
impl Source for Unread {
    ghost use Rattle.std.specs.Prelude.{Some};

    ghost rest = { λ s. Some s };

    ghost faults = { λ s. 0 };

    fn read(&mut self, into: &mut [u8]) -> ReadAnswer {
        let most = into.len();
        ReadAnswer::Bytes(self.take_into(into, most))
    }
}
