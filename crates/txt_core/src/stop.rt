//! Why reading a text stops.

ghost use Rattle.std.specs.Prelude.{◌≡◌};
ghost use Rattle.txt_core.specs.declared.stop.Stop.TheVariants as stop;

use crate::memory::NoMemory;
use std::alloc::{AllocError, AllocFailed};

/// Why reading a part of a grammar inside a text stops.
#[derive(Clone, Copy, Debug, PartialEq, Eq)]
pub enum Stop<F> {
    /// The text isn't one of the grammar, and this is what is wrong.
    Fault(F),
    /// Memory ran out.
    NoMemory,
}

impl<F> From<AllocError> for Stop<F> {
    ghost from_gives = { λ _ e. e ≡ stop.NoMemory };

    fn from(_e: AllocError) -> Stop<F> {
        Stop::NoMemory
    }
}

impl<T: Drop, F> From<AllocFailed<T>> for Stop<F> {
    ghost from_gives = { λ _ e. e ≡ stop.NoMemory };

    fn from(_e: AllocFailed<T>) -> Stop<F> {
        Stop::NoMemory
    }
}

impl<F> From<NoMemory> for Stop<F> {
    ghost from_gives = { λ _ e. e ≡ stop.NoMemory };

    fn from(_e: NoMemory) -> Stop<F> {
        Stop::NoMemory
    }
}
