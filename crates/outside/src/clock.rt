//! What tells the time.

ghost use Rattle.std.specs.Prelude.{◌≡◌, Option, IfOk};
ghost use Rattle.outside.specs.Clocks.{Dial, Shows};

use std::sync::Wait;
use txt_core::NoMemory;

/// A clock.
pub trait Clock: Sized {
    /// What it holds, where it tells that.
    ghost held: { Self → Option Dial };

    /// The seconds since 1970. It never fails.
    fn moment(&mut self) -> u64
        ensures { Shows (held self.old) result (held self.new) };

    /// Lets a while pass. It may wait.
    fn pause<R: Wait + std::rt::Clock>(&mut self, rt: &R)
        ensures { held self.new ≡ held self.old };

    /// A clock that shows the same, for another thread. The only error is want of memory.
    fn copy(&self) -> Result<Self, NoMemory>
        ensures { IfOk result (λ copy. held copy ≡ held self.now) };
}
