//! A clock in memory.

ghost use Rattle.std.specs.Prelude.{◌≡◌, ◌≤◌, Some, IfOk};

use crate::clock::Clock;
use std::marker::Model;
use std::sync::Wait;
use txt_core::{LAST_MOMENT, NoMemory};

/// A clock that goes on by its stride at each reading, and stops at the last moment. It tells what it
/// holds.
#[derive(Debug, Drop)]
pub struct MemClock {
    moment: u64,
    stride: u64,
}

impl Model for MemClock {
    ghost use Rattle.std.specs.Prelude.{◌≤◌};
    ghost use Rattle.txt_core.specs.Limits.{last_moment};
    ghost use Rattle.outside.specs.Clocks.{Dial};

    ghost Value = { Dial };

    ghost view = { λ a. record { moment = a.moment; stride = a.stride } };

    ghost invariant = { λ a. a.moment ≤ last_moment };
}

impl MemClock {
    /// A clock that shows this moment first, in seconds since 1970, and then so many seconds more each
    /// time.
    pub fn new(moment: u64, stride: u64) -> MemClock
        requires { moment ≤ LAST_MOMENT }
        ensures { result ≡ record { moment = moment; stride = stride } }
    {
        MemClock { moment, stride }
    }
}

impl Clock for MemClock {
    ghost held = { λ c. Some c };

    fn moment(&mut self) -> u64 {
        let moment = self.moment;
        self.moment = moment.saturating_add(self.stride).min(LAST_MOMENT);
        moment
    }

    fn pause<R: Wait + std::rt::Clock>(&mut self, _rt: &R) {}

    fn copy(&self) -> Result<MemClock, NoMemory> {
        Ok(MemClock {
            moment: self.moment,
            stride: self.stride,
        })
    }
}
