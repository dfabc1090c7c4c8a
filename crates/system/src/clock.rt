//! The system's clock.

use outside::Clock;
use std::sync::Wait;
use std::thread;
use std::time::Duration;
use txt_core::{LAST_MOMENT, NoMemory};

/// How long a pause is, in milliseconds.
const PAUSE: u64 = 100;

/// The clock of the system. It tells nothing of what it shows next.
///
/// Where the system's clock can't be read it shows again what it showed last, at first 0.
#[derive(Drop)]
pub struct SystemClock<R> {
    rt: R,
    last: u64,
}

impl<R> SystemClock<R> {
    /// A clock that was not read yet.
    pub fn new(rt: R) -> SystemClock<R> {
        SystemClock { rt, last: 0 }
    }
}

impl<T: std::rt::Clock + Copy> Clock for SystemClock<T> {
    ghost use Rattle.std.specs.Prelude.{None};

    ghost held = { λ c. None };

    fn moment(&mut self) -> u64 {
        if let Ok(since) = self.rt.since_1970() {
            self.last = since.as_secs().min(LAST_MOMENT);
        }
        self.last
    }

    fn pause<R: Wait + std::rt::Clock>(&mut self, rt: &R) {
        thread::sleep(rt, Duration::from_millis(PAUSE));
    }

    fn copy(&self) -> Result<SystemClock<T>, NoMemory> {
        Ok(SystemClock {
            rt: self.rt,
            last: self.last,
        })
    }
}
