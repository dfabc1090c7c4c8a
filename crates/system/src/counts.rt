//! Counts of faults.

ghost use Rattle.std.specs.Prelude.{◌≡◌, ◌≤◌};
ghost use Rattle.outside.specs.Calls.{counted};
ghost use Rattle.outside.specs.Faults.{Rose};

/// A count of faults. It rises by one at each, and stands still at 2^64 - 1.
#[derive(Drop)]
pub(crate) struct Faults {
    pub(crate) count: u64,
}

impl Faults {
    /// No fault was met yet.
    pub(crate) fn none() -> Faults
        ensures { result.count ≡ 0 }
    {
        Faults { count: 0 }
    }

    /// Counts a fault.
    pub(crate) fn rise(&mut self)
        ensures kept { self.old.count ≤ self.new.count }
        ensures rose { Rose self.old.count self.new.count }
    {
        self.count = self.count.saturating_add(1);
    }
}
