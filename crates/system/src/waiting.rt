//! Which connections wait for a worker.

use std::alloc::{AllocError, Global};
use std::sync::Arc;
use std::sync::atomic::{AtomicU64, Ordering};

/// How many connections have begun to wait so far, and how many of them have left.
#[derive(Drop)]
struct Counts {
    entered: AtomicU64,
    left: AtomicU64,
}

/// The connections that were accepted and of which nothing was read yet.
///
/// It is a hint: those who wait for a silent or slow peer give up early where others wait for a worker.
#[derive(Drop)]
pub(crate) struct Waiting {
    counts: Arc<Counts, Global>,
}

impl Waiting {
    /// None waits.
    pub(crate) fn new(alloc: Global) -> Result<Waiting, AllocError> {
        let counts = Counts {
            entered: AtomicU64::new(0),
            left: AtomicU64::new(0),
        };
        Ok(Waiting {
            counts: Arc::new(alloc, counts)?,
        })
    }

    /// Another handle of the same connections.
    pub(crate) fn copy(&self) -> Result<Waiting, AllocError> {
        Ok(Waiting {
            counts: Arc::try_clone(&self.counts)?,
        })
    }

    /// Counts one more, for as long as the place is kept.
    pub(crate) fn enter(&self) -> Result<PlaceInLine, AllocError> {
        let counts = Arc::try_clone(&self.counts)?;
        counts.entered.fetch_add(1, Ordering::SeqCst);
        Ok(PlaceInLine { counts })
    }

    /// How many have begun to wait so far.
    pub(crate) fn entered(&self) -> u64 {
        self.counts.entered.load(Ordering::SeqCst)
    }

    /// Whether one waits.
    pub(crate) fn is_any(&self) -> bool {
        self.is_one_of(self.entered())
    }

    /// Whether one waits of those that had begun to wait when `entered` gave this number.
    pub(crate) fn is_one_of(&self, entered: u64) -> bool {
        self.counts.left.load(Ordering::SeqCst) < entered
    }
}

/// The place of one connection among those that wait. Dropping it leaves the line.
pub(crate) struct PlaceInLine {
    counts: Arc<Counts, Global>,
}

impl Drop for PlaceInLine {
    fn drop(self) {
        let PlaceInLine { counts } = self;
        counts.left.fetch_add(1, Ordering::SeqCst);
    }
}
