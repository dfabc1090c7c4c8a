//! How long a request, a reply or a connection may keep its worker where another connection waits.

use crate::waiting::Waiting;
use std::time::{Duration, Instant};

/// Seconds from the first byte of a request after which it gives way to a connection that waits.
const REQUEST_SECONDS: u64 = 30;

/// Seconds that a peer has for each mebibyte of a reply, after which it gives way to such a connection.
const REPLY_SECONDS: u64 = 30;

/// Seconds after which a connection ends behind a request that came in pieces, where such a connection waits.
const SESSION_SECONDS: u64 = 30;

/// Milliseconds that such a connection has waited at least. One that a free worker takes at once is none.
const WAITED: u64 = 100;

/// A moment at which others waited, and how many had begun to wait by then.
#[derive(Clone, Copy)]
struct Look {
    moment: Instant,
    entered: u64,
}

/// What keeps a worker: a request of which a part was received, a reply of which a part is left, or a
/// connection.
///
/// It may take as long as it likes while nobody waits. Where a connection waits for a worker, it has 30
/// seconds from when it began, so that peers which send or take a little now and then, as many as there
/// are workers, don't keep all others out.
#[derive(Drop)]
pub(crate) struct Turn {
    // After how many seconds it gives way.
    seconds: u64,
    // When it had begun; `None` where no moment was told since.
    begun: Option<Instant>,
    // The last look at which others waited.
    look: Option<Look>,
}

impl Turn {
    /// That of a request of which no moment is known.
    pub(crate) fn of_request() -> Turn {
        Turn::lasting(REQUEST_SECONDS)
    }

    /// That of a mebibyte of a reply, or of the rest of one, of which no moment is known.
    pub(crate) fn of_reply() -> Turn {
        Turn::lasting(REPLY_SECONDS)
    }

    /// That of a connection that a worker has not begun to serve.
    pub(crate) fn of_session() -> Turn {
        Turn::lasting(SESSION_SECONDS)
    }

    fn lasting(seconds: u64) -> Turn {
        Turn {
            seconds,
            begun: None,
            look: None,
        }
    }

    /// Whether it was told a moment since it began.
    pub(crate) fn is_begun(&self) -> bool {
        self.begun.is_some()
    }

    /// Whether it has to be told the moment: the first since it began, and each at which others wait.
    pub(crate) fn needs_moment(&self, waiting: &Waiting) -> bool {
        self.begun.is_none() || waiting.is_any()
    }

    /// Whether it has to give way at this moment: it began 30 seconds ago, and a connection waits that
    /// waited a tenth of a second ago.
    pub(crate) fn gives_way(&mut self, now: Instant, waiting: &Waiting) -> bool {
        let begun = *self.begun.get_or_insert(now);
        if now.duration_since(begun) < Duration::from_secs(self.seconds) {
            return false;
        }
        match self.look {
            Some(look) if waiting.is_one_of(look.entered) => {
                Duration::from_millis(WAITED) <= now.duration_since(look.moment)
            }
            _ => {
                self.look = Some(Look {
                    moment: now,
                    entered: waiting.entered(),
                });
                false
            }
        }
    }
}
