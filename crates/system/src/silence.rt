//! How long a peer may be silent, in rounds of a tenth of a second.

use std::sync::atomic::{AtomicBool, AtomicU32, Ordering};

/// Rounds of silence before a request after which its input ends: 10 seconds.
const SILENT_ROUNDS: u32 = 100;

/// Rounds of silence within a request after which it has stalled: 30 seconds.
const STALLED_ROUNDS: u32 = 300;

/// Rounds of silence before each piece of a request that are no pause: 1 second.
const ORDINARY_ROUNDS: u32 = 10;

/// Rounds of all pauses within one request after which it has stalled: 5 minutes.
const PAUSED_ROUNDS: u32 = 3_000;

/// The silence of a peer.
///
/// Pieces of a request that come within a second of each other are no pause, however many they are, so
/// that a slow peer is served. Of a longer silence what exceeds that second counts as a pause.
#[derive(Drop)]
pub(crate) struct Silence {
    // Nothing was received since the last write, so no request is taken to be under way.
    idle: AtomicBool,
    // All pauses within the request.
    pauses: AtomicU32,
}

impl Silence {
    /// That of a peer from which nothing was received yet.
    pub(crate) fn new() -> Silence {
        Silence {
            idle: AtomicBool::new(true),
            pauses: AtomicU32::new(0),
        }
    }

    /// Whether no request is taken to be under way.
    pub(crate) fn is_idle(&self) -> bool {
        self.idle.load(Ordering::SeqCst)
    }

    /// A write begins: the request is over.
    pub(crate) fn note_reply(&self) {
        self.pauses.store(0, Ordering::SeqCst);
        self.idle.store(true, Ordering::SeqCst);
    }

    /// A piece was received after so many silent rounds. Those before a request are no pause in it.
    pub(crate) fn note_piece(&self, rounds: u32) {
        if !self.idle.swap(false, Ordering::SeqCst) {
            self.pauses
                .store(self.pauses_with(rounds), Ordering::SeqCst);
        }
    }

    // All pauses within the request, with the one of so many silent rounds.
    fn pauses_with(&self, rounds: u32) -> u32 {
        let pause = rounds.saturating_sub(ORDINARY_ROUNDS);
        self.pauses.load(Ordering::SeqCst).saturating_add(pause)
    }

    /// Whether the input has ended with so many silent rounds: no request is under way, and either they
    /// are 10 seconds or others wait.
    pub(crate) fn ends_input(&self, rounds: u32, others_wait: bool) -> bool {
        self.is_idle() && (others_wait || SILENT_ROUNDS <= rounds)
    }

    /// Whether a request has stalled with so many silent rounds: they are 30 seconds, or all of its
    /// pauses are 5 minutes.
    pub(crate) fn is_stalled(&self, rounds: u32) -> bool {
        STALLED_ROUNDS <= rounds || PAUSED_ROUNDS <= self.pauses_with(rounds)
    }
}
