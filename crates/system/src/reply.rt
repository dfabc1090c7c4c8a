//! How much of a reply a peer takes in which time, where another connection waits.

use crate::turn::Turn;
use crate::waiting::Waiting;
use std::time::Instant;

/// Bytes of a reply for which a peer has 30 seconds, where another connection waits: a mebibyte.
const REPLY_BYTES: usize = 1_048_576;

/// The replies to the requests that came together.
///
/// One that its peer takes whole at once needs no clock. Of another one the time of the peer begins when a
/// round has moved a part of it or nothing, and begins anew behind each mebibyte, so that a large reply to
/// an honest slow peer isn't cut off. It goes on with the next replies, until one is taken at once.
#[derive(Drop)]
pub(crate) struct Reply {
    // The peer's time; `None` where it took the last reply at once.
    turn: Option<Turn>,
    // How many bytes the peer took in this time.
    taken: usize,
    // A part of a reply is left.
    is_held: bool,
}

impl Reply {
    /// Of these nothing was written yet.
    pub(crate) fn new() -> Reply {
        Reply {
            turn: None,
            taken: 0,
            is_held: false,
        }
    }

    /// Whether it has to be told the moment.
    pub(crate) fn needs_moment(&self, waiting: &Waiting) -> bool {
        match &self.turn {
            Some(turn) => self.is_held && turn.needs_moment(waiting),
            None => false,
        }
    }

    /// Whether it has to give way at this moment: the peer took less than a mebibyte in 30 seconds, and a
    /// connection waits that waited a tenth of a second ago.
    pub(crate) fn gives_way(&mut self, now: Instant, waiting: &Waiting) -> bool {
        match &mut self.turn {
            Some(turn) => turn.gives_way(now, waiting),
            None => false,
        }
    }

    /// A round is over in which the peer took nothing.
    pub(crate) fn note_pause(&mut self) {
        self.is_held = true;
        self.turn.get_or_insert(Turn::of_reply());
    }

    /// The peer took so many bytes of a rest of so many. All of them are the end of a reply.
    pub(crate) fn note_piece(&mut self, count: usize, rest: usize) {
        let is_whole = rest <= count;
        if is_whole && !self.is_held {
            *self = Reply::new();
            return;
        }
        self.is_held = !is_whole;
        self.taken = self.taken.saturating_add(count);
        if REPLY_BYTES <= self.taken {
            self.turn = Some(Turn::of_reply());
            self.taken = 0;
        } else {
            self.turn.get_or_insert(Turn::of_reply());
        }
    }
}
