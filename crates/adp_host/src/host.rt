//! The host of pages.

use crate::answering::{answer, dispatch};
use crate::leaving::page_left;
use crate::output::put_out;
use outside::Answer;
use std::alloc::Global;
use std::marker::Model;
use tcl_host::{HostReply, reply_of, reply_to_text};
use txt_core::{Sequence, Text, Words};

/// Does the commands of pages, and keeps what the pages put out, how many errors they met, and which
/// are open. Contracts see these three.
///
/// What pages put out has at most 8,388,608 bytes.
#[derive(Drop)]
pub struct AdpHost {
    pub(crate) alloc: Global,
    pub(crate) output: Text,
    pub(crate) errors: u64,
    pub(crate) pages: Sequence<Words>,
}

impl Model for AdpHost {
    ghost use Rattle.adp_host.specs.States.{PageState};

    ghost Value = { PageState };

    ghost view = { λ h. record { output = h.output; errors = h.errors; pages = h.pages } };
}

impl AdpHost {
    ghost use Rattle.std.specs.Prelude.{◌≡◌};
    ghost use Rattle.tcl_host.specs.Answers.{Replies, RepliesTo, Ends};
    ghost use Rattle.adp_host.specs.States.{no_page_yet, has_page, without_page, without_pages};
    ghost use Rattle.adp_host.specs.Output.{put_out};
    ghost use Rattle.adp_host.specs.Leaving.{left};
    ghost use Rattle.adp_host.specs.Leaf.{page_call, page_onward};

    /// The host at the beginning of a run: nothing was put out, no page met an error, and none is open.
    pub fn new(alloc: Global) -> AdpHost
        ensures { result ≡ no_page_yet }
    {
        AdpHost {
            alloc,
            output: Text::empty(alloc),
            errors: 0,
            pages: Sequence::new(alloc),
        }
    }

    /// Does a command, by its words. `NotMine` comes exactly where the first word is none of this host's
    /// commands. Where memory wants, the host may be in any state.
    pub fn call(&mut self, words: &Words) -> HostReply
        ensures { Replies result self.new (page_call words.now self.old) }
    {
        reply_of(dispatch(self, words))
    }

    /// Goes on with an `ns_adp_include` whose question was answered, also where no page is open, as the
    /// first page is entered. After `Enter` the page is open; its arguments are the words behind the
    /// first. `NotMine` comes exactly where the first word isn't `ns_adp_include`. Where memory wants,
    /// the host may be in any state.
    pub fn answered(&mut self, words: &Words, given: &Answer) -> HostReply
        ensures { RepliesTo result self.new (page_onward words.now given.now self.old) }
    {
        reply_of(answer(self, words, given))
    }

    /// Puts a text of a page at the end of the output: `Done` with code 0 and no result. Where the output
    /// would be longer than it may, it is `Done` with code 1 and `output too long`, and nothing is put
    /// there. Where memory wants, the host may be in any state.
    pub fn text(&mut self, piece: &Text) -> HostReply
        ensures { Ends result self.new (put_out piece.now self.old) }
    {
        let alloc = self.alloc;
        reply_to_text(alloc, put_out(self, piece.bytes()))
    }

    /// Takes the code with which a piece of the innermost open page ended, or 0 where the page has no
    /// further piece. Codes 1, 3 and 4 are errors: the count of errors rises by 1, unless it stands
    /// where counters stop, and the page stays open. Codes 0, 2, 5 and 6 close the page. Code 7 closes
    /// it and empties the output. Any other code changes nothing, and where no page is open none does.
    pub fn leave(&mut self, code: u8)
        ensures { self.new ≡ left code self.old }
    {
        if self.has_page() {
            page_left(self, code);
        }
    }

    /// Closes all open pages, as where a run ended in the midst of them. It takes no memory.
    pub fn leave_all(&mut self)
        ensures { self.new ≡ without_pages self.old }
    {
        self.pages.clear();
    }

    /// What the pages put out.
    pub fn output(&self) -> &Text
        ensures { result.now ≡ self.now.output }
    {
        &self.output
    }

    /// How many pieces of pages ended in an error.
    pub fn errors(&self) -> u64
        ensures { result ≡ self.now.errors }
    {
        self.errors
    }

    /// Takes back all that a run left: the host is as a new one. It takes no memory.
    pub fn clear(&mut self)
        ensures { self.new ≡ no_page_yet }
    {
        self.output.clear();
        self.errors = 0;
        self.pages.clear();
    }

    /// Whether a page is open.
    pub(crate) fn has_page(&self) -> bool
        ensures { result ≡ has_page self.now }
    {
        self.pages.len() > 0
    }

    /// Closes the innermost open page, where one is open.
    pub(crate) fn close_page(&mut self)
        ensures { self.new ≡ without_page self.old }
    {
        self.pages.truncate(self.pages.len().saturating_sub(1));
    }
}
