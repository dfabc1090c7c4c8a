//! The commands that the engine does not know.

ghost use Rattle.std.specs.Prelude.{◌≡◌};
ghost use Rattle.tcl_host.specs.Answers.{Replies, RepliesTo, Ends};
ghost use Rattle.tcl_host.specs.Leaf.{LeafTable};

use adp_parse::Pieces;
use cmd_table::Def;
use outside::{Answer, Question};
use txt_core::{Text, Words};

/// What a host says of a command.
#[derive(Debug, Drop)]
pub enum HostReply {
    /// It is done, with this code and result: 0 is a good end, 1 an error, 2 a return, 3 a break, 4 a
    /// continue; 5, 6 and 7 leave a page.
    Done {
        code: u8,
        result: Text,
    },
    /// This question is asked first.
    Ask(Question),
    /// These pieces of a page are run; then the command is done.
    Enter(Pieces),
    /// It is this definition, which the engine lists as made.
    Define(Def),
    /// The engine writes this variable; then this is the result.
    Store {
        name: Text,
        value: Text,
        result: Text,
    },
    /// The host has no such command.
    NotMine,
    /// Memory ran out.
    NoMemory,
}

/// What does the commands that the engine does not know.
///
/// The state of a host is the value itself as contracts see it.
pub trait Host: Drop {
    /// What the host says of a command's words, of an answer to a question that these words asked, and
    /// of a page's texts and ends, and its state then.
    ghost table: { LeafTable Self };

    /// Does a command, by its words. No page is entered before a question is answered. Where memory
    /// wants, the host may be in any state.
    fn call(&mut self, words: &Words) -> HostReply
        ensures { Replies result self.new (table.calls words.now self.old) };

    /// Goes on with a command that asked a question, with its answer. After `Enter` the page is open.
    /// Where memory wants, the host may be in any state.
    fn answered(&mut self, words: &Words, answer: &Answer) -> HostReply
        ensures { RepliesTo result self.new (table.answers words.now answer.now self.old) };

    /// Takes a text of the innermost open page. The reply is `Done`, as where the text is sent or can't
    /// be, or `NoMemory`; after that the host may be in any state.
    fn text(&mut self, piece: &Text) -> HostReply
        ensures { Ends result self.new (table.texts piece.now self.old) };

    /// Takes the code with which a piece of the innermost open page ended, where that isn't 0, or 0
    /// where the page has no further piece and is still open.
    fn leave(&mut self, code: u8)
        ensures { self.new ≡ table.leaves code self.old };

    /// Takes back all that runs left with the host. It takes no memory.
    fn clear(&mut self)
        ensures { self.new ≡ table.clears self.old };
}
