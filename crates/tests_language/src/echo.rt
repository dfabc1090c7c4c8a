//! A host that the tests stand on.

ghost use Rattle.std.specs.Prelude.{◌≡◌, [], IfOk};
ghost use Rattle.adp_parse.specs.PiecesOf.{pieces_of};
ghost use Rattle.natives.specs.Words.{arg};
ghost use Rattle.tcl_host.specs.Answers.{Replies, RepliesTo, Ends};
ghost use Rattle.tcl_host.specs.Leaf.{says, wants, defines, stores, goes, enters};
ghost use Rattle.tests_language.specs.Echo.{sent, calls, answers};
ghost use Rattle.cmd_table.specs.declared.definition.Def.{Def};
ghost use Rattle.tcl_host.specs.Codes as code_of;

use adp_parse::pieces;
use cmd_table::Def;
use outside::{Answer, Question, Service};
use std::alloc::Global;
use tcl_eval::{Host, HostReply};
use txt_core::{NoMemory, Text, Words};

/// A host: `ask ..` asks, and its answer is its result; `page ..` asks for a page, which is entered;
/// `keep name value` writes a variable; `note script` is a definition; `ns_adp_append text` puts a text at
/// the end of the output, as the texts of pages do; and `ns_adp_return`, `ns_adp_break` and `ns_adp_abort`
/// leave a page. The codes that it is told stand behind a 1 as the digits of `told`.
#[derive(Drop)]
pub struct Echo {
    pub alloc: Global,
    pub output: Text,
    pub told: u64,
}

/// The word at a place; the empty text where there is none.
pub fn word_at(words: &Words, place: usize) -> &[u8]
    ensures { result.now ≡ arg words.now place }
{
    match words.get(place) {
        Some(word) => word.bytes(),
        None => &[],
    }
}

fn copy_word(alloc: Global, words: &Words, place: usize) -> Result<Text, NoMemory>
    ensures { IfOk result (λ word. word ≡ arg words.now place) }
{
    Text::new(alloc, word_at(words, place))
}

fn copy_words(alloc: Global, words: &Words) -> Result<Words, NoMemory>
    ensures { IfOk result (λ copy. copy ≡ words.now) }
{
    Words::of_copies(alloc, words.as_slice())
}

impl Echo {
    /// A host that was told nothing.
    pub fn new(alloc: Global) -> Echo {
        Echo {
            alloc,
            output: Text::empty(alloc),
            told: 1,
        }
    }

    fn ask(&self, service: Service, words: &Words) -> Result<HostReply, NoMemory>
        ensures call { IfOk result (λ reply.
            Replies reply self.now
            (wants (record { service = service; words = words.now }) self.now)) }
        ensures answer { IfOk result (λ reply.
            RepliesTo reply self.now
            (goes (wants (record { service = service; words = words.now }) self.now))) }
    {
        Ok(HostReply::Ask(Question {
            service,
            words: copy_words(self.alloc, words)?,
        }))
    }

    fn keep(&self, words: &Words) -> Result<HostReply, NoMemory>
        ensures { IfOk result (λ reply.
            Replies reply self.now
            (stores (arg words.now 1) (arg words.now 2) (arg words.now 2) self.now)) }
    {
        Ok(HostReply::Store {
            name: copy_word(self.alloc, words, 1)?,
            value: copy_word(self.alloc, words, 2)?,
            result: copy_word(self.alloc, words, 2)?,
        })
    }

    fn note(&self, words: &Words) -> Result<HostReply, NoMemory>
        ensures { IfOk result (λ reply.
            Replies reply self.now (defines (Def.Cleanup (arg words.now 1)) self.now)) }
    {
        Ok(HostReply::Define(Def::Cleanup {
            script: copy_word(self.alloc, words, 1)?,
        }))
    }

    fn say(&self, code: u8, text: &[u8]) -> Result<HostReply, NoMemory>
        ensures call { IfOk result (λ reply. Replies reply self.now (says code text.now self.now)) }
        ensures answer { IfOk result (λ reply.
            RepliesTo reply self.now (goes (says code text.now self.now))) }
    {
        Ok(HostReply::Done {
            code,
            result: Text::new(self.alloc, text)?,
        })
    }

    /// Puts a text at the end of the output.
    fn send(&mut self, text: &[u8]) -> Result<HostReply, NoMemory>
        ensures call { IfOk result (λ reply.
            Replies reply self.new (says code_of.ok [] (sent self.old text.now))) }
        ensures end { IfOk result (λ reply.
            Ends reply self.new (record { code = 0; result = []; host = sent self.old text.now })) }
    {
        match self.output.append(text) {
            Ok(()) => Ok(HostReply::Done {
                code: 0,
                result: Text::empty(self.alloc),
            }),
            Err(NoMemory) => Err(NoMemory),
        }
    }

    /// What the host says of a command. Its only error is want of memory.
    fn reply(&mut self, words: &Words) -> Result<HostReply, NoMemory>
        ensures { IfOk result (λ reply. Replies reply self.new (calls words.now self.old)) }
    {
        let name = word_at(words, 0);
        if name == b"ask".as_slice() {
            return self.ask(Service::Inner, words);
        }
        if name == b"page".as_slice() {
            return self.ask(Service::Page, words);
        }
        if name == b"keep".as_slice() {
            return self.keep(words);
        }
        if name == b"note".as_slice() {
            return self.note(words);
        }
        if name == b"ns_adp_append".as_slice() {
            return self.send(word_at(words, 1));
        }
        if name == b"ns_adp_return".as_slice() {
            return self.say(5, &[]);
        }
        if name == b"ns_adp_break".as_slice() {
            return self.say(6, &[]);
        }
        if name == b"ns_adp_abort".as_slice() {
            return self.say(7, &[]);
        }
        Ok(HostReply::NotMine)
    }

    /// A page that is entered.
    fn enter(&self, words: &Words, page: &Text) -> Result<HostReply, NoMemory>
        ensures { IfOk result (λ reply.
            RepliesTo reply self.now
            (enters (record { list = pieces_of page.now; args = words.now }) self.now)) }
    {
        let args = copy_words(self.alloc, words)?;
        Ok(HostReply::Enter(pieces(self.alloc, page, args)?))
    }

    /// What the host says of an answer. Its only error is want of memory.
    fn onward(&self, words: &Words, answer: &Answer) -> Result<HostReply, NoMemory>
        ensures { IfOk result (λ reply.
            RepliesTo reply self.now (answers words.now answer.now self.now)) }
    {
        match answer {
            Answer::Said(text) => self.say(0, text.bytes()),
            Answer::Failed(text) => self.say(1, text.bytes()),
            Answer::Page(page) => self.enter(words, page),
            Answer::NoPage => self.ask(Service::Inner, words),
            Answer::PageFault => Ok(HostReply::NotMine),
        }
    }
}

impl Host for Echo {
    ghost use Rattle.tests_language.specs.Echo.{echo};

    ghost table = { echo };

    fn call(&mut self, words: &Words) -> HostReply {
        self.reply(words).unwrap_or(HostReply::NoMemory)
    }

    fn answered(&mut self, words: &Words, answer: &Answer) -> HostReply {
        self.onward(words, answer).unwrap_or(HostReply::NoMemory)
    }

    fn text(&mut self, piece: &Text) -> HostReply {
        self.send(piece.bytes()).unwrap_or(HostReply::NoMemory)
    }

    fn leave(&mut self, code: u8) {
        self.told = self.told.wrapping_mul(10).wrapping_add(code as u64);
    }

    fn clear(&mut self) {
        self.output = Text::empty(self.alloc);
        self.told = 1;
    }
}
