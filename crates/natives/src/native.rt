//! A command that looks at its words alone, as a stored function beside what it answers.

ghost use Rattle.std.specs.Prelude.{◌≡◌};
ghost use Rattle.natives.specs.Answers.{Answers, Answers-prop};
ghost use Rattle.natives.specs.Pure.{pure_of};
ghost use Rattle.natives.specs.Ranges.{range_of, InRange};

use crate::fault::Fault;
use std::alloc::Global;
use txt_core::{RUN_BUDGET, Text, Words};

/// How many words a command takes that has no limit of its own: its name, and as many as a run may spend.
pub const UNLIMITED: u32 = RUN_BUDGET as u32 + 1;

/// A command's function: its words, the command's name first, to its result.
pub type Call = fn(Global, &Words) -> Result<Text, Fault>;

/// A command of a name. It keeps the fact that its function answers what the table of commands has
/// for this name, on each list of words in the name's range.
#[derive(Drop)]
pub struct Native {
    name: Text,
    least: u32,
    most: u32,
    call: Call,
    ghost least_is: { least ≡ (range_of name).least },
    ghost most_is: { most ≡ (range_of name).most },
    ghost answers: { (alloc : _) (words : _) → InRange name words.now
        → Call.pre call alloc words
        × ((result : _) → Call.post call alloc words result
        → Answers (pure_of name words.now) result) } by { Prim.hlevel Answers-prop },
}

impl Native {
    /// The command of this name, which takes `least` to `most` words, its name among them.
    pub fn new(name: Text, least: u32, most: u32, call: Call) -> Native
        requires least { least ≡ (range_of name).least }
        requires most { most ≡ (range_of name).most }
        requires answers { (alloc : _) (words : _) → InRange name words.now
            → Call.pre call alloc words
            × ((result : _) → Call.post call alloc words result
            → Answers (pure_of name words.now) result) }
        ensures { result.name ≡ name }
    {
        Native {
            name,
            least,
            most,
            call,
        }
    }

    /// Its name.
    pub fn name(&self) -> &Text
        ensures { result.now ≡ self.now.name }
    {
        &self.name
    }

    /// The least number of words that it takes, its name among them.
    pub fn least(&self) -> u32
        ensures { result ≡ (range_of self.now.name).least }
    {
        self.least
    }

    /// The most words that it takes, its name among them.
    pub fn most(&self) -> u32
        ensures { result ≡ (range_of self.now.name).most }
    {
        self.most
    }

    /// Calls its function on words in its range: the result that the table of commands has for them.
    ///
    /// # Errors
    ///
    /// `Error` exactly where the table has an error, with its text; `NoMemory` for want of memory
    /// alone.
    pub fn call(&self, alloc: Global, words: &Words) -> Result<Text, Fault>
        requires { InRange self.now.name words.now }
        ensures { Answers (pure_of self.now.name words.now) result }
    {
        (self.call)(alloc, words)
    }
}
