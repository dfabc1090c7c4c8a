//! Why a command has no result.

ghost use Rattle.std.specs.Prelude.{◌≡◌, IfOk, MatchResult};
ghost use Rattle.txt_core.specs.Names.{Bytes};
ghost use Rattle.natives.specs.Answers.{Says};
ghost use Rattle.natives.specs.declared.fault.Fault.TheVariants as why;
ghost use Rattle.txt_core.specs.ErrorTexts.{wrong_words, unknown_subcommand, bad_value, no_integer, no_list, too_long, overflow};

use std::alloc::{AllocError, Global};
use txt_core::{NoMemory, Text, error_text};

/// Why a command has no result: one of the natives, or one of a host.
#[derive(Debug, Drop)]
pub enum Fault {
    /// An error, with its text.
    Error(Text),
    /// Memory ran out.
    NoMemory,
}

impl From<NoMemory> for Fault {
    ghost use Rattle.natives.specs.declared.fault.Fault.TheVariants.{NoMemory};

    ghost from_gives = { λ _ e. e ≡ NoMemory };

    fn from(_e: NoMemory) -> Fault {
        Fault::NoMemory
    }
}

impl From<AllocError> for Fault {
    ghost use Rattle.natives.specs.declared.fault.Fault.TheVariants.{NoMemory};

    ghost from_gives = { λ _ e. e ≡ NoMemory };

    fn from(_e: AllocError) -> Fault {
        Fault::NoMemory
    }
}

impl Fault {
    /// The error of this text, or want of memory where there is no text for want of it.
    pub fn saying(text: Result<Text, NoMemory>) -> Fault
        ensures gives { MatchResult text (λ t. result ≡ why.Error t) (λ _. result ≡ why.NoMemory) }
        ensures says { (said : Bytes) → IfOk text (λ t. t ≡ said) → Says said result }
    {
        match text {
            Ok(text) => Fault::Error(text),
            Err(NoMemory) => Fault::NoMemory,
        }
    }

    /// The error of too few or too many words for a command, or want of memory.
    pub fn wrong_words(alloc: Global, command: &str) -> Fault
        ensures { Says (wrong_words command.now) result }
    {
        Fault::saying(error_text::wrong_words(alloc, command.as_bytes()))
    }

    /// The error of a second word that is no subcommand of a command, or want of memory.
    pub fn unknown_subcommand(alloc: Global, word: &[u8], command: &str) -> Fault
        ensures { Says (unknown_subcommand word.now command.now) result }
    {
        Fault::saying(error_text::unknown_subcommand(alloc, word, command.as_bytes()))
    }

    /// The error of a word that a command can't take, or want of memory.
    pub fn bad_value(alloc: Global, word: &[u8], command: &str) -> Fault
        ensures { Says (bad_value word.now command.now) result }
    {
        Fault::saying(error_text::bad_value(alloc, word, command.as_bytes()))
    }

    /// The error of a word that must be a number and is none, or want of memory.
    pub fn no_integer(alloc: Global, word: &[u8]) -> Fault
        ensures { Says (no_integer word.now) result }
    {
        Fault::saying(error_text::no_integer(alloc, word))
    }

    /// The error of a word that must be a list and is bad at a place, or want of memory.
    pub fn no_list(alloc: Global, place: u64) -> Fault
        ensures { Says (no_list place) result }
    {
        Fault::saying(error_text::no_list(alloc, place))
    }

    /// The error of a value that is over the limit, or want of memory.
    pub fn too_long(alloc: Global) -> Fault
        ensures { Says too_long result }
    {
        Fault::saying(error_text::too_long(alloc))
    }

    /// The error of a sum that isn't a number of 64 bits with a sign, or want of memory.
    pub fn overflow(alloc: Global) -> Fault
        ensures { Says overflow result }
    {
        Fault::saying(error_text::overflow(alloc))
    }
}
