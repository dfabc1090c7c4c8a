//! What is kept of words under way.

ghost use Rattle.std.specs.Prelude.{◌≡◌, ◌++◌, ◌∷◌, [], IfOk, OnOk, length, nat_lt};
ghost use Rattle.tcl_eval.specs.Eval.{command_cost};
ghost use Rattle.tcl_eval.specs.Kept.{grown};
ghost use Rattle.tcl_eval.specs.declared.gather.SoFar.{SoFar};

use crate::cost::words_cost;
use std::alloc::Global;
use std::marker::Model;
use txt_core::{NoMemory, Text, Words, is_over_limit};

/// What is kept of a word, or of an index of an array, under way.
#[derive(Drop)]
pub enum SoFar {
    /// The value of its first pieces.
    Kept(Text),
    /// It is already too long. Its further pieces are evaluated for their effects and errors alone.
    TooLong,
}

impl SoFar {
    /// The same with the value of one more piece. Of a word that is too long with it only this is
    /// kept. Its only error is want of memory.
    pub fn with(self, piece: &[u8]) -> Result<SoFar, NoMemory>
        ensures { IfOk result (λ after. after ≡ grown self piece.now) }
    {
        match self {
            SoFar::Kept(text) => grown_word(text, piece),
            SoFar::TooLong => Ok(SoFar::TooLong),
        }
    }
}

/// A text with more bytes at its end.
fn joined_to(mut text: Text, more: &[u8]) -> Result<Text, NoMemory>
    ensures { IfOk result (λ whole. whole ≡ text ++ more.now) }
{
    text.append(more)?;
    Ok(text)
}

/// A word with the value of one more piece.
fn grown_word(text: Text, piece: &[u8]) -> Result<SoFar, NoMemory>
    ensures { IfOk result (λ after. after ≡ grown (SoFar.Kept text) piece.now) }
{
    if is_over_limit(text.len().saturating_add(piece.len())) {
        return Ok(SoFar::TooLong);
    }
    Ok(SoFar::Kept(joined_to(text, piece)?))
}

/// The values of a command's first words, with the number of their bytes. Contracts see the values.
#[derive(Drop)]
pub struct Gathered {
    words: Words,
    bytes: u64,
}

impl Model for Gathered {
    ghost use Rattle.std.specs.Prelude.{length, sum_by, ◌≡◌};
    ghost use Rattle.std.specs.Coded.{coded_list, coded_ℕ};
    ghost use Rattle.txt_core.specs.Names.{Words};

    ghost Value = { Words };

    ghost coded = { coded_list (coded_list coded_ℕ) };

    ghost view = { λ a. a.words };

    ghost invariant = { λ a. a.bytes ≡ sum_by length a.words };
}

impl Gathered {
    /// No values.
    pub fn new(alloc: Global) -> Gathered
        ensures { result ≡ [] }
    {
        Gathered {
            words: Words::new(alloc),
            bytes: 0,
        }
    }

    /// How many values there are.
    #[inline(always)]
    pub fn len(&self) -> usize
        ensures { result ≡ length self.now }
    {
        self.words.len()
    }

    /// Puts a value at the end. Its only error is want of memory.
    #[inline(always)]
    fn push(&mut self, word: Text) -> Result<(), NoMemory>
        ensures { OnOk result (self.new ≡ self.old ++ word ∷ []) }
    {
        let Some(bytes) = self.bytes.checked_add(word.len() as u64) else {
            return Err(NoMemory);
        };
        self.words.add(word)?;
        self.bytes = bytes;
        Ok(())
    }

    /// Puts the value of a command's next word at the end; whether a command of these words then costs more
    /// than is left of this budget. Its only error is want of memory.
    #[inline(always)]
    pub fn join(&mut self, word: Text, budget: u64) -> Result<bool, NoMemory>
        ensures words { OnOk result (self.new ≡ self.old ++ word ∷ []) }
        ensures over { IfOk result (λ costly. costly ≡ nat_lt budget (command_cost self.new)) }
    {
        self.push(word)?;
        Ok((budget as u128) < self.cost())
    }

    /// Lets all values go. It takes no memory, and keeps their room for the next ones.
    pub fn clear(&mut self)
        ensures { self.new ≡ [] }
    {
        self.words.clear();
        self.bytes = 0;
    }

    /// The values.
    pub fn words(&self) -> &Words
        ensures { result.now ≡ self.now }
    {
        &self.words
    }

    /// What a command of these words costs.
    #[inline(always)]
    pub fn cost(&self) -> u128
        ensures { result ≡ command_cost self.now }
    {
        words_cost(self.bytes as u128)
    }

    /// The values as the words of a command.
    pub fn into_words(self) -> Words
        ensures { result ≡ self }
    {
        self.words
    }
}
