//! Words that are made of bytes and of scalar variables, for which nothing is run.

ghost use Rattle.std.specs.Prelude.{◌≡◌, ℕ, false, length, map, IfOk, IfSome, Some};
ghost use Rattle.txt_core.specs.Limits.{is_long};
ghost use Rattle.txt_core.specs.Names.{Names};
ghost use Rattle.tcl_parse.specs.Tree.{Words, parts, words};
ghost use Rattle.tcl_parse.specs.View.{part_of, word_of};
ghost use Rattle.tcl_host.specs.Codes as code_of;
ghost use Rattle.tcl_eval.specs.Eval.{ended, read_as, run_words, nested};
ghost use Rattle.tcl_eval.specs.AtOnce.{IsPassed, word_at_once};
ghost use Rattle.tcl_eval.specs.Brackets.{IsWordAt, LeavesAsSaid, passed_next};
ghost use Rattle.tcl_eval.specs.Places.{words_from};
ghost use Rattle.tcl_eval.specs.Straight.{Alike};

use crate::bracket::Passed;
use crate::engine::Engine;
use crate::gather::{Gathered, SoFar};
use crate::place::pieces_at;
use crate::stack::Ended;
use crate::value::{error, kept_value};
use std::alloc::Global;
use tcl_frame::{Frames, VarFault, variable_fault};
use tcl_host::{Host, OK};
use tcl_parse::{Piece, Word};
use txt_core::{NoMemory, Text, is_too_long};

/// The value of a variable, or the error of reading it.
pub fn variable_value(alloc: Global, frames: &Frames, name: &Text) -> Result<Ended, NoMemory>
    ensures { IfOk result (λ value. value ≡ read_as frames.now name.now) }
{
    match frames.read(name) {
        Ok(result) => Ok(Ended { code: OK, result }),
        Err(VarFault::NoMemory) => Err(NoMemory),
        Err(why) => error(alloc, variable_fault(alloc, why, name.bytes())?),
    }
}

/// This text, where it isn't too long for a word.
#[inline(always)]
fn within_limit(text: &Text) -> Option<&Text>
    ensures same { IfSome result (λ same. same.now ≡ text.now) }
    ensures short { IfSome result (λ same. is_long same.now ≡ false) }
{
    if is_too_long(text) {
        return None;
    }
    Some(text)
}

/// The value of a variable that is there, and isn't too long for a word, without a copy.
#[inline(always)]
fn ready_variable<'a>(frames: &'a Frames, name: &Text) -> Option<&'a Text>
    ensures value { IfSome result (λ text.
        read_as frames.now name.now ≡ ended code_of.ok text.now) }
    ensures short { IfSome result (λ text. is_long text.now ≡ false) }
{
    match frames.value(name) {
        Err(_) => None,
        Ok(text) => within_limit(text),
    }
}

/// The value of a word that is bytes alone, or a variable alone, which is there, without a copy. Of any
/// other word, and of one that is too long, this says nothing.
#[inline(always)]
#[tactic(auto, using(crate::proofs::Values::text_at_once, crate::proofs::Values::variable_at_once))]
pub fn ready_text<'a>(frames: &'a Frames, pieces: &'a [Piece]) -> Option<&'a Text>
    ensures { IfSome result (λ text.
        word_at_once frames.now (parts (map part_of pieces.now))
        ≡ Some (ended code_of.ok text.now)) }
{
    let (piece, behind) = pieces.split_first()?;
    if !behind.is_empty() {
        return None;
    }
    match piece {
        Piece::Bytes(bytes) => within_limit(bytes),
        Piece::Var(name) => ready_variable(frames, name),
        Piece::Elem(_, _) => None,
        Piece::Sub(_) => None,
    }
}

/// Whether nothing is run for any of these pieces.
fn are_simple(pieces: &[Piece]) -> bool {
    for piece in pieces {
        match piece {
            Piece::Bytes(_) => {}
            Piece::Var(_) => {}
            Piece::Elem(_, _) => return false,
            Piece::Sub(_) => return false,
        }
    }
    true
}

/// What is kept of a word with the value of a variable behind it, or the error of reading that.
fn with_variable(
    alloc: Global,
    frames: &Frames,
    so_far: SoFar,
    name: &Text,
) -> Result<Result<SoFar, Ended>, NoMemory>
    ensures { IfOk result (λ found. IsPassed (read_as frames.now name.now) so_far found) }
{
    match frames.value(name) {
        Ok(value) => {
            let after = so_far.with(value.bytes())?;
            Ok(Ok(after))
        }
        Err(VarFault::NoMemory) => {
            drop(so_far);
            Err(NoMemory)
        }
        Err(why) => {
            drop(so_far);
            let value = error(alloc, variable_fault(alloc, why, name.bytes())?)?;
            Ok(Err(value))
        }
    }
}

/// What a word comes to that has neither a bracket nor an element of an array; `None` for any other one,
/// of which nothing is looked at.
#[inline(never)]
pub fn simple_word(
    alloc: Global,
    frames: &Frames,
    pieces: &[Piece],
) -> Result<Option<Ended>, NoMemory>
    ensures { IfOk result (λ found.
        IfSome found (λ value.
        word_at_once frames.now (parts (map part_of pieces.now)) ≡ Some value)) }
{
    if !are_simple(pieces) {
        return Ok(None);
    }
    let mut so_far = SoFar::Kept(Text::empty(alloc));
    let mut left = pieces;
    'pieces: while let Some((piece, behind)) = left.split_first() {
        match piece {
            Piece::Bytes(bytes) => so_far = so_far.with(bytes.bytes())?,
            Piece::Var(name) => match with_variable(alloc, frames, so_far, name)? {
                Ok(after) => so_far = after,
                Err(value) => return Ok(Some(value)),
            },
            Piece::Elem(_, _) => return Ok(None),
            Piece::Sub(_) => return Ok(None),
        }
        left = behind;
    }
    Ok(Some(kept_value(alloc, so_far)?))
}

impl<H: Host> Engine<H> {
    /// Puts the value of a command's next word, which has these pieces, behind those of its first ones,
    /// where nothing is run for it.
    #[inline(never)]
    fn other_word(&self, pieces: &[Piece], values: &mut Gathered) -> Result<Passed, NoMemory>
        ensures means { IfOk result (λ passed.
            (names : Names) (levels : ℕ) (all : Words)
            → IsWordAt (parts (map part_of pieces.now)) (length values.old) all
            → Alike self.now self.now
            (passed_next names H.table (nested names H.table levels) passed
            (words_from (length values.new) all) values.new)
            (run_words names H.table (nested names H.table levels)
            (words_from (length values.old) all) values.old)) }
        ensures less { IfOk result (λ passed.
            (all : Words) → IsWordAt (parts (map part_of pieces.now)) (length values.old) all
            → LeavesAsSaid passed (words_from (length values.new) all)
            (words_from (length values.old) all)) }
    {
        match simple_word(self.alloc, &self.frames, pieces)? {
            None => Ok(Passed::Left),
            Some(value) => {
                let passed = self.take_word(values, value)?;
                Ok(passed)
            }
        }
    }

    /// Puts the values of a command's next words behind those of its first ones, up to a word for
    /// which something is run.
    pub(crate) fn simple_words(
        &self,
        all: &[Word],
        values: &mut Gathered,
    ) -> Result<Passed, NoMemory>
        ensures means { IfOk result (λ passed.
            (names : Names) (levels : ℕ)
            → Alike self.now self.now
            (passed_next names H.table (nested names H.table levels) passed
            (words_from (length values.new) (words (map word_of all.now))) values.new)
            (run_words names H.table (nested names H.table levels)
            (words_from (length values.old) (words (map word_of all.now))) values.old)) }
        ensures less { IfOk result (λ passed.
            LeavesAsSaid passed (words_from (length values.new) (words (map word_of all.now)))
            (words_from (length values.old) (words (map word_of all.now)))) }
    {
        'words: while let Some(pieces) = pieces_at(all, values.len()) {
            match ready_text(&self.frames, pieces) {
                Some(text) => {
                    let word = text.copy(self.alloc)?;
                    let costly = values.join(word, self.budget)?;
                    if costly {
                        return Ok(Passed::Costly);
                    }
                }
                None => match self.other_word(pieces, values)? {
                    Passed::On => {}
                    passed => return Ok(passed),
                },
            }
        }
        Ok(Passed::All)
    }
}
