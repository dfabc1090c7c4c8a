//! Words that are one bracket of one command, which comes to a value straight away.

ghost use Rattle.std.specs.Prelude.{◌≡◌, ◌+◌, ◌++◌, ◌∷◌, ℕ, suc, [], length, map, IfOk, IfSome, OnOk};
ghost use Rattle.natives.specs.Names.{names_of};
ghost use Rattle.txt_core.specs.Names.{Names};
ghost use Rattle.tcl_parse.specs.Tree.{Parts, Words, bracket, no_parts, part, parts, words};
ghost use Rattle.tcl_parse.specs.View.{part_of, word_of};
ghost use Rattle.tcl_eval.specs.Eval.{nested, on_ok, run_parts, run_words};
ghost use Rattle.tcl_eval.specs.Kept.{judged};
ghost use Rattle.tcl_eval.specs.Places.{tree_of, words_from};
ghost use Rattle.tcl_eval.specs.Straight.{Alike, Straightly};
ghost use Rattle.tcl_eval.specs.Brackets.{LeavesAsSaid, IsWordAt, bracket_value, bracketed_next, passed_next};
ghost use Rattle.tcl_eval.specs.Engine.{Holds};

use crate::engine::Engine;
use crate::gather::Gathered;
use crate::place::{Seen, look, pieces_at};
use crate::stack::{Ended, Once};
use crate::value::judged;
use natives::Natives;
use std::alloc::Global;
use std::rc::Rc;
use tcl_host::{Host, OK};
use tcl_parse::{Piece, Script, Word};
use txt_core::NoMemory;

/// Where a command stands behind some of its words.
#[derive(Drop)]
pub enum Passed {
    /// The word behind them comes next.
    On,
    /// All its words are there.
    All,
    /// This is what the command comes to: the end of a word that has no value.
    Ends(Ended),
    /// A result costs more than is left of the budget.
    Spent,
    /// Its first words cost more than is left of the budget.
    Costly,
    /// Something is run for the next word, of which nothing was done.
    Left,
}

/// The script of a piece that is a bracket; `None` for any other piece.
fn bracket_script(piece: &Piece) -> Option<&Rc<Script>>
    ensures { IfSome result (λ script. part_of piece.now ≡ bracket (tree_of script.now.value)) }
{
    match look(piece) {
        Seen::Bytes(_) => None,
        Seen::Variable(_) => None,
        Seen::Element(_) => None,
        Seen::Bracket(script) => Some(script),
    }
}

/// The script of a word that is one bracket; `None` for any other word.
fn only_bracket(pieces: &[Piece]) -> Option<&Rc<Script>>
    ensures { IfSome result (λ script.
        parts (map part_of pieces.now) ≡ part (bracket (tree_of script.now.value)) no_parts) }
{
    match pieces {
        [piece] => bracket_script(piece),
        _ => None,
    }
}

/// What a word comes to that is a bracket which came to this.
#[inline(always)]
pub(crate) fn bracket_word(alloc: Global, value: Ended) -> Result<Ended, NoMemory>
    ensures { IfOk result (λ word. word ≡ bracket_value value.code value.result) }
{
    if value.code != OK {
        return Ok(value);
    }
    judged(alloc, value.result)
}

impl<H: Host> Engine<H> {
    /// Does the script of a bracket, where it is one command that comes to a value straight away. A level is
    /// left to it at least.
    fn do_bracket(&mut self, natives: &Natives, script: &Script) -> Result<Once, NoMemory>
        ensures means { IfOk result (λ once.
            (levels : ℕ)
            → Alike self.new self.old
            (bracketed_next (nested (names_of natives.now) H.table (suc levels))
            (part (bracket (tree_of script.now)) no_parts) once)
            (λ k.
            run_parts (nested (names_of natives.now) H.table (suc levels))
            (part (bracket (tree_of script.now)) no_parts) [] (judged k))) }
        ensures straight { OnOk result (Straightly self.new self.old) }
        ensures holds { Holds self.new self.old }
    {
        match self.run_once(natives, script)? {
            Once::Gives(value) => {
                let word = bracket_word(self.alloc, value)?;
                Ok(Once::Gives(word))
            }
            Once::Spent => Ok(Once::Spent),
            Once::Left => Ok(Once::Left),
        }
    }

    /// Does a word of these pieces, where it is one bracket of one command that comes to a value straight
    /// away. So many levels are left to a bracket.
    fn try_bracket(
        &mut self,
        natives: &Natives,
        pieces: &[Piece],
        levels: u32,
    ) -> Result<Once, NoMemory>
        ensures means { IfOk result (λ once.
            Alike self.new self.old
            (bracketed_next (nested (names_of natives.now) H.table levels)
            (parts (map part_of pieces.now)) once)
            (λ k.
            run_parts (nested (names_of natives.now) H.table levels)
            (parts (map part_of pieces.now)) [] (judged k))) }
        ensures straight { OnOk result (Straightly self.new self.old) }
        ensures holds { Holds self.new self.old }
    {
        if levels == 0 {
            return Ok(Once::Left);
        }
        match only_bracket(pieces) {
            None => Ok(Once::Left),
            Some(script) => {
                let word = self.do_bracket(natives, script)?;
                Ok(word)
            }
        }
    }

    /// Puts the value of a command's next word behind those of its first ones.
    pub(crate) fn take_word(&self, values: &mut Gathered, value: Ended) -> Result<Passed, NoMemory>
        ensures means { IfOk result (λ passed.
            (names : Names) (levels : ℕ) (all : Words)
            → Alike self.now self.now
            (passed_next names H.table (nested names H.table levels) passed
            (words_from (length values.new) all) values.new)
            (λ k.
            on_ok
            (λ v.
            run_words names H.table (nested names H.table levels)
            (words_from (length values.old + 1) all) (values.old ++ v ∷ []) k)
            k value.code value.result)) }
        ensures less { IfOk result (λ passed.
            (all : Words) (pieces : Parts) → IsWordAt pieces (length values.old) all
            → LeavesAsSaid passed (words_from (length values.new) all)
            (words_from (length values.old) all)) }
    {
        if value.code != OK {
            return Ok(Passed::Ends(value));
        }
        let costly = values.join(value.result, self.budget)?;
        if costly {
            return Ok(Passed::Costly);
        }
        Ok(Passed::On)
    }

    /// Puts the value of a command's next word, which has these pieces, behind those of its first ones,
    /// where it is one bracket of one command that comes to a value straight away.
    #[inline(never)]
    fn pass_bracket(
        &mut self,
        natives: &Natives,
        pieces: &[Piece],
        values: &mut Gathered,
        levels: u32,
    ) -> Result<Passed, NoMemory>
        ensures means { IfOk result (λ passed.
            (all : Words) → IsWordAt (parts (map part_of pieces.now)) (length values.old) all
            → Alike self.new self.old
            (passed_next (names_of natives.now) H.table
            (nested (names_of natives.now) H.table levels) passed
            (words_from (length values.new) all) values.new)
            (run_words (names_of natives.now) H.table
            (nested (names_of natives.now) H.table levels) (words_from (length values.old) all)
            values.old)) }
        ensures less { IfOk result (λ passed.
            (all : Words) → IsWordAt (parts (map part_of pieces.now)) (length values.old) all
            → LeavesAsSaid passed (words_from (length values.new) all)
            (words_from (length values.old) all)) }
        ensures straight { OnOk result (Straightly self.new self.old) }
        ensures holds { Holds self.new self.old }
    {
        match self.try_bracket(natives, pieces, levels)? {
            Once::Gives(value) => {
                let passed = self.take_word(values, value)?;
                Ok(passed)
            }
            Once::Spent => Ok(Passed::Spent),
            Once::Left => Ok(Passed::Left),
        }
    }

    /// Puts the values of a command's next words behind those of its first ones, up to a word for which
    /// something is run, and with it where it is one bracket of one command that comes to a value straight
    /// away.
    pub(crate) fn pass_words(
        &mut self,
        natives: &Natives,
        all: &[Word],
        values: &mut Gathered,
        levels: u32,
    ) -> Result<Passed, NoMemory>
        ensures means { IfOk result (λ passed.
            Alike self.new self.old
            (passed_next (names_of natives.now) H.table
            (nested (names_of natives.now) H.table levels) passed
            (words_from (length values.new) (words (map word_of all.now))) values.new)
            (run_words (names_of natives.now) H.table
            (nested (names_of natives.now) H.table levels)
            (words_from (length values.old) (words (map word_of all.now))) values.old)) }
        ensures less { IfOk result (λ passed.
            LeavesAsSaid passed (words_from (length values.new) (words (map word_of all.now)))
            (words_from (length values.old) (words (map word_of all.now)))) }
        ensures straight { OnOk result (Straightly self.new self.old) }
        ensures holds { Holds self.new self.old }
    {
        match self.simple_words(all, values)? {
            Passed::All => Ok(Passed::All),
            Passed::Left => match pieces_at(all, values.len()) {
                None => Ok(Passed::All),
                Some(pieces) => {
                    let passed = self.pass_bracket(natives, pieces, values, levels)?;
                    Ok(passed)
                }
            },
            passed => Ok(passed),
        }
    }
}
