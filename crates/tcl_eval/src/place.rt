//! Places in scripts.

ghost use Rattle.std.specs.Prelude.{◌≡◌, ◌<◌, ◌+◌, ◌^◌, MatchOption, IfOk, IsSome, IsTrue, map, slice_get};
ghost use Rattle.tcl_parse.specs.Tree.{command, no_commands, parts, no_parts, word, words, no_words};
ghost use Rattle.tcl_parse.specs.View.{part_of, script_of, word_of};
ghost use Rattle.tcl_expr.specs.View.{only_word};
ghost use Rattle.std.specs.Option.{option_copied};
ghost use Rattle.tcl_eval.specs.Places.{tree_of, word_parts, inside, parts_from, walk, place_parts, command_at, words_from, behind, index_of, HasCommand, HasWord};
ghost use Rattle.tcl_eval.specs.SeenPieces.{SeenAs, SeenAt};

use std::alloc::Global;
use std::rc::Rc;
use tcl_parse::{Piece, Script, Word};
use txt_core::{NoMemory, Text};

/// A place among the pieces of a word, or of an index within it: the word's command and its own place
/// there, the pieces whose indexes lead there, and the next piece.
#[derive(Drop)]
pub struct Place {
    pub script: Rc<Script>,
    pub command: usize,
    pub word: usize,
    pub path: Vec<usize>,
    pub next: usize,
}

/// The item at a place of a list, if any.
fn item_at<T>(items: &[T], at: usize) -> Option<&T>
    ensures { option_copied result ≡ slice_get items.now at }
{
    items.get(at)
}

/// Whether a script has a command at this place.
pub fn has_command(script: &Script, at: usize) -> bool
    ensures there { HasCommand result at (tree_of script.now) }
    ensures small { IsTrue result → at < 2 ^ 63 }
{
    at < script.commands.as_slice().len()
}

/// Whether a script has one command.
#[tactic(auto, using(crate::proofs::OneBracket::one_only))]
pub fn is_one_command(script: &Script) -> bool
    ensures { IsTrue result
        → tree_of script.now ≡ command (command_at 0 (tree_of script.now)) no_commands }
{
    if !has_command(script, 0) {
        return false;
    }
    if has_command(script, 1) {
        return false;
    }
    true
}

/// The words of a command; none where there is no such command.
pub fn words_of(script: &Script, at: usize) -> &[Word]
    ensures { words (map word_of result.now) ≡ command_at at (tree_of script.now) }
{
    match item_at(script.commands.as_slice(), at) {
        None => &[],
        Some(command) => command.words.as_slice(),
    }
}

/// Whether a command of a script has a word at this place.
pub fn has_word(script: &Script, at: usize, word: usize) -> bool
    ensures there { HasWord result word (command_at at (tree_of script.now)) }
    ensures small { IsTrue result → word < 2 ^ 63 }
{
    word < words_of(script, at).len()
}

/// The pieces of a word; none where there is no such word.
fn word_pieces(script: &Script, at: usize, word: usize) -> &[Piece]
    ensures { parts (map part_of result.now) ≡ word_parts at word (tree_of script.now) }
{
    match item_at(words_of(script, at), word) {
        None => &[],
        Some(word) => word.pieces.as_slice(),
    }
}

/// The pieces of a script's first word; none where it has no word.
pub fn only_pieces(script: &Script) -> &[Piece]
    ensures { parts (map part_of result.now) ≡ parts (only_word (script_of script.now)) }
{
    word_pieces(script, 0, 0)
}

/// The first piece of a script's first word.
pub fn first_piece(alloc: Global, script: Rc<Script>) -> Place
    ensures { place_parts result ≡ parts (only_word (script_of script.value)) }
{
    Place::at_word(alloc, script, 0, 0)
}

/// The pieces of the word at a place of a command, if it has one there.
pub fn pieces_at(all: &[Word], at: usize) -> Option<&[Piece]>
    ensures { MatchOption result (words_from at (words (map word_of all.now)) ≡ no_words) (λ pieces.
        words_from at (words (map word_of all.now))
        ≡ word (parts (map part_of pieces.now))
        (words_from (at + 1) (words (map word_of all.now)))) }
{
    match item_at(all, at) {
        None => None,
        Some(word) => Some(word.pieces.as_slice()),
    }
}

/// What a piece is. The index of an element isn't told.
pub enum Seen<'a> {
    Bytes(&'a Text),
    Variable(&'a Text),
    Element(&'a Text),
    Bracket(&'a Rc<Script>),
}

/// What a piece is.
pub fn look(piece: &Piece) -> Seen<'_>
    ensures { SeenAs result (part_of piece.now) }
{
    match piece {
        Piece::Bytes(bytes) => Seen::Bytes(bytes),
        Piece::Var(name) => Seen::Variable(name),
        Piece::Elem(array, _) => Seen::Element(array),
        Piece::Sub(script) => Seen::Bracket(script),
    }
}

/// The pieces of the index of a piece; none where it is no element of an array.
fn index_of(piece: &Piece) -> &[Piece]
    ensures { parts (map part_of result.now) ≡ index_of (part_of piece.now) }
{
    match piece {
        Piece::Bytes(_) => &[],
        Piece::Var(_) => &[],
        Piece::Elem(_, index) => index.as_slice(),
        Piece::Sub(_) => &[],
    }
}

/// The pieces of the index of the piece at a place; none where that is no element of an array.
fn index_pieces(pieces: &[Piece], at: usize) -> &[Piece]
    ensures { parts (map part_of result.now)
        ≡ inside (parts_from at (parts (map part_of pieces.now))) }
{
    match item_at(pieces, at) {
        None => &[],
        Some(piece) => index_of(piece),
    }
}

/// The pieces to which a path of indexes leads.
fn follow<'a>(pieces: &'a [Piece], path: &[usize]) -> &'a [Piece]
    ensures { parts (map part_of result.now) ≡ walk path.now (parts (map part_of pieces.now)) }
{
    let mut here = pieces;
    for at in path {
        here = index_pieces(here, *at);
    }
    here
}

impl Place {
    /// The first piece of a word of a command.
    pub fn at_word(alloc: Global, script: Rc<Script>, command: usize, word: usize) -> Place
        ensures { place_parts result ≡ word_parts command word (tree_of script.value) }
    {
        Place {
            script,
            command,
            word,
            path: Vec::new(alloc),
            next: 0,
        }
    }

    /// What the piece is that stands here, if any.
    pub fn piece(&self) -> Option<Seen<'_>>
        ensures found { MatchOption result (place_parts self.now ≡ no_parts) (λ seen.
            SeenAt seen (place_parts self.now) (place_parts (behind self.now))) }
        ensures small { IsSome result → self.now.next < 2 ^ 63 }
    {
        let pieces = word_pieces(&self.script, self.command, self.word);
        let pieces = follow(pieces, self.path.as_slice());
        if self.next >= pieces.len() {
            return None;
        }
        match item_at(pieces, self.next) {
            None => None,
            Some(piece) => Some(look(piece)),
        }
    }

    /// The place behind the piece that stands here.
    pub fn behind(self) -> Place
        requires { self.next < 2 ^ 63 }
        ensures { result ≡ behind self }
    {
        Place {
            next: self.next + 1,
            ..self
        }
    }

    /// The first piece of the index of the piece that stands here.
    pub fn inside(&self, alloc: Global) -> Result<Place, NoMemory>
        ensures { IfOk result (λ place. place_parts place ≡ inside (place_parts self.now)) }
    {
        let mut path = Vec::from_slice(alloc, self.path.as_slice())?;
        path.push(self.next)?;
        Ok(Place {
            script: self.script.clone()?,
            command: self.command,
            word: self.word,
            path,
            next: 0,
        })
    }
}
