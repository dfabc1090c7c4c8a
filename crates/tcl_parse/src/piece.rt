//! The pieces of a word.

ghost use Rattle.std.specs.Prelude.{◌≡◌, ◌++◌, ◌∷◌, [], map, IfOk, OnOk};
ghost use Rattle.tcl_parse.specs.Tree.{variable, element, bracket, parts, commands, literal};
ghost use Rattle.tcl_parse.specs.Names.{named_part};
ghost use Rattle.tcl_parse.specs.View.{part_of, word_of, script_of};

use crate::name::element_name;
use crate::tree::{Piece, Script, Word};
use std::alloc::Global;
use std::rc::Rc;
use txt_core::{NoMemory, Text};

/// A text of these bytes, which its copies share.
fn shared_text(alloc: Global, bytes: &[u8]) -> Result<Text, NoMemory>
    ensures { IfOk result (λ text. text ≡ bytes.now) }
{
    let mut text = Text::new(alloc, bytes)?;
    drop(text.share(alloc)?);
    Ok(text)
}

/// Makes a piece of the bytes that were gathered, if there are any.
fn flush(alloc: Global, pieces: &mut Vec<Piece>, text: &mut Vec<u8>) -> Result<(), NoMemory>
    ensures ok { OnOk result
        (map part_of pieces.new.items ≡ map part_of pieces.old.items ++ literal text.old.items []) }
    ensures empty { OnOk result (text.new.items ≡ []) }
{
    if !text.is_empty() {
        pieces.push(Piece::Bytes(shared_text(alloc, text)?))?;
        text.clear();
    }
    Ok(())
}

/// Puts a piece behind the bytes that were gathered.
pub fn add_piece(
    alloc: Global,
    pieces: &mut Vec<Piece>,
    text: &mut Vec<u8>,
    piece: Piece,
) -> Result<(), NoMemory>
    ensures ok { OnOk result
        (map part_of pieces.new.items
        ≡ map part_of pieces.old.items ++ literal text.old.items [] ++ (part_of piece ∷ [])) }
    ensures empty { OnOk result (text.new.items ≡ []) }
{
    flush(alloc, pieces, text)?;
    pieces.push(piece)?;
    Ok(())
}

/// A word of these pieces and then these bytes.
pub fn word_of_pieces(alloc: Global, pieces: Vec<Piece>, text: Vec<u8>) -> Result<Word, NoMemory>
    ensures { IfOk result (λ w. word_of w ≡ map part_of pieces.items ++ literal text.items []) }
{
    let mut pieces = pieces;
    let mut text = text;
    flush(alloc, &mut pieces, &mut text)?;
    Ok(Word { pieces })
}

fn variable_piece(alloc: Global, name: &[u8]) -> Result<Piece, NoMemory>
    ensures { IfOk result (λ p. part_of p ≡ variable name.now) }
{
    Ok(Piece::Var(Text::new(alloc, name)?))
}

pub fn element_piece(alloc: Global, name: &[u8], index: Word) -> Result<Piece, NoMemory>
    ensures { IfOk result (λ p. part_of p ≡ element name.now (parts (word_of index))) }
{
    let name = Text::new(alloc, name)?;
    let Word { pieces } = index;
    Ok(Piece::Elem(name, pieces))
}

/// What a name means.
pub fn named_piece(alloc: Global, name: &[u8]) -> Result<Piece, NoMemory>
    ensures { IfOk result (λ p. part_of p ≡ named_part name.now) }
{
    match element_name(name) {
        None => variable_piece(alloc, name),
        Some((array, index)) => {
            let text = Vec::from_slice(alloc, index)?;
            let word = word_of_pieces(alloc, Vec::new(alloc), text)?;
            element_piece(alloc, array, word)
        }
    }
}

pub fn bracket_piece(alloc: Global, script: Script) -> Result<Piece, NoMemory>
    ensures { IfOk result (λ p. part_of p ≡ bracket (commands (script_of script))) }
{
    Ok(Piece::Sub(Rc::new(alloc, script)?))
}
