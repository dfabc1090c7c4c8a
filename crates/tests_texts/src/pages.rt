//! Pages: the pieces that they are cut into.

use adp_parse::{Piece, Pieces, one_list, pieces};
use std::alloc::Global;
use test_rows::Answer;
use txt_core::{NoMemory, Text, Words};

/// Adds a letter for the kind of a piece, its content, and a line end.
fn add_piece(piece: &Piece, out: &mut Answer) {
    let (kind, content) = match piece {
        Piece::Text(text) => (b"T", text),
        Piece::Script(script) => (b"S", script),
        Piece::Words(words) => (b"W", words),
    };
    out.add(kind);
    out.add(content.bytes());
    out.add(b"\n");
}

/// The pieces of a page, with copies of the words of its call.
fn cut_with(alloc: Global, page: &Text, words: &[Text]) -> Result<Pieces, NoMemory> {
    pieces(alloc, page, Words::of_copies(alloc, words)?)
}

/// Adds the pieces of a page one after another.
pub fn cut(page: &Text, out: &mut Answer) {
    one_list();
    match cut_with(out.alloc(), page, &[]) {
        Ok(cut) => {
            for piece in cut.list.as_slice() {
                add_piece(piece, out);
            }
        }
        Err(NoMemory) => out.lack_memory(),
    }
}

/// Adds how many pieces a page has, and the words of its call, which stand beside.
pub fn beside(page: &Text, words: &[Text], out: &mut Answer) {
    match cut_with(out.alloc(), page, words) {
        Ok(cut) => {
            out.add_number(cut.list.len() as u64);
            out.add(b" beside ");
            out.add_words(cut.args.as_slice());
        }
        Err(NoMemory) => out.lack_memory(),
    }
}
