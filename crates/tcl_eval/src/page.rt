//! Pages under way.

ghost use Rattle.std.specs.Prelude.{◌≡◌, ◌<◌, ◌≤◌, ◌+◌, IfOk, OnOk, drop, length};
ghost use Rattle.txt_core.specs.Names.{Names};
ghost use Rattle.tcl_eval.specs.Eval.{nested, give};
ghost use Rattle.tcl_eval.specs.Pages.{words_script, page_end, text_end, run_piece, run_pieces, run_page};
ghost use Rattle.tcl_eval.specs.Engine.{Same, Keeps, Holds, Opens, Enters, Lower, Remains, credit};
ghost use Rattle.tcl_eval.specs.Clauses.{ActsAs, GivesBranch, NearsBranch};
ghost use Rattle.tcl_eval.specs.declared.branch.Branch.{Branch};

use crate::branch::{Branch, place_behind};
use crate::engine::Engine;
use crate::stack::{Acted, Ended, Frame, Gone, gone_from};
use crate::value::done;
use adp_parse::{Piece, PieceList, Pieces};
use std::alloc::Global;
use tcl_host::{Host, HostReply, OK, PAGE_ABORT, PAGE_BREAK, PAGE_RETURN, RETURN};
use txt_core::{NoMemory, Text};

/// The script that a block of words is.
fn words_script(alloc: Global, words: &Text) -> Result<Text, NoMemory>
    ensures { IfOk result (λ script. script ≡ words_script words.now) }
{
    let mut script = Text::new(alloc, b"ns_adp_append ")?;
    script.append(words.bytes())?;
    Ok(script)
}

/// A copy of a piece.
fn copy_piece(alloc: Global, piece: &Piece) -> Result<Piece, NoMemory>
    ensures { IfOk result (λ copied. copied ≡ piece.now) }
{
    match piece {
        Piece::Text(text) => Ok(Piece::Text(text.copy(alloc)?)),
        Piece::Script(script) => Ok(Piece::Script(script.copy(alloc)?)),
        Piece::Words(words) => Ok(Piece::Words(words.copy(alloc)?)),
    }
}

#[tactic(auto, using(crate::proofs::Stacks::frees_push))]
impl<H: Host> Engine<H> {
    /// Begins a page, in a frame of variables of its own.
    pub(crate) fn enter_page(&mut self, pieces: Pieces, levels: u32) -> Result<Acted, NoMemory>
        ensures means { IfOk result (λ acted.
            ActsAs H.table acted self.new self.old
            (λ names. run_page H.table (nested names H.table levels) pieces)) }
        ensures lower { OnOk result (self.new.budget ≤ self.old.budget) }
        ensures opens { IfOk result (λ acted. Opens acted self.new self.old) }
        ensures host { OnOk result (self.new.host ≡ self.old.host) }
        ensures gives { IfOk result (λ acted. Enters acted (Unit {0})) }
        ensures holds { Holds self.new self.old }
    {
        let Pieces { list, args: _ } = pieces;
        self.frames.push()?;
        self.stack.push(Frame::Branch(Branch::Page {
            pieces: list,
            next: 0,
            levels,
        }))?;
        Ok(Acted::Gives(done(self.alloc)))
    }

    /// Has the host take a text of a page.
    fn send(&mut self, text: &Text) -> Result<Ended, NoMemory>
        ensures means { IfOk result (λ value.
            (names : Names)
            → Same names H.table self.new self.old (give value) (λ k state.
            text_end (H.table.texts text.now state.host) k state)) }
        ensures keeps { OnOk result (Keeps self.new self.old) }
        ensures holds { Holds self.new self.old }
    {
        match self.host.text(text) {
            HostReply::Done { code, result } => Ok(Ended { code, result }),
            HostReply::NoMemory => Err(NoMemory),
            HostReply::Ask(_)
            | HostReply::Enter(_)
            | HostReply::Define(_)
            | HostReply::Store { .. }
            | HostReply::NotMine => unreachable!(),
        }
    }

    /// Runs a piece of a page.
    fn run_piece(&mut self, piece: Piece, levels: u32) -> Result<Acted, NoMemory>
        ensures means { IfOk result (λ acted.
            ActsAs H.table acted self.new self.old
            (λ names. run_piece H.table (nested names H.table levels) piece)) }
        ensures lower { OnOk result (Lower self.new self.old 0) }
        ensures opens { IfOk result (λ acted. Opens acted self.new self.old) }
        ensures enters { IfOk result (λ acted. Enters acted (credit self.new ≤ credit self.old)) }
        ensures holds { Holds self.new self.old }
    {
        match piece {
            Piece::Text(text) => {
                let value = self.send(&text)?;
                Ok(Acted::Gives(value))
            }
            Piece::Script(script) => {
                let acted = self.enter_text(&script, levels)?;
                Ok(acted)
            }
            Piece::Words(words) => {
                let script = words_script(self.alloc, &words)?;
                let acted = self.enter_text(&script, levels)?;
                Ok(acted)
            }
        }
    }

    /// Ends a page with this code. Its frame of variables goes.
    fn end_page(&mut self, code: u8) -> Acted
        ensures means { ActsAs H.table result self.new self.old (λ names. page_end code) }
        ensures lower { Lower self.new self.old 0 }
        ensures opens { Opens result self.new self.old }
        ensures enters { Enters result (credit self.new ≤ credit self.old) }
        ensures holds { Holds self.new self.old }
    {
        // The page put a frame there, which nothing else takes away. No fact says so here, and `pop`
        // wants a frame above the global one.
        if self.frames.depth() > 0 {
            self.frames.pop();
        }
        Acted::Gives(Ended {
            code,
            result: Text::empty(self.alloc),
        })
    }

    /// Goes on with the piece at a place of a page; where none is there, the page ends.
    fn run_pieces(&mut self, pieces: PieceList, at: usize, levels: u32) -> Result<Acted, NoMemory>
        ensures means { IfOk result (λ acted.
            ActsAs H.table acted self.new self.old
            (λ names. run_pieces H.table (nested names H.table levels) (drop at pieces))) }
        ensures lower { OnOk result (self.new.budget ≤ self.old.budget) }
        ensures opens { IfOk result (λ acted. Opens acted self.new self.old) }
        ensures enters { IfOk result (λ acted.
            Enters acted (credit self.new ≤ credit self.old + length (drop at pieces))) }
        ensures holds { Holds self.new self.old }
    {
        match pieces.get(at) {
            None => {
                self.host.leave(OK);
                Ok(self.end_page(OK))
            }
            Some(piece) => {
                let piece = copy_piece(self.alloc, piece)?;
                let next = place_behind(at, 1, pieces.len());
                self.stack.push(Frame::Branch(Branch::Page {
                    pieces,
                    next,
                    levels,
                }))?;
                let acted = self.run_piece(piece, levels)?;
                Ok(acted)
            }
        }
    }

    /// Goes on behind a piece of a page.
    pub(crate) fn give_page(
        &mut self,
        pieces: PieceList,
        next: usize,
        levels: u32,
        value: Ended,
    ) -> Result<Gone, NoMemory>
        ensures means { IfOk result (λ gone.
            (names : Names)
            → GivesBranch names H.table gone (Branch.Page pieces next levels) value self.new
            self.old) }
        ensures nears { IfOk result (λ gone.
            NearsBranch gone self.new self.old (Branch.Page pieces next levels)) }
        ensures remains { OnOk result (Remains self.new self.old) }
        ensures holds { Holds self.new self.old }
    {
        if value.code == OK {
            let acted = self.run_pieces(pieces, next, levels)?;
            return Ok(gone_from(acted));
        }
        self.host.leave(value.code);
        if value.code == RETURN || value.code == PAGE_RETURN {
            return Ok(gone_from(self.end_page(OK)));
        }
        if value.code == PAGE_BREAK || value.code == PAGE_ABORT {
            return Ok(gone_from(self.end_page(value.code)));
        }
        let acted = self.run_pieces(pieces, next, levels)?;
        Ok(gone_from(acted))
    }
}
