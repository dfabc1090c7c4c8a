//! What holds of pages by themselves.

ghost use Rattle.std.specs.Prelude.{List, ◌≡◌};
ghost use Rattle.txt_core.specs.Names.{Bytes};
ghost use Rattle.adp_parse.specs.declared.piece.Piece.{Piece};
ghost use Rattle.adp_parse.specs.Pieces.{ArePiecesOf};
ghost use Rattle.adp_parse.specs.PiecesOf.{pieces_of};

/// Each page has a list of pieces, and exactly one. It does nothing when it runs.
pub fn one_list()
    ensures some { (page : Bytes) → ArePiecesOf page (pieces_of page) }
    ensures one { (page : Bytes) (list : List Piece) → ArePiecesOf page list
        → list ≡ pieces_of page }
{}
