//! Pages into pieces: the texts that a page sends as they stand, and the blocks that it runs.
//!
//! A block stands between `<%` and the first `%>` behind it. All else is text.
#![tactic(auto)]

mod cutting;
mod law;
mod marks;
mod piece;

pub use cutting::pieces;
pub use law::one_list;
pub use piece::{Piece, PieceList, Pieces};
