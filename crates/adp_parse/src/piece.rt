//! What a page is made of.

use txt_core::{Sequence, Text, Words};

/// A piece of a page.
#[derive(Debug, Drop)]
pub enum Piece {
    /// What stands outside the blocks, to be sent as it is. It has a byte at least.
    Text(Text),
    /// What stands between `<%` and `%>`, to be run as a script.
    Script(Text),
    /// What stands between `<%=` and `%>`: words whose values are to be sent.
    Words(Text),
}

/// The pieces of a page, in order.
pub type PieceList = Sequence<Piece>;

/// A page to be run: its pieces, and the arguments that it is given.
#[derive(Debug, Drop)]
pub struct Pieces {
    pub list: PieceList,
    pub args: Words,
}
