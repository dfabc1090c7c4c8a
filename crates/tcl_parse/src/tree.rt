//! A script as a tree.

use std::rc::Rc;
use txt_core::Text;

/// A script: its commands, in order.
#[cycle(tree)]
#[derive(Debug, Drop)]
pub struct Script {
    pub commands: Vec<Command>,
}

/// A command: its words, in order. It has at least one.
#[cycle(tree)]
#[derive(Debug, Drop)]
pub struct Command {
    pub words: Vec<Word>,
}

/// A word: its pieces, whose values are joined. `{}` and `""` have none.
#[cycle(tree)]
#[derive(Debug, Drop)]
pub struct Word {
    pub pieces: Vec<Piece>,
}

/// A piece of a word. No two `Bytes` stand side by side, and none is empty.
#[cycle(tree)]
#[derive(Debug, Drop)]
pub enum Piece {
    /// These bytes.
    Bytes(Text),
    /// The value of the variable of this name.
    Var(Text),
    /// The value of the element of the array of this name, whose index these pieces make.
    Elem(Text, Vec<Piece>),
    /// The result of this script.
    Sub(Rc<Script>),
}
