//! An expression as a tree.

use crate::operator::Op;
use std::rc::Rc;
use tcl_parse::Script;
use txt_core::Text;

/// An expression, whose parts can be shared.
#[derive(Debug, Drop)]
pub enum Expr {
    /// A number or one of the six words of truth, as it stands.
    Value(Text),
    /// A word in quotes or braces, a variable, an element or a bracket, as a script that is this word
    /// alone: the pieces whose values are joined.
    Word(Rc<Script>),
    /// A unary operator and its operand.
    Unary(Op, Rc<Expr>),
    /// A binary operator between two operands.
    Binary(Op, Rc<Expr>, Rc<Expr>),
    /// `x ? y : z`.
    Choice(Rc<Expr>, Rc<Expr>, Rc<Expr>),
}
