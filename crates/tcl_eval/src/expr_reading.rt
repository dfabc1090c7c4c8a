//! What a text is as an expression.

use std::rc::Rc;
use tcl_expr::Expr;

/// What a text is as an expression.
#[derive(Debug, Drop)]
pub enum ExprReading {
    /// It is this one.
    Good(Rc<Expr>),
    /// It is none, and bad at this place.
    Bad { at: u64 },
}
