//! Expressions: their grammar, the tree that a text is or the place where it is bad, and the table
//! of their operators.
#![tactic(auto)]

mod apply;
mod arithmetic;
mod comparison;
mod expr;
mod fault;
mod law;
mod operator;
mod reading;
mod run;
mod token;

pub use apply::{apply_binary, apply_unary, expression_value};
pub use comparison::comparison_holds;
pub use expr::Expr;
pub use fault::ExprText;
pub use law::{division, least_place, one_answer, one_reading};
pub use operator::{ExprFault, Op};
pub use reading::{MOST_OPERATORS, parse_expr};
