//! Operators, and why one gives no value.

ghost use Rattle.std.specs.Prelude.{◌≡◌};
ghost use Rattle.tcl_expr.specs.declared.operator.ExprFault.TheVariants.{NoMemory};

use std::alloc::AllocError;

/// An operator of expressions. The first four stand before one operand, the others between two.
#[derive(Clone, Copy, Debug, PartialEq, Eq)]
pub enum Op {
    /// `-x`
    Minus,
    /// `+x`
    Plus,
    /// `~x`
    Invert,
    /// `!x`
    Not,
    /// `x * y`
    Mul,
    /// `x / y`
    Div,
    /// `x % y`
    Rem,
    /// `x + y`
    Add,
    /// `x - y`
    Sub,
    /// `x << y`
    Shl,
    /// `x >> y`
    Shr,
    /// `x < y`
    Lt,
    /// `x > y`
    Gt,
    /// `x <= y`
    Le,
    /// `x >= y`
    Ge,
    /// `x == y`
    EqNumber,
    /// `x != y`
    NeNumber,
    /// `x eq y`
    EqText,
    /// `x ne y`
    NeText,
    /// `x & y`
    BitAnd,
    /// `x ^ y`
    BitXor,
    /// `x | y`
    BitOr,
    /// `x && y`
    And,
    /// `x || y`
    Or,
}

/// Why an operator gives no value.
#[derive(Clone, Copy, Debug, PartialEq, Eq)]
pub enum ExprFault {
    /// An operand is no number, or the operator doesn't take this many operands.
    NotNumber,
    /// An operand has no truth.
    NotBoolean,
    /// The divisor is 0.
    DivZero,
    /// The result isn't a number of 64 bits with a sign.
    Overflow,
    /// The count of a shift isn't one of 0 to 63.
    Shift,
    /// Memory ran out.
    NoMemory,
}

impl From<txt_core::NoMemory> for ExprFault {
    ghost from_gives = { λ _ e. e ≡ NoMemory };

    fn from(_e: txt_core::NoMemory) -> ExprFault {
        ExprFault::NoMemory
    }
}

impl From<AllocError> for ExprFault {
    ghost from_gives = { λ _ e. e ≡ NoMemory };

    fn from(_e: AllocError) -> ExprFault {
        ExprFault::NoMemory
    }
}
