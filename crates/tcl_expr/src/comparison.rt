//! Comparisons of two texts.

ghost use Rattle.std.specs.Prelude.{◌≡◌, true, false, Ok, MatchOption};
ghost use Rattle.txt_core.specs.Truth.{truth_text};
ghost use Rattle.tcl_expr.specs.Operators.{binary, compared, is_comparison};

use crate::operator::Op;
use std::cmp::Ordering;
use txt_core::{Text, read_int};

/// How two texts compare: as numbers where both are numbers, else byte by byte.
pub fn compared(left: &Text, right: &Text) -> Ordering
    ensures { result ≡ compared left.now right.now }
{
    match (read_int(left), read_int(right)) {
        (Some(m), Some(n)) => m.cmp(&n),
        _ => left.cmp(right),
    }
}

/// Whether a comparison holds: `<`, `>`, `<=`, `>=`, `==` and `!=` of two numbers compare these, and bytes
/// where a side is no number; `eq` and `ne` always compare bytes. `None` exactly where the operator is
/// another one.
#[inline(always)]
pub fn comparison_holds(op: Op, left: &Text, right: &Text) -> Option<bool>
    ensures { MatchOption result (is_comparison op ≡ false) (λ holds.
        (is_comparison op ≡ true) × (binary op left.now right.now ≡ Ok (truth_text holds))) }
{
    match op {
        Op::Lt => Some(compared(left, right).is_lt()),
        Op::Gt => Some(compared(left, right).is_gt()),
        Op::Le => Some(compared(left, right).is_le()),
        Op::Ge => Some(compared(left, right).is_ge()),
        Op::EqNumber => Some(compared(left, right).is_eq()),
        Op::NeNumber => Some(compared(left, right).is_ne()),
        Op::EqText => Some(left == right),
        Op::NeText => Some(left != right),
        _ => None,
    }
}
