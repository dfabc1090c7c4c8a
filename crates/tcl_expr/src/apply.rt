//! The operators on texts.

ghost use Rattle.std.specs.Prelude.{◌≡◌, IfOk, Result, Ok, Err, ◌<◌};
ghost use Rattle.txt_core.specs.Number.{number};
ghost use Rattle.txt_core.specs.Truth.{truth};
ghost use Rattle.tcl_expr.specs.Operators.{combined, in_decimal, joined, on_truths, on_numbers, unary, binary, value_of, Gives};

use crate::arithmetic::combined;
use crate::comparison::comparison_holds;
use crate::operator::{ExprFault, Op};
use std::alloc::Global;
use txt_core::{NoMemory, Text, read_int, read_truth, truth_text, write_int};

fn in_decimal(alloc: Global, n: Result<i64, ExprFault>) -> Result<Text, ExprFault>
    ensures { Gives result (in_decimal n) }
{
    let text = write_int(alloc, n?)?;
    Ok(text)
}

/// What a unary operator gives: `-`, `+` and `~` of a number in decimal form, and of `!` the
/// opposite of a truth as 1 or 0.
///
/// # Errors
///
/// `ExprFault::NotNumber` exactly where `op` isn't one of `-`, `+`, `~` and `!`, or it is one of the
/// first three and the value is no number; `ExprFault::NotBoolean` exactly where it is `!` and the
/// value has no truth; `ExprFault::Overflow` exactly where it is `-` of the least number;
/// `ExprFault::NoMemory` where memory ran out.
pub fn apply_unary(alloc: Global, op: Op, value: &Text) -> Result<Text, ExprFault>
    ensures { Gives result (unary op value.now) }
{
    match op {
        Op::Minus => {
            let n = read_int(value).ok_or(ExprFault::NotNumber)?;
            in_decimal(alloc, n.checked_neg().ok_or(ExprFault::Overflow))
        }
        Op::Plus => {
            let n = read_int(value).ok_or(ExprFault::NotNumber)?;
            in_decimal(alloc, Ok(n))
        }
        Op::Invert => {
            let n = read_int(value).ok_or(ExprFault::NotNumber)?;
            in_decimal(alloc, Ok(!n))
        }
        Op::Not => {
            let truth = read_truth(value).ok_or(ExprFault::NotBoolean)?;
            let text = truth_text(alloc, !truth)?;
            Ok(text)
        }
        _ => Err(ExprFault::NotNumber),
    }
}

fn joined(op: Op, p: bool, q: bool) -> bool
    ensures { result ≡ joined op p q }
{
    match op {
        Op::And => p && q,
        _ => p || q,
    }
}

fn on_truths(alloc: Global, op: Op, left: &Text, right: &Text) -> Result<Text, ExprFault>
    ensures { Gives result (on_truths (joined op) (truth left.now) (truth right.now)) }
{
    let p = read_truth(left).ok_or(ExprFault::NotBoolean)?;
    let q = read_truth(right).ok_or(ExprFault::NotBoolean)?;
    let text = truth_text(alloc, joined(op, p, q))?;
    Ok(text)
}

fn on_numbers(alloc: Global, op: Op, left: &Text, right: &Text) -> Result<Text, ExprFault>
    ensures { Gives result (on_numbers (combined op) (number left.now) (number right.now)) }
{
    let m = read_int(left).ok_or(ExprFault::NotNumber)?;
    let n = read_int(right).ok_or(ExprFault::NotNumber)?;
    in_decimal(alloc, combined(op, m, n))
}

/// What a binary operator gives. `*` `/` `%` `+` `-` `<<` `>>` `&` `^` `|` give a number in decimal
/// form: `/` rounds towards minus infinity, `%` has the divisor's sign, a shift multiplies by a power
/// of two or divides by one, rounding down. Comparisons give 1 or 0: those of numbers compare bytes
/// where a side is no number, `eq` and `ne` always do. `&&` and `||` give 1 or 0 of two truths.
///
/// # Errors
///
/// The first of these that fits: `ExprFault::NotNumber` exactly where `op` isn't binary or an operand
/// that must be a number is none; `ExprFault::NotBoolean` exactly where it is `&&` or `||` and an
/// operand has no truth; `ExprFault::DivZero` exactly where a divisor is 0; `ExprFault::Shift`
/// exactly where a count isn't one of 0 to 63; `ExprFault::Overflow` exactly where the result isn't
/// a number of 64 bits with a sign. `ExprFault::NoMemory` where memory ran out.
pub fn apply_binary(alloc: Global, op: Op, left: &Text, right: &Text) -> Result<Text, ExprFault>
    ensures { Gives result (binary op left.now right.now) }
{
    if let Some(holds) = comparison_holds(op, left, right) {
        let text = truth_text(alloc, holds)?;
        return Ok(text);
    }
    match op {
        Op::And | Op::Or => on_truths(alloc, op, left, right),
        _ => on_numbers(alloc, op, left, right),
    }
}

/// The value of a whole expression: its decimal form where it is a number, else its text. Its only
/// error is want of memory.
pub fn expression_value(alloc: Global, value: &Text) -> Result<Text, NoMemory>
    ensures { IfOk result (λ t. t ≡ value_of value.now) }
{
    match read_int(value) {
        Some(n) => write_int(alloc, n),
        None => value.copy(alloc),
    }
}
