//! Whole numbers of 64 bits: each call gives the number without a bound, where 64 bits hold it.

ghost use Rattle.std.specs.Prelude.{◌≡◌, ◌≢◌, ◌<◌, ◌≤ℤ◌, ◌<ℤ◌, Ok, Err, FitsSigned, SomeIff, pos, unsigned_abs};
ghost use Rattle.std.specs.Int.{w64};
ghost use Rattle.tcl_expr.specs.Arithmetic.{quotient, remainder, shifted_left, shifted_right};
ghost use Rattle.tcl_expr.specs.Operators.{combined};

use crate::operator::{ExprFault, Op};

/// The quotient, rounded towards minus infinity.
fn quotient(m: i64, n: i64) -> Option<i64>
    requires { n ≢ pos 0 }
    ensures { SomeIff result (FitsSigned w64 (quotient m n)) (quotient m n) }
{
    let whole = m.checked_div(n)?;
    if m.wrapping_rem(n) != 0 && (m < 0) != (n < 0) {
        return whole.checked_sub(1);
    }
    Some(whole)
}

/// The remainder, which has the divisor's sign.
fn remainder(m: i64, n: i64) -> i64
    requires { n ≢ pos 0 }
    ensures { result ≡ remainder m n }
{
    let rest = m.wrapping_rem(n);
    if rest != 0 && (m < 0) != (n < 0) {
        rest + n
    } else {
        rest
    }
}

/// The number times 2 to the power of `count`.
fn shifted_left(m: i64, count: u32) -> Option<i64>
    requires { count < 64 }
    ensures { SomeIff result (FitsSigned w64 (shifted_left m count)) (shifted_left m count) }
{
    let wide = i128::from(m).checked_mul(2i128.checked_pow(count)?)?;
    i64::try_from(wide).ok()
}

/// The number divided by 2 to the power of `count`, rounded down.
fn shifted_right(m: i64, count: u32) -> i64
    requires { count < 64 }
    ensures { result ≡ shifted_right m count }
{
    m >> count
}

/// The count of a shift: 0 to 63.
fn shift_count(n: i64) -> Option<u32>
    ensures { SomeIff result ((pos 0 ≤ℤ n) × (n <ℤ pos 64)) (unsigned_abs n) }
{
    if n < 0 || n >= 64 {
        return None;
    }
    Some(n as u32)
}

/// What a binary operator on numbers gives.
pub fn combined(op: Op, m: i64, n: i64) -> Result<i64, ExprFault>
    ensures { result ≡ combined op m n }
{
    match op {
        Op::Mul => m.checked_mul(n).ok_or(ExprFault::Overflow),
        Op::Div => {
            if n == 0 {
                return Err(ExprFault::DivZero);
            }
            quotient(m, n).ok_or(ExprFault::Overflow)
        }
        Op::Rem => {
            if n == 0 {
                return Err(ExprFault::DivZero);
            }
            Ok(remainder(m, n))
        }
        Op::Add => m.checked_add(n).ok_or(ExprFault::Overflow),
        Op::Sub => m.checked_sub(n).ok_or(ExprFault::Overflow),
        Op::Shl => {
            let count = shift_count(n).ok_or(ExprFault::Shift)?;
            shifted_left(m, count).ok_or(ExprFault::Overflow)
        }
        Op::Shr => {
            let count = shift_count(n).ok_or(ExprFault::Shift)?;
            Ok(shifted_right(m, count))
        }
        Op::BitAnd => Ok(m & n),
        Op::BitXor => Ok(m ^ n),
        Op::BitOr => Ok(m | n),
        _ => Err(ExprFault::NotNumber),
    }
}
