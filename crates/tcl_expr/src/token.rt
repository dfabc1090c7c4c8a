//! What stands between operands, and where it stands.

ghost use Rattle.std.specs.Prelude.{◌≡◌, ◌<◌, ◌≤◌, length, IfSome};
ghost use Rattle.std.specs.Option.{option_map};
ghost use Rattle.txt_core.specs.Number.{trimmed_front};
ghost use Rattle.tcl_expr.specs.Tokens.{double, single, sign, level, Binds, operator_at, next_operator, next_sign, next_question, next_colon, stuck};

use crate::operator::Op;
use txt_core::trim_front;

/// Passes over blanks and newlines.
#[tactic(auto, using(crate::specs::Laws::Fits::trimmed_within))]
pub fn skip(bytes: &[u8]) -> &[u8]
    ensures same { result.now ≡ trimmed_front bytes.now }
    ensures shorter { length result.now ≤ length bytes.now }
{
    trim_front(bytes)
}

/// The binary operator that two bytes spell.
fn double(first: u8, second: u8) -> Option<Op>
    ensures same { result ≡ double first second }
    ensures binds { IfSome result Binds }
{
    match (first, second) {
        (b'<', b'<') => Some(Op::Shl),
        (b'>', b'>') => Some(Op::Shr),
        (b'<', b'=') => Some(Op::Le),
        (b'>', b'=') => Some(Op::Ge),
        (b'=', b'=') => Some(Op::EqNumber),
        (b'!', b'=') => Some(Op::NeNumber),
        (b'e', b'q') => Some(Op::EqText),
        (b'n', b'e') => Some(Op::NeText),
        (b'&', b'&') => Some(Op::And),
        (b'|', b'|') => Some(Op::Or),
        _ => None,
    }
}

/// The binary operator that one byte spells.
fn single(byte: u8) -> Option<Op>
    ensures same { result ≡ single byte }
    ensures binds { IfSome result Binds }
{
    match byte {
        b'*' => Some(Op::Mul),
        b'/' => Some(Op::Div),
        b'%' => Some(Op::Rem),
        b'+' => Some(Op::Add),
        b'-' => Some(Op::Sub),
        b'<' => Some(Op::Lt),
        b'>' => Some(Op::Gt),
        b'&' => Some(Op::BitAnd),
        b'^' => Some(Op::BitXor),
        b'|' => Some(Op::BitOr),
        _ => None,
    }
}

/// The unary operator that a byte spells.
fn sign(byte: u8) -> Option<Op>
    ensures { result ≡ sign byte }
{
    match byte {
        b'-' => Some(Op::Minus),
        b'+' => Some(Op::Plus),
        b'~' => Some(Op::Invert),
        b'!' => Some(Op::Not),
        _ => None,
    }
}

/// How loosely an operator binds: 0 for a unary one, 1 to 11 for a binary one.
pub fn level(op: Op) -> u8
    ensures { result ≡ level op }
{
    match op {
        Op::Minus | Op::Plus | Op::Invert | Op::Not => 0,
        Op::Mul | Op::Div | Op::Rem => 1,
        Op::Add | Op::Sub => 2,
        Op::Shl | Op::Shr => 3,
        Op::Lt | Op::Gt | Op::Le | Op::Ge => 4,
        Op::EqNumber | Op::NeNumber => 5,
        Op::EqText | Op::NeText => 6,
        Op::BitAnd => 7,
        Op::BitXor => 8,
        Op::BitOr => 9,
        Op::And => 10,
        Op::Or => 11,
    }
}

/// The binary operator at the front, and what is left behind it.
fn operator(bytes: &[u8]) -> Option<(Op, &[u8])>
    ensures same { option_map (λ x. (x.0, x.1.now)) result ≡ operator_at bytes.now }
    ensures binds { IfSome result (λ x. Binds x.0) }
    ensures shorter { IfSome result (λ x. length x.1.now < length bytes.now) }
{
    let (first, tail) = bytes.split_first()?;
    if let Some((second, rest)) = tail.split_first() {
        if let Some(op) = double(*first, *second) {
            return Some((op, rest));
        }
    }
    let op = single(*first)?;
    Some((op, tail))
}

/// The binary operator at the front, with how many operators may still come behind it, and what is
/// left behind it and the blanks after it.
pub fn next_operator(left: u32, bytes: &[u8]) -> Option<(Op, u32, &[u8])>
    ensures same { option_map (λ x. (x.0, x.1, x.2.now)) result ≡ next_operator left bytes.now }
    ensures binds { IfSome result (λ x. Binds x.0) }
    ensures shorter { IfSome result (λ x. length x.2.now < length bytes.now) }
{
    if left == 0 {
        return None;
    }
    let (op, rest) = operator(bytes)?;
    Some((op, left - 1, skip(rest)))
}

/// The same of a unary operator.
pub fn next_sign(left: u32, bytes: &[u8]) -> Option<(Op, u32, &[u8])>
    ensures same { option_map (λ x. (x.0, x.1, x.2.now)) result ≡ next_sign left bytes.now }
    ensures shorter { IfSome result (λ x. length x.2.now < length bytes.now) }
{
    if left == 0 {
        return None;
    }
    let (byte, rest) = bytes.split_first()?;
    let op = sign(*byte)?;
    Some((op, left - 1, skip(rest)))
}

/// The same of a question mark.
pub fn next_question(left: u32, bytes: &[u8]) -> Option<(u32, &[u8])>
    ensures same { option_map (λ x. (x.0, x.1.now)) result ≡ next_question left bytes.now }
    ensures shorter { IfSome result (λ x. length x.1.now < length bytes.now) }
{
    if left == 0 {
        return None;
    }
    match bytes.split_first() {
        Some((b'?', rest)) => Some((left - 1, skip(rest))),
        _ => None,
    }
}

/// What is left behind a colon at the front and the blanks after it.
pub fn next_colon(bytes: &[u8]) -> Option<&[u8]>
    ensures same { option_map (λ x. x.now) result ≡ next_colon bytes.now }
    ensures shorter { IfSome result (λ x. length x.now < length bytes.now) }
{
    match bytes.split_first() {
        Some((b':', rest)) => Some(skip(rest)),
        _ => None,
    }
}

/// How many bytes are left from the first one on that can't go on behind a whole operand.
pub fn stuck(left: u32, bytes: &[u8]) -> usize
    ensures { result ≡ stuck left bytes.now }
{
    if left > 0 {
        if let Some((b'=' | b'!' | b'e' | b'n', rest)) = bytes.split_first() {
            return rest.len();
        }
    }
    bytes.len()
}
