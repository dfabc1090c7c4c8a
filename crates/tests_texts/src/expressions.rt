//! Expressions: their values, faults and bad places.

use std::alloc::Global;
use tcl_expr::{
    Expr, ExprFault, ExprText, Op, apply_binary, apply_unary, expression_value, parse_expr,
};
use tcl_parse::{Piece, Script};
use test_rows::{Answer, find};
use txt_core::{Text, read_truth};

/// The pieces of the only word of a script.
fn pieces_of(word: &Script) -> &[Piece] {
    match word.commands.as_slice().first() {
        None => &[],
        Some(command) => match command.words.as_slice().first() {
            None => &[],
            Some(word) => word.pieces.as_slice(),
        },
    }
}

/// The bytes of a word without substitutions.
fn word_text(alloc: Global, pieces: &[Piece]) -> Result<Text, ExprFault> {
    let mut text = Text::empty(alloc);
    for piece in pieces {
        if let Piece::Bytes(bytes) = piece {
            text.append(bytes.bytes())?;
        }
    }
    Ok(text)
}

/// The value of an expression without substitutions, all of whose parts are evaluated.
fn evaluated(alloc: Global, expr: &Expr) -> Result<Text, ExprFault> {
    match expr {
        Expr::Value(text) => Ok(Text::new(alloc, text.bytes())?),
        Expr::Word(word) => word_text(alloc, pieces_of(word)),
        Expr::Unary(op, x) => apply_unary(alloc, *op, &evaluated(alloc, x)?),
        Expr::Binary(op, x, y) => {
            let x = evaluated(alloc, x)?;
            apply_binary(alloc, *op, &x, &evaluated(alloc, y)?)
        }
        Expr::Choice(test, x, y) => {
            match read_truth(&evaluated(alloc, test)?).ok_or(ExprFault::NotBoolean)? {
                true => evaluated(alloc, x),
                false => evaluated(alloc, y),
            }
        }
    }
}

/// How a fault is named.
fn fault_name(fault: ExprFault) -> &'static [u8] {
    match fault {
        ExprFault::NotNumber => b"NotNumber",
        ExprFault::NotBoolean => b"NotBoolean",
        ExprFault::Overflow => b"Overflow",
        ExprFault::DivZero => b"DivZero",
        ExprFault::Shift => b"Shift",
        ExprFault::NoMemory => b"NoMemory",
    }
}

/// Adds the value of an expression, or its fault.
fn add_value(value: &Result<Text, ExprFault>, out: &mut Answer) {
    match value {
        Ok(value) => out.add_made(&expression_value(out.alloc(), value)),
        Err(fault) => out.add(fault_name(*fault)),
    }
}

/// Adds what a text is: the value of the expression, its fault or its bad place.
pub fn value(text: &Text, out: &mut Answer) {
    match parse_expr(out.alloc(), text) {
        Err(ExprText::NoMemory) => out.lack_memory(),
        Err(ExprText::Bad { at }) => {
            out.add(b"Bad ");
            out.add_number(at);
        }
        Ok(expr) => add_value(&evaluated(out.alloc(), &expr), out),
    }
}

/// Operators by their names.
const OPERATORS: &[(&str, Op)] = &[
    ("Minus", Op::Minus),
    ("Plus", Op::Plus),
    ("Invert", Op::Invert),
    ("Not", Op::Not),
    ("Mul", Op::Mul),
    ("EqText", Op::EqText),
    ("And", Op::And),
];

/// Adds the value of an operator with one operand.
pub fn unary(name: &Text, x: &Text, out: &mut Answer) {
    match find(OPERATORS, name.bytes()) {
        Some(op) => add_value(&apply_unary(out.alloc(), op, x), out),
        None => out.add(b"no operator"),
    }
}

/// Adds the value of an operator with two operands.
pub fn binary(name: &Text, x: &Text, y: &Text, out: &mut Answer) {
    match find(OPERATORS, name.bytes()) {
        Some(op) => add_value(&apply_binary(out.alloc(), op, x, y), out),
        None => out.add(b"no operator"),
    }
}
