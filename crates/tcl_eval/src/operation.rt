//! What operators of expressions give.

ghost use Rattle.std.specs.Prelude.{◌≡◌, IfOk};
ghost use Rattle.tcl_host.specs.Codes as code_of;
ghost use Rattle.tcl_eval.specs.AtOnce.{left_alone};
ghost use Rattle.tcl_eval.specs.Expressions.{way_of, with_one, with_two};
ghost use Rattle.tcl_eval.specs.Results.{ended};

use crate::message::operator_fault;
use crate::stack::Ended;
use crate::value::{error, no_truth};
use std::alloc::Global;
use tcl_expr::{ExprFault, Op, apply_binary, apply_unary};
use tcl_host::OK;
use txt_core::{NoMemory, Text, read_truth};

/// When the right operand of an operator is evaluated.
#[derive(Clone, Copy, Debug, PartialEq, Eq)]
pub enum Way {
    /// Always.
    Both,
    /// Only where the left operand is true.
    IfTrue,
    /// Only where the left operand is false.
    IfFalse,
}

/// When the right operand of an operator is evaluated.
pub fn way_of(op: Op) -> Way
    ensures { result ≡ way_of op }
{
    match op {
        Op::And => Way::IfTrue,
        Op::Or => Way::IfFalse,
        _ => Way::Both,
    }
}

/// This text as a value.
fn value_of(alloc: Global, text: &[u8]) -> Result<Ended, NoMemory>
    ensures { IfOk result (λ value. value ≡ ended code_of.ok text.now) }
{
    let result = Text::new(alloc, text)?;
    Ok(Ended { code: OK, result })
}

/// What an operator comes to by its left operand alone: one that decides, or that has no truth; `None` where
/// the right one is evaluated.
#[inline(always)]
pub fn behind_left(alloc: Global, way: Way, left: &Text) -> Result<Option<Ended>, NoMemory>
    ensures { IfOk result (λ found. found ≡ left_alone way left.now) }
{
    match way {
        Way::Both => Ok(None),
        Way::IfTrue => match read_truth(left) {
            None => Ok(Some(no_truth(alloc, left)?)),
            Some(true) => Ok(None),
            Some(false) => Ok(Some(value_of(alloc, b"0")?)),
        },
        Way::IfFalse => match read_truth(left) {
            None => Ok(Some(no_truth(alloc, left)?)),
            Some(true) => Ok(Some(value_of(alloc, b"1")?)),
            Some(false) => Ok(None),
        },
    }
}

/// What an operator before one operand gives: a value, or the error of its fault.
pub fn with_one(alloc: Global, op: Op, operand: &Text) -> Result<Ended, NoMemory>
    ensures { IfOk result (λ value. value ≡ with_one op operand.now) }
{
    match apply_unary(alloc, op, operand) {
        Ok(result) => Ok(Ended { code: OK, result }),
        Err(ExprFault::NoMemory) => Err(NoMemory),
        Err(why) => error(alloc, operator_fault(alloc, why, op, operand.bytes())?),
    }
}

/// What an operator between two operands gives: a value, or the error of its fault. Where it wants
/// truths, the left operand has one.
pub fn with_two(alloc: Global, op: Op, left: &Text, right: &Text) -> Result<Ended, NoMemory>
    ensures { IfOk result (λ value. value ≡ with_two op left.now right.now) }
{
    match apply_binary(alloc, op, left, right) {
        Ok(result) => Ok(Ended { code: OK, result }),
        Err(ExprFault::NoMemory) => Err(NoMemory),
        Err(why) => error(alloc, operator_fault(alloc, why, op, right.bytes())?),
    }
}
