//! Expressions that are evaluated at once: those that can't be suspended.

ghost use Rattle.std.specs.Prelude.{◌≡◌, IfOk, IfSome, Some};
ghost use Rattle.txt_core.specs.Truth.{truth};
ghost use Rattle.tcl_expr.specs.View.{tree_of};
ghost use Rattle.tcl_expr.specs.Trees.{unary, binary, choice};
ghost use Rattle.tcl_host.specs.Codes as code_of;
ghost use Rattle.tcl_eval.specs.Results.{ended};
ghost use Rattle.tcl_eval.specs.Expressions.{way_of};
ghost use Rattle.tcl_eval.specs.AtOnce.{HasTruth, on_truth, right_at_once, left_at_once, at_once};

use crate::operation::{behind_left, way_of, with_one, with_two};
use crate::place::only_pieces;
use crate::simple::{ready_text, simple_word};
use crate::stack::Ended;
use crate::value::no_truth;
use std::alloc::Global;
use tcl_expr::{Expr, Op, comparison_holds};
use tcl_frame::Frames;
use tcl_host::OK;
use txt_core::{NoMemory, Text, read_truth};

/// The value of an expression that is a literal, or a word of bytes alone or of a variable alone, which is
/// there, without a copy. Of any other one this says nothing.
#[inline(always)]
pub(crate) fn leaf<'a>(frames: &'a Frames, expr: &'a Expr) -> Option<&'a Text>
    ensures { IfSome result (λ text.
        at_once frames.now (tree_of expr.now) ≡ Some (ended code_of.ok text.now)) }
{
    match expr {
        Expr::Value(text) => Some(text),
        Expr::Word(word) => ready_text(frames, only_pieces(word)),
        Expr::Unary(_, _) => None,
        Expr::Binary(_, _, _) => None,
        Expr::Choice(_, _, _) => None,
    }
}

/// Whether a comparison holds between two operands, each a literal or a variable that is there. Of any
/// other operator or operand this says nothing.
#[inline(always)]
fn compared_leaves(frames: &Frames, op: Op, left: &Expr, right: &Expr) -> Option<bool>
    ensures { IfSome result (λ holds.
        HasTruth (at_once frames.now (binary op (tree_of left.now) (tree_of right.now))) holds) }
{
    let left = leaf(frames, left)?;
    let right = leaf(frames, right)?;
    comparison_holds(op, left, right)
}

/// The truth of the value of an expression that is a literal, a variable that is there, or a comparison of
/// two such, for which no value is made. Of any other one, and of a value that has no truth, this says
/// nothing.
#[inline(always)]
pub(crate) fn simple_truth(frames: &Frames, expr: &Expr) -> Option<bool>
    ensures { IfSome result (λ holds. HasTruth (at_once frames.now (tree_of expr.now)) holds) }
{
    match expr {
        Expr::Binary(op, left, right) => compared_leaves(frames, *op, left, right),
        _ => {
            let value = leaf(frames, expr)?;
            read_truth(value)
        }
    }
}

/// What an expression comes to that has neither a bracket nor an element, and whose parts don't stand
/// deeper in one another than there is room. Of any other one this says nothing.
#[cycle(simple)]
#[tactic(auto, using(crate::proofs::Values::good_end, crate::proofs::Values::bad_end))]
pub fn simple_value(
    alloc: Global,
    frames: &Frames,
    expr: &Expr,
    room: u32,
) -> Result<Option<Ended>, NoMemory>
    ensures { IfOk result (λ found.
        IfSome found (λ value. at_once frames.now (tree_of expr.now) ≡ Some value)) }
{
    if room == 0 {
        return Ok(None);
    }
    match expr {
        Expr::Value(text) => {
            let result = text.copy(alloc)?;
            Ok(Some(Ended { code: OK, result }))
        }
        Expr::Word(word) => {
            let found = simple_word(alloc, frames, only_pieces(word))?;
            Ok(found)
        }
        Expr::Unary(op, operand) => {
            let found = simple_unary(alloc, frames, *op, operand, room - 1)?;
            Ok(found)
        }
        Expr::Binary(op, left, right) => {
            let found = simple_binary(alloc, frames, *op, left, right, room - 1)?;
            Ok(found)
        }
        Expr::Choice(test, first, second) => {
            let found = simple_choice(alloc, frames, test, first, second, room - 1)?;
            Ok(found)
        }
    }
}

/// An operator before its operand.
#[cycle(simple)]
#[tactic(auto, using(crate::proofs::Values::good_end, crate::proofs::Values::bad_end))]
fn simple_unary(
    alloc: Global,
    frames: &Frames,
    op: Op,
    operand: &Expr,
    room: u32,
) -> Result<Option<Ended>, NoMemory>
    ensures { IfOk result (λ found.
        IfSome found (λ value. at_once frames.now (unary op (tree_of operand.now)) ≡ Some value)) }
{
    if let Some(text) = leaf(frames, operand) {
        let value = with_one(alloc, op, text)?;
        return Ok(Some(value));
    }
    match simple_value(alloc, frames, operand, room)? {
        None => Ok(None),
        Some(value) => {
            if value.code != OK {
                return Ok(Some(value));
            }
            let value = with_one(alloc, op, &value.result)?;
            Ok(Some(value))
        }
    }
}

/// An operator between its operands.
#[cycle(simple)]
#[tactic(auto, using(crate::proofs::Values::good_end, crate::proofs::Values::bad_end))]
fn simple_binary(
    alloc: Global,
    frames: &Frames,
    op: Op,
    left: &Expr,
    right: &Expr,
    room: u32,
) -> Result<Option<Ended>, NoMemory>
    ensures { IfOk result (λ found.
        IfSome found (λ value.
        at_once frames.now (binary op (tree_of left.now) (tree_of right.now)) ≡ Some value)) }
{
    if let Some(text) = leaf(frames, left) {
        let found = simple_left(alloc, frames, op, text, right, room)?;
        return Ok(found);
    }
    match simple_value(alloc, frames, left, room)? {
        None => Ok(None),
        Some(value) => {
            if value.code != OK {
                return Ok(Some(value));
            }
            let found = simple_left(alloc, frames, op, &value.result, right, room)?;
            Ok(found)
        }
    }
}

/// An operator behind its left operand, which has this value.
#[cycle(simple)]
#[tactic(auto, using(crate::proofs::Values::good_end, crate::proofs::Values::bad_end))]
fn simple_left(
    alloc: Global,
    frames: &Frames,
    op: Op,
    left: &Text,
    right: &Expr,
    room: u32,
) -> Result<Option<Ended>, NoMemory>
    ensures { IfOk result (λ found.
        IfSome found (λ value.
        left_at_once (way_of op) op left.now (at_once frames.now (tree_of right.now))
        ≡ Some value)) }
{
    match behind_left(alloc, way_of(op), left)? {
        Some(value) => Ok(Some(value)),
        None => {
            let found = simple_right(alloc, frames, op, left, right, room)?;
            Ok(found)
        }
    }
}

/// An operator whose left operand has this value, and whose right one is evaluated.
#[cycle(simple)]
#[tactic(auto, using(crate::proofs::Values::good_end, crate::proofs::Values::bad_end))]
fn simple_right(
    alloc: Global,
    frames: &Frames,
    op: Op,
    left: &Text,
    right: &Expr,
    room: u32,
) -> Result<Option<Ended>, NoMemory>
    ensures { IfOk result (λ found.
        IfSome found (λ value.
        right_at_once op left.now (at_once frames.now (tree_of right.now)) ≡ Some value)) }
{
    if let Some(text) = leaf(frames, right) {
        let value = with_two(alloc, op, left, text)?;
        return Ok(Some(value));
    }
    match simple_value(alloc, frames, right, room)? {
        None => Ok(None),
        Some(value) => {
            if value.code != OK {
                return Ok(Some(value));
            }
            let value = with_two(alloc, op, left, &value.result)?;
            Ok(Some(value))
        }
    }
}

/// A choice.
#[cycle(simple)]
#[tactic(auto, using(crate::proofs::Values::good_end, crate::proofs::Values::bad_end))]
fn simple_choice(
    alloc: Global,
    frames: &Frames,
    test: &Expr,
    first: &Expr,
    second: &Expr,
    room: u32,
) -> Result<Option<Ended>, NoMemory>
    ensures { IfOk result (λ found.
        IfSome found (λ value.
        at_once frames.now (choice (tree_of test.now) (tree_of first.now) (tree_of second.now))
        ≡ Some value)) }
{
    match simple_truth(frames, test) {
        Some(true) => {
            let found = simple_value(alloc, frames, first, room)?;
            Ok(found)
        }
        Some(false) => {
            let found = simple_value(alloc, frames, second, room)?;
            Ok(found)
        }
        None => {
            let found = simple_tested(alloc, frames, test, first, second, room)?;
            Ok(found)
        }
    }
}

/// A choice whose condition has to be evaluated.
#[cycle(simple)]
#[tactic(auto, using(crate::proofs::Values::good_end, crate::proofs::Values::bad_end))]
fn simple_tested(
    alloc: Global,
    frames: &Frames,
    test: &Expr,
    first: &Expr,
    second: &Expr,
    room: u32,
) -> Result<Option<Ended>, NoMemory>
    ensures { IfOk result (λ found.
        IfSome found (λ value.
        at_once frames.now (choice (tree_of test.now) (tree_of first.now) (tree_of second.now))
        ≡ Some value)) }
{
    match simple_value(alloc, frames, test, room)? {
        None => Ok(None),
        Some(value) => {
            if value.code != OK {
                return Ok(Some(value));
            }
            let found = simple_chosen(alloc, frames, &value.result, first, second, room)?;
            Ok(found)
        }
    }
}

/// The part of a choice that is chosen by this value.
#[cycle(simple)]
#[tactic(auto, using(crate::proofs::Values::good_end, crate::proofs::Values::bad_end))]
fn simple_chosen(
    alloc: Global,
    frames: &Frames,
    value: &Text,
    first: &Expr,
    second: &Expr,
    room: u32,
) -> Result<Option<Ended>, NoMemory>
    ensures { IfOk result (λ found.
        IfSome found (λ ended.
        on_truth (truth value.now) value.now (at_once frames.now (tree_of first.now))
        (at_once frames.now (tree_of second.now))
        ≡ Some ended)) }
{
    match read_truth(value) {
        None => Ok(Some(no_truth(alloc, value)?)),
        Some(true) => {
            let found = simple_value(alloc, frames, first, room)?;
            Ok(found)
        }
        Some(false) => {
            let found = simple_value(alloc, frames, second, room)?;
            Ok(found)
        }
    }
}
