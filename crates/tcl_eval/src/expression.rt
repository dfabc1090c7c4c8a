//! Expressions under way.

ghost use Rattle.std.specs.Prelude.{◌≡◌, ◌<◌, ◌≤◌, ◌+◌, IfOk, IfSome, OnOk, Option};
ghost use Rattle.txt_core.specs.Names.{Names};
ghost use Rattle.tcl_expr.specs.Trees.{binary, choice};
ghost use Rattle.tcl_expr.specs.View.{tree_of};
ghost use Rattle.tcl_host.specs.Codes as code_of;
ghost use Rattle.tcl_eval.specs.Eval.{nested, ended, give};
ghost use Rattle.tcl_eval.specs.Expressions.{behind_left, run_expression, evaluate, do_expr, whole_value};
ghost use Rattle.tcl_eval.specs.Places.{tree_size};
ghost use Rattle.tcl_eval.specs.Stack.{frame_next, frame_weight, step_weight, frame_free, step_free};
ghost use Rattle.tcl_eval.specs.Engine.{Holds, Same, Stays, Keeps, Opens, Enters, Lower, credit};
ghost use Rattle.tcl_eval.specs.Clauses.{ActsAs, GivesFrame, IsLighter, IsNoHeavier, StepIs};
ghost use Rattle.tcl_eval.specs.declared.stack.Frame.{Frame};
ghost use Rattle.tcl_eval.specs.declared.stack.Step.{Step};

use crate::cost::EVALUATION_COST;
use crate::engine::Engine;
use crate::evaluation::shared_bracket;
use crate::expr_reading::ExprReading;
use crate::gather::SoFar;
use crate::message::bad_expression;
use crate::operation::{Way, behind_left, way_of, with_one, with_two};
use crate::place::{first_piece, only_pieces};
use crate::read_expr::ReadExpr;
use crate::simple_value::{leaf, simple_value};
use crate::stack::{Acted, Ended, Frame, Step};
use crate::value::{done, error, no_truth, wrong_words};
use crate::words::{behind_name, joined};
use std::alloc::Global;
use std::rc::Rc;
use tcl_expr::{Expr, Op, expression_value};
use tcl_host::{Host, OK};
use tcl_parse::Script;
use txt_core::{NoMemory, Text, Words, read_truth};

/// How deep parts of an expression may stand in one another that is evaluated at once.
pub(crate) const MOST_AT_ONCE: u32 = 60;

/// What an `expr` comes to whose expression came to this.
#[inline(always)]
pub(crate) fn value_ended(alloc: Global, value: Ended) -> Result<Ended, NoMemory>
    ensures { IfOk result (λ ended. ended ≡ whole_value value.code value.result) }
{
    if value.code != OK {
        return Ok(value);
    }
    Ok(Ended {
        code: OK,
        result: expression_value(alloc, &value.result)?,
    })
}

#[tactic(auto, using(crate::proofs::Stacks::frees_push))]
impl<H: Host> Engine<H> {
    /// Goes on with a word of an expression.
    fn enter_operand(&self, word: &Rc<Script>, levels: u32) -> Result<Step, NoMemory>
        ensures means { IfOk result (λ step.
            (names : Names)
            → StepIs names H.table step self.now self.now
            (run_expression (nested names H.table levels) (tree_of (Expr.Word word.now)))) }
        ensures weighs { IfOk result (λ step.
            step_weight step < tree_size (tree_of (Expr.Word word.now))) }
        ensures free { IfOk result (λ step. step_free step ≡ 0) }
    {
        match shared_bracket(only_pieces(word))? {
            None => {
                let word = word.clone()?;
                Ok(Step::Pieces {
                    place: first_piece(self.alloc, word),
                    so_far: SoFar::Kept(Text::empty(self.alloc)),
                    levels,
                })
            }
            Some(script) => Ok(Step::Bracket { script, levels }),
        }
    }

    /// Goes on with an expression that is a literal, a variable alone or another word; `None` for any other
    /// one.
    fn leaf_step(&self, part: &Expr, levels: u32) -> Result<Option<Step>, NoMemory>
        ensures means { IfOk result (λ found.
            IfSome found (λ step. (names : Names)
            → StepIs names H.table step self.now self.now
            (run_expression (nested names H.table levels) (tree_of part.now)))) }
        ensures weighs { IfOk result (λ found.
            IfSome found (λ step. step_weight step < tree_size (tree_of part.now))) }
        ensures free { IfOk result (λ found. IfSome found (λ step. step_free step ≡ 0)) }
    {
        if let Some(text) = leaf(&self.frames, part) {
            let result = text.copy(self.alloc)?;
            return Ok(Some(Step::Value(Ended { code: OK, result })));
        }
        match part {
            Expr::Word(word) => {
                let step = self.enter_operand(word, levels)?;
                Ok(Some(step))
            }
            Expr::Value(_) | Expr::Unary(..) | Expr::Binary(..) | Expr::Choice(..) => Ok(None),
        }
    }

    /// Goes on with a part of an expression, for whose value this frame waits.
    fn enter_part(&mut self, frame: Frame, part: Rc<Expr>, levels: u32) -> Result<Step, NoMemory>
        ensures means { IfOk result (λ step.
            (names : Names)
            → StepIs names H.table step self.new self.old (λ k.
            run_expression (nested names H.table levels) (tree_of part.value)
            (frame_next names H.table frame k))) }
        ensures weighs { IfOk result (λ step.
            IsNoHeavier step self.new self.old
            (frame_weight frame + tree_size (tree_of part.value))) }
        ensures keeps { IfOk result (λ step. frame_free frame ≡ 0 → Stays step self.new self.old) }
        ensures holds { Holds self.new self.old }
    {
        self.stack.push(frame)?;
        let found = self.leaf_step(&part, levels)?;
        match found {
            Some(step) => Ok(step),
            None => {
                self.stack.push(Frame::Expression { expr: part, levels })?;
                Ok(Step::Value(done(self.alloc)))
            }
        }
    }

    /// Goes on with the left operand of an operator.
    fn enter_left(
        &mut self,
        op: Op,
        left: &Rc<Expr>,
        right: &Rc<Expr>,
        levels: u32,
    ) -> Result<Step, NoMemory>
        ensures means { IfOk result (λ step.
            (names : Names)
            → StepIs names H.table step self.new self.old
            (run_expression (nested names H.table levels)
            (binary op (tree_of left.now.value) (tree_of right.now.value)))) }
        ensures weighs { IfOk result (λ step.
            IsLighter step self.new self.old
            (tree_size (binary op (tree_of left.now.value) (tree_of right.now.value)))) }
        ensures keeps { IfOk result (λ step. Stays step self.new self.old) }
        ensures holds { Holds self.new self.old }
    {
        let left = left.clone()?;
        let right = right.clone()?;
        let step = self.enter_part(Frame::Left { op, right, levels }, left, levels)?;
        Ok(step)
    }

    /// Goes on with the test of a choice.
    fn enter_test(
        &mut self,
        test: &Rc<Expr>,
        first: &Rc<Expr>,
        second: &Rc<Expr>,
        levels: u32,
    ) -> Result<Step, NoMemory>
        ensures means { IfOk result (λ step.
            (names : Names)
            → StepIs names H.table step self.new self.old
            (run_expression (nested names H.table levels)
            (choice (tree_of test.now.value) (tree_of first.now.value) (tree_of
            second.now.value)))) }
        ensures weighs { IfOk result (λ step.
            IsLighter step self.new self.old
            (tree_size
            (choice (tree_of test.now.value) (tree_of first.now.value) (tree_of
            second.now.value)))) }
        ensures keeps { IfOk result (λ step. Stays step self.new self.old) }
        ensures holds { Holds self.new self.old }
    {
        let test = test.clone()?;
        let frame = Frame::Choice {
            first: first.clone()?,
            second: second.clone()?,
            levels,
        };
        let step = self.enter_part(frame, test, levels)?;
        Ok(step)
    }

    /// Evaluates an expression.
    #[inline(never)]
    pub(crate) fn give_expression(
        &mut self,
        expr: Rc<Expr>,
        levels: u32,
        value: Ended,
    ) -> Result<Step, NoMemory>
        ensures means { IfOk result (λ step.
            (names : Names)
            → GivesFrame names H.table step (Frame.Expression expr levels) value self.new
            self.old) }
        ensures falls { IfOk result (λ step.
            IsLighter step self.new self.old (frame_weight (Frame.Expression expr levels))) }
        ensures keeps { IfOk result (λ step. Stays step self.new self.old) }
        ensures holds { Holds self.new self.old }
    {
        if value.code != OK {
            return Ok(Step::Value(value));
        }
        match &*expr {
            Expr::Value(text) => {
                let result = text.copy(self.alloc)?;
                Ok(Step::Value(Ended { code: OK, result }))
            }
            Expr::Word(word) => {
                let step = self.enter_operand(word, levels)?;
                Ok(step)
            }
            Expr::Unary(op, operand) => {
                let operand = operand.clone()?;
                let step = self.enter_part(Frame::Operation { op: *op }, operand, levels)?;
                Ok(step)
            }
            Expr::Binary(op, left, right) => {
                let step = self.enter_left(*op, left, right, levels)?;
                Ok(step)
            }
            Expr::Choice(test, first, second) => {
                let step = self.enter_test(test, first, second, levels)?;
                Ok(step)
            }
        }
    }

    /// Applies an operator to its operand.
    #[inline(never)]
    pub(crate) fn give_operation(&self, op: Op, value: Ended) -> Result<Step, NoMemory>
        ensures means { IfOk result (λ step.
            (names : Names)
            → GivesFrame names H.table step (Frame.Operation op) value self.now self.now) }
        ensures light { IfOk result (λ step. step_weight step + step_free step ≡ 0) }
    {
        if value.code != OK {
            return Ok(Step::Value(value));
        }
        Ok(Step::Value(with_one(self.alloc, op, &value.result)?))
    }

    /// Goes on with the right operand of an operator.
    fn enter_right(
        &mut self,
        op: Op,
        left: Text,
        right: Rc<Expr>,
        levels: u32,
    ) -> Result<Step, NoMemory>
        ensures means { IfOk result (λ step.
            (names : Names)
            → StepIs names H.table step self.new self.old (λ k.
            run_expression (nested names H.table levels) (tree_of right.value)
            (frame_next names H.table (Frame.Right op left) k))) }
        ensures weighs { IfOk result (λ step.
            IsLighter step self.new self.old (frame_weight (Frame.Left op right levels))) }
        ensures keeps { IfOk result (λ step. Stays step self.new self.old) }
        ensures holds { Holds self.new self.old }
    {
        let step = self.enter_part(Frame::Right { op, left }, right, levels)?;
        Ok(step)
    }

    /// Goes on with the right operand of an operator, where the left one asks for it.
    fn enter_behind(
        &mut self,
        way: Way,
        op: Op,
        left: Text,
        right: Rc<Expr>,
        levels: u32,
    ) -> Result<Step, NoMemory>
        ensures means { IfOk result (λ step.
            (names : Names)
            → StepIs names H.table step self.new self.old (λ k.
            behind_left way left
            (run_expression (nested names H.table levels) (tree_of right.value)
            (frame_next names H.table (Frame.Right op left) k)) k)) }
        ensures weighs { IfOk result (λ step.
            IsLighter step self.new self.old (frame_weight (Frame.Left op right levels))) }
        ensures keeps { IfOk result (λ step. Stays step self.new self.old) }
        ensures holds { Holds self.new self.old }
    {
        match behind_left(self.alloc, way, &left)? {
            None => {
                let step = self.enter_right(op, left, right, levels)?;
                Ok(step)
            }
            Some(value) => Ok(Step::Value(value)),
        }
    }

    /// Goes on behind the left operand of an operator.
    #[inline(never)]
    pub(crate) fn give_left(
        &mut self,
        op: Op,
        right: Rc<Expr>,
        levels: u32,
        value: Ended,
    ) -> Result<Step, NoMemory>
        ensures means { IfOk result (λ step.
            (names : Names)
            → GivesFrame names H.table step (Frame.Left op right levels) value self.new self.old) }
        ensures falls { IfOk result (λ step.
            IsLighter step self.new self.old (frame_weight (Frame.Left op right levels))) }
        ensures keeps { IfOk result (λ step. Stays step self.new self.old) }
        ensures holds { Holds self.new self.old }
    {
        if value.code != OK {
            return Ok(Step::Value(value));
        }
        let step = self.enter_behind(way_of(op), op, value.result, right, levels)?;
        Ok(step)
    }

    /// Applies an operator to its operands.
    #[inline(never)]
    pub(crate) fn give_right(&self, op: Op, left: Text, value: Ended) -> Result<Step, NoMemory>
        ensures means { IfOk result (λ step.
            (names : Names)
            → GivesFrame names H.table step (Frame.Right op left) value self.now self.now) }
        ensures light { IfOk result (λ step. step_weight step + step_free step ≡ 0) }
    {
        if value.code != OK {
            return Ok(Step::Value(value));
        }
        Ok(Step::Value(with_two(self.alloc, op, &left, &value.result)?))
    }

    /// Goes on with a part of an expression, whose value is that of the whole.
    fn enter_chosen(&mut self, part: Rc<Expr>, levels: u32) -> Result<Step, NoMemory>
        ensures means { IfOk result (λ step.
            (names : Names)
            → StepIs names H.table step self.new self.old
            (run_expression (nested names H.table levels) (tree_of part.value))) }
        ensures weighs { IfOk result (λ step.
            IsNoHeavier step self.new self.old (tree_size (tree_of part.value))) }
        ensures keeps { IfOk result (λ step. Stays step self.new self.old) }
        ensures holds { Holds self.new self.old }
    {
        self.stack.push(Frame::Expression { expr: part, levels })?;
        Ok(Step::Value(done(self.alloc)))
    }

    /// Goes on with the part that is chosen.
    #[inline(never)]
    pub(crate) fn give_choice(
        &mut self,
        first: Rc<Expr>,
        second: Rc<Expr>,
        levels: u32,
        value: Ended,
    ) -> Result<Step, NoMemory>
        ensures means { IfOk result (λ step.
            (names : Names)
            → GivesFrame names H.table step (Frame.Choice first second levels) value self.new
            self.old) }
        ensures falls { IfOk result (λ step.
            IsLighter step self.new self.old (frame_weight (Frame.Choice first second levels))) }
        ensures keeps { IfOk result (λ step. Stays step self.new self.old) }
        ensures holds { Holds self.new self.old }
    {
        if value.code != OK {
            return Ok(Step::Value(value));
        }
        match read_truth(&value.result) {
            None => {
                let ended = no_truth(self.alloc, &value.result)?;
                Ok(Step::Value(ended))
            }
            Some(true) => {
                let step = self.enter_chosen(first, levels)?;
                Ok(step)
            }
            Some(false) => {
                let step = self.enter_chosen(second, levels)?;
                Ok(step)
            }
        }
    }

    /// Ends an `expr`.
    #[inline(never)]
    pub(crate) fn give_value(&self, value: Ended) -> Result<Step, NoMemory>
        ensures means { IfOk result (λ step.
            (names : Names)
            → GivesFrame names H.table step Frame.Value value self.now self.now) }
        ensures light { IfOk result (λ step. step_weight step + step_free step ≡ 0) }
    {
        Ok(Step::Value(value_ended(self.alloc, value)?))
    }

    /// Pays for the evaluation of a text as an expression, which then begins. One that can't be suspended
    /// has ended at once.
    pub(crate) fn evaluate_read(&mut self, text: &ReadExpr, levels: u32) -> Result<Acted, NoMemory>
        ensures means { IfOk result (λ acted.
            ActsAs H.table acted self.new self.old
            (λ names. evaluate (nested names H.table levels) text.now)) }
        ensures lower { OnOk result (Lower self.new self.old 0) }
        ensures opens { IfOk result (λ acted. Opens acted self.new self.old) }
        ensures enters { IfOk result (λ acted.
            Enters acted (credit self.new + 2 ≤ credit self.old)) }
        ensures holds { Holds self.new self.old }
    {
        if !self.pay(EVALUATION_COST) {
            return Ok(Acted::Spent);
        }
        match text.reading() {
            ExprReading::Bad { at } => {
                let message = bad_expression(self.alloc, *at)?;
                Ok(Acted::Gives(error(self.alloc, message)?))
            }
            ExprReading::Good(expr) => {
                let ended = self.begin_expression(expr, levels)?;
                Ok(Acted::Gives(ended))
            }
        }
    }

    /// Begins an expression: this is what it comes to, where it can't be suspended, and else what the frame
    /// gets that is put on top.
    fn begin_expression(&mut self, expr: &Rc<Expr>, levels: u32) -> Result<Ended, NoMemory>
        ensures means { IfOk result (λ ended.
            (names : Names)
            → Same names H.table self.new self.old (give ended)
            (run_expression (nested names H.table levels) (tree_of expr.now.value))) }
        ensures keeps { OnOk result (Keeps self.new self.old) }
        ensures holds { Holds self.new self.old }
    {
        let found = simple_value(self.alloc, &self.frames, expr, MOST_AT_ONCE)?;
        match found {
            Some(value) => Ok(value),
            None => {
                let expr = expr.clone()?;
                self.stack.push(Frame::Expression { expr, levels })?;
                Ok(done(self.alloc))
            }
        }
    }

    /// Pays for the evaluation of a text as an expression, which is read where it isn't kept, and begins.
    pub(crate) fn evaluate(&mut self, text: &Text, levels: u32) -> Result<Acted, NoMemory>
        ensures means { IfOk result (λ acted.
            ActsAs H.table acted self.new self.old
            (λ names. evaluate (nested names H.table levels) text.now)) }
        ensures lower { OnOk result (Lower self.new self.old 0) }
        ensures opens { IfOk result (λ acted. Opens acted self.new self.old) }
        ensures enters { IfOk result (λ acted.
            Enters acted (credit self.new + 2 ≤ credit self.old)) }
        ensures holds { Holds self.new self.old }
    {
        let read = self.readings.read_expression(self.alloc, text)?;
        let acted = self.evaluate_read(&read, levels)?;
        Ok(acted)
    }

    /// `expr word word*`.
    pub(crate) fn do_expr(&mut self, words: &Words, levels: u32) -> Result<Acted, NoMemory>
        ensures means { IfOk result (λ acted.
            ActsAs H.table acted self.new self.old
            (λ names. do_expr (nested names H.table levels) words.now)) }
        ensures lower { OnOk result (Lower self.new self.old 1) }
        ensures opens { IfOk result (λ acted. Opens acted self.new self.old) }
        ensures holds { Holds self.new self.old }
    {
        if words.len() < 2 {
            return Ok(Acted::Gives(wrong_words(self.alloc, words)?));
        }
        let text = joined(self.alloc, behind_name(words))?;
        self.stack.push(Frame::Value)?;
        let acted = self.evaluate(&text, levels)?;
        Ok(acted)
    }
}
