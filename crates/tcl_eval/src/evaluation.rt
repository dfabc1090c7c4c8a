//! An `expr` whose words are all there, and expressions of which nothing was run yet.

ghost use Rattle.std.specs.Prelude.{◌≡◌, ◌<◌, ◌≤◌, ◌+◌, ◌-◌, ◌^◌, ℕ, drop, map, IfOk, IfSome, OnOk};
ghost use Rattle.txt_core.specs.Names.{Names};
ghost use Rattle.natives.specs.Names.{names_of};
ghost use Rattle.tcl_expr.specs.Reading.{expression_of};
ghost use Rattle.tcl_expr.specs.Trees.{choice};
ghost use Rattle.tcl_expr.specs.View.{tree_of as expression_tree};
ghost use Rattle.tcl_parse.specs.Tree.{Words, bracket, no_parts, part, parts};
ghost use Rattle.tcl_parse.specs.View.{part_of};
ghost use Rattle.tcl_eval.specs.State.{Given, Next};
ghost use Rattle.tcl_eval.specs.Eval.{by_truth, command_end, joined, nested, on_ok, read, run_script};
ghost use Rattle.tcl_eval.specs.Evaluations.{begun_next, evaluation_next};
ghost use Rattle.tcl_eval.specs.Expressions.{run_answer, run_expression, value_end};
ghost use Rattle.tcl_eval.specs.Places.{commands_from, commands_size, tree_of};
ghost use Rattle.tcl_eval.specs.Stack.{frame_next, stack_weight, step_free, step_weight};
ghost use Rattle.tcl_eval.specs.Straight.{LeftAlone, Straightly, behind_command, tried_next, tried_size};
ghost use Rattle.tcl_eval.specs.Engine.{Holds, Nears, Remains, Stays, credit, state_of};
ghost use Rattle.tcl_eval.specs.Clauses.{Begins, GivesFrame, GoneIs, IsLighter, IsNoHeavier, StepIs};
ghost use Rattle.tcl_eval.specs.declared.stack.Frame.{Frame};

use crate::bracket::bracket_word;
use crate::cost::EVALUATION_COST;
use crate::engine::Engine;
use crate::expr_reading::ExprReading;
use crate::expression::{MOST_AT_ONCE, value_ended};
use crate::place::{Seen, has_command, look};
use crate::read_expr::ReadExpr;
use crate::simple_value::simple_value;
use crate::stack::{Ended, Evaluation, Frame, Gone, Ready, Step};
use crate::straight::Tried;
use crate::value::{done, no_truth};
use crate::words::{behind_name, joined};
use natives::Natives;
use std::rc::Rc;
use tcl_expr::Expr;
use tcl_host::{Host, OK};
use tcl_parse::{Piece, Script};
use txt_core::{NoMemory, Text, Words, read_truth};

/// Where an expression stands of which nothing was run yet.
#[derive(Drop)]
pub enum Begun {
    /// It comes to this.
    Gives(Ended),
    /// It comes to what this comes to: itself, or the part that its test chose. Something may be run for it.
    Part(Rc<Expr>),
}

/// The script of a piece that is a bracket; `None` for any other piece.
fn bracket_at(piece: &Piece) -> Option<&Rc<Script>>
    ensures { IfSome result (λ script. part_of piece.now ≡ bracket (tree_of script.now.value)) }
{
    match look(piece) {
        Seen::Bytes(_) => None,
        Seen::Variable(_) => None,
        Seen::Element(_) => None,
        Seen::Bracket(script) => Some(script),
    }
}

/// The script of a word that is one bracket; `None` for any other word.
fn lone_bracket(pieces: &[Piece]) -> Option<&Rc<Script>>
    ensures { IfSome result (λ script.
        parts (map part_of pieces.now) ≡ part (bracket (tree_of script.now.value)) no_parts) }
{
    match pieces {
        [piece] => bracket_at(piece),
        _ => None,
    }
}

/// The script of a word that is one bracket, shared; `None` for any other word.
pub(crate) fn shared_bracket(pieces: &[Piece]) -> Result<Option<Rc<Script>>, NoMemory>
    ensures { IfOk result (λ found.
        IfSome found (λ script.
        parts (map part_of pieces.now) ≡ part (bracket (tree_of script.value)) no_parts)) }
{
    match lone_bracket(pieces) {
        None => Ok(None),
        Some(script) => {
            let script = script.clone()?;
            Ok(Some(script))
        }
    }
}

#[tactic(auto, using(crate::proofs::Stacks::frees_push))]
impl<H: Host> Engine<H> {
    /// Begins an expression that is no choice, or whose choice was made.
    fn begun_part(&self, part: &Rc<Expr>) -> Result<Begun, NoMemory>
        ensures { IfOk result (λ begun.
            Begins H.table begun self.now (expression_tree part.now.value)) }
    {
        match simple_value(self.alloc, &self.frames, part, MOST_AT_ONCE)? {
            None => {
                let part = part.clone()?;
                Ok(Begun::Part(part))
            }
            Some(value) => Ok(Begun::Gives(value)),
        }
    }

    /// Begins the part of a choice that is chosen by this value.
    fn begun_chosen(
        &self,
        value: &Text,
        first: &Rc<Expr>,
        second: &Rc<Expr>,
    ) -> Result<Begun, NoMemory>
        ensures { IfOk result (λ begun.
            (names : Names) (levels : ℕ) (k : Next H) (budget : ℕ) (given : Given)
            → begun_next (nested names H.table levels) begun k (state_of self.now) budget given
            ≡ by_truth value.now
            (run_expression (nested names H.table levels) (expression_tree first.now.value) k)
            (run_expression (nested names H.table levels) (expression_tree second.now.value) k) k
            (state_of self.now) budget given) }
    {
        match read_truth(value) {
            None => {
                let ended = no_truth(self.alloc, value)?;
                Ok(Begun::Gives(ended))
            }
            Some(true) => {
                let begun = self.begun_part(first)?;
                Ok(begun)
            }
            Some(false) => {
                let begun = self.begun_part(second)?;
                Ok(begun)
            }
        }
    }

    /// Goes on with a choice whose test came to this.
    fn begun_behind(
        &self,
        value: Ended,
        first: &Rc<Expr>,
        second: &Rc<Expr>,
    ) -> Result<Begun, NoMemory>
        ensures { IfOk result (λ begun.
            (names : Names) (levels : ℕ) (k : Next H) (budget : ℕ) (given : Given)
            → begun_next (nested names H.table levels) begun k (state_of self.now) budget given
            ≡ on_ok
            (λ v.
            by_truth v
            (run_expression (nested names H.table levels) (expression_tree first.now.value) k)
            (run_expression (nested names H.table levels) (expression_tree second.now.value) k) k)
            k value.code value.result (state_of self.now) budget given) }
    {
        if value.code != OK {
            return Ok(Begun::Gives(value));
        }
        let begun = self.begun_chosen(&value.result, first, second)?;
        Ok(begun)
    }

    /// Begins a choice; `None` where something may be run for its test.
    fn begun_choice(
        &self,
        test: &Rc<Expr>,
        first: &Rc<Expr>,
        second: &Rc<Expr>,
    ) -> Result<Option<Begun>, NoMemory>
        ensures { IfOk result (λ found.
            IfSome found (λ begun.
            Begins H.table begun self.now
            (choice (expression_tree test.now.value) (expression_tree first.now.value)
            (expression_tree second.now.value)))) }
    {
        match simple_value(self.alloc, &self.frames, test, MOST_AT_ONCE)? {
            None => Ok(None),
            Some(value) => {
                let begun = self.begun_behind(value, first, second)?;
                Ok(Some(begun))
            }
        }
    }

    /// Begins an expression by the test of its choice; `None` where it is no choice, or something may be run
    /// for that test.
    fn begun_by_test(&self, expr: &Expr) -> Result<Option<Begun>, NoMemory>
        ensures { IfOk result (λ found.
            IfSome found (λ begun. Begins H.table begun self.now (expression_tree expr.now))) }
    {
        match expr {
            Expr::Choice(test, first, second) => {
                let found = self.begun_choice(test, first, second)?;
                Ok(found)
            }
            Expr::Value(_) | Expr::Word(_) | Expr::Unary(..) | Expr::Binary(..) => Ok(None),
        }
    }

    /// Begins an expression. Where it is a choice for whose test nothing is run, the choice is made.
    fn begun(&self, expr: &Rc<Expr>) -> Result<Begun, NoMemory>
        ensures { IfOk result (λ begun.
            Begins H.table begun self.now (expression_tree expr.now.value)) }
    {
        match self.begun_by_test(expr)? {
            None => {
                let begun = self.begun_part(expr)?;
                Ok(begun)
            }
            Some(begun) => Ok(begun),
        }
    }

    /// Begins what a text is as an expression; `None` where it is none.
    fn read_begun(&self, read: &ReadExpr) -> Result<Option<Begun>, NoMemory>
        ensures { IfOk result (λ found.
            IfSome found (λ begun. (names : Names) (levels : ℕ) (k : Next H) (budget : ℕ)
            (given : Given)
            → begun_next (nested names H.table levels) begun k (state_of self.now) budget given
            ≡ run_answer (nested names H.table levels) read.now (expression_of read.now) k
            (state_of self.now) budget given)) }
    {
        match read.reading() {
            ExprReading::Bad { .. } => Ok(None),
            ExprReading::Good(expr) => {
                let begun = self.begun(expr)?;
                Ok(Some(begun))
            }
        }
    }

    /// What words are as an expression that are joined by a space. One word alone isn't copied.
    fn read_joined(&mut self, words: &[Text]) -> Result<Rc<ReadExpr>, NoMemory>
        ensures means { IfOk result (λ read. read.value ≡ joined words.now) }
        ensures same { OnOk result (self.new ≡ self.old) }
        ensures holds { Holds self.new self.old }
    {
        match words {
            [text] => {
                let read = self.readings.read_expression(self.alloc, text)?;
                Ok(read)
            }
            _ => {
                let text = joined(self.alloc, words)?;
                let read = self.readings.read_expression(self.alloc, &text)?;
                Ok(read)
            }
        }
    }

    /// Begins the expression of an `expr` of these words; `None` where they are none.
    pub(crate) fn expr_begun(&mut self, words: &Words) -> Result<Option<Begun>, NoMemory>
        ensures means { IfOk result (λ found.
            IfSome found (λ begun. (names : Names) (levels : ℕ) (k : Next H) (budget : ℕ)
            (given : Given)
            → begun_next (nested names H.table levels) begun k (state_of self.new) budget given
            ≡ run_answer (nested names H.table levels) (joined (drop 1 words.now))
            (expression_of (joined (drop 1 words.now))) k (state_of self.new) budget given)) }
        ensures same { OnOk result (self.new ≡ self.old) }
        ensures holds { Holds self.new self.old }
    {
        let read = self.read_joined(behind_name(words))?;
        let found = self.read_begun(&read)?;
        Ok(found)
    }

    /// Pays for an `expr` whose command costs so much, and for its evaluation, where its expression came to a
    /// value. Else it tells what is left to evaluate.
    pub(crate) fn try_begun(&mut self, cost: u64, begun: Begun) -> Result<Tried, NoMemory>
        requires { cost < self.old.budget }
        ensures means { IfOk result (λ tried.
            (names : Names) (levels : ℕ) (words : Words) (k : Next H) (given : Given)
            → tried_next names H.table (nested names H.table levels) words tried k
            (state_of self.new) self.new.budget given
            ≡ begun_next (nested names H.table levels) begun (value_end (command_end k))
            (state_of self.old) (self.old.budget - (cost + 1)) given) }
        ensures size { IfOk result (λ tried. (words : Words) → tried_size words tried ≡ 0) }
        ensures alone { IfOk result (λ tried. LeftAlone tried self.new self.old) }
        ensures straight { OnOk result (Straightly self.new self.old) }
        ensures holds { Holds self.new self.old }
    {
        match begun {
            Begun::Part(expr) => Ok(Tried::Evaluates(Evaluation { cost, expr })),
            Begun::Gives(value) => {
                let ended = value_ended(self.alloc, value)?;
                let tried = self.pay_tried(cost + 1, ended)?;
                Ok(tried)
            }
        }
    }

    /// Goes on with an `expr` that is the command at a place of a script. Where it is the last one, no frame
    /// waits for it.
    pub(crate) fn enter_evaluation(
        &mut self,
        script: Rc<Script>,
        at: usize,
        evaluation: Evaluation,
        levels: u32,
    ) -> Result<Step, NoMemory>
        requires { at < 2 ^ 63 }
        ensures means { IfOk result (λ step.
            (names : Names)
            → StepIs names H.table step self.new self.old (λ k.
            evaluation_next (nested names H.table levels) evaluation
            (behind_command names H.table (nested names H.table levels) (tree_of script.value) at
            k))) }
        ensures falls { IfOk result (λ step.
            IsNoHeavier step self.new self.old
            (commands_size (commands_from (at + 1) (tree_of script.value)) + 1)) }
        ensures keeps { IfOk result (λ step. Stays step self.new self.old) }
        ensures holds { Holds self.new self.old }
    {
        if !has_command(&script, at + 1) {
            return Ok(Step::Stop(Ready::Expression { evaluation, levels }));
        }
        self.push_following(&script, at, levels)?;
        Ok(Step::Stop(Ready::Expression { evaluation, levels }))
    }

    /// Evaluates the expression of an `expr` that was paid for.
    fn evaluate_paid(&mut self, expr: Rc<Expr>, levels: u32) -> Result<Step, NoMemory>
        ensures means { IfOk result (λ step.
            (names : Names)
            → StepIs names H.table step self.new self.old (λ k.
            run_expression (nested names H.table levels) (expression_tree expr.value)
            (value_end (command_end k)))) }
        ensures keeps { IfOk result (λ step. Stays step self.new self.old) }
        ensures holds { Holds self.new self.old }
    {
        self.stack.push(Frame::ValueResult)?;
        let step = self.give_expression(expr, levels, done(self.alloc))?;
        Ok(step)
    }

    /// Pays for an `expr` and for its evaluation, which then begins.
    pub(crate) fn evaluate_whole(
        &mut self,
        evaluation: Evaluation,
        levels: u32,
    ) -> Result<Gone, NoMemory>
        ensures means { IfOk result (λ gone.
            (names : Names)
            → GoneIs names H.table gone self.new self.old
            (evaluation_next (nested names H.table levels) evaluation)) }
        ensures nears { IfOk result (λ gone. Nears gone self.new (credit self.old)) }
        ensures remains { OnOk result (Remains self.new self.old) }
        ensures holds { Holds self.new self.old }
    {
        if !self.pay(evaluation.cost as u128) {
            return Ok(Gone::Spent);
        }
        if !self.pay(EVALUATION_COST) {
            return Ok(Gone::Spent);
        }
        let step = self.evaluate_paid(evaluation.expr, levels)?;
        Ok(Gone::Goes(step))
    }

    /// Ends an `expr`, and pays for its result.
    #[inline(never)]
    pub(crate) fn end_expr(&mut self, value: Ended) -> Result<Step, NoMemory>
        ensures means { IfOk result (λ step.
            (names : Names)
            → GivesFrame names H.table step Frame.ValueResult value self.new self.old) }
        ensures falls { IfOk result (λ step.
            stack_weight self.new.stack.items + step_weight step
            ≤ stack_weight self.old.stack.items) }
        ensures keeps { IfOk result (λ step. Stays step self.new self.old) }
        ensures holds { Holds self.new self.old }
    {
        let ended = value_ended(self.alloc, value)?;
        let step = self.end_command(ended)?;
        Ok(step)
    }

    /// Begins a bracket that is an operand, or an expression.
    pub(crate) fn enter_lone(
        &mut self,
        natives: &Natives,
        script: Rc<Script>,
        levels: u32,
    ) -> Result<Step, NoMemory>
        ensures means { IfOk result (λ step.
            StepIs (names_of natives.now) H.table step self.new self.old (λ k.
            run_script (names_of natives.now) H.table levels (read (tree_of script.value))
            (frame_next (names_of natives.now) H.table Frame.Operand k))) }
        ensures falls { IfOk result (λ step.
            IsLighter step self.new self.old (commands_size (tree_of script.value) + 2)) }
        ensures keeps { IfOk result (λ step. Stays step self.new self.old) }
        ensures holds { Holds self.new self.old }
    {
        if levels == 0 {
            return Ok(Step::Stop(Ready::TooDeep));
        }
        self.stack.push(Frame::Operand)?;
        let step = self.give_script(natives, script, 0, levels - 1, done(self.alloc))?;
        Ok(step)
    }

    /// Judges an operand that is one bracket, which came to this.
    pub(crate) fn give_operand(&self, value: Ended) -> Result<Step, NoMemory>
        ensures means { IfOk result (λ step.
            (names : Names)
            → GivesFrame names H.table step Frame.Operand value self.now self.now) }
        ensures light { IfOk result (λ step. step_weight step + step_free step ≡ 0) }
    {
        Ok(Step::Value(bracket_word(self.alloc, value)?))
    }
}
