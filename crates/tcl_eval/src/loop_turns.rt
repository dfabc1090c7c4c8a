//! Turns of loops for which nothing is put on the stack.

ghost use Rattle.std.specs.Prelude.{◌≡◌, ◌≤◌, ◌+◌, ℕ, [], if◌then◌else◌, IfOk, IfNone, IfSome, OnOk, Some};
ghost use Rattle.natives.specs.Names.{names_of};
ghost use Rattle.txt_core.specs.Names.{Bytes, Names};
ghost use Rattle.parse_cache.specs.Readings.{IsReading};
ghost use Rattle.tcl_host.specs.Codes as code_of;
ghost use Rattle.tcl_eval.specs.State.{Rest};
ghost use Rattle.tcl_eval.specs.Eval.{Inner, by_truth, evaluation_cost, nested, on_ok, pay, run_commands, run_script, unread};
ghost use Rattle.tcl_eval.specs.Choices.{PaidAlone};
ghost use Rattle.tcl_eval.specs.Expressions.{test};
ghost use Rattle.tcl_eval.specs.Loops.{between, in_loop, turn_body, turns};
ghost use Rattle.tcl_eval.specs.Places.{tree_of};
ghost use Rattle.tcl_eval.specs.Straight.{Alike, Straightly};
ghost use Rattle.tcl_eval.specs.Turns.{IsBehind, IsEachSet, IsSet, IsTested, IsTruth, IsTurnSet, Leads, TestPays, TurnPays, each_next, ran_next, tested_next, turn_next};
ghost use Rattle.tcl_eval.specs.Engine.{Holds, Stays};
ghost use Rattle.tcl_eval.specs.Clauses.{StepIs};
ghost use Rattle.tcl_eval.specs.declared.branch.Turning.{Turning};

use crate::branch::Turning;
use crate::cost::{EVALUATION_COST, TURN_COST};
use crate::engine::Engine;
use crate::expr_reading::ExprReading;
use crate::expression::MOST_AT_ONCE;
use crate::loops::{Flow, flow_from};
use crate::message::script_fault;
use crate::read_expr::ReadExpr;
use crate::simple_value::{simple_truth, simple_value};
use crate::stack::{Ended, Ready, Step};
use crate::straight::Stand;
use crate::value::{done, error, no_truth};
use crate::walk_turns::Each;
use natives::Natives;
use parse_cache::Reading;
use std::rc::Rc;
use tcl_host::{Host, OK};
use tcl_parse::Script;
use txt_core::{NoMemory, read_truth};

/// What a text came to that was run as a script, as far as nothing is put on the stack for it.
#[derive(Drop)]
pub enum Ran {
    Ends(Ended),
    TooDeep,
    /// The script stands here.
    Stands {
        script: Rc<Script>,
        stand: Stand,
        levels: u32,
    },
}

/// What a condition comes to for which nothing is run.
#[derive(Drop)]
pub enum Tested {
    Holds,
    Fails,
    /// It has this code, or no truth.
    Ends(Ended),
    Spent,
    /// Something may be run for it, and nothing of it was done.
    Left,
}

/// What is left of a turn of a loop that was begun.
#[derive(Drop)]
pub enum Turn {
    /// The loop ends with this.
    Ends(Ended),
    Spent,
    /// All of it: something may be run for its condition.
    Whole,
    /// Its body stands here.
    Body(Ran),
    /// The script behind its body stands here.
    Next(Ran),
}

/// A loop under way: what is left of its turn, and how many turns may come behind that.
#[derive(Drop)]
pub struct Turned {
    pub turn: Turn,
    pub left: u64,
}

#[tactic(auto, using(crate::proofs::Stacks::frees_push))]
impl<H: Host> Engine<H> {
    /// Runs what a text is as a script, as far as nothing is put on the stack for it.
    pub(crate) fn run_reading(
        &mut self,
        natives: &Natives,
        reading: Reading,
        levels: u32,
    ) -> Result<Ran, NoMemory>
        ensures means { IfOk result (λ ran.
            (text : Bytes) → IsReading text reading
            → Alike self.new self.old (ran_next (names_of natives.now) H.table ran)
            (run_script (names_of natives.now) H.table levels (unread text))) }
        ensures set { IfOk result (λ ran. IsSet ran) }
        ensures straight { OnOk result (Straightly self.new self.old) }
        ensures holds { Holds self.new self.old }
    {
        if levels == 0 {
            return Ok(Ran::TooDeep);
        }
        match reading {
            Reading::Fault { at, kind } => {
                let message = script_fault(self.alloc, kind, at)?;
                Ok(Ran::Ends(error(self.alloc, message)?))
            }
            Reading::Script(script) => {
                let ran = self.run_first(natives, script, levels - 1)?;
                Ok(ran)
            }
        }
    }

    /// Runs a script from its first command on, as far as nothing is put on the stack for it.
    fn run_first(
        &mut self,
        natives: &Natives,
        script: Rc<Script>,
        levels: u32,
    ) -> Result<Ran, NoMemory>
        ensures means { IfOk result (λ ran.
            Alike self.new self.old (ran_next (names_of natives.now) H.table ran)
            (run_commands (names_of natives.now) H.table
            (nested (names_of natives.now) H.table levels) (tree_of script.value) [])) }
        ensures set { IfOk result (λ ran. IsSet ran) }
        ensures straight { OnOk result (Straightly self.new self.old) }
        ensures holds { Holds self.new self.old }
    {
        match self.commands_straight(natives, &script, 0, levels)? {
            Stand::Ends(value) => Ok(Ran::Ends(value)),
            stand => Ok(Ran::Stands {
                script,
                stand,
                levels,
            }),
        }
    }

    /// Goes on where a text stands that was run.
    pub(crate) fn enter_ran(&mut self, ran: Ran) -> Result<Step, NoMemory>
        requires { IsSet ran }
        ensures means { IfOk result (λ step.
            (names : Names)
            → StepIs names H.table step self.new self.old (ran_next names H.table ran)) }
        ensures keeps { IfOk result (λ step. Stays step self.new self.old) }
        ensures holds { Holds self.new self.old }
    {
        match ran {
            Ran::Ends(value) => Ok(Step::Value(value)),
            Ran::TooDeep => Ok(Step::Stop(Ready::TooDeep)),
            Ran::Stands {
                script,
                stand,
                levels,
            } => {
                let step = self.enter_stand(script, stand, levels)?;
                Ok(step)
            }
        }
    }

    /// A value as that of a condition.
    pub(crate) fn tested(&self, value: Ended) -> Result<Tested, NoMemory>
        ensures means { IfOk result (λ tested. (inner : Inner H) → IsTested inner tested value) }
        ensures truth { IfOk result IsTruth }
    {
        if value.code != OK {
            return Ok(Tested::Ends(value));
        }
        match read_truth(&value.result) {
            None => {
                let ended = no_truth(self.alloc, &value.result)?;
                Ok(Tested::Ends(ended))
            }
            Some(true) => Ok(Tested::Holds),
            Some(false) => Ok(Tested::Fails),
        }
    }

    /// Pays for a condition that came to this.
    #[tactic(auto, using(crate::proofs::Stacks::frees_push, crate::proofs::Choices::paid_none, crate::proofs::Choices::paid_so))]
    fn pay_tested(&mut self, value: Ended) -> Result<Tested, NoMemory>
        ensures means { IfOk result (λ tested.
            (inner : Inner H) (text : Bytes) (second : Rest H)
            → Leads self.new self.old
            (λ first k. tested_next inner text tested first second k)
            (λ first k.
            pay evaluation_cost
            (on_ok (λ v. by_truth v first second k) k value.code value.result))) }
        ensures pays { IfOk result (λ tested. TestPays tested self.new self.old) }
        ensures rest { OnOk result (PaidAlone self.new self.old) }
        ensures straight { OnOk result (Straightly self.new self.old) }
        ensures holds { Holds self.new self.old }
    {
        if !self.pay(EVALUATION_COST) {
            return Ok(Tested::Spent);
        }
        let tested = self.tested(value)?;
        Ok(tested)
    }

    /// Pays for a condition whose truth is found without its value; `None` where that is another one, or where
    /// nothing is left to pay for it, and nothing was done.
    #[inline(always)]
    #[tactic(auto, using(crate::proofs::Stacks::frees_push, crate::proofs::Choices::paid_none, crate::proofs::Choices::paid_so))]
    fn test_at_once(&mut self, condition: &ReadExpr) -> Option<bool>
        ensures means { IfSome result (λ holds.
            (names : Names) (levels : ℕ) (second : Rest H)
            → Leads self.new self.old (λ first k. if holds then first else second) (λ first k.
            test (nested names H.table levels) condition.now first second k)) }
        ensures pays { IfSome result (λ holds. self.new.budget + 1 ≤ self.old.budget) }
        ensures left { IfNone result (self.new ≡ self.old) }
        ensures rest { PaidAlone self.new self.old }
        ensures straight { Straightly self.new self.old }
        ensures holds { Holds self.new self.old }
    {
        match condition.reading() {
            ExprReading::Bad { .. } => None,
            ExprReading::Good(expr) => {
                let holds = simple_truth(&self.frames, expr)?;
                if !self.pay(EVALUATION_COST) {
                    return None;
                }
                Some(holds)
            }
        }
    }

    /// Pays for a condition and evaluates it, where nothing is run for it and its value is made.
    #[inline(never)]
    fn test_value(&mut self, condition: &ReadExpr) -> Result<Tested, NoMemory>
        ensures means { IfOk result (λ tested.
            (names : Names) (levels : ℕ) (second : Rest H)
            → Leads self.new self.old
            (λ first k.
            tested_next (nested names H.table levels) condition.now tested first second k)
            (λ first k. test (nested names H.table levels) condition.now first second k)) }
        ensures pays { IfOk result (λ tested. TestPays tested self.new self.old) }
        ensures rest { OnOk result (PaidAlone self.new self.old) }
        ensures straight { OnOk result (Straightly self.new self.old) }
        ensures holds { Holds self.new self.old }
    {
        match condition.reading() {
            ExprReading::Bad { .. } => Ok(Tested::Left),
            ExprReading::Good(expr) => {
                match simple_value(self.alloc, &self.frames, expr, MOST_AT_ONCE)? {
                    None => Ok(Tested::Left),
                    Some(value) => {
                        let tested = self.pay_tested(value)?;
                        Ok(tested)
                    }
                }
            }
        }
    }

    /// Pays for a condition and evaluates it, where nothing is run for it.
    #[inline(always)]
    pub(crate) fn test_straight(&mut self, condition: &ReadExpr) -> Result<Tested, NoMemory>
        ensures means { IfOk result (λ tested.
            (names : Names) (levels : ℕ) (second : Rest H)
            → Leads self.new self.old
            (λ first k.
            tested_next (nested names H.table levels) condition.now tested first second k)
            (λ first k. test (nested names H.table levels) condition.now first second k)) }
        ensures pays { IfOk result (λ tested. TestPays tested self.new self.old) }
        ensures rest { OnOk result (PaidAlone self.new self.old) }
        ensures straight { OnOk result (Straightly self.new self.old) }
        ensures holds { Holds self.new self.old }
    {
        match self.test_at_once(condition) {
            Some(true) => Ok(Tested::Holds),
            Some(false) => Ok(Tested::Fails),
            None => {
                let tested = self.test_value(condition)?;
                Ok(tested)
            }
        }
    }

    /// Does the turn of a loop whose condition comes next, whose value is made, as far as nothing is put on
    /// the stack for it; `None` where the next turn comes.
    #[inline(never)]
    fn turn_tested(
        &mut self,
        natives: &Natives,
        turning: &Turning,
        levels: u32,
    ) -> Result<Option<Turn>, NoMemory>
        ensures means { IfOk result (λ turn.
            Leads self.new self.old
            (turn_next (names_of natives.now) H.table
            (nested (names_of natives.now) H.table levels) turning.now turn)
            (λ go k.
            test (nested (names_of natives.now) H.table levels) turning.now.condition
            (turn_body (nested (names_of natives.now) H.table levels) turning.now go k)
            (k code_of.ok []) k)) }
        ensures pays { IfOk result (λ turn. TurnPays 1 2 turn self.new self.old) }
        ensures set { IfOk result (λ turn. IfSome turn IsTurnSet) }
        ensures straight { OnOk result (Straightly self.new self.old) }
        ensures holds { Holds self.new self.old }
    {
        match self.test_value(&turning.condition)? {
            Tested::Holds => {
                let turn = self.body_straight(natives, turning, levels)?;
                Ok(turn)
            }
            Tested::Fails => Ok(Some(Turn::Ends(done(self.alloc)))),
            Tested::Ends(value) => Ok(Some(Turn::Ends(value))),
            Tested::Spent => Ok(Some(Turn::Spent)),
            Tested::Left => Ok(Some(Turn::Whole)),
        }
    }

    /// Does the turn of a loop whose condition comes next, as far as nothing is put on the stack for it;
    /// `None` where the next turn comes.
    #[inline(always)]
    fn turn_straight(
        &mut self,
        natives: &Natives,
        turning: &Turning,
        levels: u32,
    ) -> Result<Option<Turn>, NoMemory>
        ensures means { IfOk result (λ turn.
            Leads self.new self.old
            (turn_next (names_of natives.now) H.table
            (nested (names_of natives.now) H.table levels) turning.now turn)
            (λ go k.
            test (nested (names_of natives.now) H.table levels) turning.now.condition
            (turn_body (nested (names_of natives.now) H.table levels) turning.now go k)
            (k code_of.ok []) k)) }
        ensures pays { IfOk result (λ turn. TurnPays 1 2 turn self.new self.old) }
        ensures set { IfOk result (λ turn. IfSome turn IsTurnSet) }
        ensures straight { OnOk result (Straightly self.new self.old) }
        ensures holds { Holds self.new self.old }
    {
        match self.test_at_once(&turning.condition) {
            Some(true) => {
                let turn = self.body_straight(natives, turning, levels)?;
                Ok(turn)
            }
            Some(false) => Ok(Some(Turn::Ends(done(self.alloc)))),
            None => {
                let turn = self.turn_tested(natives, turning, levels)?;
                Ok(turn)
            }
        }
    }

    /// What is left of a turn of whose body this is left.
    #[inline(never)]
    fn body_left(&self, each: Each) -> Turn
        requires { IsEachSet each }
        ensures means { (names : Names) (inner : Inner H) (turning : Turning)
            → Leads self.now self.now (turn_next names H.table inner turning (Some result))
            (λ go k. each_next names H.table (Some each) (between inner turning.next go k) k) }
        ensures set { IsTurnSet result }
    {
        match each {
            Each::Ends(value) => Turn::Ends(value),
            Each::Spent => Turn::Spent,
            Each::Body(ran) => Turn::Body(ran),
        }
    }

    /// What is left of a turn of whose script behind the body this is left.
    #[inline(never)]
    fn next_left(&self, each: Each) -> Turn
        requires { IsEachSet each }
        ensures means { (names : Names) (inner : Inner H) (turning : Turning)
            → Leads self.now self.now (turn_next names H.table inner turning (Some result))
            (each_next names H.table (Some each)) }
        ensures set { IsTurnSet result }
        ensures behind { IsBehind result }
    {
        match each {
            Each::Ends(value) => Turn::Ends(value),
            Each::Spent => Turn::Spent,
            Each::Body(ran) => Turn::Next(ran),
        }
    }

    /// Pays for a turn and does it from its body on, as far as nothing is put on the stack for it.
    #[inline(always)]
    pub(crate) fn body_straight(
        &mut self,
        natives: &Natives,
        turning: &Turning,
        levels: u32,
    ) -> Result<Option<Turn>, NoMemory>
        ensures means { IfOk result (λ turn.
            Leads self.new self.old
            (turn_next (names_of natives.now) H.table
            (nested (names_of natives.now) H.table levels) turning.now turn)
            (turn_body (nested (names_of natives.now) H.table levels) turning.now)) }
        ensures pays { IfOk result (λ turn. TurnPays 1 1 turn self.new self.old) }
        ensures set { IfOk result (λ turn. IfSome turn IsTurnSet) }
        ensures straight { OnOk result (Straightly self.new self.old) }
        ensures holds { Holds self.new self.old }
    {
        if !self.pay(TURN_COST) {
            return Ok(Some(Turn::Spent));
        }
        match self.part_straight(natives, &turning.body, levels)? {
            None => {
                let turn = self.between_straight(natives, turning, levels)?;
                Ok(turn)
            }
            Some(each) => Ok(Some(self.body_left(each))),
        }
    }

    /// Does a turn from the end of its body on, as far as nothing is put on the stack for it.
    pub(crate) fn behind_straight(
        &mut self,
        natives: &Natives,
        turning: &Turning,
        levels: u32,
        value: Ended,
    ) -> Result<Option<Turn>, NoMemory>
        ensures means { IfOk result (λ turn.
            Leads self.new self.old
            (turn_next (names_of natives.now) H.table
            (nested (names_of natives.now) H.table levels) turning.now turn)
            (λ go k.
            in_loop (between (nested (names_of natives.now) H.table levels) turning.now.next go k) k
            value.code value.result)) }
        ensures pays { IfOk result (λ turn. TurnPays 0 0 turn self.new self.old) }
        ensures set { IfOk result (λ turn. IfSome turn IsTurnSet) }
        ensures behind { IfOk result (λ turn. IfSome turn IsBehind) }
        ensures straight { OnOk result (Straightly self.new self.old) }
        ensures holds { Holds self.new self.old }
    {
        match flow_from(self.alloc, value) {
            Flow::Ends(value) => Ok(Some(Turn::Ends(value))),
            Flow::On => {
                let turn = self.between_straight(natives, turning, levels)?;
                Ok(turn)
            }
        }
    }

    /// Runs the script between two turns, where there is one, as far as nothing is put on the stack for it.
    #[inline(always)]
    fn between_straight(
        &mut self,
        natives: &Natives,
        turning: &Turning,
        levels: u32,
    ) -> Result<Option<Turn>, NoMemory>
        ensures means { IfOk result (λ turn.
            Leads self.new self.old
            (turn_next (names_of natives.now) H.table
            (nested (names_of natives.now) H.table levels) turning.now turn)
            (between (nested (names_of natives.now) H.table levels) turning.now.next)) }
        ensures pays { IfOk result (λ turn. TurnPays 0 0 turn self.new self.old) }
        ensures set { IfOk result (λ turn. IfSome turn IsTurnSet) }
        ensures behind { IfOk result (λ turn. IfSome turn IsBehind) }
        ensures straight { OnOk result (Straightly self.new self.old) }
        ensures holds { Holds self.new self.old }
    {
        match &turning.next {
            None => Ok(None),
            Some(next) => match self.part_straight(natives, next, levels)? {
                None => Ok(None),
                Some(each) => Ok(Some(self.next_left(each))),
            },
        }
    }

    /// Does turns of a loop, of which so many are left, as far as nothing is put on the stack for them.
    pub(crate) fn turns_straight(
        &mut self,
        natives: &Natives,
        turning: &Turning,
        left: u64,
        levels: u32,
    ) -> Result<Turned, NoMemory>
        ensures means { IfOk result (λ turned.
            Alike self.new self.old
            (λ k.
            turn_next (names_of natives.now) H.table
            (nested (names_of natives.now) H.table levels) turning.now (Some turned.turn)
            (turns (nested (names_of natives.now) H.table levels) turning.now turned.left k) k)
            (turns (nested (names_of natives.now) H.table levels) turning.now left)) }
        ensures pays { IfOk result (λ turned.
            TurnPays 1 2 (Some turned.turn) self.new self.old) }
        ensures set { IfOk result (λ turned. IsTurnSet turned.turn) }
        ensures straight { OnOk result (Straightly self.new self.old) }
        ensures holds { Holds self.new self.old }
    {
        let mut left = left;
        'turns: while left > 0 {
            left -= 1;
            match self.turn_straight(natives, turning, levels)? {
                None => {}
                Some(turn) => return Ok(Turned { turn, left }),
            }
        }
        Ok(Turned {
            turn: Turn::Spent,
            left: 0,
        })
    }
}
