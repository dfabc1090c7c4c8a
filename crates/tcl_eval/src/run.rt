//! A run, from one text that is run to the next.

ghost use Rattle.std.specs.Prelude.{◌≡◌, ◌<◌, ◌≤◌, [], ◌∷◌, IfOk, OnErr, IsSome, None};
ghost use Rattle.txt_core.specs.Limits.{most_nested};
ghost use Rattle.natives.specs.Names.{names_of};
ghost use Rattle.outside.specs.declared.question.Answer.{Answer};
ghost use Rattle.outside.specs.declared.question.Question.{Question};
ghost use Rattle.tcl_eval.specs.Eval.{nested, command, run_work, eval};
ghost use Rattle.tcl_eval.specs.Stack.{step_next};
ghost use Rattle.tcl_eval.specs.Engine.{Same, Counts, Opens, IsIdle, Leaves, Stands, AnsweredAt, Falls, state_of, acted_next, outcome_next, PaidFor, Fell, FellTo, FellFrom, Begins, gives, comes_to};
ghost use Rattle.tcl_eval.specs.Laws.{state_in, IsFront};
ghost use Rattle.tcl_eval.specs.State.{Given};
ghost use Rattle.tcl_eval.specs.Clauses.{ActedIs};
ghost use Rattle.tcl_eval.specs.declared.outcome.Outcome.TheVariants.{Asks};

use crate::cost::{answer_cost, command_cost};
use crate::engine::Engine;
use crate::outcome::{Outcome, Work};
use crate::stack::{Acted, AtRest, Frame, Gone, Ready, Step};
use cmd_table::Steps;
use natives::Natives;
use outside::Answer;
use std::sync::ledger::Ledger;
use tcl_host::Host;
use txt_core::{MOST_NESTED, NoMemory, Words};

#[tactic(auto, using(crate::proofs::Stacks::frees_push))]
impl<H: Host> Engine<H> {
    /// Pays for a command and does it.
    fn do_command<L: Ledger>(
        &mut self,
        natives: &Natives,
        words: Words,
        levels: u32,
        steps: &mut Steps<L>,
    ) -> Result<Acted, NoMemory>
        ensures means { IfOk result (λ acted.
            ActedIs (names_of natives.now) H.table acted self.new self.old
            (command (names_of natives.now) H.table (nested (names_of natives.now) H.table levels)
            words)) }
        ensures pays { IfOk result (λ acted. PaidFor acted self.new self.old) }
        ensures opens { IfOk result (λ acted. Opens acted self.new self.old) }
        ensures steps { steps.old ≤ steps.new }
        ensures counts { Counts steps.new steps.old self.new self.old }
        ensures kept { OnErr result (self.new.made ≡ self.old.made) }
    {
        if !self.pay(command_cost(&words)) {
            return Ok(Acted::Spent);
        }
        self.stack.push(Frame::Result)?;
        let acted = self.act(natives, words, levels, steps)?;
        Ok(acted)
    }

    /// Runs on until all ends or a question is asked.
    fn run<L: Ledger>(
        &mut self,
        natives: &Natives,
        mut step: Step,
        steps: &mut Steps<L>,
    ) -> Result<Outcome, NoMemory>
        requires { self.old.question ≡ None }
        ensures means { IfOk result (λ outcome.
            Same (names_of natives.now) H.table self.new self.old
            (outcome_next (names_of natives.now) H.table outcome self.new.question)
            (step_next (names_of natives.now) H.table step)) }
        ensures leaves { IfOk result (λ outcome. Leaves outcome self.new) }
        ensures falls { IfOk result (λ outcome. FellTo outcome self.new self.old.budget) }
        ensures steps { steps.old ≤ steps.new }
        ensures counts { Counts steps.new steps.old self.new self.old }
        ensures front { OnErr result
            ((given : Given)
            → IsFront self.new.made
            (state_in (gives (names_of natives.now) H.table
            (step_next (names_of natives.now) H.table step) self.old given)).made) }
    {
        'steps: loop {
            let ready = match self.settle(natives, step)? {
                AtRest::Ended(value) => {
                    return Ok(Outcome::Done {
                        code: value.code,
                        result: value.result,
                    });
                }
                AtRest::Ready(ready) => ready,
            };
            match ready {
                Ready::TooDeep => return Ok(Outcome::TooDeep),
                Ready::Spent => return Ok(Outcome::Spent),
                Ready::Branch { branch, value } => match self.go_on(natives, branch, value)? {
                    Gone::Goes(next) => step = next,
                    Gone::TooDeep => return Ok(Outcome::TooDeep),
                    Gone::Spent => return Ok(Outcome::Spent),
                },
                Ready::Command { words, levels } => match self.procedure(&words)? {
                    Some(called) => match self.call(natives, called, &words, levels)? {
                        Gone::Goes(next) => step = next,
                        Gone::TooDeep => return Ok(Outcome::TooDeep),
                        Gone::Spent => return Ok(Outcome::Spent),
                    },
                    None => match self.do_command(natives, words, levels, steps)? {
                        Acted::Gives(value) => step = Step::Value(value),
                        Acted::Asks(question) => return Ok(Outcome::Asks(question)),
                        Acted::TooDeep => return Ok(Outcome::TooDeep),
                        Acted::Spent => return Ok(Outcome::Spent),
                    },
                },
                Ready::Expression { evaluation, levels } => {
                    match self.evaluate_whole(evaluation, levels)? {
                        Gone::Goes(next) => step = next,
                        Gone::TooDeep => return Ok(Outcome::TooDeep),
                        Gone::Spent => return Ok(Outcome::Spent),
                    }
                }
            }
        }
    }

    /// Runs on from what a command came to.
    fn run_on<L: Ledger>(
        &mut self,
        natives: &Natives,
        acted: Acted,
        steps: &mut Steps<L>,
    ) -> Result<Outcome, NoMemory>
        requires { Begins acted self.old }
        ensures means { IfOk result (λ outcome.
            Same (names_of natives.now) H.table self.new self.old
            (outcome_next (names_of natives.now) H.table outcome self.new.question)
            (acted_next (names_of natives.now) H.table acted self.old.question)) }
        ensures leaves { IfOk result (λ outcome. Leaves outcome self.new) }
        ensures falls { IfOk result (λ outcome. FellFrom acted outcome self.new self.old) }
        ensures steps { steps.old ≤ steps.new }
        ensures counts { Counts steps.new steps.old self.new self.old }
        ensures front { OnErr result
            ((given : Given)
            → IsFront self.new.made
            (state_in (gives (names_of natives.now) H.table
            (acted_next (names_of natives.now) H.table acted self.old.question) self.old
            given)).made) }
    {
        match acted {
            Acted::Gives(value) => {
                let outcome = self.run(natives, Step::Value(value), steps)?;
                Ok(outcome)
            }
            Acted::Asks(question) => Ok(Outcome::Asks(question)),
            Acted::TooDeep => Ok(Outcome::TooDeep),
            Acted::Spent => Ok(Outcome::Spent),
        }
    }

    /// Begins what is run.
    fn first<L: Ledger>(
        &mut self,
        natives: &Natives,
        work: Work,
        depth: u32,
        steps: &mut Steps<L>,
    ) -> Result<Acted, NoMemory>
        requires least { 1 ≤ depth }
        requires most { depth ≤ most_nested }
        ensures means { IfOk result (λ acted.
            ActedIs (names_of natives.now) H.table acted self.new self.old
            (run_work (names_of natives.now) H.table depth work)) }
        ensures fell { IfOk result (λ acted. Fell acted self.new self.old.budget) }
        ensures opens { IfOk result (λ acted. Opens acted self.new self.old) }
        ensures steps { steps.old ≤ steps.new }
        ensures counts { Counts steps.new steps.old self.new self.old }
        ensures kept { OnErr result (self.new.made ≡ self.old.made) }
    {
        self.readings.begin(self.alloc)?;
        match work {
            Work::Script(text) => {
                let acted = self.enter_text(&text, MOST_NESTED + 1 - depth)?;
                Ok(acted)
            }
            Work::Call(words) => {
                let acted = self.do_command(natives, words, MOST_NESTED - depth, steps)?;
                Ok(acted)
            }
            Work::Page(pieces) => {
                let acted = self.enter_page(pieces, MOST_NESTED + 1 - depth)?;
                Ok(acted)
            }
        }
    }

    /// Begins a run.
    pub(crate) fn begin<L: Ledger>(
        &mut self,
        natives: &Natives,
        work: Work,
        depth: u32,
        steps: &mut Steps<L>,
    ) -> Result<Outcome, NoMemory>
        requires idle { IsIdle self.old }
        requires least { 1 ≤ depth }
        requires most { depth ≤ most_nested }
        ensures stands { IfOk result (λ outcome.
            Stands (names_of natives.now) H.table outcome self.new
            (record
            { work = work; depth = depth; budget = self.old.budget; state = state_of self.old })
            []) }
        ensures leaves { IfOk result (λ outcome. Leaves outcome self.new) }
        ensures falls { IfOk result (λ outcome. FellTo outcome self.new self.old.budget) }
        ensures steps { steps.old ≤ steps.new }
        ensures counts { Counts steps.new steps.old self.new self.old }
        ensures front { OnErr result
            ((given : Given)
            → IsFront self.new.made
            (state_in (eval (names_of natives.now) H.table depth work (state_of self.old)
            self.old.budget given)).made) }
    {
        let acted = self.first(natives, work, depth, steps)?;
        let outcome = self.run_on(natives, acted, steps)?;
        Ok(outcome)
    }

    /// Goes on with an answer.
    pub(crate) fn answer<L: Ledger>(
        &mut self,
        natives: &Natives,
        answer: Answer,
        steps: &mut Steps<L>,
    ) -> Result<Outcome, NoMemory>
        requires { IsSome self.old.question }
        ensures step { IfOk result (λ outcome.
            AnsweredAt (names_of natives.now) H.table outcome self.new self.old answer) }
        ensures leaves { IfOk result (λ outcome. Leaves outcome self.new) }
        ensures falls { IfOk result (λ outcome. Falls H.table outcome self.new self.old answer) }
        ensures steps { steps.old ≤ steps.new }
        ensures counts { Counts steps.new steps.old self.new self.old }
        ensures front { OnErr result
            ((question : Question) (further : Given)
            → IsFront self.new.made
            (state_in (comes_to (names_of natives.now) H.table (Asks question) self.old
            ((answer, 0) ∷ further))).made) }
    {
        let Some(open) = self.question.take() else {
            unreachable!()
        };
        if !self.pay(answer_cost(&answer)) {
            return Ok(Outcome::Spent);
        }
        let reply = self.host.answered(&open.words, &answer);
        let acted = self.replied(reply, open.words, open.levels)?;
        let outcome = self.run_on(natives, acted, steps)?;
        Ok(outcome)
    }
}
