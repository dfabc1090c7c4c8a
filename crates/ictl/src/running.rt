//! A script, a call or a page that runs. The only error of each call is want of memory.

ghost use Rattle.std.specs.Prelude.{◌≡◌, ◌<◌, ◌≤◌, ◌+◌, ◌*◌, ℕ, IfOk, IsSome};
ghost use Rattle.cmd_table.specs.Commands.{Writes};
ghost use Rattle.natives.specs.Names.{names_of};
ghost use Rattle.txt_core.specs.Limits.{most_nested};
ghost use Rattle.outside.specs.declared.question.Service.TheVariants as service;
ghost use Rattle.server_host.specs.Leaf.{host_table};
ghost use Rattle.tcl_eval.specs.State.{Given};
ghost use Rattle.tcl_eval.specs.Eval.{eval};
ghost use Rattle.tcl_eval.specs.Engine.{at_global, IsOpenTo, Lasts};
ghost use Rattle.ictl.specs.Fresh.{outset};
ghost use Rattle.ictl.specs.Standing.{state_of, outcome_at, comes_to, CountsMade, RunsOn};
ghost use Rattle.ictl.specs.Falls.{suffices, Suffices, SufficesOn, StopAsks};
ghost use Rattle.ictl.specs.Within.{RunWrites, RunsWithin};

use cmd_table::Steps;
use natives::Natives;
use outside::{Answer, Question};
use server_host::RunHost;
use std::sync::ledger::Ledger;
use tcl_eval::{Engine, Outcome, Work};
use txt_core::{NoMemory, Text};

/// An engine with the host of all commands of the server.
#[derive(Drop)]
pub struct Running {
    pub engine: Engine<RunHost>,
}

/// Where a run stopped.
#[derive(Drop)]
pub enum Stop {
    /// It ended with this code and result.
    Ended { code: u8, result: Text },
    /// It stands at this question.
    Asks(Question),
    /// It ended where a cost was more than what was left of its budget.
    Spent,
    /// It ended where a script stood too deep.
    TooDeep,
}

/// Where a run stopped by what its engine answered.
fn stop_of(outcome: Outcome) -> Result<Stop, NoMemory>
    ensures { IfOk result (λ stop. outcome ≡ outcome_at stop) }
{
    match outcome {
        Outcome::Done { code, result } => Ok(Stop::Ended { code, result }),
        Outcome::Asks(question) => Ok(Stop::Asks(question)),
        Outcome::Spent => Ok(Stop::Spent),
        Outcome::TooDeep => Ok(Stop::TooDeep),
        Outcome::NoMemory => Err(NoMemory),
    }
}

impl Running {
    /// Goes to where each script of a run begins: to the global frame, and out of every page. It takes
    /// no memory and is allowed in every state.
    pub fn set_out(&mut self)
        ensures state { state_of self.new ≡ outset (state_of self.old) }
        ensures lasts { Lasts self.new.engine self.old.engine }
        ensures budget { self.new.engine.budget ≡ self.old.engine.budget }
    {
        self.engine.abandon();
        self.engine.host_mut().leave_all();
    }

    /// Runs a script, a call or a page from the global frame on, with this budget and at this depth, from
    /// 1 to 200.
    #[tactic(auto, using(crate::proofs::Lasting::lasts_on))]
    pub fn start<L: Ledger>(
        &mut self,
        natives: &Natives,
        work: Work,
        budget: u64,
        depth: u32,
        steps: &mut Steps<L>,
    ) -> Result<Stop, NoMemory>
        requires least { 1 ≤ depth }
        requires most { depth ≤ most_nested }
        ensures gives { IfOk result (λ stop.
            (given : Given)
            → eval (names_of natives.now) host_table depth work (at_global (state_of self.old))
            budget given
            ≡ comes_to (names_of natives.now) stop self.new given) }
        ensures lasts { Lasts self.new.engine self.old.engine }
        ensures counts { CountsMade steps.new steps.old self.new self.old }
        ensures most { RunWrites (Writes self.new.engine.made)
            (eval (names_of natives.now) host_table depth work (at_global (state_of self.old))
            budget) }
        ensures asks { IfOk result (λ stop. StopAsks stop self.new) }
        ensures suffices { IfOk result (λ stop.
            (questions : ℕ) → suffices budget questions → Suffices stop self.new questions) }
    {
        self.engine.abandon();
        let outcome = self.engine.start(natives, work, budget, depth, steps);
        let stop = stop_of(outcome)?;
        Ok(stop)
    }

    /// Goes on with the answer to the question at which it stands.
    pub fn resume<L: Ledger>(
        &mut self,
        natives: &Natives,
        answer: Answer,
        steps: &mut Steps<L>,
    ) -> Result<Stop, NoMemory>
        requires { IsSome self.old.engine.question }
        ensures gives { IfOk result (λ stop.
            RunsOn (names_of natives.now) 0 answer stop self.new self.old) }
        ensures lasts { Lasts self.new.engine self.old.engine }
        ensures counts { CountsMade steps.new steps.old self.new self.old }
        ensures most { RunsWithin (names_of natives.now) 0 answer self.new self.old }
        ensures asks { IfOk result (λ stop. StopAsks stop self.new) }
        ensures suffices { IfOk result (λ stop. SufficesOn stop self.new self.old) }
    {
        let outcome = self.engine.resume(natives, answer, steps);
        let stop = stop_of(outcome)?;
        Ok(stop)
    }

    /// Goes on with what a run inside answered, which used so much of the budget.
    #[tactic(auto, using(crate::proofs::Lasting::lasts_on))]
    pub fn resume_charged<L: Ledger>(
        &mut self,
        natives: &Natives,
        answer: Answer,
        used: u64,
        steps: &mut Steps<L>,
    ) -> Result<Stop, NoMemory>
        requires left { used ≤ self.old.engine.budget }
        requires open { IsOpenTo service.Inner self.old.engine.question }
        ensures gives { IfOk result (λ stop.
            RunsOn (names_of natives.now) used answer stop self.new self.old) }
        ensures lasts { Lasts self.new.engine self.old.engine }
        ensures counts { CountsMade steps.new steps.old self.new self.old }
        ensures most { RunsWithin (names_of natives.now) used answer self.new self.old }
        ensures asks { IfOk result (λ stop. StopAsks stop self.new) }
        ensures suffices { IfOk result (λ stop. SufficesOn stop self.new self.old) }
    {
        self.engine.charge(used);
        let outcome = self.engine.resume(natives, answer, steps);
        let stop = stop_of(outcome)?;
        Ok(stop)
    }
}
