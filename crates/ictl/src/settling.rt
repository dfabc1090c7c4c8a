//! A script with its runs inside. The only error of each call is want of memory.

ghost use Rattle.std.specs.Prelude.{◌≡◌, ◌≤◌, ◌+◌, ◌-◌, ◌*◌, ℕ, Some, None, IfOk, OnErr};
ghost use Rattle.natives.specs.Names.{names_of};
ghost use Rattle.outside.specs.declared.question.Answer.{Answer};
ghost use Rattle.outside.specs.declared.question.Question.{Question};
ghost use Rattle.outside.specs.declared.question.Service.TheVariants as service;
ghost use Rattle.server_host.specs.Leaf.{host_table};
ghost use Rattle.tcl_eval.specs.Eval.{eval};
ghost use Rattle.tcl_eval.specs.Engine.{at_global, IsOpenTo, Lasts};
ghost use Rattle.ictl.specs.Defines.{inner_run};
ghost use Rattle.ictl.specs.Main.{first_depth};
ghost use Rattle.ictl.specs.Standing.{state_of, define_gives};
ghost use Rattle.ictl.specs.Steps.{Stays, GoesLower};
ghost use Rattle.ictl.specs.Falls.{IsReady, Suffices, StopAsks, DefineStopAsks, DefineFalls, askable, SettlingAsks, SettlingAt, StepAt, per_question, settling_number, SettlingFalls, StepFalls, ScriptFalls};
ghost use Rattle.ictl.specs.Ways.{written_with, settle_way, stopped_way, answer_way, inner_way, ScriptCounts, CountsScript, ScriptWithin, WithinFrom, StopsFrom, StepsAlong, StepsFrom};

use crate::defining::DefineStop;
use crate::inner::InnerRun;
use crate::running::{Running, Stop};
use cmd_table::Steps;
use natives::Natives;
use outside::{Answer, Question, Service};
use server_host::{Edition, RunHost};
use std::alloc::Global;
use std::mem;
use std::rc::Rc;
use std::sync::ledger::Ledger;
use tcl_eval::{Work, made_grows_on};
use txt_core::NoMemory;

/// Where the first script or call of a run stands.
pub const FIRST_DEPTH: u32 = 1;

/// A script, a call or a page, with the run inside that it asked for. A question for a run inside never
/// goes out.
#[derive(Drop)]
pub struct Settling {
    pub(crate) alloc: Global,
    pub run: Running,
    /// How many questions may still be asked.
    pub questions: u64,
    /// The run inside, where one stands at a question.
    pub inner: Option<InnerRun>,
}

/// Whether a script goes on.
#[derive(Drop)]
pub enum Step {
    /// It goes on from here.
    Goes(Stop),
    /// It stops here.
    Stops(Stop),
}

/// Lets go of a run inside.
#[cold]
#[inline(never)]
fn let_go(inner: &mut Option<InnerRun>)
    ensures { inner.new ≡ None }
{
    drop(inner.take());
}

/// Lets go of a run inside, where there is one. Mostly there is none, and nothing is moved then.
pub(crate) fn leave_inner(inner: &mut Option<InnerRun>)
    ensures { inner.new ≡ None }
{
    if inner.is_some() {
        let_go(inner);
    }
}

impl Settling {
    /// Runs a script, a call or a page from the global frame on.
    #[inline(always)]
    pub fn start<L: Ledger>(
        &mut self,
        natives: &Natives,
        blueprint: &Rc<Edition>,
        moment: u64,
        work: Work,
        budget: u64,
        steps: &mut Steps<L>,
    ) -> Result<Stop, NoMemory>
        requires { IsReady budget self.old }
        ensures gives { let names = names_of natives.now in
            let published = blueprint.now.value in
            IfOk result (λ stop.
            StopsFrom names published moment stop steps.new steps.old self.new self.old
            (settle_way names published moment self.old.questions
            (eval names host_table first_depth work (at_global (state_of self.old.run)) budget))) }
        ensures counts { CountsScript (names_of natives.now) blueprint.now.value steps.new steps.old
            self.new self.old }
        ensures most { let names = names_of natives.now in
            let published = blueprint.now.value in
            OnErr result
            (WithinFrom names published steps.new steps.old self.new self.old
            (settle_way names published moment self.old.questions
            (eval names host_table first_depth work (at_global (state_of self.old.run)) budget))) }
        ensures lasts { Lasts self.new.run.engine self.old.run.engine }
        ensures at { IfOk result (λ stop. SettlingAt stop self.new) }
        ensures lower { self.new.questions ≤ self.old.questions }
        ensures falls { IfOk result (λ stop. ScriptFalls stop self.new self.old) }
    {
        let came = self.run.start(natives, work, budget, FIRST_DEPTH, steps)?;
        let stop = self.go_on(natives, blueprint, moment, came, steps)?;
        Ok(stop)
    }

    /// Goes on with the answer to the question that went out.
    pub fn answer<L: Ledger>(
        &mut self,
        natives: &Natives,
        blueprint: &Rc<Edition>,
        moment: u64,
        answer: Answer,
        steps: &mut Steps<L>,
    ) -> Result<Stop, NoMemory>
        requires { SettlingAsks self.old }
        ensures gives { let names = names_of natives.now in
            let published = blueprint.now.value in
            IfOk result (λ stop.
            (question : Question)
            → StopsFrom names published moment stop steps.new steps.old self.new self.old
            (answer_way names published moment question self.old answer)) }
        ensures counts { CountsScript (names_of natives.now) blueprint.now.value steps.new steps.old
            self.new self.old }
        ensures most { let names = names_of natives.now in
            let published = blueprint.now.value in
            OnErr result
            ((question : Question)
            → WithinFrom names published steps.new steps.old self.new self.old
            (answer_way names published moment question self.old answer)) }
        ensures lasts { Lasts self.new.run.engine self.old.run.engine }
        ensures at { IfOk result (λ stop. SettlingAt stop self.new) }
        ensures lower { self.new.questions ≤ self.old.questions }
        ensures falls { IfOk result (λ stop.
            SettlingFalls stop self.new (settling_number self.old)) }
    {
        made_grows_on::<RunHost>();
        match self.inner.take() {
            None => {
                let came = self.run.resume(natives, answer, steps)?;
                let stop = self.go_on(natives, blueprint, moment, came, steps)?;
                Ok(stop)
            }
            Some(inner) => {
                let mut inner = inner;
                let Ok(came) = inner.answer(self.alloc, natives, answer, steps) else {
                    drop(inner);
                    return Err(NoMemory);
                };
                let step = self.behind(natives, blueprint, moment, inner, came, steps)?;
                match step {
                    Step::Stops(last) => Ok(last),
                    Step::Goes(next) => {
                        let stop = self.go_on(natives, blueprint, moment, next, steps)?;
                        Ok(stop)
                    }
                }
            }
        }
    }

    /// Goes on until a question goes out, or the script has ended.
    #[inline(always)]
    fn go_on<L: Ledger>(
        &mut self,
        natives: &Natives,
        blueprint: &Rc<Edition>,
        moment: u64,
        mut stop: Stop,
        steps: &mut Steps<L>,
    ) -> Result<Stop, NoMemory>
        requires inner { self.old.inner ≡ None }
        requires asks { StopAsks stop self.old.run }
        requires suffices { Suffices stop self.old.run self.old.questions }
        ensures gives { let names = names_of natives.now in
            let published = blueprint.now.value in
            IfOk result (λ last.
            StopsFrom names published moment last steps.new steps.old self.new self.old
            (stopped_way names published moment stop self.old)) }
        ensures counts { CountsScript (names_of natives.now) blueprint.now.value steps.new steps.old
            self.new self.old }
        ensures most { let names = names_of natives.now in
            let published = blueprint.now.value in
            OnErr result
            (WithinFrom names published steps.new steps.old self.new self.old
            (stopped_way names published moment stop self.old)) }
        ensures lasts { Lasts self.new.run.engine self.old.run.engine }
        ensures at { IfOk result (λ last. SettlingAt last self.new) }
        ensures lower { self.new.questions ≤ self.old.questions }
        ensures falls { IfOk result (λ last. ScriptFalls last self.new self.old) }
    {
        'runs: loop {
            let step = self.step(natives, blueprint, moment, stop, steps)?;
            match step {
                Step::Stops(last) => return Ok(last),
                Step::Goes(next) => stop = next,
            }
        }
    }

    /// Goes on to the end of a run inside, where one is asked for.
    fn step<L: Ledger>(
        &mut self,
        natives: &Natives,
        blueprint: &Rc<Edition>,
        moment: u64,
        stop: Stop,
        steps: &mut Steps<L>,
    ) -> Result<Step, NoMemory>
        requires inner { self.old.inner ≡ None }
        requires asks { StopAsks stop self.old.run }
        requires suffices { Suffices stop self.old.run self.old.questions }
        ensures gives { let names = names_of natives.now in
            let published = blueprint.now.value in
            IfOk result (λ step.
            StepsFrom names published moment step steps.new steps.old self.new self.old
            (stopped_way names published moment stop self.old)) }
        ensures counts { CountsScript (names_of natives.now) blueprint.now.value steps.new steps.old
            self.new self.old }
        ensures most { let names = names_of natives.now in
            let published = blueprint.now.value in
            OnErr result
            (WithinFrom names published steps.new steps.old self.new self.old
            (stopped_way names published moment stop self.old)) }
        ensures goes { IfOk result (λ step. GoesLower step self.new self.old) }
        ensures lower { self.new.questions ≤ self.old.questions }
        ensures lasts { Lasts self.new.run.engine self.old.run.engine }
        ensures at { IfOk result (λ step. StepAt step self.new) }
        ensures falls { IfOk result (λ step.
            (before : ℕ) → per_question * self.old.questions ≤ before
            → StepFalls step self.new before) }
    {
        match stop {
            Stop::Asks(question) => {
                self.questions -= 1;
                match question.service {
                    Service::Inner => {
                        let step = self.enter(natives, blueprint, moment, question, steps)?;
                        Ok(step)
                    }
                    _ => Ok(Step::Stops(Stop::Asks(question))),
                }
            }
            Stop::Ended { code, result } => Ok(Step::Stops(Stop::Ended { code, result })),
            Stop::Spent => Ok(Step::Stops(Stop::Spent)),
            Stop::TooDeep => Ok(Step::Stops(Stop::TooDeep)),
        }
    }

    /// Begins the run inside that is asked for, in an interpreter of its own on the same blueprint.
    #[cold]
    #[inline(never)]
    fn enter<L: Ledger>(
        &mut self,
        natives: &Natives,
        blueprint: &Rc<Edition>,
        moment: u64,
        question: Question,
        steps: &mut Steps<L>,
    ) -> Result<Step, NoMemory>
        requires inner { self.old.inner ≡ None }
        requires open { IsOpenTo service.Inner self.old.run.engine.question }
        requires suffices { askable self.old.run ≤ self.old.questions }
        ensures gives { let names = names_of natives.now in
            let published = blueprint.now.value in
            IfOk result (λ step.
            (asked : Question)
            → StepsFrom names published moment step steps.new steps.old self.new self.old
            (inner_way names published moment asked self.old
            (inner_run names published moment question.words self.old.run.engine.budget
            self.old.questions))) }
        ensures counts { CountsScript (names_of natives.now) blueprint.now.value steps.new steps.old
            self.new self.old }
        ensures most { let names = names_of natives.now in
            let published = blueprint.now.value in
            OnErr result
            ((asked : Question)
            → WithinFrom names published steps.new steps.old self.new self.old
            (inner_way names published moment asked self.old
            (inner_run names published moment question.words self.old.run.engine.budget
            self.old.questions))) }
        ensures stays { IfOk result (λ step. Stays step self.new self.old) }
        ensures same { self.new.questions ≡ self.old.questions }
        ensures lasts { Lasts self.new.run.engine self.old.run.engine }
        ensures at { IfOk result (λ step. StepAt step self.new) }
        ensures falls { IfOk result (λ step.
            (before : ℕ) → per_question * (self.old.questions + 1) ≤ before
            → StepFalls step self.new before) }
    {
        made_grows_on::<RunHost>();
        let (inner, stop) = InnerRun::begin(
            self.alloc,
            natives,
            blueprint,
            moment,
            &question.words,
            self.run.engine.left(),
            self.questions,
            steps,
        )?;
        let step = self.behind(natives, blueprint, moment, inner, stop, steps)?;
        Ok(step)
    }

    /// Goes on behind a run inside that came to this. What it used of the budget is charged.
    fn behind<L: Ledger>(
        &mut self,
        natives: &Natives,
        blueprint: &Rc<Edition>,
        moment: u64,
        inner: InnerRun,
        stop: DefineStop,
        steps: &mut Steps<L>,
    ) -> Result<Step, NoMemory>
        requires inner { self.old.inner ≡ None }
        requires open { IsOpenTo service.Inner self.old.run.engine.question }
        requires suffices { askable self.old.run ≤ self.old.questions }
        requires asks { DefineStopAsks stop inner.run inner.defining }
        ensures gives { let names = names_of natives.now in
            let published = blueprint.now.value in
            IfOk result (λ step.
            (question : Question)
            → StepsAlong names published moment step steps.new steps.old self.new
            (written_with names published self.old inner)
            (inner_way names published moment question self.old
            (define_gives names published moment stop inner.run inner.defining))) }
        ensures counts { let names = names_of natives.now in
            let published = blueprint.now.value in
            ScriptCounts names published steps.new steps.old self.new
            (written_with names published self.old inner) }
        ensures most { let names = names_of natives.now in
            let published = blueprint.now.value in
            OnErr result
            ((question : Question)
            → ScriptWithin steps.new steps.old self.new
            (written_with names published self.old inner)
            (inner_way names published moment question self.old
            (define_gives names published moment stop inner.run inner.defining))) }
        ensures stays { IfOk result (λ step. Stays step self.new self.old) }
        ensures same { self.new.questions ≡ self.old.questions }
        ensures lasts { Lasts self.new.run.engine self.old.run.engine }
        ensures at { IfOk result (λ step. StepAt step self.new) }
        ensures falls { IfOk result (λ step.
            (before : ℕ) → per_question * self.old.questions ≤ before
            → DefineFalls stop inner.defining (before - (per_question * self.old.questions + 4))
            → StepFalls step self.new before) }
    {
        match stop {
            DefineStop::Stands(question) => {
                drop(mem::replace(&mut self.inner, Some(inner)));
                Ok(Step::Stops(Stop::Asks(question)))
            }
            DefineStop::Said(answer) => {
                let used = self
                    .run
                    .engine
                    .left()
                    .saturating_sub(inner.run.engine.left());
                drop(inner);
                let came = self.run.resume_charged(natives, answer, used, steps)?;
                Ok(Step::Goes(came))
            }
            DefineStop::Gone => {
                drop(inner);
                Ok(Step::Stops(Stop::Spent))
            }
            DefineStop::Sunk => {
                drop(inner);
                Ok(Step::Stops(Stop::TooDeep))
            }
        }
    }
}
