//! The run of a request behind its response, and the runs without a connection.

ghost use Rattle.std.specs.Prelude.{◌≡◌, ◌≤◌, ◌<◌, ◌+◌, ◌-◌, ◌^◌, ◌∷◌, [], ℕ, List, None, true, IsTrue, IfOk, OnErr, drop, length, MatchOption};
ghost use Rattle.txt_core.specs.Names.{Names};
ghost use Rattle.natives.specs.Names.{names_of};
ghost use Rattle.outside.specs.declared.question.Answer.{Answer};
ghost use Rattle.outside.specs.declared.question.Question.{Question};
ghost use Rattle.http_req.specs.declared.request.Request.{Request};
ghost use Rattle.ictl.specs.Fresh.{script_state};
ghost use Rattle.ictl.specs.Replies.{verdict};
ghost use Rattle.ictl.specs.Main.{run_questions, Main, Script, Define, both, answered, outcome_of, first_depth};
ghost use Rattle.ictl.specs.Interps.{IsNew, Holds, IsSameRun, ending_of, interp_state, spare_of, Counts, gives, taken, GoesBehind, trace_from, cleaned, trace_ended, IsVisitOf, BeginsWithin, AnswerWithin, BehindWithin};
ghost use Rattle.ictl.specs.Standing.{CountsMade};
ghost use Rattle.ictl.specs.Steps.{LowersIn, defined_gives};
ghost use Rattle.ictl.specs.declared.defining.DefineRun.{DefineRun as Defining};
ghost use Rattle.ictl.specs.Falls.{IsReady, DefineStopAsks, DefineFalls, IsAsking, IsWriting, GoesOut, MoveStandsAt, Falls, number_of, first_number, PartFalls};
ghost use Rattle.ictl.specs.Begun.{ComesTo};
ghost use Rattle.ictl.specs.Ways.{ChangesTask, way_from, way_on, MovesAlong, WayWithin};

use crate::defining::{DefineRun, DefineStop};
use crate::ending::{Ending, Verdict, answered, both, verdict_of};
use crate::interp::{Interp, RUN_QUESTIONS};
use crate::next::Next;
use crate::serving::words_at;
use crate::settling::FIRST_DEPTH;
use crate::task::{Move, Task};
use cmd_table::Steps;
use http_req::BoxedRequest;
use natives::Natives;
use outside::Answer;
use server_host::RunHost;
use std::alloc::Global;
use std::mem;
use std::sync::ledger::Ledger;
use tcl_eval::{Outcome, Work, made_grows};
use tcl_host::{ERROR, OK};
use txt_core::{NoMemory, RUN_BUDGET, Text, Words};

/// A copy of the text at a place, or none past the end.
fn text_at(alloc: Global, list: &Words, at: usize) -> Result<Option<Text>, NoMemory>
    ensures here { IfOk result (λ found.
        MatchOption found (drop at list.now ≡ []) (λ text.
        drop at list.now ≡ text ∷ drop (at + 1) list.now)) }
    ensures small { IfOk result (λ found.
        MatchOption found (length list.now ≤ at) (λ _. (at < length list.now) × (at < 2 ^ 63))) }
{
    match list.as_slice().get(at) {
        None => Ok(None),
        Some(text) => Ok(Some(text.copy(alloc)?)),
    }
}

/// How a run ended up to its response.
fn ending_now(task: &Task) -> Ending
    ensures { result ≡ ending_of task.now }
{
    match task {
        Task::Writing { ending } => *ending,
        Task::Trace { ending, .. } | Task::Cleanup { ending, .. } => *ending,
        _ => Ending::Answered,
    }
}

/// What a definition run said, as the outcome of a run.
fn outcome_of(alloc: Global, answer: Answer) -> Outcome
    ensures { result ≡ outcome_of answer }
{
    match answer {
        Answer::Said(text) => Outcome::Done {
            code: OK,
            result: text,
        },
        Answer::Failed(why) => Outcome::Done {
            code: ERROR,
            result: why,
        },
        Answer::Page(_) | Answer::NoPage | Answer::PageFault => Outcome::Done {
            code: ERROR,
            result: Text::empty(alloc),
        },
    }
}

/// The depth at which the script of a run stands. As a call, it keeps proofs from going into what comes
/// of a script at this one depth.
fn depth_of_runs() -> u32
    ensures { result ≡ first_depth }
{
    FIRST_DEPTH
}

impl Interp {
    /// Begins the run of a request.
    #[tactic(auto, using(crate::proofs::Interpreters::holds_on))]
    pub(crate) fn begin_request<L: Ledger>(
        &mut self,
        natives: &Natives,
        request: BoxedRequest,
        moment: u64,
        steps: &mut Steps<L>,
    ) -> Result<Next, NoMemory>
        requires { IsNew (names_of natives.now) self.old }
        ensures stands { let names = names_of natives.now in
            IfOk result (λ next.
            ComesTo names (Main names self.old.blueprint.value request moment) next
            (taken names steps.new steps.old self.new self.old) self.new) }
        ensures counts { Counts (names_of natives.now) steps.new steps.old self.new self.old }
        ensures most { let names = names_of natives.now in
            OnErr result
            (BeginsWithin (Main names self.old.blueprint.value request moment) steps.new steps.old
            self.new) }
        ensures visit { IfOk result (λ _.
            IsVisitOf (names_of natives.now) request moment self.new self.old) }
        ensures spare { spare_of self.new ≡ spare_of self.old }
        ensures holds { Holds self.new self.old }
        ensures next { IfOk result (λ next. GoesOut next self.new) }
        ensures falls { IfOk result (λ next. Falls next self.new first_number) }
    {
        let Ok(()) = self
            .visit
            .enter(self.alloc, &self.routes, self.authorises, request.get())
        else {
            drop(request);
            return Err(NoMemory);
        };
        self.settling.run.engine.host_mut().serve(request, moment);
        self.moment = moment;
        self.settling.questions = RUN_QUESTIONS;
        let step = self.first_stage(natives, RUN_BUDGET, steps)?;
        self.moves(natives, step, steps)
    }

    /// Begins the run of a scheduled script.
    #[tactic(auto, using(crate::proofs::Interpreters::holds_on))]
    pub(crate) fn begin_script<L: Ledger>(
        &mut self,
        natives: &Natives,
        script: &Text,
        moment: u64,
        steps: &mut Steps<L>,
    ) -> Result<Next, NoMemory>
        requires { IsNew (names_of natives.now) self.old }
        ensures stands { let names = names_of natives.now in
            IfOk result (λ next.
            ComesTo names (Script names self.old.blueprint.value script.now moment) next
            (taken names steps.new steps.old self.new self.old) self.new) }
        ensures counts { Counts (names_of natives.now) steps.new steps.old self.new self.old }
        ensures most { let names = names_of natives.now in
            OnErr result
            (BeginsWithin (Script names self.old.blueprint.value script.now moment) steps.new
            steps.old self.new) }
        ensures spare { spare_of self.new ≡ spare_of self.old }
        ensures holds { Holds self.new self.old }
        ensures next { IfOk result (λ next. GoesOut next self.new) }
        ensures falls { IfOk result (λ next. Falls next self.new first_number) }
    {
        let script = script.copy(self.alloc)?;
        self.settling.run.engine.host_mut().begin_script(moment)?;
        self.moment = moment;
        self.settling.questions = RUN_QUESTIONS;
        let next = self.run_script(natives, script, steps)?;
        Ok(next)
    }

    /// Runs a scheduled script from the state in which its run begins.
    #[tactic(auto, using(crate::proofs::Interpreters::holds_on))]
    fn run_script<L: Ledger>(
        &mut self,
        natives: &Natives,
        script: Text,
        steps: &mut Steps<L>,
    ) -> Result<Next, NoMemory>
        requires state { interp_state self.old
            ≡ script_state (names_of natives.now) self.old.blueprint.value self.old.moment }
        requires questions { self.old.settling.questions ≡ run_questions }
        requires inner { self.old.settling.inner ≡ None }
        ensures stands { let names = names_of natives.now in
            IfOk result (λ next.
            ComesTo names (Script names self.old.blueprint.value script self.old.moment) next
            (taken names steps.new steps.old self.new self.old) self.new) }
        ensures counts { Counts (names_of natives.now) steps.new steps.old self.new self.old }
        ensures most { let names = names_of natives.now in
            OnErr result
            (BeginsWithin (Script names self.old.blueprint.value script self.old.moment) steps.new
            steps.old self.new) }
        ensures same { IsSameRun self.new self.old }
        ensures holds { Holds self.new self.old }
        ensures next { IfOk result (λ next. GoesOut next self.new) }
        ensures falls { IfOk result (λ next. Falls next self.new first_number) }
    {
        self.settling.run.set_out();
        let step = self.run(
            natives,
            Task::Script,
            Work::Script(script),
            RUN_BUDGET,
            steps,
        )?;
        let next = self.moves(natives, step, steps)?;
        Ok(next)
    }

    /// Begins the definition run of a script.
    #[tactic(auto, using(crate::proofs::Interpreters::holds_on))]
    pub(crate) fn begin_define<L: Ledger>(
        &mut self,
        natives: &Natives,
        script: &Text,
        moment: u64,
        steps: &mut Steps<L>,
    ) -> Result<Next, NoMemory>
        requires { IsNew (names_of natives.now) self.old }
        ensures stands { let names = names_of natives.now in
            IfOk result (λ next.
            ComesTo names (Define names self.old.blueprint.value script.now moment) next 0
            self.new) }
        ensures steps { CountsMade steps.new steps.old self.new.settling.run self.old.settling.run }
        ensures most { let names = names_of natives.now in
            OnErr result
            (BeginsWithin (Define names self.old.blueprint.value script.now moment) steps.new
            steps.old self.new) }
        ensures spare { spare_of self.new ≡ spare_of self.old }
        ensures holds { Holds self.new self.old }
        ensures next { IfOk result (λ next. GoesOut next self.new) }
        ensures falls { IfOk result (λ next. Falls next self.new first_number) }
    {
        let script = script.copy(self.alloc)?;
        self.settling
            .run
            .engine
            .host_mut()
            .begin_definitions(moment)?;
        self.moment = moment;
        let depth = depth_of_runs();
        let run = &mut self.settling.run;
        let came = run.start(natives, Work::Script(script), RUN_BUDGET, depth, steps)?;
        let mut defining = DefineRun::new(RUN_QUESTIONS);
        let last = defining.stop(self.alloc, run, came)?;
        Ok(self.defined(defining, last))
    }

    /// Goes on with an answer in a definition run.
    #[tactic(auto, using(crate::proofs::Interpreters::holds_on))]
    pub(crate) fn answer_define<L: Ledger>(
        &mut self,
        natives: &Natives,
        answer: Answer,
        steps: &mut Steps<L>,
    ) -> Result<Next, NoMemory>
        requires asking { IsAsking self.old }
        requires define { (defining : Defining) × (self.old.task ≡ Task.Define defining) }
        ensures gives { let names = names_of natives.now in
            IfOk result (λ next.
            (question : Question) (inside : ℕ) (further : List Answer)
            → gives names next inside self.new further
            ≡ gives names (Next.Asks question) inside self.old (answer ∷ further)) }
        ensures steps { CountsMade steps.new steps.old self.new.settling.run self.old.settling.run }
        ensures most { let names = names_of natives.now in
            OnErr result (AnswerWithin names answer steps.new steps.old self.new self.old) }
        ensures inner { self.new.settling.inner ≡ self.old.settling.inner }
        ensures same { IsSameRun self.new self.old }
        ensures holds { Holds self.new self.old }
        ensures next { IfOk result (λ next. GoesOut next self.new) }
        ensures falls { IfOk result (λ next. Falls next self.new (number_of self.old)) }
    {
        let task = mem::replace(&mut self.task, Task::Over);
        let Task::Define(mut defining) = task else {
            unreachable!()
        };
        let run = &mut self.settling.run;
        let stop = defining.answer(self.alloc, natives, run, answer, steps)?;
        Ok(self.defined(defining, stop))
    }

    /// What comes of a definition run that came to this.
    fn defined(&mut self, defining: DefineRun, stop: DefineStop) -> Next
        requires asks { DefineStopAsks stop self.old.settling.run defining }
        requires inner { self.old.settling.inner ≡ None }
        ensures gives { (names : Names) (inside : ℕ) (further : List Answer)
            → gives names result inside self.new further
            ≡ defined_gives names stop defining inside self.old further }
        ensures next { GoesOut result self.new }
        ensures task { ChangesTask self.new self.old }
        ensures falls { (before : ℕ) → DefineFalls stop defining before
            → Falls result self.new before }
    {
        match stop {
            DefineStop::Stands(question) => {
                self.task = Task::Define(defining);
                Next::Asks(question)
            }
            DefineStop::Said(answer) => {
                let outcome = outcome_of(self.alloc, answer);
                self.over(outcome)
            }
            DefineStop::Gone => self.over(Outcome::Spent),
            DefineStop::Sunk => self.over(Outcome::TooDeep),
        }
    }

    /// The run has ended so.
    fn over(&mut self, outcome: Outcome) -> Next
        ensures ends { result ≡ Next.Ended outcome }
        ensures task { self.new ≡ record self.old { task = Task.Over } }
    {
        self.task = Task::Over;
        Next::Ended(outcome)
    }

    /// The run ends as it did up to its response, behind which nothing runs.
    pub(crate) fn end_here(&mut self) -> Next
        ensures ends { result ≡ Next.Ended (both (ending_of self.old.task) answered) }
        ensures task { self.new ≡ record self.old { task = Task.Over } }
    {
        let ending = ending_now(&self.task);
        self.task = Task::Over;
        Next::Ended(both(ending, answered(self.alloc)))
    }

    /// Whether nothing comes behind the response: no trace filter and no cleanup script.
    fn has_nothing_behind(&self) -> bool
        ensures trace { IsTrue result → self.now.visit.trace ≡ [] }
        ensures cleanups { IsTrue result → self.now.cleanups ≡ [] }
    {
        if !self.cleanups.is_empty() {
            return false;
        }
        self.visit.trace.is_empty()
    }

    /// Goes on behind the response, which was written whole. Where nothing comes behind it, the run ends.
    pub(crate) fn go_behind<L: Ledger>(
        &mut self,
        natives: &Natives,
        steps: &mut Steps<L>,
    ) -> Result<Next, NoMemory>
        requires { IsWriting self.old }
        ensures stands { let names = names_of natives.now in
            IfOk result (λ next.
            GoesBehind names true next steps.new steps.old self.new self.old) }
        ensures counts { Counts (names_of natives.now) steps.new steps.old self.new self.old }
        ensures most { let names = names_of natives.now in
            OnErr result (BehindWithin names true steps.new steps.old self.new self.old) }
        ensures same { IsSameRun self.new self.old }
        ensures holds { Holds self.new self.old }
        ensures next { IfOk result (λ next. GoesOut next self.new) }
        ensures falls { IfOk result (λ next. Falls next self.new first_number) }
    {
        if self.has_nothing_behind() {
            return Ok(self.end_here());
        }
        self.run_behind(natives, steps)
    }

    /// Runs what comes behind the response: the trace filters, and then the cleanup scripts.
    #[inline(never)]
    #[tactic(auto, using(crate::proofs::Interpreters::holds_on))]
    fn run_behind<L: Ledger>(
        &mut self,
        natives: &Natives,
        steps: &mut Steps<L>,
    ) -> Result<Next, NoMemory>
        requires { IsWriting self.old }
        ensures stands { let names = names_of natives.now in
            IfOk result (λ next.
            GoesBehind names true next steps.new steps.old self.new self.old) }
        ensures counts { Counts (names_of natives.now) steps.new steps.old self.new self.old }
        ensures most { let names = names_of natives.now in
            OnErr result (BehindWithin names true steps.new steps.old self.new self.old) }
        ensures same { IsSameRun self.new self.old }
        ensures holds { Holds self.new self.old }
        ensures next { IfOk result (λ next. GoesOut next self.new) }
        ensures falls { IfOk result (λ next. Falls next self.new first_number) }
    {
        let ending = ending_now(&self.task);
        self.settling.questions = RUN_QUESTIONS;
        let step = self.trace(natives, 0, ending, RUN_BUDGET, steps)?;
        let next = self.moves(natives, step, steps)?;
        Ok(next)
    }

    /// Calls the trace filter at this place, or goes on behind them.
    fn trace<L: Ledger>(
        &mut self,
        natives: &Natives,
        next: usize,
        ending: Ending,
        budget: u64,
        steps: &mut Steps<L>,
    ) -> Result<Move, NoMemory>
        requires { IsReady budget self.old.settling }
        ensures gives { let names = names_of natives.now in
            IfOk result (λ step.
            MovesAlong names step steps.new steps.old self.new self.old
            (way_from self.old budget (trace_from names self.old next ending))) }
        ensures counts { Counts (names_of natives.now) steps.new steps.old self.new self.old }
        ensures most { let names = names_of natives.now in
            OnErr result
            (WayWithin names steps.new steps.old self.new self.old
            (way_from self.old budget (trace_from names self.old next ending))) }
        ensures lowers { IfOk result (λ step.
            LowersIn (Task.Trace next ending) step self.new self.old) }
        ensures same { IsSameRun self.new self.old }
        ensures holds { Holds self.new self.old }
        ensures next { IfOk result (λ step. MoveStandsAt step self.new) }
        ensures falls { IfOk result (λ step. PartFalls step self.new self.old) }
    {
        made_grows::<RunHost>();
        let found = words_at(self.alloc, &self.visit.trace, next)?;
        match found {
            None => self.clean_up(natives, 0, ending, budget, steps),
            Some(words) => {
                let task = Task::Trace {
                    next: next + 1,
                    ending,
                };
                self.call(natives, task, words, budget, steps)
            }
        }
    }

    /// A trace filter has ended: only a break counts.
    #[inline(never)]
    pub(crate) fn end_trace<L: Ledger>(
        &mut self,
        natives: &Natives,
        next: usize,
        ending: Ending,
        code: u8,
        value: Text,
        steps: &mut Steps<L>,
    ) -> Result<Move, NoMemory>
        requires { IsReady self.old.settling.run.engine.budget self.old.settling }
        ensures gives { let names = names_of natives.now in
            IfOk result (λ step.
            MovesAlong names step steps.new steps.old self.new self.old
            (way_on self.old (trace_ended names self.old next ending (verdict code value)))) }
        ensures counts { Counts (names_of natives.now) steps.new steps.old self.new self.old }
        ensures most { let names = names_of natives.now in
            OnErr result
            (WayWithin names steps.new steps.old self.new self.old
            (way_on self.old (trace_ended names self.old next ending (verdict code value)))) }
        ensures lowers { IfOk result (λ step.
            LowersIn (Task.Trace next ending) step self.new self.old) }
        ensures same { IsSameRun self.new self.old }
        ensures holds { Holds self.new self.old }
        ensures next { IfOk result (λ step. MoveStandsAt step self.new) }
        ensures falls { IfOk result (λ step. PartFalls step self.new self.old) }
    {
        let budget = self.settling.run.engine.left();
        let said = verdict_of(code, &value);
        match said {
            Verdict::Breaks => self.clean_up(natives, 0, ending, budget, steps),
            Verdict::Goes | Verdict::Returns | Verdict::Fails => {
                self.trace(natives, next, ending, budget, steps)
            }
        }
    }

    /// Runs the cleanup script at this place, or ends the run.
    #[tactic(auto, using(crate::proofs::Interpreters::holds_on))]
    pub(crate) fn clean_up<L: Ledger>(
        &mut self,
        natives: &Natives,
        next: usize,
        ending: Ending,
        budget: u64,
        steps: &mut Steps<L>,
    ) -> Result<Move, NoMemory>
        requires { IsReady budget self.old.settling }
        ensures gives { let names = names_of natives.now in
            IfOk result (λ step.
            MovesAlong names step steps.new steps.old self.new self.old
            (way_from self.old budget (cleaned names self.old next ending))) }
        ensures counts { Counts (names_of natives.now) steps.new steps.old self.new self.old }
        ensures most { let names = names_of natives.now in
            OnErr result
            (WayWithin names steps.new steps.old self.new self.old
            (way_from self.old budget (cleaned names self.old next ending))) }
        ensures lowers { IfOk result (λ step.
            LowersIn (Task.Cleanup next ending) step self.new self.old) }
        ensures same { IsSameRun self.new self.old }
        ensures holds { Holds self.new self.old }
        ensures next { IfOk result (λ step. MoveStandsAt step self.new) }
        ensures falls { IfOk result (λ step. PartFalls step self.new self.old) }
    {
        made_grows::<RunHost>();
        let found = text_at(self.alloc, &self.cleanups, next)?;
        match found {
            None => Ok(self.end(both(ending, answered(self.alloc)))),
            Some(script) => {
                let task = Task::Cleanup {
                    next: next + 1,
                    ending,
                };
                self.settling.run.set_out();
                self.run(natives, task, Work::Script(script), budget, steps)
            }
        }
    }
}
