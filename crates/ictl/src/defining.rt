//! Definition runs. The only error of each call is want of memory.

ghost use Rattle.std.specs.Prelude.{◌≡◌, ◌<◌, ◌≤◌, ◌+◌, ◌∷◌, [], ℕ, List, None, IfOk, OnErr};
ghost use Rattle.txt_core.specs.Names.{Names, Moment};
ghost use Rattle.cmd_table.specs.Commands.{Writes};
ghost use Rattle.natives.specs.Names.{names_of};
ghost use Rattle.outside.specs.declared.question.Answer.{Answer};
ghost use Rattle.outside.specs.declared.question.Question.{Question};
ghost use Rattle.server_host.specs.declared.edition.Edition.{Edition as Published};
ghost use Rattle.ictl.specs.Settle.{settle};
ghost use Rattle.ictl.specs.Defines.{published, publish, script_end, define_end, no_inner};
ghost use Rattle.tcl_eval.specs.Eval.{returned};
ghost use Rattle.ictl.specs.Standing.{state_of, comes_to, CountsMade, define_at, define_gives};
ghost use Rattle.tcl_eval.specs.Engine.{Lasts};
ghost use Rattle.ictl.specs.Within.{defined_own};
ghost use Rattle.ictl.specs.Falls.{Suffices, StopAsks, DefineAsks, DefineStopAsks, DefineFalls, define_number};

use crate::boxed_text::BoxedText;
use crate::ending::is_good;
use crate::running::{Running, Stop};
use blueprint::script_of;
use cmd_table::{Defs, Steps};
use natives::Natives;
use outside::{Answer, Question, Service};
use std::alloc::Global;
use std::sync::ledger::Ledger;
use tcl_host::{BREAK, CONTINUE};
use txt_core::error_text::outside_loop;
use txt_core::{NoMemory, Text, Words};

/// What is kept of a definition run beside what runs: how many questions it may still ask, and the
/// result of its script, where that ended well and waits for the answer whether to publish.
#[derive(Drop)]
pub struct DefineRun {
    pub questions: u64,
    pub value: Option<BoxedText>,
}

/// What a definition run came to.
#[derive(Drop)]
pub enum DefineStop {
    /// It stands at this question.
    Stands(Question),
    /// It answers this.
    Said(Answer),
    /// It was spent.
    Gone,
    /// It was too deep.
    Sunk,
}

/// What comes of the answer to the question whether to publish.
fn published(alloc: Global, value: Text, answer: Answer) -> Answer
    ensures { result ≡ published value answer }
{
    match answer {
        Answer::Said(_) => Answer::Said(value),
        Answer::Failed(why) => Answer::Failed(why),
        Answer::Page(_) | Answer::NoPage | Answer::PageFault => Answer::Failed(Text::empty(alloc)),
    }
}

/// The question whether what was made is published.
fn publish(alloc: Global, made: &Defs) -> Result<Question, NoMemory>
    ensures { IfOk result (λ question. question ≡ publish made.now) }
{
    let mut words = Words::new(alloc);
    words.add(script_of(alloc, made)?)?;
    Ok(Question {
        service: Service::Publish,
        words,
    })
}

/// The error of a script that ended with another code than 0 and 2.
fn error_text(alloc: Global, code: u8, value: Text) -> Result<Text, NoMemory>
    ensures { IfOk result (λ text. text ≡ (returned code value).result) }
{
    if code == BREAK {
        outside_loop(alloc, b"break")
    } else if code == CONTINUE {
        outside_loop(alloc, b"continue")
    } else {
        Ok(value)
    }
}

impl DefineRun {
    /// A run that may ask so many questions.
    pub fn new(questions: u64) -> DefineRun
        ensures { result ≡ record { questions = questions; value = None } }
    {
        DefineRun {
            questions,
            value: None,
        }
    }

    /// Goes on with an answer to the question at which it stands.
    pub fn answer<L: Ledger>(
        &mut self,
        alloc: Global,
        natives: &Natives,
        run: &mut Running,
        answer: Answer,
        steps: &mut Steps<L>,
    ) -> Result<DefineStop, NoMemory>
        requires { DefineAsks run.old self.old.questions self.old.value }
        ensures gives { IfOk result (λ stop.
            (blueprint : Published) (moment : Moment) (question : Question) (further : List Answer)
            → define_gives (names_of natives.now) blueprint moment stop run.new self.new further
            ≡ define_at (names_of natives.now) blueprint moment question run.old self.old
            self.old.value (answer ∷ further)) }
        ensures lasts { Lasts run.new.engine run.old.engine }
        ensures counts { CountsMade steps.new steps.old run.new run.old }
        ensures most { OnErr result
            ((blueprint : Published) (moment : Moment) (question : Question)
            → Writes run.new.engine.made ≤ defined_own
            (define_at (names_of natives.now) blueprint moment question run.old self.old
            self.old.value (answer ∷ []))) }
        ensures asks { IfOk result (λ stop. DefineStopAsks stop run.new self.new) }
        ensures falls { IfOk result (λ stop.
            DefineFalls stop self.new (define_number self.old.questions self.old.value)) }
    {
        match self.value.take() {
            Some(value) => {
                let said = published(alloc, value.into_text(), answer);
                Ok(DefineStop::Said(said))
            }
            None => {
                let came = run.resume(natives, answer, steps)?;
                let stop = self.stop(alloc, run, came)?;
                Ok(stop)
            }
        }
    }

    /// What it comes to where its script stopped so.
    pub fn stop(&mut self, alloc: Global, run: &Running, stop: Stop) -> Result<DefineStop, NoMemory>
        requires value { self.old.value ≡ None }
        requires asks { StopAsks stop run.now }
        requires suffices { Suffices stop run.now self.old.questions }
        ensures gives { IfOk result (λ last.
            (names : Names) (blueprint : Published) (moment : Moment) (further : List Answer)
            → define_gives names blueprint moment last run.now self.new further
            ≡ define_end
            (settle (no_inner names blueprint moment) self.old.questions 0
            (comes_to names stop run.now) further)) }
        ensures asks { IfOk result (λ last. DefineStopAsks last run.now self.new) }
        ensures falls { IfOk result (λ last.
            (before : ℕ) → self.old.questions < before → DefineFalls last self.new before) }
        ensures fewer { self.new.questions ≤ self.old.questions }
    {
        match stop {
            Stop::Spent => Ok(DefineStop::Gone),
            Stop::TooDeep => Ok(DefineStop::Sunk),
            Stop::Ended { code, result } => {
                let last = self.ended(alloc, run, code, result)?;
                Ok(last)
            }
            Stop::Asks(question) => {
                self.questions -= 1;
                match question.service {
                    Service::Inner => Ok(DefineStop::Gone),
                    _ => Ok(DefineStop::Stands(question)),
                }
            }
        }
    }

    /// Its script ended with this code and result.
    fn ended(
        &mut self,
        alloc: Global,
        run: &Running,
        code: u8,
        value: Text,
    ) -> Result<DefineStop, NoMemory>
        requires { self.old.value ≡ None }
        ensures gives { IfOk result (λ last.
            (names : Names) (blueprint : Published) (moment : Moment) (further : List Answer)
            → define_gives names blueprint moment last run.now self.new further
            ≡ script_end (returned code value) run.now.engine.budget (state_of run.now) further) }
        ensures asks { IfOk result (λ last. DefineStopAsks last run.now self.new) }
        ensures falls { IfOk result (λ last.
            (before : ℕ) → 0 < before → DefineFalls last self.new before) }
        ensures same { self.new.questions ≡ self.old.questions }
    {
        if !is_good(code) {
            return Ok(DefineStop::Said(Answer::Failed(error_text(alloc, code, value)?)));
        }
        if run.engine.made().is_empty() {
            return Ok(DefineStop::Said(Answer::Said(value)));
        }
        let question = publish(alloc, run.engine.made())?;
        let value = BoxedText::new(alloc, value)?;
        self.value = Some(value);
        Ok(DefineStop::Stands(question))
    }
}
