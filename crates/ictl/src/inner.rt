//! The run of a question for a run inside another one. Its calls have no error but want of memory.

ghost use Rattle.std.specs.Prelude.{◌≡◌, ◌<◌, ◌≤◌, ◌+◌, ◌∷◌, [], List, None, IfOk, OnErr, IfSome};
ghost use Rattle.txt_core.specs.Limits.{most_nested};
ghost use Rattle.txt_core.specs.Names.{Moment};
ghost use Rattle.txt_core.specs.Number.{number};
ghost use Rattle.cmd_table.specs.Commands.{Writes};
ghost use Rattle.natives.specs.Names.{names_of};
ghost use Rattle.outside.specs.declared.question.Answer.{Answer};
ghost use Rattle.outside.specs.declared.question.Question.{Question};
ghost use Rattle.server_host.specs.declared.edition.Edition.{Edition as Published};
ghost use Rattle.ictl.specs.Fresh.{Fresh, build_steps};
ghost use Rattle.ictl.specs.Defines.{depth_of, inner_run};
ghost use Rattle.ictl.specs.Standing.{state_of, CountsMade, define_at, define_gives};
ghost use Rattle.ictl.specs.Within.{defined_own};
ghost use Rattle.ictl.specs.Falls.{suffices, DefineAsks, DefineStopAsks, DefineFalls, define_number};

use crate::building::engine_on;
use crate::defining::{DefineRun, DefineStop};
use crate::running::Running;
use cmd_table::Steps;
use natives::Natives;
use outside::Answer;
use server_host::Edition;
use std::alloc::Global;
use std::rc::Rc;
use std::sync::ledger::Ledger;
use tcl_eval::Work;
use txt_core::{MOST_NESTED, NoMemory, Text, Words, read_int_bytes};

/// A definition run in an interpreter of its own, made for a question of another run.
#[derive(Drop)]
pub struct InnerRun {
    pub run: Running,
    pub defining: DefineRun,
}

/// The depth that a text names, where a run may stand there.
fn depth_of(text: &[u8]) -> Option<u32>
    ensures depth { result ≡ depth_of (number text.now) }
    ensures range { IfSome result (λ depth. (1 ≤ depth) × (depth ≤ most_nested)) }
{
    match read_int_bytes(text) {
        Some(depth) if depth >= 1 && depth <= MOST_NESTED as i64 => Some(depth as u32),
        _ => None,
    }
}

impl InnerRun {
    /// Makes an interpreter on a blueprint, and begins the run of the script that the question's words
    /// have, at the depth that they have, with so much budget and so many questions.
    ///
    /// The steps are those of making the interpreter and of what the script made so far.
    pub fn begin<L: Ledger>(
        alloc: Global,
        natives: &Natives,
        blueprint: &Rc<Edition>,
        moment: u64,
        words: &Words,
        budget: u64,
        questions: u64,
        steps: &mut Steps<L>,
    ) -> Result<(InnerRun, DefineStop), NoMemory>
        requires { suffices budget questions }
        ensures gives { IfOk result (λ x.
            (further : List Answer)
            → define_gives (names_of natives.now) blueprint.now.value moment x.1 x.0.run
            x.0.defining further
            ≡ inner_run (names_of natives.now) blueprint.now.value moment words.now budget questions
            further) }
        ensures counts { IfOk result (λ x.
            steps.new
            ≡ steps.old +
            (build_steps (names_of natives.now) blueprint.now.value.defs + Writes
            x.0.run.engine.made)) }
        ensures least { steps.old ≤ steps.new }
        ensures most { OnErr result
            (steps.new ≤ steps.old +
            (build_steps (names_of natives.now) blueprint.now.value.defs + defined_own
            (inner_run (names_of natives.now) blueprint.now.value moment words.now budget questions
            []))) }
        ensures asks { IfOk result (λ x. DefineStopAsks x.1 x.0.run x.0.defining) }
        ensures questions { IfOk result (λ x. x.0.defining.questions ≤ questions) }
    {
        let engine = engine_on(alloc, natives, blueprint, steps)?;
        let defining = DefineRun::new(questions);
        let run = Running { engine };
        let mut inner = InnerRun { run, defining };
        match inner.start(alloc, natives, moment, words, budget, steps) {
            Ok(stop) => Ok((inner, stop)),
            Err(NoMemory) => {
                drop(inner);
                Err(NoMemory)
            }
        }
    }

    /// Runs the script that the words have, at the depth that they have, in an interpreter as newly made.
    fn start<L: Ledger>(
        &mut self,
        alloc: Global,
        natives: &Natives,
        moment: u64,
        words: &Words,
        budget: u64,
        steps: &mut Steps<L>,
    ) -> Result<DefineStop, NoMemory>
        requires suffices { suffices budget self.old.defining.questions }
        requires value { self.old.defining.value ≡ None }
        ensures gives { IfOk result (λ stop.
            (blueprint : Published)
            → state_of self.old.run ≡ Fresh (names_of natives.now) blueprint
            → (further : List Answer)
            → define_gives (names_of natives.now) blueprint moment stop self.new.run
            self.new.defining further
            ≡ inner_run (names_of natives.now) blueprint moment words.now budget
            self.old.defining.questions further) }
        ensures counts { CountsMade steps.new steps.old self.new.run self.old.run }
        ensures most { OnErr result
            ((blueprint : Published)
            → state_of self.old.run ≡ Fresh (names_of natives.now) blueprint
            → Writes self.new.run.engine.made ≤ defined_own
            (inner_run (names_of natives.now) blueprint moment words.now budget
            self.old.defining.questions [])) }
        ensures asks { IfOk result (λ stop. DefineStopAsks stop self.new.run self.new.defining) }
        ensures fewer { self.new.defining.questions ≤ self.old.defining.questions }
    {
        self.run.engine.host_mut().begin_definitions(moment)?;
        let level = words.bytes_at(1);
        let Some(depth) = depth_of(level) else {
            return Ok(DefineStop::Sunk);
        };
        let body = words.bytes_at(0);
        let script = Text::new(alloc, body)?;
        let work = Work::Script(script);
        let came = self.run.start(natives, work, budget, depth, steps)?;
        let stop = self.defining.stop(alloc, &self.run, came)?;
        Ok(stop)
    }

    /// Goes on with an answer to the question at which it stands.
    pub fn answer<L: Ledger>(
        &mut self,
        alloc: Global,
        natives: &Natives,
        answer: Answer,
        steps: &mut Steps<L>,
    ) -> Result<DefineStop, NoMemory>
        requires { DefineAsks self.old.run self.old.defining.questions self.old.defining.value }
        ensures gives { IfOk result (λ stop.
            (blueprint : Published) (moment : Moment) (question : Question) (further : List Answer)
            → define_gives (names_of natives.now) blueprint moment stop self.new.run
            self.new.defining further
            ≡ define_at (names_of natives.now) blueprint moment question self.old.run
            self.old.defining self.old.defining.value (answer ∷ further)) }
        ensures counts { CountsMade steps.new steps.old self.new.run self.old.run }
        ensures most { OnErr result
            ((blueprint : Published) (moment : Moment) (question : Question)
            → Writes self.new.run.engine.made ≤ defined_own
            (define_at (names_of natives.now) blueprint moment question self.old.run
            self.old.defining self.old.defining.value (answer ∷ []))) }
        ensures asks { IfOk result (λ stop. DefineStopAsks stop self.new.run self.new.defining) }
        ensures falls { IfOk result (λ stop.
            DefineFalls stop self.new.defining
            (define_number self.old.defining.questions self.old.defining.value)) }
    {
        self.defining
            .answer(alloc, natives, &mut self.run, answer, steps)
    }
}
