//! Interpreters.

ghost use Rattle.std.specs.Prelude.{◌≡◌, ◌≤◌, ◌+◌, [], ℕ, List, Some, None, false, IfOk, OnOk, OnErr, MatchResult};
ghost use Rattle.txt_core.specs.Names.{Names};
ghost use Rattle.cmd_table.specs.Commands.{Writes};
ghost use Rattle.natives.specs.Names.{names_of};
ghost use Rattle.outside.specs.declared.question.Answer.{Answer};
ghost use Rattle.http_req.specs.declared.request.Request.{Request};
ghost use Rattle.server_host.specs.Hosts.{added};
ghost use Rattle.ictl.specs.Fresh.{build_steps, updated};
ghost use Rattle.tcl_eval.specs.Engine.{IsIdle};
ghost use Rattle.url_tables.specs.Tables.{IsBuiltOf};
ghost use Rattle.ictl.specs.Visits.{cleanups_of};
ghost use Rattle.ictl.specs.Standing.{CountsMade};
ghost use Rattle.ictl.specs.Steps.{cut_stop, cut_reply};
ghost use Rattle.ictl.specs.Main.{Main, Script, Define, both, answered};
ghost use Rattle.ictl.specs.Interps.{IsNew, Holds, IsSameRun, ending_of, interp_state, spare_of, restored, taken, Counts, goes_to, gives, move_gives, UnlessNoMemory, Stands, GoesOn, StandsOn, IsNewOnSome, StaysNew, StaysSound, IsReset, CountsReset, AllApply, IsUpdated, update_steps, KeepsMarked, Begins, BeginsWithin, GoesBehind, BehindWithin, IsVisitOf, Continues, AnswerWithin};
ghost use Rattle.ictl.specs.Steps.{Lowers, LowersIn};
ghost use Rattle.ictl.specs.Falls.{IsAsking, IsWriting, StandsAt, GoesOut, MoveStandsAt, IsScriptTask, SettlingAt, number_of, first_number, Falls, MoveFalls, StopFalls, EndFalls};
ghost use Rattle.ictl.specs.Ways.{ChangesTask, stop_way, move_way, MovesAlong, AnswersAlong, WayWithin};

use crate::building::{Tables, copy_edition, define_all, engine_on, has_procedure, tables_of};
use crate::ending::{Ending, both};
use crate::next::Next;
use crate::reply::{budget_reply, failed, nesting_reply};
use crate::running::{Running, Stop};
use crate::settling::{Settling, leave_inner};
use crate::task::{Move, Task};
use crate::visit::{AUTHORISER, Visit};
use cmd_table::{Defs, Steps, copy_defs};
use http_req::BoxedRequest;
use http_resp::SharedResponse;
use natives::Natives;
use outside::Answer;
use server_host::{Edition, RunHost};
use std::alloc::Global;
use std::rc::Rc;
use std::sync::ledger::Ledger;
use tcl_eval::{Outcome, made_grows};
use txt_core::{BUCKET_COUNT, NoMemory, RUN_BUDGET, Text, Words};
use url_tables::Routes;

/// How many questions a run may ask in its budget, which is that of a request up to its response, and
/// anew behind it, of a scheduled script, and of a definition run in all. It never asks so many: each command that asks is paid for, and
/// asks eight times at most.
pub const RUN_QUESTIONS: u64 = (BUCKET_COUNT as u64 + 1) * RUN_BUDGET;

/// Runs requests, scheduled scripts and scripts that make definitions, one after the other, on the
/// blueprint that it was made from. It can stand at a question. One engine stays in it in every state,
/// and `reset` makes it as newly made from each.
pub struct Interp {
    pub(crate) alloc: Global,
    /// The blueprint. Its definitions are those that the engine's table and base scalars have.
    pub(crate) blueprint: Rc<Edition>,
    /// The same once more, for the host, where a run was begun, which may leave the host in any state.
    pub(crate) spare: Option<Rc<Edition>>,
    /// What the blueprint registers, and its filters.
    pub(crate) routes: Routes,
    /// Its cleanup scripts.
    pub(crate) cleanups: Words,
    /// Whether requests are authorised: `ns_authorize` stands for a procedure of the blueprint.
    pub(crate) authorises: bool,
    /// Where the table of commands goes back to.
    pub(crate) mark: u64,
    pub(crate) settling: Settling,
    /// The moment of the run, in seconds since 1970.
    pub(crate) moment: u64,
    /// What the request goes through.
    pub(crate) visit: Visit,
    pub(crate) task: Task,
}

/// Written out, so that proofs of other crates see one call where an interpreter is dropped.
impl Drop for Interp {
    fn drop(self) {
        let Interp {
            alloc: _,
            blueprint,
            spare,
            routes,
            cleanups,
            authorises: _,
            mark: _,
            settling,
            moment: _,
            visit,
            task,
        } = self;
        drop(blueprint);
        drop(spare);
        drop(routes);
        drop(cleanups);
        drop(settling);
        drop(visit);
        drop(task);
    }
}

/// What is answered of a run: want of memory is an answer of its own.
fn next_of(came: Result<Next, NoMemory>) -> Next
    ensures { MatchResult came (λ next. result ≡ next) (λ _. result ≡ Next.NoMemory) }
{
    match came {
        Ok(next) => next,
        Err(NoMemory) => Next::NoMemory,
    }
}

/// The reply of a run that was cut off up to its response.
fn cut_reply(alloc: Global, ending: Ending) -> Result<SharedResponse, NoMemory>
    ensures { IfOk result (λ response. response ≡ cut_reply ending) }
{
    match ending {
        Ending::Spent => budget_reply(alloc),
        Ending::TooDeep => nesting_reply(alloc),
        Ending::Answered => failed(alloc),
    }
}

impl Interp {
    /// An interpreter on a blueprint of this epoch and these definitions, which are made one after the
    /// other: one that doesn't apply changes nothing. Its only error is want of memory; the steps are then
    /// no more than with ample memory.
    pub(crate) fn build<L: Ledger>(
        alloc: Global,
        natives: &Natives,
        epoch: u64,
        defs: &Defs,
        steps: &mut Steps<L>,
    ) -> Result<Interp, NoMemory>
        ensures is_new { IfOk result (λ made. IsNew (names_of natives.now) made) }
        ensures blueprint { IfOk result (λ made.
            made.blueprint.value ≡ record { epoch = epoch; defs = defs.now }) }
        ensures unmarked { IfOk result (λ made. made.settling.run.engine.host.marked ≡ false) }
        ensures steps { OnOk result
            (steps.new ≡ steps.old + build_steps (names_of natives.now) defs.now) }
        ensures least { steps.old ≤ steps.new }
        ensures most { steps.new ≤ steps.old + build_steps (names_of natives.now) defs.now }
    {
        let name = Text::new(alloc, AUTHORISER)?;
        let edition = Edition {
            epoch,
            defs: copy_defs(alloc, defs)?,
        };
        let tables = tables_of(alloc, edition)?;
        let Ok(engine) = engine_on(alloc, natives, &tables.blueprint, steps) else {
            drop(tables);
            return Err(NoMemory);
        };
        let mark = engine.mark();
        let authorises = has_procedure(&engine, &name);
        Ok(Interp {
            alloc,
            blueprint: tables.blueprint,
            spare: None,
            routes: tables.routes,
            cleanups: tables.cleanups,
            authorises,
            mark,
            settling: Settling {
                alloc,
                run: Running { engine },
                questions: 0,
                inner: None,
            },
            moment: 0,
            visit: Visit::none(alloc),
            task: Task::New,
        })
    }

    /// The epoch of its blueprint. It takes no memory.
    pub(crate) fn epoch(&self) -> u64
        ensures { result ≡ self.now.blueprint.value.epoch }
    {
        self.blueprint.epoch
    }

    /// Whether the last run asked, by `ns_ictl markfordelete`, that the interpreter be built anew. The next
    /// start takes the mark off; `reset` and `update` leave it. It takes no memory.
    pub(crate) fn marked(&self) -> bool
        ensures { result ≡ self.now.settling.run.engine.host.marked }
    {
        self.settling.run.engine.host().marked()
    }

    /// Begins the run of a request, as `Run::start_request` says.
    pub(crate) fn start_request<L: Ledger>(
        &mut self,
        natives: &Natives,
        request: BoxedRequest,
        moment: u64,
        steps: &mut Steps<L>,
    ) -> Next
        requires { IsNew (names_of natives.now) self.old }
        ensures stands { let names = names_of natives.now in
            Begins names (Main names self.old.blueprint.value request moment) result steps.new
            steps.old self.new self.old }
        ensures counts { Counts (names_of natives.now) steps.new steps.old self.new self.old }
        ensures most { let names = names_of natives.now in
            BeginsWithin (Main names self.old.blueprint.value request moment) steps.new steps.old
            self.new }
        ensures visit { UnlessNoMemory result
            (IsVisitOf (names_of natives.now) request moment self.new self.old) }
        ensures holds { Holds self.new self.old }
        ensures sound { StaysSound self.new self.old }
        ensures next { StandsAt result self.new }
        ensures falls { Falls result self.new first_number }
    {
        match self.take_spare() {
            Ok(()) => next_of(self.begin_request(natives, request, moment, steps)),
            Err(NoMemory) => Next::NoMemory,
        }
    }

    /// Begins the run of a scheduled script, as `Run::start_script` says.
    pub(crate) fn start_script<L: Ledger>(
        &mut self,
        natives: &Natives,
        script: &Text,
        moment: u64,
        steps: &mut Steps<L>,
    ) -> Next
        requires { IsNew (names_of natives.now) self.old }
        ensures stands { let names = names_of natives.now in
            Begins names (Script names self.old.blueprint.value script.now moment) result steps.new
            steps.old self.new self.old }
        ensures counts { Counts (names_of natives.now) steps.new steps.old self.new self.old }
        ensures most { let names = names_of natives.now in
            BeginsWithin (Script names self.old.blueprint.value script.now moment) steps.new
            steps.old self.new }
        ensures holds { Holds self.new self.old }
        ensures sound { StaysSound self.new self.old }
        ensures next { StandsAt result self.new }
        ensures falls { Falls result self.new first_number }
    {
        match self.take_spare() {
            Ok(()) => next_of(self.begin_script(natives, script, moment, steps)),
            Err(NoMemory) => Next::NoMemory,
        }
    }

    /// Begins the definition run of a script, as `Run::start_define` says.
    pub(crate) fn start_define<L: Ledger>(
        &mut self,
        natives: &Natives,
        script: &Text,
        moment: u64,
        steps: &mut Steps<L>,
    ) -> Next
        requires { IsNew (names_of natives.now) self.old }
        ensures stands { let names = names_of natives.now in
            Stands names (Define names self.old.blueprint.value script.now moment) result 0 self.new
            [] }
        ensures steps { CountsMade steps.new steps.old self.new.settling.run self.old.settling.run }
        ensures most { let names = names_of natives.now in
            BeginsWithin (Define names self.old.blueprint.value script.now moment) steps.new
            steps.old self.new }
        ensures holds { Holds self.new self.old }
        ensures sound { StaysSound self.new self.old }
        ensures next { StandsAt result self.new }
        ensures falls { Falls result self.new first_number }
    {
        match self.take_spare() {
            Ok(()) => next_of(self.begin_define(natives, script, moment, steps)),
            Err(NoMemory) => Next::NoMemory,
        }
    }

    /// Goes on with the answer to the question at which it stands.
    pub(crate) fn resume<L: Ledger>(
        &mut self,
        natives: &Natives,
        answer: Answer,
        steps: &mut Steps<L>,
    ) -> Next
        requires { IsAsking self.old }
        ensures step { let names = names_of natives.now in
            GoesOn names result (taken names steps.new steps.old self.new self.old) self.new
            self.old answer }
        ensures stands { let names = names_of natives.now in
            StandsOn names result (taken names steps.new steps.old self.new self.old) self.new
            self.old answer }
        ensures counts { Counts (names_of natives.now) steps.new steps.old self.new self.old }
        ensures most { let names = names_of natives.now in
            AnswerWithin names answer steps.new steps.old self.new self.old }
        ensures same { IsSameRun self.new self.old }
        ensures holds { Holds self.new self.old }
        ensures sound { StaysSound self.new self.old }
        ensures next { StandsAt result self.new }
        ensures falls { Falls result self.new (number_of self.old) }
    {
        next_of(self.answered(natives, answer, steps))
    }

    /// Tells that the response was written, whole or not.
    pub(crate) fn written<L: Ledger>(
        &mut self,
        natives: &Natives,
        whole: bool,
        steps: &mut Steps<L>,
    ) -> Next
        requires { IsWriting self.old }
        ensures stands { let names = names_of natives.now in
            GoesBehind names whole result steps.new steps.old self.new self.old }
        ensures unwritten { whole ≡ false
            → (result ≡ Next.Ended (both (ending_of self.old.task) answered))
            × (steps.new ≡ steps.old) }
        ensures counts { Counts (names_of natives.now) steps.new steps.old self.new self.old }
        ensures most { let names = names_of natives.now in
            BehindWithin names whole steps.new steps.old self.new self.old }
        ensures same { IsSameRun self.new self.old }
        ensures holds { Holds self.new self.old }
        ensures sound { StaysSound self.new self.old }
        ensures next { StandsAt result self.new }
        ensures falls { Falls result self.new first_number }
    {
        if whole {
            next_of(self.go_behind(natives, steps))
        } else {
            self.end_here()
        }
    }

    /// Makes it as newly made, from every state and after every outcome, also in the midst of a run inside
    /// and after want of memory. It takes no memory and can't be refused. The mark of the run stays until
    /// the next start.
    ///
    /// The steps are the entries that the run's own definitions wrote: each is taken back.
    pub(crate) fn reset<L: Ledger>(&mut self, steps: &mut Steps<L>)
        ensures is_new { IsReset self.new self.old }
        ensures steps { CountsReset steps.new steps.old self.old }
        ensures blueprint { self.new.blueprint.value ≡ self.old.blueprint.value }
        ensures marked { KeepsMarked self.new self.old }
    {
        let mark = self.mark.min(self.settling.run.engine.mark());
        leave_inner(&mut self.settling.inner);
        self.settling.run.engine.clear(mark, steps);
        self.put_back();
        self.visit.leave();
        self.moment = 0;
        self.task = Task::New;
    }

    /// Puts the host back on the blueprint, where there is a spare.
    fn put_back(&mut self)
        ensures { self.new ≡ restored self.old }
    {
        match self.spare.take() {
            Some(spare) => self.settling.run.engine.host_mut().set_blueprint(spare),
            None => {}
        }
    }

    /// Takes the blueprint once more, for the host. Its only error is want of memory, and nothing is
    /// changed then.
    fn take_spare(&mut self) -> Result<(), NoMemory>
        ensures ok { OnOk result (spare_of self.new ≡ Some self.old.blueprint.value) }
        ensures err { OnErr result (self.new ≡ self.old) }
        ensures rest { self.new ≡ record self.old { spare = self.new.spare } }
    {
        let spare = self.blueprint.clone()?;
        self.spare = Some(spare);
        Ok(())
    }

    /// Goes to a later epoch of its blueprint, by the definitions that were added since, which apply one
    /// after the other behind those that stand. The interpreter is as newly made, and so it is then. Its
    /// only error is want of memory: then it is as it was, but for the steps, since what was defined was
    /// taken back.
    pub(crate) fn update<L: Ledger>(
        &mut self,
        epoch: u64,
        defs: &Defs,
        steps: &mut Steps<L>,
    ) -> Result<(), NoMemory>
        requires is_new { IsNewOnSome self.old }
        requires applies { AllApply defs.now self.old }
        ensures ok { OnOk result (StaysNew self.new self.old) }
        ensures blueprint { OnOk result (IsUpdated epoch defs.now self.new self.old) }
        ensures err { OnErr result
            (StaysNew self.new self.old × (self.new.blueprint.value ≡ self.old.blueprint.value)) }
        ensures marked { KeepsMarked self.new self.old }
        ensures steps { OnOk result (steps.new ≡ steps.old + Writes defs.now) }
        ensures most { steps.new ≤ steps.old + update_steps defs.now }
    {
        let name = Text::new(self.alloc, AUTHORISER)?;
        let (tables, shared) = self.later(epoch, defs)?;
        match self.define_more(defs, steps) {
            Ok(()) => {
                self.mark = self.settling.run.engine.mark();
                self.authorises = has_procedure(&self.settling.run.engine, &name);
                self.settling.run.engine.host_mut().set_blueprint(shared);
                self.blueprint = tables.blueprint;
                self.spare = None;
                self.routes = tables.routes;
                self.cleanups = tables.cleanups;
                Ok(())
            }
            Err(NoMemory) => {
                drop(shared);
                drop(tables);
                Err(NoMemory)
            }
        }
    }

    /// The tables of its blueprint with further definitions, and that blueprint once more.
    fn later(&self, epoch: u64, defs: &Defs) -> Result<(Tables, Rc<Edition>), NoMemory>
        ensures blueprint { IfOk result (λ x.
            x.0.blueprint.value ≡ added self.now.blueprint.value epoch defs.now) }
        ensures routes { IfOk result (λ x. IsBuiltOf x.0.routes x.0.blueprint.value.defs) }
        ensures cleanups { IfOk result (λ x. x.0.cleanups ≡ cleanups_of x.0.blueprint.value.defs) }
        ensures shared { IfOk result (λ x. x.1.value ≡ x.0.blueprint.value) }
    {
        let edition = self.extended(epoch, defs)?;
        let tables = tables_of(self.alloc, edition)?;
        match tables.blueprint.clone() {
            Ok(shared) => Ok((tables, shared)),
            Err(_) => {
                drop(tables);
                Err(NoMemory)
            }
        }
    }

    /// Its blueprint, to which definitions were added, with which it has this epoch.
    fn extended(&self, epoch: u64, defs: &Defs) -> Result<Edition, NoMemory>
        ensures { IfOk result (λ edition. edition ≡ added self.now.blueprint.value epoch defs.now) }
    {
        let mut edition = copy_edition(self.alloc, &self.blueprint)?;
        edition.add(self.alloc, epoch, defs)?;
        Ok(edition)
    }

    /// Puts further definitions into the engine, or none where memory wants.
    fn define_more<L: Ledger>(&mut self, defs: &Defs, steps: &mut Steps<L>) -> Result<(), NoMemory>
        requires is_new { IsNewOnSome self.old }
        requires applies { AllApply defs.now self.old }
        ensures ok { OnOk result
            ((interp_state self.new ≡ updated defs.now (interp_state self.old))
            × (self.new ≡ record self.old { settling = self.new.settling })) }
        ensures err { OnErr result
            ((interp_state self.new ≡ interp_state self.old)
            × (self.new.settling.run.engine.table ≡ self.old.settling.run.engine.table)
            × (self.new ≡ record self.old { settling = self.new.settling })) }
        ensures idle { IsIdle self.new.settling.run.engine }
        ensures inner { self.new.settling.inner ≡ self.old.settling.inner }
        ensures steps { OnOk result (steps.new ≡ steps.old + Writes defs.now) }
        ensures most { steps.new ≤ steps.old + update_steps defs.now }
    {
        let mark = self.mark;
        let engine = &mut self.settling.run.engine;
        engine.abandon();
        let kept = engine.kept();
        match define_all(engine, defs.as_slice(), steps) {
            Ok(()) => Ok(()),
            Err(NoMemory) => {
                engine.unkeep(kept);
                engine.clear(mark, steps);
                Err(NoMemory)
            }
        }
    }

    /// Goes on with an answer.
    #[tactic(auto, using(crate::proofs::Interpreters::holds_on))]
    fn answered<L: Ledger>(
        &mut self,
        natives: &Natives,
        answer: Answer,
        steps: &mut Steps<L>,
    ) -> Result<Next, NoMemory>
        requires { IsAsking self.old }
        ensures step { let names = names_of natives.now in
            IfOk result (λ next.
            Continues names next (taken names steps.new steps.old self.new self.old) self.new
            self.old answer) }
        ensures counts { Counts (names_of natives.now) steps.new steps.old self.new self.old }
        ensures most { let names = names_of natives.now in
            OnErr result (AnswerWithin names answer steps.new steps.old self.new self.old) }
        ensures same { IsSameRun self.new self.old }
        ensures holds { Holds self.new self.old }
        ensures next { IfOk result (λ next. GoesOut next self.new) }
        ensures falls { IfOk result (λ next. Falls next self.new (number_of self.old)) }
    {
        made_grows::<RunHost>();
        match self.task {
            Task::PageAsked { .. } => {
                let step = self.enter_page(natives, answer, steps)?;
                let next = self.moves(natives, step, steps)?;
                Ok(next)
            }
            Task::Define(_) => {
                let next = self.answer_define(natives, answer, steps)?;
                Ok(next)
            }
            _ => {
                let stop = self
                    .settling
                    .answer(natives, &self.blueprint, self.moment, answer, steps)?;
                let next = self.go_on(natives, stop, steps)?;
                Ok(next)
            }
        }
    }

    /// Goes on until something goes out, where something runs.
    #[tactic(auto, using(crate::proofs::Interpreters::holds_on))]
    pub(crate) fn moves<L: Ledger>(
        &mut self,
        natives: &Natives,
        step: Move,
        steps: &mut Steps<L>,
    ) -> Result<Next, NoMemory>
        requires { MoveStandsAt step self.old }
        ensures gives { let names = names_of natives.now in
            IfOk result (λ next.
            AnswersAlong names next steps.new steps.old self.new self.old
            (move_way names self.old step)) }
        ensures counts { Counts (names_of natives.now) steps.new steps.old self.new self.old }
        ensures most { let names = names_of natives.now in
            OnErr result
            (WayWithin names steps.new steps.old self.new self.old
            (move_way names self.old step)) }
        ensures same { IsSameRun self.new self.old }
        ensures holds { Holds self.new self.old }
        ensures next { IfOk result (λ next. GoesOut next self.new) }
        ensures falls { IfOk result (λ next.
            (before : ℕ) → MoveFalls step self.old before → Falls next self.new before) }
    {
        match step {
            Move::Stops(next) => Ok(next),
            Move::Goes(stop) => self.go_on(natives, stop, steps),
        }
    }

    /// Goes on behind a script that stopped so, until something goes out.
    #[tactic(auto, using(crate::proofs::Interpreters::holds_on))]
    fn go_on<L: Ledger>(
        &mut self,
        natives: &Natives,
        mut stop: Stop,
        steps: &mut Steps<L>,
    ) -> Result<Next, NoMemory>
        requires at { SettlingAt stop self.old.settling }
        requires script { IsScriptTask self.old.task }
        ensures gives { let names = names_of natives.now in
            IfOk result (λ next.
            (inside : ℕ) (further : List Answer)
            → gives names next (inside + taken names steps.new steps.old self.new self.old) self.new
            further
            ≡ goes_to names stop inside self.old further) }
        ensures counts { Counts (names_of natives.now) steps.new steps.old self.new self.old }
        ensures most { let names = names_of natives.now in
            OnErr result
            (WayWithin names steps.new steps.old self.new self.old
            (stop_way names self.old stop)) }
        ensures same { IsSameRun self.new self.old }
        ensures holds { Holds self.new self.old }
        ensures next { IfOk result (λ next. GoesOut next self.new) }
        ensures falls { IfOk result (λ next.
            (before : ℕ) → StopFalls stop self.old.task self.old.settling before
            → Falls next self.new before) }
    {
        'scripts: loop {
            match self.stopped(natives, stop, steps)? {
                Move::Stops(next) => return Ok(next),
                Move::Goes(last) => stop = last,
            }
        }
    }

    /// What comes of a script that stopped so: something goes out, or the next script runs.
    fn stopped<L: Ledger>(
        &mut self,
        natives: &Natives,
        stop: Stop,
        steps: &mut Steps<L>,
    ) -> Result<Move, NoMemory>
        requires at { SettlingAt stop self.old.settling }
        requires script { IsScriptTask self.old.task }
        ensures gives { let names = names_of natives.now in
            IfOk result (λ step.
            (inside : ℕ) (further : List Answer)
            → move_gives names step (inside + taken names steps.new steps.old self.new self.old)
            self.new further
            ≡ goes_to names stop inside self.old further) }
        ensures counts { Counts (names_of natives.now) steps.new steps.old self.new self.old }
        ensures most { let names = names_of natives.now in
            OnErr result
            (WayWithin names steps.new steps.old self.new self.old
            (stop_way names self.old stop)) }
        ensures lowers { IfOk result (λ step.
            LowersIn self.old.task step self.new self.old) }
        ensures same { IsSameRun self.new self.old }
        ensures holds { Holds self.new self.old }
        ensures next { IfOk result (λ step. MoveStandsAt step self.new) }
        ensures falls { IfOk result (λ step.
            (before : ℕ) → StopFalls stop self.old.task self.old.settling before
            → MoveFalls step self.new before) }
    {
        made_grows::<RunHost>();
        match stop {
            Stop::Asks(question) => Ok(Move::Stops(Next::Asks(question))),
            Stop::Spent => self.cut(Ending::Spent),
            Stop::TooDeep => self.cut(Ending::TooDeep),
            Stop::Ended { code, result } => self.ended(natives, code, result, steps),
        }
    }

    /// The task under way ends with this code and result of its script. This one function says where each
    /// task ends and what comes next.
    fn ended<L: Ledger>(
        &mut self,
        natives: &Natives,
        code: u8,
        value: Text,
        steps: &mut Steps<L>,
    ) -> Result<Move, NoMemory>
        requires { SettlingAt (Stop.Ended code value) self.old.settling }
        ensures gives { let names = names_of natives.now in
            IfOk result (λ step.
            MovesAlong names step steps.new steps.old self.new self.old
            (stop_way names self.old (Stop.Ended code value))) }
        ensures counts { Counts (names_of natives.now) steps.new steps.old self.new self.old }
        ensures most { let names = names_of natives.now in
            OnErr result
            (WayWithin names steps.new steps.old self.new self.old
            (stop_way names self.old (Stop.Ended code value))) }
        ensures lowers { IfOk result (λ step.
            LowersIn self.old.task step self.new self.old) }
        ensures same { IsSameRun self.new self.old }
        ensures holds { Holds self.new self.old }
        ensures next { IfOk result (λ step. MoveStandsAt step self.new) }
        ensures falls { IfOk result (λ step.
            (before : ℕ) → EndFalls self.old.task self.old.settling before
            → MoveFalls step self.new before) }
    {
        match self.task {
            Task::Preauth { next } => self.end_preauth(natives, next, code, value, steps),
            Task::Authorise => self.end_authorisation(natives, code, value, steps),
            Task::Postauth { next } => self.end_postauth(natives, next, code, value, steps),
            Task::Page => self.end_page(),
            Task::Trace { next, ending } => {
                self.end_trace(natives, next, ending, code, value, steps)
            }
            Task::Cleanup { next, ending } => {
                let budget = self.settling.run.engine.left();
                self.clean_up(natives, next, ending, budget, steps)
            }
            Task::Script => Ok(self.end(Outcome::Done {
                code,
                result: value,
            })),
            _ => self.end_procedure(code),
        }
    }

    /// The run ends.
    pub(crate) fn end(&mut self, outcome: Outcome) -> Move
        ensures stops { result ≡ Move.Stops (Next.Ended outcome) }
        ensures task { self.new ≡ record self.old { task = Task.Over } }
    {
        self.task = Task::Over;
        Move::Stops(Next::Ended(outcome))
    }

    /// A script was cut off behind a part of the run that ended so, and the run ends.
    fn cut_behind(&mut self, first: Ending, ending: Ending) -> Move
        ensures stops { result ≡ Move.Stops (Next.Ended (both first (both ending Outcome.Spent))) }
        ensures task { self.new ≡ record self.old { task = Task.Over } }
    {
        self.end(both(first, both(ending, Outcome::Spent)))
    }

    /// A script was cut off. Up to the response the reply says so, whatever response was given, and behind
    /// it the rest of the run isn't run.
    #[cold]
    #[inline(never)]
    fn cut(&mut self, ending: Ending) -> Result<Move, NoMemory>
        requires cut { ¬ (ending ≡ Ending.Answered) }
        requires inner { self.old.settling.inner ≡ None }
        ensures gives { (names : Names)
            → IfOk result (λ step.
            (inside : ℕ) (further : List Answer)
            → move_gives names step inside self.new further
            ≡ goes_to names (cut_stop ending) inside self.old further) }
        ensures stops { IfOk result (λ step.
            (before : ℕ) → Lowers step self.new before × MoveFalls step self.new before) }
        ensures next { IfOk result (λ step. MoveStandsAt step self.new) }
        ensures rest { ChangesTask self.new self.old }
    {
        match self.task {
            Task::Trace { ending: first, .. } => Ok(self.cut_behind(first, ending)),
            Task::Cleanup { ending: first, .. } => Ok(self.cut_behind(first, ending)),
            Task::Script => Ok(self.cut_behind(Ending::Answered, ending)),
            _ => {
                let response = cut_reply(self.alloc, ending)?;
                self.task = Task::Writing { ending };
                Ok(Move::Stops(Next::Write(response)))
            }
        }
    }
}
