//! The run of a request up to its response.

ghost use Rattle.std.specs.Prelude.{◌≡◌, ◌≤◌, ◌<◌, ◌+◌, ◌-◌, ◌*◌, ◌^◌, ◌∷◌, [], ℕ, IfOk, OnOk, OnErr, drop, length, MatchOption};
ghost use Rattle.txt_core.specs.Names.{Bytes};
ghost use Rattle.natives.specs.Names.{names_of};
ghost use Rattle.outside.specs.declared.question.Answer.{Answer};
ghost use Rattle.ictl.specs.Fresh.{outset};
ghost use Rattle.ictl.specs.Replies.{failed, procedure_reply, page_reply, verdict, access};
ghost use Rattle.ictl.specs.Main.{serve, page_question, page_words};
ghost use Rattle.ictl.specs.Interps.{Holds, IsSameRun, interp_state, Counts, served, preauth_from, access_from, postauth_from, preauth_ended, access_ended, postauth_ended};
ghost use Rattle.ictl.specs.Steps.{Lowers, LowersIn, scripts_left, asked_path, EntersNone, EntersBy, Follows};
ghost use Rattle.ictl.specs.Falls.{IsReady, MoveStandsAt, IsScriptTask, MoveFalls, EndFalls, per_question, PartFalls};
ghost use Rattle.ictl.specs.Ways.{ChangesTask, IsToWrite, way_from, way_on, visit_from, run_way, call_way, page_way, MovesAlong, WayWithin};

use crate::boxed_text::BoxedText;
use crate::ending::{Access, After, Ending, Verdict, access_of, verdict_of};
use crate::interp::Interp;
use crate::next::Next;
use crate::reply::{
    failed, given_or_failed, page_reply, plain_reply, procedure_reply, unauthorized, unentered,
};
use crate::task::{Move, Task};
use crate::visit::Serving;
use cmd_table::Steps;
use http_resp::SharedResponse;
use http_resp::status::{FORBIDDEN, NOT_FOUND};
use natives::Natives;
use outside::Answer;
use server_host::RunHost;
use std::alloc::Global;
use std::sync::ledger::Ledger;
use tcl_eval::{Work, made_grows};
use tcl_host::{Host, HostReply, page_question};
use txt_core::{NoMemory, Text, Words};
use url_tables::WordsList;

/// The command whose words enter a page.
const INCLUDE: &[u8] = b"ns_adp_include";

/// A copy of the words at a place, or none past the end.
pub(crate) fn words_at(
    alloc: Global,
    list: &WordsList,
    at: usize,
) -> Result<Option<Words>, NoMemory>
    ensures here { IfOk result (λ found.
        MatchOption found (drop at list.now ≡ []) (λ words.
        drop at list.now ≡ words ∷ drop (at + 1) list.now)) }
    ensures small { IfOk result (λ found.
        MatchOption found (length list.now ≤ at) (λ _. (at < length list.now) × (at < 2 ^ 63))) }
{
    match list.as_slice().get(at) {
        None => Ok(None),
        Some(words) => Ok(Some(Words::of_copies(alloc, words.as_slice())?)),
    }
}

/// A copy of a call, where there is one.
fn copy_call(alloc: Global, call: &Option<Words>) -> Result<Option<Words>, NoMemory>
    ensures { IfOk result (λ copy. copy ≡ call.now) }
{
    match call {
        None => Ok(None),
        Some(words) => Ok(Some(Words::of_copies(alloc, words.as_slice())?)),
    }
}

/// A copy of what serves a request.
fn copy_serving(alloc: Global, serving: &Serving) -> Result<Serving, NoMemory>
    ensures { IfOk result (λ copy. copy ≡ serving.now) }
{
    Ok(match serving {
        Serving::Procedure(words) => Serving::Procedure(words.share()?),
        Serving::Page(path) => Serving::Page(path.copy(alloc)?),
        Serving::Nothing => Serving::Nothing,
    })
}

/// Puts the words by which a page is entered into an empty list.
fn add_page_words(alloc: Global, words: &mut Words, path: &Text) -> Result<(), NoMemory>
    requires { words.old ≡ [] }
    ensures { OnOk result (words.new ≡ page_words path.now) }
{
    words.add(Text::new(alloc, INCLUDE)?)?;
    words.add(path.copy(alloc)?)
}

/// The words by which the first page that is asked for is entered, and the budget that is left for it.
fn page_words(alloc: Global, task: &Task) -> Result<(Words, u64), NoMemory>
    requires { (path : Bytes) × (budget : ℕ) × (task.now ≡ Task.PageAsked path budget) }
    ensures words { IfOk result (λ x. x.0 ≡ page_words (asked_path task.now)) }
    ensures budget { IfOk result (λ x. task.now ≡ Task.PageAsked (asked_path task.now) x.1) }
{
    match task {
        Task::PageAsked { path, budget } => {
            let mut words = Words::new(alloc);
            add_page_words(alloc, &mut words, path.get())?;
            Ok((words, *budget))
        }
        _ => unreachable!(),
    }
}

/// What runs where a reply enters a page, or none where it doesn't. Its only error is that the reply was
/// want of memory.
fn entered(reply: HostReply) -> Result<Option<Work>, NoMemory>
    ensures { IfOk result (λ found.
        MatchOption found (EntersNone reply) (λ work. EntersBy work reply)) }
{
    match reply {
        HostReply::Enter(pieces) => Ok(Some(Work::Page(pieces))),
        HostReply::NoMemory => Err(NoMemory),
        _ => Ok(None),
    }
}

impl Interp {
    /// Runs a script, a call or a page as this task, from the state as it stands.
    #[inline(always)]
    pub(crate) fn run<L: Ledger>(
        &mut self,
        natives: &Natives,
        task: Task,
        work: Work,
        budget: u64,
        steps: &mut Steps<L>,
    ) -> Result<Move, NoMemory>
        requires ready { IsReady budget self.old.settling }
        requires script { IsScriptTask task }
        ensures gives { let names = names_of natives.now in
            IfOk result (λ step.
            MovesAlong names step steps.new steps.old self.new self.old
            (run_way names self.old task work budget)) }
        ensures counts { Counts (names_of natives.now) steps.new steps.old self.new self.old }
        ensures most { let names = names_of natives.now in
            OnErr result
            (WayWithin names steps.new steps.old self.new self.old
            (run_way names self.old task work budget)) }
        ensures lowers { IfOk result (λ step.
            (before : ℕ) → scripts_left self.old.visit self.old.cleanups task < before
            → Lowers step self.new before) }
        ensures same { IsSameRun self.new self.old }
        ensures holds { Holds self.new self.old }
        ensures next { IfOk result (λ step. MoveStandsAt step self.new) }
        ensures falls { IfOk result (λ step.
            (before : ℕ) → per_question * self.old.settling.questions ≤ before
            → EndFalls task self.old.settling before → MoveFalls step self.new before) }
    {
        made_grows::<RunHost>();
        let stop = self
            .settling
            .start(natives, &self.blueprint, self.moment, work, budget, steps)?;
        self.task = task;
        Ok(Move::Goes(stop))
    }

    /// Makes a call as this task, from the global frame and outside of every page.
    #[inline(always)]
    #[tactic(auto, using(crate::proofs::Interpreters::holds_on))]
    pub(crate) fn call<L: Ledger>(
        &mut self,
        natives: &Natives,
        task: Task,
        words: Words,
        budget: u64,
        steps: &mut Steps<L>,
    ) -> Result<Move, NoMemory>
        requires ready { IsReady budget self.old.settling }
        requires script { IsScriptTask task }
        ensures gives { let names = names_of natives.now in
            IfOk result (λ step.
            MovesAlong names step steps.new steps.old self.new self.old
            (call_way names self.old task words budget)) }
        ensures counts { Counts (names_of natives.now) steps.new steps.old self.new self.old }
        ensures most { let names = names_of natives.now in
            OnErr result
            (WayWithin names steps.new steps.old self.new self.old
            (call_way names self.old task words budget)) }
        ensures lowers { IfOk result (λ step.
            (before : ℕ) → scripts_left self.old.visit self.old.cleanups task < before
            → Lowers step self.new before) }
        ensures same { IsSameRun self.new self.old }
        ensures holds { Holds self.new self.old }
        ensures next { IfOk result (λ step. MoveStandsAt step self.new) }
        ensures falls { IfOk result (λ step. PartFalls step self.new self.old) }
    {
        self.settling.run.set_out();
        self.run(natives, task, Work::Call(words), budget, steps)
    }

    /// Goes through the stages of a request, from the first one on. Where nothing is called before what
    /// serves it, it is served at once.
    pub(crate) fn first_stage<L: Ledger>(
        &mut self,
        natives: &Natives,
        budget: u64,
        steps: &mut Steps<L>,
    ) -> Result<Move, NoMemory>
        requires { IsReady budget self.old.settling }
        ensures gives { let names = names_of natives.now in
            IfOk result (λ step.
            MovesAlong names step steps.new steps.old self.new self.old
            (way_from self.old budget (visit_from names self.old))) }
        ensures counts { Counts (names_of natives.now) steps.new steps.old self.new self.old }
        ensures most { let names = names_of natives.now in
            OnErr result
            (WayWithin names steps.new steps.old self.new self.old
            (way_from self.old budget (visit_from names self.old))) }
        ensures same { IsSameRun self.new self.old }
        ensures holds { Holds self.new self.old }
        ensures next { IfOk result (λ step. MoveStandsAt step self.new) }
        ensures falls { IfOk result (λ step. PartFalls step self.new self.old) }
    {
        if self.visit.is_plain() {
            return self.serve(natives, budget, steps);
        }
        self.preauth(natives, 0, budget, steps)
    }

    /// Calls the preauth filter at this place, or goes on behind them.
    fn preauth<L: Ledger>(
        &mut self,
        natives: &Natives,
        next: usize,
        budget: u64,
        steps: &mut Steps<L>,
    ) -> Result<Move, NoMemory>
        requires { IsReady budget self.old.settling }
        ensures gives { let names = names_of natives.now in
            IfOk result (λ step.
            MovesAlong names step steps.new steps.old self.new self.old
            (way_from self.old budget (preauth_from names self.old next))) }
        ensures counts { Counts (names_of natives.now) steps.new steps.old self.new self.old }
        ensures most { let names = names_of natives.now in
            OnErr result
            (WayWithin names steps.new steps.old self.new self.old
            (way_from self.old budget (preauth_from names self.old next))) }
        ensures lowers { IfOk result (λ step.
            LowersIn (Task.Preauth next) step self.new self.old) }
        ensures same { IsSameRun self.new self.old }
        ensures holds { Holds self.new self.old }
        ensures next { IfOk result (λ step. MoveStandsAt step self.new) }
        ensures falls { IfOk result (λ step. PartFalls step self.new self.old) }
    {
        made_grows::<RunHost>();
        let found = words_at(self.alloc, &self.visit.preauth, next)?;
        match found {
            None => self.authorise(natives, budget, steps),
            Some(words) => self.call(
                natives,
                Task::Preauth { next: next + 1 },
                words,
                budget,
                steps,
            ),
        }
    }

    /// What follows a filter up to the response that ended with this code and result. Its only error is
    /// want of memory.
    fn after_filter(&self, code: u8, value: &Text) -> Result<After, NoMemory>
        ensures { IfOk result (λ after.
            Follows after (verdict code value.now) (interp_state self.now)) }
    {
        let said = verdict_of(code, value);
        match said {
            Verdict::Goes => Ok(After::Next),
            Verdict::Breaks => Ok(After::Behind),
            Verdict::Returns => {
                let given = self.settling.run.engine.host().response();
                let response = given_or_failed(self.alloc, given)?;
                Ok(After::Responds(response))
            }
            Verdict::Fails => {
                let response = failed(self.alloc)?;
                Ok(After::Responds(response))
            }
        }
    }

    /// A preauth filter has ended.
    #[inline(never)]
    pub(crate) fn end_preauth<L: Ledger>(
        &mut self,
        natives: &Natives,
        next: usize,
        code: u8,
        value: Text,
        steps: &mut Steps<L>,
    ) -> Result<Move, NoMemory>
        requires { IsReady self.old.settling.run.engine.budget self.old.settling }
        ensures gives { let names = names_of natives.now in
            IfOk result (λ step.
            MovesAlong names step steps.new steps.old self.new self.old
            (way_on self.old (preauth_ended names self.old next (verdict code value)))) }
        ensures counts { Counts (names_of natives.now) steps.new steps.old self.new self.old }
        ensures most { let names = names_of natives.now in
            OnErr result
            (WayWithin names steps.new steps.old self.new self.old
            (way_on self.old (preauth_ended names self.old next (verdict code value)))) }
        ensures lowers { IfOk result (λ step.
            LowersIn (Task.Preauth next) step self.new self.old) }
        ensures same { IsSameRun self.new self.old }
        ensures holds { Holds self.new self.old }
        ensures next { IfOk result (λ step. MoveStandsAt step self.new) }
        ensures falls { IfOk result (λ step. PartFalls step self.new self.old) }
    {
        made_grows::<RunHost>();
        let budget = self.settling.run.engine.left();
        let after = self.after_filter(code, &value)?;
        match after {
            After::Next => self.preauth(natives, next, budget, steps),
            After::Behind => self.authorise(natives, budget, steps),
            After::Responds(response) => Ok(self.respond(response)),
        }
    }

    /// Calls the authorisation, where there is one, or goes on behind it.
    fn authorise<L: Ledger>(
        &mut self,
        natives: &Natives,
        budget: u64,
        steps: &mut Steps<L>,
    ) -> Result<Move, NoMemory>
        requires { IsReady budget self.old.settling }
        ensures gives { let names = names_of natives.now in
            IfOk result (λ step.
            MovesAlong names step steps.new steps.old self.new self.old
            (way_from self.old budget (access_from names self.old))) }
        ensures counts { Counts (names_of natives.now) steps.new steps.old self.new self.old }
        ensures most { let names = names_of natives.now in
            OnErr result
            (WayWithin names steps.new steps.old self.new self.old
            (way_from self.old budget (access_from names self.old))) }
        ensures lowers { IfOk result (λ step.
            Lowers step self.new (length self.old.visit.postauth + 3)) }
        ensures same { IsSameRun self.new self.old }
        ensures holds { Holds self.new self.old }
        ensures next { IfOk result (λ step. MoveStandsAt step self.new) }
        ensures falls { IfOk result (λ step. PartFalls step self.new self.old) }
    {
        made_grows::<RunHost>();
        let call = copy_call(self.alloc, &self.visit.authorisation)?;
        match call {
            None => self.postauth(natives, 0, budget, steps),
            Some(words) => self.call(natives, Task::Authorise, words, budget, steps),
        }
    }

    /// The authorisation has ended.
    #[inline(never)]
    pub(crate) fn end_authorisation<L: Ledger>(
        &mut self,
        natives: &Natives,
        code: u8,
        value: Text,
        steps: &mut Steps<L>,
    ) -> Result<Move, NoMemory>
        requires { IsReady self.old.settling.run.engine.budget self.old.settling }
        ensures gives { let names = names_of natives.now in
            IfOk result (λ step.
            MovesAlong names step steps.new steps.old self.new self.old
            (way_on self.old (access_ended names self.old (access code value)))) }
        ensures counts { Counts (names_of natives.now) steps.new steps.old self.new self.old }
        ensures most { let names = names_of natives.now in
            OnErr result
            (WayWithin names steps.new steps.old self.new self.old
            (way_on self.old (access_ended names self.old (access code value)))) }
        ensures lowers { IfOk result (λ step.
            LowersIn Task.Authorise step self.new self.old) }
        ensures same { IsSameRun self.new self.old }
        ensures holds { Holds self.new self.old }
        ensures next { IfOk result (λ step. MoveStandsAt step self.new) }
        ensures falls { IfOk result (λ step. PartFalls step self.new self.old) }
    {
        let budget = self.settling.run.engine.left();
        let said = access_of(code, &value);
        match said {
            Access::Allowed => self.postauth(natives, 0, budget, steps),
            Access::Unauthorized => {
                let response = unauthorized(self.alloc)?;
                Ok(self.respond(response))
            }
            Access::Forbidden => {
                let response = plain_reply(self.alloc, FORBIDDEN)?;
                Ok(self.respond(response))
            }
            Access::Failed => self.fail(),
        }
    }

    /// Calls the postauth filter at this place, or goes on behind them.
    fn postauth<L: Ledger>(
        &mut self,
        natives: &Natives,
        next: usize,
        budget: u64,
        steps: &mut Steps<L>,
    ) -> Result<Move, NoMemory>
        requires { IsReady budget self.old.settling }
        ensures gives { let names = names_of natives.now in
            IfOk result (λ step.
            MovesAlong names step steps.new steps.old self.new self.old
            (way_from self.old budget (postauth_from names self.old next))) }
        ensures counts { Counts (names_of natives.now) steps.new steps.old self.new self.old }
        ensures most { let names = names_of natives.now in
            OnErr result
            (WayWithin names steps.new steps.old self.new self.old
            (way_from self.old budget (postauth_from names self.old next))) }
        ensures lowers { IfOk result (λ step.
            LowersIn (Task.Postauth next) step self.new self.old) }
        ensures same { IsSameRun self.new self.old }
        ensures holds { Holds self.new self.old }
        ensures next { IfOk result (λ step. MoveStandsAt step self.new) }
        ensures falls { IfOk result (λ step. PartFalls step self.new self.old) }
    {
        made_grows::<RunHost>();
        let found = words_at(self.alloc, &self.visit.postauth, next)?;
        match found {
            None => self.serve(natives, budget, steps),
            Some(words) => self.call(
                natives,
                Task::Postauth { next: next + 1 },
                words,
                budget,
                steps,
            ),
        }
    }

    /// A postauth filter has ended.
    #[inline(never)]
    pub(crate) fn end_postauth<L: Ledger>(
        &mut self,
        natives: &Natives,
        next: usize,
        code: u8,
        value: Text,
        steps: &mut Steps<L>,
    ) -> Result<Move, NoMemory>
        requires { IsReady self.old.settling.run.engine.budget self.old.settling }
        ensures gives { let names = names_of natives.now in
            IfOk result (λ step.
            MovesAlong names step steps.new steps.old self.new self.old
            (way_on self.old (postauth_ended names self.old next (verdict code value)))) }
        ensures counts { Counts (names_of natives.now) steps.new steps.old self.new self.old }
        ensures most { let names = names_of natives.now in
            OnErr result
            (WayWithin names steps.new steps.old self.new self.old
            (way_on self.old (postauth_ended names self.old next (verdict code value)))) }
        ensures lowers { IfOk result (λ step.
            LowersIn (Task.Postauth next) step self.new self.old) }
        ensures same { IsSameRun self.new self.old }
        ensures holds { Holds self.new self.old }
        ensures next { IfOk result (λ step. MoveStandsAt step self.new) }
        ensures falls { IfOk result (λ step. PartFalls step self.new self.old) }
    {
        made_grows::<RunHost>();
        let budget = self.settling.run.engine.left();
        let after = self.after_filter(code, &value)?;
        match after {
            After::Next => self.postauth(natives, next, budget, steps),
            After::Behind => self.serve(natives, budget, steps),
            After::Responds(response) => Ok(self.respond(response)),
        }
    }

    /// Calls the procedure, or asks for the page; what is neither is not found.
    #[inline(always)]
    fn serve<L: Ledger>(
        &mut self,
        natives: &Natives,
        budget: u64,
        steps: &mut Steps<L>,
    ) -> Result<Move, NoMemory>
        requires { IsReady budget self.old.settling }
        ensures gives { let names = names_of natives.now in
            IfOk result (λ step.
            MovesAlong names step steps.new steps.old self.new self.old
            (way_from self.old budget (served names self.old))) }
        ensures counts { Counts (names_of natives.now) steps.new steps.old self.new self.old }
        ensures most { let names = names_of natives.now in
            OnErr result
            (WayWithin names steps.new steps.old self.new self.old
            (way_from self.old budget (served names self.old))) }
        ensures lowers { IfOk result (λ step. Lowers step self.new 1) }
        ensures same { IsSameRun self.new self.old }
        ensures holds { Holds self.new self.old }
        ensures next { IfOk result (λ step. MoveStandsAt step self.new) }
        ensures falls { IfOk result (λ step. PartFalls step self.new self.old) }
    {
        made_grows::<RunHost>();
        let serving = copy_serving(self.alloc, &self.visit.serving)?;
        match serving {
            Serving::Procedure(words) => {
                let called = words.copy(self.alloc)?;
                drop(words);
                self.call(natives, Task::Procedure, called, budget, steps)
            }
            Serving::Page(path) => self.ask_page(path, budget),
            Serving::Nothing => {
                let response = plain_reply(self.alloc, NOT_FOUND)?;
                Ok(self.respond(response))
            }
        }
    }

    /// Enters the first page by the answer to its question, which costs nothing, or responds that it can't.
    pub(crate) fn enter_page<L: Ledger>(
        &mut self,
        natives: &Natives,
        answer: Answer,
        steps: &mut Steps<L>,
    ) -> Result<Move, NoMemory>
        requires { (path : Bytes) × (budget : ℕ) × (self.old.task ≡ Task.PageAsked path budget)
            × IsReady budget self.old.settling }
        ensures gives { let names = names_of natives.now in
            IfOk result (λ step.
            MovesAlong names step steps.new steps.old self.new self.old
            (page_way names self.old answer)) }
        ensures counts { Counts (names_of natives.now) steps.new steps.old self.new self.old }
        ensures most { let names = names_of natives.now in
            OnErr result
            (WayWithin names steps.new steps.old self.new self.old
            (page_way names self.old answer)) }
        ensures lowers { IfOk result (λ step. Lowers step self.new 1) }
        ensures same { IsSameRun self.new self.old }
        ensures holds { Holds self.new self.old }
        ensures next { IfOk result (λ step. MoveStandsAt step self.new) }
        ensures falls { IfOk result (λ step.
            (before : ℕ) → per_question * self.old.settling.questions ≤ before
            → MoveFalls step self.new before) }
    {
        made_grows::<RunHost>();
        let (words, budget) = page_words(self.alloc, &self.task)?;
        let host = self.settling.run.engine.host_mut();
        let reply = host.answered(&words, &answer);
        drop(words);
        let found = entered(reply)?;
        match found {
            Some(work) => {
                drop(answer);
                self.run(natives, Task::Page, work, budget, steps)
            }
            None => {
                let response = unentered(self.alloc, &answer)?;
                drop(answer);
                Ok(self.respond(response))
            }
        }
    }

    /// Asks for the first page, from the global frame and outside of every page.
    #[inline(never)]
    fn ask_page(&mut self, path: Text, budget: u64) -> Result<Move, NoMemory>
        ensures asks { IfOk result (λ step. step ≡ Move.Stops (Next.Asks (page_question path))) }
        ensures state { interp_state self.new ≡ outset (interp_state self.old) }
        ensures task { IfOk result (λ _. self.new.task ≡ Task.PageAsked path budget) }
        ensures questions { self.new.settling.questions ≡ self.old.settling.questions }
        ensures inner { self.new.settling.inner ≡ self.old.settling.inner }
        ensures same { IsSameRun self.new self.old }
        ensures holds { Holds self.new self.old }
    {
        self.settling.run.set_out();
        let question = page_question(self.alloc, path.copy(self.alloc)?)?;
        let path = BoxedText::new(self.alloc, path)?;
        self.task = Task::PageAsked { path, budget };
        Ok(Move::Stops(Next::Asks(question)))
    }

    /// A response is to be written.
    #[inline(always)]
    pub(crate) fn respond(&mut self, response: SharedResponse) -> Move
        ensures stops { result ≡ Move.Stops (Next.Write response) }
        ensures task { self.new ≡ record self.old { task = Task.Writing Ending.Answered } }
    {
        self.task = Task::Writing {
            ending: Ending::Answered,
        };
        Move::Stops(Next::Write(response))
    }

    /// The request failed, whatever response was given.
    #[inline(never)]
    fn fail(&mut self) -> Result<Move, NoMemory>
        ensures stops { IfOk result (λ step. step ≡ Move.Stops (Next.Write failed)) }
        ensures task { IfOk result (λ _. IsToWrite self.new self.old) }
        ensures rest { ChangesTask self.new self.old }
        ensures same { IsSameRun self.new self.old }
        ensures holds { Holds self.new self.old }
    {
        let response = failed(self.alloc)?;
        Ok(self.respond(response))
    }

    /// The procedure has ended.
    pub(crate) fn end_procedure(&mut self, code: u8) -> Result<Move, NoMemory>
        ensures stops { IfOk result (λ step.
            step
            ≡ Move.Stops
            (Next.Write (procedure_reply code (interp_state self.old).host.conn.response))) }
        ensures task { IfOk result (λ _. IsToWrite self.new self.old) }
        ensures rest { ChangesTask self.new self.old }
        ensures same { IsSameRun self.new self.old }
        ensures holds { Holds self.new self.old }
    {
        let given = self.settling.run.engine.host().response();
        let response = procedure_reply(self.alloc, code, given)?;
        Ok(self.respond(response))
    }

    /// The first page has ended.
    #[inline(never)]
    pub(crate) fn end_page(&mut self) -> Result<Move, NoMemory>
        ensures stops { IfOk result (λ step.
            step ≡ Move.Stops (Next.Write (page_reply (interp_state self.old).host))) }
        ensures task { IfOk result (λ _. IsToWrite self.new self.old) }
        ensures rest { ChangesTask self.new self.old }
        ensures same { IsSameRun self.new self.old }
        ensures holds { Holds self.new self.old }
    {
        let response = page_reply(self.alloc, self.settling.run.engine.host())?;
        Ok(self.respond(response))
    }
}
