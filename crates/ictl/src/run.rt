//! Runs: an interpreter with what it answered last.

ghost use Rattle.std.specs.Prelude.{◌≡◌, ◌+◌, [], false};
ghost use Rattle.natives.specs.Names.{names_of};
ghost use Rattle.outside.specs.declared.question.Answer.{Answer};
ghost use Rattle.outside.specs.declared.question.Question.{Question};
ghost use Rattle.http_req.specs.declared.request.Request.{Request};
ghost use Rattle.ictl.specs.Main.{Main, Script, Define, both, answered};
ghost use Rattle.ictl.specs.Standing.{CountsMade};
ghost use Rattle.ictl.specs.Interps.{IsNew, Holds, IsSameRun, ending_of, taken, Counts, UnlessNoMemory, Stands, GoesOn, StandsOn, StaysSound, Begins, BeginsWithin, GoesBehind, BehindWithin, IsVisitOf, AnswerWithin};
ghost use Rattle.ictl.specs.Falls.{StandsAt, number_of, first_number, Falls};

use crate::boxed::BoxedInterp;
use crate::next::Next;
use cmd_table::Steps;
use http_req::BoxedRequest;
use natives::Natives;
use outside::{Answer, Question};
use std::marker::Model;
use std::mem;
use std::sync::ledger::Ledger;
use txt_core::{Text, Words};

/// A run of an interpreter, with what it answered last. The interpreter is in it until it is taken back,
/// and stands at what the run answered; so an answer can't be given to another one. Contracts see both.
#[derive(Drop)]
pub struct Run {
    next: Next,
    interp: BoxedInterp,
}

impl Model for Run {
    ghost use Rattle.ictl.specs.Came.{Came};
    ghost use Rattle.ictl.specs.CameCode.{came_code};
    ghost use Rattle.ictl.specs.Falls.{StandsAt};

    ghost Value = { Came };

    ghost coded = { came_code };

    ghost view = { λ a. record { next = a.next; interp = a.interp } };

    ghost invariant = { λ a. StandsAt a.next a.interp };
}

impl Run {
    ghost use Rattle.ictl.specs.Came.{IsAtQuestion, IsAtResponse, Takes, given_up};

    /// Begins the run of a request, which came at this moment, in seconds since 1970, in an interpreter
    /// that is as newly made.
    ///
    /// It goes through the preauth filters, the authorisation, the postauth filters and the procedure or
    /// page, with one budget. It stands then at a question or at its response; the run ends only behind
    /// that. Where memory wants, the interpreter is in any state, but its blueprint stays, and `reset`
    /// makes it as newly made.
    ///
    /// The steps are the entries that the run wrote in its own table, and those that its runs inside
    /// wrote, from their making on. Where memory wants, each entry of its own table is counted too, and
    /// no more than what the run writes.
    pub fn start_request<L: Ledger>(
        mut interp: BoxedInterp,
        natives: &Natives,
        request: BoxedRequest,
        moment: u64,
        steps: &mut Steps<L>,
    ) -> Run
        requires { IsNew (names_of natives.now) interp }
        ensures stands { let names = names_of natives.now in
            Begins names (Main names interp.blueprint.value request moment) result.next steps.new
            steps.old result.interp interp }
        ensures counts { Counts (names_of natives.now) steps.new steps.old result.interp interp }
        ensures most { let names = names_of natives.now in
            BeginsWithin (Main names interp.blueprint.value request moment) steps.new steps.old
            result.interp }
        ensures visit { UnlessNoMemory result.next
            (IsVisitOf (names_of natives.now) request moment result.interp interp) }
        ensures holds { Holds result.interp interp }
        ensures sound { StaysSound result.interp interp }
        ensures falls { Falls result.next result.interp first_number }
    {
        let next = interp.interp.start_request(natives, request, moment, steps);
        Run { next, interp }
    }

    /// Begins the run of a scheduled script at this moment, without a connection, in an interpreter that is
    /// as newly made.
    ///
    /// It stands at a question, or the run ended with the code and result of the script, or was spent or
    /// too deep. No filter and no cleanup script follows. Where memory wants it is as with a request.
    pub fn start_script<L: Ledger>(
        mut interp: BoxedInterp,
        natives: &Natives,
        script: &Text,
        moment: u64,
        steps: &mut Steps<L>,
    ) -> Run
        requires { IsNew (names_of natives.now) interp }
        ensures stands { let names = names_of natives.now in
            Begins names (Script names interp.blueprint.value script.now moment) result.next
            steps.new steps.old result.interp interp }
        ensures counts { Counts (names_of natives.now) steps.new steps.old result.interp interp }
        ensures most { let names = names_of natives.now in
            BeginsWithin (Script names interp.blueprint.value script.now moment) steps.new
            steps.old result.interp }
        ensures holds { Holds result.interp interp }
        ensures sound { StaysSound result.interp interp }
        ensures falls { Falls result.next result.interp first_number }
    {
        let next = interp.interp.start_script(natives, script, moment, steps);
        Run { next, interp }
    }

    /// Begins the definition run of a script at this moment, without a connection, in an interpreter that is
    /// as newly made.
    ///
    /// Where the script ends well and made anything, what it made is to be published: the question has the
    /// script of that as its one word. A refusal is an error with its reason; else, and where nothing was
    /// made, the run ends with code 0 and the result of the script. It ends with code 1 and the script's
    /// error where that ends so; `break` and `continue` are errors. No response comes of it, and nothing
    /// runs inside it. Where memory wants it is as with a request.
    pub fn start_define<L: Ledger>(
        mut interp: BoxedInterp,
        natives: &Natives,
        script: &Text,
        moment: u64,
        steps: &mut Steps<L>,
    ) -> Run
        requires { IsNew (names_of natives.now) interp }
        ensures stands { let names = names_of natives.now in
            Stands names (Define names interp.blueprint.value script.now moment) result.next 0
            result.interp [] }
        ensures steps { CountsMade steps.new steps.old result.interp.settling.run
            interp.settling.run }
        ensures most { let names = names_of natives.now in
            BeginsWithin (Define names interp.blueprint.value script.now moment) steps.new
            steps.old result.interp }
        ensures holds { Holds result.interp interp }
        ensures sound { StaysSound result.interp interp }
        ensures falls { Falls result.next result.interp first_number }
    {
        let next = interp.interp.start_define(natives, script, moment, steps);
        Run { next, interp }
    }

    /// What it answered last, and so what is to be done next. It takes no memory.
    pub fn next(&self) -> &Next
        ensures next { result.now ≡ self.now.next }
        ensures stands { StandsAt self.now.next self.now.interp }
    {
        &self.next
    }

    /// The epoch of the interpreter's blueprint. It takes no memory.
    pub fn epoch(&self) -> u64
        ensures { result ≡ self.now.interp.blueprint.value.epoch }
    {
        self.interp.epoch()
    }

    /// Takes the question out, where it stands at one; else there is none. It stands there until `resume`
    /// gives the answer, but the words of the question are gone. It takes no memory.
    pub fn take_question(&mut self) -> Option<Question>
        ensures { Takes result self.old self.new }
    {
        let alloc = self.interp.interp.alloc;
        match &mut self.next {
            Next::Asks(question) => Some(Question {
                service: question.service,
                words: mem::replace(&mut question.words, Words::new(alloc)),
            }),
            _ => None,
        }
    }

    /// Goes on with the answer to the question at which it stands. Where memory wants, the interpreter is
    /// in any state, but its blueprint stays, and `reset` makes it as newly made. The steps are as at
    /// `start_request`.
    pub fn resume<L: Ledger>(&mut self, natives: &Natives, answer: Answer, steps: &mut Steps<L>)
        requires { IsAtQuestion self.old }
        ensures step { let names = names_of natives.now in
            GoesOn names self.new.next
            (taken names steps.new steps.old self.new.interp self.old.interp) self.new.interp
            self.old.interp answer }
        ensures stands { let names = names_of natives.now in
            StandsOn names self.new.next
            (taken names steps.new steps.old self.new.interp self.old.interp) self.new.interp
            self.old.interp answer }
        ensures counts { Counts (names_of natives.now) steps.new steps.old self.new.interp
            self.old.interp }
        ensures most { let names = names_of natives.now in
            AnswerWithin names answer steps.new steps.old self.new.interp self.old.interp }
        ensures same { IsSameRun self.new.interp self.old.interp }
        ensures holds { Holds self.new.interp self.old.interp }
        ensures sound { StaysSound self.new.interp self.old.interp }
        ensures falls { Falls self.new.next self.new.interp (number_of self.old.interp) }
    {
        self.next = self.interp.interp.resume(natives, answer, steps);
    }

    /// Tells that the response at which it stands was written, whole or not. Behind a whole one the trace
    /// filters and then the cleanup scripts run, with a budget anew; they may ask. Behind one that wasn't
    /// written whole nothing runs: the run ends at once, as it ended up to the response, and no memory is
    /// wanted.
    pub fn written<L: Ledger>(&mut self, natives: &Natives, whole: bool, steps: &mut Steps<L>)
        requires { IsAtResponse self.old }
        ensures stands { let names = names_of natives.now in
            GoesBehind names whole self.new.next steps.new steps.old self.new.interp
            self.old.interp }
        ensures unwritten { whole ≡ false
            → (self.new.next ≡ Next.Ended (both (ending_of self.old.interp.task) answered))
            × (steps.new ≡ steps.old) }
        ensures counts { Counts (names_of natives.now) steps.new steps.old self.new.interp
            self.old.interp }
        ensures most { let names = names_of natives.now in
            BehindWithin names whole steps.new steps.old self.new.interp self.old.interp }
        ensures same { IsSameRun self.new.interp self.old.interp }
        ensures holds { Holds self.new.interp self.old.interp }
        ensures sound { StaysSound self.new.interp self.old.interp }
        ensures falls { Falls self.new.next self.new.interp first_number }
    {
        self.next = self.interp.interp.written(natives, whole, steps);
    }

    /// Memory wanted for what was to be done next: nothing more comes of it. It takes no memory.
    pub fn give_up(&mut self)
        ensures { self.new ≡ given_up self.old }
    {
        self.next = Next::NoMemory;
    }

    /// What it answered last, and the interpreter, which `reset` makes as newly made. It takes no memory.
    pub fn into_parts(self) -> (Next, BoxedInterp)
        ensures next { result.0 ≡ self.next }
        ensures interp { result.1 ≡ self.interp }
        ensures stands { StandsAt self.next self.interp }
    {
        let Run { next, interp } = self;
        (next, interp)
    }
}
