//! Calls of procedures. Where a body comes to its value straight away, nothing is put on the stack for
//! its call.

ghost use Rattle.std.specs.Prelude.{◌≡◌, ◌≤◌, ◌+◌, IfOk, IfSome, OnOk, Ok};
ghost use Rattle.natives.specs.Names.{names_of};
ghost use Rattle.tcl_frame.specs.Frames.{popped};
ghost use Rattle.txt_core.specs.Names.{Names};
ghost use Rattle.tcl_eval.specs.Calls.{IsCalled};
ghost use Rattle.tcl_eval.specs.Eval.{call_bound, call_proc, command, command_end, give, nested, proc_end, unread, write_all};
ghost use Rattle.tcl_eval.specs.Stack.{stack_weight, step_weight};
ghost use Rattle.tcl_eval.specs.Straight.{Alike, Straightly};
ghost use Rattle.tcl_eval.specs.Turns.{IsSet, ran_next};
ghost use Rattle.tcl_eval.specs.Engine.{Holds, Nears, Remains, Stays, credit};
ghost use Rattle.tcl_eval.specs.Clauses.{GoneIs, StepIs};

use crate::cost::command_cost;
use crate::engine::Engine;
use crate::loop_turns::Ran;
use crate::stack::{Ended, Frame, Gone, Step};
use crate::value::{error, returned};
use crate::words::first_word;
use cmd_table::Cmd;
use natives::Natives;
use tcl_host::Host;
use txt_core::{NoMemory, Pairs, Text, Words};

/// The parameters and the body of a procedure that is called.
#[derive(Drop)]
pub struct Called {
    pub params: Text,
    pub body: Text,
}

#[tactic(auto, using(crate::proofs::Stacks::frees_push))]
impl<H: Host> Engine<H> {
    /// The procedure that words call, if they call one.
    pub(crate) fn procedure(&self, words: &Words) -> Result<Option<Called>, NoMemory>
        ensures { IfOk result (λ found. IfSome found (λ called.
            IsCalled self.now.table.table words.now called)) }
    {
        let empty = Text::empty(self.alloc);
        match self.table.get(first_word(words, &empty)) {
            Some(Cmd::Proc { params, body }) => Ok(Some(Called {
                params: params.copy(self.alloc)?,
                body: body.copy(self.alloc)?,
            })),
            Some(Cmd::Built(_)) | None => Ok(None),
        }
    }

    /// Pays for a call of a procedure and does it, as far as nothing is put on the stack for its body.
    #[inline(never)]
    pub(crate) fn call(
        &mut self,
        natives: &Natives,
        called: Called,
        words: &Words,
        levels: u32,
    ) -> Result<Gone, NoMemory>
        requires { IsCalled self.old.table.table words.now called }
        ensures means { IfOk result (λ gone.
            GoneIs (names_of natives.now) H.table gone self.new self.old
            (command (names_of natives.now) H.table (nested (names_of natives.now) H.table levels)
            words.now)) }
        ensures nears { IfOk result (λ gone. Nears gone self.new (credit self.old)) }
        ensures remains { OnOk result (Remains self.new self.old) }
        ensures holds { Holds self.new self.old }
    {
        if !self.pay(command_cost(words)) {
            return Ok(Gone::Spent);
        }
        let step = self.call_paid(natives, &called, words, levels)?;
        Ok(Gone::Goes(step))
    }

    /// Does a call of a procedure that was paid for, as far as nothing is put on the stack for its body.
    fn call_paid(
        &mut self,
        natives: &Natives,
        called: &Called,
        words: &Words,
        levels: u32,
    ) -> Result<Step, NoMemory>
        ensures means { IfOk result (λ step.
            StepIs (names_of natives.now) H.table step self.new self.old (λ k.
            call_proc (nested (names_of natives.now) H.table levels) called.now.params
            called.now.body words.now (command_end k))) }
        ensures keeps { IfOk result (λ step. Stays step self.new self.old) }
        ensures holds { Holds self.new self.old }
    {
        match self.readings.bind(self.alloc, &called.params, words)? {
            Err(message) => {
                let refused = error(self.alloc, message)?;
                let step = self.end_command(refused)?;
                Ok(step)
            }
            Ok(values) => {
                let step = self.call_bound(natives, values, &called.body, levels)?;
                Ok(step)
            }
        }
    }

    /// Calls a procedure whose parameters have these values, as far as nothing is put on the stack for its
    /// body.
    fn call_bound(
        &mut self,
        natives: &Natives,
        values: Pairs,
        body: &Text,
        levels: u32,
    ) -> Result<Step, NoMemory>
        ensures means { IfOk result (λ step.
            StepIs (names_of natives.now) H.table step self.new self.old (λ k.
            call_bound (nested (names_of natives.now) H.table levels) (Ok values) body.now
            (command_end k))) }
        ensures keeps { IfOk result (λ step. Stays step self.new self.old) }
        ensures holds { Holds self.new self.old }
    {
        self.frames.push()?;
        let ran = self.run_body(natives, values, body, levels)?;
        let step = self.leave(ran)?;
        Ok(step)
    }

    /// Writes the values of a procedure's parameters, and runs its body as far as nothing is put on the stack
    /// for it.
    fn run_body(
        &mut self,
        natives: &Natives,
        values: Pairs,
        body: &Text,
        levels: u32,
    ) -> Result<Ran, NoMemory>
        ensures means { IfOk result (λ ran.
            Alike self.new self.old (ran_next (names_of natives.now) H.table ran) (λ k.
            write_all values
            ((nested (names_of natives.now) H.table levels).run (unread body.now) k) k)) }
        ensures set { IfOk result (λ ran. IsSet ran) }
        ensures straight { OnOk result (Straightly self.new self.old) }
        ensures holds { Holds self.new self.old }
    {
        match self.write_all(values)? {
            Some(refused) => Ok(Ran::Ends(refused)),
            None => {
                let reading = self.readings.read(self.alloc, body)?;
                let ran = self.run_reading(natives, reading, levels)?;
                Ok(ran)
            }
        }
    }

    /// Goes on where the body of a procedure stands, behind which its call ends.
    fn leave(&mut self, ran: Ran) -> Result<Step, NoMemory>
        requires { IsSet ran }
        ensures means { IfOk result (λ step.
            (names : Names)
            → StepIs names H.table step self.new self.old
            (λ k. ran_next names H.table ran (proc_end (command_end k)))) }
        ensures keeps { IfOk result (λ step. Stays step self.new self.old) }
        ensures holds { Holds self.new self.old }
    {
        match ran {
            Ran::Ends(value) => {
                let step = self.end_call(value)?;
                Ok(step)
            }
            ran => {
                self.stack.push(Frame::ProcedureResult)?;
                let step = self.enter_ran(ran)?;
                Ok(step)
            }
        }
    }

    /// Lets the frame of variables of a procedure go.
    fn drop_frame(&mut self)
        ensures { self.new ≡ record self.old { frames = popped self.old.frames } }
    {
        // The call put a frame there, which nothing else takes away. No fact says so here, and `pop`
        // wants a frame above the global one.
        if self.frames.depth() > 0 {
            self.frames.pop();
        }
    }

    /// Ends the body of a procedure, whose frame of variables goes: this is what its call comes to.
    pub(crate) fn end_body(&mut self, value: Ended) -> Result<Ended, NoMemory>
        ensures means { IfOk result (λ after.
            Alike self.new self.old (give after) (λ k. proc_end k value.code value.result)) }
        ensures straight { OnOk result (Straightly self.new self.old) }
        ensures holds { Holds self.new self.old }
    {
        self.drop_frame();
        let after = returned(self.alloc, value)?;
        Ok(after)
    }

    /// Ends a call of a procedure whose body came to this, and pays for its result.
    #[inline(never)]
    pub(crate) fn end_call(&mut self, value: Ended) -> Result<Step, NoMemory>
        ensures means { IfOk result (λ step.
            (names : Names)
            → StepIs names H.table step self.new self.old
            (λ k. proc_end (command_end k) value.code value.result)) }
        ensures falls { IfOk result (λ step.
            stack_weight self.new.stack.items + step_weight step
            ≤ stack_weight self.old.stack.items) }
        ensures keeps { IfOk result (λ step. Stays step self.new self.old) }
        ensures holds { Holds self.new self.old }
    {
        let after = self.end_body(value)?;
        let step = self.end_command(after)?;
        Ok(step)
    }
}
