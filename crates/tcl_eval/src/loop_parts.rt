//! Scripts of a loop, its body and the one between two turns, for which nothing is put on the stack.

ghost use Rattle.std.specs.Prelude.{[], IfOk, IfSome, OnOk};
ghost use Rattle.natives.specs.Names.{names_of};
ghost use Rattle.txt_core.specs.Names.{Names};
ghost use Rattle.tcl_eval.specs.Eval.{fails, nested, run_commands, run_script, unread};
ghost use Rattle.tcl_eval.specs.Loops.{in_loop};
ghost use Rattle.tcl_eval.specs.Messages.{script_fault};
ghost use Rattle.tcl_eval.specs.Places.{tree_of};
ghost use Rattle.tcl_eval.specs.Straight.{IsWithin, Straightly, stand_next};
ghost use Rattle.tcl_eval.specs.Turns.{IsEachSet, Leads, each_next};
ghost use Rattle.tcl_eval.specs.Engine.{Holds};

use crate::engine::Engine;
use crate::loop_turns::Ran;
use crate::loops::{Flow, flow_from};
use crate::message::script_fault;
use crate::stack::Ended;
use crate::straight::Stand;
use crate::value::error;
use crate::walk_turns::Each;
use natives::Natives;
use parse_cache::{ReadScript, Reading};
use std::rc::Rc;
use tcl_host::{Host, OK};
use tcl_parse::{Kind, Script};
use txt_core::NoMemory;

#[tactic(auto, using(crate::proofs::Stacks::frees_push))]
impl<H: Host> Engine<H> {
    /// A script of a loop ended with this; `None` where the loop goes on behind it.
    #[inline(never)]
    fn part_ended(&self, value: Ended) -> Option<Each>
        ensures means { (names : Names)
            → Leads self.now self.now (each_next names H.table result)
            (λ go k. in_loop go k value.code value.result) }
        ensures set { IfSome result IsEachSet }
    {
        match flow_from(self.alloc, value) {
            Flow::Ends(value) => Some(Each::Ends(value)),
            Flow::On => None,
        }
    }

    /// A script of a loop stands here, to which so many levels are left; `None` where the loop goes on
    /// behind it.
    #[inline(never)]
    fn part_stands(
        &self,
        script: &Rc<Script>,
        stand: Stand,
        levels: u32,
    ) -> Result<Option<Each>, NoMemory>
        requires { IsWithin stand }
        ensures means { IfOk result (λ each.
            (names : Names)
            → Leads self.now self.now (each_next names H.table each) (λ go k.
            stand_next names H.table (nested names H.table levels) (tree_of script.now.value) stand
            (in_loop go k))) }
        ensures set { IfOk result (λ each. IfSome each IsEachSet) }
    {
        match stand {
            Stand::Ends(value) => Ok(self.part_ended(value)),
            stand => {
                let script = script.clone()?;
                Ok(Some(Each::Body(Ran::Stands {
                    script,
                    stand,
                    levels,
                })))
            }
        }
    }

    /// The error of a script of a loop that spells none.
    #[inline(never)]
    fn part_fault(&self, kind: Kind, at: u64) -> Result<Option<Each>, NoMemory>
        ensures means { IfOk result (λ each.
            (names : Names)
            → Leads self.now self.now (each_next names H.table each)
            (λ go k. fails (script_fault kind at) (in_loop go k))) }
        ensures set { IfOk result (λ each. IfSome each IsEachSet) }
    {
        let message = script_fault(self.alloc, kind, at)?;
        Ok(Some(Each::Ends(error(self.alloc, message)?)))
    }

    /// Runs the commands of a script of a loop, to which so many levels are left, as far as nothing is put
    /// on the stack for it; `None` where the loop goes on behind it.
    #[inline(always)]
    fn part_commands(
        &mut self,
        natives: &Natives,
        script: &Rc<Script>,
        levels: u32,
    ) -> Result<Option<Each>, NoMemory>
        ensures means { IfOk result (λ each.
            Leads self.new self.old (each_next (names_of natives.now) H.table each) (λ go k.
            run_commands (names_of natives.now) H.table
            (nested (names_of natives.now) H.table levels) (tree_of script.now.value) []
            (in_loop go k))) }
        ensures set { IfOk result (λ each. IfSome each IsEachSet) }
        ensures straight { OnOk result (Straightly self.new self.old) }
        ensures holds { Holds self.new self.old }
    {
        match self.commands_straight(natives, script, 0, levels)? {
            Stand::Ends(value) => {
                if value.code == OK {
                    return Ok(None);
                }
                Ok(self.part_ended(value))
            }
            stand => {
                let each = self.part_stands(script, stand, levels)?;
                Ok(each)
            }
        }
    }

    /// Runs a script of a loop, as far as nothing is put on the stack for it; `None` where the loop goes on
    /// behind it.
    #[inline(always)]
    pub(crate) fn part_straight(
        &mut self,
        natives: &Natives,
        text: &ReadScript,
        levels: u32,
    ) -> Result<Option<Each>, NoMemory>
        ensures means { IfOk result (λ each.
            Leads self.new self.old (each_next (names_of natives.now) H.table each) (λ go k.
            run_script (names_of natives.now) H.table levels (unread text.now) (in_loop go k))) }
        ensures set { IfOk result (λ each. IfSome each IsEachSet) }
        ensures straight { OnOk result (Straightly self.new self.old) }
        ensures holds { Holds self.new self.old }
    {
        if levels == 0 {
            return Ok(Some(Each::Body(Ran::TooDeep)));
        }
        match text.as_reading() {
            Reading::Script(script) => {
                let each = self.part_commands(natives, script, levels - 1)?;
                Ok(each)
            }
            Reading::Fault { at, kind } => {
                let each = self.part_fault(*kind, *at)?;
                Ok(each)
            }
        }
    }
}
