//! An `if` for which nothing is put on the stack.

ghost use Rattle.std.specs.Prelude.{◌≡◌, ◌≤◌, ℕ, suc, [], IfOk, IsTrue, OnOk};
ghost use Rattle.natives.specs.Names.{has_name, names_of};
ghost use Rattle.tcl_parse.specs.Tree.{Words};
ghost use Rattle.tcl_eval.specs.Eval.{arg, command_cost, do_if, nested, run_commands, run_script, unread};
ghost use Rattle.tcl_eval.specs.Branches.{choose};
ghost use Rattle.tcl_eval.specs.Choices.{AsItWas, CameTo};
ghost use Rattle.tcl_eval.specs.Places.{tree_of};
ghost use Rattle.tcl_eval.specs.Straight.{CallsVerb, IsNamed, IsOwn, Straightly};
ghost use Rattle.tcl_eval.specs.Engine.{Holds};
ghost use Rattle.tcl_eval.specs.Clauses.{IsLeftOf, Tries};
ghost use Rattle.tcl_eval.specs.declared.verb.Verb.{Verb};

use crate::branch::{Branches, read_branches};
use crate::condition::Chosen;
use crate::engine::Engine;
use crate::gather::Gathered;
use crate::place::is_one_command;
use crate::stack::Once;
use crate::straight::Tried;
use crate::value::wrong_words;
use crate::verb::{Verb, find_verb};
use crate::words::{behind_name, first_word};
use natives::Natives;
use parse_cache::Reading;
use std::alloc::Global;
use tcl_host::Host;
use tcl_parse::Script;
use tcl_varcmd::is_var_command;
use txt_core::{NoMemory, Text, Words};

/// Whether words begin with the name of a native.
fn is_native(alloc: Global, natives: &Natives, words: &Words) -> bool
    ensures { result ≡ has_name (names_of natives.now) (arg words.now 0) }
{
    let empty = Text::empty(alloc);
    natives.find(first_word(words, &empty)).is_some()
}

#[tactic(auto, using(crate::proofs::Stacks::frees_push))]
impl<H: Host> Engine<H> {
    /// Whether words call `if`.
    fn is_if(&self, natives: &Natives, words: &Words) -> bool
        ensures own { IsTrue result → IsOwn self.now.table.table words.now }
        ensures named { IsTrue result → IsNamed Verb.If (names_of natives.now) words.now }
    {
        let verb = find_verb(words.bytes_at(0));
        if verb != Verb::If {
            return false;
        }
        if is_native(self.alloc, natives, words) {
            return false;
        }
        if is_var_command(words) {
            return false;
        }
        self.is_own(words)
    }

    /// Runs a script, where it is one command that comes to a value straight away.
    pub(crate) fn run_once(&mut self, natives: &Natives, script: &Script) -> Result<Once, NoMemory>
        ensures means { IfOk result (λ once.
            (levels : ℕ)
            → CameTo once self.new self.old
            (run_commands (names_of natives.now) H.table
            (nested (names_of natives.now) H.table levels) (tree_of script.now) [])) }
        ensures left { IfOk result (λ once. AsItWas once self.new self.old) }
        ensures straight { OnOk result (Straightly self.new self.old) }
        ensures holds { Holds self.new self.old }
    {
        if !is_one_command(script) {
            return Ok(Once::Left);
        }
        match self.try_simple(natives, script, 0)? {
            Tried::Gives(value) => Ok(Once::Gives(value)),
            Tried::Spent => Ok(Once::Spent),
            Tried::Left(values) => {
                self.spare.put(values);
                Ok(Once::Left)
            }
            Tried::Costly(_) => Ok(Once::Left),
            Tried::Evaluates(evaluation) => {
                drop(evaluation);
                Ok(Once::Left)
            }
        }
    }

    /// Runs the body of an `if`, where it is one command that comes to a value straight away. A level is
    /// left to it at least.
    fn body_once(&mut self, natives: &Natives, text: &Text) -> Result<Once, NoMemory>
        ensures means { IfOk result (λ once.
            (levels : ℕ)
            → CameTo once self.new self.old
            (run_script (names_of natives.now) H.table (suc levels) (unread text.now))) }
        ensures straight { OnOk result (Straightly self.new self.old) }
        ensures holds { Holds self.new self.old }
    {
        match self.readings.read(self.alloc, text)? {
            Reading::Fault { .. } => Ok(Once::Left),
            Reading::Script(script) => {
                let once = self.run_once(natives, &script)?;
                Ok(once)
            }
        }
    }

    /// Does an `if` of these conditions and bodies, as far as nothing is put on the stack for it. A level is
    /// left to its body at least.
    fn choose_once(&mut self, natives: &Natives, branches: &Branches) -> Result<Once, NoMemory>
        ensures means { IfOk result (λ once.
            (levels : ℕ)
            → CameTo once self.new self.old
            (choose (nested (names_of natives.now) H.table (suc levels)) branches.now.clauses
            branches.now.last)) }
        ensures straight { OnOk result (Straightly self.new self.old) }
        ensures holds { Holds self.new self.old }
    {
        match self.choose_straight(branches, 0)? {
            Chosen::Ends(value) => Ok(Once::Gives(value)),
            Chosen::Spent => Ok(Once::Spent),
            Chosen::Body(body) => {
                let once = self.body_once(natives, body)?;
                Ok(once)
            }
            Chosen::Waits { .. } => Ok(Once::Left),
        }
    }

    /// Does an `if` of these words, as far as nothing is put on the stack for it. A level is left to its body
    /// at least.
    fn if_once(&mut self, natives: &Natives, words: &Words) -> Result<Once, NoMemory>
        ensures means { IfOk result (λ once.
            (levels : ℕ)
            → CameTo once self.new self.old
            (do_if (nested (names_of natives.now) H.table (suc levels)) words.now)) }
        ensures straight { OnOk result (Straightly self.new self.old) }
        ensures holds { Holds self.new self.old }
    {
        match read_branches(self.alloc, behind_name(words))? {
            None => Ok(Once::Gives(wrong_words(self.alloc, words)?)),
            Some(branches) => {
                let once = self.choose_once(natives, &branches)?;
                Ok(once)
            }
        }
    }

    /// Does an `if`, to whose body a level is left at least, and pays for it, where so much is left of the
    /// budget and nothing is put on the stack for it.
    fn pay_if(&mut self, natives: &Natives, values: Gathered, cost: u64) -> Result<Tried, NoMemory>
        requires costs { cost ≡ command_cost values }
        requires enough { cost ≤ self.old.budget }
        ensures means { IfOk result (λ tried.
            (levels : ℕ) (words : Words)
            → CallsVerb Verb.If (names_of natives.now) self.old.table.table values
            → Tries (names_of natives.now) H.table (suc levels) words values tried self.new
            self.old) }
        ensures size { IfOk result (λ tried. IsLeftOf values tried) }
        ensures straight { OnOk result (Straightly self.new self.old) }
        ensures holds { Holds self.new self.old }
    {
        let before = self.budget;
        self.budget -= cost;
        match self.if_once(natives, values.words())? {
            Once::Spent => Ok(Tried::Spent),
            Once::Gives(value) => {
                self.spare.put(values);
                let tried = self.end_tried(value)?;
                Ok(tried)
            }
            Once::Left => {
                self.budget = before;
                Ok(Tried::Left(values))
            }
        }
    }

    /// Does a command whose words are all there, where it is an `if` that comes to a value straight away, and
    /// pays for it. So many levels are left to its body.
    #[inline(never)]
    fn try_if(
        &mut self,
        natives: &Natives,
        values: Gathered,
        levels: u32,
    ) -> Result<Tried, NoMemory>
        ensures means { IfOk result (λ tried.
            (words : Words)
            → Tries (names_of natives.now) H.table levels words values tried self.new self.old) }
        ensures size { IfOk result (λ tried. IsLeftOf values tried) }
        ensures straight { OnOk result (Straightly self.new self.old) }
        ensures holds { Holds self.new self.old }
    {
        if levels == 0 {
            return Ok(Tried::Left(values));
        }
        let cost = values.cost();
        if (self.budget as u128) < cost {
            return Ok(Tried::Left(values));
        }
        if !self.is_if(natives, values.words()) {
            return Ok(Tried::Left(values));
        }
        let tried = self.pay_if(natives, values, cost as u64)?;
        Ok(tried)
    }

    /// Does a command whose words are all there, an `if` too, and pays for it, where it comes to a value
    /// straight away and so much is left of the budget. So many levels are left to what it runs.
    pub(crate) fn try_whole(
        &mut self,
        natives: &Natives,
        values: Gathered,
        levels: u32,
    ) -> Result<Tried, NoMemory>
        ensures means { IfOk result (λ tried.
            (words : Words)
            → Tries (names_of natives.now) H.table levels words values tried self.new self.old) }
        ensures size { IfOk result (λ tried. IsLeftOf values tried) }
        ensures straight { OnOk result (Straightly self.new self.old) }
        ensures holds { Holds self.new self.old }
    {
        match self.try_command(natives, values)? {
            Tried::Left(values) => {
                let tried = self.try_if(natives, values, levels)?;
                Ok(tried)
            }
            tried => Ok(tried),
        }
    }
}
