//! Commands that come to a value straight away, for which nothing is put on the stack.

ghost use Rattle.std.specs.Prelude.{◌≡◌, ◌≤◌, ◌+◌, ◌-◌, ℕ, [], IfOk, IfSome, OnOk, IsTrue, true};
ghost use Rattle.natives.specs.Names.{names_of};
ghost use Rattle.tcl_eval.specs.declared.verb.Verb.{Verb};
ghost use Rattle.tcl_parse.specs.Tree.{Words};
ghost use Rattle.tcl_varcmd.specs.Commands.{begins_var_command, var_came};
ghost use Rattle.txt_core.specs.Names.{Names};
ghost use Rattle.tcl_eval.specs.State.{Given, Next};
ghost use Rattle.tcl_eval.specs.Eval.{Inner, act, arg, built, built_in, came_next, command_end, give, nested, on_ok, run_commands, verb_of};
ghost use Rattle.tcl_eval.specs.Places.{tree_of, command_at, commands_from, commands_size, words_size};
ghost use Rattle.tcl_eval.specs.Straight.{Alike, CallsVerb, Does, IfExpr, IfGives, IfLeft, IsDone, IsNamed, IsOwn, IsWithin, LeftAlone, Straightly, paid_next, tried_next, tried_size, stand_next, stand_size};
ghost use Rattle.tcl_eval.specs.Engine.{Holds, state_of};
ghost use Rattle.tcl_eval.specs.Clauses.{IsLeftOf, Tries, TriesCommand};

use crate::bracket::Passed;
use crate::cost::{EVALUATION_COST, result_cost};
use crate::engine::Engine;
use crate::gather::Gathered;
use crate::place::{has_command, words_of};
use crate::stack::{Ended, Evaluation};
use crate::value::{do_break, do_continue, do_error, do_return, done, failed, too_long};
use crate::verb::{Verb, find_verb};
use crate::words::{begins_with, first_word};
use cmd_table::Cmd;
use natives::{Fault, Natives};
use tcl_host::{Host, OK};
use tcl_parse::Script;
use tcl_varcmd::{is_var_command, var_command};
use txt_core::{NoMemory, Text, Words, is_too_long};

/// What a command comes to whose words were evaluated as far as nothing is run for them.
#[derive(Drop)]
pub enum Tried {
    /// This, which was paid for.
    Gives(Ended),
    /// Its result costs more than is left of the budget.
    Spent,
    /// Nothing of it was done; these are the values of its first words.
    Left(Gathered),
    /// So many of its words cost more than is left of the budget.
    Costly(usize),
    /// It is this `expr`, for which something may be run. Nothing of it was done.
    Evaluates(Evaluation),
}

/// What a command comes to whose words are all there, and which can be paid for.
#[derive(Drop)]
pub enum Straight {
    /// This.
    Gives(Ended),
    /// It is an `expr`. Nothing of it was done.
    Expr,
    /// It doesn't come to a value straight away. Nothing of it was done.
    Other,
}

/// Where a script stands whose first commands were done straight away.
#[derive(Drop)]
pub enum Stand {
    /// It ends with this.
    Ends(Ended),
    /// A result costs more than is left of the budget.
    Spent,
    /// The command at this place is still to be done; these are the values of its first words.
    Waits { at: usize, values: Gathered },
    /// So many words of the command at this place cost more than is left of the budget.
    Costly { at: usize, word: usize },
    /// The command at this place is this `expr`, which is still to be done.
    Evaluates { at: usize, evaluation: Evaluation },
}

#[tactic(auto, using(crate::proofs::Stacks::frees_push))]
impl<H: Host> Engine<H> {
    /// Whether words call a built-in by its own name.
    pub(crate) fn is_own(&self, words: &Words) -> bool
        ensures { IsTrue result → IsOwn self.now.table.table words.now }
    {
        let empty = Text::empty(self.alloc);
        match self.table.get(first_word(words, &empty)) {
            Some(Cmd::Built(own)) => begins_with(words, own),
            Some(Cmd::Proc { .. }) | None => false,
        }
    }

    /// Does a command on variables.
    pub(crate) fn write_variables(&mut self, words: &Words) -> Result<Ended, NoMemory>
        requires { begins_var_command words.now ≡ true }
        ensures means { IfOk result (λ value.
            Does self.new self.old value (λ k state.
            came_next (var_came state.frames words.now) k state)) }
        ensures rest { OnOk result (self.new ≡ record self.old { frames = self.new.frames }) }
        ensures holds { Holds self.new self.old }
    {
        match var_command(self.alloc, &mut self.frames, words) {
            Ok(result) => Ok(Ended { code: OK, result }),
            Err(Fault::Error(message)) => Ok(failed(message)),
            Err(Fault::NoMemory) => Err(NoMemory),
        }
    }

    /// What a built-in comes to that ends what is under way; `None` for another one.
    fn end_value(&self, verb: Verb, words: &Words) -> Result<Option<Ended>, NoMemory>
        ensures means { IfOk result (λ value. IfSome value (λ ended.
            (names : Names) (inner : Inner H) (k : Next H)
            → give ended k ≡ built_in names H.table inner verb words.now k)) }
    {
        let value = match verb {
            Verb::Return => do_return(self.alloc, words)?,
            Verb::Error => do_error(self.alloc, words)?,
            Verb::Break => do_break(self.alloc, words)?,
            Verb::Continue => do_continue(self.alloc, words)?,
            _ => return Ok(None),
        };
        Ok(Some(value))
    }

    /// Does a built-in of the language, whose own name is the first word, where it ends what is under way.
    fn language_value(&self, words: &Words) -> Result<Straight, NoMemory>
        ensures means { IfOk result (λ straight. IfGives straight (λ ended.
            (names : Names) (inner : Inner H) (k : Next H)
            → give ended k
            ≡ built_in names H.table inner (verb_of (arg words.now 0)) words.now k)) }
        ensures expr { IfOk result (λ straight.
            IfExpr straight (verb_of (arg words.now 0) ≡ Verb.Expr)) }
    {
        let verb = find_verb(words.bytes_at(0));
        if verb == Verb::Expr {
            return Ok(Straight::Expr);
        }
        match self.end_value(verb, words)? {
            None => Ok(Straight::Other),
            Some(value) => Ok(Straight::Gives(value)),
        }
    }

    /// Does a built-in, whose own name is the first word, where it comes to a value straight away.
    fn built_value(&mut self, natives: &Natives, words: &Words) -> Result<Straight, NoMemory>
        ensures means { IfOk result (λ straight. IfGives straight (λ ended.
            (inner : Inner H)
            → Does self.new self.old ended
            (built (names_of natives.now) H.table inner words.now))) }
        ensures expr { IfOk result (λ straight.
            IfExpr straight (IsNamed Verb.Expr (names_of natives.now) words.now)) }
        ensures left { IfOk result (λ straight. IfLeft straight (self.new ≡ self.old)) }
        ensures rest { OnOk result (self.new ≡ record self.old { frames = self.new.frames }) }
        ensures holds { Holds self.new self.old }
    {
        let empty = Text::empty(self.alloc);
        if let Some(native) = natives.find(first_word(words, &empty)) {
            let value = self.call_native(native, words)?;
            return Ok(Straight::Gives(value));
        }
        if is_var_command(words) {
            let value = self.write_variables(words)?;
            return Ok(Straight::Gives(value));
        }
        let straight = self.language_value(words)?;
        Ok(straight)
    }

    /// Whether words call a built-in by its own name, as `is_own` says. It notes that this name is looked up,
    /// which changes nothing that a run can tell.
    fn notes_own(&mut self, words: &Words) -> bool
        ensures own { IsTrue result → IsOwn self.old.table.table words.now }
        ensures same { self.new ≡ self.old }
    {
        match words.get(0) {
            Some(first) => self.table.is_own(first),
            None => false,
        }
    }

    /// Does a command for which nothing is put on the stack.
    fn straight_value(&mut self, natives: &Natives, words: &Words) -> Result<Straight, NoMemory>
        ensures means { IfOk result (λ straight. IfGives straight (λ ended.
            (inner : Inner H)
            → Does self.new self.old ended
            (act (names_of natives.now) H.table inner words.now))) }
        ensures expr { IfOk result (λ straight.
            IfExpr straight
            (CallsVerb Verb.Expr (names_of natives.now) self.old.table.table words.now)) }
        ensures left { IfOk result (λ straight. IfLeft straight (self.new ≡ self.old)) }
        ensures rest { OnOk result (self.new ≡ record self.old { frames = self.new.frames }) }
        ensures holds { Holds self.new self.old }
    {
        if !self.notes_own(words) {
            return Ok(Straight::Other);
        }
        let straight = self.built_value(natives, words)?;
        Ok(straight)
    }

    /// Pays for the result of a command; `None` where it costs more than is left of the budget.
    #[inline(always)]
    pub(crate) fn pay_result(&mut self, value: Ended) -> Result<Option<Ended>, NoMemory>
        ensures means { IfOk result (λ paid.
            Alike self.new self.old (paid_next paid) (λ k.
            command_end k value.code value.result)) }
        ensures straight { OnOk result (Straightly self.new self.old) }
        ensures holds { Holds self.new self.old }
    {
        if is_too_long(&value.result) {
            return Ok(Some(too_long(self.alloc)?));
        }
        if !self.pay(result_cost(&value.result)) {
            return Ok(None);
        }
        Ok(Some(value))
    }

    /// Pays for the result of a command that came to this value.
    #[inline(always)]
    pub(crate) fn end_tried(&mut self, value: Ended) -> Result<Tried, NoMemory>
        ensures means { IfOk result (λ tried.
            (names : Names) (inner : Inner H) (words : Words) (k : Next H) (given : Given)
            → tried_next names H.table inner words tried k (state_of self.new) self.new.budget given
            ≡ command_end k value.code value.result (state_of self.old) self.old.budget given) }
        ensures size { IfOk result (λ tried. (words : Words) → tried_size words tried ≡ 0) }
        ensures done { IfOk result IsDone }
        ensures straight { OnOk result (Straightly self.new self.old) }
        ensures holds { Holds self.new self.old }
    {
        match self.pay_result(value)? {
            None => Ok(Tried::Spent),
            Some(value) => Ok(Tried::Gives(value)),
        }
    }

    /// Pays for a command of this cost, which came to this value.
    #[inline(always)]
    pub(crate) fn pay_tried(&mut self, cost: u64, value: Ended) -> Result<Tried, NoMemory>
        requires { cost ≤ self.old.budget }
        ensures means { IfOk result (λ tried.
            (names : Names) (inner : Inner H) (words : Words) (k : Next H) (given : Given)
            → tried_next names H.table inner words tried k (state_of self.new) self.new.budget given
            ≡ command_end k value.code value.result (state_of self.old) (self.old.budget - cost)
            given) }
        ensures size { IfOk result (λ tried. (words : Words) → tried_size words tried ≡ 0) }
        ensures done { IfOk result IsDone }
        ensures straight { OnOk result (Straightly self.new self.old) }
        ensures holds { Holds self.new self.old }
    {
        self.budget -= cost;
        let tried = self.end_tried(value)?;
        Ok(tried)
    }

    /// Does an `expr` whose words are all there, and pays for it, where so much is left of the budget and
    /// nothing is run for it. For another one it tells what is left to evaluate.
    fn try_expr(&mut self, values: Gathered) -> Result<Tried, NoMemory>
        ensures means { IfOk result (λ tried.
            (names : Names) (levels : ℕ) (words : Words)
            → CallsVerb Verb.Expr names self.old.table.table values
            → Tries names H.table levels words values tried self.new self.old) }
        ensures size { IfOk result (λ tried. IsLeftOf values tried) }
        ensures alone { IfOk result (λ tried. LeftAlone tried self.new self.old) }
        ensures straight { OnOk result (Straightly self.new self.old) }
        ensures holds { Holds self.new self.old }
    {
        if values.len() < 2 {
            return Ok(Tried::Left(values));
        }
        let cost = values.cost();
        let whole = cost.saturating_add(EVALUATION_COST);
        if (self.budget as u128) < whole {
            return Ok(Tried::Left(values));
        }
        match self.expr_begun(values.words())? {
            None => Ok(Tried::Left(values)),
            Some(begun) => {
                self.spare.put(values);
                let tried = self.try_begun(cost as u64, begun)?;
                Ok(tried)
            }
        }
    }

    /// Does a command whose words are all there, and pays for it, where it comes to a value straight
    /// away and so much is left of the budget.
    pub(crate) fn try_command(
        &mut self,
        natives: &Natives,
        values: Gathered,
    ) -> Result<Tried, NoMemory>
        ensures means { IfOk result (λ tried.
            (levels : ℕ) (words : Words)
            → Tries (names_of natives.now) H.table levels words values tried self.new self.old) }
        ensures size { IfOk result (λ tried. IsLeftOf values tried) }
        ensures alone { IfOk result (λ tried. LeftAlone tried self.new self.old) }
        ensures straight { OnOk result (Straightly self.new self.old) }
        ensures holds { Holds self.new self.old }
    {
        let cost = values.cost();
        if (self.budget as u128) < cost {
            return Ok(Tried::Left(values));
        }
        match self.straight_value(natives, values.words())? {
            Straight::Other => Ok(Tried::Left(values)),
            Straight::Expr => {
                let tried = self.try_expr(values)?;
                Ok(tried)
            }
            Straight::Gives(value) => {
                self.spare.put(values);
                let tried = self.pay_tried(cost as u64, value)?;
                Ok(tried)
            }
        }
    }

    /// Does the command at a place of a script where nothing is run for its words, as far as nothing is
    /// put on the stack for it.
    pub(crate) fn try_simple(
        &mut self,
        natives: &Natives,
        script: &Script,
        at: usize,
    ) -> Result<Tried, NoMemory>
        ensures means { IfOk result (λ tried.
            (levels : ℕ)
            → TriesCommand (names_of natives.now) H.table levels (command_at at (tree_of script.now))
            tried self.new self.old) }
        ensures size { IfOk result (λ tried.
            tried_size (command_at at (tree_of script.now)) tried
            ≤ words_size (command_at at (tree_of script.now))) }
        ensures alone { IfOk result (λ tried. LeftAlone tried self.new self.old) }
        ensures straight { OnOk result (Straightly self.new self.old) }
        ensures holds { Holds self.new self.old }
    {
        let mut values = self.spare.take(self.alloc);
        match self.simple_words(words_of(script, at), &mut values)? {
            Passed::Ends(value) => Ok(Tried::Gives(value)),
            Passed::All => {
                let tried = self.try_command(natives, values)?;
                Ok(tried)
            }
            Passed::Spent => Ok(Tried::Spent),
            Passed::Costly => Ok(Tried::Costly(values.len())),
            Passed::On => Ok(Tried::Left(values)),
            Passed::Left => Ok(Tried::Left(values)),
        }
    }

    /// Does the command at a place of a script, as far as nothing is put on the stack for it. So many levels
    /// are left to its brackets.
    fn next_straight(
        &mut self,
        natives: &Natives,
        script: &Script,
        at: usize,
        levels: u32,
    ) -> Result<Tried, NoMemory>
        ensures means { IfOk result (λ tried.
            TriesCommand (names_of natives.now) H.table levels (command_at at (tree_of script.now))
            tried self.new self.old) }
        ensures size { IfOk result (λ tried.
            tried_size (command_at at (tree_of script.now)) tried
            ≤ words_size (command_at at (tree_of script.now))) }
        ensures straight { OnOk result (Straightly self.new self.old) }
        ensures holds { Holds self.new self.old }
    {
        let all = words_of(script, at);
        let mut values = self.spare.take(self.alloc);
        'words: loop {
            match self.pass_words(natives, all, &mut values, levels)? {
                Passed::On => {}
                Passed::All => {
                    let tried = self.try_whole(natives, values, levels)?;
                    return Ok(tried);
                }
                Passed::Ends(value) => return Ok(Tried::Gives(value)),
                Passed::Spent => return Ok(Tried::Spent),
                Passed::Costly => return Ok(Tried::Costly(values.len())),
                Passed::Left => return Ok(Tried::Left(values)),
            }
        }
    }

    /// Does the commands of a script from a place on, as far as nothing is put on the stack for them; where
    /// there is none, that is a good end with the empty result. So many levels are left to their brackets.
    pub(crate) fn commands_straight(
        &mut self,
        natives: &Natives,
        script: &Script,
        from: usize,
        levels: u32,
    ) -> Result<Stand, NoMemory>
        ensures means { IfOk result (λ stand.
            Alike self.new self.old
            (stand_next (names_of natives.now) H.table
            (nested (names_of natives.now) H.table levels) (tree_of script.now) stand)
            (λ k.
            run_commands (names_of natives.now) H.table
            (nested (names_of natives.now) H.table levels)
            (commands_from from (tree_of script.now)) [] k)) }
        ensures size { IfOk result (λ stand.
            stand_size (tree_of script.now) stand
            ≤ commands_size (commands_from from (tree_of script.now))) }
        ensures within { IfOk result (λ stand. IsWithin stand) }
        ensures straight { OnOk result (Straightly self.new self.old) }
        ensures holds { Holds self.new self.old }
    {
        let mut at = from;
        'commands: while has_command(script, at) {
            match self.next_straight(natives, script, at, levels)? {
                Tried::Gives(value) => {
                    if value.code != OK {
                        return Ok(Stand::Ends(value));
                    }
                    if !has_command(script, at + 1) {
                        return Ok(Stand::Ends(value));
                    }
                }
                Tried::Spent => return Ok(Stand::Spent),
                Tried::Left(values) => return Ok(Stand::Waits { at, values }),
                Tried::Costly(word) => return Ok(Stand::Costly { at, word }),
                Tried::Evaluates(evaluation) => return Ok(Stand::Evaluates { at, evaluation }),
            }
            at += 1;
        }
        Ok(Stand::Ends(done(self.alloc)))
    }

    /// Does the commands of a script from a place on, behind a command that came to this value, as far
    /// as nothing is put on the stack for them. So many levels are left to their brackets.
    pub(crate) fn run_straight(
        &mut self,
        natives: &Natives,
        script: &Script,
        from: usize,
        value: Ended,
        levels: u32,
    ) -> Result<Stand, NoMemory>
        ensures means { IfOk result (λ stand.
            Alike self.new self.old
            (stand_next (names_of natives.now) H.table
            (nested (names_of natives.now) H.table levels) (tree_of script.now) stand)
            (λ k.
            on_ok
            (λ result.
            run_commands (names_of natives.now) H.table
            (nested (names_of natives.now) H.table levels)
            (commands_from from (tree_of script.now)) result k)
            k value.code value.result)) }
        ensures size { IfOk result (λ stand.
            stand_size (tree_of script.now) stand
            ≤ commands_size (commands_from from (tree_of script.now))) }
        ensures within { IfOk result (λ stand. IsWithin stand) }
        ensures straight { OnOk result (Straightly self.new self.old) }
        ensures holds { Holds self.new self.old }
    {
        if value.code != OK {
            return Ok(Stand::Ends(value));
        }
        if !has_command(script, from) {
            return Ok(Stand::Ends(value));
        }
        let stand = self.commands_straight(natives, script, from, levels)?;
        Ok(stand)
    }
}
