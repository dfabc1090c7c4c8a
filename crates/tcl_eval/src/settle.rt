//! What goes on before the next text is run.

ghost use Rattle.std.specs.Prelude.{◌≡◌, ◌<◌, ◌≤◌, ◌+◌, ◌^◌, [], length, IfOk, OnOk};
ghost use Rattle.txt_core.specs.Names.{Names};
ghost use Rattle.natives.specs.Names.{names_of};
ghost use Rattle.tcl_eval.specs.Eval.{give, read_as, read_variable, command_end, proc_end, catch_end, run_parts, run_words, run_script, nested, read};
ghost use Rattle.tcl_eval.specs.State.{Next, Rest};
ghost use Rattle.tcl_eval.specs.Kept.{judged, run_kept, run_costly};
ghost use Rattle.tcl_eval.specs.Places.{tree_of, command_at, commands_from, words_from, place_parts, inside, behind, parts_size, words_size, commands_size};
ghost use Rattle.tcl_eval.specs.Stack.{frame_next, step_next, settled_next, frame_weight, stack_weight, step_weight, frame_free, stack_free, step_free, settled_free};
ghost use Rattle.tcl_eval.specs.Straight.{IsWithin, behind_command, stand_next, stand_size};
ghost use Rattle.tcl_eval.specs.Engine.{Holds, Keeps, Same, Pays, Stays, Remains, Emptied};
ghost use Rattle.tcl_eval.specs.Clauses.{GivesFrame, IsLighter, IsNoHeavier, StepIs};
ghost use Rattle.tcl_eval.specs.declared.stack.Frame.{Frame};

use crate::bracket::Passed;
use crate::engine::Engine;
use crate::gather::{Gathered, SoFar};
use crate::place::{Place, Seen, has_command, has_word, words_of};
use crate::simple::variable_value;
use crate::stack::{AtRest, Ended, Frame, Ready, Step};
use crate::straight::{Stand, Tried};
use crate::value::{done, kept_value};
use natives::Natives;
use std::rc::Rc;
use tcl_host::{Host, OK};
use tcl_parse::Script;
use txt_core::{NoMemory, Text, write_natural};

#[tactic(auto, using(crate::proofs::Stacks::frees_push))]
impl<H: Host> Engine<H> {
    /// Pays a cost, where so much is left.
    pub(crate) fn pay(&mut self, cost: u128) -> bool
        ensures { Pays result cost self.old self.new }
    {
        if (self.budget as u128) < cost {
            return false;
        }
        self.budget -= cost as u64;
        true
    }

    /// The value of a variable, or the error of reading it.
    fn read(&self, name: &Text) -> Result<Ended, NoMemory>
        ensures { IfOk result (λ value. value ≡ read_as self.now.frames name.now) }
    {
        variable_value(self.alloc, &self.frames, name)
    }

    /// Goes on with the pieces from a place on, for whose value this frame waits.
    fn enter_pieces(&mut self, place: Place, levels: u32, waits: Frame) -> Result<Step, NoMemory>
        requires { frame_free waits ≡ 0 }
        ensures means { IfOk result (λ step.
            (names : Names)
            → StepIs names H.table step self.new self.old (λ k.
            run_parts (nested names H.table levels) (place_parts place) []
            (judged (frame_next names H.table waits k)))) }
        ensures weighs { IfOk result (λ step.
            stack_weight self.new.stack.items + step_weight step
            ≡ stack_weight self.old.stack.items
            + (frame_weight waits + parts_size (place_parts place) + 1)) }
        ensures keeps { IfOk result (λ step. Stays step self.new self.old) }
        ensures holds { Holds self.new self.old }
    {
        self.stack.push(waits)?;
        Ok(Step::Pieces {
            place,
            so_far: SoFar::Kept(Text::empty(self.alloc)),
            levels,
        })
    }

    /// Goes on with the index of an element of an array.
    #[inline(never)]
    fn enter_index(
        &mut self,
        array: Text,
        place: Place,
        so_far: SoFar,
        levels: u32,
    ) -> Result<Step, NoMemory>
        requires { place.next < 2 ^ 63 }
        ensures means { IfOk result (λ step.
            (names : Names)
            → StepIs names H.table step self.new self.old (λ k.
            run_parts (nested names H.table levels) (inside (place_parts place)) []
            (judged
            (frame_next names H.table (Frame.Index array)
            (frame_next names H.table (Frame.Word (behind place) so_far levels) k))))) }
        ensures weighs { IfOk result (λ step.
            IsNoHeavier step self.new self.old
            (parts_size (inside (place_parts place)) + parts_size (place_parts (behind place)) +
            4)) }
        ensures keeps { IfOk result (λ step. Stays step self.new self.old) }
        ensures holds { Holds self.new self.old }
    {
        let index = place.inside(self.alloc)?;
        let place = place.behind();
        self.stack.push(Frame::Word {
            place,
            so_far,
            levels,
        })?;
        self.enter_pieces(index, levels, Frame::Index { array })
    }

    /// Goes on with a bracket.
    fn enter_bracket(
        &mut self,
        natives: &Natives,
        script: Rc<Script>,
        place: Place,
        so_far: SoFar,
        levels: u32,
    ) -> Result<Step, NoMemory>
        requires { place.next < 2 ^ 63 }
        ensures means { IfOk result (λ step.
            StepIs (names_of natives.now) H.table step self.new self.old (λ k.
            run_script (names_of natives.now) H.table levels (read (tree_of script.value))
            (frame_next (names_of natives.now) H.table (Frame.Word (behind place) so_far levels)
            k))) }
        ensures weighs { IfOk result (λ step.
            IsNoHeavier step self.new self.old
            (commands_size (tree_of script.value) + parts_size (place_parts (behind place)) + 3)) }
        ensures keeps { IfOk result (λ step. Stays step self.new self.old) }
        ensures holds { Holds self.new self.old }
    {
        if levels == 0 {
            return Ok(Step::Stop(Ready::TooDeep));
        }
        self.stack.push(Frame::Word {
            place: place.behind(),
            so_far,
            levels,
        })?;
        let step = self.give_script(natives, script, 0, levels - 1, done(self.alloc))?;
        Ok(step)
    }

    /// Goes on with the variable of this name.
    fn pass_variable(
        &mut self,
        name: &Text,
        place: Place,
        so_far: SoFar,
        levels: u32,
    ) -> Result<Step, NoMemory>
        ensures means { IfOk result (λ step.
            (names : Names)
            → StepIs names H.table step self.new self.old (λ k.
            read_variable name.now (frame_next names H.table (Frame.Word place so_far levels) k))) }
        ensures weighs { IfOk result (λ step.
            IsNoHeavier step self.new self.old (parts_size (place_parts place) + 1)) }
        ensures keeps { IfOk result (λ step. Stays step self.new self.old) }
        ensures holds { Holds self.new self.old }
    {
        let value = self.read(name)?;
        self.give_piece(place, so_far, levels, value)
    }

    /// Goes on with the next piece of a word.
    fn next_piece(
        &mut self,
        natives: &Natives,
        place: Place,
        so_far: SoFar,
        levels: u32,
    ) -> Result<Step, NoMemory>
        ensures means { IfOk result (λ step.
            StepIs (names_of natives.now) H.table step self.new self.old
            (run_kept (nested (names_of natives.now) H.table levels) (place_parts place) so_far)) }
        ensures falls { IfOk result (λ step.
            IsLighter step self.new self.old (parts_size (place_parts place) + 1)) }
        ensures keeps { IfOk result (λ step. Stays step self.new self.old) }
        ensures holds { Holds self.new self.old }
    {
        match place.piece() {
            None => Ok(Step::Value(kept_value(self.alloc, so_far)?)),
            Some(Seen::Bytes(bytes)) => {
                let so_far = so_far.with(bytes.bytes())?;
                Ok(Step::Pieces {
                    place: place.behind(),
                    so_far,
                    levels,
                })
            }
            Some(Seen::Variable(name)) => {
                let name = name.copy(self.alloc)?;
                let step = self.pass_variable(&name, place.behind(), so_far, levels)?;
                Ok(step)
            }
            Some(Seen::Element(array)) => {
                let array = array.copy(self.alloc)?;
                let step = self.enter_index(array, place, so_far, levels)?;
                Ok(step)
            }
            Some(Seen::Bracket(script)) => {
                let script = script.clone()?;
                let step = self.enter_bracket(natives, script, place, so_far, levels)?;
                Ok(step)
            }
        }
    }

    /// Goes on with the next words of a command.
    fn next_word(
        &mut self,
        natives: &Natives,
        script: Rc<Script>,
        at: usize,
        mut values: Gathered,
        levels: u32,
    ) -> Result<Step, NoMemory>
        ensures means { IfOk result (λ step.
            StepIs (names_of natives.now) H.table step self.new self.old
            (run_words (names_of natives.now) H.table (nested (names_of natives.now) H.table levels)
            (words_from (length values) (command_at at (tree_of script.value))) values)) }
        ensures falls { IfOk result (λ step.
            IsNoHeavier step self.new self.old
            (words_size (words_from (length values) (command_at at (tree_of script.value))))) }
        ensures keeps { IfOk result (λ step. Stays step self.new self.old) }
        ensures holds { Holds self.new self.old }
    {
        let passed = self.simple_words(words_of(&script, at), &mut values)?;
        match passed {
            Passed::All => self.try_words(natives, script, at, values, levels),
            Passed::Ends(value) => Ok(Step::Value(value)),
            Passed::Spent => Ok(Step::Stop(Ready::Spent)),
            Passed::Costly => self.next_costly(script, at, values.len(), levels),
            Passed::On => self.enter_word(script, at, values, levels),
            Passed::Left => self.enter_word(script, at, values, levels),
        }
    }

    /// Goes on with a command behind words for which nothing is run. Where all are there, the command is
    /// done at once if it comes to a value straight away.
    fn try_words(
        &mut self,
        natives: &Natives,
        script: Rc<Script>,
        at: usize,
        values: Gathered,
        levels: u32,
    ) -> Result<Step, NoMemory>
        ensures means { IfOk result (λ step.
            StepIs (names_of natives.now) H.table step self.new self.old
            (run_words (names_of natives.now) H.table (nested (names_of natives.now) H.table levels)
            (words_from (length values) (command_at at (tree_of script.value))) values)) }
        ensures falls { IfOk result (λ step.
            IsNoHeavier step self.new self.old
            (words_size (words_from (length values) (command_at at (tree_of script.value))))) }
        ensures keeps { IfOk result (λ step. Stays step self.new self.old) }
        ensures holds { Holds self.new self.old }
    {
        if has_word(&script, at, values.len()) {
            let step = self.enter_word(script, at, values, levels)?;
            return Ok(step);
        }
        match self.try_command(natives, values)? {
            Tried::Gives(value) => Ok(Step::Value(value)),
            Tried::Spent => Ok(Step::Stop(Ready::Spent)),
            Tried::Left(values) => {
                let step = self.enter_word(script, at, values, levels)?;
                Ok(step)
            }
            Tried::Costly(word) => {
                let step = self.next_costly(script, at, word, levels)?;
                Ok(step)
            }
            Tried::Evaluates(evaluation) => {
                Ok(Step::Stop(Ready::Expression { evaluation, levels }))
            }
        }
    }

    /// Goes on with a command behind words for which nothing is run.
    fn enter_word(
        &mut self,
        script: Rc<Script>,
        at: usize,
        values: Gathered,
        levels: u32,
    ) -> Result<Step, NoMemory>
        ensures means { IfOk result (λ step.
            (names : Names)
            → StepIs names H.table step self.new self.old
            (run_words names H.table (nested names H.table levels)
            (words_from (length values) (command_at at (tree_of script.value))) values)) }
        ensures falls { IfOk result (λ step.
            IsNoHeavier step self.new self.old
            (words_size (words_from (length values) (command_at at (tree_of script.value))))) }
        ensures keeps { IfOk result (λ step. Stays step self.new self.old) }
        ensures holds { Holds self.new self.old }
    {
        let word = values.len();
        if !has_word(&script, at, word) {
            return Ok(Step::Stop(Ready::Command {
                words: values.into_words(),
                levels,
            }));
        }
        let again = script.clone()?;
        let place = Place::at_word(self.alloc, again, at, word);
        let waits = Frame::Command {
            script,
            at,
            values,
            levels,
        };
        self.enter_pieces(place, levels, waits)
    }

    /// Gives a command the value of its next word.
    #[inline(never)]
    fn give_word(
        &mut self,
        natives: &Natives,
        script: Rc<Script>,
        at: usize,
        mut values: Gathered,
        levels: u32,
        value: Ended,
    ) -> Result<Step, NoMemory>
        ensures means { IfOk result (λ step.
            GivesFrame (names_of natives.now) H.table step (Frame.Command script at values levels)
            value self.new self.old) }
        ensures falls { IfOk result (λ step.
            IsLighter step self.new self.old (frame_weight (Frame.Command script at values
            levels))) }
        ensures keeps { IfOk result (λ step. Stays step self.new self.old) }
        ensures holds { Holds self.new self.old }
    {
        if value.code != OK {
            return Ok(Step::Value(value));
        }
        let costly = values.join(value.result, self.budget)?;
        if costly {
            let step = self.next_costly(script, at, values.len(), levels)?;
            return Ok(step);
        }
        let step = self.next_word(natives, script, at, values, levels)?;
        Ok(step)
    }

    /// Goes on with the next word of a command whose first words cost more than is left of the budget.
    #[inline(never)]
    fn next_costly(
        &mut self,
        script: Rc<Script>,
        at: usize,
        word: usize,
        levels: u32,
    ) -> Result<Step, NoMemory>
        ensures means { IfOk result (λ step.
            (names : Names)
            → StepIs names H.table step self.new self.old
            (run_costly (nested names H.table levels)
            (words_from word (command_at at (tree_of script.value))))) }
        ensures falls { IfOk result (λ step.
            IsNoHeavier step self.new self.old
            (words_size (words_from word (command_at at (tree_of script.value))))) }
        ensures keeps { IfOk result (λ step. Stays step self.new self.old) }
        ensures holds { Holds self.new self.old }
    {
        if !has_word(&script, at, word) {
            return Ok(Step::Stop(Ready::Spent));
        }
        let again = script.clone()?;
        let place = Place::at_word(self.alloc, again, at, word);
        let waits = Frame::Costly {
            script,
            at,
            next: word + 1,
            levels,
        };
        self.enter_pieces(place, levels, waits)
    }

    /// Gives a command whose first words cost too much that its next word is there. Its value isn't kept.
    #[inline(never)]
    fn give_costly(
        &mut self,
        script: Rc<Script>,
        at: usize,
        next: usize,
        levels: u32,
        value: Ended,
    ) -> Result<Step, NoMemory>
        ensures means { IfOk result (λ step.
            (names : Names)
            → GivesFrame names H.table step (Frame.Costly script at next levels) value self.new
            self.old) }
        ensures falls { IfOk result (λ step.
            IsLighter step self.new self.old (frame_weight (Frame.Costly script at next levels))) }
        ensures keeps { IfOk result (λ step. Stays step self.new self.old) }
        ensures holds { Holds self.new self.old }
    {
        if value.code != OK {
            return Ok(Step::Value(value));
        }
        let step = self.next_costly(script, at, next, levels)?;
        Ok(step)
    }

    /// Gives a word the value of its next piece.
    #[inline(never)]
    fn give_piece(
        &mut self,
        place: Place,
        so_far: SoFar,
        levels: u32,
        value: Ended,
    ) -> Result<Step, NoMemory>
        ensures means { IfOk result (λ step.
            (names : Names)
            → GivesFrame names H.table step (Frame.Word place so_far levels) value self.new
            self.old) }
        ensures falls { IfOk result (λ step.
            IsLighter step self.new self.old (frame_weight (Frame.Word place so_far levels))) }
        ensures keeps { IfOk result (λ step. Stays step self.new self.old) }
        ensures holds { Holds self.new self.old }
    {
        if value.code != OK {
            return Ok(Step::Value(value));
        }
        let so_far = so_far.with(value.result.bytes())?;
        Ok(Step::Pieces {
            place,
            so_far,
            levels,
        })
    }

    /// Gives a script what its command before `next` came to.
    pub(crate) fn give_script(
        &mut self,
        natives: &Natives,
        script: Rc<Script>,
        next: usize,
        levels: u32,
        value: Ended,
    ) -> Result<Step, NoMemory>
        ensures means { IfOk result (λ step.
            GivesFrame (names_of natives.now) H.table step (Frame.Script script next levels) value
            self.new self.old) }
        ensures falls { IfOk result (λ step.
            IsLighter step self.new self.old (frame_weight (Frame.Script script next levels))) }
        ensures keeps { IfOk result (λ step. Stays step self.new self.old) }
        ensures holds { Holds self.new self.old }
    {
        let stand = self.run_straight(natives, &script, next, value, levels)?;
        let step = self.enter_stand(script, stand, levels)?;
        Ok(step)
    }

    /// Goes on where a script stands. What its last command comes to is what it comes to, so that no
    /// frame waits for that.
    pub(crate) fn enter_stand(
        &mut self,
        script: Rc<Script>,
        stand: Stand,
        levels: u32,
    ) -> Result<Step, NoMemory>
        requires { IsWithin stand }
        ensures means { IfOk result (λ step.
            (names : Names)
            → StepIs names H.table step self.new self.old
            (stand_next names H.table (nested names H.table levels) (tree_of script.value) stand)) }
        ensures falls { IfOk result (λ step.
            IsNoHeavier step self.new self.old (stand_size (tree_of script.value) stand)) }
        ensures keeps { IfOk result (λ step. Stays step self.new self.old) }
        ensures holds { Holds self.new self.old }
    {
        match stand {
            Stand::Ends(value) => Ok(Step::Value(value)),
            Stand::Spent => Ok(Step::Stop(Ready::Spent)),
            Stand::Waits { at, values } => self.enter_command(script, at, values, levels),
            Stand::Costly { at, word } => self.enter_costly(script, at, word, levels),
            Stand::Evaluates { at, evaluation } => {
                self.enter_evaluation(script, at, evaluation, levels)
            }
        }
    }

    /// Puts on the stack what follows the command at a place of a script.
    pub(crate) fn push_following(
        &mut self,
        script: &Rc<Script>,
        at: usize,
        levels: u32,
    ) -> Result<(), NoMemory>
        requires { at < 2 ^ 63 }
        ensures means { OnOk result
            ((names : Names) (way : Next H → Rest H)
            → Same names H.table self.new self.old way (λ k.
            way
            (behind_command names H.table (nested names H.table levels)
            (tree_of script.now.value) at k))) }
        ensures weighs { OnOk result
            (stack_weight self.new.stack.items
            ≡ stack_weight self.old.stack.items
            + (commands_size (commands_from (at + 1) (tree_of script.now.value)) + 1)) }
        ensures keeps { OnOk result (Keeps self.new self.old) }
        ensures holds { Holds self.new self.old }
    {
        let again = script.clone()?;
        self.stack.push(Frame::Script {
            script: again,
            next: at + 1,
            levels,
        })?;
        Ok(())
    }

    /// Goes on with the command at a place of a script, behind the values of its first words.
    fn enter_command(
        &mut self,
        script: Rc<Script>,
        at: usize,
        values: Gathered,
        levels: u32,
    ) -> Result<Step, NoMemory>
        requires { at < 2 ^ 63 }
        ensures means { IfOk result (λ step.
            (names : Names)
            → StepIs names H.table step self.new self.old (λ k.
            run_words names H.table (nested names H.table levels)
            (words_from (length values) (command_at at (tree_of script.value))) values
            (behind_command names H.table (nested names H.table levels) (tree_of script.value) at
            k))) }
        ensures falls { IfOk result (λ step.
            IsNoHeavier step self.new self.old
            (words_size (words_from (length values) (command_at at (tree_of script.value))) + 1 +
            commands_size (commands_from (at + 1) (tree_of script.value)))) }
        ensures keeps { IfOk result (λ step. Stays step self.new self.old) }
        ensures holds { Holds self.new self.old }
    {
        if !has_command(&script, at + 1) {
            return self.enter_word(script, at, values, levels);
        }
        self.push_following(&script, at, levels)?;
        self.enter_word(script, at, values, levels)
    }

    /// Goes on with the command at a place of a script whose first words cost more than is left of the
    /// budget.
    fn enter_costly(
        &mut self,
        script: Rc<Script>,
        at: usize,
        word: usize,
        levels: u32,
    ) -> Result<Step, NoMemory>
        requires { at < 2 ^ 63 }
        ensures means { IfOk result (λ step.
            (names : Names)
            → StepIs names H.table step self.new self.old (λ k.
            run_costly (nested names H.table levels)
            (words_from word (command_at at (tree_of script.value)))
            (behind_command names H.table (nested names H.table levels) (tree_of script.value) at
            k))) }
        ensures falls { IfOk result (λ step.
            IsNoHeavier step self.new self.old
            (words_size (words_from word (command_at at (tree_of script.value))) + 1 + commands_size
            (commands_from (at + 1) (tree_of script.value)))) }
        ensures keeps { IfOk result (λ step. Stays step self.new self.old) }
        ensures holds { Holds self.new self.old }
    {
        self.push_following(&script, at, levels)?;
        self.next_costly(script, at, word, levels)
    }

    /// Reads an element of an array, by its index.
    #[inline(never)]
    fn give_index(&mut self, array: Text, value: Ended) -> Result<Step, NoMemory>
        ensures means { IfOk result (λ step.
            (names : Names)
            → GivesFrame names H.table step (Frame.Index array) value self.new self.old) }
        ensures falls { IfOk result (λ step.
            IsLighter step self.new self.old (frame_weight (Frame.Index array))) }
        ensures keeps { IfOk result (λ step. Stays step self.new self.old) }
        ensures holds { Holds self.new self.old }
    {
        if value.code != OK {
            return Ok(Step::Value(value));
        }
        let mut name = array;
        name.append(b"(")?;
        name.append(value.result.bytes())?;
        name.append(b")")?;
        Ok(Step::Value(self.read(&name)?))
    }

    /// Pays for the result of a command.
    pub(crate) fn end_command(&mut self, value: Ended) -> Result<Step, NoMemory>
        ensures means { IfOk result (λ step.
            (names : Names)
            → StepIs names H.table step self.new self.old
            (λ k. command_end k value.code value.result)) }
        ensures falls { IfOk result (λ step.
            stack_weight self.new.stack.items + step_weight step
            ≤ stack_weight self.old.stack.items) }
        ensures keeps { IfOk result (λ step. Stays step self.new self.old) }
        ensures holds { Holds self.new self.old }
    {
        match self.pay_result(value)? {
            None => Ok(Step::Stop(Ready::Spent)),
            Some(value) => Ok(Step::Value(value)),
        }
    }

    /// Ends a procedure, whose frame of variables goes.
    #[inline(never)]
    fn end_procedure(&mut self, value: Ended) -> Result<Step, NoMemory>
        ensures means { IfOk result (λ step.
            (names : Names)
            → StepIs names H.table step self.new self.old (λ k. proc_end k value.code
            value.result)) }
        ensures falls { IfOk result (λ step.
            stack_weight self.new.stack.items + step_weight step
            ≤ stack_weight self.old.stack.items) }
        ensures keeps { IfOk result (λ step. Stays step self.new self.old) }
        ensures holds { Holds self.new self.old }
    {
        let after = self.end_body(value)?;
        Ok(Step::Value(after))
    }

    /// Ends a `catch`: the code is the result, and the result goes to the variable, where one is named.
    #[inline(never)]
    fn end_catch(&mut self, name: Option<Text>, value: Ended) -> Result<Step, NoMemory>
        ensures means { IfOk result (λ step.
            (names : Names)
            → StepIs names H.table step self.new self.old
            (λ k. catch_end name k value.code value.result)) }
        ensures falls { IfOk result (λ step.
            stack_weight self.new.stack.items + step_weight step
            ≤ stack_weight self.old.stack.items) }
        ensures keeps { IfOk result (λ step. Stays step self.new self.old) }
        ensures holds { Holds self.new self.old }
    {
        let code = write_natural(self.alloc, value.code as u64)?;
        match name {
            None => Ok(Step::Value(Ended {
                code: OK,
                result: code,
            })),
            Some(name) => {
                let stored = self.store(&name, value.result, code)?;
                Ok(Step::Value(stored))
            }
        }
    }

    /// Gives a frame, which stood on top, the code and result for which it waited.
    #[tactic(auto, using(crate::proofs::Stacks::frees_push, crate::proofs::Tails::stays_remains, crate::proofs::Tails::stays_free))]
    fn give(&mut self, natives: &Natives, frame: Frame, value: Ended) -> Result<Step, NoMemory>
        ensures means { IfOk result (λ step.
            GivesFrame (names_of natives.now) H.table step frame value self.new self.old) }
        ensures falls { IfOk result (λ step.
            IsLighter step self.new self.old (frame_weight frame)) }
        ensures keeps { OnOk result (Remains self.new self.old) }
        ensures free { IfOk result (λ step.
            stack_free self.new.stack.items + step_free step ≤ stack_free self.old.stack.items +
            frame_free frame) }
        ensures holds { Holds self.new self.old }
    {
        match frame {
            Frame::Script {
                script,
                next,
                levels,
            } => self.give_script(natives, script, next, levels, value),
            Frame::Command {
                script,
                at,
                values,
                levels,
            } => self.give_word(natives, script, at, values, levels, value),
            Frame::Costly {
                script,
                at,
                next,
                levels,
            } => self.give_costly(script, at, next, levels, value),
            Frame::Word {
                place,
                so_far,
                levels,
            } => self.give_piece(place, so_far, levels, value),
            Frame::Index { array } => self.give_index(array, value),
            Frame::Result => self.end_command(value),
            Frame::Procedure => self.end_procedure(value),
            Frame::ProcedureResult => self.end_call(value),
            Frame::Caught { name } => self.end_catch(name, value),
            Frame::Expression { expr, levels } => self.give_expression(expr, levels, value),
            Frame::Operand => self.give_operand(value),
            Frame::Operation { op } => self.give_operation(op, value),
            Frame::Left { op, right, levels } => self.give_left(op, right, levels, value),
            Frame::Right { op, left } => self.give_right(op, left, value),
            Frame::Choice {
                first,
                second,
                levels,
            } => self.give_choice(first, second, levels, value),
            Frame::Value => self.give_value(value),
            Frame::ValueResult => self.end_expr(value),
            Frame::Branch(branch) => Ok(Step::Stop(Ready::Branch { branch, value })),
        }
    }

    /// Goes on until a text may be run, or nothing is left to do.
    pub(crate) fn settle(&mut self, natives: &Natives, mut step: Step) -> Result<AtRest, NoMemory>
        ensures means { IfOk result (λ settled.
            Same (names_of natives.now) H.table self.new self.old
            (settled_next (names_of natives.now) H.table settled)
            (step_next (names_of natives.now) H.table step)) }
        ensures empty { IfOk result (λ settled. Emptied settled self.new) }
        ensures keeps { OnOk result (Remains self.new self.old) }
        ensures free { IfOk result (λ settled.
            stack_free self.new.stack.items + settled_free settled ≤ stack_free self.old.stack.items
            + step_free step) }
        ensures holds { Holds self.new self.old }
    {
        'steps: loop {
            step = match step {
                Step::Stop(ready) => return Ok(AtRest::Ready(ready)),
                Step::Pieces {
                    place,
                    so_far,
                    levels,
                } => self.next_piece(natives, place, so_far, levels)?,
                Step::Bracket { script, levels } => self.enter_lone(natives, script, levels)?,
                Step::Value(value) => match self.stack.pop() {
                    None => return Ok(AtRest::Ended(value)),
                    Some(frame) => self.give(natives, frame, value)?,
                },
            };
        }
    }
}
