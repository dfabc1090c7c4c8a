//! Loops under way.

ghost use Rattle.std.specs.Prelude.{◌≡◌, ◌<◌, ◌+◌, IfOk, IfSome, OnOk, Option, Some, drop, length};
ghost use Rattle.natives.specs.Names.{names_of};
ghost use Rattle.txt_core.specs.Names.{Names};
ghost use Rattle.tcl_eval.specs.State.{Next};
ghost use Rattle.tcl_eval.specs.Eval.{nested, do_while, do_for, do_foreach};
ghost use Rattle.tcl_eval.specs.Loops.{flow_of, turns, turn_on, walk_on, walk_all};
ghost use Rattle.tcl_eval.specs.Turns.{IsEachSet, IsTurnSet, each_free, each_next, option_free, turn_free, turn_next};
ghost use Rattle.tcl_eval.specs.Engine.{Holds, Nears, Opens, Lower, Remains, credit};
ghost use Rattle.tcl_eval.specs.Clauses.{ActsAs, GivesBranch, GoneIs, NearsBranch, NearsMost};
ghost use Rattle.tcl_eval.specs.declared.branch.Branch.{Branch};
ghost use Rattle.tcl_eval.specs.declared.loop_turns.Turn.TheVariants.{Whole};

use crate::branch::{Branch, Turning, Walk};
use crate::engine::Engine;
use crate::loop_turns::{Tested, Turn};
use crate::read_expr::read_word;
use crate::stack::{Acted, Ended, Frame, Gone, Step, gone_from};
use crate::value::{done, wrong_words};
use crate::walk_turns::Each;
use crate::words::copy_word;
use natives::Natives;
use std::alloc::Global;
use std::rc::Rc;
use tcl_host::{BREAK, CONTINUE, Host, OK};
use tcl_list::{ListFault, split};
use txt_core::error_text::{bad_value, no_list};
use txt_core::{NoMemory, Text, Words};

/// How a loop goes on where a part of it ended.
pub(crate) enum Flow {
    /// It goes on.
    On,
    /// It ends with this.
    Ends(Ended),
}

/// How a loop goes on where its body, or the script between two turns, ended with this.
pub(crate) fn flow_from(alloc: Global, value: Ended) -> Flow
    ensures { result ≡ flow_of value.code value.result }
{
    match value.code {
        OK | CONTINUE => Flow::On,
        BREAK => Flow::Ends(done(alloc)),
        _ => Flow::Ends(value),
    }
}

/// The items from a place on; none where the list ends before it.
pub(crate) fn from_place(items: &[Text], at: usize) -> &[Text]
    ensures { result.now ≡ drop at items.now }
{
    match items.get(at..) {
        None => &[],
        Some(behind) => behind,
    }
}

#[tactic(auto, using(crate::proofs::Stacks::frees_push))]
impl<H: Host> Engine<H> {
    /// Puts a loop on the stack whose turns come next, of which there are as many as the budget that is
    /// left.
    fn begin_turns(&mut self, turning: Turning, levels: u32) -> Result<Acted, NoMemory>
        ensures means { IfOk result (λ acted.
            ActsAs H.table acted self.new self.old
            (λ names. turn_on (nested names H.table levels) turning)) }
        ensures lower { OnOk result (Lower self.new self.old 1) }
        ensures opens { IfOk result (λ acted. Opens acted self.new self.old) }
        ensures holds { Holds self.new self.old }
    {
        let turning = Rc::new(self.alloc, turning)?;
        let turns = self.budget;
        self.stack.push(Frame::Branch(Branch::Next {
            turning,
            turns,
            levels,
        }))?;
        Ok(Acted::Gives(done(self.alloc)))
    }

    /// `while c body`.
    pub(crate) fn do_while(&mut self, words: &Words, levels: u32) -> Result<Acted, NoMemory>
        ensures means { IfOk result (λ acted.
            ActsAs H.table acted self.new self.old
            (λ names. do_while (nested names H.table levels) words.now)) }
        ensures lower { OnOk result (Lower self.new self.old 1) }
        ensures opens { IfOk result (λ acted. Opens acted self.new self.old) }
        ensures holds { Holds self.new self.old }
    {
        if words.len() != 3 {
            return Ok(Acted::Gives(wrong_words(self.alloc, words)?));
        }
        let condition = read_word(self.alloc, words, 1)?;
        let body = self.readings.read_word(self.alloc, words, 2)?;
        let turning = Turning {
            condition,
            next: None,
            body,
        };
        let acted = self.begin_turns(turning, levels)?;
        Ok(acted)
    }

    /// `for start c next body`.
    pub(crate) fn do_for(&mut self, words: &Words, levels: u32) -> Result<Acted, NoMemory>
        ensures means { IfOk result (λ acted.
            ActsAs H.table acted self.new self.old
            (λ names. do_for (nested names H.table levels) words.now)) }
        ensures lower { OnOk result (Lower self.new self.old 1) }
        ensures opens { IfOk result (λ acted. Opens acted self.new self.old) }
        ensures holds { Holds self.new self.old }
    {
        if words.len() != 5 {
            return Ok(Acted::Gives(wrong_words(self.alloc, words)?));
        }
        let start = copy_word(self.alloc, words, 1)?;
        let condition = read_word(self.alloc, words, 2)?;
        let next = self.readings.read_word(self.alloc, words, 3)?;
        let body = self.readings.read_word(self.alloc, words, 4)?;
        let turning = Turning {
            condition,
            next: Some(next),
            body,
        };
        let turning = Rc::new(self.alloc, turning)?;
        self.stack
            .push(Frame::Branch(Branch::Start { turning, levels }))?;
        let acted = self.enter_text(&start, levels)?;
        Ok(acted)
    }

    /// Goes on with what is left of a turn, behind which so many turns may come.
    fn enter_turn(
        &mut self,
        turning: Rc<Turning>,
        turn: Turn,
        left: u64,
        levels: u32,
    ) -> Result<Gone, NoMemory>
        requires { IsTurnSet turn }
        ensures means { IfOk result (λ gone.
            (names : Names)
            → GoneIs names H.table gone self.new self.old (λ k.
            turn_next names H.table (nested names H.table levels) turning.value (Some turn)
            (turns (nested names H.table levels) turning.value left k) k)) }
        ensures nears { IfOk result (λ gone. NearsMost gone self.new self.old (turn_free turn)) }
        ensures remains { OnOk result (Remains self.new self.old) }
        ensures holds { Holds self.new self.old }
    {
        match turn {
            Turn::Ends(value) => Ok(Gone::Goes(Step::Value(value))),
            Turn::Spent => Ok(Gone::Spent),
            Turn::Whole => {
                let gone = self.enter_condition(turning, left, levels)?;
                Ok(gone)
            }
            Turn::Body(ran) => {
                self.stack.push(Frame::Branch(Branch::Body {
                    turning,
                    turns: left,
                    levels,
                }))?;
                let step = self.enter_ran(ran)?;
                Ok(Gone::Goes(step))
            }
            Turn::Next(ran) => {
                self.stack.push(Frame::Branch(Branch::Next {
                    turning,
                    turns: left,
                    levels,
                }))?;
                let step = self.enter_ran(ran)?;
                Ok(Gone::Goes(step))
            }
        }
    }

    /// Begins a turn of a loop with its condition, for which something may be run.
    fn enter_condition(
        &mut self,
        turning: Rc<Turning>,
        left: u64,
        levels: u32,
    ) -> Result<Gone, NoMemory>
        ensures means { IfOk result (λ gone.
            (names : Names)
            → GoneIs names H.table gone self.new self.old (λ k.
            turn_next names H.table (nested names H.table levels) turning.value (Some Whole)
            (turns (nested names H.table levels) turning.value left k) k)) }
        ensures nears { IfOk result (λ gone. Nears gone self.new (credit self.old)) }
        ensures remains { OnOk result (Remains self.new self.old) }
        ensures holds { Holds self.new self.old }
    {
        let again = turning.clone()?;
        self.stack.push(Frame::Branch(Branch::Condition {
            turning: again,
            turns: left,
            levels,
        }))?;
        let acted = self.evaluate_read(&turning.condition, levels)?;
        Ok(gone_from(acted))
    }

    /// Goes on with the turns of a loop, of which so many are left.
    fn next_turn(
        &mut self,
        natives: &Natives,
        turning: Rc<Turning>,
        left: u64,
        levels: u32,
    ) -> Result<Gone, NoMemory>
        ensures means { IfOk result (λ gone.
            GoneIs (names_of natives.now) H.table gone self.new self.old
            (turns (nested (names_of natives.now) H.table levels) turning.value left)) }
        ensures nears { IfOk result (λ gone. Nears gone self.new (credit self.old + 1)) }
        ensures remains { OnOk result (Remains self.new self.old) }
        ensures holds { Holds self.new self.old }
    {
        let turned = self.turns_straight(natives, &turning, left, levels)?;
        let gone = self.enter_turn(turning, turned.turn, turned.left, levels)?;
        Ok(gone)
    }

    /// Goes on with what is left of a turn, or with the next turn.
    fn go_on_turning(
        &mut self,
        natives: &Natives,
        turning: Rc<Turning>,
        turn: Option<Turn>,
        left: u64,
        levels: u32,
    ) -> Result<Gone, NoMemory>
        requires { IfSome turn IsTurnSet }
        ensures means { IfOk result (λ gone.
            GoneIs (names_of natives.now) H.table gone self.new self.old (λ k.
            turn_next (names_of natives.now) H.table (nested (names_of natives.now) H.table levels)
            turning.value turn
            (turns (nested (names_of natives.now) H.table levels) turning.value left k) k)) }
        ensures nears { IfOk result (λ gone. NearsMost gone self.new self.old (option_free turn)) }
        ensures remains { OnOk result (Remains self.new self.old) }
        ensures holds { Holds self.new self.old }
    {
        match turn {
            None => {
                let gone = self.next_turn(natives, turning, left, levels)?;
                Ok(gone)
            }
            Some(turn) => {
                let gone = self.enter_turn(turning, turn, left, levels)?;
                Ok(gone)
            }
        }
    }

    /// Goes on behind the start of a `for`.
    pub(crate) fn give_start(
        &mut self,
        natives: &Natives,
        turning: Rc<Turning>,
        levels: u32,
        value: Ended,
    ) -> Result<Gone, NoMemory>
        ensures means { IfOk result (λ gone.
            GivesBranch (names_of natives.now) H.table gone (Branch.Start turning levels) value
            self.new self.old) }
        ensures nears { IfOk result (λ gone.
            NearsBranch gone self.new self.old (Branch.Start turning levels)) }
        ensures remains { OnOk result (Remains self.new self.old) }
        ensures holds { Holds self.new self.old }
    {
        if value.code != OK {
            return Ok(Gone::Goes(Step::Value(value)));
        }
        let turns = self.budget;
        let gone = self.next_turn(natives, turning, turns, levels)?;
        Ok(gone)
    }

    /// Goes on by the truth of a loop's condition.
    pub(crate) fn give_condition(
        &mut self,
        natives: &Natives,
        turning: Rc<Turning>,
        left: u64,
        levels: u32,
        value: Ended,
    ) -> Result<Gone, NoMemory>
        ensures means { IfOk result (λ gone.
            GivesBranch (names_of natives.now) H.table gone (Branch.Condition turning left levels)
            value self.new self.old) }
        ensures nears { IfOk result (λ gone.
            NearsBranch gone self.new self.old (Branch.Condition turning left levels)) }
        ensures remains { OnOk result (Remains self.new self.old) }
        ensures holds { Holds self.new self.old }
    {
        match self.tested(value)? {
            Tested::Holds => {
                let turn = self.body_straight(natives, &turning, levels)?;
                let gone = self.go_on_turning(natives, turning, turn, left, levels)?;
                Ok(gone)
            }
            Tested::Fails => Ok(Gone::Goes(Step::Value(done(self.alloc)))),
            Tested::Ends(value) => Ok(Gone::Goes(Step::Value(value))),
            Tested::Spent | Tested::Left => unreachable!(),
        }
    }

    /// Goes on behind the body of a turn.
    pub(crate) fn give_body(
        &mut self,
        natives: &Natives,
        turning: Rc<Turning>,
        left: u64,
        levels: u32,
        value: Ended,
    ) -> Result<Gone, NoMemory>
        ensures means { IfOk result (λ gone.
            GivesBranch (names_of natives.now) H.table gone (Branch.Body turning left levels) value
            self.new self.old) }
        ensures nears { IfOk result (λ gone.
            NearsBranch gone self.new self.old (Branch.Body turning left levels)) }
        ensures remains { OnOk result (Remains self.new self.old) }
        ensures holds { Holds self.new self.old }
    {
        let turn = self.behind_straight(natives, &turning, levels, value)?;
        let gone = self.go_on_turning(natives, turning, turn, left, levels)?;
        Ok(gone)
    }

    /// Goes on behind the script between two turns.
    pub(crate) fn give_next(
        &mut self,
        natives: &Natives,
        turning: Rc<Turning>,
        left: u64,
        levels: u32,
        value: Ended,
    ) -> Result<Gone, NoMemory>
        ensures means { IfOk result (λ gone.
            GivesBranch (names_of natives.now) H.table gone (Branch.Next turning left levels) value
            self.new self.old) }
        ensures nears { IfOk result (λ gone.
            NearsBranch gone self.new self.old (Branch.Next turning left levels)) }
        ensures remains { OnOk result (Remains self.new self.old) }
        ensures holds { Holds self.new self.old }
    {
        match flow_from(self.alloc, value) {
            Flow::Ends(value) => Ok(Gone::Goes(Step::Value(value))),
            Flow::On => {
                let gone = self.next_turn(natives, turning, left, levels)?;
                Ok(gone)
            }
        }
    }

    /// Goes on with what is left of a turn over values, behind which so many turns may come, from the value
    /// at this place on.
    fn enter_each(
        &mut self,
        walk: Rc<Walk>,
        each: Each,
        at: usize,
        left: usize,
        levels: u32,
    ) -> Result<Gone, NoMemory>
        requires { IsEachSet each }
        ensures means { IfOk result (λ gone.
            (names : Names)
            → GoneIs names H.table gone self.new self.old (λ k.
            each_next names H.table (Some each)
            (walk_on (nested names H.table levels) walk.value.names walk.value.body left
            (drop at walk.value.values) k) k)) }
        ensures nears { IfOk result (λ gone. NearsMost gone self.new self.old (each_free each)) }
        ensures remains { OnOk result (Remains self.new self.old) }
        ensures holds { Holds self.new self.old }
    {
        match each {
            Each::Ends(value) => Ok(Gone::Goes(Step::Value(value))),
            Each::Spent => Ok(Gone::Spent),
            Each::Body(ran) => {
                self.stack.push(Frame::Branch(Branch::Each {
                    walk,
                    at,
                    turns: left,
                    levels,
                }))?;
                let step = self.enter_ran(ran)?;
                Ok(Gone::Goes(step))
            }
        }
    }

    /// Goes on with the turns over values, of which so many are left.
    fn next_values(
        &mut self,
        natives: &Natives,
        walk: Rc<Walk>,
        at: usize,
        left: usize,
        levels: u32,
    ) -> Result<Gone, NoMemory>
        ensures means { IfOk result (λ gone.
            GoneIs (names_of natives.now) H.table gone self.new self.old
            (walk_on (nested (names_of natives.now) H.table levels) walk.value.names walk.value.body
            left (drop at walk.value.values))) }
        ensures nears { IfOk result (λ gone. Nears gone self.new (credit self.old + 1)) }
        ensures remains { OnOk result (Remains self.new self.old) }
        ensures holds { Holds self.new self.old }
    {
        let walked = self.walk_straight(natives, &walk, at, left, levels)?;
        let gone = self.enter_each(walk, walked.each, walked.at, walked.left, levels)?;
        Ok(gone)
    }

    /// Goes on behind the body of a turn over values.
    pub(crate) fn give_each(
        &mut self,
        natives: &Natives,
        walk: Rc<Walk>,
        at: usize,
        left: usize,
        levels: u32,
        value: Ended,
    ) -> Result<Gone, NoMemory>
        ensures means { IfOk result (λ gone.
            GivesBranch (names_of natives.now) H.table gone (Branch.Each walk at left levels) value
            self.new self.old) }
        ensures nears { IfOk result (λ gone.
            NearsBranch gone self.new self.old (Branch.Each walk at left levels)) }
        ensures remains { OnOk result (Remains self.new self.old) }
        ensures holds { Holds self.new self.old }
    {
        match flow_from(self.alloc, value) {
            Flow::Ends(value) => Ok(Gone::Goes(Step::Value(value))),
            Flow::On => {
                let gone = self.next_values(natives, walk, at, left, levels)?;
                Ok(gone)
            }
        }
    }

    /// Puts a loop over values on the stack whose turns come next, of which there are as many as it takes
    /// for all of them.
    fn begin_walk(&mut self, walk: Walk, levels: u32) -> Result<Acted, NoMemory>
        requires { 0 < length walk.names }
        ensures means { IfOk result (λ acted.
            ActsAs H.table acted self.new self.old
            (λ names. walk_all (nested names H.table levels) walk.names walk.values walk.body)) }
        ensures lower { OnOk result (Lower self.new self.old 1) }
        ensures opens { IfOk result (λ acted. Opens acted self.new self.old) }
        ensures holds { Holds self.new self.old }
    {
        let turns = walk.values.len().div_ceil(walk.names.len());
        let walk = Rc::new(self.alloc, walk)?;
        self.stack.push(Frame::Branch(Branch::Each {
            walk,
            at: 0,
            turns,
            levels,
        }))?;
        Ok(Acted::Gives(done(self.alloc)))
    }

    /// `foreach names list body`.
    pub(crate) fn do_foreach(&mut self, words: &Words, levels: u32) -> Result<Acted, NoMemory>
        ensures means { IfOk result (λ acted.
            ActsAs H.table acted self.new self.old
            (λ names. do_foreach (nested names H.table levels) words.now)) }
        ensures lower { OnOk result (Lower self.new self.old 1) }
        ensures opens { IfOk result (λ acted. Opens acted self.new self.old) }
        ensures holds { Holds self.new self.old }
    {
        if words.len() != 4 {
            return Ok(Acted::Gives(wrong_words(self.alloc, words)?));
        }
        let names = copy_word(self.alloc, words, 1)?;
        let names = match split(self.alloc, &names) {
            Err(ListFault::NoMemory) => return Err(NoMemory),
            Err(ListFault::Bad { at }) => {
                let acted = self.fails(no_list(self.alloc, at)?)?;
                return Ok(acted);
            }
            Ok(names) => names,
        };
        if names.len() == 0 {
            let acted = self.fails(bad_value(self.alloc, words.bytes_at(1), b"foreach")?)?;
            return Ok(acted);
        }
        let values = copy_word(self.alloc, words, 2)?;
        match split(self.alloc, &values) {
            Err(ListFault::NoMemory) => Err(NoMemory),
            Err(ListFault::Bad { at }) => {
                let acted = self.fails(no_list(self.alloc, at)?)?;
                Ok(acted)
            }
            Ok(values) => {
                let body = self.readings.read_word(self.alloc, words, 3)?;
                let walk = Walk {
                    names,
                    values,
                    body,
                };
                let acted = self.begin_walk(walk, levels)?;
                Ok(acted)
            }
        }
    }

    /// Gives a choice, a loop or a page what it waited for.
    pub(crate) fn go_on(
        &mut self,
        natives: &Natives,
        branch: Branch,
        value: Ended,
    ) -> Result<Gone, NoMemory>
        ensures means { IfOk result (λ gone.
            GivesBranch (names_of natives.now) H.table gone branch value self.new self.old) }
        ensures nears { IfOk result (λ gone. NearsBranch gone self.new self.old branch) }
        ensures remains { OnOk result (Remains self.new self.old) }
        ensures holds { Holds self.new self.old }
    {
        match branch {
            Branch::Start { turning, levels } => self.give_start(natives, turning, levels, value),
            Branch::Condition {
                turning,
                turns,
                levels,
            } => self.give_condition(natives, turning, turns, levels, value),
            Branch::Body {
                turning,
                turns,
                levels,
            } => self.give_body(natives, turning, turns, levels, value),
            Branch::Next {
                turning,
                turns,
                levels,
            } => self.give_next(natives, turning, turns, levels, value),
            Branch::If {
                body,
                branches,
                next,
                levels,
            } => self.give_if(body, branches, next, levels, value),
            Branch::Each {
                walk,
                at,
                turns,
                levels,
            } => self.give_each(natives, walk, at, turns, levels, value),
            Branch::Page {
                pieces,
                next,
                levels,
            } => self.give_page(pieces, next, levels, value),
        }
    }
}
