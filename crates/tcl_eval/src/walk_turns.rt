//! Turns over values for which nothing is put on the stack.

ghost use Rattle.std.specs.Prelude.{◌≡◌, ℕ, drop, IfOk, IfSome, OnOk, Some};
ghost use Rattle.natives.specs.Names.{names_of};
ghost use Rattle.tcl_eval.specs.Eval.{nested, pay, run_script, unread, write_all};
ghost use Rattle.tcl_eval.specs.Loops.{assigned, in_loop, walk_on};
ghost use Rattle.tcl_eval.specs.Straight.{Alike, Straightly};
ghost use Rattle.tcl_eval.specs.Turns.{EachPays, IsEachSet, Leads, each_next};
ghost use Rattle.tcl_eval.specs.Engine.{Holds, after_writes};
ghost use Rattle.tcl_eval.specs.State.{Next, Rest};

use crate::branch::{Walk, place_behind};
use crate::cost::TURN_COST;
use crate::engine::Engine;
use crate::loop_turns::Ran;
use crate::loops::from_place;
use crate::stack::Ended;
use crate::value::done;
use natives::Natives;
use tcl_host::{Host, OK};
use txt_core::{NoMemory, Text};

/// What is left of a turn over values that was begun, or of a script of a turn of another loop.
#[derive(Drop)]
pub enum Each {
    /// The loop ends with this.
    Ends(Ended),
    Spent,
    /// Its body, or the script, stands here.
    Body(Ran),
}

/// A loop over values under way: what is left of its turn, the place of the value behind that, and how many
/// turns may come.
#[derive(Drop)]
pub struct Walked {
    pub each: Each,
    pub at: usize,
    pub left: usize,
}

#[tactic(auto, using(crate::proofs::Stacks::frees_push))]
impl<H: Host> Engine<H> {
    /// Writes in turn the values to the names, and the empty text where no value is left; where one is
    /// refused, that is the error.
    fn write_assigned(&mut self, names: &[Text], values: &[Text]) -> Result<Option<Ended>, NoMemory>
        ensures means { IfOk result (λ refused.
            (go : Next H → Rest H)
            → Alike self.new self.old (after_writes refused go) (λ k.
            write_all (assigned names.now values.now) (go k) k)) }
        ensures straight { OnOk result (Straightly self.new self.old) }
        ensures holds { Holds self.new self.old }
    {
        let mut left = values;
        'names: for name in names {
            let value = match left.split_first() {
                None => Text::empty(self.alloc),
                Some((value, behind)) => {
                    left = behind;
                    value.copy(self.alloc)?
                }
            };
            let written = self.store(name, value, Text::empty(self.alloc))?;
            if written.code != OK {
                return Ok(Some(written));
            }
        }
        Ok(None)
    }

    /// Does a turn over values, the first of which stands at this place, as far as nothing is put on the
    /// stack for it; `None` where the next turn comes.
    #[inline(always)]
    fn each_straight(
        &mut self,
        natives: &Natives,
        walk: &Walk,
        at: usize,
        levels: u32,
    ) -> Result<Option<Each>, NoMemory>
        ensures means { IfOk result (λ each.
            Leads self.new self.old (each_next (names_of natives.now) H.table each) (λ go k.
            pay 1
            (write_all (assigned walk.now.names (drop at walk.now.values))
            (run_script (names_of natives.now) H.table levels (unread walk.now.body)
            (in_loop go k))
            k))) }
        ensures pays { IfOk result (λ each. IfSome each (EachPays self.new self.old)) }
        ensures set { IfOk result (λ each. IfSome each IsEachSet) }
        ensures straight { OnOk result (Straightly self.new self.old) }
        ensures holds { Holds self.new self.old }
    {
        if !self.pay(TURN_COST) {
            return Ok(Some(Each::Spent));
        }
        let values = from_place(walk.values.as_slice(), at);
        match self.write_assigned(walk.names.as_slice(), values)? {
            Some(refused) => Ok(Some(Each::Ends(refused))),
            None => {
                let each = self.part_straight(natives, &walk.body, levels)?;
                Ok(each)
            }
        }
    }

    /// Does turns over values, of which so many are left and the first value stands at this place, as far
    /// as nothing is put on the stack for them.
    pub(crate) fn walk_straight(
        &mut self,
        natives: &Natives,
        walk: &Walk,
        at: usize,
        left: usize,
        levels: u32,
    ) -> Result<Walked, NoMemory>
        ensures means { IfOk result (λ walked.
            Alike self.new self.old
            (λ k.
            each_next (names_of natives.now) H.table (Some walked.each)
            (walk_on (nested (names_of natives.now) H.table levels) walk.now.names walk.now.body
            walked.left (drop walked.at walk.now.values) k) k)
            (walk_on (nested (names_of natives.now) H.table levels) walk.now.names walk.now.body left
            (drop at walk.now.values))) }
        ensures pays { IfOk result (λ walked. EachPays self.new self.old walked.each) }
        ensures set { IfOk result (λ walked. IsEachSet walked.each) }
        ensures straight { OnOk result (Straightly self.new self.old) }
        ensures holds { Holds self.new self.old }
    {
        let mut at = at;
        let mut left = left;
        'turns: while left > 0 {
            let here = at;
            at = place_behind(at, walk.names.len(), walk.values.len());
            left -= 1;
            match self.each_straight(natives, walk, here, levels)? {
                None => {}
                Some(each) => return Ok(Walked { each, at, left }),
            }
        }
        Ok(Walked {
            each: Each::Ends(done(self.alloc)),
            at,
            left: 0,
        })
    }
}
