//! `if` under way.

ghost use Rattle.std.specs.Prelude.{◌≡◌, ◌<◌, ◌≤◌, ℕ, IfOk, OnOk, Some, drop, slice_get};
ghost use Rattle.txt_core.specs.Names.{Names};
ghost use Rattle.tcl_eval.specs.Eval.{nested, do_if};
ghost use Rattle.tcl_eval.specs.Branches.{choose};
ghost use Rattle.tcl_eval.specs.Chosen.{IsClause, chosen_next};
ghost use Rattle.tcl_eval.specs.Choices.{PaidAlone};
ghost use Rattle.tcl_eval.specs.Straight.{Alike, Straightly};
ghost use Rattle.tcl_eval.specs.Engine.{Holds, Opens, Enters, Lower, Remains, credit};
ghost use Rattle.tcl_eval.specs.Clauses.{ActsAs, GivesBranch, NearsBranch};
ghost use Rattle.tcl_eval.specs.declared.branch.Branch.{Branch};

use crate::branch::{Branch, Branches, place_behind, read_branches};
use crate::engine::Engine;
use crate::loop_turns::Tested;
use crate::read_expr::ReadExpr;
use crate::stack::{Acted, Ended, Frame, Gone, Step, gone_from};
use crate::value::{done, wrong_words};
use crate::words::behind_name;
use std::rc::Rc;
use tcl_host::Host;
use txt_core::{NoMemory, Text, Words};

/// What an `if` comes to, as far as nothing is run for its conditions.
#[derive(Drop)]
pub enum Chosen<'a> {
    /// It ends with this.
    Ends(Ended),
    /// A condition costs more than is left of the budget.
    Spent,
    /// This body is run.
    Body(&'a Text),
    /// Something may be run for the condition at this place, which is this one, with this body.
    Waits {
        at: usize,
        condition: Rc<ReadExpr>,
        body: &'a Text,
    },
}

#[tactic(auto, using(crate::proofs::Stacks::frees_push))]
impl<H: Host> Engine<H> {
    /// Goes over the conditions from a place on, as far as nothing is run for them.
    #[tactic(auto, using(crate::proofs::Stacks::frees_push, crate::proofs::Choices::paid_both))]
    pub(crate) fn choose_straight<'a>(
        &mut self,
        branches: &'a Branches,
        at: usize,
    ) -> Result<Chosen<'a>, NoMemory>
        ensures means { IfOk result (λ chosen.
            (names : Names) (levels : ℕ)
            → Alike self.new self.old
            (chosen_next (nested names H.table levels) branches.now chosen)
            (choose (nested names H.table levels) (drop at branches.now.clauses)
            branches.now.last)) }
        ensures rest { OnOk result (PaidAlone self.new self.old) }
        ensures asks { IfOk result (λ chosen. IsClause branches.now chosen) }
        ensures straight { OnOk result (Straightly self.new self.old) }
        ensures holds { Holds self.new self.old }
    {
        let mut at = at;
        'conditions: while let Some(clause) = branches.clauses.get(at) {
            let condition = self.readings.read_expression(self.alloc, &clause.0)?;
            match self.test_straight(&condition)? {
                Tested::Holds => return Ok(Chosen::Body(&clause.1)),
                Tested::Fails => at = place_behind(at, 1, branches.clauses.len()),
                Tested::Ends(value) => return Ok(Chosen::Ends(value)),
                Tested::Spent => return Ok(Chosen::Spent),
                Tested::Left => {
                    return Ok(Chosen::Waits {
                        at,
                        condition,
                        body: &clause.1,
                    });
                }
            }
        }
        match &branches.last {
            None => Ok(Chosen::Ends(done(self.alloc))),
            Some(body) => Ok(Chosen::Body(body)),
        }
    }

    /// Evaluates the condition at a place, which is this one, with this body.
    fn wait_for(
        &mut self,
        branches: Rc<Branches>,
        at: usize,
        condition: &ReadExpr,
        body: Text,
        levels: u32,
    ) -> Result<Acted, NoMemory>
        requires { slice_get branches.value.clauses at ≡ Some (condition.now, body) }
        ensures means { IfOk result (λ acted.
            ActsAs H.table acted self.new self.old (λ names.
            choose (nested names H.table levels) (drop at branches.value.clauses)
            branches.value.last)) }
        ensures lower { OnOk result (Lower self.new self.old 1) }
        ensures opens { IfOk result (λ acted. Opens acted self.new self.old) }
        ensures enters { IfOk result (λ acted. Enters acted (credit self.new ≤ credit self.old)) }
        ensures holds { Holds self.new self.old }
    {
        let next = place_behind(at, 1, branches.clauses.len());
        self.stack.push(Frame::Branch(Branch::If {
            body,
            branches,
            next,
            levels,
        }))?;
        let acted = self.evaluate_read(condition, levels)?;
        Ok(acted)
    }

    /// Goes on with the condition at a place, and where there is none with the last body.
    fn choose(&mut self, branches: Rc<Branches>, at: usize, levels: u32) -> Result<Acted, NoMemory>
        ensures means { IfOk result (λ acted.
            ActsAs H.table acted self.new self.old (λ names.
            choose (nested names H.table levels) (drop at branches.value.clauses)
            branches.value.last)) }
        ensures lower { OnOk result (Lower self.new self.old 1) }
        ensures opens { IfOk result (λ acted. Opens acted self.new self.old) }
        ensures enters { IfOk result (λ acted. Enters acted (credit self.new ≤ credit self.old)) }
        ensures holds { Holds self.new self.old }
    {
        match self.choose_straight(&branches, at)? {
            Chosen::Ends(value) => Ok(Acted::Gives(value)),
            Chosen::Spent => Ok(Acted::Spent),
            Chosen::Body(body) => {
                let acted = self.enter_text(body, levels)?;
                Ok(acted)
            }
            Chosen::Waits {
                at,
                condition,
                body,
            } => {
                let body = body.copy(self.alloc)?;
                let again = branches.clone()?;
                let acted = self.wait_for(again, at, &condition, body, levels)?;
                Ok(acted)
            }
        }
    }

    /// Goes on by the truth of a condition.
    pub(crate) fn give_if(
        &mut self,
        body: Text,
        branches: Rc<Branches>,
        next: usize,
        levels: u32,
        value: Ended,
    ) -> Result<Gone, NoMemory>
        ensures means { IfOk result (λ gone.
            (names : Names)
            → GivesBranch names H.table gone (Branch.If body branches next levels) value self.new
            self.old) }
        ensures nears { IfOk result (λ gone.
            NearsBranch gone self.new self.old (Branch.If body branches next levels)) }
        ensures remains { OnOk result (Remains self.new self.old) }
        ensures holds { Holds self.new self.old }
    {
        match self.tested(value)? {
            Tested::Holds => {
                let acted = self.enter_text(&body, levels)?;
                Ok(gone_from(acted))
            }
            Tested::Fails => {
                let acted = self.choose(branches, next, levels)?;
                Ok(gone_from(acted))
            }
            Tested::Ends(value) => Ok(Gone::Goes(Step::Value(value))),
            Tested::Spent | Tested::Left => unreachable!(),
        }
    }

    /// `if c ?then? body`, any `elseif c ?then? body`, `?else? body`.
    pub(crate) fn do_if(&mut self, words: &Words, levels: u32) -> Result<Acted, NoMemory>
        ensures means { IfOk result (λ acted.
            ActsAs H.table acted self.new self.old
            (λ names. do_if (nested names H.table levels) words.now)) }
        ensures lower { OnOk result (Lower self.new self.old 1) }
        ensures opens { IfOk result (λ acted. Opens acted self.new self.old) }
        ensures holds { Holds self.new self.old }
    {
        match read_branches(self.alloc, behind_name(words))? {
            None => Ok(Acted::Gives(wrong_words(self.alloc, words)?)),
            Some(branches) => {
                let branches = Rc::new(self.alloc, branches)?;
                let acted = self.choose(branches, 0, levels)?;
                Ok(acted)
            }
        }
    }
}
