//! The scheduler.

ghost use Rattle.std.specs.Prelude.{◌≡◌, ◌≢◌, ◌↔◌, IfOk, OnOk, IsTrue, None, Some};
ghost use Rattle.sched_core.specs.declared.call.SchedReply.TheVariants as replies;
ghost use Rattle.natives.specs.Names.{names_of};
ghost use Rattle.ictl.specs.Came.{IsAtQuestion};
ghost use Rattle.ictl.specs.declared.next.Next.TheVariants as nexts;
ghost use Rattle.tcl_eval.specs.declared.outcome.Outcome.{Outcome};
ghost use Rattle.rehearse.specs.Objects.{Setting as SeenSetting};
ghost use Rattle.rehearse.specs.Schedules.{due_scripts};
ghost use Rattle.rehearse.specs.Playing.{setting_of, IsResting, IsSchedulerReady, with_running, IsReadyWith, ScheduleStepped, SteppedWith};
ghost use Rattle.rehearse.specs.declared.listing.Listing.{Listing as Told};
ghost use Rattle.rehearse.specs.declared.objects.Objects.{Objects as SeenObjects};

use crate::keeper::Keeper;
use crate::listing::Listing;
use crate::objects::Objects;
use crate::running::{begin_script, resume};
use crate::setting::Setting;
use cmd_table::Steps;
use ictl::{Next, Run, one_response};
use natives::Natives;
use sched_core::{DueList, SchedCall, SchedReply};
use std::alloc::Global;
use std::mem;
use std::sync::ledger::Ledger;
use turn_cell::Obj;
use txt_core::NoMemory;

/// A script under way: its run, and the moment at which it began.
#[derive(Drop)]
pub struct Running {
    id: u64,
    run: Run,
    moment: u64,
}

/// Runs the scripts that are due, one after the other, in an interpreter that it keeps.
#[derive(Drop)]
pub struct Scheduler {
    alloc: Global,
    keeper: Keeper,
    /// The scripts that were taken last, and how many of them began.
    due: DueList,
    begun: usize,
    /// The script under way.
    running: Option<Running>,
}

/// The scripts that a reply lists. The only error is want of memory, exactly where the reply says so.
fn listed(alloc: Global, reply: SchedReply) -> Result<DueList, NoMemory>
    ensures scripts { IfOk result (λ list. list ≡ due_scripts reply) }
    ensures some { IfOk result (λ _. reply ≢ replies.NoMemory) }
{
    match reply {
        SchedReply::Due(list) => Ok(list),
        SchedReply::Id(_)
        | SchedReply::NoId
        | SchedReply::Full
        | SchedReply::Cancelled
        | SchedReply::Stopped => Ok(DueList::new(alloc)),
        SchedReply::NoMemory => Err(NoMemory),
    }
}

impl Scheduler {
    /// A scheduler without scripts, which has made no interpreter yet.
    pub fn new(alloc: Global) -> Scheduler
        ensures { IsResting result × (result.keeper.interp ≡ None) }
    {
        Scheduler {
            alloc,
            keeper: Keeper::new(),
            due: DueList::new(alloc),
            begun: 0,
            running: None,
        }
    }

    /// Whether it has no script.
    pub fn is_idle(&self) -> bool
        ensures { IsTrue result ↔ IsResting self.now }
    {
        self.running.is_none() && self.begun >= self.due.len()
    }

    /// Takes the scripts that are due now.
    fn take_due(&mut self, moment: u64, objects: &mut Objects) -> Result<(), NoMemory>
        requires { IsResting self.old }
        ensures { (setting : SeenSetting) (listing : Told) → setting.moment ≡ moment
            → IsSchedulerReady setting.natives objects.old.blueprint self.old
            → OnOk result
            (ScheduleStepped setting self.old objects.old listing self.new objects.new listing) }
    {
        let reply = objects.schedule.act(SchedCall::Due(moment));
        self.due = listed(self.alloc, reply)?;
        self.begun = 0;
        Ok(())
    }

    /// Turns to a script, and lets go of what it was at.
    fn turn_to(&mut self, running: Running)
        ensures { self.new ≡ with_running self.old (Some running) }
    {
        drop(mem::replace(&mut self.running, Some(running)));
    }

    /// Begins the next script, where there is one, on the blueprint and at the moment as they are now; else
    /// it takes those that are due.
    fn begin<L: Ledger>(
        &mut self,
        natives: &Natives,
        setting: &Setting,
        objects: &mut Objects,
        steps: &mut Steps<L>,
    ) -> Result<(), NoMemory>
        requires none { self.old.running ≡ None }
        requires ready { IsSchedulerReady (names_of natives.now) objects.old.blueprint self.old }
        ensures { (listing : Told)
            → OnOk result
            (ScheduleStepped (setting_of (names_of natives.now) setting.now) self.old objects.old
            listing self.new objects.new listing) }
    {
        let moment = setting.moment;
        if self.begun >= self.due.len() {
            return self.take_due(moment, objects);
        }
        let Some(due) = self.due.get(self.begun) else {
            unreachable!()
        };
        let interp = self
            .keeper
            .take(self.alloc, natives, &objects.blueprint, steps)?;
        let run = begin_script(interp, natives, &due.script, moment, steps);
        let running = Running {
            id: due.id,
            run,
            moment,
        };
        self.begun += 1;
        self.turn_to(running);
        Ok(())
    }

    /// Answers the question at which a script stands, and goes on with it.
    fn answer<L: Ledger>(
        &mut self,
        natives: &Natives,
        setting: &Setting,
        objects: &mut Objects,
        mut running: Running,
        steps: &mut Steps<L>,
    ) -> Result<(), NoMemory>
        requires asks { IsAtQuestion running.run }
        requires ready { IsReadyWith (names_of natives.now) objects.old.blueprint self.old running }
        ensures { (listing : Told)
            → OnOk result
            (SteppedWith (setting_of (names_of natives.now) setting.now) self.old running
            objects.old listing self.new objects.new listing) }
    {
        let Some(question) = running.run.take_question() else {
            unreachable!()
        };
        objects.blueprint.shown();
        let answer = objects.answer(self.alloc, setting, running.moment, question)?;
        resume(&mut running.run, natives, answer, steps);
        self.turn_to(running);
        Ok(())
    }

    /// Keeps the interpreter of a script that has ended, and tells how it ended.
    fn end<L: Ledger>(
        &mut self,
        running: Running,
        listing: &mut Listing,
        steps: &mut Steps<L>,
    ) -> Result<(), NoMemory>
        requires none { self.old.running ≡ None }
        requires ended { (outcome : Outcome) × (running.run.next ≡ nexts.Ended outcome) }
        ensures { (setting : SeenSetting) (objects : SeenObjects)
            → IsReadyWith setting.natives objects.blueprint self.old running
            → OnOk result
            (SteppedWith setting self.old running objects listing.old
            self.new objects listing.new) }
    {
        let Running { id, run, .. } = running;
        let (next, interp) = run.into_parts();
        let epoch = interp.epoch();
        self.keeper.keep(interp, steps);
        let Next::Ended(outcome) = next else {
            unreachable!()
        };
        listing.push_script(id, epoch, outcome)
    }

    /// Goes on with a script by one step: answers the open question, or ends it.
    fn go_on<L: Ledger>(
        &mut self,
        natives: &Natives,
        setting: &Setting,
        objects: &mut Objects,
        running: Running,
        listing: &mut Listing,
        steps: &mut Steps<L>,
    ) -> Result<(), NoMemory>
        requires none { self.old.running ≡ None }
        requires ready { IsReadyWith (names_of natives.now) objects.old.blueprint self.old running }
        ensures { OnOk result
            (SteppedWith (setting_of (names_of natives.now) setting.now) self.old running
            objects.old listing.old self.new objects.new listing.new) }
    {
        match running.run.next() {
            Next::Asks(_) => self.answer(natives, setting, objects, running, steps),
            Next::Ended(_) => self.end(running, listing, steps),
            Next::Write(_) => {
                one_response();
                unreachable!()
            }
            Next::NoMemory => {
                drop(running);
                Err(NoMemory)
            }
        }
    }

    /// Takes one step. Where memory wants, the scheduler is in any state.
    pub fn step<L: Ledger>(
        &mut self,
        natives: &Natives,
        setting: &Setting,
        objects: &mut Objects,
        listing: &mut Listing,
        steps: &mut Steps<L>,
    ) -> Result<(), NoMemory>
        requires { IsSchedulerReady (names_of natives.now) objects.old.blueprint self.old }
        ensures { OnOk result
            (ScheduleStepped (setting_of (names_of natives.now) setting.now) self.old objects.old
            listing.old self.new objects.new listing.new) }
    {
        match self.running.take() {
            Some(running) => self.go_on(natives, setting, objects, running, listing, steps),
            None => self.begin(natives, setting, objects, steps),
        }
    }
}
