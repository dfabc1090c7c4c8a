//! The schedule.
ghost use Rattle.std.specs.Prelude.{◌≡◌, ◌≢◌, [], false, IfSome, IfNone, Contains};
ghost use Rattle.sched_core.specs.Entries.{Entry, id_of};
ghost use Rattle.sched_core.specs.Allowed.{Allowed};
ghost use Rattle.sched_core.specs.Steps.{Adds, Cancels, Runs, entry_of};
ghost use Rattle.txt_core.specs.Limits.{moment_of};

use crate::call::{SchedCall, SchedReply};
use crate::due::take_due;
use crate::plan::{Key, MOST_ENTRIES, Plan, Plans, clamp_seconds};
use std::alloc::Global;
use std::collections::BTreeMap;
use std::marker::Model;
use turn_cell::Obj;
use txt_core::{Text, moment_of};

/// Scripts that are due at moments. Contracts see the id that the next entry gets, the entries by
/// due moment and then by id, and whether the schedule was stopped.
#[derive(Drop)]
pub struct Schedule {
    alloc: Global,
    next: u64,
    plans: Plans,
    stopped: bool,
}

impl Model for Schedule {
    ghost use Rattle.sched_core.specs.Entries.{State};
    ghost use Rattle.sched_core.specs.Allowed.{Allowed};

    ghost Value = { State };

    ghost view = { λ a. record { next = a.next; entries = a.plans.entries; stopped = a.stopped } };

    ghost invariant = { λ a. Allowed (record { next = a.next; entries = a.plans.entries; stopped = a.stopped }) };
}

impl Schedule {
    /// An empty schedule: its first entry gets the id 0, and it isn't stopped.
    pub fn new(alloc: Global) -> Schedule
        ensures { (result.next ≡ 0) × (result.entries ≡ []) × (result.stopped ≡ false) }
    {
        Schedule {
            alloc,
            next: 0,
            plans: BTreeMap::new(alloc),
            stopped: false,
        }
    }

    fn add(&mut self, moment: u64, seconds: u64, once: bool, script: Text) -> SchedReply
        ensures step { Adds self.old (λ id. entry_of id moment seconds once script) result
            self.new }
        ensures allowed { Allowed self.new }
    {
        let id = self.next;
        if self.plans.len() >= MOST_ENTRIES || id == u64::MAX {
            return SchedReply::Full;
        }
        let seconds = clamp_seconds(seconds);
        let due = moment_of(moment) + seconds;
        let plan = Plan {
            seconds,
            once,
            script,
        };
        match self.plans.insert((due, id), plan) {
            Ok(_) => {
                self.next = id + 1;
                SchedReply::Id(id)
            }
            Err(_) => SchedReply::NoMemory,
        }
    }

    fn cancel(&mut self, id: u64) -> SchedReply
        ensures step { Cancels self.old id result self.new }
        ensures allowed { Allowed self.new }
    {
        match key_of(&self.plans, id) {
            Some(key) => {
                self.plans.remove(&key);
                SchedReply::Cancelled
            }
            None => SchedReply::NoId,
        }
    }

    fn due(&mut self, now: u64) -> SchedReply
        ensures step { Runs self.old (moment_of now) result self.new }
        ensures allowed { Allowed self.new }
    {
        if self.stopped {
            return SchedReply::Stopped;
        }
        match take_due(self.alloc, &mut self.plans, moment_of(now)) {
            Ok(list) => SchedReply::Due(list),
            Err(_) => SchedReply::NoMemory,
        }
    }
}

/// The key of the entry with this id; `None` exactly where no entry has it.
fn key_of(plans: &Plans, id: u64) -> Option<Key>
    ensures some { IfSome result (λ key.
        (e : Entry) × Contains plans.now.entries e × (e.0 ≡ key) × (id_of e ≡ id)) }
    ensures none { IfNone result ((e : Entry) → Contains plans.now.entries e → id_of e ≢ id) }
{
    for key in plans.keys() {
        if key.1 == id {
            return Some(*key);
        }
    }
    None
}

impl Obj for Schedule {
    ghost use Rattle.std.specs.Prelude.{[], false};
    ghost use Rattle.sched_core.specs.Steps.{ScheduleSteps};
    ghost use Rattle.sched_core.specs.Sample.{empty_allowed};

    type Call = SchedCall;

    type Reply = SchedReply;

    ghost allowed = { Allowed };

    ghost reaches = { λ s t. Unit {0} };

    ghost step = { ScheduleSteps };

    ghost sample = { record { next = 0; entries = []; stopped = false } };

    fn shown(&self) {
        let _stopped = self.stopped;
    }

    fn act(&mut self, call: SchedCall) -> SchedReply {
        match call {
            SchedCall::Add {
                moment,
                seconds,
                once,
                script,
            } => self.add(moment, seconds, once, script),
            SchedCall::Cancel(id) => self.cancel(id),
            SchedCall::Due(now) => self.due(now),
            SchedCall::Stop => {
                self.stopped = true;
                SchedReply::Stopped
            }
        }
    }

    ghost sample_allowed = { empty_allowed };

    ghost reaches_self = { λ s. tt };

    ghost reaches_later = { λ s t u a b. tt };

    ghost step_reaches = { λ s c r t ok h. tt };
}
