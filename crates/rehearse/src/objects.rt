//! The objects that answer questions.

ghost use Rattle.std.specs.Prelude.{◌≡◌, IfOk};
ghost use Rattle.txt_core.specs.Names.{Names};
ghost use Rattle.natives.specs.Names.{names_of};
ghost use Rattle.rehearse.specs.Objects.{new_objects, Answers, BlueprintAnswers, ScheduleAnswers};
ghost use Rattle.rehearse.specs.Playing.{setting_of, IsPut};

use crate::setting::{Setting, page_answer};
use blueprint::{BlueCall, BlueReply, Blueprint};
use natives::Natives;
use nsv_bucket::Buckets;
use outside::{Answer, Question, Service};
use sched_core::Schedule;
use serving::{
    Asked, inner_answer, nsv_answer, publish_call, published_answer, save_call, sched_answer,
    sched_call,
};
use std::alloc::Global;
use turn_cell::Obj;
use txt_core::{NoMemory, Words};

/// The objects: what was published, the shared arrays, and the schedule.
#[derive(Drop)]
pub struct Objects {
    pub blueprint: Blueprint,
    pub arrays: Buckets,
    pub schedule: Schedule,
}

impl Objects {
    /// Nothing was published, no array is there, and nothing is scheduled.
    pub fn new(alloc: Global, natives: &Natives) -> Result<Objects, NoMemory>
        ensures { IfOk result (λ objects. objects ≡ new_objects (names_of natives.now)) }
    {
        Ok(Objects {
            blueprint: Blueprint::new(alloc, natives)?,
            arrays: Buckets::new(alloc),
            schedule: Schedule::new(alloc),
        })
    }

    /// Puts a publication or a save to the blueprint.
    fn publish(&mut self, alloc: Global, call: BlueCall) -> Result<Answer, NoMemory>
        requires { IsPut call }
        ensures { IfOk result (λ answer. BlueprintAnswers call self.old answer self.new) }
    {
        match self.blueprint.act(call) {
            BlueReply::Published(reply) => published_answer(alloc, reply),
            BlueReply::Look(_) => unreachable!(),
        }
    }

    /// Puts the words of a run at this moment to the schedule.
    fn schedule(&mut self, alloc: Global, words: &Words, moment: u64) -> Result<Answer, NoMemory>
        ensures { IfOk result (λ answer.
            ScheduleAnswers moment words.now self.old answer self.new) }
    {
        let call = sched_call(alloc, words, moment)?;
        let reply = self.schedule.act(call);
        sched_answer(alloc, words, reply)
    }

    /// Answers a question of a run whose moment is this, from the objects and the pages as they are now.
    /// The only error is want of memory.
    pub fn answer(
        &mut self,
        alloc: Global,
        setting: &Setting,
        moment: u64,
        question: Question,
    ) -> Result<Answer, NoMemory>
        ensures { (names : Names)
            → IfOk result (λ answer.
            Answers (setting_of names setting.now) moment question self.old answer self.new) }
    {
        let Question { service, words } = question;
        match service {
            Service::Page => page_answer(alloc, &setting.pages, &words),
            Service::Nsv => nsv_answer(self.arrays.ask(&words)?),
            Service::Schedule => self.schedule(alloc, &words, moment),
            Service::Publish => match publish_call(alloc, &words)? {
                Asked::Puts(call) => self.publish(alloc, call),
                Asked::Refused(answer) => Ok(answer),
            },
            Service::Save => self.publish(alloc, save_call(alloc, &words)?),
            Service::Inner => Ok(inner_answer(alloc)),
        }
    }
}
