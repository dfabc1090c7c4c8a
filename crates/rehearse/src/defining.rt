//! Definition runs.

ghost use Rattle.std.specs.Prelude.{◌≡◌, None, OnOk};
ghost use Rattle.natives.specs.Names.{names_of};
ghost use Rattle.ictl.specs.Came.{IsAtQuestion};
ghost use Rattle.tcl_eval.specs.declared.outcome.Outcome.{Outcome as Outcomes};
ghost use Rattle.rehearse.specs.Defining.{Defining as Seen, begun_block, epoch_behind_question};
ghost use Rattle.rehearse.specs.Playing.{setting_of, KeepsOn, IsUnderWay, DefinesAs, WentOn, Finished, PlayedToItsEnd};

use crate::keeper::Keeper;
use crate::listing::Listing;
use crate::objects::Objects;
use crate::running::{begin_define, resume};
use crate::setting::Setting;
use cmd_table::Steps;
use ictl::{Next, one_response};
use natives::Natives;
use outside::Service;
use std::alloc::Global;
use std::sync::ledger::Ledger;
use turn_cell::Obj;
use txt_core::{NoMemory, Text};

/// Runs blocks as start scripts, in an interpreter that it keeps.
#[derive(Drop)]
pub struct Definer {
    pub keeper: Keeper,
    alloc: Global,
}

/// A definition run, its moment, and the epoch that is told where it ends well.
#[derive(Drop)]
pub struct Run {
    run: ictl::Run,
    moment: u64,
    epoch: u64,
}

/// The epoch that is told behind a question to this service, with which the blueprint has that epoch.
fn epoch_behind(service: Service, before: u64, now: u64) -> u64
    ensures { result ≡ epoch_behind_question service before now }
{
    match service {
        Service::Publish => now,
        Service::Page | Service::Nsv | Service::Schedule | Service::Save | Service::Inner => before,
    }
}

impl Run {
    /// Answers the question at which it stands, and goes on. A publication changes the epoch that is told.
    fn answer<L: Ledger>(
        &mut self,
        alloc: Global,
        natives: &Natives,
        setting: &Setting,
        objects: &mut Objects,
        steps: &mut Steps<L>,
    ) -> Result<(), NoMemory>
        requires asks { IsAtQuestion self.old.run }
        requires ready { IsUnderWay (names_of natives.now) objects.old.blueprint
            self.old.run.interp }
        ensures { OnOk result
            (WentOn (setting_of (names_of natives.now) setting.now) self.old objects.old self.new
            objects.new) }
    {
        let Some(question) = self.run.take_question() else {
            unreachable!()
        };
        objects.blueprint.shown();
        let service = question.service;
        let answer = objects.answer(alloc, setting, self.moment, question)?;
        self.epoch = epoch_behind(service, self.epoch, objects.blueprint.epoch());
        resume(&mut self.run, natives, answer, steps);
        Ok(())
    }

    /// Goes on to its end, and answers its questions at once.
    fn finish<L: Ledger>(
        &mut self,
        alloc: Global,
        natives: &Natives,
        setting: &Setting,
        objects: &mut Objects,
        steps: &mut Steps<L>,
    ) -> Result<(), NoMemory>
        requires ready { IsUnderWay (names_of natives.now) objects.old.blueprint
            self.old.run.interp }
        requires stands { (seen : Seen) × DefinesAs (names_of natives.now) self.old seen }
        ensures { OnOk result
            ((outcome : Outcomes)
            × Finished (setting_of (names_of natives.now) setting.now) self.old objects.old outcome
            self.new objects.new) }
    {
        'questions: loop {
            match self.run.next() {
                Next::Asks(_) => self.answer(alloc, natives, setting, objects, steps)?,
                Next::Ended(_) => return Ok(()),
                Next::Write(_) => {
                    one_response();
                    unreachable!()
                }
                Next::NoMemory => return Err(NoMemory),
            }
        }
    }
}

impl Definer {
    /// It has made no interpreter yet.
    pub fn new(alloc: Global) -> Definer
        ensures { result.keeper ≡ record { interp = None } }
    {
        Definer {
            keeper: Keeper::new(),
            alloc,
        }
    }

    /// Runs a block on the blueprint and at the moment as they are, to its end, which the listing tells,
    /// and answers its questions at once.
    pub fn define<L: Ledger>(
        &mut self,
        natives: &Natives,
        setting: &Setting,
        objects: &mut Objects,
        block: &Text,
        listing: &mut Listing,
        steps: &mut Steps<L>,
    ) -> Result<(), NoMemory>
        requires { KeepsOn (names_of natives.now) objects.old.blueprint self.old.keeper }
        ensures settled { let setting = setting_of (names_of natives.now) setting.now in
            OnOk result
            (PlayedToItsEnd setting (begun_block setting objects.old block.now) objects.old
            listing.old objects.new listing.new) }
        ensures keeps { OnOk result
            (KeepsOn (names_of natives.now) objects.new.blueprint self.new.keeper) }
    {
        let interp = self
            .keeper
            .take(self.alloc, natives, &objects.blueprint, steps)?;
        let moment = setting.moment;
        let begun = begin_define(interp, natives, block, moment, steps);
        let mut run = Run {
            epoch: begun.epoch(),
            run: begun,
            moment,
        };
        match run.finish(self.alloc, natives, setting, objects, steps) {
            Ok(()) => {
                let Run { run, epoch, .. } = run;
                let (next, interp) = run.into_parts();
                self.keeper.keep(interp, steps);
                let Next::Ended(outcome) = next else {
                    unreachable!()
                };
                listing.push_define(epoch, outcome)
            }
            Err(want) => {
                drop(run);
                Err(want)
            }
        }
    }
}
