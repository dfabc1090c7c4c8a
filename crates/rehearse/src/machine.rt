//! The machine of one thread.

ghost use Rattle.std.specs.Prelude.{◌≡◌, ◌≤◌, ◌↔◌, length, IfOk, OnOk, IsTrue};
ghost use Rattle.txt_core.specs.Names.{Names};
ghost use Rattle.blueprint.specs.States.{State};
ghost use Rattle.natives.specs.Names.{names_of};
ghost use Rattle.rehearse.specs.Events.{workers, clock, page as spelled_page, define, connect, step, run, most_block, most_input};
ghost use Rattle.rehearse.specs.Reading.{event_of, actor_of, IsShort};
ghost use Rattle.rehearse.specs.World.{opening, all_idle};
ghost use Rattle.rehearse.specs.Playing.{Shows, ShowsWorkers, AreReady, IsMachineReady, Did, Played};
ghost use Rattle.rehearse.specs.Advancing.{HasActor, Advanced};
ghost use Rattle.rehearse.specs.declared.listing.Listing.{Listing as Told};

use crate::defining::Definer;
use crate::event::Event;
use crate::head::Actor;
use crate::listing::Listing;
use crate::objects::Objects;
use crate::scheduler::Scheduler;
use crate::setting::Setting;
use crate::worker::Worker;
use cmd_table::Steps;
use natives::Natives;
use outside::PageShelf;
use std::alloc::Global;
use std::mem;
use std::sync::ledger::Ledger;
use txt_core::{LAST_MOMENT, MOST_WORKERS, NoMemory, Text};

/// The machine.
#[derive(Drop)]
pub struct Machine {
    alloc: Global,
    /// Whether an event came.
    started: bool,
    setting: Setting,
    objects: Objects,
    definer: Definer,
    scheduler: Scheduler,
    /// By their numbers, from 0.
    workers: Vec<Worker>,
}

/// So many workers without connections, whose numbers count from 0.
fn idle_workers(alloc: Global, count: u64) -> Result<Vec<Worker>, NoMemory>
    ensures shows { (names : Names)
        → IfOk result (λ made. ShowsWorkers names 0 made.items (all_idle count)) }
    ensures ready { (names : Names) (now : State) → now.natives ≡ names
        → IfOk result (λ made. AreReady names now made.items) }
{
    let mut made = Vec::new(alloc);
    for number in 0..count {
        made.push(Worker::new(alloc, number))?;
    }
    Ok(made)
}

impl Machine {
    /// The machine before the first event.
    pub fn new(alloc: Global, natives: &Natives) -> Result<Machine, NoMemory>
        ensures shows { let names = names_of natives.now in
            IfOk result (λ machine. Shows names machine (opening names)) }
        ensures ready { IfOk result (λ machine. IsMachineReady (names_of natives.now) machine) }
    {
        let objects = Objects::new(alloc, natives)?;
        let workers = idle_workers(alloc, 1)?;
        Ok(Machine {
            alloc,
            started: false,
            setting: Setting {
                moment: 0,
                pages: PageShelf::new(alloc),
            },
            objects,
            definer: Definer::new(alloc),
            scheduler: Scheduler::new(alloc),
            workers,
        })
    }

    /// Turns to these workers, and lets go of those before.
    fn turn_to(&mut self, workers: Vec<Worker>)
        ensures { self.new ≡ record self.old { workers = workers } }
    {
        drop(mem::replace(&mut self.workers, workers));
    }

    /// Makes so many workers, where no event came yet and the number is from 1 to 16.
    fn set_workers(&mut self, count: u64) -> Result<bool, NoMemory>
        ensures did { (names : Names) (listing : Told)
            → IfOk result (λ came.
            Did names came (workers count) self.old listing self.new listing) }
        ensures ready { (names : Names) → IsMachineReady names self.old
            → OnOk result (IsMachineReady names self.new) }
    {
        if self.started || count == 0 || count > MOST_WORKERS as u64 {
            return Ok(false);
        }
        let workers = idle_workers(self.alloc, count)?;
        self.turn_to(workers);
        Ok(true)
    }

    /// Sets the clock, where it can show the moment.
    fn set_clock(&mut self, moment: u64) -> bool
        ensures did { (names : Names) (listing : Told)
            → Did names result (clock moment) self.old listing self.new listing }
        ensures ready { (names : Names) → IsMachineReady names self.old
            → IsMachineReady names self.new }
    {
        if moment > LAST_MOMENT {
            return false;
        }
        self.setting.moment = moment;
        true
    }

    /// Sets the page of a path.
    fn set_page(&mut self, path: &[u8], page: &[u8]) -> Result<bool, NoMemory>
        requires { IsShort (spelled_page path.now page.now) }
        ensures did { (names : Names) (listing : Told)
            → IfOk result (λ came.
            Did names came (spelled_page path.now page.now) self.old listing self.new listing) }
        ensures ready { (names : Names) → IsMachineReady names self.old
            → OnOk result (IsMachineReady names self.new) }
    {
        let path = Text::new(self.alloc, path)?;
        let page = Text::new(self.alloc, page)?;
        self.setting.pages.set(path, page)?;
        Ok(true)
    }

    /// Runs a block as a start script.
    fn define<L: Ledger>(
        &mut self,
        natives: &Natives,
        block: &[u8],
        listing: &mut Listing,
        steps: &mut Steps<L>,
    ) -> Result<bool, NoMemory>
        requires short { length block.now ≤ most_block }
        requires ready { IsMachineReady (names_of natives.now) self.old }
        ensures did { IfOk result (λ came.
            Did (names_of natives.now) came (define block.now) self.old listing.old self.new
            listing.new) }
        ensures ready { OnOk result (IsMachineReady (names_of natives.now) self.new) }
    {
        let block = Text::new(self.alloc, block)?;
        let setting = &self.setting;
        let objects = &mut self.objects;
        self.definer
            .define(natives, setting, objects, &block, listing, steps)?;
        Ok(true)
    }

    /// Gives a worker a connection, where there is a worker of this number and it is idle.
    fn connect(&mut self, number: u64, input: &[u8]) -> Result<bool, NoMemory>
        requires { length input.now ≤ most_input }
        ensures did { (names : Names) (listing : Told)
            → IfOk result (λ came.
            Did names came (connect number input.now) self.old listing self.new listing) }
        ensures ready { (names : Names) → IsMachineReady names self.old
            → OnOk result (IsMachineReady names self.new) }
    {
        if number >= self.workers.len() as u64 {
            return Ok(false);
        }
        let place = number as usize;
        if !self.workers[place].is_idle() {
            return Ok(false);
        }
        let input = Text::new(self.alloc, input)?;
        self.workers[place].connect(input);
        Ok(true)
    }

    /// Whether there is an actor of this name.
    fn has(&self, actor: Actor) -> bool
        ensures { IsTrue result ↔ HasActor self.now (actor_of actor) }
    {
        match actor {
            Actor::Scheduler => true,
            Actor::Worker(number) => number < self.workers.len() as u64,
        }
    }

    /// Lets an actor take one step, and tells whether it is idle behind it.
    fn advance<L: Ledger>(
        &mut self,
        natives: &Natives,
        actor: Actor,
        listing: &mut Listing,
        steps: &mut Steps<L>,
    ) -> Result<bool, NoMemory>
        requires ready { IsMachineReady (names_of natives.now) self.old }
        requires there { HasActor self.old (actor_of actor) }
        ensures { IfOk result (λ idle.
            Advanced (names_of natives.now) (actor_of actor) idle self.old listing.old self.new
            listing.new) }
    {
        let setting = &self.setting;
        let objects = &mut self.objects;
        match actor {
            Actor::Scheduler => {
                self.scheduler
                    .step(natives, setting, objects, listing, steps)?;
                Ok(self.scheduler.is_idle())
            }
            Actor::Worker(number) => {
                let worker = &mut self.workers[number as usize];
                worker.step(natives, setting, objects, listing, steps)?;
                Ok(worker.is_idle())
            }
        }
    }

    /// Lets an actor take one step, where there is one of this name.
    fn step<L: Ledger>(
        &mut self,
        natives: &Natives,
        actor: Actor,
        listing: &mut Listing,
        steps: &mut Steps<L>,
    ) -> Result<bool, NoMemory>
        requires ready { IsMachineReady (names_of natives.now) self.old }
        ensures did { IfOk result (λ came.
            Did (names_of natives.now) came (step (actor_of actor)) self.old listing.old self.new
            listing.new) }
        ensures ready { OnOk result (IsMachineReady (names_of natives.now) self.new) }
    {
        if !self.has(actor) {
            return Ok(false);
        }
        self.advance(natives, actor, listing, steps)?;
        Ok(true)
    }

    /// Lets an actor take steps, at least one, until it is idle, where there is one of this name.
    fn run<L: Ledger>(
        &mut self,
        natives: &Natives,
        actor: Actor,
        listing: &mut Listing,
        steps: &mut Steps<L>,
    ) -> Result<bool, NoMemory>
        requires ready { IsMachineReady (names_of natives.now) self.old }
        ensures did { IfOk result (λ came.
            Did (names_of natives.now) came (run (actor_of actor)) self.old listing.old self.new
            listing.new) }
        ensures ready { OnOk result (IsMachineReady (names_of natives.now) self.new) }
    {
        if !self.has(actor) {
            return Ok(false);
        }
        let mut idle = self.advance(natives, actor, listing, steps)?;
        'steps: while !idle {
            idle = self.advance(natives, actor, listing, steps)?;
        }
        Ok(true)
    }

    /// Does what an event says, where it may come, and tells whether it may.
    fn act<L: Ledger>(
        &mut self,
        natives: &Natives,
        event: Event<'_>,
        listing: &mut Listing,
        steps: &mut Steps<L>,
    ) -> Result<bool, NoMemory>
        requires short { IsShort (event_of event) }
        requires ready { IsMachineReady (names_of natives.now) self.old }
        ensures did { IfOk result (λ came.
            Did (names_of natives.now) came (event_of event.entry) self.old listing.old self.new
            listing.new) }
        ensures ready { OnOk result (IsMachineReady (names_of natives.now) self.new) }
    {
        match event {
            Event::Workers(count) => self.set_workers(count),
            Event::Clock(moment) => Ok(self.set_clock(moment)),
            Event::Page(path, page) => self.set_page(path, page),
            Event::Define(block) => self.define(natives, block, listing, steps),
            Event::Connect(number, input) => self.connect(number, input),
            Event::Step(actor) => self.step(natives, actor, listing, steps),
            Event::Run(actor) => self.run(natives, actor, listing, steps),
        }
    }

    /// Plays an event that may come, and tells whether it may.
    pub fn play<L: Ledger>(
        &mut self,
        natives: &Natives,
        event: Event<'_>,
        listing: &mut Listing,
        steps: &mut Steps<L>,
    ) -> Result<bool, NoMemory>
        requires short { IsShort (event_of event) }
        requires ready { IsMachineReady (names_of natives.now) self.old }
        ensures played { IfOk result (λ came.
            Played (names_of natives.now) came (event_of event.entry) self.old listing.old self.new
            listing.new) }
        ensures ready { OnOk result (IsMachineReady (names_of natives.now) self.new) }
    {
        let came = self.act(natives, event, listing, steps)?;
        if !came {
            return Ok(false);
        }
        self.started = true;
        Ok(true)
    }
}
