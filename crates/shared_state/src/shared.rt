//! The cells, their passes, and the calls on all of them.

ghost use Rattle.std.specs.Prelude.{◌≡◌, ◌≤◌, IfOk, IsOk};
ghost use Rattle.txt_core.specs.Names.{Names};
ghost use Rattle.turn_cell.specs.Cells.{IsOf, pass_view};
ghost use Rattle.nsv_shared.specs.Cells as arrays;
ghost use Rattle.natives.specs.Names.{names_of};
ghost use Rattle.blueprint.specs.States.{fresh as blueprint_of};
ghost use Rattle.txt_core.specs.Shares.{WHOLE};
ghost use Rattle.turn_cell.specs.Passes.{fresh};
ghost use Rattle.shared_state.specs.Views.{empty_schedule};

use blueprint::Blueprint;
use natives::Natives;
use nsv_bucket::Buckets;
use nsv_shared::{Nsv, NsvPass};
use sched_core::Schedule;
use std::alloc::Global;
use std::sync::Wait;
use turn_cell::{Pass, TurnCell};
use txt_core::NoMemory;

/// The cells that all threads share: each is used by turns, and turns on different cells don't wait for
/// each other.
///
/// It is shared by reference, and each thread has passes of its own.
#[derive(Drop)]
pub struct Shared {
    pub blueprint: TurnCell<Blueprint>,
    pub nsv: Nsv,
    pub schedule: TurnCell<Schedule>,
}

/// The leave of one thread to use the cells, and what that thread knows of each: a pass for each cell.
/// It has no bytes.
#[derive(Drop)]
pub struct Passes {
    pub blueprint: Pass<Blueprint>,
    pub nsv: NsvPass,
    pub schedule: Pass<Schedule>,
}

/// The objects, at the end of their histories.
#[derive(Drop)]
pub struct Finals {
    pub blueprint: Blueprint,
    pub buckets: Buckets,
    pub schedule: Schedule,
}

/// The cell of a blueprint on natives, and its first pass.
fn blueprint_cell(
    alloc: Global,
    natives: &Natives,
) -> Result<(TurnCell<Blueprint>, Pass<Blueprint>), NoMemory>
    ensures { IfOk result (λ r.
        IsOf r.0 r.1
        × (pass_view r.1
        ≡ fresh WHOLE 0 (blueprint_of (names_of natives.now))
        (blueprint_of (names_of natives.now)))) }
{
    TurnCell::new(alloc, Blueprint::new(alloc, natives)?)
}

/// The cell of a schedule without entries, and its first pass.
fn schedule_cell(alloc: Global) -> Result<(TurnCell<Schedule>, Pass<Schedule>), NoMemory>
    ensures { IfOk result (λ r.
        IsOf r.0 r.1 × (pass_view r.1 ≡ fresh WHOLE 0 empty_schedule empty_schedule)) }
{
    TurnCell::new(alloc, empty_schedule(alloc))
}

/// A schedule without entries.
#[tactic(auto, using(crate::proofs::Opening::is_no_schedule))]
fn empty_schedule(alloc: Global) -> Schedule
    ensures { result ≡ empty_schedule }
{
    Schedule::new(alloc)
}

/// Passes more of the shared arrays.
fn array_parts(nsv: &Nsv, pass: &mut NsvPass) -> NsvPass
    requires cells { arrays.AreOf nsv.now pass.old }
    requires units { arrays.HaveUnits 2 pass.old }
    ensures cells { arrays.AreOf nsv.now pass.new × arrays.AreOf nsv.now result }
    ensures left { arrays.Leave pass.old pass.new }
    ensures right { arrays.ArePartsOf pass.old result }
{
    match nsv.split(pass) {
        Ok(parts) => parts,
        Err(_) => unreachable!(),
    }
}

impl Shared {
    ghost use Rattle.shared_state.specs.Cells.{AreOf, KnowNames, Serve, HaveUnits, AreWhole, AreOpening, Leave, ArePartsOf, Join, AreInOrder, Close};

    /// The cells of a new server, and their first passes, each of which has the whole share of 65,536
    /// units and has seen no turn: nothing was published on these natives, no array is there, and
    /// nothing is scheduled. The only error is want of memory.
    ///
    /// Natives of the same names, in whatever order, are what calls on these cells ask for later.
    #[tactic(auto, using(crate::proofs::Naming::new_knows))]
    pub fn new(alloc: Global, natives: &Natives) -> Result<(Shared, Passes), NoMemory>
        ensures cells { IfOk result (λ r. Serve (names_of natives.now) r.0 r.1) }
        ensures opening { IfOk result (λ r. AreOpening (names_of natives.now) r.1) }
    {
        let (blueprint, blueprint_pass) = blueprint_cell(alloc, natives)?;
        let (nsv, nsv_pass) = Nsv::new(alloc)?;
        let (schedule, schedule_pass) = schedule_cell(alloc)?;
        let passes = Passes {
            blueprint: blueprint_pass,
            nsv: nsv_pass,
            schedule: schedule_pass,
        };
        let shared = Shared {
            blueprint,
            nsv,
            schedule,
        };
        Ok((shared, passes))
    }

    /// Passes for another thread: of each cell one unit of the share moves to the new pass, which has
    /// seen as much as the old one and has no own turn. It takes no memory and is never refused, so
    /// there is nothing to be joined back.
    ///
    /// Each pass needs at least 2 units, so passes that were split off aren't split again until they
    /// have taken in others.
    #[tactic(auto, using(crate::proofs::Naming::old_knows, crate::proofs::Naming::part_knows))]
    pub fn split(&self, passes: &mut Passes) -> Result<Passes, NoMemory>
        requires cells { AreOf self.now passes.old }
        requires units { HaveUnits 2 passes.old }
        ensures given { IsOk result }
        ensures cells { AreOf self.now passes.new }
        ensures left { Leave passes.old passes.new }
        ensures right { IfOk result (λ parts. AreOf self.now parts × ArePartsOf passes.old parts) }
        ensures names { (names : Names) → KnowNames names passes.old
            → KnowNames names passes.new × IfOk result (KnowNames names) }
    {
        Ok(Passes {
            blueprint: self.blueprint.part(&mut passes.blueprint),
            nsv: array_parts(&self.nsv, &mut passes.nsv),
            schedule: self.schedule.part(&mut passes.schedule),
        })
    }

    /// Each pass takes in the other one of its cell, with its units and its turns, as a pass of one
    /// cell does. It takes no memory and can't be refused.
    #[tactic(auto, using(crate::proofs::Naming::joined_knows))]
    pub fn join(&self, passes: &mut Passes, other: Passes)
        requires cells { AreOf self.now passes.old × AreOf self.now other }
        ensures cells { AreOf self.now passes.new }
        ensures both { Join passes.old other passes.new }
        ensures order { AreInOrder passes.new }
        ensures names { (names : Names) → KnowNames names passes.old
            → KnowNames names other → KnowNames names passes.new }
    {
        let Passes {
            blueprint,
            nsv,
            schedule,
        } = other;
        self.blueprint.join(&mut passes.blueprint, blueprint);
        self.nsv.join(&mut passes.nsv, nsv);
        self.schedule.join(&mut passes.schedule, schedule);
    }

    /// The objects, at the end of their histories. Each pass has the whole share of its cell, so all
    /// others were joined and none was dropped, and its own turns are the whole history. It takes no
    /// memory.
    pub fn close<R: Wait>(self, rt: &R, passes: Passes) -> Finals
        requires cells { AreOf self passes }
        requires whole { AreWhole passes }
        ensures { Close passes result.blueprint result.buckets result.schedule }
    {
        Finals {
            blueprint: self.blueprint.close(rt, passes.blueprint),
            buckets: self.nsv.close(rt, passes.nsv),
            schedule: self.schedule.close(rt, passes.schedule),
        }
    }
}
