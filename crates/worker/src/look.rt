//! Looks at the blueprint, and interpreters that are made to be of it.

ghost use Rattle.std.specs.Prelude.{◌≡◌, ◌≢◌, ◌≤◌, ◌+◌, ◌*◌, OnErr, OnOk, IfOk};
ghost use Rattle.natives.specs.Names.{names_of};
ghost use Rattle.blueprint.specs.States.{State};
ghost use Rattle.shared_state.specs.Cells.{AreOf};
ghost use Rattle.worker.specs.Clean.{standing_of};
ghost use Rattle.worker.specs.Cost.{renewal};
ghost use Rattle.worker.specs.Renewing.{TellsLook, IsRenewedBy, IsOf, IsLeft, known_epoch, look_in, place_told, epoch_told};

use crate::worker::Worker;
use blueprint::{
    BlueCall, BlueReply, Look, equal_epochs_are_one_state, since_applies, since_is_added,
};
use cmd_table::{Steps, tables_are_maps};
use ictl::{BoxedInterp, fresh_globals};
use natives::Natives;
use shared_state::{Passes, Shared};
use std::alloc::Global;
use std::sync::Wait;
use std::sync::ledger::Ledger;
use turn_cell::Turned;
use txt_core::NoMemory;

/// The epoch that is named where no interpreter can be used again: all definitions are told of a
/// blueprint of any earlier epoch. A blueprint of this epoch itself, the last one that there is, is told
/// as the same, and no interpreter can be made of that.
const NO_EPOCH: u64 = u64::MAX;

/// What a look found.
#[derive(Drop)]
pub(crate) struct Looked {
    /// Its place in the history of the blueprint; 0 where memory wanted.
    pub turn: u64,
    /// The epoch of the blueprint; 0 where memory wanted.
    pub epoch: u64,
    /// What is new to the worker's interpreter.
    pub look: Look,
}

/// The epoch of the interpreter, where it can be used again.
fn known_epoch(worker: &Worker) -> u64
    ensures { result ≡ known_epoch (standing_of worker.now) }
{
    match &worker.interp {
        Some(interp) if !interp.marked() => interp.epoch(),
        _ => NO_EPOCH,
    }
}

/// The epoch that a look tells to one that named this epoch.
fn epoch_told(known: u64, look: &Look) -> u64
    ensures { result ≡ epoch_told known look.now }
{
    match look {
        Look::Same => known,
        Look::Since { epoch, .. } | Look::Whole { epoch, .. } => *epoch,
        Look::NoMemory => 0,
    }
}

/// The place of a look that was answered.
fn place_told(place: u64, look: &Look) -> u64
    ensures { result ≡ place_told place look.now }
{
    if matches!(look, Look::NoMemory) {
        return 0;
    }
    place
}

/// What the blueprint replied to a look. It replies with nothing else to one.
fn look_in(reply: BlueReply) -> Look
    ensures { result ≡ look_in reply }
{
    match reply {
        BlueReply::Look(look) => look,
        BlueReply::Published(_) => Look::NoMemory,
    }
}

/// Takes one turn on the blueprint, a look.
pub(crate) fn look<R: Wait>(rt: &R, shared: &Shared, passes: &mut Passes, worker: &Worker) -> Looked
    requires { AreOf shared.now passes.old }
    ensures cells { AreOf shared.now passes.new }
    ensures looks { TellsLook passes.old result.turn (known_epoch (standing_of worker.now))
        result.look passes.new }
    ensures epoch { result.epoch ≡ epoch_told (known_epoch (standing_of worker.now)) result.look }
{
    let known = known_epoch(worker);
    let call = BlueCall::Look(known);
    let Turned { place, reply } = shared.blueprint.turn(rt, &mut passes.blueprint, call);
    let look = look_in(reply);
    Looked {
        turn: place_told(place, &look),
        epoch: epoch_told(known, &look),
        look,
    }
}

/// Takes the worker's interpreter, and gives one of the blueprint that a look found, made of it by
/// `BoxedInterp::renew`. Its error is that of a renewal; the worker has no interpreter then, or the one that
/// it had, where the look was refused. Nothing is told of the last epoch that there is.
pub(crate) fn renew<L: Ledger>(
    alloc: Global,
    natives: &Natives,
    worker: &mut Worker,
    look: Look,
    steps: &mut Steps<L>,
) -> Result<BoxedInterp, NoMemory>
    requires { (state : State) × IsRenewedBy (names_of natives.now) worker.old.interp state look }
    ensures of { (state : State) → IsRenewedBy (names_of natives.now) worker.old.interp state look
        → IfOk result (λ interp. IsOf (names_of natives.now) state interp) }
    ensures steps { (state : State)
        → IsRenewedBy (names_of natives.now) worker.old.interp state look
        → OnOk result
        (steps.new ≤ steps.old + renewal (names_of natives.now) (standing_of worker.old) state) }
    ensures most { (state : State)
        → IsRenewedBy (names_of natives.now) worker.old.interp state look
        → steps.new ≤ steps.old
        + 2 * renewal (names_of natives.now) (standing_of worker.old) state }
    ensures number { worker.new.number ≡ worker.old.number }
    ensures err { OnErr result (IsLeft look worker.old.interp worker.new.interp) }
    ensures refused { OnErr result (look ≡ Look.NoMemory → steps.new ≡ steps.old) }
    ensures told { OnOk result (look ≢ Look.NoMemory) }
{
    // What is known of tables of commands and of blueprints.
    tables_are_maps();
    fresh_globals();
    equal_epochs_are_one_state();
    since_is_added();
    since_applies();
    match look {
        Look::NoMemory => Err(NoMemory),
        look => BoxedInterp::renew(alloc, natives, worker.interp.take(), look, steps),
    }
}
