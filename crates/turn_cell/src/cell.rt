//! A cell, its passes, and the calls on them.
ghost use Rattle.std.specs.Prelude.{◌≡◌, ◌+◌, ◌≤◌, ◌<◌, None, Some, IsOk, IfOk, MatchOption};
ghost use Rattle.crossbeam_queue.specs.Passes.{view, IsPassOf, ruled_capacity};
ghost use Rattle.turn_cell.specs.Passes.{turn_of, with_turn};
ghost use Rattle.turn_cell.specs.Steps.{Takes};

use crate::object::Obj;
use crate::rule::{ByTurns, InOrder, Merge, OneUnit, Opening, Put, Said, Take};
use crate::view::{Kept, View};
use crossbeam_queue::RuledArrayQueue;
use crossbeam_utils::Backoff;
use crossbeam_utils::sync::EventCount;
use std::alloc::Global;
use std::marker::Brand;
use std::snapshot::Snapshot;
use std::sync::Wait;
use txt_core::NoMemory;

// A pass of the queue, which knows what a pass of the cell knows.
type Seat<O: Obj> = crossbeam_queue::Pass<Kept<O>, View<O, O::Call, O::Reply>>;

// The queue under the rule of the cell.
type Queue<O: Obj> = RuledArrayQueue<Kept<O>, View<O, O::Call, O::Reply>, ByTurns<O>>;

/// The leave of one thread to use a cell, and what that thread knows of the object. It has no bytes.
///
/// Contracts see it as a `View`, by `pass_view`: its share in units, how many turns it has seen, the
/// state then, and the turns that it took itself. Only calls that are given the pass change what it
/// knows. A pass that is dropped takes its share with it: the others go on as before, and no pass
/// has the whole share again, so that `close` is never allowed from then on.
#[derive(Drop)]
pub struct Pass<O: Obj> {
    seat: Seat<O>,
    // A pass that a caller has wasn't taken in by another one.
    ghost shares: { 0 < (view seat).units },
    // The object is out with a pass only inside a turn.
    ghost free: { (view seat).held ≡ None },
}

/// A cell with one object, which any number of threads use by turns.
///
/// It is shared by reference, and each thread has a pass of its own. A turn takes the object out of
/// a queue with room for one, makes one call on it and puts it back, so calls don't overlap. A thread
/// that finds the queue empty spins for a moment, yields a few times and then sleeps until another
/// thread has put the object back. Of all turns there is one legal history, from the state in which
/// the object was put in.
#[derive(Drop)]
pub struct TurnCell<O: Obj> {
    queue: Queue<O>,
    // Told of after each turn. It is a hint, on which no clause rests: a thread that wakes looks at the
    // queue again.
    free: EventCount,
    ghost one: { ruled_capacity queue ≡ 1 },
}

/// What a turn gives: its place in the history, counted from 0, and the object's reply.
#[derive(Drop)]
pub struct Turned<O: Obj> {
    pub place: u64,
    pub reply: O::Reply,
}

impl<O: Obj> TurnCell<O> {
    ghost use Rattle.turn_cell.specs.Cells.{IsOf, pass_view};
    ghost use Rattle.turn_cell.specs.History.{EndsIn};
    ghost use Rattle.txt_core.specs.Shares.{WHOLE};
    ghost use Rattle.turn_cell.specs.Passes.{fresh, joined, less_one, part_of};
    ghost use Rattle.turn_cell.specs.Steps.{IsInOrder, Turns};

    /// A cell with this object, and its first pass, which has the whole share of 65,536 units and
    /// has seen no turn. The one refusal is want of memory; the object is dropped then.
    pub fn new(alloc: Global, opening: O) -> Result<(TurnCell<O>, Pass<O>), NoMemory>
        ensures { IfOk result (λ r.
            IsOf r.0 r.1 × (pass_view r.1 ≡ fresh WHOLE 0 opening opening)) }
    {
        opening.shown();
        let (queue, mut seat) = Queue::<O>::ruled(alloc, 1)?;
        let first = Kept {
            count: 0,
            object: Box::new(alloc, opening)?,
        };
        match queue.try_push_as::<Opening<O>>(&mut seat, first) {
            Ok(()) => {
                let free = EventCount::new();
                Ok((TurnCell { queue, free }, Pass { seat }))
            }
            // A new queue that nobody shares has room and nobody in the way.
            Err(_) => Err(NoMemory),
        }
    }

    /// A new pass for another thread. One unit of the share moves to it; it has seen as much as the
    /// old one and has no own turn. It takes no memory and is never refused.
    ///
    /// The pass needs at least 2 units, so one that was split off isn't split again until it has
    /// taken in another.
    pub fn part(&self, pass: &mut Pass<O>) -> Pass<O>
        requires cell { IsOf self.now pass.old }
        requires units { 2 ≤ (pass_view pass.old).units }
        ensures cell { IsOf self.now pass.new × IsOf self.now result }
        ensures left { pass_view pass.new ≡ less_one (pass_view pass.old) }
        ensures right { pass_view result ≡ part_of (pass_view pass.old) }
    {
        let seat = self.queue.another::<OneUnit<O>>(&mut pass.seat);
        Pass { seat }
    }

    /// The same as a result, which is never an error.
    pub fn split(&self, pass: &mut Pass<O>) -> Result<Pass<O>, NoMemory>
        requires cell { IsOf self.now pass.old }
        requires units { 2 ≤ (pass_view pass.old).units }
        ensures given { IsOk result }
        ensures cell { IsOf self.now pass.new }
        ensures left { pass_view pass.new ≡ less_one (pass_view pass.old) }
        ensures right { IfOk result (λ p.
            IsOf self.now p × (pass_view p ≡ part_of (pass_view pass.old))) }
    {
        Ok(self.part(pass))
    }

    /// The pass takes in another one, with its units and its turns: from then on its own entries
    /// are those of both in order of place, and it has seen as much as the one that had seen more.
    /// Where two of the entries have the places k and k + 1, the second turn found what the first
    /// left. It takes no memory and can't be refused.
    pub fn join(&self, pass: &mut Pass<O>, other: Pass<O>)
        requires cell { IsOf self.now pass.old × IsOf self.now other }
        ensures cell { IsOf self.now pass.new }
        ensures both { pass_view pass.new ≡ joined (pass_view pass.old) (pass_view other) }
        ensures order { IsInOrder (pass_view pass.new) }
    {
        let Pass { seat } = other;
        self.queue.absorb::<Merge<O>>(&mut pass.seat, seat);
        self.queue.learn_as::<InOrder<O>>(&mut pass.seat);
    }

    /// One call on the object, alone with it. The pass has one own entry more, with this call and
    /// this reply, at a place that is at least the `seen` before. Its entry is a step of the object,
    /// and the state that it found is one that `low` and each earlier own entry's after reach. With
    /// the whole share that state is the last own entry's after, or the opening.
    ///
    /// It has no refusal: at its push the queue is empty. Want of memory of the object is a reply of
    /// the object. It may wait, while other threads have the object, and nothing is said of how long
    /// or in which order; after 2^64 - 1 turns of one cell it waits for ever. It takes no memory
    /// but what the object takes.
    pub fn turn<R: Wait>(&self, rt: &R, pass: &mut Pass<O>, call: O::Call) -> Turned<O>
        requires { IsOf self.now pass.old }
        ensures cell { IsOf self.now pass.new }
        ensures turn { Turns O.allowed O.reaches O.step (pass_view pass.old) result.place call
            result.reply (pass_view pass.new) }
    {
        let Kept { count, mut object } = take::<O, R>(rt, &self.queue, &self.free, &mut pass.seat);
        let before = Snapshot::of(object.as_ref());
        let said = Snapshot::of(&call);
        let reply = object.act(call);
        put::<O, Brand, R>(
            rt,
            &self.queue,
            &mut pass.seat,
            count,
            before,
            said,
            &reply,
            object,
        );
        self.free.notify_one();
        Turned {
            place: count,
            reply,
        }
    }

    /// The object, at the end of its history. The pass has the whole share, so all others were
    /// joined and none was dropped. Its own entries are the whole history from the opening: the
    /// places from 0 on, each once. It takes no memory.
    pub fn close<R: Wait>(self, rt: &R, pass: Pass<O>) -> O
        requires cell { IsOf self pass }
        requires whole { (pass_view pass).units ≡ WHOLE }
        ensures history { EndsIn O.allowed O.step (pass_view pass) result }
        ensures allowed { O.allowed result }
    {
        let Pass { mut seat } = pass;
        match self.queue.pop_as::<Take<O>, R>(rt, &mut seat) {
            Some(Kept { count: _, object }) => Box::into_inner(object),
            None => unreachable!(),
        }
    }
}

// One more. Where there is no such number it waits for ever.
fn one_more<R: Wait>(rt: &R, count: u64) -> u64
    ensures { result ≡ count + 1 }
{
    if count < u64::MAX {
        return count + 1;
    }
    for _ in rt.forever() {}
    unreachable!()
}

// Takes the object, which is mostly in the queue.
fn take<O: Obj, R: Wait>(rt: &R, queue: &Queue<O>, free: &EventCount, seat: &mut Seat<O>) -> Kept<O>
    requires queue { IsPassOf queue.now seat.old }
    requires free { (0 < (view seat.old).units) × ((view seat.old).held ≡ None) }
    ensures queue { IsPassOf queue.now seat.new }
    ensures took { Takes O.allowed O.reaches O.step (view seat.old) result (view seat.new) }
{
    match try_take::<O, R>(rt, queue, seat) {
        Some(kept) => kept,
        None => wait_and_take::<O, R>(rt, queue, free, seat),
    }
}

// Takes the object as soon as it finds it in the queue. Where it isn't there for long it sleeps until a
// turn ends; since it looks once more after it has announced its sleep, it misses no end of a turn.
#[cold]
#[inline(never)]
fn wait_and_take<O: Obj, R: Wait>(
    rt: &R,
    queue: &Queue<O>,
    free: &EventCount,
    seat: &mut Seat<O>,
) -> Kept<O>
    requires queue { IsPassOf queue.now seat.old }
    requires free { (0 < (view seat.old).units) × ((view seat.old).held ≡ None) }
    ensures queue { IsPassOf queue.now seat.new }
    ensures took { Takes O.allowed O.reaches O.step (view seat.old) result (view seat.new) }
{
    let backoff = Backoff::new();
    for _ in rt.forever() {
        if let Some(kept) = try_take::<O, R>(rt, queue, seat) {
            return kept;
        }
        if backoff.is_completed() {
            let sleep = free.prepare_wait();
            if let Some(kept) = try_take::<O, R>(rt, queue, seat) {
                return kept;
            }
            sleep.wait(rt);
        } else {
            backoff.snooze();
        }
    }
    unreachable!()
}

// Takes the object where it is in the queue.
fn try_take<O: Obj, R: Wait>(rt: &R, queue: &Queue<O>, seat: &mut Seat<O>) -> Option<Kept<O>>
    requires queue { IsPassOf queue.now seat.old }
    requires free { (0 < (view seat.old).units) × ((view seat.old).held ≡ None) }
    ensures queue { IsPassOf queue.now seat.new }
    ensures answer { MatchOption result (view seat.new ≡ view seat.old) (λ kept.
        Takes O.allowed O.reaches O.step (view seat.old) kept (view seat.new)) }
{
    queue.pop_as::<Take<O>, R>(rt, seat)
}

// Puts the object back after this call. There is room, since the pass has taken the object.
fn put<O: Obj, K: Said<O::Call, O::Reply>, R: Wait>(
    rt: &R,
    queue: &Queue<O>,
    seat: &mut Seat<O>,
    place: u64,
    before: Snapshot<O>,
    call: Snapshot<O::Call>,
    reply: &O::Reply,
    object: Box<O>,
)
    requires queue { IsPassOf queue.now seat.old × (ruled_capacity queue.now ≡ 1) }
    requires held { (0 < (view seat.old).units)
        × ((view seat.old).held ≡ Some (place, before.value)) }
    requires legal { O.step before.value call.value reply.now object.value × O.allowed object.value }
    requires said { K.said ≡ Some (call.value, reply.now) }
    ensures queue { IsPassOf queue.now seat.new }
    ensures back { view seat.new
        ≡ with_turn (view seat.old)
        (turn_of place before.value call.value reply.now object.value) }
{
    let kept = Kept {
        count: one_more(rt, place),
        object,
    };
    match queue.push_as::<Put<O, K>, R>(rt, seat, kept) {
        Ok(()) => {}
        Err(_) => unreachable!(),
    }
}
