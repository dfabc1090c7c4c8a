//! The rule of a cell, and what each kind of atomic step tells the pass that makes it.
//!
//! | kind of step | what changes | here |
//! |---|---|---|
//! | split a pass | one unit moves to a new pass, which has seen as much and has no own entry | `OneUnit` |
//! | join a pass | the one pass knows what both knew, the other is spent | `Merge` |
//! | a pop that takes | the queue is empty, and this pass has the object | `Take` |
//! | a pop that finds none | nothing | `Take` |
//! | a push | the queue has the object after one turn more, which is this pass's own | `Put` |
//!
//! The push of a new cell is `Opening`, and a look that tells a pass how its own entries stand is
//! `InOrder`. Each step is proved to keep the rule whatever the queue then holds and the other passes
//! then know.

use crate::object::Obj;
use crate::view::{Kept, View};
use crossbeam_queue::protocol::{Join, Lesson, Outcome, Protocol, Split};
use std::marker::{Brand, PhantomData};

/// The rule: the passes stand together, and the object is in the queue or with one pass.
pub struct ByTurns<O> {
    of: PhantomData<O>,
}

impl<O: Obj> Protocol<Kept<O>, View<O, O::Call, O::Reply>> for ByTurns<O> {
    ghost use Rattle.txt_core.specs.Shares.{WHOLE};
    ghost use Rattle.turn_cell.specs.Passes.{fresh, holding};
    ghost use Rattle.turn_cell.specs.Rule.{RuleHolds};

    ghost holds = { RuleHolds O.allowed O.step };

    // The first pass has the object, for which the sample stands until it is in the queue.
    ghost first = { holding (fresh WHOLE 0 O.sample O.sample) 0 O.sample };
}

/// The push of a new cell. The queue is empty then.
pub struct Opening<O> {
    of: PhantomData<O>,
}

impl<O: Obj> Outcome<Kept<O>, View<O, O::Call, O::Reply>> for Opening<O> {
    ghost use Rattle.turn_cell.specs.Steps.{Opens};

    ghost then = { Opens };
}

/// A pop. It takes the object, or finds the queue empty, which a pass with the whole share never
/// does.
pub struct Take<O> {
    of: PhantomData<O>,
}

impl<O: Obj> Outcome<Kept<O>, View<O, O::Call, O::Reply>> for Take<O> {
    ghost use Rattle.turn_cell.specs.Steps.{Takes};

    ghost then = { Takes O.allowed O.reaches O.step };
}

impl<O: Obj> Lesson<Kept<O>, View<O, O::Call, O::Reply>> for Take<O> {
    ghost use Rattle.std.specs.Prelude.{◌≡◌, length};
    ghost use Rattle.txt_core.specs.Shares.{WHOLE};

    ghost fact = { λ v items. v.units ≡ WHOLE → length items ≡ 1 };
}

/// Which call and reply a push tells of. The proof of each turn picks them.
pub trait Said<C, R> {
    ghost use Rattle.std.specs.Prelude.{Option};

    ghost said: { Option (C × R) };
}

impl<C, R> Said<C, R> for Brand {
    ghost use Rattle.std.specs.Prelude.{None};

    ghost said = { None };
}

/// A push after the turn's call. The queue is empty then, since this pass has the object.
pub struct Put<O, K> {
    of: PhantomData<(O, K)>,
}

impl<O: Obj, K: Said<O::Call, O::Reply>> Outcome<Kept<O>, View<O, O::Call, O::Reply>>
    for Put<O, K> {
    ghost use Rattle.turn_cell.specs.Steps.{Puts};

    ghost then = { Puts K.said };
}

impl<O: Obj, K: Said<O::Call, O::Reply>> Lesson<Kept<O>, View<O, O::Call, O::Reply>> for Put<O, K> {
    ghost use Rattle.std.specs.Prelude.{◌≡◌, []};

    ghost fact = { λ v items. items ≡ [] };
}

/// One unit goes to a new pass.
pub struct OneUnit<O> {
    of: PhantomData<O>,
}

impl<O: Obj> Split<View<O, O::Call, O::Reply>> for OneUnit<O> {
    ghost use Rattle.std.specs.Prelude.{◌-◌};
    ghost use Rattle.turn_cell.specs.Passes.{fresh};

    ghost left = { λ v. record v { units = v.units - 1 } };

    ghost right = { λ v. fresh 1 v.seen v.opening v.low };
}

/// Two passes become one.
pub struct Merge<O> {
    of: PhantomData<O>,
}

impl<O: Obj> Join<View<O, O::Call, O::Reply>> for Merge<O> {
    ghost use Rattle.turn_cell.specs.Passes.{fresh, joined};

    ghost both = { joined };

    ghost spent = { fresh 0 0 O.sample O.sample };
}

/// A look that tells a pass how its own entries stand.
pub struct InOrder<O> {
    of: PhantomData<O>,
}

impl<O: Obj> Lesson<Kept<O>, View<O, O::Call, O::Reply>> for InOrder<O> {
    ghost use Rattle.turn_cell.specs.Steps.{IsInOrder};

    ghost fact = { λ v items. IsInOrder v };
}
