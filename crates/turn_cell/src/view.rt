//! What a cell holds, and what a pass knows.
use std::collections::LinkedList;

/// One turn, as the history of an object has it. No value of it is made: it exists in contracts
/// alone.
pub struct Entry<S, C, R> {
    /// How many turns of this object came before it.
    pub place: u64,
    /// The state that the turn found.
    pub before: S,
    /// What was asked.
    pub call: C,
    /// What was answered.
    pub reply: R,
    /// The state that the turn left.
    pub after: S,
}

/// What a pass knows of a cell. No value of it is made: a pass has no bytes, and a contract sees it
/// as one of these.
pub struct View<S, C, R> {
    /// Its share, of 65,536 units in all. A pass that another took in has none.
    pub units: u64,
    /// It knows of this many turns, from the first on, that they are done.
    pub seen: u64,
    /// The state in which the object was put into the cell.
    pub opening: S,
    /// The object's state when `seen` turns had been done.
    pub low: S,
    /// The turns that it took, and those of the passes that it took in, in order of place.
    pub own: LinkedList<Entry<S, C, R>>,
    /// The number of turns so far and the object, while this pass has taken it out of the cell.
    /// Between two calls no pass has it.
    pub held: Option<(u64, S)>,
}

/// What the queue of a cell holds: the object, and how many turns it has had. The object stands on the
/// heap, so that a turn moves it neither out of the queue nor back.
#[derive(Drop)]
pub struct Kept<S> {
    pub count: u64,
    pub object: Box<S>,
}
