//! What a type needs to stand in a cell.

/// An object whose calls are steps of a machine: a call takes a state to a reply and a state.
///
/// The state is the value itself as contracts see it: the record of its fields, or the value that
/// its `Model` shows. An `impl` gives the ghost members and proves the laws; the code is `act`, and
/// `shown`, whose body is mostly empty. Everything that a cell promises is proved from these alone,
/// so it holds of every object.
pub trait Obj: Drop {
    /// What is asked of the object.
    type Call: Drop;

    /// What it answers. An object that takes memory has a reply of its own for the want of it.
    type Reply: Drop;

    /// The states that the type allows.
    ghost allowed: { Self → Type 0 };

    /// The first state may have become the second. What it says is what a thread that saw the
    /// first state knows when it finds the second.
    ghost reaches: { Self → Self → Type 0 };

    /// The call takes the first state to this reply and the second state.
    ghost step: { Self → Self.Call → Self.Reply → Self → Type 0 };

    /// Some state. It stands for a state where a pass knows none: in a new cell's first pass until
    /// the object is in, and in a pass that another took in. No promise speaks of it.
    ghost sample: { Self };

    /// Each value of the type is in a state that the type allows. A body that reads a field is
    /// enough where an invariant of the type says so, and an empty one where all states are allowed.
    fn shown(&self)
        ensures { allowed self.now };

    /// Answers the call, and leaves the object in the state after it. It returns, and waits for
    /// nobody.
    fn act(&mut self, call: Self::Call) -> Self::Reply
        ensures step { step self.old call result self.new }
        ensures allowed { allowed self.new };

    /// The sample is an allowed state.
    ghost sample_allowed: { allowed sample };

    /// Each state reaches itself.
    ghost reaches_self: { (s : Self) → reaches s s };

    /// What a later state reaches, an earlier one reaches.
    ghost reaches_later: { (s t u : Self) → reaches s t → reaches t u → reaches s u };

    /// A step from an allowed state reaches the state after it.
    ghost step_reaches: { (s : Self) (c : Self.Call) (r : Self.Reply) (t : Self)
        → allowed s → step s c r t → reaches s t };
}
