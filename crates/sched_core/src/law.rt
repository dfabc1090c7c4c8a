//! What the definitions say by themselves.
ghost use Rattle.sched_core.specs.Steps.{StepsAreDetermined};

/// A call on a schedule has one reply and leaves one schedule, but for want of memory.
pub fn steps_are_determined()
    ensures { StepsAreDetermined }
{}
