//! Laws of the order of stages.

ghost use Rattle.stages.specs.Laws.{AsksInOrder, TraceFollowsWritten};

/// What is asked next stands behind what was asked, at a later stage or at a later place of the same
/// one; and trace filters and cleanup scripts are reached from a response that was written whole alone.
pub fn stages_follow_in_order()
    ensures order { AsksInOrder }
    ensures written { TraceFollowsWritten }
{}
