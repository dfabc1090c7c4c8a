//! Laws of what contracts of cells say. Each function does nothing: its contract is the law, for a
//! reader who asks what the definitions mean, and for the proofs of the layers above.
ghost use Rattle.turn_cell.specs.declared.view.Entry.{Entry};
ghost use Rattle.turn_cell.specs.Chains.{ChainsFollow, ChainsInARow, ChainsLeave, ChainsRise, SingleTurns};
ghost use Rattle.turn_cell.specs.Joins.{JoinedSees, MergedHas, MergedIsPermutation, MergedRises, RisingIsOne};
ghost use Rattle.txt_core.specs.Members.{AppendHas, HasIsContains};
ghost use Rattle.turn_cell.specs.Members.{AppendLeft, LeftIsAfter};
ghost use Rattle.turn_cell.specs.Points.{RuleSays};

use crate::object::Obj;

/// Between any two atomic steps of a cell, all passes that were ever made stand together: the
/// points of `Points` hold of them, and the object is in the queue or with one pass.
///
/// The queue keeps its rule at every such moment, whatever the threads do; this law reads the
/// points off the rule.
pub fn rule_says<O: Obj>()
    ensures { RuleSays O.allowed O.reaches O.step }
{}

/// Several turns of one pass in a row: `TakesTurns`.
///
/// A turn is a chain of one entry and a chain of one entry is a turn; two chains in a row are one,
/// and one may be cut anywhere. After a chain the own entries are the earlier ones and then the
/// chain's, `seen` is the last place + 1 and `low` the last after. Each entry of it is legal, lies at
/// a place that is at least the `seen` before, and was found in a state that is no older than the
/// `low` and any own after before; and its places rise.
pub fn chain_laws<O: Obj>()
    ensures single { SingleTurns O.allowed O.reaches O.step }
    ensures in_a_row { ChainsInARow O.allowed O.reaches O.step }
    ensures leave { ChainsLeave O.allowed O.reaches O.step }
    ensures follow { ChainsFollow O.allowed O.reaches O.step }
    ensures rise { ChainsRise O.allowed O.reaches O.step }
{}

/// What `joined` means: the entries are those of both passes, each as often, and in order of place
/// where both were and share no place; there is only one such list. `seen` is the greater one, with
/// its `low`.
pub fn join_laws<O: Obj>()
    ensures permutation { MergedIsPermutation O O.Call O.Reply }
    ensures has { MergedHas O O.Call O.Reply }
    ensures rises { MergedRises O O.Call O.Reply }
    ensures one { RisingIsOne O O.Call O.Reply }
    ensures sees { JoinedSees O O.Call O.Reply }
{}

/// Which entries a list has, and which states they left.
pub fn entry_laws<O: Obj>()
    ensures contains { HasIsContains (Entry O O.Call O.Reply) }
    ensures append { AppendHas (Entry O O.Call O.Reply) }
    ensures left { LeftIsAfter O O.Call O.Reply }
    ensures append_left { AppendLeft O O.Call O.Reply }
{}
