//! Laws of scripts, and of what a look tells one who saw an earlier state.

ghost use Rattle.blueprint.specs.Laws.{
  ScriptsAreRead,
  EqualEpochsAreOneState,
  EqualEpochsHaveEqualDefinitions,
  SameIsUnchanged,
  SinceIsAdded,
  SinceApplies,
  WholeIsAll,
  WholeIsBehindASave,
};

/// Definitions that their own commands make are those of their script.
pub fn scripts_are_read()
    ensures { ScriptsAreRead }
{}

/// Where a blueprint has the epoch that it had before, it is as it was, with the same definitions; and
/// this is what `Same` tells.
pub fn equal_epochs_are_one_state()
    ensures states { EqualEpochsAreOneState }
    ensures definitions { EqualEpochsHaveEqualDefinitions }
    ensures same { SameIsUnchanged }
{}

/// What `Since` tells to one who names the epoch of an earlier state: the epoch of now, and the
/// definitions that stand behind those of the earlier state now.
pub fn since_is_added()
    ensures { SinceIsAdded }
{}

/// The definitions that `Since` tells to one who names the epoch of an earlier state apply in order
/// behind those of that state.
pub fn since_applies()
    ensures { SinceApplies }
{}

/// What `Whole` tells: the epoch of now and all definitions of now, which apply in order from the
/// built-in names; and, to one who names the epoch of an earlier state, that a save came since then.
pub fn whole_is_all()
    ensures all { WholeIsAll }
    ensures saved { WholeIsBehindASave }
{}
