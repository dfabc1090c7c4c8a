//! Laws of command tables.

ghost use Rattle.cmd_table.specs.Laws.{PuttingSetsOneName, RemovingDropsOneName, CommandsAreInOrder, BuiltInsAreThere, FitsWhereApplies, MarkIsNow, BackKeepsMarks, KeepingGoesOn, PlacesAreInOrder, PlacesAreOfCommands, PlacesGoBack};

/// A table is a finite map: a change of a name changes what this name stands for, and no other; what
/// definitions make of the built-in names has each name once, in byte order; and they begin with the
/// built-in of each built-in name, those of the natives too, and with no other command.
pub fn tables_are_maps()
    ensures putting { PuttingSetsOneName }
    ensures removing { RemovingDropsOneName }
    ensures order { CommandsAreInOrder }
    ensures built { BuiltInsAreThere }
{}

/// Whether a definition applies has a truth value.
pub fn definitions_fit_where_they_apply()
    ensures { FitsWhereApplies }
{}

/// A table is that of its own mark; taken back to a mark, it has all marks up to this one as before; and
/// what each of several calls keeps, they keep together.
pub fn marks_stay()
    ensures now { MarkIsNow }
    ensures back { BackKeepsMarks }
    ensures goes_on { KeepingGoesOn }
{}

/// The names that have a place stand in byte order, each once: exactly those that have a command now, or
/// had one before a change that can still be taken back. Where all marks of a state were kept and it
/// is taken back to, it has the places that it had.
pub fn places_are_of_commands()
    ensures order { PlacesAreInOrder }
    ensures commands { PlacesAreOfCommands }
    ensures back { PlacesGoBack }
{}
