//! Laws of what runs come to.

ghost use Rattle.tcl_eval.specs.Laws.{TurnsSuffice, QuestionsCost, QuestionsAreFew, MadeGrows, MadeGrowsOn, MadeByCommands, FrontsWriteLess, LanguageNamesHaveDoers};

use tcl_host::Host;

/// A loop has as many turns as the budget that is left when it begins, and their number never ends it
/// while budget is left: with more turns it comes to the same.
pub fn turns_suffice<H: Host>()
    ensures { TurnsSuffice H.table }
{}

/// A question costs: where a run asks, less of its budget is left than it had. What it ends with isn't
/// more.
pub fn questions_cost<H: Host>()
    ensures { QuestionsCost H.table }
{}

/// Where a command that asks again has a lower rank each time, what a run may still ask falls with each
/// answer that it is given. So its budget bounds how often it asks.
pub fn questions_are_few<H: Host>()
    ensures { QuestionsAreFew H.table }
{}

/// The definitions that a run made begin with those that were made before it, whatever it comes to.
pub fn made_grows<H: Host>()
    ensures { MadeGrows H.table }
{}

/// The same from where an engine stands at a question, whatever answers it is given.
pub fn made_grows_on<H: Host>()
    ensures { MadeGrowsOn H.table }
{}

/// Each definition that a run adds is one that a command makes: `proc`, `rename`, or one of the host's.
pub fn made_by_commands<H: Host>()
    ensures { MadeByCommands H.table }
{}

/// Definitions that stand in front of others write at most as many entries of the table.
pub fn fronts_write_less()
    ensures { FrontsWriteLess }
{}

/// Each name that stands for a command of the language in a new table of commands is that of a command
/// on variables or of a built-in that the engine does.
pub fn language_names_have_doers()
    ensures { LanguageNamesHaveDoers }
{}
