//! Laws of interpreters.

ghost use Rattle.ictl.specs.Laws.{WritingGivesTheResponse, KeepsAreGlobals, DefinitionsWrite, EndsAreEnds, OneResponse, QuestionsAreAsked, RunsFollowTheStages};

/// Where an interpreter stands at a response, it gives this response, whatever is given, and all
/// answers are left.
pub fn responses_are_given()
    ensures { WritingGivesTheResponse }
{}

/// A fresh state has the global variables that its definitions make; and definitions that apply one after
/// the other write what each writes by itself.
pub fn fresh_globals()
    ensures globals { KeepsAreGlobals }
    ensures writes { DefinitionsWrite }
{}

/// Where a run has ended, its outcome is an end: neither a question nor want of memory.
pub fn ends_are_ends()
    ensures { EndsAreEnds }
{}

/// No response is written behind the response, in a scheduled script or in a definition run.
pub fn one_response()
    ensures { OneResponse }
{}

/// Where an interpreter stands at a question, it asks this question while it has no answer.
pub fn questions_are_asked()
    ensures { QuestionsAreAsked }
{}

/// The runs go through their stages in the order of the stages.
pub fn runs_follow_the_stages()
    ensures { RunsFollowTheStages }
{}
