//! What an interpreter is at.

use crate::boxed_text::BoxedText;
use crate::defining::DefineRun;
use crate::ending::Ending;
use crate::next::Next;
use crate::running::Stop;

/// Which task is under way. One function says where each ends and what comes next. It is small, since
/// each step of a run puts the next one in its place.
#[derive(Drop)]
pub enum Task {
    /// Nothing was started: it is as newly made.
    New,
    /// A preauth filter runs, and the one at this place is the next.
    Preauth { next: usize },
    /// The authorisation runs.
    Authorise,
    /// A postauth filter runs, and the one at this place is the next.
    Postauth { next: usize },
    /// It stands at the question for the first page, and so much of the budget is left.
    PageAsked { path: BoxedText, budget: u64 },
    /// The procedure runs.
    Procedure,
    /// The first page runs.
    Page,
    /// A response is to be written.
    Writing { ending: Ending },
    /// A trace filter runs, and the one at this place is the next.
    Trace { next: usize, ending: Ending },
    /// A cleanup script runs, and the one at this place is the next.
    Cleanup { next: usize, ending: Ending },
    /// A scheduled script runs.
    Script,
    /// A script that makes definitions runs, or stands at the question whether to publish.
    Define(DefineRun),
    /// The run has ended.
    Over,
}

/// Whether a run goes on with a script.
#[derive(Drop)]
pub enum Move {
    /// A script runs, and stopped here.
    Goes(Stop),
    /// Something goes out.
    Stops(Next),
}
