//! The interpreter: it runs requests through all their stages, scheduled scripts and scripts that make
//! definitions, one after the other. It can stand at a question, and between two runs it is as newly
//! made.
#![tactic(auto)]

mod boxed;
mod boxed_text;
mod building;
mod defining;
mod ending;
mod inner;
mod interp;
mod law;
mod next;
mod renewing;
mod reply;
mod run;
mod running;
mod serving;
mod settling;
mod task;
mod tracing;
mod visit;

pub use boxed::BoxedInterp;
pub use law::{
    ends_are_ends, fresh_globals, one_response, questions_are_asked, responses_are_given,
    runs_follow_the_stages,
};
pub use next::Next;
pub use reply::{BUDGET_SPENT, NESTING_TOO_DEEP};
pub use run::Run;
