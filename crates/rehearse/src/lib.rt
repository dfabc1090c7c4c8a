//! Rehearsals: a file of events played on one thread, and the listing of what came of them.
#![tactic(auto)]

mod answer;
mod cut;
mod defining;
mod event;
mod head;
mod intake;
mod keeper;
mod keyword;
mod law;
mod listing;
mod machine;
mod number;
mod objects;
mod playback;
mod running;
mod scheduler;
mod setting;
mod tally;
mod worker;

pub use answer::Rehearsal;
pub use law::{one_file, one_listing, one_outcome};
pub use number::read_number;
pub use playback::{Counted, count_listing, rehearse};
pub use tally::Tally;
