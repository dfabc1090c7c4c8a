//! Commands that look at their words alone, as stored functions beside what they answer.
#![tactic(auto)]

mod fault;
mod hints;
mod index;
mod law;
mod list;
mod native;
mod natives;
mod places;
pub mod subcommand;
mod word;

pub use fault::Fault;
pub use index::{cut_place, index_in, read_index};
pub use law::{elements_have_an_order, sorting_is_stable};
pub use list::list_in;
pub use native::{Call, Native, UNLIMITED};
pub use natives::Natives;
pub use places::Places;
pub use word::{has_long_text, number_in, within_limit, word_at};
