//! What an engine asks of its host: the commands that the engine doesn't know, and what a page does
//! with its texts and its ends; the codes with which scripts and commands end; and what hosts have in
//! common: checks of words, refusals, the replies that they come to, and pages, with their paths.
//!
//! The engine stands above, the hosts beside each other: none has to know how scripts are run.
#![tactic(auto)]

mod checks;
mod code;
mod host;
mod pages;
mod paths;
mod reply;

pub use checks::{integer, is_counted, no_subcommand, require_fit, require_words, unfit};
pub use code::{
    BREAK, CONTINUE, ERROR, OK, PAGE_ABORT, PAGE_BREAK, PAGE_RETURN, RETURN, codes_have_their_names,
};
pub use host::{Host, HostReply};
pub use pages::{page_question, page_told};
pub use paths::{is_page_path, page_path};
pub use reply::{done, ended, reply_of, reply_to_text};
