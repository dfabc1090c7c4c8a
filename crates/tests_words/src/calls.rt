//! What a command that looks at its words alone answers.

use natives::Fault;
use test_rows::Answer;
use txt_core::Text;

/// Adds an answer of a command: its text, or its error's, and `none` where the words are out of its range.
pub fn add_reply(reply: &Option<Result<Text, Fault>>, out: &mut Answer) {
    match reply {
        Some(Ok(text) | Err(Fault::Error(text))) => out.add(text.bytes()),
        Some(Err(Fault::NoMemory)) => out.lack_memory(),
        None => out.add(b"none"),
    }
}
