//! What an engine came to, as a text.

use std::alloc::Global;
use tcl_eval::Outcome;
use txt_core::{Text, Words, write_natural};

/// A text; the empty one where memory wants.
pub fn text(alloc: Global, bytes: &[u8]) -> Text {
    match Text::new(alloc, bytes) {
        Ok(text) => text,
        Err(_) => Text::empty(alloc),
    }
}

/// Appends bytes to a text, which stays as it is where memory wants.
pub fn put(all: &mut Text, bytes: &[u8]) {
    let _put = all.append(bytes);
}

/// Appends a number and what stands behind it.
pub fn show_number(number: u64, behind: &[u8], alloc: Global, all: &mut Text) {
    if let Ok(digits) = write_natural(alloc, number) {
        put(all, digits.bytes());
    }
    put(all, behind);
}

/// Appends words, each behind a blank.
fn show_words(words: &Words, all: &mut Text) {
    for word in words.as_slice() {
        put(all, b" ");
        put(all, word.bytes());
    }
}

/// Appends the code and result of a run.
fn show_done(code: u8, said: &Text, alloc: Global, all: &mut Text) {
    show_number(u64::from(code), b" ", alloc, all);
    put(all, said.bytes());
}

/// Appends the code and result of a run, the words of its question, or how it ended.
fn show_end(outcome: &Outcome, alloc: Global, all: &mut Text) {
    match outcome {
        Outcome::Done { code, result } => show_done(*code, result, alloc, all),
        Outcome::Asks(question) => {
            put(all, b"asks");
            show_words(&question.words, all);
        }
        Outcome::Spent => put(all, b"spent"),
        Outcome::TooDeep => put(all, b"deep"),
        Outcome::NoMemory => put(all, b"out of memory"),
    }
}

/// Appends what an engine came to: its code and result, the words of its question, or how it ended;
/// and what is left of its budget.
pub fn show(outcome: &Outcome, left: u64, alloc: Global, all: &mut Text) {
    show_end(outcome, alloc, all);
    put(all, b" ");
    show_number(left, b"|", alloc, all);
}
