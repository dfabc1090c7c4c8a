//! How rows are read and told. Where memory wants, what is told is shorter, so that its row is wrong.

use blueprint::script_of;
use cmd_table::{Def, Defs};
use std::alloc::Global;
use txt_core::{Text, Words, write_natural};

/// A text; the empty one where memory wants.
pub(crate) fn text(alloc: Global, bytes: &[u8]) -> Text {
    match Text::new(alloc, bytes) {
        Ok(text) => text,
        Err(_) => Text::empty(alloc),
    }
}

/// A text again; the empty one where memory wants.
pub(crate) fn again(alloc: Global, text: &Text) -> Text {
    match text.copy(alloc) {
        Ok(other) => other,
        Err(_) => Text::empty(alloc),
    }
}

/// The digits of a number; none where memory wants.
pub(crate) fn digits(alloc: Global, number: u64) -> Text {
    match write_natural(alloc, number) {
        Ok(digits) => digits,
        Err(_) => Text::empty(alloc),
    }
}

/// Adds bytes to a text, which stays as it is where memory wants.
pub(crate) fn put(told: &mut Text, bytes: &[u8]) {
    let _put = told.append(bytes);
}

/// Adds a word, where there is memory for it.
pub(crate) fn add_word(words: &mut Words, word: Text) {
    let _added = words.add(word);
}

/// The words of a line between its marks.
pub(crate) fn words_between(alloc: Global, line: &str, mark: &str) -> Words {
    let mut words = Words::new(alloc);
    for word in line.split(mark) {
        add_word(&mut words, text(alloc, word.as_bytes()));
    }
    words
}

/// Adds a definition, where there is memory for it.
pub(crate) fn add_def(defs: &mut Defs, def: Def) {
    let _added = defs.add(def);
}

/// The script of definitions; the empty one where memory wants.
pub(crate) fn script(alloc: Global, defs: &Defs) -> Text {
    match script_of(alloc, defs) {
        Ok(script) => script,
        Err(_) => Text::empty(alloc),
    }
}
