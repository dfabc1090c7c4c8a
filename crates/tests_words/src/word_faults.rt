//! The errors of commands on words, and the places that words mean.

use natives::{Fault, cut_place, index_in, read_index, within_limit};
use std::alloc::Global;
use test_rows::{Answer, count_in, find};
use txt_core::{MOST_BYTES, NoMemory, Text};

/// The error of a value that is one byte too long.
fn too_long(alloc: Global) -> Result<Fault, NoMemory> {
    let long = Text::from_vec(vec![in alloc; b'a'; MOST_BYTES + 1]?);
    Ok(
        within_limit(alloc, Ok(long))
            .err()
            .unwrap_or(Fault::NoMemory),
    )
}

/// The error of a word that is no index.
fn no_index(alloc: Global, word: &Text) -> Fault {
    index_in(alloc, word, 3, "lindex")
        .err()
        .unwrap_or(Fault::NoMemory)
}

/// What goes wrong with a word.
#[derive(Clone, Copy)]
enum Wrong {
    BadValue,
    UnknownSubcommand,
    NoInteger,
    NoList,
    TooLong,
    NoIndex,
}

/// What goes wrong, by name.
const WRONG: &[(&str, Wrong)] = &[
    ("bad_value", Wrong::BadValue),
    ("unknown_subcommand", Wrong::UnknownSubcommand),
    ("no_integer", Wrong::NoInteger),
    ("no_list", Wrong::NoList),
    ("too_long", Wrong::TooLong),
    ("no_index", Wrong::NoIndex),
];

/// The error of a word.
fn fault_of(alloc: Global, wrong: Wrong, word: &Text) -> Result<Fault, NoMemory> {
    match wrong {
        Wrong::BadValue => Ok(Fault::bad_value(alloc, word.bytes(), "lindex")),
        Wrong::UnknownSubcommand => Ok(Fault::unknown_subcommand(alloc, word.bytes(), "string")),
        Wrong::NoInteger => Ok(Fault::no_integer(alloc, word.bytes())),
        Wrong::NoList => Ok(Fault::no_list(alloc, count_in(word))),
        Wrong::TooLong => too_long(alloc),
        Wrong::NoIndex => Ok(no_index(alloc, word)),
    }
}

/// Adds the text of an error.
fn add_fault(fault: &Result<Fault, NoMemory>, out: &mut Answer) {
    match fault {
        Ok(Fault::Error(text)) => out.add(text.bytes()),
        _ => out.lack_memory(),
    }
}

/// Adds the text of an error about a word.
pub fn fault(name: &Text, word: &Text, out: &mut Answer) {
    match find(WRONG, name.bytes()) {
        Some(wrong) => add_fault(&fault_of(out.alloc(), wrong, word), out),
        None => out.add(b"no row"),
    }
}

/// Adds a place, if there is one.
fn add_place(place: Option<i128>, out: &mut Answer) {
    match place.map(i64::try_from) {
        Some(Ok(place)) => out.add_place(place),
        Some(Err(_)) => out.add(b"far"),
        None => out.add(b"none"),
    }
}

/// Adds the place that a word means where the last one is 9, and that place cut to be one of the list's, or
/// its end.
pub fn index(word: &Text, out: &mut Answer) {
    let found = read_index(word.bytes(), 9);
    add_place(found, out);
    out.add(b" cut ");
    out.add_number(cut_place(found.unwrap_or(-1), 9) as u64);
}
