//! Sets of fields.

use ns_sets::{SetFault, Sets};
use std::alloc::Global;
use test_rows::{Answer, Row, count_in, find};
use txt_core::Text;

/// Adds a fault by its name.
fn add_fault(fault: SetFault, out: &mut Answer) {
    match fault {
        SetFault::NoSet => out.add(b"NoSet"),
        SetFault::NoField => out.add(b"NoField"),
        SetFault::NoMemory => out.lack_memory(),
    }
}

/// Adds how a call ended.
fn add_done(done: Result<(), SetFault>, out: &mut Answer) {
    match done {
        Ok(()) => out.add(b"done"),
        Err(fault) => add_fault(fault, out),
    }
}

/// Adds a place, or why there is none.
fn add_place(place: Result<i64, SetFault>, out: &mut Answer) {
    match place {
        Ok(place) => out.add_place(place),
        Err(fault) => add_fault(fault, out),
    }
}

/// Adds a number, or why there is none.
fn add_count(count: Result<u64, SetFault>, out: &mut Answer) {
    match count {
        Ok(count) => out.add_number(count),
        Err(fault) => add_fault(fault, out),
    }
}

/// Adds a text, or why there is none.
fn add_text(text: &Result<Text, SetFault>, out: &mut Answer) {
    match text {
        Ok(text) => out.add(text.bytes()),
        Err(fault) => add_fault(*fault, out),
    }
}

/// Adds the keys of a set, one after the other.
fn add_keys(sets: &Sets, set: u64, out: &mut Answer) {
    for at in 0..sets.size(set).unwrap_or(0) {
        add_text(&sets.key(set, at), out);
    }
}

/// A call on sets, or a question about them.
#[derive(Clone, Copy)]
enum Verb {
    Create,
    Clear,
    Size,
    Copy,
    Name,
    Free,
    Keys,
    Find,
    Ifind,
    Get,
    Iget,
    Value,
    Delkey,
    Idelkey,
    Delete,
    Truncate,
    Merge,
    Fill,
    Cput,
    Icput,
    Update,
}

/// These by their names.
const VERBS: &[(&str, Verb)] = &[
    ("create", Verb::Create),
    ("clear", Verb::Clear),
    ("size", Verb::Size),
    ("copy", Verb::Copy),
    ("name", Verb::Name),
    ("free", Verb::Free),
    ("keys", Verb::Keys),
    ("find", Verb::Find),
    ("ifind", Verb::Ifind),
    ("get", Verb::Get),
    ("iget", Verb::Iget),
    ("value", Verb::Value),
    ("delkey", Verb::Delkey),
    ("idelkey", Verb::Idelkey),
    ("delete", Verb::Delete),
    ("truncate", Verb::Truncate),
    ("merge", Verb::Merge),
    ("fill", Verb::Fill),
    ("cput", Verb::Cput),
    ("icput", Verb::Icput),
    ("update", Verb::Update),
];

/// Makes a set of a name.
fn create(alloc: Global, sets: &mut Sets, name: &Text) -> Result<u64, SetFault> {
    Ok(sets.create(name.copy(alloc)?)?)
}

/// Puts a field for each letter at the end of a set: the letter is its key and its value.
fn fill(alloc: Global, sets: &mut Sets, set: u64, letters: &[u8]) -> Result<(), SetFault> {
    for letter in letters {
        let field = Text::new(alloc, &[*letter])?;
        sets.put(set, &field, &field)?;
    }
    Ok(())
}

/// Takes all sets away.
fn clear(sets: &mut Sets, out: &mut Answer) {
    sets.clear();
    out.add(b"done");
}

/// Adds what a question about a set answers.
fn look(sets: &Sets, verb: Verb, set: u64, word: &Text, out: &mut Answer) {
    match verb {
        Verb::Size => add_count(sets.size(set), out),
        Verb::Name => add_text(&sets.name(set), out),
        Verb::Keys => add_keys(sets, set, out),
        Verb::Find => add_place(sets.find(set, word), out),
        Verb::Ifind => add_place(sets.ifind(set, word), out),
        Verb::Get => add_text(&sets.get(set, word), out),
        Verb::Iget => add_text(&sets.iget(set, word), out),
        _ => add_text(&sets.value(set, count_in(word)), out),
    }
}

/// Adds what a call on a set, or a question about it, answers.
fn add_act(sets: &mut Sets, verb: Verb, set: u64, row: &Row<'_>, out: &mut Answer) {
    let word = row.third;
    let value = row.all.get(3).unwrap_or(word);
    match verb {
        Verb::Create => add_count(create(out.alloc(), sets, row.second), out),
        Verb::Clear => clear(sets, out),
        Verb::Copy => add_count(sets.copy(set), out),
        Verb::Free => add_done(sets.free(set), out),
        Verb::Delkey => add_done(sets.delkey(set, word), out),
        Verb::Idelkey => add_done(sets.idelkey(set, word), out),
        Verb::Delete => add_done(sets.delete(set, count_in(word)), out),
        Verb::Truncate => add_done(sets.truncate(set, count_in(word)), out),
        Verb::Merge => add_done(sets.merge(set, count_in(word)), out),
        Verb::Fill => add_done(fill(out.alloc(), sets, set, word.bytes()), out),
        Verb::Cput => add_place(sets.cput(set, word, value), out),
        Verb::Icput => add_place(sets.icput(set, word, value), out),
        Verb::Update => add_place(sets.update(set, word, value), out),
        _ => look(sets, verb, set, word, out),
    }
}

/// Adds what a call on sets, or a question about them, answers.
pub fn acted(sets: &mut Sets, row: &Row<'_>, out: &mut Answer) {
    match find(VERBS, row.first.bytes()) {
        Some(verb) => add_act(sets, verb, count_in(row.second), row, out),
        None => out.add(b"no row"),
    }
}
