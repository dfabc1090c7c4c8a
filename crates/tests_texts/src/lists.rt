//! Lists: their elements, and how elements are written.

use std::alloc::Global;
use tcl_list::{ListFault, append_elements, elements_behind, quote, split};
use test_rows::{Answer, count_in};
use txt_core::{Known, NoMemory, Text, Words};

/// Adds the bad place of a text that is no list.
fn add_fault(fault: ListFault, out: &mut Answer) {
    match fault {
        ListFault::Bad { at } => {
            out.add(b"bad ");
            out.add_number(at);
        }
        ListFault::NoMemory => out.lack_memory(),
    }
}

/// Adds the elements of a text, each with a bar behind it, or its bad place.
pub fn elements(text: &Text, out: &mut Answer) {
    match split(out.alloc(), text) {
        Ok(words) => out.add_words(words.as_slice()),
        Err(fault) => add_fault(fault, out),
    }
}

/// Adds a list that was written, and whether it is known to be one.
fn add_written(list: &Text, out: &mut Answer) {
    out.add(list.bytes());
    out.add(match list.known() {
        Known::WrittenList => b" | list | ".as_slice(),
        Known::Number(_) | Known::Nothing => b" | text | ",
    });
}

/// These words again and again.
fn again(alloc: Global, times: u64, words: &[Text]) -> Result<Words, NoMemory> {
    let mut all = Words::new(alloc);
    for _ in 0..times {
        all.append_copies(alloc, words)?;
    }
    Ok(all)
}

/// The list of these words.
fn list_of(alloc: Global, words: &[Text]) -> Result<Text, NoMemory> {
    let words = Words::of_copies(alloc, words)?;
    quote(alloc, &words)
}

/// Adds how elements are written, whether that is known to be a list, and its elements.
pub fn quoted(words: &[Text], out: &mut Answer) {
    match list_of(out.alloc(), words) {
        Ok(list) => {
            add_written(&list, out);
            elements(&list, out);
        }
        Err(NoMemory) => out.lack_memory(),
    }
}

/// Adds how many bytes a list has, and how many elements are read from it.
fn add_size(list: &Text, words: &[Text], out: &mut Answer) {
    out.add_number(list.len() as u64);
    out.add(b" bytes, ");
    out.add_number(words.len() as u64);
    out.add(b" elements");
}

/// Adds the size of the list of these words, and whether they are read from it.
fn add_same(words: &[Text], out: &mut Answer) {
    match list_of(out.alloc(), words) {
        Ok(list) => add_read_same(&list, words, out),
        Err(NoMemory) => out.lack_memory(),
    }
}

/// Adds the size of a list, and whether its elements are these.
fn add_read_same(list: &Text, words: &[Text], out: &mut Answer) {
    match split(out.alloc(), list) {
        Ok(read) => {
            add_size(list, read.as_slice(), out);
            out.add(b", the same: ");
            out.add_truth(read.as_slice() == words);
        }
        Err(fault) => add_fault(fault, out),
    }
}

/// Adds the size of the list of elements again and again, and whether they are read from it.
pub fn quoted_again(times: &Text, words: &[Text], out: &mut Answer) {
    match again(out.alloc(), count_in(times), words) {
        Ok(all) => add_same(all.as_slice(), out),
        Err(NoMemory) => out.lack_memory(),
    }
}

/// A list with elements behind it.
fn longer(alloc: Global, list: &Text, words: &[Text]) -> Result<Text, ListFault> {
    append_elements(alloc, list.copy(alloc)?, words)
}

/// Adds a list with elements behind it, and whether it is known to be one.
fn add_longer(longer: &Result<Text, ListFault>, out: &mut Answer) {
    match longer {
        Ok(list) => add_written(list, out),
        Err(fault) => {
            add_fault(*fault, out);
            out.add(b" | ");
        }
    }
}

/// A text that is known to be a list as it is written, where the list has an element.
fn known_list(alloc: Global, list: &Text) -> Result<Text, ListFault> {
    let words = split(alloc, list)?;
    Ok(quote(alloc, &words)?)
}

/// A list that is known to be one, with elements behind it.
fn known_longer(alloc: Global, list: &Text, words: &[Text]) -> Result<Text, ListFault> {
    append_elements(alloc, known_list(alloc, list)?, words)
}

/// Whether these bytes are a list's.
fn is_of(list: &Result<Text, ListFault>, bytes: &[u8]) -> bool {
    match list {
        Ok(list) => list.bytes() == bytes,
        Err(_) => false,
    }
}

/// The bytes of a list, of which nothing is known, with elements behind it.
fn unknown_longer(alloc: Global, list: &Text, words: &[Text]) -> Result<Text, ListFault> {
    append_elements(alloc, Text::new(alloc, list.bytes())?, words)
}

/// Adds whether a list with more elements behind it has the bytes that its bytes alone have with them.
fn add_alike(list: &Text, words: &[Text], out: &mut Answer) {
    out.add(b"alike: ");
    match longer(out.alloc(), list, words) {
        Ok(known) => out.add_truth(is_of(&unknown_longer(out.alloc(), list, words), known.bytes())),
        Err(fault) => add_fault(fault, out),
    }
}

/// Adds a list with elements behind it: of the list that is known to be one, and of the bytes of the list,
/// and whether more elements are written alike behind either.
pub fn behind(list: &Text, words: &[Text], out: &mut Answer) {
    add_longer(&known_longer(out.alloc(), list, words), out);
    match longer(out.alloc(), list, words) {
        Ok(list) => {
            add_written(&list, out);
            add_alike(&list, words, out);
        }
        Err(fault) => {
            add_fault(fault, out);
            out.add(b" | ");
        }
    }
}

/// Adds what is written of elements behind a list that is known to be one.
fn add_behind(list: &Text, words: &[Text], out: &mut Answer) {
    match list.known() {
        Known::WrittenList => out.add_made(&elements_behind(out.alloc(), list, words)),
        Known::Number(_) | Known::Nothing => out.add(b"not known"),
    }
}

/// Adds what is written of elements behind a list.
pub fn apart(list: &Text, words: &[Text], out: &mut Answer) {
    match known_list(out.alloc(), list) {
        Ok(known) => add_behind(&known, words, out),
        Err(fault) => add_fault(fault, out),
    }
}

/// The list of the element `a`, to which elements are appended again and again.
fn grown(alloc: Global, times: u64, words: &[Text]) -> Result<Text, ListFault> {
    let mut list = Text::new(alloc, b"a")?;
    for _ in 0..times {
        list = append_elements(alloc, list, words)?;
    }
    Ok(list)
}

/// Adds the size of a list.
fn add_read(list: &Text, out: &mut Answer) {
    match split(out.alloc(), list) {
        Ok(words) => add_size(list, words.as_slice(), out),
        Err(fault) => add_fault(fault, out),
    }
}

/// Adds the size of a list of one element to which these are appended so often.
pub fn one_by_one(times: &Text, words: &[Text], out: &mut Answer) {
    match grown(out.alloc(), count_in(times), words) {
        Ok(list) => add_read(&list, out),
        Err(fault) => add_fault(fault, out),
    }
}
