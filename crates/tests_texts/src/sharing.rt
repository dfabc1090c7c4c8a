//! Texts that grow, and that share their bytes.

use std::alloc::Global;
use test_rows::{Answer, count_in};
use txt_core::{Known, NoMemory, Text};

/// Adds a text and its length, and whether it is empty.
fn add_whole(text: &Text, out: &mut Answer) {
    out.add(text.bytes());
    out.add(b" ");
    out.add_number(text.len() as u64);
    out.add(b" ");
    out.add_truth(text.is_empty());
    out.add(b", ");
}

/// Adds an empty text, that text when two were appended to it, and what is left of it when it is cleared.
fn add_appended(text: &mut Text, first: &[u8], second: &[u8], out: &mut Answer) {
    add_whole(text, out);
    let one = text.append(first).is_ok();
    let two = text.append(second).is_ok();
    if !one || !two {
        out.lack_memory();
    }
    add_whole(text, out);
    text.clear();
    add_whole(text, out);
}

/// The text of bytes that were given.
fn given(alloc: Global, bytes: &[u8]) -> Result<Text, NoMemory> {
    Ok(Text::from_vec(Vec::from_slice(alloc, bytes)?))
}

/// Adds a text that is empty at first, and to which two are appended, and what is left of it when it is
/// cleared; and the text of bytes that were given.
pub fn appended(first: &Text, second: &Text, out: &mut Answer) {
    let mut text = Text::empty(out.alloc());
    add_appended(&mut text, first.bytes(), second.bytes(), out);
    match given(out.alloc(), second.bytes()) {
        Ok(given) => add_whole(&given, out),
        Err(NoMemory) => out.lack_memory(),
    }
}

/// A text, a copy of it, one that shares its bytes, and a copy of that one.
#[derive(Drop)]
struct Sharing {
    text: Text,
    copied: Text,
    shared: Text,
    third: Text,
}

impl Sharing {
    fn new(alloc: Global, bytes: &[u8]) -> Result<Sharing, NoMemory> {
        let mut text = Text::new(alloc, bytes)?;
        let copied = text.copy(alloc)?;
        let shared = text.share(alloc)?;
        let third = shared.copy(alloc)?;
        Ok(Sharing {
            text,
            copied,
            shared,
            third,
        })
    }

    /// Changes each of them in its own way.
    fn change(&mut self) -> Result<(), NoMemory> {
        self.copied.append(b"1")?;
        self.text.append(b"2")?;
        self.shared.append(b"3")?;
        self.shared.append(b"4")?;
        self.third.clear();
        self.third.append(b"5")
    }
}

/// Four texts, each changed by itself.
fn changed(alloc: Global, bytes: &[u8]) -> Result<Sharing, NoMemory> {
    let mut texts = Sharing::new(alloc, bytes)?;
    texts.change()?;
    Ok(texts)
}

/// Adds the four texts as each of them was changed by itself.
pub fn shared(text: &Text, out: &mut Answer) {
    match changed(out.alloc(), text.bytes()) {
        Ok(texts) => {
            for text in [&texts.copied, &texts.text, &texts.shared, &texts.third] {
                out.add(text.bytes());
                out.add(b" ");
            }
        }
        Err(NoMemory) => out.lack_memory(),
    }
}

/// Adds what is known of a text.
fn add_known(text: &Text, out: &mut Answer) {
    out.add(match text.known() {
        Known::WrittenList => b" list".as_slice(),
        Known::Number(_) | Known::Nothing => b" text",
    });
}

/// How often a byte is appended to a text in a way that leaves the text before as long as it was.
fn right_turns(alloc: Global, text: &mut Text, before: Text, most: u64) -> Result<u64, NoMemory> {
    let mut before = before;
    let mut right = 0u64;
    for count in 2..most {
        let now = text.append_sharing(alloc, b"a", Known::Nothing)?;
        if before.len() as u64 == count.wrapping_sub(1) && now.len() as u64 == count {
            right = right.wrapping_add(1);
        }
        before = now;
    }
    Ok(right)
}

/// Whether a text is made of one letter.
fn is_of_a(text: &Text) -> bool {
    text.bytes().iter().all(|byte| *byte == b'a')
}

/// Adds what is known of a text and of one that shares its bytes.
fn add_both(text: &Text, shared: &Text, out: &mut Answer) {
    add_known(text, out);
    add_known(shared, out);
    out.add(b", right: ");
}

/// Adds how many turns were right, and whether a text is made of one letter.
fn add_right(right: Result<u64, NoMemory>, text: &Text, out: &mut Answer) {
    match right {
        Ok(right) => out.add_number(right),
        Err(NoMemory) => out.lack_memory(),
    }
    out.add(b", whole: ");
    out.add_truth(is_of_a(text));
}

/// Adds what is known of a text and of one that shares its bytes, and how often both are as long as they
/// are to be while the text grows by a byte so often.
pub fn grown(times: &Text, out: &mut Answer) {
    let alloc = out.alloc();
    let mut text = Text::empty(alloc);
    match text.append_sharing(alloc, b"a", Known::WrittenList) {
        Ok(before) => {
            add_both(&text, &before, out);
            let right = right_turns(alloc, &mut text, before, count_in(times));
            add_right(right, &text, out);
        }
        Err(NoMemory) => out.lack_memory(),
    }
}

/// How often a byte is appended to a text in a way that gives a text one byte longer.
fn right_growths(alloc: Global, text: &mut Text, times: u64) -> Result<u64, NoMemory> {
    let mut right = 0u64;
    for _ in 0..times {
        let before = text.len();
        let now = text.append_sharing(alloc, b"a", Known::Nothing)?;
        if now.len() > before && now.len() - before == 1 {
            right = right.wrapping_add(1);
        }
    }
    Ok(right)
}

/// Adds how long a text becomes by a byte again and again: where each turn copied it, this would take
/// minutes.
fn add_grown(text: &mut Text, times: u64, out: &mut Answer) {
    let right = right_growths(out.alloc(), text, times);
    out.add_number(text.len() as u64);
    out.add(b" bytes, right: ");
    add_right(right, text, out);
}

/// Adds how long a copy of a text becomes by a byte again and again.
pub fn grown_in_place(text: &Text, times: &Text, out: &mut Answer) {
    match text.copy(out.alloc()) {
        Ok(mut text) => add_grown(&mut text, count_in(times), out),
        Err(NoMemory) => out.lack_memory(),
    }
}

/// Adds what is known of a text that was made, if memory sufficed for it.
fn add_known_of(text: &Result<Text, NoMemory>, out: &mut Answer) {
    match text {
        Ok(text) => add_known(text, out),
        Err(NoMemory) => out.lack_memory(),
    }
}

/// Adds what is known of the copies of a text, and of one that shares its bytes.
fn add_copies(text: &mut Text, out: &mut Answer) {
    add_known(text, out);
    add_known_of(&text.copy(out.alloc()), out);
    add_known_of(&text.share(out.alloc()), out);
    add_known_of(&text.copy(out.alloc()), out);
}

/// Adds what is known of a written list: of itself and its copies, when it grew, and when it was cleared.
fn add_changes(text: &mut Text, out: &mut Answer) {
    add_copies(text, out);
    if text.append(b" ").is_err() {
        out.lack_memory();
    }
    add_known(text, out);
    text.clear();
    add_known(text, out);
}

/// Adds what is known of a text of one letter: at first, when it is said to be a written list, of its
/// copies, when it grew, and when it was cleared.
pub fn known(out: &mut Answer) {
    match Text::new(out.alloc(), b"a") {
        Ok(text) => {
            add_known(&text, out);
            add_changes(&mut text.knowing(Known::WrittenList), out);
        }
        Err(NoMemory) => out.lack_memory(),
    }
}
