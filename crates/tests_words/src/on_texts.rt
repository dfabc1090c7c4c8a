//! The commands on texts.

use crate::calls::add_reply;
use natives::Fault;
use std::alloc::Global;
use tcl_string::{format_command, join_command, split_command, string_command};
use test_rows::{Answer, Row, count_in, find};
use txt_core::{NoMemory, Text, Words};

/// A command on texts.
#[derive(Clone, Copy)]
enum Command {
    String,
    Format,
    Split,
    Join,
}

/// The commands by their names.
const COMMANDS: &[(&str, Command)] = &[
    ("string", Command::String),
    ("format", Command::Format),
    ("split", Command::Split),
    ("join", Command::Join),
];

/// What a command answers to words, if they are in its range.
#[tactic(auto, unfolding(natives::specs::Ranges::range_of))]
fn reply_of(alloc: Global, command: Command, words: &Words) -> Option<Result<Text, Fault>> {
    Some(match (command, words.len()) {
        (Command::String, 3..=5) => string_command(alloc, words),
        (Command::Format, 2..=200_001) => format_command(alloc, words),
        (Command::Split, 2..=3) => split_command(alloc, words),
        (Command::Join, 2..=3) => join_command(alloc, words),
        _ => return None,
    })
}

/// What the command of a name answers to words, if they are in its range.
fn reply(alloc: Global, name: &[u8], words: &Words) -> Option<Result<Text, Fault>> {
    match find(COMMANDS, name) {
        Some(command) => reply_of(alloc, command, words),
        None => None,
    }
}

/// Adds what the command of the name that is the first word answers to words.
pub fn called(name: &Text, words: &[Text], out: &mut Answer) {
    match Words::of_copies(out.alloc(), words) {
        Ok(words) => add_reply(&reply(out.alloc(), name.bytes(), &words), out),
        Err(NoMemory) => out.lack_memory(),
    }
}

/// A pattern in which `%1000%` stands so often, with a tail.
fn long_pattern(alloc: Global, count: &Text, tail: &Text) -> Result<Text, NoMemory> {
    let mut pattern = Text::empty(alloc);
    for _ in 0..count_in(count) {
        pattern.append(b"%1000%")?;
    }
    pattern.append(tail.bytes())?;
    Ok(pattern)
}

/// A call of `format` with a pattern and words.
fn format_of(alloc: Global, pattern: Text, words: &[Text]) -> Result<Words, NoMemory> {
    let mut list = Words::new(alloc);
    list.add(Text::new(alloc, b"format")?)?;
    list.add(pattern)?;
    list.append_copies(alloc, words)?;
    Ok(list)
}

/// Adds how long a result of blanks is, or the error's text.
fn add_size(reply: &Option<Result<Text, Fault>>, out: &mut Answer) {
    match reply {
        Some(Ok(text)) if text.bytes().starts_with(b" ") => out.add_number(text.len() as u64),
        _ => add_reply(reply, out),
    }
}

/// The words of a call of `format` for a pattern in which `%1000%` stands so often, with a tail.
fn long_words(alloc: Global, row: &Row<'_>) -> Result<Words, NoMemory> {
    let pattern = long_pattern(alloc, row.first, row.second)?;
    format_of(alloc, pattern, row.all.get(2..).unwrap_or(&[]))
}

/// Adds what `format` comes to for a pattern in which `%1000%` stands so often, with a tail, and words: how
/// long the result is, or the error.
pub fn format_long(row: &Row<'_>, out: &mut Answer) {
    match long_words(out.alloc(), row) {
        Ok(words) => add_size(&reply(out.alloc(), b"format", &words), out),
        Err(NoMemory) => out.lack_memory(),
    }
}
