//! The commands on lists.

use crate::calls::add_reply;
use natives::Fault;
use std::alloc::Global;
use tcl_listcmd::{
    concat_command, lindex_command, linsert_command, list_command, llength_command, lrange_command,
    lreplace_command, lsearch_command, lsort_command,
};
use test_rows::{Answer, find};
use txt_core::{NoMemory, Text, Words};

/// A command on lists.
#[derive(Clone, Copy)]
enum Command {
    List,
    Lindex,
    Lrange,
    Linsert,
    Lreplace,
    Concat,
    Llength,
    Lsearch,
    Lsort,
}

/// The commands by their names.
const COMMANDS: &[(&str, Command)] = &[
    ("list", Command::List),
    ("lindex", Command::Lindex),
    ("lrange", Command::Lrange),
    ("linsert", Command::Linsert),
    ("lreplace", Command::Lreplace),
    ("concat", Command::Concat),
    ("llength", Command::Llength),
    ("lsearch", Command::Lsearch),
    ("lsort", Command::Lsort),
];

/// What a command answers to words, if they are in its range.
#[tactic(auto, unfolding(natives::specs::Ranges::range_of))]
fn reply_of(alloc: Global, command: Command, words: &Words) -> Option<Result<Text, Fault>> {
    Some(match (command, words.len()) {
        (Command::List, 1..=200_001) => list_command(alloc, words),
        (Command::Lindex, 3) => lindex_command(alloc, words),
        (Command::Lrange, 4) => lrange_command(alloc, words),
        (Command::Linsert, 4..=200_001) => linsert_command(alloc, words),
        (Command::Lreplace, 4..=200_001) => lreplace_command(alloc, words),
        (Command::Concat, 1..=200_001) => concat_command(alloc, words),
        (Command::Llength, 2) => llength_command(alloc, words),
        (Command::Lsearch, 3..=4) => lsearch_command(alloc, words),
        (Command::Lsort, 2..=6) => lsort_command(alloc, words),
        _ => return None,
    })
}

/// What the command of a name answers to words, if they are in its range.
fn reply(alloc: Global, name: &[u8], words: &Words) -> Option<Result<Text, Fault>> {
    match find(COMMANDS, name) {
        Some(command) => reply_of(alloc, command, words),
        None => None,
    }
}

/// Adds what the command of the name that is the first word answers to words.
pub fn called(name: &Text, words: &[Text], out: &mut Answer) {
    match Words::of_copies(out.alloc(), words) {
        Ok(words) => add_reply(&reply(out.alloc(), name.bytes(), &words), out),
        Err(NoMemory) => out.lack_memory(),
    }
}
