//! The commands on variables.

use natives::Fault;
use std::alloc::Global;
use tcl_frame::Frames;
use tcl_list::split;
use tcl_varcmd::{is_var_command, var_command};
use test_rows::Answer;
use txt_core::{Known, NoMemory, Text, Words};

/// What a command of these words answers; `None` where it is no command on variables.
fn reply(alloc: Global, frames: &mut Frames, words: &Words) -> Option<Result<Text, Fault>> {
    if is_var_command(words) {
        Some(var_command(alloc, frames, words))
    } else {
        None
    }
}

/// Adds what a command answers: its result, or its error's text behind `error: `.
fn add_reply(reply: &Option<Result<Text, Fault>>, out: &mut Answer) {
    match reply {
        Some(Ok(result)) => out.add(result.bytes()),
        Some(Err(Fault::Error(text))) => {
            out.add(b"error: ");
            out.add(text.bytes());
        }
        Some(Err(Fault::NoMemory)) => out.lack_memory(),
        None => out.add(b"no command"),
    }
}

/// What a command answers, whose words are the elements of a list.
fn reply_to(alloc: Global, frames: &mut Frames, command: &Text) -> Option<Result<Text, Fault>> {
    match split(alloc, command) {
        Ok(words) => reply(alloc, frames, &words),
        Err(_) => None,
    }
}

/// Adds what a command answers, whose words are the elements of a list.
pub fn answered(frames: &mut Frames, command: &Text, out: &mut Answer) {
    add_reply(&reply_to(out.alloc(), frames, command), out);
}

/// A command on a variable of the command's name, with a value.
fn put_words(alloc: Global, command: &Text, value: &Text) -> Result<Words, NoMemory> {
    let mut words = Words::new(alloc);
    words.add(command.copy(alloc)?)?;
    words.add(command.copy(alloc)?)?;
    words.add(value.copy(alloc)?)?;
    Ok(words)
}

/// Adds how long a value is that came, or what else came.
fn add_length(reply: &Option<Result<Text, Fault>>, out: &mut Answer) {
    match reply {
        Some(Ok(value)) => out.add_number(value.len() as u64),
        _ => add_reply(reply, out),
    }
}

/// Adds how long the value becomes by a command on a variable of the command's name with these bytes.
pub fn length_put(frames: &mut Frames, command: &Text, value: &Text, out: &mut Answer) {
    match put_words(out.alloc(), command, value) {
        Ok(words) => add_length(&reply(out.alloc(), frames, &words), out),
        Err(NoMemory) => out.lack_memory(),
    }
}

/// Adds what is known of a text.
fn add_known(text: &Text, out: &mut Answer) {
    out.add(match text.known() {
        Known::WrittenList => b"list".as_slice(),
        Known::Number(_) | Known::Nothing => b"text",
    });
}

/// Adds what is known of the result of a command, if there is one.
fn add_known_reply(reply: &Option<Result<Text, Fault>>, out: &mut Answer) {
    match reply {
        Some(Ok(result)) => add_known(result, out),
        _ => add_reply(reply, out),
    }
}

/// Does a command whose words are the elements of a list, and adds what is known of its result and of a
/// variable.
pub fn known(frames: &mut Frames, command: &Text, name: &Text, out: &mut Answer) {
    add_known_reply(&reply_to(out.alloc(), frames, command), out);
    out.add(b" ");
    match frames.value(name) {
        Ok(value) => add_known(value, out),
        Err(_) => out.add(b"none"),
    }
}
