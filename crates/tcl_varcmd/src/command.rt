//! The variable commands by their names.

ghost use Rattle.std.specs.Prelude.{◌≡◌, Some, codes, bytes_eq};
ghost use Rattle.natives.specs.Words.{arg};
ghost use Rattle.tcl_varcmd.specs.Commands.{command_named, goes_on, begins_var_command};
ghost use Rattle.tcl_varcmd.specs.Judging.{is_on_one};

use txt_core::{Words, same_bytes};

/// A command on variables.
#[derive(Clone, Copy, Debug)]
pub enum Command {
    Set,
    Unset,
    Incr,
    Append,
    Lappend,
    Global,
    Array,
    Info,
}

/// The command of a name; `None` exactly where there is none.
#[inline(always)]
pub(crate) fn command_of(name: &[u8]) -> Option<Command>
    ensures { result ≡ command_named name.now }
{
    if same_bytes(name, b"set") {
        Some(Command::Set)
    } else if same_bytes(name, b"unset") {
        Some(Command::Unset)
    } else if same_bytes(name, b"incr") {
        Some(Command::Incr)
    } else if same_bytes(name, b"append") {
        Some(Command::Append)
    } else if same_bytes(name, b"lappend") {
        Some(Command::Lappend)
    } else if same_bytes(name, b"global") {
        Some(Command::Global)
    } else if same_bytes(name, b"array") {
        Some(Command::Array)
    } else if same_bytes(name, b"info") {
        Some(Command::Info)
    } else {
        None
    }
}

/// The command that words begin with; `None` exactly where there is none.
#[inline(always)]
pub(crate) fn command_in(words: &Words) -> Option<Command>
    ensures { result ≡ command_named (arg words.now 0) }
{
    match words.get(0) {
        Some(first) => command_of(first.bytes()),
        None => None,
    }
}

/// Whether the second word is `exists`.
fn is_exists(words: &Words) -> bool
    ensures { result ≡ bytes_eq (arg words.now 1) (codes "exists") }
{
    match words.get(1) {
        Some(second) => second.bytes() == b"exists".as_slice(),
        None => false,
    }
}

/// Whether words go on as the command's.
fn goes_on(command: Command, words: &Words) -> bool
    ensures { result ≡ goes_on (Some command) words.now }
{
    match command {
        Command::Info => is_exists(words),
        _ => true,
    }
}

/// Whether a command is one on a scalar or an element, or `info exists`: each leaves the variables as they
/// were where its answer is over the limit.
pub(crate) fn is_on_one(command: Command) -> bool
    ensures { result ≡ is_on_one command }
{
    match command {
        Command::Set | Command::Incr | Command::Append | Command::Lappend | Command::Info => true,
        Command::Unset | Command::Global | Command::Array => false,
    }
}

/// Whether words begin with a command on variables: `set`, `unset`, `incr`, `append`, `lappend`,
/// `global`, `array` or `info exists`.
pub fn is_var_command(words: &Words) -> bool
    ensures { result ≡ begins_var_command words.now }
{
    match command_in(words) {
        Some(command) => goes_on(command, words),
        None => false,
    }
}
