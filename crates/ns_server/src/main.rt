//! The program `ns_server`: `ns_server rehearse` plays the file of events on standard input and writes the
//! listing of what came of them to standard output; `ns_server load N` plays a file of N requests that it
//! makes itself, and tells what was counted; `ns_server serve` with options serves connections.
#![tactic(auto)]

ghost use Rattle.std.specs.Prelude.{◌≡◌, ◌<◌, ◌+◌, ◌∷◌, ◌++◌, [], false, take, OnOk};
ghost use Rattle.natives.specs.Names.{name_of, names_of, has_name};
ghost use Rattle.ns_server.specs.Natives.{native_names};
ghost use Rattle.outside.specs.Nets.{IsNew};
ghost use Rattle.serve_run.specs.Serving.{around_of};
ghost use Rattle.ns_server.specs.Running.{streams_of, Runs};

/// Makes the command of a name and adds it to natives, which have those of the places before.
macro_rules! add_native {
    ($alloc:expr, $natives:ident, $failed:expr, $place:literal, $name:literal, $least:literal, $most:expr, $call:path) => {
        let Ok(name) = Text::new($alloc, $name) else {
            $failed
        };
        if crate::add_next(
            &mut $natives,
            $place,
            Native::new(name, $least, $most, $call),
        )
        .is_err()
        {
            $failed
        }
    };
}

/// Adds each command that looks at its words alone to natives, which have none yet. Where memory wants, the
/// function is left by what stands last.
macro_rules! add_natives {
    ($alloc:expr, $natives:ident, $failed:expr) => {
        add_native!($alloc, $natives, $failed, 0, b"concat", 1, UNLIMITED, tcl_listcmd::concat_command);
        add_native!($alloc, $natives, $failed, 1, b"format", 2, UNLIMITED, tcl_string::format_command);
        add_native!($alloc, $natives, $failed, 2, b"join", 2, 3, tcl_string::join_command);
        add_native!($alloc, $natives, $failed, 3, b"lindex", 3, 3, tcl_listcmd::lindex_command);
        add_native!($alloc, $natives, $failed, 4, b"linsert", 4, UNLIMITED, tcl_listcmd::linsert_command);
        add_native!($alloc, $natives, $failed, 5, b"list", 1, UNLIMITED, tcl_listcmd::list_command);
        add_native!($alloc, $natives, $failed, 6, b"llength", 2, 2, tcl_listcmd::llength_command);
        add_native!($alloc, $natives, $failed, 7, b"lrange", 4, 4, tcl_listcmd::lrange_command);
        add_native!($alloc, $natives, $failed, 8, b"lreplace", 4, UNLIMITED, tcl_listcmd::lreplace_command);
        add_native!($alloc, $natives, $failed, 9, b"lsearch", 3, 4, tcl_listcmd::lsearch_command);
        add_native!($alloc, $natives, $failed, 10, b"lsort", 2, 6, tcl_listcmd::lsort_command);
        add_native!($alloc, $natives, $failed, 11, b"split", 2, 3, tcl_string::split_command);
        add_native!($alloc, $natives, $failed, 12, b"string", 3, 5, tcl_string::string_command);
    };
}

mod command_line;
mod machine;
mod made;
mod program;
mod status;
mod streams;
#[cfg(test)]
mod tests;

use crate::command_line::command_words;
use crate::machine::Machine;
use crate::program::{SERVE, asks_server, report, run};
use crate::status::Status;
use crate::streams::{ReaderSource, WriterSink};
use cmd_table::Steps;
use log::{Log, info};
use natives::{Native, Natives, UNLIMITED};
use outside::{Clock, Net, OpenGate, Pages, Sink, Source};
use serve_options::asked_for;
use std::alloc::Global;
use std::marker::Brand;
use std::net::{TcpListener, TcpStream};
use std::process::ExitCode;
use std::sync::Wait;
use std::sync::ledger::{Blank, Ledger};
use std::thread::Threads;
use system::take_stack;
use txt_core::{NoMemory, Text, Words};

/// Adds the native whose name stands at this place to those before it.
fn add_next(natives: &mut Natives, place: usize, native: Native) -> Result<(), Native>
    requires front { names_of natives.old ≡ take place native_names }
    requires is_new { has_name (take place native_names) (name_of native) ≡ false }
    requires next { take place native_names ++ name_of native ∷ [] ≡ take (place + 1) native_names }
    ensures { OnOk result (names_of natives.new ≡ take (place + 1) native_names) }
{
    natives.add(native)
}

/// Runs the program with new counters, and with every command that looks at its words alone as a native, and
/// gives the number of the status with which it ends.
fn run_counted<
    S: Source,
    K: Sink,
    E: Sink,
    N: Net,
    P: Pages + Send + Drop,
    C: Clock + Send + Drop,
    L: Ledger,
    R: Threads
        + Wait
        + Sync
        + std::rt::Clock
        + std::net::Net<Listener = TcpListener, Stream = TcpStream>,
>(
    rt: &R,
    alloc: Global,
    natives: &Natives,
    words: &Words,
    input: &mut S,
    output: &mut K,
    errors: &mut E,
    net: &mut N,
    pages: &mut P,
    clock: &mut C,
    blank: Blank,
) -> u8
    requires name { blank.name ≡ L.name }
    requires parts { blank.parts ≡ L.parts }
    requires some { 0 < blank.parts }
    requires natives { names_of natives.now ≡ native_names }
    requires new { IsNew (N.state net.old) }
    ensures { Runs native_names words.now
        (streams_of (S.rest input.old) (S.faults input.old) (K.taken output.old)
        (K.faults output.old) (E.taken errors.old) (E.faults errors.old))
        (around_of (N.state net.old) (P.held pages.old) (P.faults pages.old) (C.held clock.old))
        result
        (streams_of (S.rest input.new) (S.faults input.new) (K.taken output.new)
        (K.faults output.new) (E.taken errors.new) (E.faults errors.new))
        (around_of (N.state net.new) (P.held pages.new) (P.faults pages.new) (C.held clock.new)) }
{
    let mut steps = [Steps::<L>::new(blank)];
    run(
        rt, alloc, natives, words, input, output, errors, net, pages, clock, &OpenGate, &mut steps,
    )
}

/// Runs the program on a machine whose net is new, and notes the end of a server.
fn run_on<
    S: Source,
    K: Sink,
    E: Sink,
    R: Threads
        + Wait
        + Sync
        + AllocGlobal
        + Log
        + std::rt::Clock
        + std::net::Net<Listener = TcpListener, Stream = TcpStream>,
>(
    rt: &R,
    natives: &Natives,
    words: &Words,
    input: &mut S,
    output: &mut K,
    errors: &mut E,
    machine: &mut Machine,
) -> u8
    requires natives { names_of natives.now ≡ native_names }
    requires new { machine.old.net.given ≡ 0 }
{
    let status = run_counted::<_, _, _, _, _, _, Brand, _>(
        rt,
        rt.alloc(),
        natives,
        words,
        input,
        output,
        errors,
        &mut machine.net,
        &mut machine.pages,
        &mut machine.clock,
        Blank::new(1),
    );
    if asks_server(words) {
        info!(*rt; "serve ended with status {status}");
    }
    status
}

/// The words in which the help or the version may be asked for: one word alone stands behind that of the
/// server.
fn help_words(alloc: Global, words: &Words) -> Result<Words, NoMemory> {
    let mut asked = Words::new(alloc);
    if words.len() == 1 && !asks_server(words) {
        asked.add(Text::new(alloc, SERVE)?)?;
    }
    for word in words.as_slice() {
        asked.add(word.copy(alloc)?)?;
    }
    Ok(asked)
}

/// Prints the help or the version on standard output, where the words ask for one of them, and tells
/// whether they do.
fn helps(rt: HostRuntime, words: &Words) -> Result<bool, NoMemory> {
    let asked = help_words(rt.alloc(), words)?;
    if !asks_server(&asked) {
        return Ok(false);
    }
    match asked_for(rt.alloc(), &asked) {
        Some(help) => {
            let _ = help.print(&rt);
            Ok(true)
        }
        None => Ok(false),
    }
}

#[tactic(auto, unfolding(natives::specs::Ranges::range_of))]
fn main(rt: HostRuntime) -> ExitCode {
    let mut input = ReaderSource::new(rt.stdin());
    let mut output = WriterSink::new(rt.stdout());
    let mut errors = WriterSink::new(rt.stderr());
    let mut natives = Natives::new(rt.alloc());
    add_natives!(
        rt.alloc(),
        natives,
        return ExitCode::from(report(&mut errors, Status::NoMemory))
    );
    let Ok(words) = command_words(&rt) else {
        return ExitCode::from(report(&mut errors, Status::NoMemory));
    };
    match helps(rt, &words) {
        Ok(false) => {}
        Ok(true) => return ExitCode::SUCCESS,
        Err(_) => return ExitCode::from(report(&mut errors, Status::NoMemory)),
    }
    if take_stack(rt.alloc()).is_err() {
        return ExitCode::from(report(&mut errors, Status::NoMemory));
    }
    let Ok(mut machine) = Machine::new(rt) else {
        return ExitCode::from(report(&mut errors, Status::NoMemory));
    };
    let status = run_on(
        &rt,
        &natives,
        &words,
        &mut input,
        &mut output,
        &mut errors,
        &mut machine,
    );
    ExitCode::from(status)
}
