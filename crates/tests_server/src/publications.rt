//! Scripts that are definitions, and what comes of publications, saves and looks.

use crate::texts::{put, script, text};
use blueprint::{Blueprint, Limit, Look, Published, ScriptFault, from_script};
use cmd_table::Defs;
use natives::Natives;
use std::alloc::Global;
use txt_core::{NoMemory, Text};

/// The definitions of a script, or why there are none.
fn read(alloc: Global, script: &str) -> Result<Defs, ScriptFault> {
    from_script(alloc, &text(alloc, script.as_bytes()))
}

/// Puts the last digit of a number at the end of a text.
fn put_digit(all: &mut Text, number: u64) {
    put(all, &[b'0' + (number % 10) as u8]);
}

/// That a command is no definition.
fn no_definition(alloc: Global, number: u64) -> Text {
    let mut told = text(alloc, b"no ");
    put_digit(&mut told, number);
    told
}

/// The script of the definitions of a script; `no` and a digit where a command is none.
fn again(alloc: Global, line: &str) -> Text {
    match read(alloc, line) {
        Ok(defs) => script(alloc, &defs),
        Err(ScriptFault::NotADefinition(number)) => no_definition(alloc, number),
        Err(ScriptFault::NoMemory) => text(alloc, b"out of memory"),
    }
}

/// Scripts, with the script of their definitions or the number of the command that is none.
const SCRIPTS: &[(&str, &str)] = &[
    (
        "proc hi {} {ns_return 200 text/plain hi}\nns_register_proc GET /hi hi",
        "proc hi {} {ns_return 200 text/plain hi}\nns_register_proc GET /hi hi\n",
    ),
    ("", ""),
    (
        "  ;# nothing\n rename a \"\" ; rename b c",
        "rename a {}\nrename b c\n",
    ),
    ("set motd \"hello you\"", "set motd {hello you}\n"),
    ("set a(b) 1", "no 0"),
    ("set a [b]", "no 0"),
    ("set a $b", "no 0"),
    ("set a", "no 0"),
    ("proc q {} {}\nputs 1", "no 1"),
    ("proc q {a {b 1} args} {}", "proc q {a {b 1} args} {}\n"),
    ("proc q {{}} {}", "no 0"),
    ("proc q {{a b c}} {}", "no 0"),
    ("proc q {a \\{} {}", "no 0"),
    ("proc q \\{ {}", "no 0"),
    ("proc q {} {", "no 0"),
    (
        "ns_register_proc -noinherit GET /a/*.x p q",
        "ns_register_proc -noinherit GET /a/*.x p q\n",
    ),
    ("ns_register_proc -noinherit GET /a", "no 0"),
    ("ns_register_proc HEAD /a p", "no 0"),
    ("ns_register_proc GET a p", "no 0"),
    (
        "ns_register_filter trace * /* f x",
        "ns_register_filter trace * /* f x\n",
    ),
    ("ns_register_filter late GET /* f", "no 0"),
    ("ns_register_filter trace GET /*", "no 0"),
    ("ns_ictl oncleanup {a b}", "ns_ictl oncleanup {a b}\n"),
    ("ns_ictl get", "no 0"),
    ("set x 1\nset y \\n", "set x 1\nset y {\n}\n"),
];

/// The place of the first script that is wrong, if there is one.
fn first_wrong(alloc: Global) -> Option<usize> {
    for (at, (script, want)) in SCRIPTS.iter().enumerate() {
        if again(alloc, script).bytes() != want.as_bytes() {
            return Some(at);
        }
    }
    None
}

#[test]
fn scripts_are_definitions(rt: HostRuntime) {
    assert_eq!(rt; first_wrong(rt.alloc()), None);
}

/// Puts what comes of a publication or save at the end of a text.
fn show_published(all: &mut Text, published: &Published) {
    let (what, number) = match published {
        Published::Done(epoch) => (b"done ".as_slice(), *epoch),
        Published::NotADefinition(number) => (b"none ".as_slice(), *number),
        Published::NotApplicable(place) => (b"misfit ".as_slice(), *place),
        Published::Full(Limit::Count) => (b"count ".as_slice(), 0),
        Published::Full(Limit::Bytes) => (b"bytes ".as_slice(), 0),
        Published::NoMemory => (b"out of memory ".as_slice(), 0),
    };
    put(all, what);
    put_digit(all, number);
    put(all, b" ");
}

/// Puts definitions that a look answers at the end of a text: their script behind their kind and epoch.
fn show_seen(alloc: Global, all: &mut Text, kind: &[u8], epoch: u64, defs: &Defs) {
    put(all, kind);
    put_digit(all, epoch);
    put(all, b":");
    put(all, script(alloc, defs).bytes());
}

/// Puts what a look answers at the end of a text.
fn show_look(alloc: Global, all: &mut Text, look: &Look) {
    match look {
        Look::Same => put(all, b"same "),
        Look::Since { epoch, defs } => show_seen(alloc, all, b"since ", *epoch, defs),
        Look::Whole { epoch, defs } => show_seen(alloc, all, b"whole ", *epoch, defs),
        Look::NoMemory => put(all, b"out of memory "),
    }
}

/// Publishes definitions.
fn published(blueprint: &mut Blueprint, defs: Defs) -> Published {
    blueprint.publish(defs)
}

/// Publishes the definitions of a script.
fn publish(alloc: Global, blueprint: &mut Blueprint, all: &mut Text, script: &str) {
    match read(alloc, script) {
        Ok(defs) => show_published(all, &published(blueprint, defs)),
        Err(_) => put(all, b"no definitions "),
    }
}

/// Saves a script.
fn save(alloc: Global, blueprint: &mut Blueprint, all: &mut Text, script: &str) {
    let saved = blueprint.save(&text(alloc, script.as_bytes()));
    show_published(all, &saved);
}

/// Looks with an epoch of one digit.
fn look(alloc: Global, blueprint: &Blueprint, all: &mut Text, digit: &str) {
    let digit = digit.as_bytes().first().copied().unwrap_or(b'0');
    let seen = blueprint.look(u64::from(digit.saturating_sub(b'0')));
    show_look(alloc, all, &seen);
}

/// Puts the script of the definitions at the end of a text.
fn show_definitions(alloc: Global, blueprint: &Blueprint, all: &mut Text) {
    if let Ok(defs) = blueprint.definitions() {
        put(all, script(alloc, &defs).bytes());
    }
}

/// Puts the script at the end of a text.
fn show_script(blueprint: &Blueprint, all: &mut Text) {
    if let Ok(script) = blueprint.script() {
        put(all, script.bytes());
    }
}

/// Does a call: `+` publishes the definitions of a script, `=` saves it, `?` looks with an epoch of one
/// digit, `d` is the script of the definitions, and `s` the script.
fn call(alloc: Global, blueprint: &mut Blueprint, all: &mut Text, kind: u8, text: &str) {
    match kind {
        b'+' => publish(alloc, blueprint, all, text),
        b'=' => save(alloc, blueprint, all, text),
        b'?' => look(alloc, blueprint, all, text),
        b'd' => show_definitions(alloc, blueprint, all),
        _ => show_script(blueprint, all),
    }
}

/// What comes of calls, one behind the other.
fn came_of(alloc: Global, blueprint: &mut Blueprint, rows: &[(u8, &str)]) -> Text {
    let mut all = Text::empty(alloc);
    for (kind, text) in rows {
        call(alloc, blueprint, &mut all, *kind, text);
    }
    all
}

/// A new blueprint.
fn new_blueprint(alloc: Global) -> Result<Blueprint, NoMemory> {
    Blueprint::new(alloc, &Natives::new(alloc))
}

/// Whether this comes of these calls on a new blueprint.
fn is_right(alloc: Global, rows: &[(u8, &str)], want: &str) -> bool {
    match new_blueprint(alloc) {
        Ok(mut blueprint) => {
            let came = came_of(alloc, &mut blueprint, rows);
            drop(blueprint);
            came.bytes() == want.as_bytes()
        }
        Err(_) => false,
    }
}

/// Publications, saves and looks, one behind the other.
const CALLS: &[(u8, &str)] = &[
    (b'?', "0"),
    (b'?', "1"),
    (b'+', "proc v {} {}"),
    (b'?', "0"),
    (b'+', "rename v w"),
    (b'+', "set x 1\nrename v w"),
    (b'+', "rename w v\nrename set {}\nrename w v"),
    (b'?', "1"),
    (b'+', "rename w v\nproc w {} {}"),
    (b's', ""),
    (b'+', "rename v w"),
    (b'=', "proc q {} {}\nputs 1"),
    (b'=', "rename q r"),
    (b'=', "rename set put\nproc set {} {}"),
    (b'?', "3"),
    (b'?', "4"),
    (b'+', "rename put p"),
    (b'?', "4"),
    (b'?', "3"),
    (b'?', "9"),
    (b'd', ""),
];

/// What comes of them.
const CAME: &str =
    "same whole 0:done 1 since 1:proc v {} {}\ndone 2 misfit 1 misfit 2 since 2:rename v w\ndone 3 proc v {} {}\nrename v w\nrename w v\nproc w {} {}\nmisfit 0 none 1 misfit 0 done 4 whole 4:rename set put\nproc set {} {}\nsame done 5 since 5:rename put p\nwhole 5:rename set put\nproc set {} {}\nrename put p\nwhole 5:rename set put\nproc set {} {}\nrename put p\nrename set put\nproc set {} {}\nrename put p\n";

#[test]
fn publications_and_saves(rt: HostRuntime) {
    assert!(rt; is_right(rt.alloc(), CALLS, CAME));
}
