//! A cache of scripts: the order of its keys, and what it gives.

use parse_cache::Cache;
use std::alloc::Global;
use std::test::Fail;
use tcl_parse::{Kind, ParseFault, Script, parse};
use txt_core::{NoMemory, Text};

/// Scripts of one letter each, which a cache of capacity 2 is asked for in turn, and its hits behind all.
const USES: &[(&str, u64)] = &[
    ("", 0),
    ("ab", 0),
    ("aa", 1),
    ("abacb", 1),
    ("abacbb", 2),
    ("abacbc", 2),
    ("abacba", 1),
    ("abacbdb", 2),
    ("abacbdc", 1),
    ("abcbca", 2),
];

/// Asks a cache for a script.
fn ask(cache: &mut Cache, alloc: Global, script: &[u8]) -> Result<(), NoMemory> {
    let text = Text::new(alloc, script)?;
    match cache.parse(&text) {
        Ok(_) => Ok(()),
        Err(_) => Err(NoMemory),
    }
}

/// Asks a cache for scripts of one letter each.
fn ask_letters(cache: &mut Cache, alloc: Global, letters: &str) -> Result<(), NoMemory> {
    for letter in letters.as_bytes().chunks(1) {
        ask(cache, alloc, letter)?;
    }
    Ok(())
}

/// How many hits come of scripts of one letter each.
fn hits_of(alloc: Global, letters: &str) -> Result<u64, NoMemory> {
    let mut cache = Cache::new(alloc, 2)?;
    ask_letters(&mut cache, alloc, letters)?;
    Ok(cache.hits())
}

#[test]
fn keys_in_order_of_use(rt: HostRuntime) -> Result<(), Fail> {
    let alloc = rt.alloc();
    for &(letters, want) in USES {
        let hits = hits_of(alloc, letters)?;
        assert_eq!(rt; hits, want, "{letters}");
    }
    Ok(())
}

/// Appends a script as it prints.
fn append_script(alloc: Global, script: &Script, all: &mut Text) -> Result<(), NoMemory> {
    all.append(format!(in alloc; "{script:?};")?.as_bytes())
}

/// Appends a fault and its place.
fn append_fault(alloc: Global, at: u64, kind: Kind, all: &mut Text) -> Result<(), NoMemory> {
    all.append(format!(in alloc; "{kind:?} {at};")?.as_bytes())
}

/// Appends why a text is no script.
fn append_why(alloc: Global, why: ParseFault, all: &mut Text) -> Result<(), NoMemory> {
    match why {
        ParseFault::Unclosed { at, kind } => append_fault(alloc, at, kind, all),
        ParseFault::NoMemory => Err(NoMemory),
    }
}

/// Appends what a cache gives for a text.
fn append_kept(
    cache: &mut Cache,
    alloc: Global,
    text: &Text,
    all: &mut Text,
) -> Result<(), NoMemory> {
    match cache.parse(text) {
        Ok(script) => append_script(alloc, &script, all),
        Err(why) => append_why(alloc, why, all),
    }
}

/// Appends what a text is without a cache.
fn append_parsed(alloc: Global, text: &Text, all: &mut Text) -> Result<(), NoMemory> {
    match parse(alloc, text) {
        Ok(script) => append_script(alloc, &script, all),
        Err(why) => append_why(alloc, why, all),
    }
}

/// What a cache gives for a text that it is asked for twice, and what the text is without a cache, written twice.
fn twice(alloc: Global, script: &str) -> Result<(Text, Text), NoMemory> {
    let text = Text::new(alloc, script.as_bytes())?;
    let mut cache = Cache::new(alloc, 4_096)?;
    let mut kept = Text::empty(alloc);
    let mut read = Text::empty(alloc);
    for _ in 0..2 {
        append_kept(&mut cache, alloc, &text, &mut kept)?;
        append_parsed(alloc, &text, &mut read)?;
    }
    Ok((kept, read))
}

/// Scripts of all kinds, and a text that is none.
const TEXTS: &[&str] = &[
    "",
    "set x 1",
    "# nothing\n puts $a(b[c d])\\x ; e \"f $g\" {h i}",
    " set x {",
];

#[test]
fn a_script_that_is_kept_is_the_one_that_is_read(rt: HostRuntime) -> Result<(), Fail> {
    let alloc = rt.alloc();
    for &script in TEXTS {
        let (kept, read) = twice(alloc, script)?;
        assert_eq!(rt; kept.bytes(), read.bytes(), "{script}");
    }
    let (kept, _) = twice(alloc, " set x {")?;
    assert_eq!(rt; kept.bytes(), b"Brace 7;Brace 7;".as_slice());
    Ok(())
}
