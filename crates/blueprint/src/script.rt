//! The script of definitions.

ghost use Rattle.std.specs.Prelude.{◌≡◌, ◌++◌, ◌∷◌, [], IfOk, OnOk, map, codes};
ghost use Rattle.blueprint.specs.Scripts.{when_name, registering, command_words, script_of};
ghost use Rattle.blueprint.specs.Kept.{lines_of};

use cmd_table::{Def, Defs, When};
use std::alloc::Global;
use tcl_list::quote;
use txt_core::{NoMemory, Text, Words};

/// The name of a stage, by which filters are registered for it and called in it.
pub fn when_name(when: When) -> &'static [u8]
    ensures { result.now ≡ when_name when }
{
    match when {
        When::Preauth => b"preauth",
        When::Postauth => b"postauth",
        When::Trace => b"trace",
    }
}

/// Puts a word at the end of a list.
fn add_word(alloc: Global, words: &mut Words, word: &[u8]) -> Result<(), NoMemory>
    ensures { OnOk result (words.new ≡ words.old ++ word.now ∷ []) }
{
    words.add(Text::new(alloc, word)?)
}

/// The front of the command that registers a procedure.
fn registering(alloc: Global, inherit: bool) -> Result<Words, NoMemory>
    ensures { IfOk result (λ words. words ≡ registering inherit []) }
{
    let mut words = Words::new(alloc);
    add_word(alloc, &mut words, b"ns_register_proc")?;
    if !inherit {
        add_word(alloc, &mut words, b"-noinherit")?;
    }
    Ok(words)
}

/// The words of the command that registers a procedure.
fn route_words(
    alloc: Global,
    method: &Text,
    url: &Text,
    inherit: bool,
    words: &Words,
) -> Result<Words, NoMemory>
    ensures { IfOk result (λ command.
        command ≡ registering inherit (method.now ∷ url.now ∷ words.now)) }
{
    let mut command = registering(alloc, inherit)?;
    add_word(alloc, &mut command, method.bytes())?;
    add_word(alloc, &mut command, url.bytes())?;
    command.append_copies(alloc, words.as_slice())?;
    Ok(command)
}

/// The words of the command that registers a filter.
fn filter_words(
    alloc: Global,
    when: When,
    method: &Text,
    pattern: &Text,
    words: &Words,
) -> Result<Words, NoMemory>
    ensures { IfOk result (λ command.
        command
        ≡ codes "ns_register_filter" ∷ when_name when ∷ method.now ∷ pattern.now ∷ words.now) }
{
    let mut command = Words::new(alloc);
    add_word(alloc, &mut command, b"ns_register_filter")?;
    add_word(alloc, &mut command, when_name(when))?;
    add_word(alloc, &mut command, method.bytes())?;
    add_word(alloc, &mut command, pattern.bytes())?;
    command.append_copies(alloc, words.as_slice())?;
    Ok(command)
}

/// These words.
fn words_of(alloc: Global, words: &[&[u8]]) -> Result<Words, NoMemory>
    ensures { IfOk result (λ list. list ≡ map (λ word. word.now) words.now) }
{
    let mut list = Words::new(alloc);
    'words: for word in words {
        add_word(alloc, &mut list, word)?;
    }
    Ok(list)
}

/// The words of the command that makes a definition.
fn command_words(alloc: Global, def: &Def) -> Result<Words, NoMemory>
    ensures { IfOk result (λ words. words ≡ command_words def.now) }
{
    match def {
        Def::Proc { name, params, body } => {
            let words: [&[u8]; 4] = [b"proc", name.bytes(), params.bytes(), body.bytes()];
            words_of(alloc, &words)
        }
        Def::Rename { old, new } => {
            let words: [&[u8]; 3] = [b"rename", old.bytes(), new.bytes()];
            words_of(alloc, &words)
        }
        Def::Route {
            method,
            url,
            inherit,
            words,
        } => route_words(alloc, method, url, *inherit, words),
        Def::Filter {
            when,
            method,
            pattern,
            words,
        } => filter_words(alloc, *when, method, pattern, words),
        Def::Cleanup { script } => {
            let words: [&[u8]; 3] = [b"ns_ictl", b"oncleanup", script.bytes()];
            words_of(alloc, &words)
        }
        Def::Set { name, value } => {
            let words: [&[u8]; 3] = [b"set", name.bytes(), value.bytes()];
            words_of(alloc, &words)
        }
    }
}

/// Puts the lines of definitions at the end of a script.
pub(crate) fn add_lines(alloc: Global, script: &mut Text, defs: &[Def]) -> Result<(), NoMemory>
    ensures { OnOk result (script.new ≡ script.old ++ script_of defs.now) }
{
    'defs: for def in defs {
        let words = command_words(alloc, def)?;
        script.append(quote(alloc, &words)?.bytes())?;
        script.append(b"\n")?;
    }
    Ok(())
}

/// Puts the lines of the definitions of several lists at the end of a script.
pub(crate) fn add_all_lines(
    alloc: Global,
    script: &mut Text,
    lists: &[Defs],
) -> Result<(), NoMemory>
    ensures { OnOk result (script.new ≡ script.old ++ lines_of lists.now) }
{
    'lists: for defs in lists {
        add_lines(alloc, script, defs.as_slice())?;
    }
    Ok(())
}

/// The script of definitions: a line for each, which is the list of the words of the command that
/// makes it, and a newline. Its only error is want of memory.
pub fn script_of(alloc: Global, defs: &Defs) -> Result<Text, NoMemory>
    ensures { IfOk result (λ script. script ≡ script_of defs.now) }
{
    let mut script = Text::empty(alloc);
    add_lines(alloc, &mut script, defs.as_slice())?;
    Ok(script)
}
