//! What a command of literal words defines.

ghost use Rattle.std.specs.Prelude.{◌≡◌, Some, IfOk};
ghost use Rattle.std.specs.List.{list_all};
ghost use Rattle.blueprint.specs.Reading.{list_of, is_parameter, are_parameters, proc_def, rename_def, set_def, route_at, route_def, filter_at, filter_def, cleanup_def, by_name, is_short, def_of};

use crate::registration::{is_filter_method, is_method, stage_named};
use cmd_table::{Def, When};
use std::alloc::Global;
use tcl_frame::is_element_name;
use tcl_list::{ListFault, split};
use txt_core::{NoMemory, Sequence, Text, Words, begins_with_slash, is_too_long};

/// The elements of a list; `None` where the text is none.
fn elements(alloc: Global, text: &Text) -> Result<Option<Words>, NoMemory>
    ensures { IfOk result (λ found. found ≡ list_of text.now) }
{
    match split(alloc, text) {
        Ok(words) => Ok(Some(words)),
        Err(ListFault::Bad { .. }) => Ok(None),
        Err(ListFault::NoMemory) => Err(NoMemory),
    }
}

/// Whether a text is a parameter of a procedure: as a list, a name, or a name and a default.
fn is_parameter(alloc: Global, text: &Text) -> Result<bool, NoMemory>
    ensures { IfOk result (λ is. is ≡ is_parameter text.now) }
{
    match elements(alloc, text)? {
        None => Ok(false),
        Some(words) => Ok(words.len() == 1 || words.len() == 2),
    }
}

/// Whether a text is a list of parameters.
fn are_parameters(alloc: Global, params: &Text) -> Result<bool, NoMemory>
    ensures { IfOk result (λ are. are ≡ are_parameters params.now) }
{
    let Some(texts) = elements(alloc, params)? else {
        return Ok(false);
    };
    for text in texts.as_slice() {
        if !is_parameter(alloc, text)? {
            return Ok(false);
        }
    }
    Ok(true)
}

/// `proc name params body`.
fn proc_def(alloc: Global, words: &[Text]) -> Result<Option<Def>, NoMemory>
    ensures { IfOk result (λ def. def ≡ proc_def words.now) }
{
    let [name, params, body] = words else {
        return Ok(None);
    };
    if !are_parameters(alloc, params)? {
        return Ok(None);
    }
    Ok(Some(Def::Proc {
        name: name.copy(alloc)?,
        params: params.copy(alloc)?,
        body: body.copy(alloc)?,
    }))
}

/// `rename old new`.
fn rename_def(alloc: Global, words: &[Text]) -> Result<Option<Def>, NoMemory>
    ensures { IfOk result (λ def. def ≡ rename_def words.now) }
{
    let [old, new] = words else {
        return Ok(None);
    };
    Ok(Some(Def::Rename {
        old: old.copy(alloc)?,
        new: new.copy(alloc)?,
    }))
}

/// `set name value`, of a name that hasn't the form of an array's element.
fn set_def(alloc: Global, words: &[Text]) -> Result<Option<Def>, NoMemory>
    ensures { IfOk result (λ def. def ≡ set_def words.now) }
{
    let [name, value] = words else {
        return Ok(None);
    };
    if is_element_name(name) {
        return Ok(None);
    }
    Ok(Some(Def::Set {
        name: name.copy(alloc)?,
        value: value.copy(alloc)?,
    }))
}

/// `method url proc word*`.
fn route_at(alloc: Global, inherit: bool, words: &[Text]) -> Result<Option<Def>, NoMemory>
    ensures { IfOk result (λ def. def ≡ route_at inherit words.now) }
{
    if words.len() < 3 {
        return Ok(None);
    }
    if !is_method(words[0].bytes()) || !begins_with_slash(words[1].bytes()) {
        return Ok(None);
    }
    Ok(Some(Def::Route {
        method: words[0].copy(alloc)?,
        url: words[1].copy(alloc)?,
        inherit,
        words: Sequence::of_copies(alloc, &words[2..])?,
    }))
}

/// `ns_register_proc ?-noinherit? method url proc word*`.
fn route_def(alloc: Global, words: &[Text]) -> Result<Option<Def>, NoMemory>
    ensures { IfOk result (λ def. def ≡ route_def words.now) }
{
    match words.split_first() {
        None => Ok(None),
        Some((first, behind)) => {
            if first.bytes() == b"-noinherit".as_slice() {
                route_at(alloc, false, behind)
            } else {
                route_at(alloc, true, words)
            }
        }
    }
}

/// The filter of a stage, where its method is one.
fn filter_at(
    alloc: Global,
    when: When,
    method: &Text,
    pattern: &Text,
    words: &[Text],
) -> Result<Option<Def>, NoMemory>
    ensures { IfOk result (λ def. def ≡ filter_at (Some when) method.now pattern.now words.now) }
{
    if !is_filter_method(method.bytes()) {
        return Ok(None);
    }
    Ok(Some(Def::Filter {
        when,
        method: method.copy(alloc)?,
        pattern: pattern.copy(alloc)?,
        words: Sequence::of_copies(alloc, words)?,
    }))
}

/// `ns_register_filter when method glob proc word*`.
fn filter_def(alloc: Global, words: &[Text]) -> Result<Option<Def>, NoMemory>
    ensures { IfOk result (λ def. def ≡ filter_def words.now) }
{
    if words.len() < 4 {
        return Ok(None);
    }
    match stage_named(words[0].bytes()) {
        None => Ok(None),
        Some(when) => filter_at(alloc, when, &words[1], &words[2], &words[3..]),
    }
}

/// `ns_ictl oncleanup script`.
fn cleanup_def(alloc: Global, words: &[Text]) -> Result<Option<Def>, NoMemory>
    ensures { IfOk result (λ def. def ≡ cleanup_def words.now) }
{
    let [subcommand, script] = words else {
        return Ok(None);
    };
    if subcommand.bytes() != b"oncleanup".as_slice() {
        return Ok(None);
    }
    Ok(Some(Def::Cleanup {
        script: script.copy(alloc)?,
    }))
}

/// What a command of this name defines with these words behind it.
fn by_name(alloc: Global, name: &[u8], words: &[Text]) -> Result<Option<Def>, NoMemory>
    ensures { IfOk result (λ def. def ≡ by_name name.now words.now) }
{
    if name == b"proc".as_slice() {
        proc_def(alloc, words)
    } else if name == b"rename".as_slice() {
        rename_def(alloc, words)
    } else if name == b"set".as_slice() {
        set_def(alloc, words)
    } else if name == b"ns_register_proc".as_slice() {
        route_def(alloc, words)
    } else if name == b"ns_register_filter".as_slice() {
        filter_def(alloc, words)
    } else if name == b"ns_ictl".as_slice() {
        cleanup_def(alloc, words)
    } else {
        Ok(None)
    }
}

/// Whether none of the words is too long for a word.
fn are_short(words: &[Text]) -> bool
    ensures { result ≡ list_all is_short words.now }
{
    'words: for word in words {
        if is_too_long(word) {
            return false;
        }
    }
    true
}

/// The definition that these words make; `None` where they make none by themselves.
pub(crate) fn def_of(alloc: Global, words: &[Text]) -> Result<Option<Def>, NoMemory>
    ensures { IfOk result (λ def. def ≡ def_of words.now) }
{
    if !are_short(words) {
        return Ok(None);
    }
    match words.split_first() {
        None => Ok(None),
        Some((name, behind)) => by_name(alloc, name.bytes(), behind),
    }
}
