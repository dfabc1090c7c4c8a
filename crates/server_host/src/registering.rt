//! The commands that register procedures and filters.

ghost use Rattle.std.specs.Prelude.{◌≡◌, ◌≤◌, ◌+◌, drop, IfOk, Some};
ghost use Rattle.natives.specs.Words.{arg};
ghost use Rattle.server_host.specs.Answers.{Comes};
ghost use Rattle.server_host.specs.Registering.{is_noinherit, method_place, registers, registers_filter, ns_register_proc, ns_register_filter};

use crate::checks::{require_definition_run, words_from};
use crate::host::RunHost;
use blueprint::{is_filter_method, is_method, stage_named};
use cmd_table::{Def, When};
use natives::Fault;
use std::alloc::Global;
use tcl_host::{HostReply, require_fit, require_words, unfit};
use txt_core::{NoMemory, Text, Words, begins_with_slash};

/// Whether the second word is the option by which the paths below the URL aren't served.
fn is_noinherit(words: &Words) -> bool
    ensures { result ≡ is_noinherit words.now }
{
    words.bytes_at(1) == b"-noinherit".as_slice()
}

/// The place of the method: behind the option, where that stands.
fn method_place(words: &Words) -> usize
    ensures place { result ≡ method_place words.now }
    ensures most { result ≤ 2 }
{
    if is_noinherit(words) { 2 } else { 1 }
}

/// The registration of a procedure that the words from a place on make.
fn route(alloc: Global, inherit: bool, place: usize, words: &Words) -> Result<Def, NoMemory>
    requires { place ≤ 2 }
    ensures { IfOk result (λ def.
        def
        ≡ Def.Route (arg words.now place) (arg words.now (place + 1)) inherit
        (drop (place + 2) words.now)) }
{
    Ok(Def::Route {
        method: Text::new(alloc, words.bytes_at(place))?,
        url: Text::new(alloc, words.bytes_at(place + 1))?,
        inherit,
        words: Words::of_copies(alloc, words_from(words, place + 2))?,
    })
}

/// Registers a procedure by the words from a place on.
fn register(host: &RunHost, inherit: bool, place: usize, words: &Words) -> Result<HostReply, Fault>
    requires { place ≤ 2 }
    ensures { Comes result host.now (registers inherit place words.now host.now) }
{
    let alloc = host.alloc;
    require_fit(alloc, is_method(words.bytes_at(place)), words, place)?;
    let url = place + 1;
    require_fit(alloc, begins_with_slash(words.bytes_at(url)), words, url)?;
    Ok(HostReply::Define(route(alloc, inherit, place, words)?))
}

/// `ns_register_proc ?-noinherit? METHOD URL PROC WORD*`.
pub fn ns_register_proc(host: &RunHost, words: &Words) -> Result<HostReply, Fault>
    ensures { Comes result host.now (ns_register_proc words.now host.now) }
{
    let place = method_place(words);
    require_words(host.alloc, words.len() >= place + 3, words)?;
    require_definition_run(host)?;
    register(host, !is_noinherit(words), place, words)
}

/// The filter of a stage that the words make.
fn filter(alloc: Global, when: When, words: &Words) -> Result<Def, NoMemory>
    ensures { IfOk result (λ def.
        def ≡ Def.Filter when (arg words.now 2) (arg words.now 3) (drop 4 words.now)) }
{
    Ok(Def::Filter {
        when,
        method: Text::new(alloc, words.bytes_at(2))?,
        pattern: Text::new(alloc, words.bytes_at(3))?,
        words: Words::of_copies(alloc, words_from(words, 4))?,
    })
}

/// Registers a filter for a stage.
fn register_filter(host: &RunHost, when: When, words: &Words) -> Result<HostReply, Fault>
    ensures { Comes result host.now (registers_filter (Some when) words.now host.now) }
{
    require_fit(host.alloc, is_filter_method(words.bytes_at(2)), words, 2)?;
    Ok(HostReply::Define(filter(host.alloc, when, words)?))
}

/// `ns_register_filter WHEN METHOD GLOB PROC WORD*`.
pub fn ns_register_filter(host: &RunHost, words: &Words) -> Result<HostReply, Fault>
    ensures { Comes result host.now (ns_register_filter words.now host.now) }
{
    require_words(host.alloc, words.len() >= 5, words)?;
    require_definition_run(host)?;
    match stage_named(words.bytes_at(1)) {
        None => Err(Fault::saying(unfit(host.alloc, words, 1))),
        Some(when) => register_filter(host, when, words),
    }
}
