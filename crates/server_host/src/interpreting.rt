//! The commands on interpreters and their blueprint.

ghost use Rattle.std.specs.Prelude.{◌≡◌, ◌∷◌, [], IfOk, Some, not};
ghost use Rattle.tcl_frame.specs.Names.{named, is_element};
ghost use Rattle.natives.specs.Words.{arg};
ghost use Rattle.server_host.specs.Answers.{Comes, Passes};
ghost use Rattle.server_host.specs.Checks.{is_defining};
ghost use Rattle.server_host.specs.Interpreting.{cleans_up, sets_global, gives_script, gives_epoch, saves, ictl_does, ictl_by_verb, ns_ictl, inside_itself, ns_eval};

use crate::checks::require_definition_run;
use crate::host::RunHost;
use crate::ictl_verb::{IctlVerb, find_ictl_verb};
use crate::kind::is_defining;
use crate::reply::done_without_result;
use blueprint::script_of;
use cmd_table::Def;
use natives::Fault;
use outside::{Question, Service};
use std::alloc::Global;
use tcl_frame::is_element_name;
use tcl_host::{HostReply, done, is_counted, no_subcommand, require_fit, require_words};
use txt_core::{NoMemory, Text, Words, write_natural};

/// A question of one word.
fn question(alloc: Global, service: Service, word: &[u8]) -> Result<Question, NoMemory>
    ensures { IfOk result (λ question.
        question ≡ record { service = service; words = word.now ∷ [] }) }
{
    let mut words = Words::new(alloc);
    words.add(Text::new(alloc, word)?)?;
    Ok(Question { service, words })
}

/// `ns_ictl oncleanup SCRIPT`, whose number of words is right.
fn clean_up(host: &RunHost, words: &Words) -> Result<HostReply, Fault>
    ensures { Comes result host.now (cleans_up words.now host.now) }
{
    require_definition_run(host)?;
    let script = Text::new(host.alloc, words.bytes_at(2))?;
    Ok(HostReply::Define(Def::Cleanup { script }))
}

/// Whether the word at a place has the form of an array's element.
fn is_element(words: &Words, place: usize) -> bool
    ensures { result ≡ is_element (named (arg words.now place)) }
{
    match words.get(place) {
        Some(name) => is_element_name(name),
        None => false,
    }
}

/// `ns_ictl global NAME VALUE`, whose number of words is right.
fn set_global(host: &RunHost, words: &Words) -> Result<HostReply, Fault>
    ensures { Comes result host.now (sets_global words.now host.now) }
{
    require_definition_run(host)?;
    require_fit(host.alloc, !is_element(words, 2), words, 2)?;
    let name = Text::new(host.alloc, words.bytes_at(2))?;
    let value = Text::new(host.alloc, words.bytes_at(3))?;
    Ok(HostReply::Define(Def::Set { name, value }))
}

/// `ns_ictl get`, whose number of words is right.
fn get(host: &RunHost) -> Result<HostReply, Fault>
    ensures { Comes result host.now (gives_script host.now) }
{
    Ok(done(script_of(host.alloc, &host.blueprint.defs)?))
}

/// `ns_ictl epoch`, whose number of words is right.
fn epoch(host: &RunHost) -> Result<HostReply, Fault>
    ensures { Comes result host.now (gives_epoch host.now) }
{
    Ok(done(write_natural(host.alloc, host.blueprint.epoch)?))
}

/// `ns_ictl save SCRIPT`, whose number of words is right.
fn save(host: &RunHost, words: &Words) -> Result<HostReply, Fault>
    ensures { Comes result host.now (saves words.now host.now) }
{
    let asked = question(host.alloc, Service::Save, words.bytes_at(2))?;
    Ok(HostReply::Ask(asked))
}

/// Does a subcommand of `ns_ictl`, whose number of words is right.
fn ictl_does(host: &mut RunHost, verb: IctlVerb, words: &Words) -> Result<HostReply, Fault>
    ensures { Comes result host.new (ictl_does verb words.now host.old) }
{
    match verb {
        IctlVerb::Oncleanup => clean_up(host, words),
        IctlVerb::Global => set_global(host, words),
        IctlVerb::Get => get(host),
        IctlVerb::Epoch => epoch(host),
        IctlVerb::Save => save(host, words),
        IctlVerb::Markfordelete => {
            host.marked = true;
            Ok(done_without_result(host.alloc))
        }
    }
}

/// Does a subcommand of `ns_ictl`, where its number of words is right.
fn ictl_by_verb(host: &mut RunHost, verb: IctlVerb, words: &Words) -> Result<HostReply, Fault>
    ensures { Comes result host.new (ictl_by_verb (Some verb) words.now host.old) }
{
    require_words(host.alloc, words.len() == verb.count(), words)?;
    ictl_does(host, verb, words)
}

/// `ns_ictl` with its subcommands.
pub fn ns_ictl(host: &mut RunHost, words: &Words) -> Result<HostReply, Fault>
    ensures { Comes result host.new (ns_ictl words.now host.old) }
{
    require_words(host.alloc, is_counted(words, 2, 4), words)?;
    match find_ictl_verb(words.bytes_at(1)) {
        None => Err(Fault::saying(no_subcommand(host.alloc, words))),
        Some(verb) => ictl_by_verb(host, verb, words),
    }
}

/// Goes on in a run that makes no definitions of the blueprint.
fn require_no_definition_run(host: &RunHost) -> Result<(), Fault>
    ensures { Passes result (not (is_defining host.now.kind)) inside_itself }
{
    if is_defining(host.kind) {
        return Err(Fault::saying(Text::new(host.alloc, b"ns_eval inside ns_eval")));
    }
    Ok(())
}

/// `ns_eval SCRIPT`.
pub fn ns_eval(host: &RunHost, words: &Words) -> Result<HostReply, Fault>
    ensures { Comes result host.now (ns_eval words.now host.now) }
{
    require_words(host.alloc, is_counted(words, 2, 2), words)?;
    require_no_definition_run(host)?;
    let asked = question(host.alloc, Service::Inner, words.bytes_at(1))?;
    Ok(HostReply::Ask(asked))
}
