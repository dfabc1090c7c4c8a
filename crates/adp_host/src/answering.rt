//! The commands by their names.

ghost use Rattle.tcl_host.specs.Outcomes.{Comes, ComesTo};
ghost use Rattle.adp_host.specs.Leaf.{page_call, page_onward};

use crate::arguments::{ns_adp_argc, ns_adp_argv};
use crate::host::AdpHost;
use crate::including::{ns_adp_include, page_answered};
use crate::leaving::leaves_with;
use crate::output::{ns_adp_append, ns_adp_puts};
use crate::verb::{Verb, find_verb};
use natives::Fault;
use outside::Answer;
use tcl_host::{HostReply, PAGE_ABORT, PAGE_BREAK, PAGE_RETURN, ended};
use txt_core::Words;

/// Does a command.
pub fn dispatch(host: &mut AdpHost, words: &Words) -> Result<HostReply, Fault>
    ensures { Comes result host.new (page_call words.now host.old) }
{
    let Some(verb) = find_verb(words.bytes_at(0)) else {
        return Ok(HostReply::NotMine);
    };
    match verb {
        Verb::Append => ended(ns_adp_append(host, words)),
        Verb::Puts => ended(ns_adp_puts(host, words)),
        Verb::Include => ns_adp_include(host, words),
        Verb::Argc => ended(ns_adp_argc(host, words)),
        Verb::Argv => ended(ns_adp_argv(host, words)),
        Verb::Return => leaves_with(host, PAGE_RETURN, words),
        Verb::Break => leaves_with(host, PAGE_BREAK, words),
        Verb::Abort => leaves_with(host, PAGE_ABORT, words),
    }
}

/// Goes on with the answer to a question that a command asked.
pub fn answer(host: &mut AdpHost, words: &Words, given: &Answer) -> Result<HostReply, Fault>
    ensures { ComesTo result host.new (page_onward words.now given.now host.old) }
{
    if words.bytes_at(0) != b"ns_adp_include".as_slice() {
        return Ok(HostReply::NotMine);
    }
    page_answered(host, words, given)
}
