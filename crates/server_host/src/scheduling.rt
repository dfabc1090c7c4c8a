//! The commands on the schedule.

ghost use Rattle.std.specs.Prelude.{◌≡◌};
ghost use Rattle.txt_core.specs.Number.{number};
ghost use Rattle.server_host.specs.Answers.{Comes};
ghost use Rattle.server_host.specs.Scheduling.{asks_schedule, is_once, is_schedule, schedules, by_option, ns_schedule_proc, is_id, unschedules, ns_unschedule_proc};

use crate::host::RunHost;
use natives::Fault;
use outside::{Question, Service};
use sched_core::{is_once_option, is_period};
use tcl_host::{HostReply, integer, is_counted, require_fit, require_words};
use txt_core::{Words, error_text, read_int_bytes};

/// Asks the schedule these words.
fn ask(host: &RunHost, words: &Words) -> Result<HostReply, Fault>
    ensures { Comes result host.now (asks_schedule words.now host.now) }
{
    Ok(HostReply::Ask(Question {
        service: Service::Schedule,
        words: Words::of_copies(host.alloc, words.as_slice())?,
    }))
}

/// Whether the second word is the option by which the script runs once.
fn is_once(words: &Words) -> bool
    ensures { result ≡ is_once words.now }
{
    is_once_option(words.bytes_at(1))
}

/// Whether the number of words is one of `ns_schedule_proc`.
fn is_schedule(words: &Words) -> bool
    ensures { result ≡ is_schedule words.now }
{
    if is_once(words) {
        words.len() == 4
    } else {
        is_counted(words, 3, 4)
    }
}

/// Asks the schedule, where the word at a place is a number of seconds that may be.
fn schedule(host: &RunHost, place: usize, words: &Words) -> Result<HostReply, Fault>
    ensures { Comes result host.now (schedules place words.now host.now) }
{
    let seconds = integer(host.alloc, words, place)?;
    require_fit(host.alloc, is_period(seconds), words, place)?;
    ask(host, words)
}

/// Asks the schedule, where the words are three, or the option stands in its place.
fn by_option(host: &RunHost, words: &Words) -> Result<HostReply, Fault>
    ensures { Comes result host.now (by_option words.now host.now) }
{
    if words.len() == 3 {
        return schedule(host, 1, words);
    }
    require_fit(host.alloc, is_once(words), words, 1)?;
    schedule(host, 2, words)
}

/// `ns_schedule_proc ?-once? SECONDS SCRIPT`.
pub fn ns_schedule_proc(host: &RunHost, words: &Words) -> Result<HostReply, Fault>
    ensures { Comes result host.now (ns_schedule_proc words.now host.now) }
{
    require_words(host.alloc, is_schedule(words), words)?;
    by_option(host, words)
}

/// Whether a word is a number from 0 on, as an id is.
fn is_id(word: &[u8]) -> bool
    ensures { result ≡ is_id (number word.now) }
{
    match read_int_bytes(word) {
        None => false,
        Some(number) => number >= 0,
    }
}

/// Asks the schedule, where the word is an id.
fn unschedule(host: &RunHost, words: &Words) -> Result<HostReply, Fault>
    ensures { Comes result host.now (unschedules words.now host.now) }
{
    let id = words.bytes_at(1);
    if !is_id(id) {
        return Err(Fault::saying(error_text::no_schedule(host.alloc, id)));
    }
    ask(host, words)
}

/// `ns_unschedule_proc ID`.
pub fn ns_unschedule_proc(host: &RunHost, words: &Words) -> Result<HostReply, Fault>
    ensures { Comes result host.now (ns_unschedule_proc words.now host.now) }
{
    require_words(host.alloc, is_counted(words, 2, 2), words)?;
    unschedule(host, words)
}
