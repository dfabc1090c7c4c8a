//! The commands on shared arrays that ask one question.

ghost use Rattle.std.specs.Prelude.{◌≡◌};
ghost use Rattle.server_host.specs.Answers.{Comes};
ghost use Rattle.server_host.specs.Sharing.{asks_nsv, unasked, nsv};

use crate::host::RunHost;
use natives::Fault;
use nsv_bucket::{is_question, lacks_subcommand};
use outside::{Question, Service};
use tcl_host::{HostReply, no_subcommand};
use txt_core::{Words, error_text};

/// Asks the shared arrays these words.
fn ask(host: &RunHost, words: &Words) -> Result<HostReply, Fault>
    ensures { Comes result host.now (asks_nsv words.now host.now) }
{
    Ok(HostReply::Ask(Question {
        service: Service::Nsv,
        words: Words::of_copies(host.alloc, words.as_slice())?,
    }))
}

/// Why words aren't asked.
fn unasked(host: &RunHost, words: &Words) -> Result<HostReply, Fault>
    ensures { Comes result host.now (unasked words.now host.now) }
{
    if lacks_subcommand(words) {
        return Err(Fault::saying(no_subcommand(host.alloc, words)));
    }
    Err(Fault::saying(error_text::wrong_words(host.alloc, words.bytes_at(0))))
}

/// A command on shared arrays, but for `nsv_names`: its words are asked where they are a question.
pub fn nsv(host: &RunHost, words: &Words) -> Result<HostReply, Fault>
    ensures { Comes result host.now (nsv words.now host.now) }
{
    if is_question(words) {
        return ask(host, words);
    }
    unasked(host, words)
}
