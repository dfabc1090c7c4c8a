//! What commands and texts come to, as replies of a host.

ghost use Rattle.std.specs.Prelude.{◌≡◌, MatchResult, Ok, Err, []};
ghost use Rattle.tcl_host.specs.Codes as code_of;
ghost use Rattle.tcl_host.specs.Outcomes.{refused};

use crate::code::{ERROR, OK};
use crate::host::HostReply;
use natives::Fault;
use std::alloc::Global;
use txt_core::Text;

/// A good end with this result.
pub fn done(result_text: Text) -> HostReply
    ensures { result ≡ HostReply.Done code_of.ok result_text }
{
    HostReply::Done {
        code: OK,
        result: result_text,
    }
}

/// The reply to what is refused: an error with the refusal's text, or that memory ran out.
fn refused(refusal: Fault) -> HostReply
    ensures { result ≡ refused refusal }
{
    match refusal {
        Fault::Error(message) => HostReply::Done {
            code: ERROR,
            result: message,
        },
        Fault::NoMemory => HostReply::NoMemory,
    }
}

/// What a command came to that ends with a result, unless it was refused.
pub fn ended(came: Result<Text, Fault>) -> Result<HostReply, Fault>
    ensures { MatchResult came (λ text. result ≡ Ok (HostReply.Done code_of.ok text)) (λ refusal.
        result ≡ Err refusal) }
{
    Ok(done(came?))
}

/// The reply to a command, by what it came to.
pub fn reply_of(came: Result<HostReply, Fault>) -> HostReply
    ensures { MatchResult came (λ reply. result ≡ reply) (λ refusal. result ≡ refused refusal) }
{
    match came {
        Ok(reply) => reply,
        Err(refusal) => refused(refusal),
    }
}

/// The reply to a text of a page, by what it came to: a good end has no result.
pub fn reply_to_text(alloc: Global, came: Result<(), Fault>) -> HostReply
    ensures { MatchResult came (λ _. result ≡ HostReply.Done code_of.ok []) (λ refusal.
        result ≡ refused refusal) }
{
    match came {
        Ok(()) => done(Text::empty(alloc)),
        Err(refusal) => refused(refusal),
    }
}
