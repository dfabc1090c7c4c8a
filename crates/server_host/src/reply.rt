//! What commands come to, as replies of a host.

ghost use Rattle.std.specs.Prelude.{◌≡◌, []};
ghost use Rattle.tcl_host.specs.Codes as code_of;
ghost use Rattle.tcl_host.specs.Answers.{Replies, RepliesTo};
ghost use Rattle.tcl_host.specs.Leaf.{Leaf, goes};
ghost use Rattle.server_host.specs.Hosts.{HostState};
ghost use Rattle.server_host.specs.Answers.{Comes};

use natives::Fault;
use std::alloc::Global;
use tcl_host::{ERROR, HostReply, done};
use txt_core::Text;

/// A good end without a result.
pub fn done_without_result(alloc: Global) -> HostReply
    ensures { result ≡ HostReply.Done code_of.ok [] }
{
    done(Text::empty(alloc))
}

/// What a command came to, as the reply of the host.
pub fn reply_of(came: Result<HostReply, Fault>) -> HostReply
    ensures call { (host : HostState) (leaf : Leaf HostState) → Comes came host leaf
        → Replies result host leaf }
    ensures answer { (host : HostState) (leaf : Leaf HostState) → Comes came host leaf
        → RepliesTo result host (goes leaf) }
{
    match came {
        Ok(reply) => reply,
        Err(Fault::Error(message)) => HostReply::Done {
            code: ERROR,
            result: message,
        },
        Err(Fault::NoMemory) => HostReply::NoMemory,
    }
}
