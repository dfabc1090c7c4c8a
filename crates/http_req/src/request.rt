//! A request, and what else an input may be.

use crate::boxed::BoxedRequest;
use std::alloc::AllocError;
use txt_core::{NoMemory, Pairs, Text, Words};

/// A request of HTTP/1.0 or HTTP/1.1 (RFC 9112), as it was sent.
#[derive(Debug, Drop)]
pub struct Request {
    /// GET, HEAD, POST, PUT or DELETE.
    pub method: Text,
    /// The target as it stands in the request line.
    pub target: Text,
    /// The path's segments, percent-decoded. None is empty, `.` or `..`, and none holds a slash,
    /// a backslash or byte 0.
    pub segments: Words,
    /// What follows the first `?` of the target, as it stands there.
    pub query: Text,
    /// The minor version: 0 for HTTP/1.0, 1 for HTTP/1.1.
    pub minor: u8,
    /// Names and values of the fields, in order, the values without the white space around them.
    pub fields: Pairs,
    /// The body: the bytes of its chunks in order, or as many bytes as Content-Length says, or none.
    pub body: Text,
    /// Where the request came from.
    pub peer: Text,
}

/// What the reading of a request found.
#[derive(Debug, Drop)]
pub enum Got {
    /// A request, whole.
    Request(BoxedRequest),
    /// The input ended before the first byte of a request.
    End,
    /// The input ended inside a request, of which so many bytes were there.
    Truncated { have: u64 },
    /// No request that is served here; the status of the reply.
    Refused { status: u16 },
    /// The source failed, and what it had given is no whole request and isn't refused.
    ReadFault,
    /// Memory ran out.
    NoMemory,
}

impl From<NoMemory> for Got {
    ghost use Rattle.std.specs.Prelude.{◌≡◌};
    ghost use Rattle.http_req.specs.declared.request.Got.TheVariants as answer;

    ghost from_gives = { λ _ got. got ≡ answer.NoMemory };

    fn from(_error: NoMemory) -> Got {
        Got::NoMemory
    }
}

impl From<AllocError> for Got {
    ghost use Rattle.std.specs.Prelude.{◌≡◌};
    ghost use Rattle.http_req.specs.declared.request.Got.TheVariants as answer;

    ghost from_gives = { λ _ got. got ≡ answer.NoMemory };

    fn from(_error: AllocError) -> Got {
        Got::NoMemory
    }
}
