//! The replies that the server makes itself.

ghost use Rattle.std.specs.Prelude.{◌≡◌, IfOk};
ghost use Rattle.http_resp.specs.Replies.{plain_reply, text_reply, no_memory_bytes, busy_bytes};
ghost use Rattle.outside.specs.Sending.{Sends};

use crate::date::fixdate;
use crate::head::push_status;
use crate::response::Response;
use outside::{Sent, Sink, write_all};
use std::alloc::Global;
use txt_core::{NoMemory, Pairs, Text};

/// The reply for want of memory, but for its date.
const NO_MEMORY: [u8; 181] = *b"HTTP/1.1 503 Service Unavailable\r\n\
    Date: Thu, 01 Jan 1970 00:00:00 GMT\r\n\
    Server: AOLserver-profile/1\r\n\
    Content-Type: text/plain\r\n\
    Content-Length: 14\r\n\
    Connection: close\r\n\
    \r\n\
    out of memory\n";

/// The reply of a server that is busy, but for its date.
const BUSY: [u8; 191] = *b"HTTP/1.1 503 Service Unavailable\r\n\
    Date: Thu, 01 Jan 1970 00:00:00 GMT\r\n\
    Server: AOLserver-profile/1\r\n\
    Content-Type: text/plain\r\n\
    Content-Length: 24\r\n\
    Connection: close\r\n\
    \r\n\
    503 Service Unavailable\n";

/// Where the date begins in both.
const DATE_START: usize = 40;

/// Where it ends.
const DATE_END: usize = 69;

/// The reply of plain text with this status and this line as its body. Its only error is want of
/// memory.
#[inline(never)]
pub fn text_reply(alloc: Global, status: u16, line: &[u8]) -> Result<Response, NoMemory>
    ensures { IfOk result (λ response. response ≡ text_reply status line.now) }
{
    let mut body = Text::new(alloc, line)?;
    body.append(b"\n")?;
    Ok(Response {
        status,
        fields: Pairs::new(alloc),
        kind: Text::new(alloc, b"text/plain")?,
        body,
    })
}

/// The plain reply of a status: the code and its reason phrase as a line of plain text.
#[inline(never)]
pub fn plain(alloc: Global, status: u16) -> Result<Response, NoMemory>
    ensures { IfOk result (λ response. response ≡ plain_reply status) }
{
    let mut line = Vec::new(alloc);
    push_status(&mut line, status)?;
    text_reply(alloc, status, line.as_slice())
}

/// Writes the reply for want of memory: 503, `out of memory` and `Connection: close`. It takes no
/// memory. `WriteFault` comes only where the sink's count of faults rose.
pub fn reply_no_memory<K: Sink>(moment: u64, sink: &mut K) -> Sent
    ensures { Sends (K.taken sink.old) (K.faults sink.old) (no_memory_bytes moment) result
        (K.taken sink.new) (K.faults sink.new) }
{
    let mut reply = NO_MEMORY;
    reply[DATE_START..DATE_END].copy_from_slice(&fixdate(moment));
    write_all(sink, &reply)
}

/// Writes the reply of a server that is busy: the plain reply of 503 with `Connection: close`. It
/// takes no memory. `WriteFault` comes only where the sink's count of faults rose.
pub fn reply_busy<K: Sink>(moment: u64, sink: &mut K) -> Sent
    ensures { Sends (K.taken sink.old) (K.faults sink.old) (busy_bytes moment) result
        (K.taken sink.new) (K.faults sink.new) }
{
    let mut reply = BUSY;
    reply[DATE_START..DATE_END].copy_from_slice(&fixdate(moment));
    write_all(sink, &reply)
}
