//! Writing a response to a sink.

ghost use Rattle.std.specs.Prelude.{◌≡◌, []};
ghost use Rattle.http_resp.specs.Delivery.{Delivers};
ghost use Rattle.http_resp.specs.ResponseBytes.{response_bytes};

use crate::date::Dated;
use crate::head::{push_response, room_for};
use crate::response::Response;
use outside::{Sent, Sink, write_all};
use std::alloc::Global;
use std::marker::Model;
use txt_core::NoMemory;

/// What came of writing a response.
#[derive(Clone, Copy, Debug, PartialEq, Eq)]
pub enum Wrote {
    /// The sink took all of it, so many bytes.
    Whole { bytes: u64 },
    /// The sink failed when it had taken the first so many bytes, and fewer than all.
    WriteFault { sent: u64 },
    /// Memory ran out, and nothing was written.
    NoMemory,
}

/// The largest buffer that is kept from one response to the next.
const MOST_KEPT: usize = 65_536;

/// Writes responses, one after another. The buffer in which their bytes are made is kept, unless it is
/// large, and the date, as long as responses have the same second. Contracts see nothing of it, as what
/// is kept changes no response.
#[derive(Drop)]
pub struct Writer {
    buffer: Option<Vec<u8>>,
    date: Dated,
}

impl Model for Writer {
    ghost use Rattle.std.specs.Prelude.{⊤};

    ghost Value = { ⊤ };

    ghost view = { λ _. tt };
}

impl Writer {
    /// Nothing is kept yet. It takes no memory.
    pub fn new() -> Writer {
        Writer::at(0)
    }

    /// A writer with the date of this moment.
    fn at(moment: u64) -> Writer {
        Writer {
            buffer: None,
            date: Dated::at(moment),
        }
    }

    /// An empty buffer: the one that is kept, if there is one.
    fn take_buffer(&mut self, alloc: Global) -> Vec<u8>
        ensures { result.items ≡ [] }
    {
        match self.buffer.take() {
            Some(bytes) => emptied(bytes),
            None => Vec::new(alloc),
        }
    }

    /// Keeps a buffer, unless it is large.
    fn keep_buffer(&mut self, bytes: Vec<u8>) {
        if bytes.capacity() <= MOST_KEPT {
            self.buffer = Some(bytes);
        }
    }

    /// Writes the bytes of a response, as `write_response` does.
    pub fn write<K: Sink>(
        &mut self,
        alloc: Global,
        response: &Response,
        moment: u64,
        head_only: bool,
        close: bool,
        sink: &mut K,
    ) -> Wrote
        ensures { Delivers (K.taken sink.old) (K.faults sink.old)
            (response_bytes response.now moment head_only close) result (K.taken sink.new)
            (K.faults sink.new) }
    {
        let mut bytes = self.take_buffer(alloc);
        self.date.set(moment);
        let wrote = write_in(
            alloc, &mut bytes, response, &self.date, head_only, close, sink,
        );
        self.keep_buffer(bytes);
        wrote
    }
}

/// A buffer without its bytes.
fn emptied(bytes: Vec<u8>) -> Vec<u8>
    ensures { result.items ≡ [] }
{
    let mut bytes = bytes;
    bytes.clear();
    bytes
}

/// Makes the bytes of a response in a buffer that is empty, and writes them.
fn write_in<K: Sink>(
    alloc: Global,
    bytes: &mut Vec<u8>,
    response: &Response,
    date: &Dated,
    head_only: bool,
    close: bool,
    sink: &mut K,
) -> Wrote
    requires { bytes.old.items ≡ [] }
    ensures { Delivers (K.taken sink.old) (K.faults sink.old)
        (response_bytes response.now date.now.moment head_only close) result (K.taken sink.new)
        (K.faults sink.new) }
{
    if bytes.reserve(room_for(response)).is_err() {
        return Wrote::NoMemory;
    }
    match push_response(alloc, bytes, response, date, head_only, close) {
        Ok(()) => match write_all(sink, bytes.as_slice()) {
            Sent::Whole { bytes } => Wrote::Whole { bytes },
            Sent::WriteFault { sent } => Wrote::WriteFault { sent },
        },
        Err(NoMemory) => Wrote::NoMemory,
    }
}

/// Writes the bytes of a response, which `response_bytes` tells, in as many pieces as the sink takes.
///
/// `WriteFault` comes only where the sink's count of faults rose. After `NoMemory` the sink is as it
/// was.
pub fn write_response<K: Sink>(
    alloc: Global,
    response: &Response,
    moment: u64,
    head_only: bool,
    close: bool,
    sink: &mut K,
) -> Wrote
    ensures { Delivers (K.taken sink.old) (K.faults sink.old)
        (response_bytes response.now moment head_only close) result (K.taken sink.new)
        (K.faults sink.new) }
{
    Writer::at(moment).write(alloc, response, moment, head_only, close, sink)
}
