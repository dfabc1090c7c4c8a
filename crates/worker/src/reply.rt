//! Replies: what one goes by, how it is written, and what follows it.

ghost use Rattle.std.specs.Prelude.{◌≡◌, ◌+◌, ℕ, Some, min};
ghost use Rattle.outside.specs.Faults.{last_count};
ghost use Rattle.http_resp.specs.Delivery.{Delivers};
ghost use Rattle.http_resp.specs.Replies.{no_memory_bytes};
ghost use Rattle.http_resp.specs.ResponseBytes.{response_bytes};
ghost use Rattle.serving.specs.Connections.{closes};
ghost use Rattle.worker.specs.Items.{bytes_of};
ghost use Rattle.worker.specs.Working.{bytes_sent, way_of, end_behind, SendsReply, EndsInWant, SentCauses, SinkCauses};

use crate::heard::AnswerList;
use crate::served::{End, ServedOutcome};
use http_resp::{Sent, SharedResponse, Writer, Wrote, reply_no_memory};
use ictl::Next;
use outside::Sink;
use serving::{Behind, after_request, closes, counted};
use std::alloc::Global;
use tcl_eval::Outcome;

/// What a reply goes by beside its response.
#[derive(Clone, Copy)]
pub(crate) struct Manner {
    /// The request wants its connection closed.
    pub asks: bool,
    /// Only the head goes out.
    pub head_only: bool,
    /// The number of the request on its connection, from 1.
    pub requests: u64,
    /// How many bytes the answers of the requests before it had.
    pub answered: u64,
}

/// What came of a request.
#[derive(Clone, Copy)]
pub(crate) struct Done {
    pub outcome: ServedOutcome,
    pub sent: Sent,
}

/// How many bytes of answers there are, with those of a list.
#[tactic(auto, using(crate::proofs::Counted::counted_more, crate::proofs::Counted::counted_all))]
pub(crate) fn count_all(answered: u64, answers: &AnswerList) -> u64
    ensures { (before : ℕ) → answered ≡ min before last_count
        → result ≡ min (before + bytes_of answers.now) last_count }
{
    let mut count = answered;
    for answer in answers.as_slice() {
        count = counted(count, answer);
    }
    count
}

/// How a run ended that came to this behind its response.
pub(crate) fn outcome_of(next: &Next) -> ServedOutcome
    ensures { result ≡ way_of next.now }
{
    match next {
        Next::Ended(Outcome::Done { .. }) => ServedOutcome::Answered,
        Next::Ended(Outcome::Spent) => ServedOutcome::Spent,
        Next::Ended(Outcome::TooDeep) => ServedOutcome::TooDeep,
        _ => ServedOutcome::NoMemory,
    }
}

/// Writes the named reply of want of memory.
#[cold]
#[inline(never)]
pub(crate) fn tell_want<K: Sink>(moment: u64, sink: &mut K) -> Done
    ensures outcome { result.outcome ≡ ServedOutcome.NoMemory }
    ensures sent { SendsReply result.sent (no_memory_bytes moment) (K.taken sink.old)
        (K.taken sink.new) }
    ensures causes { SentCauses result.sent (K.faults sink.old) (K.faults sink.new) }
{
    Done {
        outcome: ServedOutcome::NoMemory,
        sent: reply_no_memory(moment, sink),
    }
}

/// Writes a response as the manner of its request has it, at its moment.
#[tactic(auto, using(crate::proofs::Counted::closes_capped))]
pub(crate) fn write<K: Sink>(
    alloc: Global,
    writer: &mut Writer,
    response: &SharedResponse,
    moment: u64,
    manner: Manner,
    answers: &AnswerList,
    sink: &mut K,
) -> Wrote
    ensures { (before : ℕ) → manner.answered ≡ min before last_count
        → Delivers (K.taken sink.old) (K.faults sink.old)
        (response_bytes response.now moment manner.head_only
        (closes manner.asks manner.requests (before + bytes_of answers.now)))
        result (K.taken sink.new) (K.faults sink.new) }
{
    let answered = count_all(manner.answered, answers);
    let close = closes(manner.asks, manner.requests, answered);
    writer.write(alloc, response.get(), moment, manner.head_only, close, sink)
}

/// Writes the named reply where no run was begun, and ends the session.
#[cold]
#[inline(never)]
pub(crate) fn end_in_want<K: Sink>(moment: u64, sink: &mut K) -> End
    ensures ends { EndsInWant result moment (K.taken sink.old) (K.taken sink.new) }
    ensures causes { SinkCauses (Some result) (K.faults sink.old) (K.faults sink.new) }
{
    match reply_no_memory(moment, sink) {
        Sent::Whole { .. } => End::NoMemory,
        Sent::WriteFault { sent } => End::WriteFault { sent },
    }
}

/// How many bytes went out.
pub(crate) fn bytes_sent(sent: Sent) -> u64
    ensures { result ≡ bytes_sent sent }
{
    match sent {
        Sent::Whole { bytes } => bytes,
        Sent::WriteFault { sent } => sent,
    }
}

/// Why a session ends behind a request, if it does.
#[tactic(auto, using(crate::proofs::Counted::after_capped))]
pub(crate) fn end_behind(
    outcome: ServedOutcome,
    sent: Sent,
    manner: Manner,
    answers: &AnswerList,
) -> Option<End>
    ensures { (before : ℕ) → manner.answered ≡ min before last_count
        → result
        ≡ end_behind outcome sent manner.asks manner.requests (before + bytes_of answers.now) }
{
    if let Sent::WriteFault { sent } = sent {
        return Some(End::WriteFault { sent });
    }
    if outcome == ServedOutcome::NoMemory {
        return Some(End::NoMemory);
    }
    let answered = count_all(manner.answered, answers);
    match after_request(manner.asks, manner.requests, answered) {
        Behind::GoesOn => None,
        Behind::Closing => Some(End::Closing),
        Behind::Spent => Some(End::Spent),
    }
}
