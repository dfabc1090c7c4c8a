//! Sessions: requests from a source, replies to a sink.

ghost use Rattle.std.specs.Prelude.{◌≡◌, min, [], Some};
ghost use Rattle.txt_core.specs.Names.{Moment};
ghost use Rattle.outside.specs.Faults.{last_count};
ghost use Rattle.natives.specs.Names.{names_of};
ghost use Rattle.http_req.specs.Readings.{left_of};
ghost use Rattle.shared_state.specs.Cells.{Serve, KeepUnits};
ghost use Rattle.worker.specs.Lists.{listed};
ghost use Rattle.worker.specs.Clean.{IsClean};
ghost use Rattle.worker.specs.Sessions.{at, answered_by, IsSession};
ghost use Rattle.worker.specs.Claims.{Promised, Causes, AreFew};
ghost use Rattle.worker.specs.Outside.{Ticks};
ghost use Rattle.worker.specs.Working.{SessionSteps, EndsInRefusal, SinkCauses, StepCauses};

use crate::item::serve_request;
use crate::reply::end_in_want;
use crate::served::{End, ServedList, Session};
use crate::worker::Worker;
use cmd_table::Steps;
use http_req::{Carry, Got, read_request};
use http_resp::{Wrote, plain, write_response};
use natives::Natives;
use outside::{Clock, Gate, Pages, Sink, Source};
use serving::MOST_REQUESTS;
use shared_state::{Passes, Shared};
use std::alloc::Global;
use std::sync::Wait;
use std::sync::ledger::Ledger;
use txt_core::{Text, moment_of};

/// Writes the plain reply of a refusal, at a moment of its own, and ends the session.
#[cold]
#[inline(never)]
fn refuse<K: Sink, C: Clock>(alloc: Global, status: u16, sink: &mut K, clock: &mut C) -> End
    ensures ends { (moment : Moment) × Ticks (C.held clock.old) moment (C.held clock.new)
        × EndsInRefusal status moment result (K.taken sink.old) (K.taken sink.new) }
    ensures causes { SinkCauses (Some result) (K.faults sink.old) (K.faults sink.new) }
{
    let moment = moment_of(clock.moment());
    let Ok(response) = plain(alloc, status) else {
        return end_in_want(moment, sink);
    };
    match write_response(alloc, &response, moment, false, true, sink) {
        Wrote::Whole { .. } => End::Refused { status },
        Wrote::WriteFault { sent } => End::WriteFault { sent },
        Wrote::NoMemory => end_in_want(moment, sink),
    }
}

/// Reads what comes next, and serves it where it is a request. Gives the session's end, if this is it.
fn serve_next<R: Wait, S: Source, K: Sink, P: Pages, C: Clock, G: Gate, L: Ledger>(
    rt: &R,
    alloc: Global,
    natives: &Natives,
    shared: &Shared,
    worker: &mut Worker,
    passes: &mut Passes,
    peer: &Text,
    source: &mut S,
    carry: &mut Carry,
    sink: &mut K,
    pages: &mut P,
    clock: &mut C,
    gate: &G,
    served: &mut ServedList,
    answered: &mut u64,
    steps: &mut Steps<L>,
) -> Option<End>
    requires cells { Serve (names_of natives.now) shared.now passes.old }
    requires clean { IsClean (names_of natives.now) passes.old worker.old }
    requires counts { answered.old ≡ min (answered_by (listed served.old)) last_count }
    ensures cells { Serve (names_of natives.now) shared.now passes.new }
    ensures clean { IsClean (names_of natives.now) passes.new worker.new }
    ensures counts { answered.new ≡ min (answered_by (listed served.new)) last_count }
    ensures number { worker.new.number ≡ worker.old.number }
    ensures steps { SessionSteps (names_of natives.now) (P.held pages.old) peer.now
        (left_of carry.old (S.rest source.old)) (left_of carry.new (S.rest source.new))
        (S.rest source.new)
        (at passes.old worker.old (C.held clock.old) (K.taken sink.old) (P.faults pages.old)
        steps.old)
        (listed served.old) result (listed served.new)
        (at passes.new worker.new (C.held clock.new) (K.taken sink.new) (P.faults pages.new)
        steps.new) }
    ensures causes { StepCauses result (S.faults source.old) (S.faults source.new)
        (K.faults sink.old) (K.faults sink.new) }
    ensures held { P.held pages.new ≡ P.held pages.old }
{
    match read_request(alloc, source, carry, peer) {
        Got::End => Some(End::Ended),
        Got::Truncated { have } => Some(End::Truncated { have }),
        Got::ReadFault => Some(End::ReadFault),
        Got::Refused { status } => Some(refuse(alloc, status, sink, clock)),
        Got::NoMemory => Some(end_in_want(moment_of(clock.moment()), sink)),
        Got::Request(request) => serve_request(
            rt, alloc, natives, shared, worker, passes, request, sink, pages, clock, gate, served,
            answered, steps,
        ),
    }
}

/// The session, request after request.
fn run_session<R: Wait, S: Source, K: Sink, P: Pages, C: Clock, G: Gate, L: Ledger>(
    rt: &R,
    alloc: Global,
    natives: &Natives,
    shared: &Shared,
    worker: &mut Worker,
    passes: &mut Passes,
    peer: &Text,
    source: &mut S,
    sink: &mut K,
    pages: &mut P,
    clock: &mut C,
    gate: &G,
    steps: &mut Steps<L>,
) -> Session
    requires cells { Serve (names_of natives.now) shared.now passes.old }
    requires clean { IsClean (names_of natives.now) passes.old worker.old }
    ensures cells { Serve (names_of natives.now) shared.now passes.new }
    ensures clean { IsClean (names_of natives.now) passes.new worker.new }
    ensures number { worker.new.number ≡ worker.old.number }
    ensures ran { IsSession (names_of natives.now) (P.held pages.old) peer.now
        (left_of [] (S.rest source.old)) (S.rest source.new)
        (at passes.old worker.old (C.held clock.old) (K.taken sink.old) (P.faults pages.old)
        steps.old)
        result.end (listed result.served)
        (at passes.new worker.new (C.held clock.new) (K.taken sink.new) (P.faults pages.new)
        steps.new) }
    ensures causes { Causes result.end (S.faults source.old) (S.faults source.new)
        (K.faults sink.old) (K.faults sink.new) }
    ensures few { AreFew (listed result.served) }
    ensures held { P.held pages.new ≡ P.held pages.old }
{
    let mut carry = Carry::new(alloc);
    let mut served = ServedList::new(alloc);
    let mut answered = 0;
    for _place in 0..MOST_REQUESTS {
        let end = serve_next(
            rt,
            alloc,
            natives,
            shared,
            worker,
            passes,
            peer,
            source,
            &mut carry,
            sink,
            pages,
            clock,
            gate,
            &mut served,
            &mut answered,
            steps,
        );
        if let Some(end) = end {
            return Session { end, served };
        }
    }
    // The hundredth request ends a session.
    unreachable!()
}

/// Serves the requests of a connection in order, from the source to the sink, and tells how that ended
/// and what was served. It is the only call by which a worker writes to a connection.
///
/// For each request the worker passes the gate, takes one turn on the blueprint, a look, and then reads
/// the clock once; a moment past the year 9999 counts as that year's last second. The reply is what an
/// interpreter newly made from the blueprint that the look found gives to the request at that moment and
/// with the answers that are told of it, whatever other threads do with their passes of the cells. That
/// blueprint is no older than any that this worker had seen. The answers are those of turns on the cells,
/// each legal at its place, and of the pages. Behind a reply that was written whole the trace filters and
/// cleanup scripts run. Afterwards the interpreter is as newly made.
///
/// That the gate is passed behind the reading and before the look, with this worker's number and the
/// item's place, that the clock is read behind the look, and that no turn is taken while a script runs or a
/// byte is read or written are in no clause: reading this crate shows it, and tests do.
///
/// # Ends
///
/// `Closing` where the last request asked for it or was of HTTP/1.0; else `Spent` where it was the
/// hundredth, or the answers passed 8,388,608 bytes; else by what comes next: `Ended`, `Truncated` with
/// the bytes that are there of a request, or `Refused`, whose plain reply was written.
///
/// `ReadFault` comes only where the source's count of faults rose; what the source gave past the last
/// request is then no byte, or less than a request. `WriteFault` comes only where the sink's count of
/// faults rose: a proper front of the last reply was written, so many bytes, and nothing ran behind it.
/// That reply is the last request's, that of a refusal, or the named reply of want of memory.
///
/// `NoMemory` is answered where memory ran out. Where a run was begun, its request is the last that is
/// told of, with the answers that were had, and has its response where that was written before, and else
/// the named reply. Where none was begun, the named reply stands behind the replies of all requests that
/// are told of.
pub fn serve_session<R: Wait, S: Source, K: Sink, P: Pages, C: Clock, G: Gate, L: Ledger>(
    rt: &R,
    alloc: Global,
    natives: &Natives,
    shared: &Shared,
    worker: &mut Worker,
    passes: &mut Passes,
    peer: &Text,
    source: &mut S,
    sink: &mut K,
    pages: &mut P,
    clock: &mut C,
    gate: &G,
    steps: &mut Steps<L>,
) -> Session
    requires cells { Serve (names_of natives.now) shared.now passes.old }
    requires clean { IsClean (names_of natives.now) passes.old worker.old }
    ensures cells { Serve (names_of natives.now) shared.now passes.new }
    ensures units { KeepUnits passes.old passes.new }
    ensures number { worker.new.number ≡ worker.old.number }

    // The interpreter is left as newly made.
    ensures clean { IsClean (names_of natives.now) passes.new worker.new }

    // The bytes, the entries of the passes, the moments, the steps, and that it is complete, all of one list of what stands behind the items.
    ensures promised { Promised (names_of natives.now) (P.held pages.old) peer.now
        (S.rest source.old) (S.rest source.new)
        (at passes.old worker.old (C.held clock.old) (K.taken sink.old) (P.faults pages.old)
        steps.old)
        result.end (listed result.served)
        (at passes.new worker.new (C.held clock.new) (K.taken sink.new) (P.faults pages.new)
        steps.new)
        (S.faults source.old) (S.faults source.new) (K.faults sink.old) (K.faults sink.new) }

    // The same step by step: where the worker stood between the items.
    ensures ran { IsSession (names_of natives.now) (P.held pages.old) peer.now
        (left_of [] (S.rest source.old)) (S.rest source.new)
        (at passes.old worker.old (C.held clock.old) (K.taken sink.old) (P.faults pages.old)
        steps.old)
        result.end (listed result.served)
        (at passes.new worker.new (C.held clock.new) (K.taken sink.new) (P.faults pages.new)
        steps.new) }
    ensures causes { Causes result.end (S.faults source.old) (S.faults source.new)
        (K.faults sink.old) (K.faults sink.new) }
    ensures few { AreFew (listed result.served) }
    ensures held { P.held pages.new ≡ P.held pages.old }
{
    let session = run_session(
        rt, alloc, natives, shared, worker, passes, peer, source, sink, pages, clock, gate, steps,
    );
    session
}
