//! One request, from its look to its interpreter's end.

ghost use Rattle.std.specs.Prelude.{◌≡◌, ◌+◌, [], ℕ, Some, min, IfOk, IfErr, OnErr, MatchOption};
ghost use Rattle.outside.specs.Faults.{last_count};
ghost use Rattle.natives.specs.Names.{names_of};
ghost use Rattle.blueprint.specs.States.{State as SeenState};
ghost use Rattle.serving.specs.Connections.{asks_close, is_head_only, closes};
ghost use Rattle.shared_state.specs.Cells.{AreOf, Serve};
ghost use Rattle.ictl.specs.Interps.{IsNew, StaysSound};
ghost use Rattle.http_req.specs.declared.request.Request.{Request as SeenRequest};
ghost use Rattle.ictl.specs.declared.interp.Interp.{Interp as SeenInterp};
ghost use Rattle.http_resp.specs.declared.response.Response.{Response as SeenResponse};
ghost use Rattle.http_resp.specs.Delivery.{Delivers};
ghost use Rattle.http_resp.specs.ResponseBytes.{response_bytes};
ghost use Rattle.ictl.specs.Falls.{StandsAt};
ghost use Rattle.worker.specs.Items.{bytes_of};
ghost use Rattle.worker.specs.Beginning.{BeginsRequest};
ghost use Rattle.worker.specs.Lists.{listed};
ghost use Rattle.worker.specs.Clean.{IsClean, edition_in};
ghost use Rattle.worker.specs.Runs.{edition_of};
ghost use Rattle.worker.specs.Sessions.{at, answered_by};
ghost use Rattle.worker.specs.Working.{RunsRequest, RequestSteps, RunsItem, BeginsNone, SentCauses, SinkCauses};

use crate::behind::{end_cut, end_whole};
use crate::heard::{AnswerList, Heard};
use crate::look::{Looked, look, renew};
use crate::reply::{
    Done, Manner, bytes_sent, count_all, end_behind, end_in_want, tell_want, write,
};
use crate::run::{answer_all, end_run};
use crate::served::{End, Served, ServedList};
use crate::worker::Worker;
use cmd_table::Steps;
use http_req::BoxedRequest;
use http_resp::{Sent, Writer, Wrote};
use ictl::{BoxedInterp, Next, Run};
use natives::Natives;
use outside::{Clock, Gate, Pages, Sink};
use serving::{asks_close, is_head_only};
use shared_state::{Passes, Shared};
use std::alloc::Global;
use std::sync::Wait;
use std::sync::ledger::Ledger;
use txt_core::moment_of;

/// Begins the run of a request in an interpreter as newly made.
fn begin<L: Ledger>(
    interp: BoxedInterp,
    natives: &Natives,
    request: BoxedRequest,
    moment: u64,
    steps: &mut Steps<L>,
) -> Run
    requires { IsNew (names_of natives.now) interp }
    ensures { BeginsRequest (names_of natives.now) request moment result.next steps.old steps.new
        result.interp interp }
{
    Run::start_request(interp, natives, request, moment, steps)
}

/// Writes the response at which a run stands, as the manner of its request has it; nothing where it stands
/// at none.
fn write_next<K: Sink>(
    alloc: Global,
    writer: &mut Writer,
    run: &Run,
    moment: u64,
    manner: Manner,
    answers: &AnswerList,
    sink: &mut K,
) -> Option<Wrote>
    ensures wrote { MatchOption result
        ((K.taken sink.new ≡ K.taken sink.old) × (K.faults sink.new ≡ K.faults sink.old))
        (λ wrote.
        (response : SeenResponse) × (run.now.next ≡ Next.Write response)
        × ((before : ℕ) → manner.answered ≡ min before last_count
        → Delivers (K.taken sink.old) (K.faults sink.old)
        (response_bytes response moment manner.head_only
        (closes manner.asks manner.requests (before + bytes_of answers.now)))
        wrote (K.taken sink.new) (K.faults sink.new))) }
    ensures stands { StandsAt run.now.next run.now.interp }
{
    match run.next() {
        Next::Write(response) => Some(write(
            alloc, writer, response, moment, manner, answers, sink,
        )),
        _ => None,
    }
}

/// Goes on with the run of a request that has begun, writes its response, and runs what comes behind it.
/// Where memory wants before the response is written, the named reply takes its place; where the sink
/// fails, nothing runs behind.
fn run_request<R: Wait, K: Sink, P: Pages, L: Ledger>(
    rt: &R,
    alloc: Global,
    natives: &Natives,
    shared: &Shared,
    passes: &mut Passes,
    run: &mut Run,
    writer: &mut Writer,
    moment: u64,
    manner: Manner,
    heard: &mut Heard,
    sink: &mut K,
    pages: &mut P,
    steps: &mut Steps<L>,
) -> Done
    requires cells { AreOf shared.now passes.old }
    requires none { heard.old.answers ≡ [] }
    ensures cells { AreOf shared.now passes.new }
    ensures blueprint { edition_in run.new.interp ≡ edition_in run.old.interp }
    ensures sound { StaysSound run.new.interp run.old.interp }
    ensures ran { let names = names_of natives.now in
        (request : SeenRequest) (old : SeenInterp) (first before : ℕ) (state : SeenState)
        → BeginsRequest names request moment run.old.next first steps.old run.old.interp old
        → manner.asks ≡ asks_close request → manner.head_only ≡ is_head_only request
        → edition_in old ≡ edition_of state → manner.answered ≡ min before last_count
        → RunsRequest names (P.held pages.old) state request moment manner.requests before
        result.sent passes.old passes.new (K.taken sink.old) (K.taken sink.new) (P.faults pages.old)
        (P.faults pages.new) first steps.new heard.new.answers result.outcome run.new.interp }
    ensures causes { SentCauses result.sent (K.faults sink.old) (K.faults sink.new) }
    ensures held { P.held pages.new ≡ P.held pages.old }
{
    answer_all(
        rt, alloc, natives, shared, passes, pages, run, moment, heard, steps,
    );
    let Some(wrote) = write_next(alloc, writer, run, moment, manner, &heard.answers, sink) else {
        return tell_want(moment, sink);
    };
    match wrote {
        Wrote::Whole { bytes } => Done {
            outcome: end_whole(
                rt, alloc, natives, shared, passes, pages, run, moment, heard, steps,
            ),
            sent: Sent::Whole { bytes },
        },
        Wrote::WriteFault { sent } => Done {
            outcome: end_cut(natives, run, steps),
            sent: Sent::WriteFault { sent },
        },
        Wrote::NoMemory => tell_want(moment, sink),
    }
}

/// Memory wanted before a run was begun, at this moment.
#[derive(Clone, Copy)]
struct Unbegun {
    moment: u64,
}

/// Looks at the blueprint, reads the clock, makes the interpreter one of that blueprint, and runs a
/// request on it, which is as newly made afterwards. Tells what was served, and what came of writing its
/// reply.
fn run_item<R: Wait, K: Sink, P: Pages, C: Clock, L: Ledger>(
    rt: &R,
    alloc: Global,
    natives: &Natives,
    shared: &Shared,
    worker: &mut Worker,
    passes: &mut Passes,
    request: BoxedRequest,
    manner: Manner,
    sink: &mut K,
    pages: &mut P,
    clock: &mut C,
    steps: &mut Steps<L>,
) -> Result<(Served, Sent), Unbegun>
    requires cells { Serve (names_of natives.now) shared.now passes.old }
    requires clean { IsClean (names_of natives.now) passes.old worker.old }
    requires manner { (manner.asks ≡ asks_close request)
        × (manner.head_only ≡ is_head_only request) }
    ensures cells { Serve (names_of natives.now) shared.now passes.new }
    ensures clean { IsClean (names_of natives.now) passes.new worker.new }
    ensures number { worker.new.number ≡ worker.old.number }
    ensures item { (count before : ℕ) → manner.requests ≡ count + 1
        → manner.answered ≡ min before last_count
        → IfOk result (λ r.
        RunsItem (names_of natives.now) (P.held pages.old) count before request r.1
        (at passes.old worker.old (C.held clock.old) (K.taken sink.old) (P.faults pages.old)
        steps.old)
        r.0
        (at passes.new worker.new (C.held clock.new) (K.taken sink.new) (P.faults pages.new)
        steps.new)) }
    ensures unbegun { IfErr result (λ u.
        BeginsNone (names_of natives.now) u.moment
        (at passes.old worker.old (C.held clock.old) (K.taken sink.old) (P.faults pages.old)
        steps.old)
        (at passes.new worker.new (C.held clock.new) (K.taken sink.new) (P.faults pages.new)
        steps.new)) }
    ensures causes { IfOk result (λ r. SentCauses r.1 (K.faults sink.old) (K.faults sink.new)) }
    ensures untouched { OnErr result (K.faults sink.new ≡ K.faults sink.old) }
    ensures held { P.held pages.new ≡ P.held pages.old }
{
    let Looked { turn, epoch, look } = look(rt, shared, passes, worker);
    let moment = moment_of(clock.moment());
    let Ok(interp) = renew(alloc, natives, worker, look, steps) else {
        return Err(Unbegun { moment });
    };
    let mut heard = Heard::new(alloc);
    let mut run = begin(interp, natives, request, moment, steps);
    let done = run_request(
        rt,
        alloc,
        natives,
        shared,
        passes,
        &mut run,
        &mut worker.writer,
        moment,
        manner,
        &mut heard,
        sink,
        pages,
        steps,
    );
    let (_, interp) = end_run(run, steps);
    worker.interp = Some(interp);
    let served = Served {
        turn,
        epoch,
        moment,
        answers: heard.answers,
        outcome: done.outcome,
        wrote: bytes_sent(done.sent),
    };
    Ok((served, done.sent))
}

/// Serves a request that was read: passes the gate, looks at the blueprint, reads the clock, makes the
/// interpreter one of that blueprint, and runs it. The interpreter is as newly made afterwards. Gives the
/// session's end, if this is it.
#[inline(never)]
pub(crate) fn serve_request<R: Wait, K: Sink, P: Pages, C: Clock, G: Gate, L: Ledger>(
    rt: &R,
    alloc: Global,
    natives: &Natives,
    shared: &Shared,
    worker: &mut Worker,
    passes: &mut Passes,
    request: BoxedRequest,
    sink: &mut K,
    pages: &mut P,
    clock: &mut C,
    gate: &G,
    served: &mut ServedList,
    answered: &mut u64,
    steps: &mut Steps<L>,
) -> Option<End>
    requires cells { Serve (names_of natives.now) shared.now passes.old }
    requires clean { IsClean (names_of natives.now) passes.old worker.old }
    requires counts { answered.old ≡ min (answered_by (listed served.old)) last_count }
    ensures cells { Serve (names_of natives.now) shared.now passes.new }
    ensures clean { IsClean (names_of natives.now) passes.new worker.new }
    ensures counts { answered.new ≡ min (answered_by (listed served.new)) last_count }
    ensures number { worker.new.number ≡ worker.old.number }
    ensures steps { RequestSteps (names_of natives.now) (P.held pages.old) request
        (at passes.old worker.old (C.held clock.old) (K.taken sink.old) (P.faults pages.old)
        steps.old)
        (listed served.old) result (listed served.new)
        (at passes.new worker.new (C.held clock.new) (K.taken sink.new) (P.faults pages.new)
        steps.new) }
    ensures causes { SinkCauses result (K.faults sink.old) (K.faults sink.new) }
    ensures held { P.held pages.new ≡ P.held pages.old }
{
    if served.reserve(1).is_err() {
        return Some(end_in_want(moment_of(clock.moment()), sink));
    }
    let place = served.len() as u64;
    let asked = request.get();
    let manner = Manner {
        asks: asks_close(asked),
        head_only: is_head_only(asked),
        requests: place + 1,
        answered: *answered,
    };
    gate.enter(rt, worker.number, place);
    match run_item(
        rt, alloc, natives, shared, worker, passes, request, manner, sink, pages, clock, steps,
    ) {
        Err(unbegun) => Some(end_in_want(unbegun.moment, sink)),
        Ok((item, sent)) => {
            let end = end_behind(item.outcome, sent, manner, &item.answers);
            *answered = count_all(manner.answered, &item.answers);
            served.push_reserved(item);
            end
        }
    }
}
