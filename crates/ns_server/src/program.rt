//! The commands of the program, over any streams.

ghost use Rattle.std.specs.Prelude.{◌≡◌, ◌<◌, ◌≤◌, ◌↔◌, ℕ, IsTrue, MatchOption, drop, length};
ghost use Rattle.natives.specs.Names.{names_of};
ghost use Rattle.outside.specs.Sending.{Sends};
ghost use Rattle.outside.specs.declared.sending.Sent.{Sent};
ghost use Rattle.ns_server.specs.Statuses.{number_of, line_of, rehearse_words};
ghost use Rattle.load_gen.specs.Load.{most_requests};
ghost use Rattle.rehearse.specs.Summary.{summary};
ghost use Rattle.ns_server.specs.Answers.{WritesSummary};
ghost use Rattle.outside.specs.Nets.{IsNew};
ghost use Rattle.serve_run.specs.Serving.{around_of};
ghost use Rattle.ns_server.specs.Running.{Streams, streams_of, Ends, AsksLoad, AsksServer, LoadMeans, Runs};

use crate::made::MadeFile;
use crate::status::Status;
use cmd_table::Steps;
use load_gen::MOST_REQUESTS;
use natives::Natives;
use outside::{Clock, Gate, Net, Pages, Sent, Sink, Source, write_all};
use rehearse::{Counted, Tally, count_listing, read_number, rehearse};
use serve_run::run_serve;
use std::alloc::Global;
use std::net::{TcpListener, TcpStream};
use std::sync::Wait;
use std::sync::ledger::Ledger;
use std::thread::Threads;
use txt_core::Words;

/// The word of a rehearsal.
const REHEARSE: &[u8] = b"rehearse";

/// The first word of a load.
const LOAD: &[u8] = b"load";

/// The first word of the server.
pub const SERVE: &[u8] = b"serve";

/// Whether the words are those of a rehearsal.
fn asks_rehearsal(words: &Words) -> bool
    ensures { IsTrue result ↔ (words.now ≡ rehearse_words) }
{
    match words.as_slice() {
        [word] => word.bytes() == REHEARSE,
        _ => false,
    }
}

/// How many requests the words ask a load of; `None` where they ask none.
fn requests_asked(words: &Words) -> Option<u32>
    ensures { MatchOption result ((requests : ℕ) → ¬ (AsksLoad words.now requests)) (λ requests.
        AsksLoad words.now requests) }
{
    let [word, count] = words.as_slice() else {
        return None;
    };
    if word.bytes() != LOAD {
        return None;
    }
    let requests = read_number(count.bytes())?;
    if requests < 1 || requests > u64::from(MOST_REQUESTS) {
        return None;
    }
    Some(requests as u32)
}

/// Writes the four lines that tell of so many requests and what was counted of their listing.
fn write_summary<K: Sink>(alloc: Global, requests: u32, tally: Tally, output: &mut K) -> Status
    ensures { WritesSummary (summary requests tally) (K.taken output.old) (K.faults output.old)
        result (K.taken output.new) (K.faults output.new) }
{
    let Ok(text) = tally.summary(alloc, requests) else {
        return Status::NoMemory;
    };
    match write_all(output, text.bytes()) {
        Sent::Whole { .. } => Status::Done,
        Sent::WriteFault { .. } => Status::WriteFault,
    }
}

/// Plays the file of so many requests, which holds events and nothing else and is made as it is read, and
/// writes what is counted of its listing.
fn run_load<K: Sink, L: Ledger>(
    alloc: Global,
    natives: &Natives,
    requests: u32,
    output: &mut K,
    steps: &mut Steps<L>,
) -> Status
    requires some { 1 ≤ requests }
    requires few { requests ≤ most_requests }
    ensures { (before : Streams) → before.output ≡ K.taken output.old
        → before.write_faults ≡ K.faults output.old
        → LoadMeans (names_of natives.now) result requests before
        (record before { output = K.taken output.new; write_faults = K.faults output.new }) }
{
    let mut file = MadeFile::new(alloc, requests);
    match count_listing(alloc, natives, &mut file, steps) {
        Counted::Done(tally) => write_summary(alloc, requests, tally, output),
        Counted::BadEvent { .. } => unreachable!(),
        // the file fails for want of memory alone
        Counted::ReadFault | Counted::NoMemory => Status::NoMemory,
    }
}

/// Writes the line of a status on errors, and gives its number. It takes no memory. A fault of errors
/// changes no status.
pub fn report<E: Sink>(errors: &mut E, status: Status) -> u8
    ensures number { result ≡ number_of status }
    ensures tells { (sent : Sent)
        × Sends (E.taken errors.old) (E.faults errors.old) (line_of status) sent
        (E.taken errors.new) (E.faults errors.new) }
{
    let line = status.line();
    let _ = write_all(errors, line.as_str().as_bytes());
    status.number()
}

/// Rehearses the file of events on the input, where the words are exactly `rehearse`; or, where they are
/// `load` and a number from 1 to 100,000, a file of so many requests, of whose listing four lines are
/// counted. It gives the number of the status with which the program ends. Scripts have the natives beside
/// their other commands.
///
/// The listing or the four lines go to the output, and one line to errors unless all was read and written. A fault of
/// errors changes no status. The statuses: 0, all was read and written; 1, a bad event; 2, other words, and
/// nothing was read or written; 3, a fault of the input; 4, a fault of the output; 5, want of memory.
pub fn run_rehearse<S: Source, K: Sink, E: Sink, L: Ledger>(
    alloc: Global,
    natives: &Natives,
    words: &Words,
    input: &mut S,
    output: &mut K,
    errors: &mut E,
    steps: &mut Steps<L>,
) -> u8
    ensures { Ends (names_of natives.now) words.now
        (streams_of (S.rest input.old) (S.faults input.old) (K.taken output.old)
        (K.faults output.old) (E.taken errors.old) (E.faults errors.old))
        result
        (streams_of (S.rest input.new) (S.faults input.new) (K.taken output.new)
        (K.faults output.new) (E.taken errors.new) (E.faults errors.new)) }
{
    if let Some(requests) = requests_asked(words) {
        let status = run_load(alloc, natives, requests, output, steps);
        return report(errors, status);
    }
    if !asks_rehearsal(words) {
        return report(errors, Status::BadWords);
    }
    let answer = rehearse(alloc, natives, input, output, steps);
    report(errors, answer.into())
}

/// Whether the words ask for the server.
pub fn asks_server(words: &Words) -> bool
    ensures { IsTrue result ↔ AsksServer words.now }
{
    match words.get(0) {
        Some(word) => word.bytes() == SERVE,
        None => false,
    }
}

/// Does the command that the words name, and gives the number of the status with which the program ends:
/// `serve` with options serves what a new net gives, and each other command is that of `run_rehearse`,
/// which counts its steps in the first counter. The other counters stay.
pub fn run<
    S: Source,
    K: Sink,
    E: Sink,
    N: Net,
    P: Pages + Send + Drop,
    C: Clock + Send + Drop,
    G: Gate + Sync,
    L: Ledger,
    R: Threads
        + Wait
        + Sync
        + std::rt::Clock
        + std::net::Net<Listener = TcpListener, Stream = TcpStream>,
>(
    rt: &R,
    alloc: Global,
    natives: &Natives,
    words: &Words,
    input: &mut S,
    output: &mut K,
    errors: &mut E,
    net: &mut N,
    pages: &mut P,
    clock: &mut C,
    gate: &G,
    steps: &mut [Steps<L>],
) -> u8
    requires counters { 0 < length steps.old }
    requires new { IsNew (N.state net.old) }
    ensures runs { Runs (names_of natives.now) words.now
        (streams_of (S.rest input.old) (S.faults input.old) (K.taken output.old)
        (K.faults output.old) (E.taken errors.old) (E.faults errors.old))
        (around_of (N.state net.old) (P.held pages.old) (P.faults pages.old) (C.held clock.old))
        result
        (streams_of (S.rest input.new) (S.faults input.new) (K.taken output.new)
        (K.faults output.new) (E.taken errors.new) (E.faults errors.new))
        (around_of (N.state net.new) (P.held pages.new) (P.faults pages.new) (C.held clock.new)) }
    ensures others { drop 1 steps.new ≡ drop 1 steps.old }
{
    if asks_server(words) {
        return run_serve(rt, alloc, natives, words, net, pages, clock, gate, errors);
    }
    let Some(first) = steps.first_mut() else {
        unreachable!()
    };
    run_rehearse(alloc, natives, words, input, output, errors, first)
}
