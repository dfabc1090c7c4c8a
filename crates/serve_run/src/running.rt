//! A run of the server.

ghost use Rattle.std.specs.Prelude.{◌≡◌, ◌≤◌, ◌+◌, ◌⊎◌, vec_len, IfOk, OnErr, MatchResult};
ghost use Rattle.std.specs.List.{All};
ghost use Rattle.txt_core.specs.Names.{Words};
ghost use Rattle.natives.specs.Names.{names_of};
ghost use Rattle.outside.specs.Nets.{IsNew};
ghost use Rattle.shared_state.specs.Cells.{Serve, AreWhole, HaveUnits, Leave};
ghost use Rattle.server_threads.specs.Stops.{Stops};
ghost use Rattle.txt_core.specs.Limits.{most_workers};
ghost use Rattle.serve_options.specs.Reading.{AreReadFrom};
ghost use Rattle.serve_run.specs.Serving.{Around, around_of, Ends, Serves};
ghost use Rattle.serve_run.specs.Stages.{IsEarlier, EndsUnstarted, ended_by};
ghost use Rattle.serve_run.specs.declared.ended.Ended.TheVariants as ways;

use crate::crew::{Crew, Own};
use crate::ended::{Ended, report};
use crate::start::{NotStarted, start};
use natives::Natives;
use outside::{Clock, Gate, Net, Pages, Sink};
use serve_options::{Options, Refused, read_options};
use server_threads::{Conn, Plan, Stop, serve_all};
use shared_state::{Passes, Shared};
use std::alloc::Global;
use std::net::{TcpListener, TcpStream};
use std::sync::Wait;
use std::thread::Threads;
use txt_core::{MOST_WORKERS, NoMemory, Text, Words};

/// What one thread has: passes, pages and a clock of its own.
fn own_of<P: Pages + Drop, C: Clock + Drop>(
    natives: &Natives,
    shared: &Shared,
    passes: &mut Passes,
    pages: &P,
    clock: &C,
) -> Result<Own<P, C>, NoMemory>
    requires cells { Serve (names_of natives.now) shared.now passes.old }
    requires units { HaveUnits 2 passes.old }
    ensures cells { Serve (names_of natives.now) shared.now passes.new }
    ensures left { Leave passes.old passes.new }
    ensures own { IfOk result (λ own. Serve (names_of natives.now) shared.now own.passes) }
{
    let part = shared.split(passes)?;
    Ok(Own {
        passes: part,
        pages: pages.copy()?,
        clock: clock.copy()?,
    })
}

/// What each of so many threads has.
fn owns_of<P: Pages + Drop, C: Clock + Drop>(
    alloc: Global,
    natives: &Natives,
    shared: &Shared,
    threads: u16,
    passes: &mut Passes,
    pages: &P,
    clock: &C,
) -> Result<Vec<Own<P, C>>, NoMemory>
    requires cells { Serve (names_of natives.now) shared.now passes.old }
    requires whole { AreWhole passes.old }
    requires few { threads ≤ most_workers + 1 }
    ensures cells { Serve (names_of natives.now) shared.now passes.new }
    ensures owns { IfOk result (λ owns.
        All (λ own. Serve (names_of natives.now) shared.now own.passes) owns.items) }
    ensures few { IfOk result (λ owns. vec_len owns ≤ most_workers + 1) }
{
    let mut owns = Vec::new(alloc);
    for _given in 0..threads {
        let own = own_of(natives, shared, passes, pages, clock)?;
        owns.push(own)?;
    }
    Ok(owns)
}

/// Serves what a new net gives, with workers and a keeper of time that have copies of the pages and of the
/// clock. Want of memory comes before a connection is accepted.
fn serve_net<
    N: Net,
    P: Pages + Send + Drop,
    C: Clock + Send + Drop,
    G: Gate + Sync,
    R: Threads
        + Wait
        + Sync
        + std::rt::Clock
        + std::net::Net<Listener = TcpListener, Stream = TcpStream>,
>(
    rt: &R,
    crew: &Crew<'_, G>,
    options: &Options,
    passes: Passes,
    pages: &P,
    clock: &C,
    net: &mut N,
) -> Result<Stop, NoMemory>
    requires cells { Serve (names_of crew.now.natives.now) crew.now.shared.now passes }
    requires whole { AreWhole passes }
    requires new { IsNew (N.state net.old) }
    ensures stops { IfOk result (λ stop.
        Stops options.now.connections (N.state net.old) stop (N.state net.new)) }
    ensures none { OnErr result (N.state net.new ≡ N.state net.old) }
{
    // One keeps the time, and the others serve.
    let threads = options.workers.clamp(1, MOST_WORKERS) + 1;
    let mut passes = passes;
    let owns = owns_of(
        crew.alloc,
        crew.natives,
        crew.shared,
        threads,
        &mut passes,
        pages,
        clock,
    )?;
    let mut own = Own {
        passes,
        pages: pages.copy()?,
        clock: clock.copy()?,
    };
    let plan = Plan {
        room: usize::from(options.queue).max(1),
        connections: u64::from(options.connections),
    };
    serve_all::<Conn<N::S, N::K>, Own<P, C>, Crew<'_, G>, N, R>(
        rt, crew.alloc, crew, plan, owns, &mut own, net,
    )
}

/// How a run ends whose start script had no good end.
fn unstarted(alloc: Global, path: &Text, why: NotStarted) -> Ended
    ensures { EndsUnstarted path.now why result }
{
    match why {
        NotStarted::Fault(fault) => match path.copy(alloc) {
            Ok(path) => Ended::BadStart { path, fault },
            Err(_) => Ended::NoMemory,
        },
        NotStarted::NoMemory => Ended::NoMemory,
    }
}

/// How a run ends whose acceptor stopped so.
fn ended(served: Result<Stop, NoMemory>) -> Ended
    ensures { MatchResult served (λ stop. result ≡ ended_by stop) (λ error.
        result ≡ ways.NoMemory) }
{
    match served {
        Ok(Stop::Closed | Stop::Reached) => Ended::Done,
        Ok(Stop::Fault) => Ended::NetFault,
        Ok(Stop::NoMemory) | Err(_) => Ended::NoMemory,
    }
}

/// Runs the start script, on a net that listens, and serves.
fn begin<
    N: Net,
    P: Pages + Send + Drop,
    C: Clock + Send + Drop,
    G: Gate + Sync,
    R: Threads
        + Wait
        + Sync
        + std::rt::Clock
        + std::net::Net<Listener = TcpListener, Stream = TcpStream>,
>(
    rt: &R,
    alloc: Global,
    natives: &Natives,
    options: &Options,
    net: &mut N,
    pages: &mut P,
    clock: &mut C,
    gate: &G,
) -> Ended
    requires new { IsNew (N.state net.old) }
    ensures { (words : Words) (before : Around) → AreReadFrom words options.now
        → IsEarlier before
        (around_of (N.state net.old) (P.held pages.old) (P.faults pages.old) (C.held clock.old))
        → Ends (names_of natives.now) words before result
        (around_of (N.state net.new) (P.held pages.new) (P.faults pages.new) (C.held clock.new)) }
{
    let Ok((shared, mut passes)) = Shared::new(alloc, natives) else {
        return Ended::NoMemory;
    };
    if let Err(why) = start(
        rt,
        alloc,
        natives,
        &shared,
        &mut passes,
        &options.start,
        pages,
        clock,
    ) {
        return unstarted(alloc, &options.start, why);
    }
    let crew = Crew {
        alloc,
        natives,
        shared: &shared,
        gate,
    };
    let served = serve_net(rt, &crew, options, passes, pages, clock, net);
    ended(served)
}

/// Reads the options, listens, runs the start script, and serves.
fn serve<
    N: Net,
    P: Pages + Send + Drop,
    C: Clock + Send + Drop,
    G: Gate + Sync,
    R: Threads
        + Wait
        + Sync
        + std::rt::Clock
        + std::net::Net<Listener = TcpListener, Stream = TcpStream>,
>(
    rt: &R,
    alloc: Global,
    natives: &Natives,
    words: &Words,
    net: &mut N,
    pages: &mut P,
    clock: &mut C,
    gate: &G,
) -> Ended
    requires new { IsNew (N.state net.old) }
    ensures { Ends (names_of natives.now) words.now
        (around_of (N.state net.old) (P.held pages.old) (P.faults pages.old) (C.held clock.old))
        result
        (around_of (N.state net.new) (P.held pages.new) (P.faults pages.new) (C.held clock.new)) }
{
    let options = match read_options(alloc, words) {
        Ok(options) => options,
        Err(Refused::BadWords) => return Ended::BadWords,
        Err(Refused::NoMemory) => return Ended::NoMemory,
    };
    if pages.root(&options.root).is_err() {
        return Ended::NoMemory;
    }
    if !net.listen(rt, &options.listen) {
        return Ended::NetFault;
    }
    begin(rt, alloc, natives, &options, net, pages, clock, gate)
}

/// Serves what a new net gives, as the words say, the first of which stands for the program's name, and
/// gives the number of the status with which the program ends.
///
/// The pages get their root, the net listens, and the start script runs alone, as a script that makes
/// definitions. Then workers serve the connections that the net gives, and one keeps the time: it runs
/// what is due, again and again. They have copies of the pages and of the clock. A connection for which
/// the queue has no room is told that the server is busy. When the net has ended, or as many connections
/// were given as the words ask for, and also where the net fails or memory runs out, what was accepted is
/// served to its end, and the schedule is stopped.
///
/// # Statuses
///
/// One line goes to errors unless all went well, and a fault of errors changes no status.
///
/// - 0: the net has ended, or the number of connections was reached.
/// - 2, `bad words`: `clap` finds a fault in the words, or one isn't UTF-8. Nothing was done. Such words
///   end with no other status than this and 5.
/// - 5, `out of memory`.
/// - 6, `start: ` and a text: the page of the start script isn't there, can't be read, which comes only
///   where the pages' count of faults rose, or is over 1,048,576 bytes; or the script ended in an error,
///   whose text that is, cost more than its budget, or stood too deep.
/// - 7, `net fault`: only where the net's count of faults rose.
pub fn run_serve<
    E: Sink,
    N: Net,
    P: Pages + Send + Drop,
    C: Clock + Send + Drop,
    G: Gate + Sync,
    R: Threads
        + Wait
        + Sync
        + std::rt::Clock
        + std::net::Net<Listener = TcpListener, Stream = TcpStream>,
>(
    rt: &R,
    alloc: Global,
    natives: &Natives,
    words: &Words,
    net: &mut N,
    pages: &mut P,
    clock: &mut C,
    gate: &G,
    errors: &mut E,
) -> u8
    requires new { IsNew (N.state net.old) }
    ensures { Serves (names_of natives.now) words.now
        (around_of (N.state net.old) (P.held pages.old) (P.faults pages.old) (C.held clock.old))
        result
        (around_of (N.state net.new) (P.held pages.new) (P.faults pages.new) (C.held clock.new))
        (E.taken errors.old) (E.faults errors.old) (E.taken errors.new) (E.faults errors.new) }
{
    let ended = serve(rt, alloc, natives, words, net, pages, clock, gate);
    report(alloc, &ended, errors)
}
