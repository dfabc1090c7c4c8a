//! Parts beside one more thing, each in a thread.

ghost use Rattle.std.specs.Fork.{AcceptsEach, ChangesEach};
ghost use Rattle.std.specs.Thread.{IsSync};
ghost use denote.Param.Send.{IsSend};
ghost use Rattle.server_threads.specs.Parts.{RanEach};

use std::sync::Wait;
use std::thread::{self, Threads, join_mut};

/// Runs each part in a thread of its own, beside `acceptor` in this one, and gives what `acceptor`
/// gives when all have ended.
///
/// Where the system makes no thread, the parts run one after the other when `acceptor` has ended.
pub fn side_by_side<
    P: Send,
    F: Fn(usize, &mut P) + Sync,
    B,
    A: FnMut() -> B,
    R: Threads + Wait + Sync,
>(rt: &R, parts: &mut [P], job: &F, acceptor: &mut A) -> B
    requires parts { AcceptsEach F.Fn job.now parts.old }
    requires acceptor { A.pre acceptor.old }
    ensures parts { ChangesEach F.Fn job.now parts.old parts.new }
    ensures acceptor { A.step acceptor.old result acceptor.new }
{
    both(rt, parts, job, acceptor)
}

// The same, with what the parts did in one word, so that it is handed on as it stands.
fn both<P: Send, F: Fn(usize, &mut P) + Sync, B, A: FnMut() -> B, R: Threads + Wait + Sync>(
    rt: &R,
    parts: &mut [P],
    job: &F,
    acceptor: &mut A,
) -> B
    requires parts { AcceptsEach F.Fn job.now parts.old }
    requires acceptor { A.pre acceptor.old }
    ensures parts { RanEach F.Fn job.now parts.old parts.new }
    ensures acceptor { A.step acceptor.old result acceptor.new }
{
    let mut serving = ||
        requires { IsSync R.row × IsSync F.row × IsSend P.row × AcceptsEach F.Fn job.now parts.now }
        ensures { RanEach F.Fn job.entry.now parts.entry.now parts.exit.now }
    { run_each(rt, job, parts) };
    let (_, answer) = join_mut(rt, &mut serving, acceptor);
    answer
}

// Runs each part in a thread of its own.
fn run_each<P: Send, F: Fn(usize, &mut P) + Sync, R: Threads + Wait + Sync>(
    rt: &R,
    job: &F,
    parts: &mut [P],
)
    requires { AcceptsEach F.Fn job.now parts.old }
    ensures { RanEach F.Fn job.now parts.old parts.new }
{
    let threads = parts.len().max(1);
    thread::for_each_mut(rt, parts, threads, job);
}
