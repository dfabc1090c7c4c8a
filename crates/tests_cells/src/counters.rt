//! A counter in a cell: what no clause says of the calls.
ghost use Rattle.std.specs.Prelude.{◌≡◌, ◌≤◌, ◌+◌, IfOk};
ghost use Rattle.std.specs.List.{All};
ghost use Rattle.turn_cell.specs.Cells.{IsOf, pass_view};
ghost use Rattle.tests_cells.specs.Counts.{TakesCount};

use std::alloc::Global;
use std::sync::Wait;
use std::thread::{self, Threads, join};
use turn_cell::{Obj, Pass, TurnCell};
use txt_core::NoMemory;

/// A count, which stops at 2^64 - 1.
#[derive(Drop)]
struct Counter {
    value: u64,
}

/// Counts one more. The reply is the new value.
#[derive(Drop)]
struct Increment;

impl Obj for Counter {
    ghost use Rattle.std.specs.Prelude.{◌≡◌, ◌≤◌, ◌<◌, ◌+◌};
    ghost use Rattle.std.proofs.Common.{arith};

    type Call = Increment;

    type Reply = u64;

    ghost allowed = { λ s. Unit {0} };

    ghost reaches = { λ s t. s.value ≤ t.value };

    ghost step = { λ s call reply t. (reply ≡ t.value) × (s.value ≤ t.value) × (s.value < 18446744073709551615 → t.value ≡ s.value + 1) };

    ghost sample = { record { value = 0 } };

    fn shown(&self) {}

    fn act(&mut self, _call: Increment) -> u64 {
        if self.value < u64::MAX {
            self.value += 1;
        }
        self.value
    }

    ghost sample_allowed = { tt };

    ghost reaches_self = { λ s. Prim.omega arith };

    ghost reaches_later = { λ s t u a b. Prim.omega arith };

    ghost step_reaches = { λ s c r t ok h. h.1 };
}

/// A pass after some counts, and whether each reply was greater than the one before it.
#[derive(Drop)]
struct Counted {
    pass: Pass<Counter>,
    rising: bool,
}

fn count<R: Wait>(rt: &R, cell: &TurnCell<Counter>, pass: Pass<Counter>, times: u64) -> Counted
    requires { IsOf cell.now pass }
    ensures cell { IsOf cell.now result.pass }
    ensures count { TakesCount (pass_view pass) times (pass_view result.pass) }
{
    let mut pass = pass;
    let mut rising = true;
    let mut last = 0;
    for _done in 0..times {
        let reply = cell.turn(rt, &mut pass, Increment).reply;
        rising = rising && last < reply;
        last = reply;
    }
    Counted { pass, rising }
}

fn count_in_two<R: Threads + Wait + Sync>(
    rt: &R,
    cell: &TurnCell<Counter>,
    first: Pass<Counter>,
    second: Pass<Counter>,
) -> (Counted, Counted)
    requires { IsOf cell.now first × IsOf cell.now second }
    ensures first { IsOf cell.now result.0.pass
        × TakesCount (pass_view first) 100 (pass_view result.0.pass) }
    ensures second { IsOf cell.now result.1.pass
        × TakesCount (pass_view second) 100 (pass_view result.1.pass) }
{
    join(
        rt,
        move ||
            requires { IsOf cell.now first }
            ensures { IsOf cell.entry.now result.pass
                × TakesCount (pass_view first) 100 (pass_view result.pass) }
        { count(rt, cell, first, 100) },
        move ||
            requires { IsOf cell.now second }
            ensures { IsOf cell.entry.now result.pass
                × TakesCount (pass_view second) 100 (pass_view result.pass) }
        { count(rt, cell, second, 100) },
    )
}

/// The count after four threads with a pass each have counted 100 times, and whether each thread's
/// replies rose.
fn count_in_four<R: Threads + Wait + Sync>(rt: &R, alloc: Global) -> Result<(u64, bool), NoMemory>
    ensures { IfOk result (λ r. r.0 ≡ 400) }
{
    let (cell, mut first) = TurnCell::new(alloc, Counter { value: 0 })?;
    let second = cell.split(&mut first)?;
    let third = cell.split(&mut first)?;
    let fourth = cell.split(&mut first)?;
    let shared = &cell;
    let ((first, second), (third, fourth)) = join(
        rt,
        move ||
            requires { IsOf shared.now first × IsOf shared.now second }
            ensures { (IsOf shared.entry.now result.0.pass
                × TakesCount (pass_view first) 100 (pass_view result.0.pass))
                × (IsOf shared.entry.now result.1.pass
                × TakesCount (pass_view second) 100 (pass_view result.1.pass)) }
        { count_in_two(rt, shared, first, second) },
        move ||
            requires { IsOf shared.now third × IsOf shared.now fourth }
            ensures { (IsOf shared.entry.now result.0.pass
                × TakesCount (pass_view third) 100 (pass_view result.0.pass))
                × (IsOf shared.entry.now result.1.pass
                × TakesCount (pass_view fourth) 100 (pass_view result.1.pass)) }
        { count_in_two(rt, shared, third, fourth) },
    );
    let rising = first.rising && second.rising && third.rising && fourth.rising;
    let mut pass = first.pass;
    cell.join(&mut pass, second.pass);
    cell.join(&mut pass, third.pass);
    cell.join(&mut pass, fourth.pass);
    let counter = cell.close(rt, pass);
    Ok((counter.value, rising))
}

#[test]
fn four_threads(rt: HostRuntime) {
    assert!(rt; count_in_four(&rt, rt.alloc()) == Ok((400, true)));
}

/// A thread's part of a count by many.
#[derive(Drop)]
struct Part {
    pass: Pass<Counter>,
    rising: bool,
}

impl Part {
    /// Counts so often.
    fn count<R: Wait>(&mut self, rt: &R, cell: &TurnCell<Counter>, times: u64)
        requires { IsOf cell.now self.old.pass }
        ensures { IsOf cell.now self.new.pass }
    {
        let mut last = 0;
        for _done in 0..times {
            let reply = cell.turn(rt, &mut self.pass, Increment).reply;
            self.rising = self.rising && last < reply;
            last = reply;
        }
    }
}

/// A part for each of so many threads.
fn parts_of(
    alloc: Global,
    cell: &TurnCell<Counter>,
    pass: &mut Pass<Counter>,
    threads: u16,
) -> Result<Vec<Part>, NoMemory>
    requires cell { IsOf cell.now pass.old }
    requires units { threads + 2 ≤ (pass_view pass.old).units }
    ensures cell { IsOf cell.now pass.new }
    ensures parts { IfOk result (λ parts. All (λ part. IsOf cell.now part.pass) parts.items) }
{
    let mut parts = Vec::new(alloc);
    for _number in 0..threads {
        parts.push(Part {
            pass: cell.split(pass)?,
            rising: true,
        })?;
    }
    Ok(parts)
}

/// Each part counts in a thread of its own.
fn count_each<R: Threads + Wait + Sync>(
    rt: &R,
    cell: &TurnCell<Counter>,
    parts: &mut [Part],
    times: u64,
)
    requires { All (λ part. IsOf cell.now part.pass) parts.old }
{
    let threads = parts.len().max(1);
    thread::for_each_mut(rt, parts, threads, &|_, part| part.count(rt, cell, times));
}

/// The count after so many threads have counted so often each and one has counted once more, and
/// whether each thread's replies rose.
fn count_by<R: Threads + Wait + Sync>(
    rt: &R,
    alloc: Global,
    threads: u16,
    times: u64,
) -> Result<(u64, bool), NoMemory>
    requires { threads ≤ 16 }
{
    let (cell, mut pass) = TurnCell::new(alloc, Counter { value: 0 })?;
    let mut parts = parts_of(alloc, &cell, &mut pass, threads)?;
    count_each(rt, &cell, parts.as_mut_slice(), times);
    let mut rising = true;
    for part in &parts {
        rising = rising && part.rising;
    }
    Ok((cell.turn(rt, &mut pass, Increment).reply, rising))
}

/// With more threads than processors, a thread that has the object is often stopped, and those that
/// wait for it fall asleep.
#[test]
fn by_one_by_four_and_by_sixteen(rt: HostRuntime) {
    assert!(rt; count_by(&rt, rt.alloc(), 1, 80_000) == Ok((80_001, true)));
    assert!(rt; count_by(&rt, rt.alloc(), 4, 20_000) == Ok((80_001, true)));
    assert!(rt; count_by(&rt, rt.alloc(), 16, 5_000) == Ok((80_001, true)));
}

/// Each turn's place and reply, of two on one thread, and the count at the end.
fn turns_of_one<R: Wait>(rt: &R, alloc: Global) -> Result<((u64, u64), (u64, u64), u64), NoMemory> {
    let (cell, mut pass) = TurnCell::new(alloc, Counter { value: 0 })?;
    let first = cell.turn(rt, &mut pass, Increment);
    let second = cell.turn(rt, &mut pass, Increment);
    let count = cell.close(rt, pass).value;
    Ok((
        (first.place, first.reply),
        (second.place, second.reply),
        count,
    ))
}

#[test]
fn one_thread(rt: HostRuntime) {
    assert!(rt; turns_of_one(&rt, rt.alloc()) == Ok(((0, 1), (1, 2), 2)));
}

/// The places and the replies of turns by two passes, which are then joined, and the count at the end.
fn turns_of_two<R: Wait>(
    rt: &R,
    alloc: Global,
) -> Result<((u64, u64, u64), (u64, u64, u64), u64), NoMemory> {
    let (cell, mut pass) = TurnCell::new(alloc, Counter { value: 7 })?;
    let mut other = cell.split(&mut pass)?;
    let first = cell.turn(rt, &mut other, Increment);
    let second = cell.turn(rt, &mut pass, Increment);
    cell.join(&mut other, pass);
    let third = cell.turn(rt, &mut other, Increment);
    let count = cell.close(rt, other).value;
    Ok((
        (first.place, second.place, third.place),
        (first.reply, second.reply, third.reply),
        count,
    ))
}

#[test]
fn split_and_joined(rt: HostRuntime) {
    assert!(rt; turns_of_two(&rt, rt.alloc()) == Ok(((0, 1, 2), (8, 9, 10), 10)));
}

/// Each turn's place and reply: one of a pass that is then dropped, and one of another.
fn turns_behind_a_drop<R: Wait>(
    rt: &R,
    alloc: Global,
) -> Result<((u64, u64), (u64, u64)), NoMemory> {
    let (cell, mut pass) = TurnCell::new(alloc, Counter { value: 0 })?;
    let mut other = cell.split(&mut pass)?;
    let first = cell.turn(rt, &mut other, Increment);
    drop(other);
    let second = cell.turn(rt, &mut pass, Increment);
    Ok(((first.place, first.reply), (second.place, second.reply)))
}

#[test]
fn dropped(rt: HostRuntime) {
    assert!(rt; turns_behind_a_drop(&rt, rt.alloc()) == Ok(((0, 1), (1, 2))));
}
