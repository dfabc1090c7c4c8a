//! Four threads on all cells at once: what no clause says of the calls.

ghost use Rattle.std.specs.Prelude.{ℕ, ◌≡◌, ◌+◌, ◌-◌, ◌≤◌};
ghost use Rattle.std.specs.Thread.{IsSync};
ghost use Rattle.shared_state.specs.Cells.{AreOf, HaveJust};

use crate::texts::{add_def, text, words_between};
use blueprint::{BlueCall, BlueReply, Published};
use cmd_table::{Def, Defs};
use natives::Natives;
use nsv_bucket::{Buckets, NsvReply};
use sched_core::{SchedCall, SchedReply, Schedule};
use shared_state::{Finals, Passes, Shared, arrays_are_lines};
use std::alloc::Global;
use std::sync::Wait;
use std::thread::{Threads, join};
use turn_cell::Obj;
use txt_core::{NoMemory, Text, read_int};

/// How often each thread takes a turn on each cell.
const TIMES: u64 = 100;

/// `set a 1`
fn definitions(alloc: Global) -> Defs {
    let mut defs = Defs::new(alloc);
    add_def(
        &mut defs,
        Def::Set {
            name: text(alloc, b"a"),
            value: text(alloc, b"1"),
        },
    );
    defs
}

/// What each cell replied, in numbers, 0 where it replied nothing good.
#[derive(Clone, Copy, PartialEq)]
struct Numbers {
    epoch: u64,
    sum: i64,
    id: u64,
}

fn epoch_of(reply: &BlueReply) -> u64 {
    match reply {
        BlueReply::Published(Published::Done(epoch)) => *epoch,
        _ => 0,
    }
}

fn sum_of(reply: &NsvReply) -> i64 {
    match reply {
        NsvReply::Said(text) => read_int(text).unwrap_or(0),
        _ => 0,
    }
}

fn id_of(reply: &SchedReply) -> u64 {
    match reply {
        SchedReply::Id(id) => *id,
        _ => 0,
    }
}

/// One turn on each cell.
fn turn<R: Wait>(rt: &R, alloc: Global, shared: &Shared, passes: &mut Passes) -> Numbers
    requires { AreOf shared.now passes.old }
    ensures cells { AreOf shared.now passes.new }
    ensures units { (units : ℕ) → HaveJust units passes.old → HaveJust units passes.new }
{
    let words = words_between(alloc, "nsv_incr c n", " ");
    let script = Text::empty(alloc);
    let call = BlueCall::Publish(definitions(alloc));
    let published = shared.blueprint.turn(rt, &mut passes.blueprint, call);
    let asked = shared.nsv.ask(rt, &mut passes.nsv, words);
    let call = SchedCall::Add {
        moment: 0,
        seconds: 1,
        once: false,
        script,
    };
    let added = shared.schedule.turn(rt, &mut passes.schedule, call);
    Numbers {
        epoch: epoch_of(&published.reply),
        sum: sum_of(&asked.reply),
        id: id_of(&added.reply),
    }
}

/// The passes of a thread that took its turns, and whether each number was greater than the one before.
#[derive(Drop)]
struct Turned {
    passes: Passes,
    rising: bool,
}

fn rises(last: &Numbers, now: &Numbers) -> bool {
    last.epoch < now.epoch && last.sum < now.sum && (last.id < now.id || now.id == 0)
}

fn take_turns<R: Wait>(rt: &R, alloc: Global, shared: &Shared, passes: Passes, units: u64) -> Turned
    requires cells { AreOf shared.now passes }
    requires units { HaveJust units passes }
    ensures { AreOf shared.now result.passes × HaveJust units result.passes }
{
    let mut passes = passes;
    let mut rising = true;
    let mut last = Numbers {
        epoch: 0,
        sum: 0,
        id: 0,
    };
    'turns: for _time in 0..TIMES {
        let numbers = turn(rt, alloc, shared, &mut passes);
        rising = rising && rises(&last, &numbers);
        last = numbers;
    }
    Turned { passes, rising }
}

/// Passes for another thread.
fn part(shared: &Shared, passes: &mut Passes, units: u64) -> Passes
    requires cells { AreOf shared.now passes.old }
    requires units { (2 ≤ units) × HaveJust units passes.old }
    ensures cells { AreOf shared.now passes.new × AreOf shared.now result }
    ensures left { HaveJust (units - 1) passes.new }
    ensures right { HaveJust 1 result }
{
    match shared.split(passes) {
        Ok(parts) => parts,
        Err(_) => unreachable!(),
    }
}

/// The passes take in others.
fn take_in(shared: &Shared, passes: &mut Passes, other: Passes, units: u64, more: u64)
    requires cells { AreOf shared.now passes.old × AreOf shared.now other }
    requires units { HaveJust units passes.old × HaveJust more other }
    ensures cells { AreOf shared.now passes.new }
    ensures units { HaveJust (units + more) passes.new }
{
    shared.join(passes, other);
}

/// The passes of two threads that took their turns, joined.
fn joined(shared: &Shared, one: Turned, other: Turned, units: u64, more: u64) -> Turned
    requires cells { AreOf shared.now one.passes × AreOf shared.now other.passes }
    requires units { HaveJust units one.passes × HaveJust more other.passes }
    ensures { AreOf shared.now result.passes × HaveJust (units + more) result.passes }
{
    let Turned { mut passes, rising } = one;
    let Turned {
        passes: second,
        rising: also,
    } = other;
    take_in(shared, &mut passes, second, units, more);
    Turned {
        passes,
        rising: rising && also,
    }
}

/// Two threads take their turns at once, and their passes are joined.
fn take_turns_in_two<R: Threads + Wait + Sync>(
    rt: &R,
    alloc: Global,
    shared: &Shared,
    one: Passes,
    other: Passes,
    units: u64,
) -> Turned
    requires cells { AreOf shared.now one × AreOf shared.now other }
    requires units { HaveJust units one × HaveJust 1 other }
    ensures { AreOf shared.now result.passes × HaveJust (units + 1) result.passes }
{
    let (one, other) = join(
        rt,
        move ||
            requires { IsSync R.row × AreOf shared.now one × HaveJust units one }
            ensures { AreOf shared.entry.now result.passes × HaveJust units result.passes }
        { take_turns(rt, alloc, shared, one, units) },
        move ||
            requires { IsSync R.row × AreOf shared.now other × HaveJust 1 other }
            ensures { AreOf shared.entry.now result.passes × HaveJust 1 result.passes }
        { take_turns(rt, alloc, shared, other, 1) },
    );
    joined(shared, one, other, units, 1)
}

/// Four threads take their turns at once: what the objects are at the end, and whether each thread's
/// numbers rose.
fn take_turns_in_four<R: Threads + Wait + Sync>(
    rt: &R,
    alloc: Global,
) -> Result<(Finals, bool), NoMemory> {
    let natives = Natives::new(alloc);
    let (shared, mut first) = Shared::new(alloc, &natives)?;
    let second = part(&shared, &mut first, 65_536);
    let third = part(&shared, &mut first, 65_535);
    let fourth = part(&shared, &mut first, 65_534);
    let cells = &shared;
    let (front, back) = join(
        rt,
        move ||
            requires { IsSync R.row × AreOf cells.now first × AreOf cells.now second
                × (HaveJust 65533 first × HaveJust 1 second) }
            ensures { AreOf cells.entry.now result.passes × HaveJust 65534 result.passes }
        { take_turns_in_two(rt, alloc, cells, first, second, 65_533) },
        move ||
            requires { IsSync R.row × AreOf cells.now third × AreOf cells.now fourth
                × (HaveJust 1 third × HaveJust 1 fourth) }
            ensures { AreOf cells.entry.now result.passes × HaveJust 2 result.passes }
        { take_turns_in_two(rt, alloc, cells, third, fourth, 1) },
    );
    let Turned { passes, rising } = joined(&shared, front, back, 65_534, 2);
    Ok((shared.close(rt, passes), rising))
}

/// How many scripts are due of a schedule.
fn due(reply: &SchedReply) -> usize {
    match reply {
        SchedReply::Due(list) => list.len(),
        _ => 0,
    }
}

/// Whether the value that the threads counted in the array is this.
fn is_counted(alloc: Global, buckets: &Buckets, want: &[u8]) -> bool {
    let array = text(alloc, b"c");
    let key = text(alloc, b"n");
    match buckets.get(3).value(&array, &key) {
        Some(value) => value.bytes() == want,
        None => false,
    }
}

/// How many scripts are due of a schedule at the moment 1.
fn count_due(schedule: &mut Schedule) -> usize {
    let reply = schedule.act(SchedCall::Due(1));
    due(&reply)
}

/// Whether four threads leave the epoch 400, counted to 400, as many scripts that are due, and each thread's
/// numbers rose.
fn is_left_by_four(alloc: Global, taken: Result<(Finals, bool), NoMemory>) -> bool {
    let Ok((mut finals, rising)) = taken else {
        return false;
    };
    let epoch = finals.blueprint.epoch();
    let counted = is_counted(alloc, &finals.buckets, b"400");
    let count = count_due(&mut finals.schedule);
    drop(finals);
    epoch == 400 && counted && count == 400 && rising
}

#[test]
fn four_threads_on_all_cells(rt: HostRuntime) {
    let taken = take_turns_in_four(&rt, rt.alloc());
    assert!(rt; is_left_by_four(rt.alloc(), taken));
    arrays_are_lines();
}
