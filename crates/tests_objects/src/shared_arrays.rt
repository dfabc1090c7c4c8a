//! Four threads on the shared arrays: what no clause says of the calls.

ghost use Rattle.std.specs.Prelude.{ℕ, ◌≡◌, ◌+◌, ◌-◌, ◌<◌, ◌≤◌, length};
ghost use Rattle.std.specs.Thread.{IsSync};
ghost use Rattle.nsv_shared.specs.Cells.{AreOf, HaveJust};

use nsv_bucket::{Buckets, NsvReply};
use nsv_shared::{Nsv, NsvPass};
use std::alloc::Global;
use std::sync::Wait;
use std::thread::{Threads, join};
use txt_core::{NoMemory, Text, Words, read_int};

/// How often each thread asks.
const TIMES: usize = 10_000;

/// A text; the empty one where memory wants.
fn text(alloc: Global, bytes: &[u8]) -> Text {
    match Text::new(alloc, bytes) {
        Ok(text) => text,
        Err(_) => Text::empty(alloc),
    }
}

/// `nsv_incr ARRAY n`; fewer words where memory wants.
fn increment(alloc: Global, array: &[u8]) -> Words {
    let mut words = Words::new(alloc);
    for word in [b"nsv_incr".as_slice(), array, b"n".as_slice()] {
        let _added = words.add(text(alloc, word));
    }
    words
}

/// The number that a reply gives; 0 where it gives none.
fn number(reply: &NsvReply) -> i64 {
    match reply {
        NsvReply::Said(text) => read_int(text).unwrap_or(0),
        _ => 0,
    }
}

/// Asks once, and gives the number that is replied; 0 for want of memory.
fn ask<R: Wait>(rt: &R, alloc: Global, nsv: &Nsv, pass: &mut NsvPass, array: &[u8]) -> i64
    requires { AreOf nsv.now pass.old }
    ensures cells { AreOf nsv.now pass.new }
    ensures units { (units : ℕ) → HaveJust units pass.old → HaveJust units pass.new }
{
    let turn = nsv.ask(rt, pass, increment(alloc, array));
    number(&turn.reply)
}

/// The passes of a thread that has asked, and whether each number was greater than the one before it
/// of the same array.
#[derive(Drop)]
struct Asked {
    pass: NsvPass,
    rising: bool,
}

/// Asks of these arrays, at most eight, in turn. For want of memory the numbers don't rise.
fn ask_in_turn<R: Wait>(
    rt: &R,
    alloc: Global,
    nsv: &Nsv,
    pass: NsvPass,
    units: u64,
    arrays: &[&[u8]],
) -> Asked
    requires cells { AreOf nsv.now pass }
    requires units { HaveJust units pass }
    requires some { (0 < length arrays.now) × (length arrays.now ≤ 8) }
    ensures { AreOf nsv.now result.pass × HaveJust units result.pass }
{
    let mut pass = pass;
    let mut rising = true;
    let mut last = [0; 8];
    for turn in 0..TIMES {
        let at = turn % arrays.len();
        let number = ask(rt, alloc, nsv, &mut pass, arrays[at]);
        rising = rising && last[at] < number;
        last[at] = number;
    }
    Asked { pass, rising }
}

/// Passes for another thread.
fn part(nsv: &Nsv, pass: &mut NsvPass, units: u64) -> NsvPass
    requires cells { AreOf nsv.now pass.old }
    requires units { (2 ≤ units) × HaveJust units pass.old }
    ensures cells { AreOf nsv.now pass.new × AreOf nsv.now result }
    ensures left { HaveJust (units - 1) pass.new }
    ensures right { HaveJust 1 result }
{
    match nsv.split(pass) {
        Ok(parts) => parts,
        Err(_) => unreachable!(),
    }
}

/// The passes take in others.
fn take_in(nsv: &Nsv, pass: &mut NsvPass, other: NsvPass, units: u64, more: u64)
    requires cells { AreOf nsv.now pass.old × AreOf nsv.now other }
    requires units { HaveJust units pass.old × HaveJust more other }
    ensures cells { AreOf nsv.now pass.new }
    ensures units { HaveJust (units + more) pass.new }
{
    nsv.join(pass, other);
}

/// What two threads found, with the passes of both.
fn joined(nsv: &Nsv, one: Asked, other: Asked, units: u64, more: u64) -> Asked
    requires cells { AreOf nsv.now one.pass × AreOf nsv.now other.pass }
    requires units { HaveJust units one.pass × HaveJust more other.pass }
    ensures { AreOf nsv.now result.pass × HaveJust (units + more) result.pass }
{
    let Asked { mut pass, rising } = one;
    let Asked {
        pass: second,
        rising: also,
    } = other;
    take_in(nsv, &mut pass, second, units, more);
    Asked {
        pass,
        rising: rising && also,
    }
}

/// Two threads ask at once, and their passes are joined.
fn ask_in_two<R: Threads + Wait + Sync>(
    rt: &R,
    alloc: Global,
    nsv: &Nsv,
    one: NsvPass,
    other: NsvPass,
    units: u64,
    arrays: &[&[u8]],
) -> Asked
    requires cells { AreOf nsv.now one × AreOf nsv.now other }
    requires units { HaveJust units one × HaveJust 1 other }
    requires some { (0 < length arrays.now) × (length arrays.now ≤ 8) }
    ensures { AreOf nsv.now result.pass × HaveJust (units + 1) result.pass }
{
    let (one, other) = join(
        rt,
        move ||
            requires { IsSync R.row × AreOf nsv.now one × HaveJust units one
                × ((0 < length arrays.now) × (length arrays.now ≤ 8)) }
            ensures { AreOf nsv.entry.now result.pass × HaveJust units result.pass }
        { ask_in_turn(rt, alloc, nsv, one, units, arrays) },
        move ||
            requires { IsSync R.row × AreOf nsv.now other × HaveJust 1 other
                × ((0 < length arrays.now) × (length arrays.now ≤ 8)) }
            ensures { AreOf nsv.entry.now result.pass × HaveJust 1 result.pass }
        { ask_in_turn(rt, alloc, nsv, other, 1, arrays) },
    );
    joined(nsv, one, other, units, 1)
}

/// Four threads ask at once: what the buckets hold at the end, and whether each thread's numbers rose.
fn ask_in_four<R: Threads + Wait + Sync>(
    rt: &R,
    alloc: Global,
    arrays: &[&[u8]],
) -> Result<(Buckets, bool), NoMemory>
    requires some { (0 < length arrays.now) × (length arrays.now ≤ 8) }
{
    let (nsv, mut first) = Nsv::new(alloc)?;
    let second = part(&nsv, &mut first, 65_536);
    let third = part(&nsv, &mut first, 65_535);
    let fourth = part(&nsv, &mut first, 65_534);
    let shared = &nsv;
    let (front, back) = join(
        rt,
        move ||
            requires { IsSync R.row × AreOf shared.now first × AreOf shared.now second
                × (HaveJust 65533 first × HaveJust 1 second)
                × ((0 < length arrays.now) × (length arrays.now ≤ 8)) }
            ensures { AreOf shared.entry.now result.pass × HaveJust 65534 result.pass }
        { ask_in_two(rt, alloc, shared, first, second, 65_533, arrays) },
        move ||
            requires { IsSync R.row × AreOf shared.now third × AreOf shared.now fourth
                × (HaveJust 1 third × HaveJust 1 fourth)
                × ((0 < length arrays.now) × (length arrays.now ≤ 8)) }
            ensures { AreOf shared.entry.now result.pass × HaveJust 2 result.pass }
        { ask_in_two(rt, alloc, shared, third, fourth, 1, arrays) },
    );
    let Asked { pass, rising } = joined(&nsv, front, back, 65_534, 2);
    Ok((nsv.close(rt, pass), rising))
}

/// Whether the bucket with this number holds this number for the array.
fn holds(alloc: Global, buckets: &Buckets, at: u8, array: &[u8], want: i64) -> bool
    requires { at < 8 }
{
    let array = text(alloc, array);
    let key = text(alloc, b"n");
    match buckets.get(at).value(&array, &key) {
        Some(value) => read_int(value) == Some(want),
        None => false,
    }
}

/// Whether the numbers of four threads rose, and the bucket of the array then holds this one.
fn are_counted(alloc: Global, asked: Result<(Buckets, bool), NoMemory>, want: i64) -> bool {
    match asked {
        Ok((buckets, rising)) => rising && holds(alloc, &buckets, 3, b"c", want),
        Err(_) => false,
    }
}

#[test]
fn four_threads_on_one_array(rt: HostRuntime) {
    let asked = ask_in_four(&rt, rt.alloc(), &[b"c".as_slice()]);
    assert!(rt; are_counted(rt.alloc(), asked, 40_000));
}

/// Arrays, one in each bucket.
const EIGHT: &[&[u8]] = &[b"h", b"a", b"b", b"c", b"d", b"e", b"f", b"g"];

/// Whether the bucket of its place holds this number for each array.
fn all_hold(alloc: Global, buckets: &Buckets, want: i64) -> bool {
    let mut right = true;
    for (at, array) in EIGHT.iter().enumerate() {
        right = holds(alloc, buckets, (at % 8) as u8, array, want) && right;
    }
    right
}

/// Whether the numbers of four threads rose, and the buckets then hold this one.
fn are_all_counted(alloc: Global, asked: Result<(Buckets, bool), NoMemory>, want: i64) -> bool {
    match asked {
        Ok((buckets, rising)) => rising && all_hold(alloc, &buckets, want),
        Err(_) => false,
    }
}

#[test]
fn four_threads_on_eight_buckets(rt: HostRuntime) {
    let asked = ask_in_four(&rt, rt.alloc(), EIGHT);
    assert!(rt; are_all_counted(rt.alloc(), asked, 5_000));
}

/// Where asking for a line goes: the bucket, and the place in its history.
fn place<R: Wait>(rt: &R, alloc: Global, nsv: &Nsv, pass: &mut NsvPass, array: &[u8]) -> (u8, u64)
    requires { AreOf nsv.now pass.old }
    ensures { AreOf nsv.now pass.new }
{
    let turn = nsv.ask(rt, pass, increment(alloc, array));
    (turn.bucket, turn.place)
}

/// Where three arrays lie at a new server: the turns of each bucket are counted by themselves.
fn places<R: Wait>(rt: &R, alloc: Global) -> Option<[(u8, u64); 3]> {
    let Ok((nsv, mut pass)) = Nsv::new(alloc) else {
        return None;
    };
    let first = place(rt, alloc, &nsv, &mut pass, b"c");
    let second = place(rt, alloc, &nsv, &mut pass, b"a");
    let third = place(rt, alloc, &nsv, &mut pass, b"ab");
    Some([first, second, third])
}

#[test]
fn places_by_bucket(rt: HostRuntime) {
    assert!(rt; places(&rt, rt.alloc()) == Some([(3, 0), (1, 0), (3, 1)]));
}
