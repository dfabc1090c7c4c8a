//! A bucket by itself: rows of words with the replies that the rules give.

ghost use Rattle.turn_cell.specs.Cells.{IsOf};

use nsv_bucket::{Bucket, Buckets, NsvReply, bucket_of, each_key_by_itself, steps_are_determined};
use std::alloc::Global;
use std::sync::Wait;
use std::thread::{Threads, join};
use tcl_list::split;
use turn_cell::{Obj, Pass, TurnCell};
use txt_core::{NoMemory, Text, Words};

/// What the words of a row are answered.
#[derive(Clone, Copy)]
enum Want<'a> {
    Says(&'a [u8]),
    Fails(&'a [u8]),
}

use Want::{Fails, Says};

fn is(reply: &NsvReply, want: Want<'_>) -> bool {
    match (reply, want) {
        (NsvReply::Said(text), Says(bytes)) => text.bytes() == bytes,
        (NsvReply::Failed(text), Fails(bytes)) => text.bytes() == bytes,
        _ => false,
    }
}

/// A text; the empty one where memory wants.
fn text(alloc: Global, bytes: &[u8]) -> Text {
    match Text::new(alloc, bytes) {
        Ok(text) => text,
        Err(_) => Text::empty(alloc),
    }
}

/// The words of a line; none where memory wants.
fn words_of(alloc: Global, line: &[u8]) -> Words {
    match split(alloc, &text(alloc, line)) {
        Ok(words) => words,
        Err(_) => Words::new(alloc),
    }
}

/// Whether a bucket answers a line so.
fn answers(alloc: Global, bucket: &mut Bucket, line: &[u8], want: Want<'_>) -> bool {
    let reply = bucket.act(words_of(alloc, line));
    is(&reply, want)
}

/// How many rows are answered as they say, from the first on.
fn count_rows(alloc: Global, bucket: &mut Bucket, rows: &[(&[u8], Want<'_>)]) -> usize {
    let mut count = 0usize;
    for (line, want) in rows {
        if !answers(alloc, bucket, line, *want) {
            return count;
        }
        count = count.saturating_add(1);
    }
    count
}

/// How many rows a new bucket answers as they say, from the first on.
fn count_answered(alloc: Global, rows: &[(&[u8], Want<'_>)]) -> usize {
    let mut bucket = Bucket::new(alloc);
    count_rows(alloc, &mut bucket, rows)
}

/// Lines about values, and what they are answered one after another.
const VALUES: &[(&[u8], Want<'static>)] = &[
    (b"nsv_incr c n", Says(b"1")),
    (b"nsv_incr c n", Says(b"2")),
    (b"nsv_incr c n -5", Says(b"-3")),
    (b"nsv_incr c n 0x10", Says(b"13")),
    (b"nsv_get c n", Says(b"13")),
    (b"nsv_get none k", Fails(b"no array \"none\"")),
    (b"nsv_get c k", Fails(b"no key \"k\" in array \"c\"")),
    (b"nsv_exists c n", Says(b"1")),
    (b"nsv_exists c k", Says(b"0")),
    (b"nsv_exists none n", Says(b"0")),
    (
        b"nsv_set c m 9223372036854775807",
        Says(b"9223372036854775807"),
    ),
    (b"nsv_incr c m", Fails(b"integer overflow")),
    (b"nsv_incr c m 0", Says(b"9223372036854775807")),
    (
        b"nsv_set c low -9223372036854775808",
        Says(b"-9223372036854775808"),
    ),
    (b"nsv_incr c low -1", Fails(b"integer overflow")),
    (b"nsv_set c t x", Says(b"x")),
    (b"nsv_incr c t y", Fails(b"expected integer but got \"x\"")),
    (b"nsv_incr c n {}", Fails(b"expected integer but got \"\"")),
    (b"nsv_get c t", Says(b"x")),
    (b"nsv_get c n", Says(b"13")),
    (b"nsv_append c t y {} z", Says(b"xyz")),
    (b"nsv_append d t y", Says(b"y")),
    (b"nsv_lappend c l {a b} c", Says(b"{a b} c")),
    (b"nsv_lappend c l {}", Says(b"{a b} c {}")),
    (b"nsv_set c bad \"a {b\"", Says(b"a {b")),
    (b"nsv_lappend c bad x", Fails(b"bad list at 2")),
    (b"nsv_get c bad", Says(b"a {b")),
    (b"nsv_unset c bad", Says(b"")),
    (b"nsv_unset c bad", Fails(b"no key \"bad\" in array \"c\"")),
    (b"nsv_unset d t", Says(b"")),
    (b"nsv_array exists d", Says(b"1")),
    (b"nsv_unset d", Says(b"")),
    (b"nsv_array exists d", Says(b"0")),
    (b"nsv_unset d", Fails(b"no array \"d\"")),
    (b"nsv_unset d t", Fails(b"no array \"d\"")),
    (b"nsv_get c", Fails(b"")),
    (b"nsv_get c n x", Fails(b"")),
    (b"nsv_append c t", Fails(b"")),
    (b"nsv c", Fails(b"")),
    (b"", Fails(b"")),
];

#[test]
fn values(rt: HostRuntime) {
    assert!(rt; count_answered(rt.alloc(), VALUES) == 40);
}

/// Lines about arrays, and what they are answered one after another.
const ARRAYS: &[(&[u8], Want<'static>)] = &[
    (b"nsv_array get z", Says(b"")),
    (b"nsv_array names z", Says(b"")),
    (b"nsv_array size z", Says(b"0")),
    (b"nsv_array exists z", Says(b"0")),
    (b"nsv_names 0", Says(b"")),
    (b"nsv_set c k 1", Says(b"1")),
    (b"nsv_set a k 2", Says(b"2")),
    (b"nsv_names 0", Says(b"a c")),
    (b"nsv_names 0 c*", Says(b"c")),
    (b"nsv_names 7 {[b-d]}", Says(b"c")),
    (b"nsv_names 8", Fails(b"")),
    (b"nsv_names", Fails(b"")),
    (b"nsv_array set c {b 1 k 3 {a b} {} b 2}", Says(b"")),
    (b"nsv_array get c", Says(b"{a b} {} b 2 k 3")),
    (b"nsv_array get c {[a-b]}", Says(b"b 2")),
    (b"nsv_array names c", Says(b"{a b} b k")),
    (b"nsv_array names c *b", Says(b"{a b} b")),
    (b"nsv_array size c", Says(b"3")),
    (b"nsv_array exists c", Says(b"1")),
    (b"nsv_get a k", Says(b"2")),
    (
        b"nsv_array set c {x y z}",
        Fails(b"bad value \"x y z\" for \"nsv_array\""),
    ),
    (b"nsv_array set c \"x {\"", Fails(b"bad list at 2")),
    (
        b"nsv_array reset c {x}",
        Fails(b"bad value \"x\" for \"nsv_array\""),
    ),
    (b"nsv_array get c", Says(b"{a b} {} b 2 k 3")),
    (b"nsv_array set c {d 4 b 5 d 6 k 7 k 8}", Says(b"")),
    (b"nsv_array get c", Says(b"{a b} {} b 5 d 6 k 8")),
    (b"nsv_array reset c {y 1}", Says(b"")),
    (b"nsv_array get c", Says(b"y 1")),
    (b"nsv_array set e {}", Says(b"")),
    (b"nsv_array reset f {}", Says(b"")),
    (b"nsv_array exists e", Says(b"1")),
    (b"nsv_names 0", Says(b"a c e f")),
    (b"nsv_unset c y", Says(b"")),
    (b"nsv_array size c", Says(b"0")),
    (b"nsv_array exists c", Says(b"1")),
    (b"nsv_array foo c", Fails(b"")),
    (b"nsv_array", Fails(b"")),
    (b"nsv_array size c *", Fails(b"")),
    (b"nsv_array set c", Fails(b"")),
    (b"nsv_names 0", Says(b"a c e f")),
];

#[test]
fn arrays(rt: HostRuntime) {
    assert!(rt; count_answered(rt.alloc(), ARRAYS) == 40);
}

/// A text of so many bytes; the empty one where memory wants.
fn filled(alloc: Global, count: usize) -> Text {
    match vec![in alloc; b'x'; count] {
        Ok(bytes) => Text::from_vec(bytes),
        Err(_) => Text::empty(alloc),
    }
}

/// `nsv_append a k` with as many bytes.
fn append_of(alloc: Global, count: usize) -> Words {
    let mut words = words_of(alloc, b"nsv_append a k");
    let _added = words.add(filled(alloc, count));
    words
}

/// What a bucket answers where so many bytes are appended to a value.
fn append(alloc: Global, bucket: &mut Bucket, count: usize) -> NsvReply {
    bucket.act(append_of(alloc, count))
}

/// Whether a value has this length after so many bytes are appended to it.
fn appends(alloc: Global, bucket: &mut Bucket, count: usize, length: usize) -> bool {
    let reply = append(alloc, bucket, count);
    has_length(&reply, length)
}

/// Whether so many bytes more are too many for a value.
fn refuses(alloc: Global, bucket: &mut Bucket, count: usize) -> bool {
    let reply = append(alloc, bucket, count);
    is(&reply, Fails(b"value too long"))
}

/// How long the value of the key `k` of an array is, if there is one.
fn length_of(alloc: Global, bucket: &Bucket, array: &[u8]) -> Option<usize> {
    let array = text(alloc, array);
    let key = text(alloc, b"k");
    match bucket.value(&array, &key) {
        Some(value) => Some(value.len()),
        None => None,
    }
}

/// Whether a value grows up to the limit, and nothing longer is made of it.
fn is_limited(alloc: Global, bucket: &mut Bucket) -> bool {
    appends(alloc, bucket, 1_048_576, 1_048_576)
        && refuses(alloc, bucket, 1)
        && answers(alloc, bucket, b"nsv_array get a", Fails(b"value too long"))
        && length_of(alloc, bucket, b"a") == Some(1_048_576)
        && length_of(alloc, bucket, b"b").is_none()
}

/// Whether a value of a new bucket does so.
fn new_is_limited(alloc: Global) -> bool {
    let mut bucket = Bucket::new(alloc);
    is_limited(alloc, &mut bucket)
}

#[test]
fn limit(rt: HostRuntime) {
    steps_are_determined();
    each_key_by_itself();
    assert!(rt; new_is_limited(rt.alloc()));
}

/// Which of the numbers 1 and 2 a reply says; 0 where it says neither.
fn said(reply: &NsvReply) -> u8 {
    if is(reply, Says(b"1")) {
        1
    } else if is(reply, Says(b"2")) {
        2
    } else {
        0
    }
}

/// Increments once in the bucket of a cell; 0 where the reply isn't 1 or 2.
fn ask<R: Wait>(rt: &R, alloc: Global, cell: &TurnCell<Bucket>, pass: Pass<Bucket>) -> u8
    requires { IsOf cell.now pass }
{
    let mut pass = pass;
    let turn = cell.turn(rt, &mut pass, words_of(alloc, b"nsv_incr c n"));
    said(&turn.reply)
}

/// Two threads increment in the bucket of one cell, and tell what they are answered.
fn ask_in_two<R: Threads + Wait + Sync>(rt: &R, alloc: Global) -> Result<(u8, u8), NoMemory> {
    let (cell, mut first) = TurnCell::new(alloc, Bucket::new(alloc))?;
    let second = cell.split(&mut first)?;
    let shared = &cell;
    Ok(join(
        rt,
        move ||
            requires { IsOf shared.now first }
        { ask(rt, alloc, shared, first) },
        move ||
            requires { IsOf shared.now second }
        { ask(rt, alloc, shared, second) },
    ))
}

/// Arrays, and the buckets of their names.
const NAMES: &[(&[u8], u8)] = &[
    (b"", 0),
    (b"c", 3),
    (b"a", 1),
    (b"ab", 3),
    (b"counters", 3),
    (b"\xff", 7),
];

/// The bucket of the name of an array.
fn bucket_named(alloc: Global, name: &[u8]) -> u8 {
    bucket_of(&text(alloc, name))
}

/// The place of the first array that lies in another bucket, if there is one.
fn first_elsewhere(alloc: Global) -> Option<usize> {
    for (at, (name, bucket)) in NAMES.iter().enumerate() {
        if bucket_named(alloc, name) != *bucket {
            return Some(at);
        }
    }
    None
}

#[test]
fn each_array_lies_in_the_bucket_of_its_name(rt: HostRuntime) {
    assert!(rt; first_elsewhere(rt.alloc()).is_none());
}

/// Whether all buckets answer a line so.
fn answer(alloc: Global, buckets: &mut Buckets, line: &[u8], want: Want<'_>) -> bool {
    match buckets.ask(&words_of(alloc, line)) {
        Ok(reply) => is(&reply, want),
        Err(_) => false,
    }
}

/// Whether the value of the key `k` of an array is this one.
fn holds(alloc: Global, bucket: &Bucket, array: &[u8], want: &[u8]) -> bool {
    let array = text(alloc, array);
    let key = text(alloc, b"k");
    match bucket.value(&array, &key) {
        Some(value) => value.bytes() == want,
        None => false,
    }
}

/// Lines, and what all buckets answer them one after another.
const EIGHT: &[(&[u8], Want<'static>)] = &[
    (b"nsv_set c k 1", Says(b"1")),
    (b"nsv_set a k 2", Says(b"2")),
    (b"nsv_array set ab {k 3}", Says(b"")),
    (b"nsv_names 0", Says(b"")),
    (b"nsv_names 1", Says(b"a")),
    (b"nsv_names 3", Says(b"ab c")),
    (b"nsv_names 3 c*", Says(b"c")),
    (b"nsv_names 7", Says(b"")),
    (b"nsv_names 8", Fails(b"")),
    (b"nsv_get ab k", Says(b"3")),
    (b"nsv_array names c", Says(b"k")),
    (b"nsv_array", Fails(b"")),
];

/// How many of these lines buckets answer so, from the first on.
fn count_eight(alloc: Global, buckets: &mut Buckets) -> usize {
    let mut count = 0usize;
    for (line, want) in EIGHT {
        if !answer(alloc, buckets, line, *want) {
            return count;
        }
        count = count.saturating_add(1);
    }
    count
}

/// The same of new buckets, and whether one of them then holds what it should.
fn count_new_eight(alloc: Global) -> (usize, bool) {
    let mut buckets = Buckets::new(alloc);
    let count = count_eight(alloc, &mut buckets);
    (count, holds(alloc, buckets.get(3), b"c", b"1"))
}

#[test]
fn eight_buckets(rt: HostRuntime) {
    assert!(rt; count_new_eight(rt.alloc()) == (12, true));
}

/// Whether a reply is a value of this length.
fn has_length(reply: &NsvReply, length: usize) -> bool {
    match reply {
        NsvReply::Said(text) => text.len() == length,
        _ => false,
    }
}

/// Whether a line makes a value of this length.
fn makes_length(alloc: Global, bucket: &mut Bucket, line: &[u8], length: usize) -> bool {
    let reply = bucket.act(words_of(alloc, line));
    has_length(&reply, length)
}

/// Whether a line, asked so often, makes a value of this length longer by so many bytes each time.
fn grows(
    alloc: Global,
    bucket: &mut Bucket,
    line: &[u8],
    mut length: usize,
    by: usize,
    times: usize,
) -> bool {
    let mut right = true;
    for _ in 0..times {
        length = length.saturating_add(by);
        right = right && makes_length(alloc, bucket, line, length);
    }
    right
}

/// Whether a value of nearly a megabyte grows by bytes and by elements.
fn is_grown(alloc: Global, bucket: &mut Bucket) -> bool {
    appends(alloc, bucket, 900_000, 900_000)
        && grows(alloc, bucket, b"nsv_append a k {}", 900_000, 0, 100_000)
        && grows(alloc, bucket, b"nsv_lappend a k x", 900_000, 2, 20_000)
}

/// Whether a value of a new bucket does so.
fn new_is_grown(alloc: Global) -> bool {
    let mut bucket = Bucket::new(alloc);
    is_grown(alloc, &mut bucket)
}

/// A value of nearly a megabyte to which is appended a hundred thousand times: where each turn copied it,
/// that would be 90 billion bytes.
#[test]
fn long_values_grow_in_place(rt: HostRuntime) {
    assert!(rt; new_is_grown(rt.alloc()));
}

#[test]
fn in_a_cell(rt: HostRuntime) {
    let said = ask_in_two(&rt, rt.alloc());
    assert!(rt; said == Ok((1, 2)) || said == Ok((2, 1)));
}
