//! Rows of files with their listings, files that end early, outsides that fail, and a plain machine beside
//! the machine.

ghost use Rattle.std.specs.Prelude.{◌≡◌, ◌<◌};

use crate::plain_file::must_come;
use crate::rows::ROWS;
use cmd_table::Steps;
use natives::Natives;
use outside::{MemSink, MemSource};
use rehearse::{Counted, Rehearsal, count_listing, rehearse};
use std::alloc::Global;
use std::marker::Brand;
use std::sync::ledger::{Blank, Ledger};
use txt_core::{Text, write_natural};

/// A procedure, its URL, a request of it and a run.
pub const HI: &[u8] =
    b"define 68\nproc hi {} {ns_return 200 text/plain hi}\nns_register_proc GET /hi hi\nconnect 0 29\nGET /hi HTTP/1.1\r\nHost: l\r\n\r\n\nrun 0\n";

/// What came of it.
const HI_LISTING: &[u8] =
    b"defined 1\nresponse 0 1 156\nHTTP/1.1 200 OK\r\nDate: Thu, 01 Jan 1970 00:00:00 GMT\r\nServer: AOLserver-profile/1\r\nContent-Type: text/plain\r\nContent-Length: 2\r\nConnection: keep-alive\r\n\r\nhi\nclosed 0 ended\n";

/// Files, one a line, of which nothing is listed: an arrow, and how the rehearsal ends. `~` is a newline and `^` a
/// carriage return.
const ENDS: &str = r#" => done
workers 16~step 15~run 15~ => done
clock 253402300799~ => done
run 0~run 0~ => done
step s~run s~ => done
page / 0~~page /a 2~bc~page /a~b => bad 3
page /a 2~bc~page /[x].adp 0~~ => done
connect 0 0~~ => done
connect 5 0~~ => bad 1
connect 0 3~ab~ => bad 1
define 3~ab~ => bad 1
define 1~ab~ => bad 1
define 8388609~ab~ => bad 1
page /a 1048577~ab~ => bad 1
connect 0 16777217~ab~ => bad 1
page a 0~~ => bad 1
page /a b 0~~ => bad 1
page  0~~ => bad 1
page /a ~~ => bad 1
workers 0~ => bad 1
workers 17~ => bad 1
workers 2~step 2~ => bad 2
workers 2~workers 2~ => bad 2
clock 0~workers 2~ => bad 2
clock 253402300800~ => bad 1
clock 99999999999999999999~ => bad 1
step 1~ => bad 1
step S~ => bad 1
run  0~ => bad 1
run 0 ~ => bad 1
run 0^~ => bad 1
run 0 => bad 1
~ => bad 1
run~ => bad 1
run 0~run 1~ => bad 2
run 00~ => bad 1
connect 0 0~~connect 0 0~~ => bad 2
workers 02~ => bad 1
clock 00~ => bad 1
define 02~ab~ => bad 1
connect 00 0~~ => bad 1
connect 0 00~~ => bad 1
step 00~ => bad 1
run +0~ => bad 1
run j~ => bad 1"#;

/// How many rows there are of each kind.
const ENDS_COUNT: u64 = 45;

const ROWS_COUNT: u64 = 49;

/// A text; the empty one where memory wants.
pub fn text(alloc: Global, bytes: &[u8]) -> Text {
    match Text::new(alloc, bytes) {
        Ok(text) => text,
        Err(_) => Text::empty(alloc),
    }
}

/// Appends bytes to a text, which stays as it is where memory wants.
pub fn put(all: &mut Text, bytes: &[u8]) {
    let _put = all.append(bytes);
}

/// Appends the digits of a number.
pub fn put_number(alloc: Global, all: &mut Text, number: u64) {
    if let Ok(digits) = write_natural(alloc, number) {
        put(all, digits.bytes());
    }
}

/// Appends a word, a blank, a number and the end of the line.
pub fn put_line(alloc: Global, all: &mut Text, word: &[u8], number: u64) {
    put(all, word);
    put(all, b" ");
    put_number(alloc, all, number);
    put(all, b"\n");
}

/// The bytes that a line of these writes.
fn meant(alloc: Global, line: &str) -> Text {
    let mut text = Text::empty(alloc);
    for byte in line.as_bytes() {
        let byte = match *byte {
            b'~' => b'\n',
            b'^' => b'\r',
            other => other,
        };
        put(&mut text, &[byte]);
    }
    text
}

/// How a rehearsal is fed and drained.
#[derive(Clone, Copy, Debug)]
struct Outside<'a> {
    /// The most bytes that a read gives, and the reads that fail.
    gives: usize,
    bad_reads: &'a [u64],
    /// The most bytes that a write takes, and the writes that fail.
    takes: usize,
    bad_writes: &'a [u64],
}

/// Where nothing fails and the bytes come in one piece.
const AT_ONCE: Outside<'static> = Outside {
    gives: 1_000_000,
    bad_reads: &[],
    takes: 1_000_000,
    bad_writes: &[],
};

/// The numbers of calls; none where memory wants.
fn calls_of(alloc: Global, calls: &[u64]) -> Vec<u64> {
    match Vec::from_slice(alloc, calls) {
        Ok(list) => list,
        Err(_) => Vec::new(alloc),
    }
}

/// A source of these bytes.
fn source_of(alloc: Global, input: &[u8], gives: usize, bad_reads: &[u64]) -> MemSource {
    let bad_reads = calls_of(alloc, bad_reads);
    MemSource::new(text(alloc, input), gives.max(1), bad_reads)
}

/// Rehearses what a source gives.
fn rehearse_into<L: Ledger>(
    alloc: Global,
    source: &mut MemSource,
    sink: &mut MemSink,
    steps: &mut Steps<L>,
) -> Rehearsal {
    rehearse(alloc, &Natives::new(alloc), source, sink, steps)
}

/// Rehearses an input, and gives the answer and what was written.
fn rehearsed<L: Ledger>(
    alloc: Global,
    input: &[u8],
    outside: &Outside<'_>,
    steps: &mut Steps<L>,
) -> (Rehearsal, Text) {
    let mut source = source_of(alloc, input, outside.gives, outside.bad_reads);
    let bad_writes = calls_of(alloc, outside.bad_writes);
    let mut sink = MemSink::new(alloc, outside.takes.max(1), bad_writes);
    let answer = rehearse_into(alloc, &mut source, &mut sink, steps);
    (answer, text(alloc, sink.taken().bytes()))
}

/// Whether the rehearsal of a file, which comes in one piece where nothing fails, answers and writes this.
pub fn is_rehearsed<L: Ledger>(
    alloc: Global,
    file: &[u8],
    want: Rehearsal,
    listing: &[u8],
    steps: &mut Steps<L>,
) -> bool {
    let (answer, written) = rehearsed(alloc, file, &AT_ONCE, steps);
    answer == want && written.bytes() == listing
}

/// What is counted of the listing of what a source gives.
fn count_of<L: Ledger>(alloc: Global, source: &mut MemSource, steps: &mut Steps<L>) -> Counted {
    count_listing(alloc, &Natives::new(alloc), source, steps)
}

/// What is counted of the listing of a file, which comes in one piece but for the reads that fail.
pub fn counted<L: Ledger>(
    alloc: Global,
    input: &[u8],
    bad_reads: &[u64],
    steps: &mut Steps<L>,
) -> Counted {
    let mut source = source_of(alloc, input, AT_ONCE.gives, bad_reads);
    count_of(alloc, &mut source, steps)
}

/// The event that a line says to be bad; `None` where it says that all is done.
fn bad_event(want: &str) -> Option<u64> {
    match want.split_once(" ") {
        Some((_, number)) => number.parse::<u64>().ok(),
        None => None,
    }
}

/// How a line says that its rehearsal ends.
fn end_of(want: &str) -> Rehearsal {
    match bad_event(want) {
        Some(event) => Rehearsal::BadEvent { event },
        None => Rehearsal::Done,
    }
}

/// Whether the file of a line ends as it says, and nothing is listed.
fn ends<L: Ledger>(alloc: Global, line: &str, steps: &mut Steps<L>) -> bool {
    let (file, want) = line.split_once(" => ").unwrap_or((line, ""));
    let file = meant(alloc, file);
    is_rehearsed(alloc, file.bytes(), end_of(want), b"", steps)
}

/// How many lines of files there are, where each ends as it says; `None` where one doesn't.
fn right_ends<L: Ledger>(alloc: Global, steps: &mut Steps<L>) -> Option<u64> {
    let mut count = 0u64;
    for line in ENDS.lines() {
        if !ends(alloc, line, steps) {
            return None;
        }
        count = count.wrapping_add(1);
    }
    Some(count)
}

// ---- rows

/// Appends a line of these words and a block behind its length.
pub fn push_block(alloc: Global, file: &mut Text, kind: &str, first: &str, block: &[u8]) {
    put(file, kind.as_bytes());
    put(file, first.as_bytes());
    put_line(alloc, file, b"", block.len() as u64);
    put(file, block);
    put(file, b"\n");
}

/// A GET of a path.
fn get_of(alloc: Global, path: &str) -> Text {
    let mut input = text(alloc, b"GET ");
    put(&mut input, path.as_bytes());
    put(&mut input, b" HTTP/1.1\r\nHost: l\r\n\r\n");
    input
}

/// Appends the event of a line of a row.
pub fn push_event(alloc: Global, file: &mut Text, line: &str) {
    let (kind, rest) = line.split_once(' ').unwrap_or((line, ""));
    let (first, tail) = rest.split_once(' ').unwrap_or((rest, ""));
    match kind {
        "D" => push_block(alloc, file, "define", "", meant(alloc, rest).bytes()),
        "P" => push_block(alloc, file, "page ", first, meant(alloc, tail).bytes()),
        "C" => push_block(alloc, file, "connect ", first, meant(alloc, tail).bytes()),
        "G" => push_block(alloc, file, "connect ", first, get_of(alloc, tail).bytes()),
        _ => {
            put(file, line.as_bytes());
            put(file, b"\n");
        }
    }
}

/// Appends the fields that tell of a body, where it has a kind.
fn push_kind(alloc: Global, listing: &mut Text, kind: &str, size: usize) {
    if !kind.is_empty() {
        put(listing, b"Content-Type: ");
        put(listing, kind.as_bytes());
        put(listing, b"\r\nContent-Length: ");
        put_number(alloc, listing, size as u64);
        put(listing, b"\r\n");
    }
}

/// Appends the response of a status, its fields, its kind, what becomes of the connection, and its body.
fn push_response(
    alloc: Global,
    listing: &mut Text,
    status: &str,
    fields: &str,
    ends: (&str, &str, &str),
) {
    let (kind, connection, body) = ends;
    let body = meant(alloc, body);
    put(listing, b"HTTP/1.1 ");
    put(listing, status.trim_start_matches('H').as_bytes());
    put(
        listing,
        b"\r\nDate: Thu, 01 Jan 1970 00:00:00 GMT\r\nServer: AOLserver-profile/1\r\n",
    );
    put(listing, meant(alloc, fields).bytes());
    push_kind(alloc, listing, kind, body.len());
    put(listing, b"Connection: ");
    put(listing, connection.as_bytes());
    put(listing, b"\r\n\r\n");
    if !status.starts_with('H') {
        put(listing, body.bytes());
    }
    put(listing, b"\n");
}

/// Appends the response that these parts, with a semicolon between, stand for.
fn push_reply(alloc: Global, listing: &mut Text, parts: &str) {
    let (status, rest) = parts.split_once(';').unwrap_or((parts, ""));
    let (fields, rest) = rest.split_once(';').unwrap_or((rest, ""));
    let (kind, rest) = rest.split_once(';').unwrap_or((rest, ""));
    let (connection, body) = rest.split_once(';').unwrap_or((rest, ""));
    push_response(alloc, listing, status, fields, (kind, connection, body));
}

/// Appends what a line of a row's listing stands for.
pub fn push_told(alloc: Global, listing: &mut Text, line: &str) {
    if let Some((front, parts)) = line.split_once(" <") {
        put(listing, front.as_bytes());
        put(listing, b"\n");
        push_reply(alloc, listing, parts);
    } else if let Some((front, block)) = line.split_once(" |") {
        put(listing, front.as_bytes());
        put(listing, b"\n");
        put(listing, meant(alloc, block).bytes());
        put(listing, b"\n");
    } else {
        put(listing, line.as_bytes());
        put(listing, b"\n");
    }
}

/// The file and the listing of some rows, one behind the other.
#[derive(Drop)]
struct Row {
    file: Text,
    listing: Text,
    /// Whether the lines of the listing have begun.
    told: bool,
}

impl Row {
    fn new(alloc: Global) -> Row {
        Row {
            file: Text::empty(alloc),
            listing: Text::empty(alloc),
            told: false,
        }
    }

    /// Takes a line; whether it ends the row.
    fn take(&mut self, alloc: Global, line: &str) -> bool {
        match line {
            "--" => return true,
            "=>" => self.told = true,
            _ if self.told => push_told(alloc, &mut self.listing, line),
            _ => push_event(alloc, &mut self.file, line),
        }
        false
    }

    /// Whether the file has the listing.
    fn is_right<L: Ledger>(&self, alloc: Global, steps: &mut Steps<L>) -> bool {
        let (file, listing) = (self.file.bytes(), self.listing.bytes());
        is_rehearsed(alloc, file, Rehearsal::Done, listing, steps)
    }

    /// Begins another row.
    fn clear(&mut self, alloc: Global) {
        self.file = Text::empty(alloc);
        self.listing = Text::empty(alloc);
        self.told = false;
    }
}

/// How many rows there are, where each file has its listing; `None` where one doesn't. The lines of the last row stay
/// in `row`.
fn right_rows<L: Ledger>(alloc: Global, row: &mut Row, steps: &mut Steps<L>) -> Option<u64> {
    let mut count = 1u64;
    for line in ROWS.lines() {
        if row.take(alloc, line) {
            if !row.is_right(alloc, steps) {
                return None;
            }
            row.clear(alloc);
            count = count.wrapping_add(1);
        }
    }
    if row.is_right(alloc, steps) {
        Some(count)
    } else {
        None
    }
}

// ---- the plain machine

/// Plays a file, and plays it on the plain machine: whether both come to the same.
fn both_agree<L: Ledger>(alloc: Global, file: &[u8], steps: &mut Steps<L>) -> bool {
    let (answer, written) = rehearsed(alloc, file, &AT_ONCE, steps);
    must_come(
        alloc,
        &Natives::new(alloc),
        file,
        answer,
        written.bytes(),
        steps,
    )
}

/// The first byte at which the first file is cut and the machines come to other things, if there is one.
fn first_wrong_cut<L: Ledger>(alloc: Global, steps: &mut Steps<L>) -> Option<usize> {
    for cut in 0..HI.len() + 1 {
        if !both_agree(alloc, &HI[..cut], steps) {
            return Some(cut);
        }
    }
    None
}

/// Numbers that are drawn one after the other.
#[derive(Clone, Copy, Debug)]
struct Dice {
    state: u64,
}

impl Dice {
    /// The next number below this one.
    fn below(&mut self, most: u64) -> u64 {
        self.state = self
            .state
            .wrapping_mul(6_364_136_223_846_793_005)
            .wrapping_add(1_442_695_040_888_963_407);
        (self.state >> 33).checked_rem(most).unwrap_or(0)
    }

    /// One of these texts.
    fn pick<'a>(&mut self, texts: &[&'a str]) -> &'a str {
        let place = self.below(texts.len() as u64);
        texts.get(place as usize).copied().unwrap_or("")
    }
}

/// Blocks that random files run.
const BLOCKS: &[&str] = &[
    "proc a {} {ns_return 200 text/plain [nsv_incr c n].[nsv_incr c n]}~ns_register_proc GET /a a",
    "proc a {} {set d [open /d]; nsv_append x k [read $d]; ns_return 200 text/plain [nsv_get x k]}~ns_register_proc GET /a a",
    "proc b {} {ns_eval {proc v {} {return [ns_ictl epoch]}}; ns_return 200 text/plain [ns_ictl epoch]}~ns_register_proc GET /b b",
    "proc b {} {catch {v} m; ns_return 200 text/plain $m}~ns_register_proc GET /b b",
    "proc c {} {rename a z; ns_ictl markfordelete; ns_return 200 text/plain [nsv_names]}~ns_register_proc GET /c c",
    "proc c {} {catch {ns_ictl save [ns_ictl get]} m; ns_return 200 text/plain $m}~ns_register_proc GET /c c",
    "proc d {} {ns_return 200 text/plain [ns_schedule_proc -once 3 {nsv_lappend s l [ns_time]}]}~ns_register_proc POST /d d",
    "proc t args {nsv_lappend t l [ns_time]; return filter_ok}~ns_register_filter trace * /a t",
    "proc f args {nsv_incr f n; return filter_break}~ns_register_filter preauth GET /b f",
    "ns_ictl oncleanup {nsv_incr clean n}",
    "ns_schedule_proc 7 {nsv_lappend s l [nsv_incr s n]; catch {v} m; set m}",
    "ns_unschedule_proc 1",
    "ns_ictl global g [nsv_incr g n]",
    "proc g {} {global g; set r $g; set g x; ns_return 200 text/plain $r}~ns_register_proc GET /g g",
    "ns_ictl save [ns_ictl get]",
    "rename a aa; rename b a",
    "nsv_names; error [nsv_names]",
    "proc e {} {error e}~ns_register_proc GET /e e; break",
];

/// Pages that random files set, each behind its path.
const SITES: &[&str] = &[
    "/d 1",
    "/d 22",
    "/p.adp <% nsv_incr p n %>x<% ns_adp_include /q.adp a %>y",
    "/p.adp <%= [nsv_incr p n] %>",
    "/q.adp <% ns_adp_puts [ns_adp_argc] %>",
    "/q.adp <% error e %>",
];

/// Inputs of connections in random files.
const INPUTS: &[&str] = &[
    "GET /a HTTP/1.1^~Host: l^~^~",
    "GET /a HTTP/1.1^~Host: l^~^~GET /b HTTP/1.1^~Host: l^~^~",
    "GET /b HTTP/1.1^~Host: l^~^~GET /c HTTP/1.1^~Host: l^~^~GET /g HTTP/1.1^~Host: l^~^~",
    "HEAD /a HTTP/1.1^~Host: l^~Connection: close^~^~GET /a HTTP/1.1^~Host: l^~^~",
    "POST /d HTTP/1.1^~Host: l^~Content-Length: 2^~^~xyGET /p.adp HTTP/1.1^~Host: l^~^~",
    "POST /d HTTP/1.1^~Host: l^~Transfer-Encoding: chunked^~^~1^~x^~0^~^~GET /e HTTP/1.1^~Host: l^~^~",
    "GET /p.adp HTTP/1.0^~^~",
    "GET /none HTTP/1.1^~Host: l^~^~GET /",
    "GET /a HTTP/1.1^~^~",
    "",
];

/// Appends a connection of a random input at a worker that runs first.
fn push_connection(alloc: Global, file: &mut Text, input: &str, worker: u64) {
    put_line(alloc, file, b"run", worker);
    put(file, b"connect ");
    put_number(alloc, file, worker);
    push_block(alloc, file, "", "", meant(alloc, input).bytes());
}

/// Appends a page that is set, behind its path.
fn push_page(alloc: Global, file: &mut Text, site: &str) {
    let (path, page) = site.split_once(' ').unwrap_or(("/", ""));
    push_block(alloc, file, "page ", path, page.as_bytes());
}

/// Appends a random event, where there are so many workers.
fn push_random(alloc: Global, file: &mut Text, dice: &mut Dice, workers: u64) {
    let worker = dice.below(workers);
    match dice.below(16) {
        0 | 1 => {
            let block = meant(alloc, dice.pick(BLOCKS));
            push_block(alloc, file, "define", "", block.bytes());
        }
        2 => push_page(alloc, file, dice.pick(SITES)),
        3 | 4 | 5 => push_connection(alloc, file, dice.pick(INPUTS), worker),
        6 => put_line(alloc, file, b"clock", dice.below(40)),
        7 => put(file, b"run s\n"),
        8 | 9 => put(file, b"step s\n"),
        10 => put_line(alloc, file, b"run", worker),
        _ => put_line(alloc, file, b"step", worker),
    }
}

/// Appends ten blocks.
fn push_blocks(alloc: Global, file: &mut Text) {
    for block in BLOCKS.iter().take(10) {
        push_block(alloc, file, "define", "", meant(alloc, block).bytes());
    }
}

/// Appends a run of each of so many workers.
fn push_runs(alloc: Global, file: &mut Text, workers: u64) {
    for worker in 0..workers {
        put_line(alloc, file, b"run", worker);
    }
}

/// A random file by a seed: one worker to four, and so many events.
fn random_file(alloc: Global, seed: u64, events: u64) -> Text {
    let mut dice = Dice { state: seed };
    let workers = dice.below(MOST_WORKERS).saturating_add(1);
    let mut file = Text::empty(alloc);
    put_line(alloc, &mut file, b"workers", workers);
    push_blocks(alloc, &mut file);
    for _ in 0..events {
        push_random(alloc, &mut file, &mut dice, workers);
    }
    push_runs(alloc, &mut file, workers);
    put(&mut file, b"clock 99\nrun s\n");
    file
}

/// How many random files are played, how many workers each has at most, and how many events.
const FILES: u64 = 28;

const MOST_WORKERS: u64 = 4;

const EVENTS: u64 = 60;

/// The seed of the first random file of which the machines come to other things, if there is one.
fn first_wrong_seed<L: Ledger>(alloc: Global, steps: &mut Steps<L>) -> Option<u64> {
    for seed in 0..FILES {
        let file = random_file(alloc, seed, EVENTS);
        if !both_agree(alloc, file.bytes(), steps) {
            return Some(seed);
        }
    }
    None
}

// ---- the outside

/// A way to feed and drain a file, the answer, and how many bytes of a listing are written.
type Fed = (
    usize,
    &'static [u64],
    usize,
    &'static [u64],
    Rehearsal,
    usize,
);

/// Ways to feed and drain the first file.
const PIECES: &[Fed] = &[
    (1, &[], 1, &[], Rehearsal::Done, HI_LISTING.len()),
    (7, &[], 100, &[], Rehearsal::Done, HI_LISTING.len()),
    // What is told of the block goes out by the first write, which takes 10 bytes. Then the next takes 100, and the
    // one behind it fails.
    (
        200,
        &[],
        100,
        &[2],
        Rehearsal::WriteFault { sent: 110 },
        110,
    ),
    (200, &[], 100, &[1], Rehearsal::WriteFault { sent: 10 }, 10),
    (200, &[], 100, &[0], Rehearsal::WriteFault { sent: 0 }, 0),
    // The first read gives so many bytes, and the second fails. The listing of the block has 10 bytes.
    (79, &[1], 1000, &[], Rehearsal::ReadFault, 10),
    (78, &[1], 1000, &[], Rehearsal::ReadFault, 0),
    (200, &[1], 1000, &[], Rehearsal::ReadFault, HI_LISTING.len()),
    // The sink fails before the source does.
    (200, &[1], 100, &[1], Rehearsal::WriteFault { sent: 10 }, 10),
];

/// Ways to feed and drain an event that is none: it is told once its line is there, and the source isn't read any
/// more; a fault of the source before that goes first.
const BAD_EVENTS: &[Fed] = &[
    (2, &[1], 1000, &[], Rehearsal::BadEvent { event: 1 }, 0),
    (1, &[1], 1000, &[], Rehearsal::ReadFault, 0),
];

/// Whether a file that is fed and drained so comes to what its row says.
fn is_fed<L: Ledger>(alloc: Global, file: &[u8], fed: Fed, steps: &mut Steps<L>) -> bool {
    let (gives, bad_reads, takes, bad_writes, want, size) = fed;
    let outside = Outside {
        gives,
        bad_reads,
        takes,
        bad_writes,
    };
    let (answer, written) = rehearsed(alloc, file, &outside, steps);
    answer == want && written.bytes() == HI_LISTING.get(..size).unwrap_or(b"")
}

/// The place of the first of these ways that is wrong for a file, if there is one.
fn first_wrong_fed<L: Ledger>(
    alloc: Global,
    file: &[u8],
    rows: &[Fed],
    steps: &mut Steps<L>,
) -> Option<usize> {
    for (at, fed) in rows.iter().enumerate() {
        if !is_fed(alloc, file, *fed, steps) {
            return Some(at);
        }
    }
    None
}

// ---- the tests

/// How many files end as they must, and the places of the first wrong ways to feed one and an event that is none.
fn check_short_files<L: Ledger>(
    alloc: Global,
    blank: Blank,
) -> (Option<u64>, Option<usize>, Option<usize>)
    requires name { blank.name ≡ L.name }
    requires parts { blank.parts ≡ L.parts }
    requires some { 0 < blank.parts }
{
    let mut steps = Steps::<L>::new(blank);
    let ends = right_ends(alloc, &mut steps);
    let pieces = first_wrong_fed(alloc, HI, PIECES, &mut steps);
    let bad = first_wrong_fed(alloc, b"x\nrun 0\n", BAD_EVENTS, &mut steps);
    (ends, pieces, bad)
}

#[test]
fn files_end_as_they_must(rt: HostRuntime) {
    let came = check_short_files::<Brand>(rt.alloc(), Blank::new(1));
    assert_eq!(rt; came, (Some(ENDS_COUNT), None, None));
}

/// How many files have their listings, where all have.
fn check_listings<L: Ledger>(alloc: Global, blank: Blank) -> Option<u64>
    requires name { blank.name ≡ L.name }
    requires parts { blank.parts ≡ L.parts }
    requires some { 0 < blank.parts }
{
    let mut steps = Steps::<L>::new(blank);
    right_rows(alloc, &mut Row::new(alloc), &mut steps)
}

#[test]
fn files_have_their_listings(rt: HostRuntime) {
    let came = check_listings::<Brand>(rt.alloc(), Blank::new(1));
    assert_eq!(rt; came, Some(ROWS_COUNT));
}

/// The first cut of the first file, and the seed of the first random file, of which the machines come to other
/// things, if there are some.
fn check_machines<L: Ledger>(alloc: Global, blank: Blank) -> (Option<usize>, Option<u64>)
    requires name { blank.name ≡ L.name }
    requires parts { blank.parts ≡ L.parts }
    requires some { 0 < blank.parts }
{
    let mut steps = Steps::<L>::new(blank);
    let cut = first_wrong_cut(alloc, &mut steps);
    (cut, first_wrong_seed(alloc, &mut steps))
}

#[test]
fn the_plain_machine_agrees(rt: HostRuntime) {
    let came = check_machines::<Brand>(rt.alloc(), Blank::new(1));
    assert_eq!(rt; came, (None, None));
}
