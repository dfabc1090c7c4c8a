//! Large files, and files at the limits of what they may hold.

ghost use Rattle.std.specs.Prelude.{◌≡◌, ◌<◌};

use crate::machine::{
    HI, counted, is_rehearsed, push_block, push_event, push_told, put, put_number, text,
};
use cmd_table::Steps;
use rehearse::{Counted, Rehearsal, Tally};
use std::alloc::Global;
use std::marker::Brand;
use std::sync::ledger::{Blank, Ledger};
use txt_core::Text;

/// The byte of a file past which no event may go.
const MOST_BYTES: usize = 67_108_864;

/// The most bytes of a page, of a block that is run, and of a request's body.
const MOST_PAGE: usize = 1_048_576;

const MOST_BLOCK: usize = 8_388_608;

const MOST_BODY: usize = 8_388_608;

/// Appends `front`, so often `unit`, and `back`.
fn push_repeated(text: &mut Text, front: &[u8], unit: &[u8], count: u64, back: &[u8]) {
    put(text, front);
    for _ in 0..count {
        put(text, unit);
    }
    put(text, back);
}

/// A request of the first file.
const GET_HI: &[u8] = b"GET /hi HTTP/1.1\r\nHost: l\r\n\r\n";

/// The first file with a connection of 99 requests and these in the place of one.
fn many_requests(alloc: Global, last: &[u8]) -> Text {
    let mut input = Text::empty(alloc);
    push_repeated(&mut input, b"", GET_HI, 99, last);
    let mut file = text(alloc, HI.get(..79).unwrap_or(b""));
    push_block(alloc, &mut file, "connect ", "0", input.bytes());
    put(&mut file, b"run 0\n");
    file
}

/// What comes of it: 100 responses, the last of which closes, and this end.
fn many_responses(alloc: Global, end: &str) -> Text {
    let mut listing = text(alloc, b"defined 1\n");
    for _ in 0..99 {
        let line = "response 0 1 156 <200 OK;;text/plain;keep-alive;hi";
        push_told(alloc, &mut listing, line);
    }
    let line = "response 0 1 151 <200 OK;;text/plain;close;hi";
    push_told(alloc, &mut listing, line);
    push_told(alloc, &mut listing, end);
    listing
}

/// The last requests of a connection of a hundred or more, and its end: it has a hundred requests at most, whether
/// more would follow or not; where the hundredth asks to close, that is why it closes.
const MANY: &[(&[u8], &str)] = &[
    (
        b"GET /hi HTTP/1.1\r\nHost: l\r\n\r\nGET /hi HTTP/1.1\r\nHost: l\r\n\r\n",
        "closed 0 spent",
    ),
    (GET_HI, "closed 0 spent"),
    (
        b"GET /hi HTTP/1.1\r\nHost: l\r\nConnection: close\r\n\r\n",
        "closed 0 closing",
    ),
];

/// What is counted of them.
const HUNDRED: Tally = Tally {
    found: 100,
    missing: 0,
    bytes: 99 * 156 + 151,
};

/// Whether so many requests come to what they must.
fn are_many<L: Ledger>(alloc: Global, last: &[u8], end: &str, steps: &mut Steps<L>) -> bool {
    let file = many_requests(alloc, last);
    let listing = many_responses(alloc, end);
    let counted = counted(alloc, file.bytes(), &[], steps) == Counted::Done(HUNDRED);
    let (file, listing) = (file.bytes(), listing.bytes());
    is_rehearsed(alloc, file, Rehearsal::Done, listing, steps) && counted
}

/// The place of the first of them that is wrong, if there is one.
fn first_wrong_many<L: Ledger>(alloc: Global, steps: &mut Steps<L>) -> Option<usize> {
    for (at, (last, end)) in MANY.iter().enumerate() {
        if !are_many(alloc, last, end, steps) {
            return Some(at);
        }
    }
    None
}

/// A connection with this input, which is served.
fn connection(alloc: Global, input: &[u8]) -> Text {
    let mut file = Text::empty(alloc);
    push_block(alloc, &mut file, "connect ", "0", input);
    put(&mut file, b"run 0\n");
    file
}

/// What these lines stand for.
fn listing_of(alloc: Global, lines: &[&str]) -> Text {
    let mut listing = Text::empty(alloc);
    for line in lines {
        push_told(alloc, &mut listing, line);
    }
    listing
}

/// Whether these lines come of a connection with this input.
fn is_served<L: Ledger>(alloc: Global, input: &[u8], lines: &[&str], steps: &mut Steps<L>) -> bool {
    let file = connection(alloc, input);
    let listing = listing_of(alloc, lines);
    is_rehearsed(alloc, file.bytes(), Rehearsal::Done, listing.bytes(), steps)
}

/// What comes of a head that is too large, and of a request that nothing serves.
const TOO_LARGE: &[&str] = &[
    "response 0 - 215 <431 Request Header Fields Too Large;;text/plain;close;431 Request Header Fields Too Large~",
    "closed 0 refused 431",
];

const MISSED: &[&str] = &[
    "response 0 0 176 <404 Not Found;;text/plain;keep-alive;404 Not Found~",
    "closed 0 ended",
];

/// The head of a request of one field.
const FRONT: &[u8] = b"GET /x HTTP/1.1\r\nHost: l\r\n";

/// What stands before and behind so many times a text, and what comes of it: a head of 16,384 bytes without an end is
/// refused, and so is one of 101 fields, but not one of 100; and of the largest input no more than that is looked at.
const HEADS: &[(&[u8], &[u8], u64, &[u8], &[&str])] = &[
    (b"", b"AAAAAAAAAAAAAAAA", 1024, b"", TOO_LARGE),
    // 16,777,216 bytes
    (b"", b"AAAAAAAAAAAAAAAA", 1_048_576, b"", TOO_LARGE),
    (FRONT, b"A: b\r\n", 99, b"\r\n", MISSED),
    (FRONT, b"A: b\r\n", 100, b"\r\n", TOO_LARGE),
];

/// Whether a head that is repeated so comes to what it must.
fn is_head<L: Ledger>(
    alloc: Global,
    row: (&[u8], &[u8], u64, &[u8], &[&str]),
    steps: &mut Steps<L>,
) -> bool {
    let (front, unit, count, back, lines) = row;
    let mut input = Text::empty(alloc);
    push_repeated(&mut input, front, unit, count, back);
    is_served(alloc, input.bytes(), lines, steps)
}

/// The place of the first of them that is wrong, if there is one.
fn first_wrong_head<L: Ledger>(alloc: Global, steps: &mut Steps<L>) -> Option<usize> {
    for (at, row) in HEADS.iter().enumerate() {
        if !is_head(alloc, *row, steps) {
            return Some(at);
        }
    }
    None
}

/// A text of so many bytes, each of them this one; the empty one where memory wants.
fn filled(alloc: Global, byte: u8, size: usize) -> Text {
    match vec![in alloc; byte; size] {
        Ok(bytes) => Text::from_vec(bytes),
        Err(_) => Text::empty(alloc),
    }
}

/// A request with the largest body.
fn largest_request(alloc: Global) -> Text {
    let mut input = text(alloc, b"POST /x HTTP/1.1\r\nHost: l\r\nContent-Length: ");
    put_number(alloc, &mut input, MOST_BODY as u64);
    put(&mut input, b"\r\n\r\n");
    put(&mut input, filled(alloc, b'b', MOST_BODY).bytes());
    input
}

/// Whether the largest body is taken, and none of it is left.
fn is_largest_body<L: Ledger>(alloc: Global, steps: &mut Steps<L>) -> bool {
    is_served(alloc, largest_request(alloc).bytes(), MISSED, steps)
}

/// A file of the largest page, the largest block, and a request of the page.
fn largest_blocks(alloc: Global, page: &[u8]) -> Text {
    let mut file = Text::empty(alloc);
    push_block(alloc, &mut file, "page ", "/p.adp", page);
    let block = filled(alloc, b'\n', MOST_BLOCK);
    push_block(alloc, &mut file, "define", "", block.bytes());
    push_event(alloc, &mut file, "G 0 /p.adp");
    put(&mut file, b"run 0\n");
    file
}

/// What comes of it before the page.
const BEFORE_PAGE: &[u8] = b"defined 0\nresponse 0 0 1048735\n\
    HTTP/1.1 200 OK\r\nDate: Thu, 01 Jan 1970 00:00:00 GMT\r\n\
    Server: AOLserver-profile/1\r\nContent-Type: text/html\r\n\
    Content-Length: 1048576\r\nConnection: keep-alive\r\n\r\n";

/// What comes of it.
fn largest_listing(alloc: Global, page: &[u8]) -> Text {
    let mut listing = text(alloc, BEFORE_PAGE);
    put(&mut listing, page);
    put(&mut listing, b"\nclosed 0 ended\n");
    listing
}

/// Whether the largest page is served, and the largest block is run.
fn are_largest_blocks<L: Ledger>(alloc: Global, steps: &mut Steps<L>) -> bool {
    let page = filled(alloc, b'a', MOST_PAGE);
    let file = largest_blocks(alloc, page.bytes());
    let listing = largest_listing(alloc, page.bytes());
    is_rehearsed(alloc, file.bytes(), Rehearsal::Done, listing.bytes(), steps)
}

/// Appends so many of the largest pages.
fn push_pages(alloc: Global, file: &mut Text, count: u32) {
    let page = filled(alloc, b'a', MOST_PAGE);
    for _ in 0..count {
        push_block(alloc, file, "page ", "/a", page.bytes());
    }
}

/// A file of 63 of the largest pages and one that leaves so many bytes up to the limit, and a last event.
fn full_file(alloc: Global, left: usize) -> Text {
    let mut file = Text::empty(alloc);
    push_pages(alloc, &mut file, 63);
    // "page /a ", a length of seven digits, and two newlines
    let around = 17;
    let size = MOST_BYTES
        .saturating_sub(file.len())
        .saturating_sub(around)
        .saturating_sub(left);
    let last = filled(alloc, b'a', size);
    push_block(alloc, &mut file, "page ", "/a", last.bytes());
    put(&mut file, b"run 0\n");
    file
}

/// Whether a file that leaves so many bytes for its last event ends so, and nothing is listed.
fn is_full<L: Ledger>(alloc: Global, left: usize, want: Rehearsal, steps: &mut Steps<L>) -> bool {
    let file = full_file(alloc, left);
    is_rehearsed(alloc, file.bytes(), want, b"", steps)
}

/// Appends a page that includes the next.
fn push_nested(alloc: Global, file: &mut Text, number: u64) {
    let mut page = text(alloc, b"<% ns_adp_include /p");
    put_number(alloc, &mut page, number.saturating_add(1));
    put(&mut page, b".adp %>");
    put(file, b"page /p");
    put_number(alloc, file, number);
    push_block(alloc, file, ".adp", "", page.bytes());
}

/// Pages, each of which includes the next, and a request of the first.
fn nested_pages(alloc: Global, count: u64) -> Text {
    let mut file = Text::empty(alloc);
    for number in 1..count {
        push_nested(alloc, &mut file, number);
    }
    put(&mut file, b"page /p");
    put_number(alloc, &mut file, count);
    push_block(alloc, &mut file, ".adp", "", b"<%= ok %>");
    push_event(alloc, &mut file, "G 0 /p1.adp");
    put(&mut file, b"run 0\n");
    file
}

/// Whether so many pages that stand in one another come to these lines.
fn are_nested<L: Ledger>(alloc: Global, count: u64, lines: &[&str], steps: &mut Steps<L>) -> bool {
    let file = nested_pages(alloc, count);
    let listing = listing_of(alloc, lines);
    is_rehearsed(alloc, file.bytes(), Rehearsal::Done, listing.bytes(), steps)
}

/// What comes of two hundred pages, which may stand in one another, and of one more.
const NESTED: &[&str] = &[
    "response 0 0 155 <200 OK;;text/html;keep-alive;ok",
    "closed 0 ended",
];

const TOO_DEEP: &[&str] = &[
    "response 0 0 191 <500 Internal Server Error;;text/plain;keep-alive;nesting too deep~",
    "closed 0 ended",
];

/// Whether two hundred pages may stand in one another, and no more.
fn nests<L: Ledger>(alloc: Global, steps: &mut Steps<L>) -> bool {
    are_nested(alloc, 200, NESTED, steps) && are_nested(alloc, 201, TOO_DEEP, steps)
}

/// Events behind the first file.
const COUNTED: &[&str] = &[
    "G 0 /none",
    "run 0",
    "C 0 GET / HTTP/1.1^~Host: l^~Host: l^~^~",
    "run 0",
];

/// The first file with these.
fn counted_file(alloc: Global) -> Text {
    let mut file = text(alloc, HI);
    for line in COUNTED {
        push_event(alloc, &mut file, line);
    }
    file
}

/// What is counted of them: responses of two statuses, and the bytes of all.
const BOTH: Tally = Tally {
    found: 1,
    missing: 1,
    bytes: 156 + 176 + 175,
};

/// Whether what is counted is told so.
fn is_summary(alloc: Global, tally: Tally, requests: u32, want: &[u8]) -> bool {
    match tally.summary(alloc, requests) {
        Ok(summary) => summary.bytes() == want,
        Err(_) => false,
    }
}

/// Whether this is counted of a file, the reads of which fail that are listed.
fn counts<L: Ledger>(
    alloc: Global,
    file: &[u8],
    bad_reads: &[u64],
    want: Counted,
    steps: &mut Steps<L>,
) -> bool {
    counted(alloc, file, bad_reads, steps) == want
}

/// Whether it is counted and told what must be: nothing where a read fails, and none of a file with an event that is
/// none.
fn is_counted<L: Ledger>(alloc: Global, steps: &mut Steps<L>) -> bool {
    let file = counted_file(alloc);
    let file = file.bytes();
    let bad = Counted::BadEvent { event: 2 };
    let lines = b"requests 3\nstatus 200 1\nstatus 404 1\nbytes 507\n";
    counts(alloc, file, &[], Counted::Done(BOTH), steps)
        && counts(alloc, file, &[0], Counted::ReadFault, steps)
        && counts(alloc, file, &[1], Counted::ReadFault, steps)
        && is_summary(alloc, BOTH, 3, lines)
        && counts(alloc, b"run 0\nrun 1\n", &[], bad, steps)
}

/// The places of the first wrong rows of many requests and of heads, and whether pages nest and files are counted as
/// they must.
fn check_large_files<L: Ledger>(
    alloc: Global,
    blank: Blank,
) -> (Option<usize>, Option<usize>, bool, bool)
    requires name { blank.name ≡ L.name }
    requires parts { blank.parts ≡ L.parts }
    requires some { 0 < blank.parts }
{
    let mut steps = Steps::<L>::new(blank);
    let many = first_wrong_many(alloc, &mut steps);
    let head = first_wrong_head(alloc, &mut steps);
    let nests = nests(alloc, &mut steps);
    (many, head, nests, is_counted(alloc, &mut steps))
}

#[test]
fn large_files_have_their_limits(rt: HostRuntime) {
    let came = check_large_files::<Brand>(rt.alloc(), Blank::new(1));
    assert_eq!(rt; came, (None, None, true, true));
}

/// Whether the largest body, and whether the largest page and the largest block, come to what they must.
fn check_largest<L: Ledger>(alloc: Global, blank: Blank) -> (bool, bool)
    requires name { blank.name ≡ L.name }
    requires parts { blank.parts ≡ L.parts }
    requires some { 0 < blank.parts }
{
    let mut steps = Steps::<L>::new(blank);
    let body = is_largest_body(alloc, &mut steps);
    (body, are_largest_blocks(alloc, &mut steps))
}

#[test]
fn the_largest_of_each_is_taken(rt: HostRuntime) {
    let came = check_largest::<Brand>(rt.alloc(), Blank::new(1));
    assert_eq!(rt; came, (true, true));
}

/// Whether an event may end at the last byte of a file, and whether none may behind it.
fn check_whole_file<L: Ledger>(alloc: Global, blank: Blank) -> (bool, bool)
    requires name { blank.name ≡ L.name }
    requires parts { blank.parts ≡ L.parts }
    requires some { 0 < blank.parts }
{
    let mut steps = Steps::<L>::new(blank);
    let fits = is_full(alloc, 6, Rehearsal::Done, &mut steps);
    let behind = Rehearsal::BadEvent { event: 65 };
    (fits, is_full(alloc, 5, behind, &mut steps))
}

#[test]
fn a_file_ends_at_its_last_byte(rt: HostRuntime) {
    let came = check_whole_file::<Brand>(rt.alloc(), Blank::new(1));
    assert_eq!(rt; came, (true, true));
}
