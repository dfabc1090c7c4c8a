//! Sessions of one worker: rows with the bytes and ends that the rules give.

use crate::desk::Desk;
use crate::site::{GET_HI, HI, REPLY_HI, on_desk};
use crate::wire::{Told, Wire, pages_of, put, text};
use outside::OpenGate;
use std::alloc::Global;
use std::sync::Wait;
use txt_core::Text;
use worker::{End, EvalEnd, ServedOutcome};

/// The body of a reply: what stands behind its first empty line.
fn body(bytes: &[u8]) -> &[u8] {
    for at in 4..bytes.len() {
        if bytes[..at].ends_with(b"\r\n\r\n") {
            return &bytes[at..];
        }
    }
    &[]
}

/// Whether a session served one request with exactly the reply to `GET /hi`, to the end of its input.
fn is_hi(told: &Told) -> bool {
    told.end == End::Ended && told.count == 1 && told.bytes.bytes() == REPLY_HI
}

/// Whether the worker serves `GET /hi` as it should.
pub(crate) fn serves_hi<R: Wait>(rt: &R, alloc: Global, desk: &mut Desk<'_>) -> bool {
    is_hi(&desk.serve(rt, alloc, Wire::of(GET_HI)))
}

/// A GET of a path.
fn get_of(alloc: Global, path: &str) -> Text {
    let mut input = text(alloc, b"GET ");
    put(&mut input, path.as_bytes());
    put(&mut input, b" HTTP/1.1\r\nHost: l\r\n\r\n");
    input
}

/// Whether the reply to a GET of a path has this body.
pub(crate) fn has_body<R: Wait>(
    rt: &R,
    alloc: Global,
    desk: &mut Desk<'_>,
    path: &str,
    want: &[u8],
) -> bool {
    let input = get_of(alloc, path);
    let told = desk.serve(rt, alloc, Wire::of(input.bytes()));
    body(told.bytes.bytes()) == want
}

/// A text, an input so many times over, and another text.
fn repeated_between(
    alloc: Global,
    before: &[u8],
    input: &[u8],
    times: usize,
    behind: &[u8],
) -> Text {
    let mut all = text(alloc, before);
    for _time in 0..times {
        put(&mut all, input);
    }
    put(&mut all, behind);
    all
}

/// An input so many times over.
pub(crate) fn repeated(alloc: Global, input: &[u8], times: usize) -> Text {
    repeated_between(alloc, b"", input, times, b"")
}

/// Two requests for `GET /hi`.
const TWO_HI: &[u8] = b"GET /hi HTTP/1.1\r\nHost: l\r\n\r\nGET /hi HTTP/1.1\r\nHost: l\r\n\r\n";

/// Whether two requests for `GET /hi`, which come and go in pieces of this size, get their replies.
fn is_served_in_pieces<R: Wait>(rt: &R, alloc: Global, desk: &mut Desk<'_>, piece: usize) -> bool {
    let mut wire = Wire::of(TWO_HI);
    wire.read_piece = piece.max(1);
    wire.write_piece = piece.max(1);
    let told = desk.serve(rt, alloc, wire);
    let bytes = told.bytes.bytes();
    let first = bytes.starts_with(REPLY_HI);
    let second = bytes.len() == 312 && bytes.ends_with(REPLY_HI);
    first && second && told.end == End::Ended && told.count == 2
}

/// How many sizes of pieces from 1 are right, up to the first that isn't, or to that of all the input.
fn right_pieces<R: Wait>(rt: &R, alloc: Global, desk: &mut Desk<'_>) -> usize {
    for piece in 1..59usize {
        if !is_served_in_pieces(rt, alloc, desk, piece) {
            return piece - 1;
        }
    }
    58
}

#[test]
fn input_may_be_cut_anywhere(rt: HostRuntime) {
    let alloc = rt.alloc();
    let right = on_desk(&rt, alloc, &[HI], |desk| right_pieces(&rt, alloc, desk));
    assert!(rt; right == Some(58));
}

/// What a session tells of this input: its end, how many requests were served, the bytes of the last reply,
/// and all bytes.
fn told_of<R: Wait>(
    rt: &R,
    alloc: Global,
    desk: &mut Desk<'_>,
    input: &[u8],
) -> (End, usize, u64, usize) {
    let told = desk.serve(rt, alloc, Wire::of(input));
    (told.end, told.count, told.wrote, told.bytes.len())
}

/// What a session tells of a hundred and one requests for `GET /hi`.
fn told_of_many<R: Wait>(rt: &R, alloc: Global, desk: &mut Desk<'_>) -> (End, usize, u64, usize) {
    let many = repeated(alloc, GET_HI, 101);
    told_of(rt, alloc, desk, many.bytes())
}

/// Whether the hundredth request is the last, and one that asks to close or is of HTTP/1.0. The last reply
/// says `close` in place of `keep-alive`.
fn ends_in_time<R: Wait>(rt: &R, alloc: Global, desk: &mut Desk<'_>) -> bool {
    let hundredth = told_of_many(rt, alloc, desk);
    let closing = told_of(rt, alloc, desk, CLOSING);
    let old = told_of(rt, alloc, desk, b"GET /hi HTTP/1.0\r\n\r\n");
    hundredth == (End::Spent, 100, 151, 99 * 156 + 151)
        && closing == (End::Closing, 1, 151, 151)
        && old == (End::Closing, 1, 151, 151)
}

/// A request that asks to close, and what stands behind it.
const CLOSING: &[u8] =
    b"GET /hi HTTP/1.1\r\nHost: l\r\nConnection: close\r\n\r\nGET /hi HTTP/1.1\r\n";

#[test]
fn the_hundredth_request_is_the_last(rt: HostRuntime) {
    let alloc = rt.alloc();
    let right = on_desk(&rt, alloc, &[HI], |desk| ends_in_time(&rt, alloc, desk));
    assert!(rt; right == Some(true));
}

/// Whether a sink that fails behind 100 bytes cuts the reply to `GET /hi` short.
fn is_cut_short<R: Wait>(rt: &R, alloc: Global, desk: &mut Desk<'_>) -> bool {
    let mut wire = Wire::of(GET_HI);
    wire.write_piece = 100;
    wire.writes = &[1];
    let told = desk.serve(rt, alloc, wire);
    told.end == (End::WriteFault { sent: 100 })
        && told.count == 1
        && told.wrote == 100
        && told.outcome == ServedOutcome::Answered
        && told.bytes.bytes() == &REPLY_HI[..100]
}

/// A server whose trace filter marks, and which tells whether it did.
const MARKING: &str = "proc hi {} {ns_return 200 text/plain hi}
ns_register_proc GET /hi hi
proc t args {nsv_incr m t; return filter_ok}
ns_register_filter trace GET /hi t
proc m {} {ns_return 200 text/plain [nsv_exists m t]}
ns_register_proc GET /m m
";

/// Whether a reply is cut short, nothing was marked behind it, and the same worker then serves the request
/// whole and marks that.
fn marks_whole_replies<R: Wait>(rt: &R, alloc: Global, desk: &mut Desk<'_>) -> bool {
    let short = is_cut_short(rt, alloc, desk);
    let unmarked = has_body(rt, alloc, desk, "/m", b"0");
    let whole = serves_hi(rt, alloc, desk);
    let marked = has_body(rt, alloc, desk, "/m", b"1");
    short && unmarked && whole && marked
}

#[test]
fn nothing_runs_behind_a_write_fault(rt: HostRuntime) {
    let alloc = rt.alloc();
    let right = on_desk(
        &rt,
        alloc,
        &[MARKING],
        |desk| marks_whole_replies(&rt, alloc, desk),
    );
    assert!(rt; right == Some(true));
}

/// Inputs that are refused, cut short or find nothing, with the length of what goes out and the end.
const HOSTILE: &[(&[u8], usize, End)] = &[
    (b"\x01\n", 175, End::Refused { status: 400 }),
    (b"\x01", 0, End::Truncated { have: 1 }),
    (
        b"PATCH /x HTTP/1.1\r\nHost: l\r\n\r\n",
        183,
        End::Refused { status: 501 },
    ),
    (
        b"POST /x HTTP/1.1\r\nHost: l\r\nContent-Length: 5\r\nContent-Length: 05\r\n\r\nabcde",
        175,
        End::Refused { status: 400 },
    ),
    (
        b"GET /a/%2e%2e/b HTTP/1.1\r\nHost: l\r\n\r\n",
        175,
        End::Refused { status: 400 },
    ),
    (b"GET /%zz HTTP/1.1\r\nHost: l\r\n\r\n", 176, End::Ended),
    (b"GET /none HTTP/1.1\r\nHost: l\r\n\r\n", 176, End::Ended),
    (b"HEAD /none HTTP/1.1\r\nHost: l\r\n\r\n", 162, End::Ended),
    (
        b"GET /hi HTTP/1.1\r\nHost: l\r\n\r\nGET /h",
        156,
        End::Truncated { have: 6 },
    ),
    (
        b"POST /x HTTP/1.1\r\nHost: l\r\nContent-Length: 5\r\n\r\nabc",
        0,
        End::Truncated { have: 51 },
    ),
    (
        b"POST /x HTTP/1.1\r\nHost: l\r\nContent-Length: 8388609\r\n\r\n",
        187,
        End::Refused { status: 413 },
    ),
    (
        b"POST /x HTTP/1.1\r\nHost: l\r\nTransfer-Encoding: chunked\r\n\r\nzz\r\n",
        175,
        End::Refused { status: 400 },
    ),
    (
        b"POST /x HTTP/1.1\r\nHost: l\r\nTransfer-Encoding: chunked\r\n\r\n3\r\nabc\r\n2\r\nde\r\n0\r\n",
        0,
        End::Truncated { have: 75 },
    ),
    (b"", 0, End::Ended),
];

/// Whether a session of this input ends so, with so many bytes that go out, and the worker serves `GET /hi`
/// behind it.
fn ends_so<R: Wait>(
    rt: &R,
    alloc: Global,
    desk: &mut Desk<'_>,
    input: &[u8],
    size: usize,
    end: End,
) -> bool {
    let told = desk.serve(rt, alloc, Wire::of(input));
    let is_right = told.end == end && told.bytes.len() == size;
    drop(told);
    serves_hi(rt, alloc, desk) && is_right
}

/// How many rows are right, up to the first that isn't.
fn right_ends<R: Wait>(
    rt: &R,
    alloc: Global,
    desk: &mut Desk<'_>,
    rows: &[(&[u8], usize, End)],
) -> usize {
    let mut right = 0usize;
    for (input, size, end) in rows {
        if !ends_so(rt, alloc, desk, input, *size, *end) {
            return right;
        }
        right = right.saturating_add(1);
    }
    right
}

/// Whether a head is refused that has this line so many times between two texts.
fn refuses_head<R: Wait>(
    rt: &R,
    alloc: Global,
    desk: &mut Desk<'_>,
    first: &[u8],
    line: &[u8],
    times: usize,
    behind: &[u8],
) -> bool {
    let head = repeated_between(alloc, first, line, times, behind);
    let end = End::Refused { status: 431 };
    ends_so(rt, alloc, desk, head.bytes(), 215, end)
}

/// Whether heads that are too long, or have a hundred and one fields, are refused.
fn refuses_large_heads<R: Wait>(rt: &R, alloc: Global, desk: &mut Desk<'_>) -> bool {
    let refuses_long = refuses_head(rt, alloc, desk, b"", b"A", 16_384, b"");
    let first = b"GET /x HTTP/1.1\r\n";
    let refuses_many = refuses_head(rt, alloc, desk, first, b"a: b\r\n", 101, b"\r\n");
    refuses_long && refuses_many
}

/// How many of the rows are right, and whether those heads are refused.
fn all_ends<R: Wait>(rt: &R, alloc: Global, desk: &mut Desk<'_>) -> (usize, bool) {
    let right = right_ends(rt, alloc, desk, HOSTILE);
    (right, refuses_large_heads(rt, alloc, desk))
}

#[test]
fn hostile_input_is_refused(rt: HostRuntime) {
    let alloc = rt.alloc();
    let came = on_desk(&rt, alloc, &[HI], |desk| all_ends(&rt, alloc, desk));
    assert!(rt; came == Some((14, true)));
}

/// Pages of which one includes the other.
const HELLO: &[(&[u8], &[u8])] = &[
    (b"/head.adp", b"<h1>Welcome</h1>"),
    (
        b"/hello.adp",
        b"<% ns_adp_include /head.adp %><% set x [ns_queryget name] %><p>Hello <%= $x %></p>",
    ),
];

/// A request for the page that includes the other, with the fields that browsers send: 288 bytes.
const GET_HELLO: &[u8] = b"GET /hello.adp?name=Ann+Lee HTTP/1.1\r\n\
    Host: l\r\n\
    User-Agent: a\r\n\
    Accept: text/html\r\n\
    Accept-Language: en\r\n\
    Accept-Encoding: gzip\r\n\
    Referer: http://l/\r\n\
    Cookie: c=d\r\n\
    Connection: keep-alive\r\n\
    Upgrade-Insecure-Requests: 1\r\n\
    Sec-Fetch-Dest: document\r\n\
    Sec-Fetch-Mode: navigate\r\n\
    Sec-Fetch-Site: none\r\n\
    \r\n";

/// What of the outside is to fail.
#[derive(Clone, Copy, Debug, PartialEq, Eq)]
enum Kind {
    Read,
    Write,
    Page,
}

/// What came of a session in which a call of this kind was to fail: whether it is as it must be, and
/// whether no call failed.
///
/// Behind a failed read there is no reply, or the whole one. Of what a failed write cut short a part stands.
/// A page that can't be read makes a reply that says no more than that.
fn judge(told: &Told, kind: Kind) -> (bool, bool) {
    let bytes = told.bytes.bytes();
    let size = bytes.len() as u64;
    let whole = body(bytes) == b"<h1>Welcome</h1><p>Hello Ann Lee</p>".as_slice();
    match told.end {
        End::Ended if whole => (told.wrote == 190 && size == 190, true),
        End::Ended => (
            kind == Kind::Page && size == 200 && bytes.starts_with(b"HTTP/1.1 500 "),
            false,
        ),
        End::ReadFault => (kind == Kind::Read && (size == 0 || whole), false),
        End::WriteFault { sent } => (kind == Kind::Write && sent == size && size < 190, false),
        _ => (false, false),
    }
}

/// The calls that are to fail, where they are of this kind.
fn fails_of<'a>(kind: Kind, wanted: Kind, fails: &'a [u64]) -> &'a [u64] {
    if kind == wanted { fails } else { &[] }
}

/// Serves that request with the calls of this kind failing that are listed.
fn told_with_faults<R: Wait>(
    rt: &R,
    alloc: Global,
    desk: &mut Desk<'_>,
    kind: Kind,
    fails: &[u64],
) -> Told {
    let mut wire = Wire::of(GET_HELLO);
    wire.read_piece = 40;
    wire.write_piece = 40;
    wire.reads = fails_of(kind, Kind::Read, fails);
    wire.writes = fails_of(kind, Kind::Write, fails);
    let mut pages = pages_of(alloc, HELLO, fails_of(kind, Kind::Page, fails));
    desk.serve_at(rt, alloc, wire, &mut pages, &OpenGate)
}

/// Serves that request with the calls of this kind failing that are listed, and tells whether none failed;
/// `None` where that went wrong. Behind it the same worker serves `GET /hi`.
fn meets_no_fault<R: Wait>(
    rt: &R,
    alloc: Global,
    desk: &mut Desk<'_>,
    kind: Kind,
    fails: &[u64],
) -> Option<bool> {
    let told = told_with_faults(rt, alloc, desk, kind, fails);
    let (right, none) = judge(&told, kind);
    drop(told);
    let fresh = serves_hi(rt, alloc, desk);
    if right && fresh { Some(none) } else { None }
}

/// How many calls of this kind a session makes: with each of them failing it is as it must be. `None` where
/// one isn't, or where there are twenty.
fn calls_of<R: Wait>(rt: &R, alloc: Global, desk: &mut Desk<'_>, kind: Kind) -> Option<u64> {
    for call in 0..20 {
        match meets_no_fault(rt, alloc, desk, kind, &[call]) {
            None => return None,
            Some(true) => return Some(call),
            Some(false) => {}
        }
    }
    None
}

/// How many reads, writes and calls for pages a session makes, as `calls_of` tells it.
fn all_calls_of<R: Wait>(rt: &R, alloc: Global, desk: &mut Desk<'_>) -> [Option<u64>; 3] {
    let reads = calls_of(rt, alloc, desk, Kind::Read);
    let writes = calls_of(rt, alloc, desk, Kind::Write);
    [reads, writes, calls_of(rt, alloc, desk, Kind::Page)]
}

#[test]
fn each_call_outside_may_fail(rt: HostRuntime) {
    let alloc = rt.alloc();
    let calls = on_desk(&rt, alloc, &[HI], |desk| all_calls_of(&rt, alloc, desk));
    // 288 bytes come in eight reads, and one more finds the end; 190 bytes go out in five writes; and there
    // are two pages.
    assert!(rt; calls == Some([Some(9), Some(5), Some(2)]));
}

/// What is added to a server, the length of the reply to `GET /hi` with its outcome, and what is marked
/// behind it: a trace filter marks `t`, and a cleanup script `c`.
type Spent<'a> = (&'a str, u64, ServedOutcome, &'a [u8]);

/// What is spent before the response is there.
const SPENT_BEFORE: &[Spent<'_>] = &[
    (
        "proc f args {while 1 {}}\nns_register_filter preauth GET /hi f\n",
        187,
        ServedOutcome::Spent,
        b"c 1 t 1",
    ),
    (
        "proc f args {while 1 {}}\nns_register_filter postauth GET /hi f\n",
        187,
        ServedOutcome::Spent,
        b"c 1 t 1",
    ),
    (
        "proc ns_authorize {m p u w} {if {$p eq \"/hi\"} {while 1 {}}; return ok}\n",
        187,
        ServedOutcome::Spent,
        b"c 1 t 1",
    ),
    (
        "proc hi {} {catch {ns_eval {while 1 {}}} m; ns_return 200 text/plain $m}\n",
        187,
        ServedOutcome::Spent,
        b"c 1 t 1",
    ),
];

/// What is spent behind the response, or isn't a matter of the budget.
const SPENT_BEHIND: &[Spent<'_>] = &[
    (
        "proc f args {while 1 {}}\nns_register_filter trace GET /hi f\n",
        156,
        ServedOutcome::Spent,
        b"",
    ),
    (
        "ns_ictl oncleanup {while 1 {}}\n",
        156,
        ServedOutcome::Spent,
        b"t 1",
    ),
    ("proc hi {} {hi}\n", 191, ServedOutcome::TooDeep, b"c 1 t 1"),
    ("", 156, ServedOutcome::Answered, b"c 1 t 1"),
];

/// What marks, and tells the marks.
const MARKS: &str = "proc t args {nsv_incr m t; return filter_ok}
ns_register_filter trace GET /hi t
ns_ictl oncleanup {nsv_incr m c}
proc m {} {ns_return 200 text/plain [nsv_array get m]}
ns_register_proc GET /m m
";

/// Whether the request is answered with so many bytes and ends so.
fn is_answered_so<R: Wait>(
    rt: &R,
    alloc: Global,
    desk: &mut Desk<'_>,
    size: u64,
    outcome: ServedOutcome,
) -> bool {
    let told = desk.serve(rt, alloc, Wire::of(GET_HI));
    let right = told.outcome == outcome && told.wrote == size && told.epoch == 1;
    told.end == End::Ended && right
}

/// Whether a script that makes definitions made the second epoch.
fn is_second(end: &EvalEnd) -> bool {
    match end {
        EvalEnd::Done { epoch } => *epoch == 2,
        _ => false,
    }
}

/// Whether a page is defined now in the second epoch, so nothing was published before, and the worker serves
/// it.
fn serves_more<R: Wait>(rt: &R, alloc: Global, desk: &mut Desk<'_>) -> bool {
    let script = "proc x {} {ns_return 200 text/plain fine}; ns_register_proc GET /x x";
    let second = is_second(&desk.define(rt, alloc, script));
    has_body(rt, alloc, desk, "/x", b"fine") && second
}

/// Publishes the procedure, what is added to it, and what marks.
fn add<R: Wait>(rt: &R, alloc: Global, desk: &mut Desk<'_>, added: &str) {
    if let Ok(script) = format!(in alloc; "{HI}{added}{MARKS}") {
        let _end = desk.define(rt, alloc, &script);
    }
}

/// Whether a worker, when it has run this script, answers so, leaves the marks of the row, and goes on.
fn is_spent_so<R: Wait>(rt: &R, alloc: Global, desk: &mut Desk<'_>, row: &Spent<'_>) -> bool {
    let (added, size, outcome, marks) = *row;
    add(rt, alloc, desk, added);
    let answered = is_answered_so(rt, alloc, desk, size, outcome);
    let marked = has_body(rt, alloc, desk, "/m", marks);
    serves_more(rt, alloc, desk) && answered && marked
}

/// How many rows are right, up to the first that isn't.
fn right_spent<R: Wait>(rt: &R, alloc: Global, rows: &[Spent<'_>]) -> usize {
    let mut right = 0usize;
    for row in rows {
        if on_desk(rt, alloc, &[], |desk| is_spent_so(rt, alloc, desk, row)) != Some(true) {
            return right;
        }
        right = right.saturating_add(1);
    }
    right
}

#[test]
fn budgets_end_one_run(rt: HostRuntime) {
    assert!(rt; right_spent(&rt, rt.alloc(), SPENT_BEFORE) == 4);
}

#[test]
fn budgets_and_nesting_end_one_run(rt: HostRuntime) {
    assert!(rt; right_spent(&rt, rt.alloc(), SPENT_BEHIND) == 4);
}

/// A server of pages that change what they can.
const CHANGING: &str =
    "proc a {} {rename set gone; rename ns_return nr; proc ns_return args {nr 200 text/plain changed}; ns_return x}
proc b {} {set x fine; ns_return 200 text/plain $x}
proc motd {} {global motd; set r $motd; set motd changed; ns_return 200 text/plain $r}
proc mark {} {ns_ictl markfordelete; ns_return 200 text/plain [nsv_incr c n]}
proc v {} {ns_return 200 text/plain old}
proc change {} {ns_eval {proc v {} {ns_return 200 text/plain new}}; ns_return 200 text/plain done}
proc q {} {catch {while 1 {}} m; ns_return 200 text/plain $m}
proc names {} {nsv_set c k 1; nsv_set a k 2; ns_return 200 text/plain [nsv_names]}
foreach p {a b motd mark v change q names} {ns_register_proc GET /$p $p}
ns_ictl global motd hello
";

/// Its paths and the bodies of their replies, in this order, on one worker.
const REUSED: &[(&str, &[u8])] = &[
    ("/a", b"changed"),
    ("/b", b"fine"),
    ("/b", b"fine"),
    ("/motd", b"hello"),
    ("/motd", b"hello"),
    ("/mark", b"1"),
    ("/b", b"fine"),
    ("/v", b"old"),
    ("/change", b"done"),
    ("/v", b"new"),
    ("/q", b"budget spent\n"),
    ("/names", b"a c"),
    ("/motd", b"hello"),
    ("/b", b"fine"),
];

/// How many rows are right, up to the first that isn't.
fn right_bodies<R: Wait>(rt: &R, alloc: Global, desk: &mut Desk<'_>) -> usize {
    let mut right = 0usize;
    for (path, want) in REUSED {
        if !has_body(rt, alloc, desk, path, want) {
            return right;
        }
        right = right.saturating_add(1);
    }
    right
}

#[test]
fn an_interpreter_is_used_again(rt: HostRuntime) {
    let alloc = rt.alloc();
    let right = on_desk(
        &rt,
        alloc,
        &[CHANGING],
        |desk| right_bodies(&rt, alloc, desk),
    );
    assert!(rt; right == Some(14));
}
