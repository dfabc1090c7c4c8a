ghost use Rattle.std.specs.Prelude.{◌≡◌, ◌<◌, IfSome, length};
ghost use Rattle.outside.specs.Halls.{state_of};
ghost use Rattle.outside.specs.Nets.{IsNew};

use crate::program::run;
use cmd_table::Steps;
use natives::{Native, Natives};
use outside::{MemClock, MemConn, MemNet, MemPages, MemSink, MemSource, OpenGate, Replies};
use std::alloc::Global;
use std::marker::Brand;
use std::net::{TcpListener, TcpStream};
use std::sync::Wait;
use std::sync::ledger::{Blank, Ledger};
use std::thread::Threads;
use txt_core::{Text, Words};

/// The most bytes that a call of the input gives, that one of the output takes and that one of errors takes.
const READ_PIECE: usize = 80;

const WRITE_PIECE: usize = 100;

const ERROR_PIECE: usize = 5;

/// A procedure, its URL and a GET of it. The first event has 79 bytes.
const HI: &[u8] = b"define 68\n\
    proc hi {} {ns_return 200 text/plain hi}\n\
    ns_register_proc GET /hi hi\n\
    connect 0 29\n\
    GET /hi HTTP/1.1\r\nHost: l\r\n\r\n\n\
    run 0\n";

/// The same procedure as a page, and its reply.
const PAGE: &[u8] = b"proc hi {} {ns_return 200 text/plain hi}\nns_register_proc GET /hi hi";

const REPLY: usize = 156;

/// The same, and an event that is none.
const HI_AND_MORE: &[u8] = b"define 68\n\
    proc hi {} {ns_return 200 text/plain hi}\n\
    ns_register_proc GET /hi hi\n\
    connect 0 29\n\
    GET /hi HTTP/1.1\r\nHost: l\r\n\r\n\n\
    run 0\n\
    run 1\n";

const HI_LISTING: &[u8] = b"defined 1\n\
    response 0 1 156\n\
    HTTP/1.1 200 OK\r\n\
    Date: Thu, 01 Jan 1970 00:00:00 GMT\r\n\
    Server: AOLserver-profile/1\r\n\
    Content-Type: text/plain\r\n\
    Content-Length: 2\r\n\
    Connection: keep-alive\r\n\r\n\
    hi\n\
    closed 0 ended\n";

/// A GET without routes.
const NONE: &[u8] = b"connect 0 31\n\
    GET /none HTTP/1.1\r\nHost: l\r\n\r\n\n\
    run 0\n";

const NONE_LISTING: &[u8] = b"response 0 0 176\n\
    HTTP/1.1 404 Not Found\r\n\
    Date: Thu, 01 Jan 1970 00:00:00 GMT\r\n\
    Server: AOLserver-profile/1\r\n\
    Content-Type: text/plain\r\n\
    Content-Length: 14\r\n\
    Connection: keep-alive\r\n\r\n\
    404 Not Found\n\n\
    closed 0 ended\n";

/// A run of the program, and what must come of it.
#[derive(Clone, Copy)]
struct Case {
    words: &'static [&'static [u8]],
    input: &'static [u8],
    read_fails: &'static [u64],
    write_fails: &'static [u64],
    error_fails: &'static [u64],
    status: u8,
    output: &'static [u8],
    errors: &'static [u8],
}

/// What a run reads and writes.
#[derive(Drop)]
struct Streams {
    input: MemSource,
    output: MemSink,
    errors: MemSink,
}

/// A text; the empty one where memory wants.
fn text(alloc: Global, bytes: &[u8]) -> Text {
    match Text::new(alloc, bytes) {
        Ok(text) => text,
        Err(_) => Text::empty(alloc),
    }
}

/// The numbers of calls; none where memory wants.
fn calls_of(alloc: Global, calls: &[u64]) -> Vec<u64> {
    match Vec::from_slice(alloc, calls) {
        Ok(list) => list,
        Err(_) => Vec::new(alloc),
    }
}

/// Words; fewer where memory wants.
fn words_of(alloc: Global, texts: &[&[u8]]) -> Words {
    let mut words = Words::new(alloc);
    for word in texts {
        let _added = words.add(text(alloc, word));
    }
    words
}

/// What the run of a case reads, and what takes what it writes.
fn streams_of(alloc: Global, case: &Case) -> Streams {
    let content = text(alloc, case.input);
    Streams {
        input: MemSource::new(content, READ_PIECE, calls_of(alloc, case.read_fails)),
        output: MemSink::new(alloc, WRITE_PIECE, calls_of(alloc, case.write_fails)),
        errors: MemSink::new(alloc, ERROR_PIECE, calls_of(alloc, case.error_fails)),
    }
}

/// A connection of one request.
fn greeting(alloc: Global) -> MemConn {
    MemConn {
        input: text(alloc, b"GET /hi HTTP/1.1\r\nHost: l\r\n\r\n"),
        peer: text(alloc, b"127.0.0.1"),
        piece: 64,
        reads: Vec::new(alloc),
        writes: Vec::new(alloc),
    }
}

/// Two connections of one request; fewer where memory wants.
fn greetings(alloc: Global) -> Vec<MemConn> {
    let mut conns = Vec::new(alloc);
    let _first = conns.push(greeting(alloc));
    let _second = conns.push(greeting(alloc));
    conns
}

/// A new net of these connections, whose replies go there; `None` where memory wants.
fn net_of<R: Copy>(rt: R, alloc: Global, replies: &Replies) -> Option<MemNet<R>>
    ensures { IfSome result (λ net. IsNew (state_of net)) }
{
    let replies = replies.copy().ok()?;
    Some(MemNet::new(rt, replies, greetings(alloc), Vec::new(alloc)))
}

/// The start page, where there is memory for it.
fn pages_of(alloc: Global) -> MemPages {
    let mut pages = MemPages::new(alloc, Vec::new(alloc));
    let _set = pages.set(text(alloc, b"/s"), text(alloc, PAGE));
    pages
}

/// Runs the program.
fn run_on<
    L: Ledger,
    R: Threads
        + Wait
        + Sync
        + std::rt::Clock
        + std::net::Net<Listener = TcpListener, Stream = TcpStream>
        + Copy
        + Send
        + Drop,
>(
    rt: &R,
    alloc: Global,
    natives: &Natives,
    words: &Words,
    streams: &mut Streams,
    net: &mut MemNet<R>,
    pages: &mut MemPages,
    clock: &mut MemClock,
    steps: &mut [Steps<L>],
) -> u8
    requires counters { 0 < length steps.old }
    requires new { IsNew (state_of net.old) }
{
    run(
        rt,
        alloc,
        natives,
        words,
        &mut streams.input,
        &mut streams.output,
        &mut streams.errors,
        net,
        pages,
        clock,
        &OpenGate,
        steps,
    )
}

/// The status of the run of a case, with the counter that a blank makes.
fn run_counted<
    L: Ledger,
    R: Threads
        + Wait
        + Sync
        + std::rt::Clock
        + std::net::Net<Listener = TcpListener, Stream = TcpStream>
        + Copy
        + Send
        + Drop,
>(
    rt: &R,
    alloc: Global,
    natives: &Natives,
    case: &Case,
    streams: &mut Streams,
    net: &mut MemNet<R>,
    blank: Blank,
) -> u8
    requires name { blank.name ≡ L.name }
    requires parts { blank.parts ≡ L.parts }
    requires some { 0 < blank.parts }
    requires new { IsNew (state_of net.old) }
{
    let words = words_of(alloc, case.words);
    let mut pages = pages_of(alloc);
    let mut clock = MemClock::new(0, 0);
    let mut steps = [Steps::<L>::new(blank)];
    run_on(
        rt, alloc, natives, &words, streams, net, &mut pages, &mut clock, &mut steps,
    )
}

/// The status of the run of a case; `None` where memory wants for its net.
fn status_of<
    R: Threads
        + Wait
        + Sync
        + std::rt::Clock
        + std::net::Net<Listener = TcpListener, Stream = TcpStream>
        + Copy
        + Send
        + Drop,
>(
    rt: &R,
    alloc: Global,
    natives: &Natives,
    case: &Case,
    streams: &mut Streams,
    replies: &Replies,
) -> Option<u8> {
    let mut net = net_of(*rt, alloc, replies)?;
    let blank = Blank::new(1);
    let status = run_counted::<Brand, R>(rt, alloc, natives, case, streams, &mut net, blank);
    drop(net);
    Some(status)
}

/// Whether the output and the errors are those of a case.
fn are_written(streams: &Streams, case: &Case) -> bool {
    let is_written = streams.output.taken().bytes() == case.output;
    is_written && streams.errors.taken().bytes() == case.errors
}

/// Whether the run of a case comes to what it says. What the connections are sent goes to the replies.
fn is_right_with<
    R: Threads
        + Wait
        + Sync
        + std::rt::Clock
        + std::net::Net<Listener = TcpListener, Stream = TcpStream>
        + Copy
        + Send
        + Drop,
>(rt: &R, alloc: Global, natives: &Natives, case: &Case, replies: &Replies) -> bool {
    let mut streams = streams_of(alloc, case);
    let status = status_of(rt, alloc, natives, case, &mut streams, replies);
    let right = status == Some(case.status) && are_written(&streams, case);
    drop(streams);
    right
}

/// Whether the run of a case comes to what it says.
fn is_right<
    R: Threads
        + Wait
        + Sync
        + std::rt::Clock
        + std::net::Net<Listener = TcpListener, Stream = TcpStream>
        + Copy
        + Send
        + Drop,
>(rt: &R, alloc: Global, natives: &Natives, case: &Case) -> bool {
    match Replies::new(alloc) {
        Ok(replies) => {
            let right = is_right_with(rt, alloc, natives, case, &replies);
            drop(replies);
            right
        }
        Err(_) => false,
    }
}

/// The place of the first case that is wrong, if there is one.
fn first_wrong<
    R: Threads
        + Wait
        + Sync
        + std::rt::Clock
        + std::net::Net<Listener = TcpListener, Stream = TcpStream>
        + Copy
        + Send
        + Drop,
>(rt: &R, alloc: Global, natives: &Natives, cases: &[Case]) -> Option<usize> {
    for (at, case) in cases.iter().enumerate() {
        if !is_right(rt, alloc, natives, case) {
            return Some(at);
        }
    }
    None
}

/// The same without natives.
fn first_wrong_alone<
    R: Threads
        + Wait
        + Sync
        + std::rt::Clock
        + std::net::Net<Listener = TcpListener, Stream = TcpStream>
        + Copy
        + Send
        + Drop,
>(rt: &R, alloc: Global, cases: &[Case]) -> Option<usize> {
    let natives = Natives::new(alloc);
    let wrong = first_wrong(rt, alloc, &natives, cases);
    drop(natives);
    wrong
}

/// A rehearsal.
const REHEARSAL: Case = Case {
    words: &[b"rehearse"],
    input: HI,
    read_fails: &[],
    write_fails: &[],
    error_fails: &[],
    status: 0,
    output: HI_LISTING,
    errors: b"",
};

/// What is refused, but for its words.
const REFUSED: Case = Case {
    status: 2,
    output: b"",
    errors: b"bad words\n",
    ..REHEARSAL
};

/// Each status, with what is told of its cause.
const STATUSES: &[Case] = &[
    REHEARSAL,
    Case {
        input: NONE,
        output: NONE_LISTING,
        ..REHEARSAL
    },
    Case {
        input: b"",
        output: b"",
        ..REHEARSAL
    },
    Case {
        input: b"connect 5 0\n\n",
        status: 1,
        output: b"",
        errors: b"bad event 1\n",
        ..REHEARSAL
    },
    Case {
        input: HI_AND_MORE,
        status: 1,
        errors: b"bad event 4\n",
        ..REHEARSAL
    },
    Case {
        words: &[],
        ..REFUSED
    },
    Case {
        words: &[b"rehearse", b""],
        ..REFUSED
    },
    Case {
        words: &[b"rehears"],
        ..REFUSED
    },
    Case {
        words: &[b"rehearsed"],
        ..REFUSED
    },
    Case {
        words: &[b"--help"],
        ..REFUSED
    },
    Case {
        words: &[b"serve"],
        ..REFUSED
    },
    Case {
        words: &[b"serve", b"--root", b"r"],
        ..REFUSED
    },
    Case {
        read_fails: &[1],
        status: 3,
        output: b"defined 1\n",
        errors: b"read fault\n",
        ..REHEARSAL
    },
    // The first line alone is told of the first event.
    Case {
        write_fails: &[1],
        status: 4,
        output: b"defined 1\n",
        errors: b"write fault\n",
        ..REHEARSAL
    },
    Case {
        input: HI_AND_MORE,
        error_fails: &[0],
        status: 1,
        ..REHEARSAL
    },
    Case {
        input: b"\n",
        error_fails: &[1],
        status: 1,
        output: b"",
        errors: b"bad e",
        ..REHEARSAL
    },
];

#[test]
fn each_status_has_its_cause_and_its_line(rt: HostRuntime) {
    assert_eq!(rt; first_wrong_alone(&rt, rt.alloc(), STATUSES), None);
}

/// A load of one request, which reads nothing.
const LOAD_OF_ONE: Case = Case {
    words: &[b"load", b"1"],
    read_fails: &[0],
    output: b"requests 1\nstatus 200 1\nstatus 404 0\nbytes 156\n",
    ..REHEARSAL
};

/// A load of so many requests that each of its numbers has several digits.
const LOAD_OF_2000: Case = Case {
    words: &[b"load", b"2000"],
    output: b"requests 2000\nstatus 200 1302\nstatus 404 698\nbytes 328055\n",
    ..LOAD_OF_ONE
};

/// Loads, and words that ask for none.
const LOADS: &[Case] = &[
    LOAD_OF_ONE,
    LOAD_OF_2000,
    LOAD_OF_2000,
    Case {
        write_fails: &[0],
        status: 4,
        output: b"",
        errors: b"write fault\n",
        ..LOAD_OF_ONE
    },
    Case {
        words: &[b"load"],
        ..REFUSED
    },
    Case {
        words: &[b"load", b"0"],
        ..REFUSED
    },
    Case {
        words: &[b"load", b"01"],
        ..REFUSED
    },
    Case {
        words: &[b"load", b"+1"],
        ..REFUSED
    },
    Case {
        words: &[b"load", b"100001"],
        ..REFUSED
    },
    Case {
        words: &[b"load", b"1", b"1"],
        ..REFUSED
    },
    Case {
        words: &[b"Load", b"1"],
        ..REFUSED
    },
];

#[test]
fn loads_tell_what_is_counted(rt: HostRuntime) {
    assert_eq!(rt; first_wrong_alone(&rt, rt.alloc(), LOADS), None);
}

/// A server of two connections, which writes nothing.
const SERVED: Case = Case {
    words: &[
        b"serve",
        b"--root",
        b"r",
        b"--start",
        b"/s",
        b"--listen",
        b"127.0.0.1:0",
        b"--connections",
        b"2",
    ],
    output: b"",
    ..REHEARSAL
};

/// Whether the connection of this number was sent as many bytes as its reply has.
fn is_replied<R: Wait>(rt: &R, replies: &Replies, connection: u64) -> bool {
    match replies.taken(rt, connection) {
        Ok(Some(text)) => text.len() == REPLY,
        _ => false,
    }
}

/// Whether the server ends as it must, and both connections are replied to.
fn are_served<
    R: Threads
        + Wait
        + Sync
        + std::rt::Clock
        + std::net::Net<Listener = TcpListener, Stream = TcpStream>
        + Copy
        + Send
        + Drop,
>(rt: &R, alloc: Global, natives: &Natives, replies: &Replies) -> bool {
    let right = is_right_with(rt, alloc, natives, &SERVED, replies);
    right && is_replied(rt, replies, 0) && is_replied(rt, replies, 1)
}

/// The same without natives.
fn are_served_alone<
    R: Threads
        + Wait
        + Sync
        + std::rt::Clock
        + std::net::Net<Listener = TcpListener, Stream = TcpStream>
        + Copy
        + Send
        + Drop,
>(rt: &R, alloc: Global) -> bool {
    let natives = Natives::new(alloc);
    match Replies::new(alloc) {
        Ok(replies) => {
            let right = are_served(rt, alloc, &natives, &replies);
            drop(replies);
            right
        }
        Err(_) => false,
    }
}

#[test]
fn what_a_net_gives_is_served(rt: HostRuntime) {
    assert!(rt; are_served_alone(&rt, rt.alloc()));
}
