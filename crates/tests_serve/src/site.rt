//! A site with one page, the connections that come to it, and a run that serves them.

ghost use Rattle.std.specs.Prelude.{◌≡◌, false, IfOk};
ghost use Rattle.outside.specs.Nets.{IsNew};

use natives::Natives;
use outside::{Clock, Gate, MemClock, MemConn, MemNet, MemPages, MemSink, Net, Replies};
use serve_run::run_serve;
use std::alloc::Global;
use std::net::{TcpListener, TcpStream};
use std::sync::Wait;
use std::thread::Threads;
use txt_core::{NoMemory, Text, Words};

/// The start script: a procedure and its URL.
pub const HI: &[u8] = b"proc hi {} {ns_return 200 text/plain hi}\nns_register_proc GET /hi hi";

/// A GET of that URL.
pub const GET_HI: &[u8] = b"GET /hi HTTP/1.1\r\nHost: l\r\n\r\n";

/// What it is replied.
pub const REPLY: &[u8] = b"HTTP/1.1 200 OK\r\n\
    Date: Thu, 01 Jan 1970 00:00:00 GMT\r\n\
    Server: AOLserver-profile/1\r\n\
    Content-Type: text/plain\r\n\
    Content-Length: 2\r\n\
    Connection: keep-alive\r\n\r\n\
    hi";

/// The path of the start script.
pub const START: &[u8] = b"/s";

/// How many bytes of an error are taken at once.
const ERROR_PIECE: usize = 5;

/// A run of the server: the options behind those that are required, and what the outside is.
#[derive(Clone, Copy)]
pub struct Case {
    pub options: &'static [&'static [u8]],
    /// The start page, where there is one.
    pub page: Option<&'static [u8]>,
    /// Where the start page has fewer bytes, a comment behind it fills it up to so many.
    pub page_length: usize,
    /// What each connection sends.
    pub request: &'static [u8],
    pub connections: u64,
    /// The calls that are to fail: of the net, of the pages, and of errors.
    pub net_fails: &'static [u64],
    pub page_fails: &'static [u64],
    pub error_fails: &'static [u64],
}

/// So many connections that get a greeting, with these options.
pub fn greeting(options: &'static [&'static [u8]], connections: u64) -> Case {
    Case {
        options,
        page: Some(HI),
        page_length: 0,
        request: GET_HI,
        connections,
        net_fails: &[],
        page_fails: &[],
        error_fails: &[],
    }
}

/// How a run ended.
#[derive(Drop)]
pub struct Came {
    pub status: u8,
    pub errors: Text,
}

/// Words, by their texts.
pub fn words_of(alloc: Global, texts: &[&[u8]]) -> Result<Words, NoMemory> {
    let mut words = Words::new(alloc);
    for text in texts {
        push_word(alloc, &mut words, text)?;
    }
    Ok(words)
}

/// One word more.
fn push_word(alloc: Global, words: &mut Words, text: &[u8]) -> Result<(), NoMemory> {
    match words.push(Text::new(alloc, text)?) {
        Ok(()) => Ok(()),
        Err(_) => Err(NoMemory),
    }
}

/// The words of a case.
fn command(alloc: Global, case: &Case) -> Result<Words, NoMemory> {
    let mut words = words_of(
        alloc,
        &[
            b"serve",
            b"--root",
            b"r",
            b"--start",
            START,
            b"--listen",
            b"127.0.0.1:0",
        ],
    )?;
    for option in case.options {
        push_word(alloc, &mut words, option)?;
    }
    Ok(words)
}

/// The connections of a case.
fn conns_of(alloc: Global, case: &Case) -> Result<Vec<MemConn>, NoMemory> {
    let mut conns = Vec::new(alloc);
    for _number in 0..case.connections {
        conns.push(MemConn {
            input: Text::new(alloc, case.request)?,
            peer: Text::new(alloc, b"127.0.0.1")?,
            piece: 64,
            reads: Vec::new(alloc),
            writes: Vec::new(alloc),
        })?;
    }
    Ok(conns)
}

/// A page that a comment fills up to so many bytes, where it has fewer.
fn filled(alloc: Global, page: &[u8], length: usize) -> Result<Text, NoMemory> {
    let mut bytes = Vec::from_slice(alloc, page)?;
    if bytes.len() < length {
        bytes.push(b'\n')?;
        bytes.resize(length, b'#')?;
    }
    Ok(Text::from_vec(bytes))
}

/// The pages of a case.
fn pages_of(alloc: Global, case: &Case) -> Result<MemPages, NoMemory> {
    let mut pages = MemPages::new(alloc, Vec::from_slice(alloc, case.page_fails)?);
    if let Some(page) = case.page {
        let text = filled(alloc, page, case.page_length)?;
        pages.set(Text::new(alloc, START)?, text)?;
    }
    Ok(pages)
}

/// The net of a case, which keeps what its connections are sent in `replies`.
pub fn new_net<R: Copy>(
    rt: &R,
    alloc: Global,
    case: &Case,
    replies: &Replies,
) -> Result<MemNet<R>, NoMemory>
    ensures { IfOk result (λ net. (net.given ≡ 0) × (net.ended ≡ false)) }
{
    let fails = Vec::from_slice(alloc, case.net_fails)?;
    Ok(MemNet::new(*rt, replies.copy()?, conns_of(alloc, case)?, fails))
}

/// Serves what a net gives, as these words say.
pub fn serve_words<
    N: Net,
    C: Clock + Send + Drop,
    G: Gate + Sync,
    R: Threads
        + Wait
        + Sync
        + std::rt::Clock
        + std::net::Net<Listener = TcpListener, Stream = TcpStream>,
>(
    rt: &R,
    alloc: Global,
    case: &Case,
    words: &Words,
    net: &mut N,
    clock: &mut C,
    gate: &G,
) -> Result<Came, NoMemory>
    requires { IsNew (N.state net.old) }
{
    let natives = Natives::new(alloc);
    let mut pages = pages_of(alloc, case)?;
    let error_fails = Vec::from_slice(alloc, case.error_fails)?;
    let mut errors = MemSink::new(alloc, ERROR_PIECE, error_fails);
    let status = run_serve(
        rt,
        alloc,
        &natives,
        words,
        net,
        &mut pages,
        clock,
        gate,
        &mut errors,
    );
    let errors = errors.taken().copy(alloc)?;
    Ok(Came { status, errors })
}

/// Serves what a net gives, as the words of the case say.
pub fn play_on<
    N: Net,
    C: Clock + Send + Drop,
    G: Gate + Sync,
    R: Threads
        + Wait
        + Sync
        + std::rt::Clock
        + std::net::Net<Listener = TcpListener, Stream = TcpStream>,
>(
    rt: &R,
    alloc: Global,
    case: &Case,
    net: &mut N,
    clock: &mut C,
    gate: &G,
) -> Result<Came, NoMemory>
    requires { IsNew (N.state net.old) }
{
    let words = command(alloc, case)?;
    serve_words(rt, alloc, case, &words, net, clock, gate)
}

/// Serves what a net in memory gives, at moment 0.
pub fn play<
    G: Gate + Sync,
    R: Threads
        + Wait
        + Sync
        + std::rt::Clock
        + std::net::Net<Listener = TcpListener, Stream = TcpStream>
        + Copy
        + Send
        + Drop,
>(rt: &R, alloc: Global, case: &Case, replies: &Replies, gate: &G) -> Result<Came, NoMemory> {
    let mut net = new_net(rt, alloc, case, replies)?;
    let mut clock = MemClock::new(0, 0);
    play_on(rt, alloc, case, &mut net, &mut clock, gate)
}

/// Whether a connection was sent exactly this.
pub fn was_sent<R: Wait>(rt: &R, replies: &Replies, connection: u64, text: &[u8]) -> bool {
    match replies.taken(rt, connection) {
        Ok(Some(taken)) => taken.bytes() == text,
        _ => false,
    }
}
