use outside::{
    Accepted, Gate, MemConn, MemNet, Net, OpenGate, ReadAnswer, Replies, Sent, Sink, Source,
    write_all,
};
use std::alloc::Global;
use std::net::{TcpListener, TcpStream};
use std::process::Abort;
use std::sync::Wait;
use std::test::*;
use std::thread::join_mut;
use txt_core::{NoMemory, Text};

/// Appends what one read through a buffer of four bytes gives; a fault is a `!`, the end a `.`.
fn read_one<S: Source>(source: &mut S, given: &mut Vec<u8>) -> Result<(), NoMemory> {
    let mut buffer = [0; 4];
    match source.read(&mut buffer) {
        ReadAnswer::Bytes(0) => given.push(b'.')?,
        ReadAnswer::Bytes(count) => given.extend_from_slice(&buffer[..count])?,
        ReadAnswer::Failed => given.push(b'!')?,
    }
    Ok(())
}

/// A connection whose peer sends its own name, of one letter.
fn conn(alloc: Global, name: &[u8], writes: &[u64]) -> Result<MemConn, NoMemory> {
    let writes = Vec::from_slice(alloc, writes)?;
    let input = Text::new(alloc, name)?;
    let peer = Text::new(alloc, name)?;
    Ok(MemConn {
        input,
        peer,
        piece: 2,
        reads: Vec::new(alloc),
        writes,
    })
}

/// Adds a connection to others.
fn add_conn(
    alloc: Global,
    conns: &mut Vec<MemConn>,
    name: &[u8],
    writes: &[u64],
) -> Result<(), NoMemory> {
    let conn = conn(alloc, name, writes)?;
    conns.push(conn)?;
    Ok(())
}

/// The connections `a` and `b`, of which `b` fails at its second write.
fn two_conns(alloc: Global) -> Result<Vec<MemConn>, NoMemory> {
    let mut conns = Vec::new(alloc);
    add_conn(alloc, &mut conns, b"a", &[])?;
    add_conn(alloc, &mut conns, b"b", &[1])?;
    Ok(conns)
}

/// A net with the connections `a` and `b`, of which `b` fails at its second write.
fn net_of_two(
    rt: HostRuntime,
    replies: &Replies,
    fails: &[u64],
) -> Result<MemNet<HostRuntime>, NoMemory> {
    let fails = Vec::from_slice(rt.alloc(), fails)?;
    let conns = two_conns(rt.alloc())?;
    let replies = replies.copy()?;
    Ok(MemNet::new(rt, replies, conns, fails))
}

/// Appends the name of a peer and what it sends. It is sent its name and `cde`, and the answer goes
/// behind: a `+` where it was sent whole, else how much of it was.
fn greet<S: Source, K: Sink>(
    source: &mut S,
    sink: &mut K,
    peer: &mut Text,
    given: &mut Vec<u8>,
) -> Result<(), NoMemory> {
    given.extend_from_slice(peer.bytes())?;
    read_one(source, given)?;
    peer.append(b"cde")?;
    match write_all(sink, peer.bytes()) {
        Sent::Whole { bytes: _ } => given.push(b'+')?,
        Sent::WriteFault { sent } => given.push(last_digit(sent))?,
    }
    Ok(())
}

/// Appends what an accept gives: the connection, a `.` where none is left, a `!` at a fault.
fn accept_one<N: Net, R: Wait + std::net::Net<Listener = TcpListener, Stream = TcpStream>>(
    rt: &R,
    net: &mut N,
    given: &mut Vec<u8>,
) -> Result<(), NoMemory> {
    match net.accept(rt) {
        Accepted::Conn {
            mut source,
            mut sink,
            mut peer,
        } => greet(&mut source, &mut sink, &mut peer, given),
        Accepted::Closed => Ok(given.push(b'.')?),
        Accepted::Failed => Ok(given.push(b'!')?),
        Accepted::NoMemory => Err(NoMemory),
    }
}

/// The last digit of a number.
fn last_digit(number: u64) -> u8 {
    b"0123456789"[(number % 10) as usize]
}

/// Appends what five accepts give.
fn accept_five<N: Net, R: Wait + std::net::Net<Listener = TcpListener, Stream = TcpStream>>(
    rt: &R,
    net: &mut N,
    given: &mut Vec<u8>,
) -> Result<(), NoMemory> {
    for _ in 0..5 {
        accept_one(rt, net, given)?;
    }
    Ok(())
}

/// Whether a net listens.
fn listens<N: Net, R: Wait + std::net::Net<Listener = TcpListener, Stream = TcpStream>>(
    rt: &R,
    alloc: Global,
    net: &mut N,
) -> Result<bool, NoMemory> {
    let address = Text::new(alloc, b"127.0.0.1:0")?;
    Ok(net.listen(rt, &address))
}

/// Whether five accepts give this.
fn five_give<N: Net, R: Wait + std::net::Net<Listener = TcpListener, Stream = TcpStream>>(
    rt: &R,
    alloc: Global,
    net: &mut N,
    want: &[u8],
) -> Result<bool, NoMemory> {
    let mut given = Vec::new(alloc);
    accept_five(rt, net, &mut given)?;
    Ok(given.as_slice() == want)
}

/// Whether a connection was sent this; a connection that isn't there was sent nothing.
fn was_sent<R: Wait>(
    rt: &R,
    replies: &Replies,
    connection: u64,
    want: Option<&[u8]>,
) -> Result<bool, NoMemory> {
    let taken = replies.taken(rt, connection)?;
    Ok(match (&taken, want) {
        (Some(text), Some(bytes)) => text.bytes() == bytes,
        (None, None) => true,
        _ => false,
    })
}

/// Asserts what two connections were sent, and that there is no other.
fn check_replies(rt: &(impl Abort + Wait), replies: &Replies) -> Result<(), Fail> {
    assert!(rt; was_sent(rt, replies, 0, Some(b"acde"))?);
    assert!(rt; was_sent(rt, replies, 1, Some(b"bc"))?);
    assert!(rt; was_sent(rt, replies, 2, None)?);
    Ok(())
}

/// Which calls of a net fail: a listen, then five accepts. Whether it listens, and what the accepts
/// give.
const ACCEPTS: [(&[u64], bool, &[u8]); 4] = [
    (&[], true, b"aa+bb2..."),
    (&[0], false, b"aa+bb2..."),
    (&[1, 3], true, b"!aa+!bb2."),
    (&[2, 4], true, b"aa+!bb2!."),
];

/// Asserts so of one net.
fn check_accepts<N, R>(
    rt: &R,
    alloc: Global,
    net: &mut N,
    listening: bool,
    want: &[u8],
) -> Result<(), Fail>
where
    N: Net,
    R: Abort + Wait + std::net::Net<Listener = TcpListener, Stream = TcpStream>,
{
    assert_eq!(rt; listens(rt, alloc, net)?, listening);
    assert!(rt; five_give(rt, alloc, net, want)?, "not {want:?}");
    Ok(())
}

#[test]
fn connections_in_order(rt: HostRuntime) -> Result<(), Fail> {
    for (fails, listening, want) in ACCEPTS {
        let replies = Replies::new(rt.alloc())?;
        let mut net = net_of_two(rt, &replies, fails)?;
        check_accepts(&rt, rt.alloc(), &mut net, listening, want)?;
        check_replies(&rt, &replies)?;
        OpenGate.enter(&rt, 0, 0);
    }
    Ok(())
}

/// How many bytes one connection is sent by one thread, while another reads what it was sent.
const MANY: usize = 4096;

/// Sends a connection many bytes.
fn send_many<N: Net, R: Wait + std::net::Net<Listener = TcpListener, Stream = TcpStream>>(
    rt: &R,
    net: &mut N,
) -> bool {
    match net.accept(rt) {
        Accepted::Conn {
            source: _,
            mut sink,
            peer: _,
        } => matches!(
            write_all(&mut sink, &[b'x'; MANY]),
            Sent::Whole { bytes: _ }
        ),
        _ => false,
    }
}

/// Reads what the first connection was sent until it has as many bytes, and tells whether it only
/// grew. It may wait for ever.
fn read_many<R: Wait>(rt: &R, replies: &Replies) -> Result<bool, NoMemory> {
    let mut last = 0;
    for _ in rt.forever() {
        let len = match replies.taken(rt, 0)? {
            Some(text) => text.len(),
            None => 0,
        };
        if len < last || len == MANY {
            return Ok(len == MANY);
        }
        last = len;
    }
    unreachable!()
}

#[test]
fn replies_are_read_while_they_are_written(rt: HostRuntime) -> Result<(), Fail> {
    let replies = Replies::new(rt.alloc())?;
    let mut net = net_of_two(rt, &replies, &[])?;
    let (sent, read) = join_mut(
        &rt,
        &mut || send_many(&rt, &mut net),
        &mut || read_many(&rt, &replies),
    );
    assert!(rt; sent);
    assert!(rt; matches!(read, Ok(true)));
    Ok(())
}
