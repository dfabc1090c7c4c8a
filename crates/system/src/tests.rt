//! The adapters, over files and connections of this machine.

use super::*;
use crate::tests_visit::{Ends, Visit, listening, next_ends, sends, text};
use outside::{Accepted, Clock, Net, PageAnswer, Pages, ReadAnswer, Source};
use std::alloc::Global;
use std::fs;
use std::io::Read;
use std::net::{SocketAddr, TcpListener, TcpStream};
use std::os::unix::fs::symlink;
use std::sync::Wait;
use txt_core::Text;

/// A folder that stands for the time of a test.
const FOLDER: &str = "system_pages";

/// Paths at which there is no page, though most of them lead to something.
const NO_PAGES: &[&[u8]] = &[
    b"",
    b"/",
    b"//a.adp",
    b"/none.adp",
    b"/a.adp/",
    b"/a.adp/b.adp",
    b"/in",
    b"/in/",
    b"/in/../a.adp",
    b"/./a.adp",
    b"/../secret",
    b"/link.adp",
    b"/out/secret",
    b"/in/up/a.adp",
    b"/a.adp\0",
    b"/\xff.adp",
];

/// What an asked page is.
fn told(answer: &PageAnswer) -> &[u8] {
    match answer {
        PageAnswer::Page(page) => page.bytes(),
        PageAnswer::NoPage => b"no page",
        PageAnswer::Failed => b"failed",
        PageAnswer::NoMemory => b"out of memory",
    }
}

/// The folders that are made, each behind the one that it lies in.
const FOLDERS: &[&str] = &[FOLDER, "system_pages/site", "system_pages/site/in"];

/// The files that are written there.
const FILES: &[(&str, &[u8])] = &[
    ("system_pages/secret", b"secret"),
    ("system_pages/site/a.adp", b"first"),
    ("system_pages/site/in/b.adp", b""),
];

/// The links, and where they lead.
const LINKS: &[(&str, &str)] = &[
    ("system_pages/site/link.adp", "a.adp"),
    ("system_pages/site/out", ".."),
    ("system_pages/site/in/up", ".."),
    ("system_pages/root", "site"),
];

/// Makes folders, and tells whether all are there.
pub(crate) fn make_folders(rt: &HostRuntime, folders: &[&str]) -> bool {
    let mut all = true;
    for folder in folders {
        all = fs::create_dir(rt, folder).is_ok() && all;
    }
    all
}

/// Writes files, and tells whether all are there.
pub(crate) fn write_files(rt: &HostRuntime, files: &[(&str, &[u8])]) -> bool {
    let mut all = true;
    for (file, bytes) in files {
        all = fs::write(rt, file, *bytes).is_ok() && all;
    }
    all
}

/// Makes links, and tells whether all are there.
fn make_links(rt: &HostRuntime, links: &[(&str, &str)]) -> bool {
    let mut all = true;
    for (link, place) in links {
        all = symlink(rt, place, link).is_ok() && all;
    }
    all
}

/// Takes a folder away with all that is in it, and tells whether it was there.
pub(crate) fn remove_folder(rt: &HostRuntime, folder: &str) -> bool {
    fs::remove_dir_all(rt, folder).is_ok()
}

/// Makes the folders, files and links that are asked for.
fn make_site(rt: &HostRuntime) -> bool {
    let _old = remove_folder(rt, FOLDER);
    make_folders(rt, FOLDERS) && write_files(rt, FILES) && make_links(rt, LINKS)
}

/// The pages of the folder that is asked; those of another where memory wants.
fn pages_of(rt: HostRuntime) -> FolderPages<HostRuntime> {
    let mut pages = FolderPages::new(rt, rt.alloc());
    let _rooted = pages.root(&text(rt.alloc(), b"system_pages/root"));
    pages
}

/// Whether pages tell this of a path.
fn tells(alloc: Global, pages: &mut FolderPages<HostRuntime>, path: &[u8], want: &[u8]) -> bool {
    let answer = pages.page(&text(alloc, path));
    told(&answer) == want
}

/// At how many of the paths there is no page.
fn absent(alloc: Global, pages: &mut FolderPages<HostRuntime>) -> usize {
    let mut count = 0usize;
    for path in NO_PAGES {
        let is_absent = tells(alloc, pages, path, b"no page");
        count = count.saturating_add(usize::from(is_absent));
    }
    count
}

/// Whether pages tell the first page, with a slash before it and without.
fn tells_first(alloc: Global, pages: &mut FolderPages<HostRuntime>) -> bool {
    let slashed = tells(alloc, pages, b"/a.adp", b"first");
    slashed && tells(alloc, pages, b"a.adp", b"first") && pages.faults.count == 0
}

/// Whether a copy of pages tells the first page.
fn copy_tells_first(alloc: Global, pages: &FolderPages<HostRuntime>) -> bool {
    match pages.copy() {
        Ok(mut other) => tells_first(alloc, &mut other),
        Err(_) => false,
    }
}

/// Whether a copy of the pages, and the pages, tell what is there and what isn't.
fn are_told(rt: HostRuntime) -> bool {
    let mut pages = pages_of(rt);
    let copied = copy_tells_first(rt.alloc(), &pages);
    let below = tells(rt.alloc(), &mut pages, b"/in/b.adp", b"");
    copied && below && absent(rt.alloc(), &mut pages) == 16 && pages.faults.count == 0
}

#[test]
fn pages_below_the_root(rt: HostRuntime) {
    assert!(rt; make_site(&rt));
    assert!(rt; are_told(rt));
    assert!(rt; remove_folder(&rt, FOLDER));
}

#[test]
fn there_is_stack(rt: HostRuntime) {
    assert!(rt; take_stack(rt.alloc()).is_ok());
}

/// Whether a moment lies in this century.
fn is_of_this_century(moment: u64) -> bool {
    1_600_000_000 < moment && moment < 4_200_000_000
}

/// The moment that a copy of a clock shows; 0 where memory wants.
fn moment_of_copy(clock: &SystemClock<HostRuntime>) -> u64 {
    match clock.copy() {
        Ok(mut other) => other.moment(),
        Err(_) => 0,
    }
}

#[test]
fn the_clock_shows_this_century(rt: HostRuntime) {
    let mut clock = SystemClock::new(rt);
    let first = clock.moment();
    clock.pause(&rt);
    let second = moment_of_copy(&clock);
    assert!(rt; is_of_this_century(first) && first <= second && is_of_this_century(second));
}

/// Whether five bytes that a peer reads are the reply.
fn reads_reply(peer: &mut TcpStream) -> bool {
    let mut reply = [0u8; 5];
    peer.read_exact(&mut reply).is_ok() && reply == *b"reply"
}

/// Whether the peer reads the reply, and it is read here that the peer has gone then; there was one connection,
/// and no fault.
fn parts_well(visit: Visit<HostRuntime>) -> bool {
    let Visit {
        net,
        place: _,
        mut peer,
        mut source,
        sink,
    } = visit;
    drop(sink);
    let replied = reads_reply(&mut peer);
    drop(peer);
    let mut bytes = [0u8; 16];
    let ended = source.read(&mut bytes) == ReadAnswer::Bytes(0);
    replied && ended && net.given == 1 && net.faults.count == 0 && source.faults.count == 0
}

/// Whether a request is read and replied to, and its connection then ends.
fn is_served(visit: Option<Visit<HostRuntime>>) -> bool {
    let Some(mut visit) = visit else {
        return false;
    };
    let is_read = visit.reads(b"request") && visit.replies();
    let parts = parts_well(visit);
    is_read && parts
}

#[test]
fn a_request_and_its_reply(rt: HostRuntime) {
    let visit = Visit::new(&rt, rt.alloc());
    assert!(rt; is_served(visit));
}

/// The two ends of each of two connections that come one after the other.
fn ends_of_two<
    R: Wait
        + std::net::Net<Listener = TcpListener, Stream = TcpStream>
        + std::rt::Clock
        + Copy
        + Send
        + Drop,
>(rt: &R, net: &mut TcpNet<R>) -> Option<(Ends<R>, Ends<R>)> {
    let first = next_ends(rt, net)?;
    match next_ends(rt, net) {
        Some(second) => Some((first, second)),
        None => None,
    }
}

/// Whether nothing is read of a peer that is silent, a byte of one behind it that sent it, and nobody waits
/// then.
fn are_read<R: std::rt::Clock + Drop>(ends: Option<(Ends<R>, Ends<R>)>) -> bool {
    let Some(((mut first, _sink), (mut second, _other_sink))) = ends else {
        return false;
    };
    let mut bytes = [0u8; 4];
    let silent = first.read(&mut bytes);
    let other = second.read(&mut bytes);
    let waits = second.waiting.is_any();
    silent == ReadAnswer::Bytes(0) && other == ReadAnswer::Bytes(1) && !waits
}

/// A peer that connects and sends this; `None` where it can't.
fn peer_that_sends<R: std::net::Net<Listener = TcpListener, Stream = TcpStream>>(
    rt: &R,
    place: SocketAddr,
    bytes: &[u8],
) -> Option<TcpStream> {
    let mut peer: TcpStream = TcpStream::connect(rt, place).ok()?;
    if sends(&mut peer, bytes) {
        Some(peer)
    } else {
        None
    }
}

/// Whether these are there, and the first gives way.
fn gives_way<
    R: Wait
        + std::net::Net<Listener = TcpListener, Stream = TcpStream>
        + std::rt::Clock
        + Copy
        + Send
        + Drop,
>(rt: &R, net: &mut TcpNet<R>, peers: (Option<TcpStream>, Option<TcpStream>)) -> bool {
    let are_there = peers.0.is_some() && peers.1.is_some();
    let is_right = are_there && are_read(ends_of_two(rt, net));
    drop(peers);
    is_right
}

/// The same of a new net.
fn new_gives_way<
    R: Wait
        + std::net::Net<Listener = TcpListener, Stream = TcpStream>
        + std::rt::Clock
        + Copy
        + Send
        + Drop,
>(rt: &R, alloc: Global) -> bool {
    match listening(rt, alloc) {
        Some((mut net, place)) => {
            let silent = peer_that_sends(rt, place, b"");
            let other = peer_that_sends(rt, place, b"x");
            gives_way(rt, &mut net, (silent, other))
        }
        None => false,
    }
}

#[test]
fn a_silent_peer_gives_way(rt: HostRuntime) {
    assert!(rt; new_gives_way(&rt, rt.alloc()));
}

/// Whether a net listens at an address.
fn listens_at<
    R: Wait
        + std::net::Net<Listener = TcpListener, Stream = TcpStream>
        + std::rt::Clock
        + Copy
        + Send
        + Drop,
>(rt: &R, alloc: Global, net: &mut TcpNet<R>, address: &[u8]) -> bool {
    net.listen(rt, &text(alloc, address))
}

/// An address in words; none where memory wants.
fn name_of(alloc: Global, place: SocketAddr) -> Text {
    match format!(in alloc; "{place}") {
        Ok(name) => text(alloc, name.as_bytes()),
        Err(_) => Text::empty(alloc),
    }
}

/// Whether a net listens at an address at which another does; `None` where no other does.
fn listens_beside<
    R: Wait
        + std::net::Net<Listener = TcpListener, Stream = TcpStream>
        + std::rt::Clock
        + Copy
        + Send
        + Drop,
>(rt: &R, alloc: Global, net: &mut TcpNet<R>) -> Option<bool> {
    let (other, place) = listening(rt, alloc)?;
    let listens = net.listen(rt, &name_of(alloc, place));
    drop(other);
    Some(listens)
}

/// Whether a net counts each fault: it listens nowhere, nobody comes, and another listens there.
fn fails_each_time<
    R: Wait
        + std::net::Net<Listener = TcpListener, Stream = TcpStream>
        + std::rt::Clock
        + Copy
        + Send
        + Drop,
>(rt: &R, alloc: Global, net: &mut TcpNet<R>) -> bool {
    let nowhere = !listens_at(rt, alloc, net, b"nowhere") && net.faults.count == 1;
    let nobody = matches!(net.accept(rt), Accepted::Failed) && net.faults.count == 2;
    let beside = listens_beside(rt, alloc, net) == Some(false) && net.faults.count == 3;
    nowhere && nobody && beside
}

/// The same of a new net.
fn new_fails_each_time<
    R: Wait
        + std::net::Net<Listener = TcpListener, Stream = TcpStream>
        + std::rt::Clock
        + Copy
        + Send
        + Drop,
>(rt: &R, alloc: Global) -> bool {
    match TcpNet::new(*rt, alloc) {
        Ok(mut net) => fails_each_time(rt, alloc, &mut net),
        Err(_) => false,
    }
}

#[test]
fn nets_that_fail(rt: HostRuntime) {
    assert!(rt; new_fails_each_time(&rt, rt.alloc()));
}
