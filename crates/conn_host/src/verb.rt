//! The commands of a connection's host by their names.

ghost use Rattle.std.specs.Prelude.{◌≡◌};
ghost use Rattle.conn_host.specs.Leaf.{verb_of};

use txt_core::same_bytes;

/// A command of a connection's host.
#[derive(Clone, Copy, Debug, PartialEq, Eq)]
pub enum Verb {
    NsSet,
    Open,
    Gets,
    Read,
    Eof,
    Close,
    NsConn,
    NsQueryget,
    NsReturn,
    NsReturnredirect,
    NsReturnnotfound,
    NsUrlencode,
    NsUrldecode,
    NsTime,
    NsHttptime,
}

/// The command of this name, if it is one of this host's.
pub fn find_verb(name: &[u8]) -> Option<Verb>
    ensures { result ≡ verb_of name.now }
{
    if same_bytes(name, b"ns_set") {
        Some(Verb::NsSet)
    } else if same_bytes(name, b"open") {
        Some(Verb::Open)
    } else if same_bytes(name, b"gets") {
        Some(Verb::Gets)
    } else if same_bytes(name, b"read") {
        Some(Verb::Read)
    } else if same_bytes(name, b"eof") {
        Some(Verb::Eof)
    } else if same_bytes(name, b"close") {
        Some(Verb::Close)
    } else if same_bytes(name, b"ns_conn") {
        Some(Verb::NsConn)
    } else if same_bytes(name, b"ns_queryget") {
        Some(Verb::NsQueryget)
    } else if same_bytes(name, b"ns_return") {
        Some(Verb::NsReturn)
    } else if same_bytes(name, b"ns_returnredirect") {
        Some(Verb::NsReturnredirect)
    } else if same_bytes(name, b"ns_returnnotfound") {
        Some(Verb::NsReturnnotfound)
    } else if same_bytes(name, b"ns_urlencode") {
        Some(Verb::NsUrlencode)
    } else if same_bytes(name, b"ns_urldecode") {
        Some(Verb::NsUrldecode)
    } else if same_bytes(name, b"ns_time") {
        Some(Verb::NsTime)
    } else if same_bytes(name, b"ns_httptime") {
        Some(Verb::NsHttptime)
    } else {
        None
    }
}
