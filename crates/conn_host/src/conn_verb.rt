//! The subcommands of `ns_conn` by their names.

ghost use Rattle.std.specs.Prelude.{◌≡◌};
ghost use Rattle.conn_host.specs.RequestCommands.{conn_verb_of, conn_takes};

use txt_core::same_bytes;

/// A subcommand of `ns_conn`.
#[derive(Clone, Copy, Debug, PartialEq, Eq)]
pub enum ConnVerb {
    Method,
    Url,
    Query,
    Content,
    Peeraddr,
    Headers,
    Outputheaders,
    Form,
    Contentlength,
    Urlv,
    Urlc,
    Version,
    Request,
    Authuser,
    Authpassword,
}

/// The subcommand of this name, if there is one.
pub fn find_conn_verb(name: &[u8]) -> Option<ConnVerb>
    ensures { result ≡ conn_verb_of name.now }
{
    if same_bytes(name, b"method") {
        Some(ConnVerb::Method)
    } else if same_bytes(name, b"url") {
        Some(ConnVerb::Url)
    } else if same_bytes(name, b"query") {
        Some(ConnVerb::Query)
    } else if same_bytes(name, b"content") {
        Some(ConnVerb::Content)
    } else if same_bytes(name, b"peeraddr") {
        Some(ConnVerb::Peeraddr)
    } else if same_bytes(name, b"headers") {
        Some(ConnVerb::Headers)
    } else if same_bytes(name, b"outputheaders") {
        Some(ConnVerb::Outputheaders)
    } else if same_bytes(name, b"form") {
        Some(ConnVerb::Form)
    } else if same_bytes(name, b"contentlength") {
        Some(ConnVerb::Contentlength)
    } else if same_bytes(name, b"urlv") {
        Some(ConnVerb::Urlv)
    } else if same_bytes(name, b"urlc") {
        Some(ConnVerb::Urlc)
    } else if same_bytes(name, b"version") {
        Some(ConnVerb::Version)
    } else if same_bytes(name, b"request") {
        Some(ConnVerb::Request)
    } else if same_bytes(name, b"authuser") {
        Some(ConnVerb::Authuser)
    } else if same_bytes(name, b"authpassword") {
        Some(ConnVerb::Authpassword)
    } else {
        None
    }
}

impl ConnVerb {
    /// Whether it may have so many words, with both names among them.
    pub fn takes(self, count: usize) -> bool
        ensures { result ≡ conn_takes self count }
    {
        match self {
            ConnVerb::Content => count == 2 || count == 4,
            _ => count == 2,
        }
    }
}
