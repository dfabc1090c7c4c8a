//! The subcommands of `ns_set` by their names.

ghost use Rattle.std.specs.Prelude.{◌≡◌};
ghost use Rattle.conn_host.specs.SetCommands.{place_verb_of, set_verb_of, set_takes};

use txt_core::same_bytes;

/// A subcommand of `ns_set`.
#[derive(Clone, Copy, Debug, PartialEq, Eq)]
pub enum SetVerb {
    Create,
    Put,
    Get,
    Iget,
    Find,
    Ifind,
    Cput,
    Icput,
    Update,
    Delete,
    Delkey,
    Idelkey,
    Truncate,
    Merge,
    Copy,
    Free,
    Size,
    Name,
    Key,
    Value,
}

/// The subcommand of this name among those that deal with a set as a whole or with a place in it.
fn find_place_verb(name: &[u8]) -> Option<SetVerb>
    ensures { result ≡ place_verb_of name.now }
{
    if same_bytes(name, b"create") {
        Some(SetVerb::Create)
    } else if same_bytes(name, b"delete") {
        Some(SetVerb::Delete)
    } else if same_bytes(name, b"truncate") {
        Some(SetVerb::Truncate)
    } else if same_bytes(name, b"merge") {
        Some(SetVerb::Merge)
    } else if same_bytes(name, b"copy") {
        Some(SetVerb::Copy)
    } else if same_bytes(name, b"free") {
        Some(SetVerb::Free)
    } else if same_bytes(name, b"size") {
        Some(SetVerb::Size)
    } else if same_bytes(name, b"name") {
        Some(SetVerb::Name)
    } else if same_bytes(name, b"key") {
        Some(SetVerb::Key)
    } else if same_bytes(name, b"value") {
        Some(SetVerb::Value)
    } else {
        None
    }
}

/// The subcommand of this name, if there is one: those that deal with the fields of a key, and the
/// others.
pub fn find_set_verb(name: &[u8]) -> Option<SetVerb>
    ensures { result ≡ set_verb_of name.now }
{
    if same_bytes(name, b"put") {
        Some(SetVerb::Put)
    } else if same_bytes(name, b"get") {
        Some(SetVerb::Get)
    } else if same_bytes(name, b"iget") {
        Some(SetVerb::Iget)
    } else if same_bytes(name, b"find") {
        Some(SetVerb::Find)
    } else if same_bytes(name, b"ifind") {
        Some(SetVerb::Ifind)
    } else if same_bytes(name, b"cput") {
        Some(SetVerb::Cput)
    } else if same_bytes(name, b"icput") {
        Some(SetVerb::Icput)
    } else if same_bytes(name, b"update") {
        Some(SetVerb::Update)
    } else if same_bytes(name, b"delkey") {
        Some(SetVerb::Delkey)
    } else if same_bytes(name, b"idelkey") {
        Some(SetVerb::Idelkey)
    } else {
        find_place_verb(name)
    }
}

impl SetVerb {
    /// Whether it may have so many words, with both names among them.
    pub fn takes(self, count: usize) -> bool
        ensures { result ≡ set_takes self count }
    {
        match self {
            SetVerb::Create => count == 2 || count == 3,
            SetVerb::Put | SetVerb::Cput | SetVerb::Icput | SetVerb::Update => count == 5,
            SetVerb::Copy | SetVerb::Free | SetVerb::Size | SetVerb::Name => count == 3,
            SetVerb::Get
            | SetVerb::Iget
            | SetVerb::Find
            | SetVerb::Ifind
            | SetVerb::Delete
            | SetVerb::Delkey
            | SetVerb::Idelkey
            | SetVerb::Truncate
            | SetVerb::Merge
            | SetVerb::Key
            | SetVerb::Value => count == 4,
        }
    }
}
