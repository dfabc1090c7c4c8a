//! The subcommands of `ns_ictl` by their names.

ghost use Rattle.std.specs.Prelude.{◌≡◌};
ghost use Rattle.server_host.specs.Interpreting.{ictl_verb_of, ictl_count};

/// A subcommand of `ns_ictl`.
#[derive(Clone, Copy, Debug, PartialEq, Eq)]
pub enum IctlVerb {
    Oncleanup,
    Global,
    Get,
    Epoch,
    Save,
    Markfordelete,
}

/// The subcommand of this name, if there is one.
pub fn find_ictl_verb(name: &[u8]) -> Option<IctlVerb>
    ensures { result ≡ ictl_verb_of name.now }
{
    if name == b"oncleanup".as_slice() {
        Some(IctlVerb::Oncleanup)
    } else if name == b"global".as_slice() {
        Some(IctlVerb::Global)
    } else if name == b"get".as_slice() {
        Some(IctlVerb::Get)
    } else if name == b"epoch".as_slice() {
        Some(IctlVerb::Epoch)
    } else if name == b"save".as_slice() {
        Some(IctlVerb::Save)
    } else if name == b"markfordelete".as_slice() {
        Some(IctlVerb::Markfordelete)
    } else {
        None
    }
}

impl IctlVerb {
    /// How many words it has, with both names among them.
    pub fn count(self) -> usize
        ensures { result ≡ ictl_count self }
    {
        match self {
            IctlVerb::Global => 4,
            IctlVerb::Oncleanup | IctlVerb::Save => 3,
            IctlVerb::Get | IctlVerb::Epoch | IctlVerb::Markfordelete => 2,
        }
    }
}
