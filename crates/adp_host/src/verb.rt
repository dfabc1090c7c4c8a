//! The commands of pages by their names.

ghost use Rattle.std.specs.Prelude.{◌≡◌};
ghost use Rattle.adp_host.specs.Leaf.{verb_of};

/// A command of pages.
#[derive(Clone, Copy, Debug, PartialEq, Eq)]
pub enum Verb {
    Append,
    Puts,
    Include,
    Argc,
    Argv,
    Return,
    Break,
    Abort,
}

/// The command of this name, if it is one of pages.
pub fn find_verb(name: &[u8]) -> Option<Verb>
    ensures { result ≡ verb_of name.now }
{
    if name == b"ns_adp_append".as_slice() {
        Some(Verb::Append)
    } else if name == b"ns_adp_puts".as_slice() {
        Some(Verb::Puts)
    } else if name == b"ns_adp_include".as_slice() {
        Some(Verb::Include)
    } else if name == b"ns_adp_argc".as_slice() {
        Some(Verb::Argc)
    } else if name == b"ns_adp_argv".as_slice() {
        Some(Verb::Argv)
    } else if name == b"ns_adp_return".as_slice() {
        Some(Verb::Return)
    } else if name == b"ns_adp_break".as_slice() {
        Some(Verb::Break)
    } else if name == b"ns_adp_abort".as_slice() {
        Some(Verb::Abort)
    } else {
        None
    }
}
