//! The built-ins that the engine does itself.

ghost use Rattle.std.specs.Prelude.{◌≡◌};
ghost use Rattle.tcl_eval.specs.Eval.{verb_of};

use txt_core::same_bytes;

/// A built-in that the engine does itself, or one of the host's.
#[derive(Clone, Copy, Debug, PartialEq, Eq)]
pub enum Verb {
    Proc,
    Return,
    Error,
    Break,
    Continue,
    Rename,
    Eval,
    Catch,
    Expr,
    If,
    While,
    For,
    Foreach,
    Switch,
    Info,
    Other,
}

/// The built-in of a name.
pub fn find_verb(name: &[u8]) -> Verb
    ensures { result ≡ verb_of name.now }
{
    if same_bytes(name, b"proc") {
        Verb::Proc
    } else if same_bytes(name, b"return") {
        Verb::Return
    } else if same_bytes(name, b"error") {
        Verb::Error
    } else if same_bytes(name, b"break") {
        Verb::Break
    } else if same_bytes(name, b"continue") {
        Verb::Continue
    } else if same_bytes(name, b"rename") {
        Verb::Rename
    } else if same_bytes(name, b"eval") {
        Verb::Eval
    } else if same_bytes(name, b"catch") {
        Verb::Catch
    } else if same_bytes(name, b"expr") {
        Verb::Expr
    } else if same_bytes(name, b"if") {
        Verb::If
    } else if same_bytes(name, b"while") {
        Verb::While
    } else if same_bytes(name, b"for") {
        Verb::For
    } else if same_bytes(name, b"foreach") {
        Verb::Foreach
    } else if same_bytes(name, b"switch") {
        Verb::Switch
    } else if same_bytes(name, b"info") {
        Verb::Info
    } else {
        Verb::Other
    }
}
