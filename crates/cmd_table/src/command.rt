//! What a name stands for.

use txt_core::Text;

/// A command.
#[derive(Debug, Drop)]
pub enum Cmd {
    /// A built-in, under its own name. A table may have it under another name, after a rename.
    Built(Text),
    /// A procedure: its parameters and its body as texts.
    Proc { params: Text, body: Text },
}
