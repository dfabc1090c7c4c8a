//! What scripts define.

use txt_core::{Sequence, Text, Words};

/// At which stage of a request a filter runs.
#[derive(Clone, Copy, Debug, PartialEq, Eq)]
pub enum When {
    /// Before the authorisation.
    Preauth,
    /// After the authorisation, before the procedure or page.
    Postauth,
    /// Once the response was written.
    Trace,
}

/// A definition. A procedure and a rename change a command table, a `Set` the global variables, and the
/// others neither.
#[derive(Debug, Drop)]
pub enum Def {
    /// A procedure: its name, its parameters and its body as texts.
    Proc {
        name: Text,
        params: Text,
        body: Text,
    },
    /// The command `old` is from now on called `new`; where `new` is empty, it is removed.
    Rename {
        old: Text,
        new: Text,
    },
    /// A URL that a procedure serves: the method, the URL as it was registered, whether it serves
    /// the URLs below as well, and the words that are called.
    Route {
        method: Text,
        url: Text,
        inherit: bool,
        words: Words,
    },
    /// Words that are called at a stage of each request whose method and path match.
    Filter {
        when: When,
        method: Text,
        pattern: Text,
        words: Words,
    },
    /// A script that runs at the end of each request.
    Cleanup {
        script: Text,
    },
    /// A global scalar with its value.
    Set {
        name: Text,
        value: Text,
    },
}

/// Definitions in the order in which they were made.
pub type Defs = Sequence<Def>;
