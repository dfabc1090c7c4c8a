//! The filters that a request passes.

ghost use Rattle.std.specs.Prelude.{◌≡◌};
ghost use Rattle.txt_core.specs.PatternLaws.{matches};
ghost use Rattle.url_tables.specs.Filters.{same_stage, is_for};
ghost use Rattle.url_tables.specs.Searching.{is_passed};

use crate::routes::route_method;
use cmd_table::When;
use txt_core::{Sequence, Text, Words, glob};

/// Lists of words, one for each filter.
pub type WordsList = Sequence<Words>;

/// A filter.
#[derive(Debug, Drop)]
pub(crate) struct Passing {
    pub when: When,
    pub method: Text,
    pub pattern: Text,
    pub words: Words,
}

/// Whether both are the same stage.
fn same_stage(first: When, second: When) -> bool
    ensures { result ≡ same_stage first second }
{
    match (first, second) {
        (When::Preauth, When::Preauth)
        | (When::Postauth, When::Postauth)
        | (When::Trace, When::Trace) => true,
        _ => false,
    }
}

/// Whether a filter that was registered for a method, or for all, is for this one.
fn is_for(registered: &[u8], method: &[u8]) -> bool
    ensures { result ≡ is_for registered.now method.now }
{
    registered == b"*".as_slice() || registered == route_method(method)
}

impl Passing {
    /// Whether a request with this method and path passes it at a stage.
    pub fn is_passed(&self, when: When, method: &Text, path: &Text) -> bool
        ensures { result ≡ is_passed when method.now path.now self.now }
    {
        same_stage(self.when, when)
            && is_for(self.method.bytes(), method.bytes())
            && glob(&self.pattern, path)
    }
}
