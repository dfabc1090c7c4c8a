//! The kinds of runs.

ghost use Rattle.std.specs.Prelude.{◌≡◌};
ghost use Rattle.server_host.specs.Checks.{is_defining};

/// What is run.
#[derive(Clone, Copy, Debug, PartialEq, Eq)]
pub enum Kind {
    /// What serves a request, which is the run's connection.
    Serving,
    /// A scheduled script, without a connection.
    Scripting,
    /// A script that makes definitions of the blueprint, without a connection.
    Defining,
}

/// Whether a run of this kind makes definitions of the blueprint.
pub(crate) fn is_defining(kind: Option<Kind>) -> bool
    ensures { result ≡ is_defining kind }
{
    match kind {
        Some(Kind::Defining) => true,
        Some(Kind::Serving) | Some(Kind::Scripting) | None => false,
    }
}
