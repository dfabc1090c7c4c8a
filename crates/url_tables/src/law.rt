//! Laws of registrations.

ghost use Rattle.url_tables.specs.Laws.{BestIsBest, NoneMatches};

/// The registration that serves a request matches it; none that matches has a higher rank, and none
/// that was registered later has as high a one. Where none serves it, none matches.
pub fn routes_are_best()
    ensures best { BestIsBest }
    ensures none { NoneMatches }
{}
