//! Laws of sessions.

ghost use Rattle.txt_core.specs.Names.{Names};
ghost use Rattle.worker.specs.Laws.{ItemsAreIsolated, CostRows};

/// Two requests that were served, of one session or of two, on whatever threads, have the same bytes
/// where they agree in themselves, in the blueprint, the moment and the answers, and in what the reply
/// says of the connection, and neither met a write fault or want of memory.
pub fn items_are_isolated()
    ensures { ItemsAreIsolated }
{}

/// What sessions and updates cost, at some rows: with so many built-in names as the natives make, three
/// requests to one procedure on a new worker cost one step more; and so on.
pub fn costs_are_counted()
    ensures { (names : Names) → CostRows names }
{}
