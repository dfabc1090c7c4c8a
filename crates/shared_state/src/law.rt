//! What the histories of shared arrays mean.

ghost use Rattle.shared_state.specs.Lines.{HistoriesAreLines, NeighboursAreLines};

/// Whatever threads asked a bucket, its turns are answered as one thread is that asks in the order of
/// their places: all of a whole history, and each behind its neighbour in passes that were joined.
pub fn arrays_are_lines()
    ensures histories { HistoriesAreLines }
    ensures neighbours { NeighboursAreLines }
{}
