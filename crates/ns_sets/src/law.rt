//! What holds of merged fields by themselves.

ghost use Rattle.std.specs.Prelude.{List};
ghost use Rattle.ns_sets.specs.Fields.{Field, merged};
ghost use Rattle.ns_sets.specs.Merging.{IsMerge};

/// A merge leaves the high fields in front, as they were. The first field of each key is then the
/// first among the high fields, or else among the low ones. A key stands as often as the high
/// fields have it, and once where only the low ones do. It does nothing when it runs.
pub fn merging()
    ensures { (high low : List Field) → IsMerge high low (merged high low) }
{}
