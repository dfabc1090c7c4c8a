//! One of the eight cells.

ghost use Rattle.std.specs.Prelude.{◌≡◌, IfOk};
ghost use Rattle.turn_cell.specs.Cells.{IsOf, pass_view};
ghost use Rattle.nsv_shared.specs.Views.{opening};

use nsv_bucket::Bucket;
use std::alloc::Global;
use turn_cell::{Pass, TurnCell};
use txt_core::NoMemory;

/// A cell with an empty bucket, and its first pass.
pub(crate) fn first_cell(alloc: Global) -> Result<(TurnCell<Bucket>, Pass<Bucket>), NoMemory>
    ensures { IfOk result (λ r. IsOf r.0 r.1 × (pass_view r.1 ≡ opening)) }
{
    TurnCell::new(alloc, Bucket::new(alloc))
}
