//! The host is lent to be changed.

ghost use Rattle.std.specs.Prelude.{◌≡◌};
ghost use Rattle.std.specs.Borrow.{sem, Lends};
ghost use Rattle.tcl_eval.specs.contracts.engine.Engine.{the_row};
ghost use Rattle.tcl_eval.specs.Engine.{hosted_by};

use crate::engine::Engine;
use tcl_host::Host;

impl<H: Host> Engine<H> {
    /// The host, to be changed. All else stays as it is.
    pub fn host_mut(&mut self) -> &mut H
        ensures* lends { sem 𝓛
            (Lends (the_row H.row) H.row self.entry result (hosted_by self.entry.now)) }
        ensures value { result.now ≡ self.entry.now.host }
    {
        &mut self.host
    }
}
