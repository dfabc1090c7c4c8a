//! Workers.

ghost use Rattle.std.specs.Prelude.{◌≡◌, None};

use http_resp::Writer;
use ictl::BoxedInterp;

/// A worker: its number, the interpreter that it uses again and again, once there is one, and the
/// writer of its responses.
pub struct Worker {
    pub(crate) number: u16,
    pub(crate) interp: Option<BoxedInterp>,
    pub(crate) writer: Writer,
}

/// Written out, so that proofs of other crates see one call where a worker is dropped.
impl Drop for Worker {
    fn drop(self) {
        let Worker {
            number: _,
            interp,
            writer,
        } = self;
        drop(interp);
        drop(writer);
    }
}

impl Worker {
    /// A worker of this number, without an interpreter yet.
    pub fn new(number: u16) -> Worker
        ensures number { result.number ≡ number }
        ensures clean { result.interp ≡ None }
    {
        Worker {
            number,
            interp: None,
            writer: Writer::new(),
        }
    }
}
