//! What an interpreter comes to.

use http_resp::SharedResponse;
use outside::Question;
use tcl_eval::Outcome;

/// What an interpreter comes to, and so what is to be done next.
#[derive(Debug, Drop)]
pub enum Next {
    /// It stands at this question, which `resume` answers. It is never one for a run inside.
    Asks(Question),
    /// This response is to be written, of which `written` tells.
    Write(SharedResponse),
    /// Its run has ended. A request that was answered ended with code 0 and the empty result.
    Ended(Outcome),
    /// Memory ran out.
    NoMemory,
}
