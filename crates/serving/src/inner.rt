//! Questions for runs inside.

ghost use Rattle.std.specs.Prelude.{◌≡◌};
ghost use Rattle.serving.specs.Calls.{inner_answer};

use outside::Answer;
use std::alloc::Global;
use txt_core::Text;

/// The answer to a question for a run inside, which no object answers. It takes no memory.
pub fn inner_answer(alloc: Global) -> Answer
    ensures { result ≡ inner_answer }
{
    Answer::Failed(Text::empty(alloc))
}
