//! What a run was answered.

ghost use Rattle.std.specs.Prelude.{◌≡◌, [], None, IfOk};

use outside::Answer;
use std::alloc::Global;
use txt_core::{NoMemory, Sequence};

/// What questions were answered, in order.
pub type AnswerList = Sequence<Answer>;

/// What a run was answered so far.
#[derive(Drop)]
pub(crate) struct Heard {
    pub answers: AnswerList,
    /// The epoch of its last answer, where that was one to a publication that was done.
    pub published: Option<u64>,
}

impl Heard {
    /// Nothing yet.
    pub fn new(alloc: Global) -> Heard
        ensures answers { result.answers ≡ [] }
        ensures published { result.published ≡ None }
    {
        Heard {
            answers: Sequence::new(alloc),
            published: None,
        }
    }
}

/// The same answer once more.
pub(crate) fn copy_answer(alloc: Global, answer: &Answer) -> Result<Answer, NoMemory>
    ensures { IfOk result (λ copy. copy ≡ answer.now) }
{
    Ok(match answer {
        Answer::Said(text) => Answer::Said(text.copy(alloc)?),
        Answer::Failed(text) => Answer::Failed(text.copy(alloc)?),
        Answer::Page(text) => Answer::Page(text.copy(alloc)?),
        Answer::NoPage => Answer::NoPage,
        Answer::PageFault => Answer::PageFault,
    })
}
