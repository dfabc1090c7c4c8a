//! Pages of the outside.

ghost use Rattle.std.specs.Prelude.{◌≡◌, ◌≢◌, IfOk, OnErr};
ghost use Rattle.outside.specs.declared.pages.PageAnswer.TheVariants as replies;
ghost use Rattle.serving.specs.Calls.{page_answer};

use outside::{Answer, PageAnswer};
use txt_core::NoMemory;

/// What pages replied as an answer. The only error is want of memory, exactly where they replied so.
pub fn page_answer(reply: PageAnswer) -> Result<Answer, NoMemory>
    ensures answer { IfOk result (λ answer. answer ≡ page_answer reply) }
    ensures some { IfOk result (λ _. reply ≢ replies.NoMemory) }
    ensures memory { OnErr result (reply ≡ replies.NoMemory) }
{
    match reply {
        PageAnswer::Page(page) => Ok(Answer::Page(page)),
        PageAnswer::NoPage => Ok(Answer::NoPage),
        PageAnswer::Failed => Ok(Answer::PageFault),
        PageAnswer::NoMemory => Err(NoMemory),
    }
}
