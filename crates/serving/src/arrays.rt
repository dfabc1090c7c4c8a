//! Shared arrays: the words of a question are the call.

ghost use Rattle.std.specs.Prelude.{◌≡◌, ◌≢◌, IfOk, OnErr};
ghost use Rattle.nsv_bucket.specs.declared.reply.NsvReply.TheVariants as replies;
ghost use Rattle.serving.specs.Calls.{nsv_answer};

use nsv_bucket::NsvReply;
use outside::Answer;
use txt_core::NoMemory;

/// A bucket's reply as an answer. The only error is want of memory, exactly where the bucket replied so.
pub fn nsv_answer(reply: NsvReply) -> Result<Answer, NoMemory>
    ensures answer { IfOk result (λ answer. answer ≡ nsv_answer reply) }
    ensures some { IfOk result (λ _. reply ≢ replies.NoMemory) }
    ensures memory { OnErr result (reply ≡ replies.NoMemory) }
{
    match reply {
        NsvReply::Said(text) => Ok(Answer::Said(text)),
        NsvReply::Failed(why) => Ok(Answer::Failed(why)),
        NsvReply::NoMemory => Err(NoMemory),
    }
}
