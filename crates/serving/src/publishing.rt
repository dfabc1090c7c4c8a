//! The blueprint.

ghost use Rattle.std.specs.Prelude.{◌≡◌, ◌≢◌, IfOk};
ghost use Rattle.txt_core.specs.Words.{arg};
ghost use Rattle.blueprint.specs.declared.reply.Published.TheVariants as replies;
ghost use Rattle.serving.specs.Calls.{publish_call, save_call, published_answer};

use blueprint::{BlueCall, Published, ScriptFault, from_script};
use outside::Answer;
use std::alloc::Global;
use txt_core::{NoMemory, Text, Words, error_text, write_natural};

/// What a question whether to publish comes to.
#[derive(Debug, Drop)]
pub enum Asked {
    /// A call on the blueprint.
    Puts(BlueCall),
    /// An answer at once, without a call.
    Refused(Answer),
}

/// The one word of a question; the empty text where there is none.
fn script(alloc: Global, words: &Words) -> Result<Text, NoMemory>
    ensures { IfOk result (λ script. script ≡ arg words.now 0) }
{
    match words.get(0) {
        Some(script) => script.copy(alloc),
        None => Ok(Text::empty(alloc)),
    }
}

/// The call that publishes the definitions of the question's word; a word that is no script of
/// definitions is refused as a save of it is. The only error is want of memory.
pub fn publish_call(alloc: Global, words: &Words) -> Result<Asked, NoMemory>
    ensures { IfOk result (λ asked. asked ≡ publish_call words.now) }
{
    let script = script(alloc, words)?;
    match from_script(alloc, &script) {
        Ok(defs) => Ok(Asked::Puts(BlueCall::Publish(defs))),
        Err(ScriptFault::NotADefinition(place)) => Ok(Asked::Refused(Answer::Failed(
            error_text::no_definition(alloc, place)?,
        ))),
        Err(ScriptFault::NoMemory) => Err(NoMemory),
    }
}

/// The call that saves the question's word. The only error is want of memory.
pub fn save_call(alloc: Global, words: &Words) -> Result<BlueCall, NoMemory>
    ensures { IfOk result (λ call. call ≡ save_call words.now) }
{
    Ok(BlueCall::Save(script(alloc, words)?))
}

/// What came of a publication or a save as an answer: the new epoch in digits, or why it is refused. The
/// only error is want of memory, in the reply or here.
pub fn published_answer(alloc: Global, reply: Published) -> Result<Answer, NoMemory>
    ensures answer { IfOk result (λ answer. answer ≡ published_answer reply) }
    ensures some { IfOk result (λ _. reply ≢ replies.NoMemory) }
{
    match reply {
        Published::Done(epoch) => Ok(Answer::Said(write_natural(alloc, epoch)?)),
        Published::NotADefinition(place) => {
            Ok(Answer::Failed(error_text::no_definition(alloc, place)?))
        }
        Published::NotApplicable(place) => {
            Ok(Answer::Failed(error_text::does_not_apply(alloc, place)?))
        }
        Published::Full(_) => Ok(Answer::Failed(error_text::blueprint_full(alloc)?)),
        Published::NoMemory => Err(NoMemory),
    }
}
