//! The schedule.

ghost use Rattle.std.specs.Prelude.{◌≡◌, ◌≢◌, IfOk};
ghost use Rattle.txt_core.specs.Number.{number};
ghost use Rattle.sched_core.specs.declared.call.SchedReply.TheVariants as replies;
ghost use Rattle.serving.specs.Calls.{natural_of, sched_call, sched_answer};

use outside::Answer;
use sched_core::{SchedCall, SchedReply, is_once_option};
use std::alloc::Global;
use txt_core::{NoMemory, Text, Words, error_text, read_int_bytes, write_natural};

/// The command that takes an entry out of the schedule.
const UNSCHEDULE: &[u8] = b"ns_unschedule_proc";

/// What is refused at a full schedule.
const TOO_MANY: &[u8] = b"too many schedules";

/// The number from 0 on that a word is; 0 where it is none.
fn natural(word: &[u8]) -> u64
    ensures { result ≡ natural_of (number word.now) }
{
    match read_int_bytes(word) {
        Some(number) if number >= 0 => number as u64,
        _ => 0,
    }
}

/// The call of a question of a run at this moment. The only error is want of memory.
pub fn sched_call(alloc: Global, words: &Words, moment: u64) -> Result<SchedCall, NoMemory>
    ensures { IfOk result (λ call. call ≡ sched_call moment words.now) }
{
    if words.bytes_at(0) == UNSCHEDULE {
        return Ok(SchedCall::Cancel(natural(words.bytes_at(1))));
    }
    let once = is_once_option(words.bytes_at(1));
    let place = if once { 2 } else { 1 };
    Ok(SchedCall::Add {
        moment,
        seconds: natural(words.bytes_at(place)),
        once,
        script: Text::new(alloc, words.bytes_at(place + 1))?,
    })
}

/// The schedule's reply to a question with these words as an answer: the new entry's id, or why the
/// question is refused. The only error is want of memory, in the reply or here. `Due` and `Stopped`,
/// which reply to no question, are refused without a reason.
pub fn sched_answer(alloc: Global, words: &Words, reply: SchedReply) -> Result<Answer, NoMemory>
    ensures answer { IfOk result (λ answer. answer ≡ sched_answer words.now reply) }
    ensures some { IfOk result (λ _. reply ≢ replies.NoMemory) }
{
    match reply {
        SchedReply::Id(id) => Ok(Answer::Said(write_natural(alloc, id)?)),
        SchedReply::Cancelled => Ok(Answer::Said(Text::empty(alloc))),
        SchedReply::NoId => Ok(Answer::Failed(error_text::no_schedule(alloc, words.bytes_at(1))?)),
        SchedReply::Full => Ok(Answer::Failed(Text::new(alloc, TOO_MANY)?)),
        SchedReply::Due(_) | SchedReply::Stopped => Ok(Answer::Failed(Text::empty(alloc))),
        SchedReply::NoMemory => Err(NoMemory),
    }
}
