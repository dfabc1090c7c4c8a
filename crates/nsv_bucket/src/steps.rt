//! Which function answers which question.

ghost use Rattle.std.specs.Prelude.{◌≡◌, ◌≤◌, length, IfOk, OnOk, OnErr};
ghost use Rattle.nsv_bucket.specs.Arrays.{seen};
ghost use Rattle.nsv_bucket.specs.Questions.{least_words};
ghost use Rattle.nsv_bucket.specs.Steps.{question_step};

use crate::arrays::Arrays;
use crate::lists::{array_reset, array_set};
use crate::question::ArrayQuestion;
use crate::reads::{
    array_exists, array_get, array_names, array_size, exists, get, names_of_arrays,
};
use crate::reply::NsvReply;
use crate::writes::{append, incr, lappend, set, unset};
use std::alloc::Global;
use txt_core::{NoMemory, Words};

/// Answers a question, and does what it asks for. Where memory wants, the arrays are as they were.
pub(crate) fn ask(
    alloc: Global,
    arrays: &mut Arrays,
    question: ArrayQuestion,
    words: &Words,
) -> Result<NsvReply, NoMemory>
    requires { least_words question ≤ length words.now }
    ensures reply { IfOk result (λ reply.
        reply ≡ (question_step question (seen arrays.old) words.now).0) }
    ensures ok { OnOk result
        (seen arrays.new ≡ (question_step question (seen arrays.old) words.now).1) }
    ensures err { OnErr result (seen arrays.new ≡ seen arrays.old) }
{
    match question {
        ArrayQuestion::Set => set(alloc, arrays, words),
        ArrayQuestion::Get => get(alloc, arrays, words),
        ArrayQuestion::Exists => exists(alloc, arrays, words),
        ArrayQuestion::Incr => incr(alloc, arrays, words),
        ArrayQuestion::Append => append(alloc, arrays, words),
        ArrayQuestion::Lappend => lappend(alloc, arrays, words),
        ArrayQuestion::Unset => unset(alloc, arrays, words),
        ArrayQuestion::Names => names_of_arrays(alloc, arrays, words),
        ArrayQuestion::ArraySet => array_set(alloc, arrays, words),
        ArrayQuestion::ArrayReset => array_reset(alloc, arrays, words),
        ArrayQuestion::ArrayGet => array_get(alloc, arrays, words),
        ArrayQuestion::ArrayNames => array_names(alloc, arrays, words),
        ArrayQuestion::ArraySize => array_size(alloc, arrays, words),
        ArrayQuestion::ArrayExists => array_exists(alloc, arrays, words),
    }
}
