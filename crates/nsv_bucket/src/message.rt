//! The texts of errors, and the replies that hold them.

ghost use Rattle.std.specs.Prelude.{◌≡◌, IfOk};
ghost use Rattle.txt_core.specs.ErrorTexts.{too_long};
ghost use Rattle.nsv_bucket.specs.declared.reply.NsvReply.TheVariants.{Failed};
ghost use Rattle.nsv_bucket.specs.Replies.{refusal, result_of, no_shared_array, no_key, bad_pairs};

use crate::reply::NsvReply;
use std::alloc::Global;
use txt_core::error_text::naming;
use txt_core::{NoMemory, Text, error_text, is_too_long};

/// `no array "NAME"`
pub(crate) fn no_array(alloc: Global, name: &Text) -> Result<Text, NoMemory>
    ensures { IfOk result (λ text. text ≡ no_shared_array name.now) }
{
    naming(alloc, b"no array \"", name.bytes(), b"\"")
}

/// `no key "KEY" in array "NAME"`
pub(crate) fn no_key(alloc: Global, key: &Text, name: &Text) -> Result<Text, NoMemory>
    ensures { IfOk result (λ text. text ≡ no_key key.now name.now) }
{
    let back = naming(alloc, b"\" in array \"", name.bytes(), b"\"")?;
    naming(alloc, b"no key \"", key.bytes(), back.bytes())
}

/// `bad value "TEXT" for "nsv_array"`
pub(crate) fn bad_pairs(alloc: Global, text: &Text) -> Result<Text, NoMemory>
    ensures { IfOk result (λ whole. whole ≡ bad_pairs text.now) }
{
    error_text::bad_value(alloc, text.bytes(), b"nsv_array")
}

/// The refusal of a text that is too long.
pub(crate) fn refuse_long(alloc: Global) -> Result<NsvReply, NoMemory>
    ensures { IfOk result (λ reply. reply ≡ Failed too_long) }
{
    Ok(NsvReply::Failed(error_text::too_long(alloc)?))
}

/// The refusal with this text.
pub(crate) fn refuse(alloc: Global, text: Text) -> Result<NsvReply, NoMemory>
    ensures { IfOk result (λ reply. reply ≡ refusal text) }
{
    if is_too_long(&text) {
        return refuse_long(alloc);
    }
    Ok(NsvReply::Failed(text))
}

/// The reply with this result.
pub(crate) fn answer(alloc: Global, text: Text) -> Result<NsvReply, NoMemory>
    ensures { IfOk result (λ reply. reply ≡ result_of text) }
{
    if is_too_long(&text) {
        return refuse_long(alloc);
    }
    Ok(NsvReply::Said(text))
}
