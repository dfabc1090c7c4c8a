//! Codes with results.

ghost use Rattle.std.specs.Prelude.{◌≡◌, [], IfOk};
ghost use Rattle.tcl_host.specs.Codes as code_of;
ghost use Rattle.tcl_eval.specs.Messages.{no_boolean, too_long};
ghost use Rattle.tcl_eval.specs.Kept.{kept_value};
ghost use Rattle.tcl_eval.specs.declared.gather.SoFar.{SoFar};
ghost use Rattle.tcl_eval.specs.Eval.{ended, error_of, wrong_words_end, return_of, raised_of, break_of, continue_of, returned};

use crate::gather::SoFar;
use crate::message::no_boolean;
use crate::stack::Ended;
use crate::words::copy_word;
use std::alloc::Global;
use tcl_host::{BREAK, CONTINUE, ERROR, OK, RETURN};
use txt_core::{NoMemory, Text, Words, error_text, is_too_long};

/// A good end with the empty result.
pub fn done(alloc: Global) -> Ended
    ensures { result ≡ ended code_of.ok [] }
{
    Ended {
        code: OK,
        result: Text::empty(alloc),
    }
}

/// The error of a word, a value or a result that is too long.
#[cold]
#[inline(never)]
pub fn too_long(alloc: Global) -> Result<Ended, NoMemory>
    ensures { IfOk result (λ value. value ≡ ended code_of.error too_long) }
{
    Ok(Ended {
        code: ERROR,
        result: error_text::too_long(alloc)?,
    })
}

/// What a word, or an index, comes to of which no piece is left.
pub fn kept_value(alloc: Global, so_far: SoFar) -> Result<Ended, NoMemory>
    ensures { IfOk result (λ value. value ≡ kept_value so_far) }
{
    match so_far {
        SoFar::Kept(result) => judged(alloc, result),
        SoFar::TooLong => too_long(alloc),
    }
}

/// What a word with this value comes to.
#[inline(always)]
pub fn judged(alloc: Global, text: Text) -> Result<Ended, NoMemory>
    ensures { IfOk result (λ value. value ≡ kept_value (SoFar.Kept text)) }
{
    if is_too_long(&text) {
        return too_long(alloc);
    }
    Ok(Ended {
        code: OK,
        result: text,
    })
}

/// An error with this text, which isn't too long.
pub fn failed(message: Text) -> Ended
    ensures { result ≡ ended code_of.error message }
{
    Ended {
        code: ERROR,
        result: message,
    }
}

/// An error with this text.
#[cold]
#[inline(never)]
pub fn error(alloc: Global, message: Text) -> Result<Ended, NoMemory>
    ensures { IfOk result (λ value. value ≡ error_of message) }
{
    if is_too_long(&message) {
        return too_long(alloc);
    }
    Ok(Ended {
        code: ERROR,
        result: message,
    })
}

/// The error of a value that has no truth.
#[cold]
#[inline(never)]
pub fn no_truth(alloc: Global, value: &Text) -> Result<Ended, NoMemory>
    ensures { IfOk result (λ ended. ended ≡ error_of (no_boolean value.now)) }
{
    error(alloc, no_boolean(alloc, value.bytes())?)
}

/// A built-in has the wrong number of words.
#[cold]
#[inline(never)]
pub fn wrong_words(alloc: Global, words: &Words) -> Result<Ended, NoMemory>
    ensures { IfOk result (λ value. value ≡ wrong_words_end words.now) }
{
    error(alloc, error_text::wrong_words(alloc, words.bytes_at(0))?)
}

/// `return ?value?`.
pub fn do_return(alloc: Global, words: &Words) -> Result<Ended, NoMemory>
    ensures { IfOk result (λ value. value ≡ return_of words.now) }
{
    if words.len() != 1 && words.len() != 2 {
        return wrong_words(alloc, words);
    }
    Ok(Ended {
        code: RETURN,
        result: copy_word(alloc, words, 1)?,
    })
}

/// `error text`.
pub fn do_error(alloc: Global, words: &Words) -> Result<Ended, NoMemory>
    ensures { IfOk result (λ value. value ≡ raised_of words.now) }
{
    if words.len() != 2 {
        return wrong_words(alloc, words);
    }
    Ok(Ended {
        code: ERROR,
        result: copy_word(alloc, words, 1)?,
    })
}

/// `break`.
pub fn do_break(alloc: Global, words: &Words) -> Result<Ended, NoMemory>
    ensures { IfOk result (λ value. value ≡ break_of words.now) }
{
    if words.len() != 1 {
        return wrong_words(alloc, words);
    }
    Ok(Ended {
        code: BREAK,
        result: Text::empty(alloc),
    })
}

/// `continue`.
pub fn do_continue(alloc: Global, words: &Words) -> Result<Ended, NoMemory>
    ensures { IfOk result (λ value. value ≡ continue_of words.now) }
{
    if words.len() != 1 {
        return wrong_words(alloc, words);
    }
    Ok(Ended {
        code: CONTINUE,
        result: Text::empty(alloc),
    })
}

/// A procedure's body ended with this.
pub fn returned(alloc: Global, value: Ended) -> Result<Ended, NoMemory>
    ensures { IfOk result (λ after. after ≡ returned value.code value.result) }
{
    match value.code {
        RETURN => Ok(Ended {
            code: OK,
            result: value.result,
        }),
        BREAK => error(alloc, error_text::outside_loop(alloc, b"break")?),
        CONTINUE => error(alloc, error_text::outside_loop(alloc, b"continue")?),
        _ => Ok(value),
    }
}
