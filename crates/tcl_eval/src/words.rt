//! The words of commands.

ghost use Rattle.std.specs.Prelude.{◌≡◌, ◌∷◌, ◌<◌, IfOk, IsTrue, drop, []};
ghost use Rattle.tcl_eval.specs.Eval.{arg, joined};

use std::alloc::Global;
use txt_core::{NoMemory, Text, Words};

/// The first word; where there is none, the empty text that is handed in.
pub fn first_word<'a>(words: &'a Words, empty: &'a Text) -> &'a Text
    requires { empty.now ≡ [] }
    ensures { result.now ≡ arg words.now 0 }
{
    match words.get(0) {
        Some(word) => word,
        None => empty,
    }
}

/// The word at a place once more; the empty text where there is none.
pub fn copy_word(alloc: Global, words: &Words, place: usize) -> Result<Text, NoMemory>
    ensures { IfOk result (λ word. word ≡ arg words.now place) }
{
    match words.get(place) {
        Some(word) => word.copy(alloc),
        None => Ok(Text::empty(alloc)),
    }
}

/// The word at a place once more, of which copies are cheap: they share its bytes.
pub fn share_word(alloc: Global, words: &Words, place: usize) -> Result<Text, NoMemory>
    ensures { IfOk result (λ word. word ≡ arg words.now place) }
{
    let mut word = copy_word(alloc, words, place)?;
    word.share(alloc)
}

/// The words behind the first one.
pub fn behind_name(words: &Words) -> &[Text]
    ensures { result.now ≡ drop 1 words.now }
{
    match words.as_slice().split_first() {
        None => &[],
        Some((_, rest)) => rest,
    }
}

/// Whether this is the first word.
#[tactic(auto, using(crate::proofs::Rows::first_is))]
pub fn begins_with(words: &Words, name: &Text) -> bool
    ensures { IsTrue result → words.now ≡ name.now ∷ drop 1 words.now }
{
    match words.get(0) {
        Some(first) => first == name,
        None => false,
    }
}

/// The words of a call of a built-in, with its own name as the first one. No other word is copied, and
/// where the name is the first word already, nothing is.
pub fn with_name(alloc: Global, name: &Text, words: Words) -> Result<Words, NoMemory>
    ensures { IfOk result (λ renamed. renamed ≡ name.now ∷ drop 1 words) }
{
    if begins_with(&words, name) {
        return Ok(words);
    }
    renamed(alloc, name, words)
}

/// The words of a call under another name, with the built-in's own name as the first one.
#[cold]
#[inline(never)]
#[tactic(auto, using(crate::proofs::Rows::first_set, crate::proofs::Rows::first_put))]
fn renamed(alloc: Global, name: &Text, mut words: Words) -> Result<Words, NoMemory>
    ensures { IfOk result (λ renamed. renamed ≡ name.now ∷ drop 1 words) }
{
    let name = name.copy(alloc)?;
    if words.len() == 0 {
        words.add(name)?;
        return Ok(words);
    }
    drop(words.replace(0, name));
    Ok(words)
}

/// Words joined by a space.
pub fn joined(alloc: Global, words: &[Text]) -> Result<Text, NoMemory>
    ensures { IfOk result (λ text. text ≡ joined words.now) }
{
    let mut text = Text::empty(alloc);
    let mut left = words;
    'words: while let Some((word, more)) = left.split_first() {
        text.append(word.bytes())?;
        if !more.is_empty() {
            text.append(b" ")?;
        }
        left = more;
    }
    Ok(text)
}
