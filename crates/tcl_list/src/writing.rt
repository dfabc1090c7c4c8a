//! A list as a text.

ghost use Rattle.std.specs.Prelude.{[], false, ◌≡◌, ◌++◌, length, take, ◌<◌, IfOk, OnOk};
ghost use Rattle.txt_core.specs.Counting.{balances};
ghost use Rattle.txt_core.specs.Knowing.{Holds};
ghost use Rattle.tcl_list.specs.Manners.{written_by};
ghost use Rattle.txt_core.specs.Quoting.{is_special, letter_of, with_backslashes, escaped, written, quoting};

use crate::brace::Nesting;
use std::alloc::{AllocError, Global};
use txt_core::{Known, NoMemory, Text, Words, is_space};

const VERTICAL_TAB: u8 = 11;

const FORM_FEED: u8 = 12;

/// Whether the byte keeps an element from standing as itself.
fn special(b: u8) -> bool
    ensures { result ≡ is_special b }
{
    is_space(b) || matches!(b, b'{' | b'}' | b'[' | b']' | b'"' | b'\\' | b'$' | b';')
}

/// How an element is written.
#[derive(Clone, Copy)]
pub(crate) enum Manner {
    Itself,
    InBraces,
    WithBackslashes,
}

/// How an element is written, found in one pass over its bytes: whether one of them keeps it from
/// standing as itself, and whether it could stand in braces.
#[tactic(auto, unfolding(txt_core::specs::Counting::balances))]
pub(crate) fn manner_of(text: &[u8]) -> Manner
    ensures { written text.now ≡ written_by result text.now }
{
    let mut plain = text.first().is_some_and(|b| *b != b'#');
    let mut nesting = Nesting::front();
    let mut rest = text;
    'bytes: while let Some((b, tail)) = rest.split_first() {
        plain = plain && !special(*b);
        if nesting.passes && *b == b'\n' {
            return Manner::WithBackslashes;
        }
        match nesting.behind(*b) {
            None => return Manner::WithBackslashes,
            Some(behind) => nesting = behind,
        }
        rest = tail;
    }
    if plain {
        Manner::Itself
    } else if nesting.may_end() {
        Manner::InBraces
    } else {
        Manner::WithBackslashes
    }
}

/// The byte that a backslash stands before in the place of this one.
fn letter(b: u8) -> u8
    ensures { result ≡ letter_of b }
{
    match b {
        b'\n' => b'n',
        b'\t' => b't',
        b'\r' => b'r',
        VERTICAL_TAB => b'v',
        FORM_FEED => b'f',
        _ => b,
    }
}

/// Writes a text with its special bytes behind backslashes.
#[tactic(auto, using(crate::proofs::Slashes::slash_steps))]
fn put_slashed(out: &mut Vec<u8>, text: &[u8]) -> Result<(), AllocError>
    ensures { OnOk result (out.new.items ≡ out.old.items ++ with_backslashes text.now) }
{
    let mut rest = text;
    'bytes: while let Some((b, tail)) = rest.split_first() {
        if special(*b) {
            out.push(b'\\')?;
            out.push(letter(*b))?;
        } else {
            out.push(*b)?;
        }
        rest = tail;
    }
    Ok(())
}

/// The same, and a leading number sign behind a backslash too.
fn put_escaped(out: &mut Vec<u8>, text: &[u8]) -> Result<(), AllocError>
    ensures { OnOk result (out.new.items ≡ out.old.items ++ escaped text.now) }
{
    if let Some((b, tail)) = text.split_first() {
        if *b == b'#' {
            out.push(b'\\')?;
            out.push(b'#')?;
            return put_slashed(out, tail);
        }
        return put_slashed(out, text);
    }
    Ok(())
}

/// Writes an element.
pub(crate) fn put_element(out: &mut Vec<u8>, text: &[u8]) -> Result<(), AllocError>
    ensures { OnOk result (out.new.items ≡ out.old.items ++ written text.now) }
{
    match manner_of(text) {
        Manner::Itself => out.extend_from_slice(text),
        Manner::InBraces => {
            out.push(b'{')?;
            out.extend_from_slice(text)?;
            out.push(b'}')?;
            Ok(())
        }
        Manner::WithBackslashes => put_escaped(out, text),
    }
}

/// Writes the elements from the second on, each behind a space.
#[tactic(auto, using(crate::proofs::Slashes::quote_steps))]
fn put_more(out: &mut Vec<u8>, words: &Words) -> Result<(), AllocError>
    requires { 0 < length words.now }
    ensures { OnOk result
        (out.old.items ≡ quoting (take 1 words.now) → out.new.items ≡ quoting words.now) }
{
    'words: for i in 1..words.len() {
        match words.get(i) {
            None => unreachable!(),
            Some(word) => {
                out.push(b' ')?;
                put_element(out, word.bytes())?;
            }
        }
    }
    Ok(())
}

/// Writes the elements.
#[tactic(auto, using(crate::proofs::Slashes::quote_steps))]
fn put_all(out: &mut Vec<u8>, words: &Words) -> Result<(), AllocError>
    ensures { OnOk result (out.old.items ≡ [] → out.new.items ≡ quoting words.now) }
{
    match words.get(0) {
        None => Ok(()),
        Some(word) => {
            put_element(out, word.bytes())?;
            put_more(out, words)
        }
    }
}

/// What is known of the text in which these elements are written.
fn known_of(words: &Words) -> Known
    ensures { Holds result (quoting words.now) }
{
    if words.is_empty() {
        Known::Nothing
    } else {
        Known::WrittenList
    }
}

/// The one text in which these elements are written as a list, with one space between.
///
/// An element stands as itself where it isn't empty, doesn't begin with `#` and holds no blank,
/// newline or one of `{ } [ ] " \ $ ;`. Otherwise it stands in braces where its braces match and
/// no backslash stands last or before a newline. Otherwise each of those bytes, and a leading `#`,
/// is written with a backslash, and newline, tab, carriage return, vertical tab and form feed as
/// `\n \t \r \v \f`. Splitting the text gives these elements again. Where there is an element, the
/// text is known to be a written list.
///
/// # Errors
///
/// For want of memory alone.
pub fn quote(alloc: Global, words: &Words) -> Result<Text, NoMemory>
    ensures { IfOk result (λ text. text ≡ quoting words.now) }
{
    let mut out = Vec::new(alloc);
    put_all(&mut out, words)?;
    Ok(Text::from_vec(out).knowing(known_of(words)))
}
