//! Elements behind a list.

ghost use Rattle.std.specs.Prelude.{◌≡◌, ◌++◌, ◌∷◌, true, Ok, IfOk, IfSome, OnOk};
ghost use Rattle.txt_core.specs.Knowing.{IsWrittenList};
ghost use Rattle.tcl_list.specs.Answers.{AppendsTo};
ghost use Rattle.tcl_list.specs.Appending.{Begins, spaced};

use crate::brace::in_braces;
use crate::fault::ListFault;
use crate::splitting::split;
use crate::writing::{Manner, manner_of, put_element, quote};
use std::alloc::{AllocError, Global};
use txt_core::{Known, NoMemory, Text, Words};

/// What stands before the first space, and what is left from it on.
fn to_space(bytes: &[u8]) -> (&[u8], &[u8])
    ensures { bytes.now ≡ result.0.now ++ result.1.now }
{
    let mut count = 0;
    while count < bytes.len() && bytes[count] != b' ' {
        count += 1;
    }
    bytes.split_at(count)
}

/// What is left behind an element that is written in braces, read behind the one that opens it.
fn behind_braces(bytes: &[u8]) -> Option<&[u8]>
    ensures { IfSome result (λ rest. Begins (123 ∷ bytes.now) rest.now) }
{
    let (text, rest) = in_braces(bytes)?;
    match manner_of(text) {
        Manner::InBraces => Some(rest),
        _ => None,
    }
}

/// What is left behind an element that is written as itself.
fn behind_plain(bytes: &[u8]) -> Option<&[u8]>
    ensures { IfSome result (λ rest. Begins bytes.now rest.now) }
{
    let (text, rest) = to_space(bytes);
    match manner_of(text) {
        Manner::Itself => Some(rest),
        _ => None,
    }
}

/// What is left behind an element that stands here as `quote` writes it, as itself or in braces.
fn behind_element(bytes: &[u8]) -> Option<&[u8]>
    ensures { IfSome result (λ rest. Begins bytes.now rest.now) }
{
    if let Some((b, tail)) = bytes.split_first() {
        if *b == b'{' {
            return behind_braces(tail);
        }
    }
    behind_plain(bytes)
}

/// Whether a text is a list of at least one element as `quote` writes it. One in which an element
/// is written with backslashes is not looked into: of it the answer is no.
fn stands_as_written(bytes: &[u8]) -> bool
    ensures { result ≡ true → IsWrittenList bytes.now }
{
    let mut rest = bytes;
    'elements: loop {
        let Some(left) = behind_element(rest) else {
            return false;
        };
        match left.split_first() {
            None => return true,
            Some((b, after)) => {
                if *b != b' ' {
                    return false;
                }
                rest = after;
            }
        }
    }
}

/// Writes elements, each behind a space.
fn put_behind(out: &mut Vec<u8>, words: &[Text]) -> Result<(), AllocError>
    ensures { OnOk result (out.new.items ≡ out.old.items ++ spaced words.now) }
{
    'words: for word in words {
        out.push(b' ')?;
        put_element(out, word.bytes())?;
    }
    Ok(())
}

/// What stands behind a list, once these elements are put at its end. The condition is that the
/// list, of at least one element, stands as `quote` writes it; its bytes aren't read. The only error
/// is want of memory.
pub fn elements_behind(alloc: Global, list: &Text, words: &[Text]) -> Result<Text, NoMemory>
    requires { IsWrittenList list.now }
    ensures appends { IfOk result (λ more. AppendsTo list.now words.now (Ok (list.now ++ more))) }
    ensures written { IfOk result (λ more. IsWrittenList (list.now ++ more)) }
{
    let mut more = Vec::new(alloc);
    put_behind(&mut more, words)?;
    Ok(Text::from_vec(more))
}

/// Whether a list of at least one element is known, or is found, to stand as `quote` writes it.
fn is_as_written(list: &Text) -> bool
    ensures { result ≡ true → IsWrittenList list.now }
{
    match list.known() {
        Known::WrittenList => true,
        Known::Number(_) | Known::Nothing => stands_as_written(list.bytes()),
    }
}

/// Puts elements behind those of a list, and writes them all.
fn quoted_anew(alloc: Global, list: &Text, words: &[Text]) -> Result<Text, ListFault>
    ensures { AppendsTo list.now words.now result }
{
    let mut elements = split(alloc, list)?;
    elements.append_copies(alloc, words)?;
    Ok(quote(alloc, &elements)?)
}

/// Puts elements at the end of a list: the one text in which the list's elements and, behind them,
/// these are written.
///
/// A text that is known to be a list of at least one element as `quote` writes it, or is found to
/// be one whose elements stand as themselves or in braces, is kept, and only the new elements are
/// written behind it; a known one isn't looked at. Any other, the empty text too, is split and
/// quoted anew.
///
/// # Errors
///
/// `Bad { at }` exactly where the text is no list, at the first such place, as [`split`] tells it.
/// `NoMemory` for want of memory alone.
pub fn append_elements(alloc: Global, mut list: Text, words: &[Text]) -> Result<Text, ListFault>
    ensures { AppendsTo list words.now result }
{
    if is_as_written(&list) {
        let more = elements_behind(alloc, &list, words)?;
        list.append(more.bytes())?;
        return Ok(list.knowing(Known::WrittenList));
    }
    quoted_anew(alloc, &list, words)
}
