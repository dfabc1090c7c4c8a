//! A text as a list. What is wrong on the way is how many bytes are left from the place on that is bad.

ghost use Rattle.std.specs.Prelude.{[], ◌≡◌, ◌+◌, ◌<◌, ◌≤◌, true, false, length, IfOk};
ghost use Rattle.txt_core.specs.Counting.{braced};
ghost use Rattle.txt_core.specs.Lists.{closing, ends_element, ElementAt, Reads};
ghost use Rattle.txt_core.specs.Listing.{close_brace};
ghost use Rattle.txt_core.specs.declared.stop.Stop.TheVariants as stop;
ghost use Rattle.tcl_list.specs.Answers.{Gives, QuoteGives, SplitsAs};

use crate::brace::in_braces;
use crate::element::bytes_of;
use crate::fault::ListFault;
use crate::gap::{element_ends, to_element};
use std::alloc::Global;
use txt_core::{Stop, Text, Words};

/// What stands open before these bytes, which nothing closes.
fn unclosed(bytes: &[u8]) -> Stop<usize>
    ensures { result ≡ stop.Fault (length bytes.now + 1) }
{
    Stop::Fault(bytes.len() + 1)
}

/// An element that its brace or quote has closed: behind it a blank, a newline or the end must come.
fn closed(text: Vec<u8>, rest: &[u8]) -> Result<(Text, &[u8]), Stop<usize>>
    ensures same { Gives (λ x. x.0) (λ x. x.1.now) result (λ o. closing text.items rest.now ≡ o) }
    ensures rests { IfOk result (λ x. x.1.now ≡ rest.now) }
{
    if !element_ends(rest) {
        return Err(Stop::Fault(rest.len()));
    }
    Ok((Text::from_vec(text), rest))
}

/// An element behind the brace that opens it.
fn braced_element(alloc: Global, bytes: &[u8]) -> Result<(Text, &[u8]), Stop<usize>>
    ensures same { Gives (λ x. x.0) (λ x. x.1.now) result (λ o.
        close_brace (length bytes.now + 1) (braced false 0 bytes.now) ≡ o) }
    ensures goes { IfOk result (λ x. length x.1.now ≤ length bytes.now) }
{
    match in_braces(bytes) {
        None => Err(unclosed(bytes)),
        Some((text, rest)) => closed(Vec::from_slice(alloc, text)?, rest),
    }
}

/// An element behind the quote that opens it.
fn quoted_element(alloc: Global, bytes: &[u8]) -> Result<(Text, &[u8]), Stop<usize>>
    ensures same { Gives (λ x. x.0) (λ x. x.1.now) result (QuoteGives bytes.now) }
    ensures goes { IfOk result (λ x. length x.1.now ≤ length bytes.now) }
{
    let (text, rest) = bytes_of(alloc, true, bytes)?;
    match rest.split_first() {
        None => Err(unclosed(bytes)),
        Some((_quote, rest)) => closed(text, rest),
    }
}

/// An element, and what is left behind it.
fn element(alloc: Global, bytes: &[u8]) -> Result<(Text, &[u8]), Stop<usize>>
    requires { ends_element bytes.now ≡ false }
    ensures same { Gives (λ x. x.0) (λ x. x.1.now) result (ElementAt bytes.now) }
    ensures goes { IfOk result (λ x. length x.1.now < length bytes.now) }
{
    if let Some((b, tail)) = bytes.split_first() {
        if *b == b'{' {
            return braced_element(alloc, tail);
        }
        if *b == b'"' {
            return quoted_element(alloc, tail);
        }
    }
    let (text, rest) = bytes_of(alloc, false, bytes)?;
    Ok((Text::from_vec(text), rest))
}

/// The elements of a text.
fn elements(alloc: Global, bytes: &[u8]) -> Result<Words, Stop<usize>>
    ensures { Gives (λ x. x) (λ _. []) result (Reads bytes.now) }
{
    let mut words = Words::new(alloc);
    let mut rest = to_element(bytes);
    'elements: while !rest.is_empty() {
        let (word, after) = element(alloc, rest)?;
        if let Err(_word) = words.push(word) {
            return Err(Stop::NoMemory);
        }
        rest = to_element(after);
    }
    Ok(words)
}

/// The elements of a text that is a list.
///
/// Blanks (space, tab, carriage return, vertical tab, form feed) and newlines separate elements.
/// One in braces is literal up to the brace that closes it; in quotes and elsewhere the backslash
/// forms act. The empty text is the empty list.
///
/// # Errors
///
/// `Bad { at }` exactly where the text is no list: at the brace or the quote that nothing closes,
/// or at the byte behind a closing one that is no blank and no newline; the first such place.
/// `NoMemory` for want of memory alone.
pub fn split(alloc: Global, text: &Text) -> Result<Words, ListFault>
    ensures { SplitsAs text.now result }
{
    let bytes = text.bytes();
    match elements(alloc, bytes) {
        Ok(words) => Ok(words),
        Err(Stop::NoMemory) => Err(ListFault::NoMemory),
        Err(Stop::Fault(left)) => Err(ListFault::Bad {
            at: (bytes.len() - left) as u64,
        }),
    }
}
