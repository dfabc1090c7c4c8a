//! The bytes of elements.

ghost use Rattle.std.specs.Prelude.{◌≡◌, ◌<◌, ◌≤◌, false, length, IfOk};
ghost use Rattle.txt_core.specs.Lists.{ends_element, next, BytesAt};
ghost use Rattle.tcl_list.specs.Answers.{step_of, IsShorter};

use std::alloc::{AllocError, Global};
use txt_core::{Form, is_space, read_escape};

/// What comes next in an element that isn't in braces.
#[derive(Clone, Copy)]
pub enum Step<'a> {
    /// The element ends here.
    Ends,
    /// A byte that is itself, and what is left.
    Byte(u8, &'a [u8]),
    /// What a backslash gives, and what is left.
    Escaped(Form, &'a [u8]),
}

fn next(quoted: bool, bytes: &[u8]) -> Step<'_>
    ensures same { step_of result ≡ next quoted bytes.now }
    ensures shorter { IsShorter (length bytes.now) result }
{
    match bytes.split_first() {
        None => Step::Ends,
        Some((b, tail)) => {
            if quoted && *b == b'"' || !quoted && is_space(*b) {
                Step::Ends
            } else if *b == b'\\' {
                let (form, rest) = read_escape(tail);
                Step::Escaped(form, rest)
            } else {
                Step::Byte(*b, tail)
            }
        }
    }
}

/// The bytes of an element that isn't in braces, and what is left.
pub fn bytes_of(alloc: Global, quoted: bool, bytes: &[u8]) -> Result<(Vec<u8>, &[u8]), AllocError>
    ensures same { IfOk result (λ x. BytesAt quoted bytes.now x.0.items x.1.now) }
    ensures goes { IfOk result (λ x. length x.1.now ≤ length bytes.now) }
    ensures moves { quoted ≡ false → ends_element bytes.now ≡ false
        → IfOk result (λ x. length x.1.now < length bytes.now) }
{
    let mut text = Vec::new(alloc);
    let mut rest = bytes;
    'bytes: loop {
        match next(quoted, rest) {
            Step::Ends => return Ok((text, rest)),
            Step::Byte(b, after) => {
                text.push(b)?;
                rest = after;
            }
            Step::Escaped(form, after) => {
                text.extend_from_slice(&form.bytes[..form.len as usize])?;
                rest = after;
            }
        }
    }
}
