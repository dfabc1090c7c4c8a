//! What comes next in a word.

ghost use Rattle.std.specs.Prelude.{◌≡◌, ◌<◌, ◌+◌, length};
ghost use Rattle.txt_core.specs.Escape.{escape_of};
ghost use Rattle.tcl_parse.specs.Steps.{bytes, stops, behind_dollar, step_at, next};
ghost use Rattle.tcl_parse.specs.Answers.{mode_of, step_of, IsShorter};

use crate::gap::word_ends;
use crate::name::{split_before, split_name};
use txt_core::{Form, read_escape};

/// Where the parts of a word stand.
#[derive(Clone, Copy)]
pub enum Mode {
    /// In a bare word, which stands in a bracket or not.
    Bare(bool),
    /// In quotes.
    Quotes,
    /// In the index of an array's element.
    Index,
}

/// What is substituted.
#[derive(Clone, Copy)]
pub enum Substitution<'a> {
    /// A variable of this name, behind which this is left.
    Named(&'a [u8], &'a [u8]),
    /// An element of the array of this name, whose index begins here.
    Indexed(&'a [u8], &'a [u8]),
    /// A script in a bracket, which begins here.
    Opened(&'a [u8]),
    /// A name in braces that isn't closed.
    Unnamed,
}

/// What comes next in a word.
#[derive(Clone, Copy)]
pub enum Step<'a> {
    /// The parts end.
    Ends,
    /// This byte, behind which this is left.
    Byte(u8, &'a [u8]),
    /// What a backslash gives, behind which this is left.
    Escaped(Form, &'a [u8]),
    /// Something that is substituted.
    Substituted(Substitution<'a>),
}

fn ends(mode: Mode, bytes: &[u8]) -> bool
    ensures { result ≡ stops (mode_of mode) bytes.now }
{
    match mode {
        Mode::Bare(nested) => word_ends(nested, bytes),
        Mode::Quotes => match bytes {
            [] => true,
            [b, ..] => *b == b'"',
        },
        Mode::Index => match bytes {
            [] => true,
            [b, ..] => *b == b')',
        },
    }
}

fn after_backslash(rest: &[u8]) -> Step<'_>
    ensures same { step_of result ≡ bytes (escape_of rest.now).0 (escape_of rest.now).1 }
    ensures shorter { IsShorter (length rest.now + 1) result }
{
    let (form, rest) = read_escape(rest);
    Step::Escaped(form, rest)
}

fn after_dollar(bytes: &[u8]) -> Step<'_>
    ensures same { step_of result ≡ behind_dollar bytes.now }
    ensures shorter { IsShorter (length bytes.now + 1) result }
{
    match bytes.split_first() {
        None => Step::Byte(b'$', bytes),
        Some((b, after)) => {
            if *b == b'{' {
                return match split_before(b'}', after) {
                    None => Step::Substituted(Substitution::Unnamed),
                    Some((name, rest)) => Step::Substituted(Substitution::Named(name, rest)),
                };
            }
            let (name, rest) = split_name(bytes);
            if name.is_empty() {
                return Step::Byte(b'$', rest);
            }
            match rest.split_first() {
                None => Step::Substituted(Substitution::Named(name, rest)),
                Some((b, index)) => {
                    if *b == b'(' {
                        Step::Substituted(Substitution::Indexed(name, index))
                    } else {
                        Step::Substituted(Substitution::Named(name, rest))
                    }
                }
            }
        }
    }
}

/// What stands at the front, wherever the parts end.
pub fn first(bytes: &[u8]) -> Step<'_>
    ensures same { step_of result ≡ step_at bytes.now }
    ensures shorter { IsShorter (length bytes.now) result }
{
    match bytes.split_first() {
        None => Step::Ends,
        Some((b, tail)) => {
            if *b == b'\\' {
                after_backslash(tail)
            } else if *b == b'$' {
                after_dollar(tail)
            } else if *b == b'[' {
                Step::Substituted(Substitution::Opened(tail))
            } else {
                Step::Byte(*b, tail)
            }
        }
    }
}

/// What comes next.
pub fn next(mode: Mode, bytes: &[u8]) -> Step<'_>
    ensures same { step_of result ≡ next (mode_of mode) bytes.now }
    ensures shorter { IsShorter (length bytes.now) result }
{
    if ends(mode, bytes) {
        return Step::Ends;
    }
    first(bytes)
}
