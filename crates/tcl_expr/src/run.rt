//! Operands that are a run of digits and letters.

ghost use Rattle.std.specs.Prelude.{◌≡◌, ◌+◌, ◌≤◌, length};
ghost use Rattle.tcl_expr.specs.Runs.{is_word, run_at, names_value, next_value, digits_front, shared, word_front, zero_front, value_front};

use txt_core::{
    WORD_FALSE, WORD_NO, WORD_OFF, WORD_ON, WORD_TRUE, WORD_YES, digit, read_int_bytes, truth_word,
};

/// Whether a byte is an ASCII letter or digit.
pub fn is_word(b: u8) -> bool
    ensures { result ≡ is_word b }
{
    matches!(b, b'a'..=b'z' | b'A'..=b'Z' | b'0'..=b'9')
}

/// The run of letters and digits at the front, and what is left.
#[tactic(auto, using(crate::proofs::Runs::run_ends))]
pub fn split_run(bytes: &[u8]) -> (&[u8], &[u8])
    ensures same { (result.0.now, result.1.now) ≡ run_at bytes.now }
    ensures whole { length result.0.now + length result.1.now ≡ length bytes.now }
{
    let mut count = 0;
    while count < bytes.len() && is_word(bytes[count]) {
        count += 1;
    }
    bytes.split_at(count)
}

/// Whether a run is a number or one of the six words of truth.
pub fn names_value(run: &[u8]) -> bool
    ensures { result ≡ names_value run.now }
{
    read_int_bytes(run).is_some() || truth_word(run).is_some()
}

/// A number with one more digit, where it is below 2 ^ 63.
fn next_value(base: u8, value: u64, byte: u8) -> Option<u64>
    ensures { result ≡ next_value base value byte }
{
    let next = digit(byte);
    if next >= base {
        return None;
    }
    let value = value.checked_mul(base as u64)?.checked_add(next as u64)?;
    if value > i64::MAX as u64 {
        return None;
    }
    Some(value)
}

/// How many digits at the front write a number below 2 ^ 63.
fn digits_front(base: u8, digits: &[u8]) -> usize
    ensures same { result ≡ digits_front base 0 digits.now }
    ensures within { result ≤ length digits.now }
{
    let mut value = 0u64;
    let mut count = 0;
    'digits: for byte in digits {
        match next_value(base, value, *byte) {
            None => break,
            Some(next) => value = next,
        }
        count += 1;
    }
    count
}

/// How many bytes two texts share at their fronts.
fn shared(word: &[u8], run: &[u8]) -> usize
    ensures { result ≡ shared word.now run.now }
{
    let mut count = 0;
    let mut word_rest = word;
    let mut rest = run;
    'bytes: while let (Some((c, word_tail)), Some((b, tail))) = (
        word_rest.split_first(),
        rest.split_first(),
    ) {
        if *c != *b {
            break;
        }
        word_rest = word_tail;
        rest = tail;
        count += 1;
    }
    count
}

fn word_front(run: &[u8]) -> usize
    ensures { result ≡ word_front run.now }
{
    shared(WORD_TRUE, run)
        .max(shared(WORD_YES, run))
        .max(shared(WORD_ON, run))
        .max(shared(WORD_FALSE, run))
        .max(shared(WORD_NO, run))
        .max(shared(WORD_OFF, run))
}

fn zero_front(behind: &[u8]) -> usize
    ensures same { result ≡ zero_front behind.now }
    ensures within { result ≤ length behind.now }
{
    match behind.split_first() {
        Some((b'x' | b'X', digits)) => digits_front(16, digits) + 1,
        _ => digits_front(8, behind),
    }
}

/// How many bytes at the front of a run a number or a word of truth can begin with.
pub fn value_front(run: &[u8]) -> usize
    ensures { result ≡ value_front run.now }
{
    match run.split_first() {
        None => 0,
        Some((b'0', behind)) => zero_front(behind) + 1,
        Some((b'1'..=b'9', _)) => digits_front(10, run),
        Some(_) => word_front(run),
    }
}
