//! The parts of a pattern of `format`.

ghost use Rattle.std.specs.Prelude.{◌≡◌, ◌≤◌, ◌+◌, drop, length, min, option_map, if◌then◌else◌, true, false, None, Some, IfSome, MatchOption};
ghost use Rattle.txt_core.specs.Digits.{digit_of, is_digit, value_of};
ghost use Rattle.txt_core.specs.Texts.{begins_with};
ghost use Rattle.natives.specs.Formatting.{takes_word};
ghost use Rattle.natives.specs.Parts.{is_letter, most_wide, taken_by, all_digits, form_at, parts};
ghost use Rattle.tcl_string.specs.Patterns.{letter_code, form_of, part_of, with_rest, behind_flags, first_part, words_taken};

use txt_core::digit;

/// How wide a form may be, in bytes.
pub const MOST_WIDE: usize = 1000;

/// The base in which a width is written.
const DECIMAL: u8 = 10;

/// What a form writes of its word.
#[derive(Clone, Copy)]
pub enum Letter {
    /// `d`: a number in decimal.
    Decimal,
    /// `s`: the word itself.
    Word,
    /// `x`: the 64 bits of a number in hexadecimal.
    Hexadecimal,
    /// `c`: the character with a number.
    Character,
    /// `%`: no word, but a `%`.
    Percent,
}

/// A form of a pattern: `%`, then flags, a width and a letter.
#[derive(Clone, Copy)]
pub struct Form {
    /// Whether the text stands to the left of its width.
    pub left: bool,
    /// Whether zeros fill up the width.
    pub zeros: bool,
    /// The least number of bytes.
    pub width: usize,
    pub letter: Letter,
}

/// A part of a pattern.
#[derive(Clone, Copy)]
pub enum Part {
    /// A byte that stands for itself.
    Itself(u8),
    Form(Form),
}

/// The letter of a form; `None` exactly where the byte is none of the five.
fn letter_of(byte: u8) -> Option<Letter>
    ensures { option_map letter_code result ≡ (if is_letter byte then Some byte else None) }
{
    match byte {
        b'd' => Some(Letter::Decimal),
        b's' => Some(Letter::Word),
        b'x' => Some(Letter::Hexadecimal),
        b'c' => Some(Letter::Character),
        b'%' => Some(Letter::Percent),
        _ => None,
    }
}

/// Whether a flag stands at the front, and what is behind it.
fn flag(flag: u8, bytes: &[u8]) -> (bool, &[u8])
    ensures stands { result.0 ≡ begins_with flag bytes.now }
    ensures behind { result.1.now ≡ drop (taken_by (begins_with flag bytes.now)) bytes.now }
{
    match bytes.split_first() {
        Some((first, behind)) if *first == flag => (true, behind),
        _ => (false, bytes),
    }
}

/// The value of a decimal digit; `None` exactly for any other byte.
fn decimal_digit(byte: u8) -> Option<usize>
    ensures { MatchOption result (is_digit 10 byte ≡ false) (λ d.
        (is_digit 10 byte ≡ true) × (d ≡ digit_of byte)) }
{
    let value = digit(byte);
    if value < DECIMAL {
        Some(usize::from(value))
    } else {
        None
    }
}

/// The number that the digits at the front say, or just over the widest where it is more, and what
/// is behind them.
fn width(bytes: &[u8]) -> (usize, &[u8])
    ensures value { result.0 ≡ min (value_of 10 (all_digits bytes.now)) (most_wide + 1) }
    ensures behind { result.1.now ≡ drop (length (all_digits bytes.now)) bytes.now }
{
    let mut width = 0;
    let mut count = 0;
    'digits: for byte in bytes {
        let Some(digit) = decimal_digit(*byte) else {
            break;
        };
        width = (width * 10 + digit).min(MOST_WIDE + 1);
        count += 1;
    }
    (width, &bytes[count..])
}

/// The form whose width and letter stand at the front behind these flags, and what is behind it.
fn form_behind(left: bool, zeros: bool, bytes: &[u8]) -> Option<(Form, &[u8])>
    ensures { option_map (λ f. (form_of f.0, f.1.now)) result ≡ behind_flags left zeros bytes.now }
{
    let (width, rest) = width(bytes);
    let (byte, behind) = rest.split_first()?;
    let letter = letter_of(*byte)?;
    if width > MOST_WIDE {
        return None;
    }
    let form = Form {
        left,
        zeros,
        width,
        letter,
    };
    Some((form, behind))
}

/// The form whose flags, width and letter stand at the front, and what is behind it.
fn form_at(bytes: &[u8]) -> Option<(Form, &[u8])>
    ensures { option_map (λ f. (form_of f.0, f.1.now)) result
        ≡ with_rest bytes.now (form_at bytes.now) }
{
    let (left, behind) = flag(b'-', bytes);
    let (zeros, behind) = flag(b'0', behind);
    form_behind(left, zeros, behind)
}

/// The part that begins with a byte, and what is behind it; `None` exactly where the byte is a `%`
/// that begins no form.
pub fn first_part(byte: u8, behind: &[u8]) -> Option<(Part, &[u8])>
    ensures same { option_map (λ p. (part_of p.0, p.1.now)) result ≡ first_part byte behind.now }
    ensures goes { IfSome result (λ p. length p.1.now ≤ length behind.now) }
{
    if byte != b'%' {
        return Some((Part::Itself(byte), behind));
    }
    let (form, rest) = form_at(behind)?;
    Some((Part::Form(form), rest))
}

/// Whether a part takes a word: each form but `%%`.
pub fn takes_word(part: Part) -> bool
    ensures { result ≡ takes_word (part_of part) }
{
    match part {
        Part::Itself(_) => false,
        Part::Form(form) => !matches!(form.letter, Letter::Percent),
    }
}

/// How many words a part takes: one, or none.
fn taken_by(part: Part) -> usize
    ensures same { result ≡ taken_by (takes_word (part_of part)) }
    ensures few { result ≤ 1 }
{
    if takes_word(part) { 1 } else { 0 }
}

/// How many words the parts of a whole pattern take; `None` exactly where a `%` begins no form. The
/// parts aren't kept.
pub fn words_taken(pattern: &[u8]) -> Option<usize>
    ensures { result ≡ words_taken (parts pattern.now) }
{
    let mut taken = 0;
    let mut rest = pattern;
    'parts: while let Some((byte, behind)) = rest.split_first() {
        let (part, more) = first_part(*byte, behind)?;
        taken += taken_by(part);
        rest = more;
    }
    Some(taken)
}
