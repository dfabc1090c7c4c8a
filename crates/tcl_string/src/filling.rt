//! What the parts of a pattern write.

ghost use Rattle.std.specs.Prelude.{◌≡◌, ◌-◌, ◌<◌, ◌++◌, ◌∷◌, [], true, false, length, None, Some, OnOk, replicate, decimal, unsigned_abs, encode_utf8, if◌then◌else◌};
ghost use Rattle.std.specs.Fmt.{digits};
ghost use Rattle.txt_core.specs.Names.{Bytes};
ghost use Rattle.natives.specs.Answers.{Tried};
ghost use Rattle.natives.specs.Checks.{integer, integer_error};
ghost use Rattle.natives.specs.Parts.{form as form_part};
ghost use Rattle.natives.specs.Formatting.{filled, sign_of, in_64_bits, is_character, form_error, takes_word};
ghost use Rattle.natives.specs.Words.{arg};
ghost use Rattle.tcl_string.specs.Filling.{Puts, PutsNext, part_error, part_text};
ghost use Rattle.tcl_string.specs.Keeping.{Keeps};
ghost use Rattle.tcl_string.specs.declared.output.Output.TheVariants.{TooLong};
ghost use Rattle.tcl_string.specs.Patterns.{form_of, part_of};

use crate::output::Output;
use crate::pattern::{Form, Letter, Part};
use natives::{Fault, number_in};
use std::alloc::Global;
use txt_core::{NoMemory, Text, write_natural};

/// Puts a byte at the end so many times.
fn put_times(out: &mut Text, byte: u8, times: usize) -> Result<(), NoMemory>
    ensures { OnOk result (out.new ≡ out.old ++ replicate times byte) }
{
    'times: for _ in 0..times {
        out.append(&[byte])?;
    }
    Ok(())
}

/// How many bytes a text with its sign lacks to the form's width.
fn missing(form: Form, sign: &[u8], text: &[u8]) -> usize
    ensures { result ≡ form.width - length (sign.now ++ text.now) }
{
    form.width
        .saturating_sub(sign.len())
        .saturating_sub(text.len())
}

/// Puts a text with its sign at the end, filled up to the form's width: behind it with spaces where it
/// stands to the left, else with zeros behind the sign, or with spaces before it.
fn put_filled(out: &mut Text, form: Form, sign: &[u8], text: &[u8]) -> Result<(), NoMemory>
    ensures { OnOk result (out.new ≡ out.old ++ filled (form_of form) sign.now text.now) }
{
    let missing = missing(form, sign, text);
    if form.left {
        out.append(sign)?;
        out.append(text)?;
        return put_times(out, b' ', missing);
    }
    if form.zeros {
        out.append(sign)?;
        put_times(out, b'0', missing)?;
        return out.append(text);
    }
    put_times(out, b' ', missing)?;
    out.append(sign)?;
    out.append(text)
}

/// The sign of a number, where it is below 0.
fn sign_of(n: i64) -> &'static [u8]
    ensures { result.now ≡ sign_of n }
{
    if n < 0 { b"-" } else { b"" }
}

/// Puts a number in decimal at the end.
fn put_number(alloc: Global, out: &mut Text, form: Form, n: i64) -> Result<(), NoMemory>
    ensures { OnOk result
        (out.new ≡ out.old ++ filled (form_of form) (sign_of n) (decimal (unsigned_abs n))) }
{
    let digits = write_natural(alloc, n.unsigned_abs())?;
    put_filled(out, form, sign_of(n), digits.bytes())
}

/// Puts the 64 bits of a number in hexadecimal at the end.
fn put_bits(alloc: Global, out: &mut Text, form: Form, n: i64) -> Result<(), NoMemory>
    ensures { OnOk result
        (out.new ≡ out.old ++ filled (form_of form) [] (digits 16 false (in_64_bits n))) }
{
    let bits = n.cast_unsigned();
    let digits = format!(in alloc; "{bits:x}")?;
    put_filled(out, form, b"", digits.as_bytes())
}

/// The character with a number, where there is one.
fn character(n: i64) -> Option<char>
    ensures { result ≡ (if is_character n then Some (unsigned_abs n) else None) }
{
    char::from_u32(u32::try_from(n).ok()?)
}

/// Puts the UTF-8 of a character at the end.
fn put_utf8(out: &mut Text, form: Form, character: char) -> Result<(), NoMemory>
    ensures { OnOk result (out.new ≡ out.old ++ filled (form_of form) [] (encode_utf8 character)) }
{
    let mut bytes = [0; 4];
    let text = character.encode_utf8(&mut bytes);
    put_filled(out, form, b"", text.as_bytes())
}

/// Puts a word that must be a number at the end, in decimal.
fn put_decimal(alloc: Global, out: &mut Text, form: Form, word: &Text) -> Result<(), Fault>
    ensures { Puts (integer_error word.now) out.old
        (filled (form_of form) (sign_of (integer word.now))
        (decimal (unsigned_abs (integer word.now))))
        out.new result }
{
    let n = number_in(alloc, word)?;
    Ok(put_number(alloc, out, form, n)?)
}

/// Puts the 64 bits of a word that must be a number at the end, in hexadecimal.
fn put_hexadecimal(alloc: Global, out: &mut Text, form: Form, word: &Text) -> Result<(), Fault>
    ensures { Puts (integer_error word.now) out.old
        (filled (form_of form) [] (digits 16 false (in_64_bits (integer word.now)))) out.new
        result }
{
    let n = number_in(alloc, word)?;
    Ok(put_bits(alloc, out, form, n)?)
}

/// The character whose number a word must be.
fn character_in(alloc: Global, word: &Text) -> Result<char, Fault>
    ensures { Tried (form_error 99 word.now) (λ found. found ≡ unsigned_abs (integer word.now))
        result }
{
    let n = number_in(alloc, word)?;
    match character(n) {
        Some(character) => Ok(character),
        None => Err(Fault::bad_value(alloc, word.bytes(), "format")),
    }
}

/// Puts the character whose number a word must be at the end.
fn put_character(alloc: Global, out: &mut Text, form: Form, word: &Text) -> Result<(), Fault>
    ensures { Puts (form_error 99 word.now) out.old
        (filled (form_of form) [] (encode_utf8 (unsigned_abs (integer word.now)))) out.new result }
{
    let character = character_in(alloc, word)?;
    Ok(put_utf8(out, form, character)?)
}

/// Puts a text at the end, in the form's width.
fn put_text(out: &mut Text, form: Form, text: &[u8]) -> Result<(), Fault>
    ensures { Puts None out.old (filled (form_of form) [] text.now) out.new result }
{
    Ok(put_filled(out, form, b"", text)?)
}

/// Puts a byte at the end.
fn put_byte(out: &mut Text, byte: u8) -> Result<(), Fault>
    ensures { Puts None out.old (byte ∷ []) out.new result }
{
    Ok(out.append(&[byte])?)
}

/// The first word.
fn first_word(words: &[Text]) -> &Text
    requires { 0 < length words.now }
    ensures { result.now ≡ arg words.now 0 }
{
    &words[0]
}

/// Puts what a form writes at the end; each but `%%` takes the first word.
fn put_form(alloc: Global, out: &mut Text, form: Form, words: &[Text]) -> Result<(), Fault>
    requires { takes_word (form_part (form_of form)) ≡ true → 0 < length words.now }
    ensures { Puts (part_error (form_part (form_of form)) (arg words.now 0)) out.old
        (part_text (form_part (form_of form)) (arg words.now 0)) out.new result }
{
    match form.letter {
        Letter::Percent => put_text(out, form, b"%"),
        Letter::Word => put_text(out, form, first_word(words).bytes()),
        Letter::Decimal => put_decimal(alloc, out, form, first_word(words)),
        Letter::Hexadecimal => put_hexadecimal(alloc, out, form, first_word(words)),
        Letter::Character => put_character(alloc, out, form, first_word(words)),
    }
}

/// Puts what a part writes at the end; where it takes a word, it takes the first one.
fn put_part(alloc: Global, out: &mut Text, part: Part, words: &[Text]) -> Result<(), Fault>
    requires { takes_word (part_of part) ≡ true → 0 < length words.now }
    ensures { Puts (part_error (part_of part) (arg words.now 0)) out.old
        (part_text (part_of part) (arg words.now 0)) out.new result }
{
    match part {
        Part::Itself(byte) => put_byte(out, byte),
        Part::Form(form) => put_form(alloc, out, form, words),
    }
}

/// Looks whether a word is a number.
fn check_number(alloc: Global, word: &Text) -> Result<(), Fault>
    ensures { Tried (integer_error word.now) (λ _. Unit {0}) result }
{
    number_in(alloc, word)?;
    Ok(())
}

/// Looks whether a word is a character's number.
fn check_character(alloc: Global, word: &Text) -> Result<(), Fault>
    ensures { Tried (form_error 99 word.now) (λ _. Unit {0}) result }
{
    character_in(alloc, word)?;
    Ok(())
}

/// Looks whether the first word is what a form takes, and writes nothing.
fn check_form(alloc: Global, form: Form, words: &[Text]) -> Result<(), Fault>
    requires { takes_word (form_part (form_of form)) ≡ true → 0 < length words.now }
    ensures { Tried (part_error (form_part (form_of form)) (arg words.now 0)) (λ _. Unit {0})
        result }
{
    match form.letter {
        Letter::Percent => Ok(()),
        Letter::Word => Ok(()),
        Letter::Decimal => check_number(alloc, first_word(words)),
        Letter::Hexadecimal => check_number(alloc, first_word(words)),
        Letter::Character => check_character(alloc, first_word(words)),
    }
}

/// Looks whether the first word is what a part takes, where it takes one, and writes nothing.
fn check_part(alloc: Global, part: Part, words: &[Text]) -> Result<(), Fault>
    requires { takes_word (part_of part) ≡ true → 0 < length words.now }
    ensures { Tried (part_error (part_of part) (arg words.now 0)) (λ _. Unit {0}) result }
{
    match part {
        Part::Itself(_) => Ok(()),
        Part::Form(form) => check_form(alloc, form, words),
    }
}

/// What is kept of a text once a part is written behind it; where the part takes a word, it takes the
/// first one.
fn put_behind(alloc: Global, mut text: Text, part: Part, words: &[Text]) -> Result<Output, Fault>
    requires { takes_word (part_of part) ≡ true → 0 < length words.now }
    ensures { PutsNext (part_error (part_of part) (arg words.now 0)) text
        (part_text (part_of part) (arg words.now 0)) result }
{
    put_part(alloc, &mut text, part, words)?;
    Ok(Output::of(text))
}

/// What is kept once a part is written behind a text over the limit of a value: the word that it takes
/// is only looked at.
fn pass_over(alloc: Global, part: Part, words: &[Text]) -> Result<Output, Fault>
    requires { takes_word (part_of part) ≡ true → 0 < length words.now }
    ensures { Tried (part_error (part_of part) (arg words.now 0)) (λ next. next ≡ TooLong) result }
{
    check_part(alloc, part, words)?;
    Ok(Output::TooLong)
}

/// What is kept once a part is written behind what was kept; where it takes a word, it takes the
/// first one.
pub fn put_next(alloc: Global, out: Output, part: Part, words: &[Text]) -> Result<Output, Fault>
    requires { takes_word (part_of part) ≡ true → 0 < length words.now }
    ensures { (text : Bytes) → Keeps out text
        → PutsNext (part_error (part_of part) (arg words.now 0)) text
        (part_text (part_of part) (arg words.now 0)) result }
{
    match out {
        Output::Whole(kept) => put_behind(alloc, kept, part, words),
        Output::TooLong => pass_over(alloc, part, words),
    }
}
