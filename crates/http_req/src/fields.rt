//! What the fields of a request say.

ghost use Rattle.std.specs.Prelude.{◌≡◌, ◌||◌, not, IsTrue, if◌then◌else◌, codes, map};
ghost use Rattle.std.specs.List.{list_all, find};
ghost use Rattle.std.specs.Option.{option_copied};
ghost use Rattle.std.specs.Char.{is_ascii_digit, to_ascii_lowercase};
ghost use Rattle.std.specs.Str.{bytes_eq};
ghost use Rattle.std.specs.Str.Parse.{digits_value};
ghost use Rattle.http_req.specs.Fields.{is_named, count_of, is_chunked, is_coded, is_mixed, is_length, are_one_length, body_length, lengths};

use txt_core::Text;

const CONTENT_LENGTH: &[u8] = b"content-length";

const TRANSFER_ENCODING: &[u8] = b"transfer-encoding";

/// A length is written in at most so many digits.
const DIGIT_LIMIT: usize = 19;

fn is_named(field: &(Text, Text), name: &[u8]) -> bool
    ensures { result ≡ is_named name.now field.now }
{
    field.0.bytes().eq_ignore_ascii_case(name)
}

/// How many fields have this name, whatever the case of its letters.
pub(crate) fn count_of(fields: &[(Text, Text)], name: &[u8]) -> usize
    ensures { result ≡ count_of name.now fields.now }
{
    fields.iter().filter(|field| is_named(field, name)).count()
}

/// Whether the body comes in chunks: there is one Transfer-Encoding field, and it says `chunked`, whatever
/// the case of its letters (RFC 9112, section 6.1).
pub(crate) fn is_chunked(fields: &[(Text, Text)]) -> bool
    ensures { result ≡ is_chunked fields.now }
{
    let Some(first) = first_of(fields, TRANSFER_ENCODING) else {
        return false;
    };
    if count_of(fields, TRANSFER_ENCODING) != 1 {
        return false;
    }
    says_chunked(first)
}

fn says_chunked(field: &(Text, Text)) -> bool
    ensures { result
        ≡ bytes_eq (map to_ascii_lowercase field.now.1) (map to_ascii_lowercase (codes "chunked")) }
{
    field.1.bytes().eq_ignore_ascii_case(b"chunked")
}

/// Whether the body comes in another way than by its length or in chunks.
pub(crate) fn is_coded(fields: &[(Text, Text)]) -> bool
    ensures { result ≡ is_coded fields.now }
{
    count_of(fields, TRANSFER_ENCODING) > 0 && !is_chunked(fields)
}

/// Whether the body comes in chunks where none may: in HTTP/1.0, or beside a length (RFC 9112, sections
/// 6.1 and 6.3).
pub(crate) fn is_mixed(minor: u8, fields: &[(Text, Text)]) -> bool
    ensures { result ≡ is_mixed minor fields.now }
{
    is_chunked(fields) && (minor == 0 || count_of(fields, CONTENT_LENGTH) > 0)
}

/// How long the body is, by Content-Length (RFC 9112, section 6.3); 0 where there is no such field.
/// None where one of them isn't 1 to 19 digits, or two differ.
pub(crate) fn body_length(fields: &[(Text, Text)]) -> Option<u64>
    ensures { result
        ≡ (if are_one_length (lengths fields.now) then Some (body_length fields.now) else None) }
{
    let Some(first) = first_of(fields, CONTENT_LENGTH) else {
        return Some(0);
    };
    let value = first.1.bytes();
    if is_length(value) && all_lengths_are(fields, value) {
        Some(number(value))
    } else {
        None
    }
}

fn first_of<'a>(fields: &'a [(Text, Text)], name: &[u8]) -> Option<&'a (Text, Text)>
    ensures { option_copied result ≡ find (is_named name.now) fields.now }
{
    fields.iter().find(|field| is_named(field, name))
}

fn all_lengths_are(fields: &[(Text, Text)], value: &[u8]) -> bool
    ensures { result
        ≡ list_all
        (λ field. not (is_named (codes "content-length") field) || bytes_eq field.1 value.now)
        fields.now }
{
    fields.iter().all(|field| !is_named(field, CONTENT_LENGTH) || field.1.bytes() == value)
}

fn is_length(value: &[u8]) -> bool
    ensures { result ≡ is_length value.now }
{
    !value.is_empty() && value.len() <= DIGIT_LIMIT && are_digits(value)
}

fn are_digits(value: &[u8]) -> bool
    ensures { result ≡ list_all is_ascii_digit value.now }
{
    value.iter().all(|byte| byte.is_ascii_digit())
}

/// The number that the digits write.
fn number(digits: &[u8]) -> u64
    requires { IsTrue (is_length digits.now) }
    ensures { result ≡ digits_value 10 digits.now }
{
    let mut number = 0;
    for digit in digits {
        number = 10 * number + u64::from(digit - b'0');
    }
    number
}
