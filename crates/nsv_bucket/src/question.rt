//! Which words are a question on shared arrays.

ghost use Rattle.std.specs.Prelude.{◌≡◌, ◌≤◌, ◌<◌, length, bytes_eq, is_some, IfSome, IsTrue};
ghost use Rattle.txt_core.specs.Words.{arg};
ghost use Rattle.nsv_bucket.specs.Questions.{least_words, most_words, takes, asks, is_bucket_number, subcommand_named, is_of_array, lacks_subcommand, array_question_of, adding_question_of, question_of};

use txt_core::{BUCKET_COUNT, Text, Words};

/// The digit of the first bucket.
pub(crate) const FIRST_BUCKET: u8 = b'0';

/// The digit of the last bucket.
const LAST_BUCKET: u8 = FIRST_BUCKET + (BUCKET_COUNT - 1);

/// A question on shared arrays.
#[derive(Clone, Copy, Debug, PartialEq, Eq)]
pub enum ArrayQuestion {
    /// `nsv_set ARRAY KEY VALUE`
    Set,
    /// `nsv_get ARRAY KEY`
    Get,
    /// `nsv_exists ARRAY KEY`
    Exists,
    /// `nsv_incr ARRAY KEY ?NUMBER?`
    Incr,
    /// `nsv_append ARRAY KEY VALUE VALUE*`
    Append,
    /// `nsv_lappend ARRAY KEY VALUE VALUE*`
    Lappend,
    /// `nsv_unset ARRAY ?KEY?`
    Unset,
    /// `nsv_names BUCKET ?PATTERN?`
    Names,
    /// `nsv_array set ARRAY LIST`
    ArraySet,
    /// `nsv_array reset ARRAY LIST`
    ArrayReset,
    /// `nsv_array get ARRAY ?PATTERN?`
    ArrayGet,
    /// `nsv_array names ARRAY ?PATTERN?`
    ArrayNames,
    /// `nsv_array size ARRAY`
    ArraySize,
    /// `nsv_array exists ARRAY`
    ArrayExists,
}

/// The word at a place, counted from 0.
pub(crate) fn word(words: &Words, at: usize) -> &Text
    requires { at < length words.now }
    ensures { result.now ≡ arg words.now at }
{
    &words.as_slice()[at]
}

/// Whether the word at a place has these bytes.
pub(crate) fn is_word(words: &Words, at: usize, name: &[u8]) -> bool
    ensures { result ≡ bytes_eq (arg words.now at) name.now }
{
    words.bytes_at(at) == name
}

/// The fewest words that a question has, the command's name and the subcommand's among them.
fn least_words(question: ArrayQuestion) -> usize
    ensures { result ≡ least_words question }
{
    match question {
        ArrayQuestion::Unset | ArrayQuestion::Names => 2,
        ArrayQuestion::Set
        | ArrayQuestion::Append
        | ArrayQuestion::Lappend
        | ArrayQuestion::ArraySet
        | ArrayQuestion::ArrayReset => 4,
        _ => 3,
    }
}

/// The most words that a question has; `None` where there is no such number.
fn most_words(question: ArrayQuestion) -> Option<usize>
    ensures { result ≡ most_words question }
{
    match question {
        ArrayQuestion::Append | ArrayQuestion::Lappend => None,
        ArrayQuestion::Set
        | ArrayQuestion::Incr
        | ArrayQuestion::ArraySet
        | ArrayQuestion::ArrayReset
        | ArrayQuestion::ArrayGet
        | ArrayQuestion::ArrayNames => Some(4),
        _ => Some(3),
    }
}

/// Whether a question takes so many words.
fn takes(question: ArrayQuestion, count: usize) -> bool
    ensures takes { result ≡ takes question count }
    ensures least { IsTrue result → least_words question ≤ count }
{
    if count < least_words(question) {
        return false;
    }
    match most_words(question) {
        Some(most) => count <= most,
        None => true,
    }
}

/// Whether the words have this name, and a number that the question takes.
fn is_asked(words: &Words, name: &[u8], question: ArrayQuestion) -> bool
    ensures asks { result ≡ asks words.now name.now question }
    ensures least { IsTrue result → least_words question ≤ length words.now }
{
    is_word(words, 0, name) && takes(question, words.len())
}

/// Whether the word at a place is the number of a bucket, one of their digits.
pub(crate) fn is_bucket(word: &[u8]) -> bool
    ensures { result ≡ is_bucket_number word.now }
{
    word.len() == 1 && word[0] >= FIRST_BUCKET && word[0] <= LAST_BUCKET
}

/// The question that a subcommand of `nsv_array` is.
fn subcommand_named(name: &[u8]) -> Option<ArrayQuestion>
    ensures { result ≡ subcommand_named name.now }
{
    if name == b"set".as_slice() {
        Some(ArrayQuestion::ArraySet)
    } else if name == b"reset".as_slice() {
        Some(ArrayQuestion::ArrayReset)
    } else if name == b"get".as_slice() {
        Some(ArrayQuestion::ArrayGet)
    } else if name == b"names".as_slice() {
        Some(ArrayQuestion::ArrayNames)
    } else if name == b"size".as_slice() {
        Some(ArrayQuestion::ArraySize)
    } else if name == b"exists".as_slice() {
        Some(ArrayQuestion::ArrayExists)
    } else {
        None
    }
}

/// Whether the words are of `nsv_array`.
fn is_of_array(words: &Words) -> bool
    ensures { result ≡ is_of_array words.now }
{
    is_word(words, 0, b"nsv_array")
}

/// The question of `nsv_array`.
fn array_question(words: &Words) -> Option<ArrayQuestion>
    ensures question { result ≡ array_question_of words.now }
    ensures words { IfSome result (λ question. least_words question ≤ length words.now) }
{
    if !is_of_array(words) {
        return None;
    }
    let question = subcommand_named(words.bytes_at(1))?;
    if takes(question, words.len()) {
        return Some(question);
    }
    None
}

/// Whether the words are those of `nsv_array`, in a number that one of its subcommands takes, but
/// without a subcommand. `get` takes each number that one of them takes.
pub fn lacks_subcommand(words: &Words) -> bool
    ensures { result ≡ lacks_subcommand words.now }
{
    is_of_array(words)
        && takes(ArrayQuestion::ArrayGet, words.len())
        && subcommand_named(words.bytes_at(1)).is_none()
}

/// The question of `nsv_append` or `nsv_lappend`, which have no greatest number of words, or of
/// `nsv_array`.
fn adding_question(words: &Words) -> Option<ArrayQuestion>
    ensures question { result ≡ adding_question_of words.now }
    ensures words { IfSome result (λ question. least_words question ≤ length words.now) }
{
    if is_asked(words, b"nsv_append", ArrayQuestion::Append) {
        Some(ArrayQuestion::Append)
    } else if is_asked(words, b"nsv_lappend", ArrayQuestion::Lappend) {
        Some(ArrayQuestion::Lappend)
    } else {
        array_question(words)
    }
}

/// The question that the words are. `None` exactly where they are none: they have another name, a
/// number of words that the command doesn't take, or a subcommand that `nsv_array` lacks.
pub(crate) fn read_question(words: &Words) -> Option<ArrayQuestion>
    ensures question { result ≡ question_of words.now }
    ensures words { IfSome result (λ question. least_words question ≤ length words.now) }
{
    if is_asked(words, b"nsv_set", ArrayQuestion::Set) {
        Some(ArrayQuestion::Set)
    } else if is_asked(words, b"nsv_get", ArrayQuestion::Get) {
        Some(ArrayQuestion::Get)
    } else if is_asked(words, b"nsv_exists", ArrayQuestion::Exists) {
        Some(ArrayQuestion::Exists)
    } else if is_asked(words, b"nsv_incr", ArrayQuestion::Incr) {
        Some(ArrayQuestion::Incr)
    } else if is_asked(words, b"nsv_unset", ArrayQuestion::Unset) {
        Some(ArrayQuestion::Unset)
    } else if is_asked(words, b"nsv_names", ArrayQuestion::Names) && is_bucket(words.bytes_at(1)) {
        Some(ArrayQuestion::Names)
    } else {
        adding_question(words)
    }
}

/// Whether the words are a question on shared arrays.
pub fn is_question(words: &Words) -> bool
    ensures { result ≡ is_some (question_of words.now) }
{
    read_question(words).is_some()
}
