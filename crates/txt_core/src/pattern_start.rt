//! What the front of a pattern tells of the places where it can match.

ghost use Rattle.std.specs.Prelude.{◌≡◌, ◌≤◌, ◌<◌, ◌∷◌, IfSome, length, position};
ghost use Rattle.std.specs.List.{position_or_len, before_first};
ghost use Rattle.txt_core.specs.Pattern.{is_bracket};
ghost use Rattle.txt_core.specs.PatternLaws.{behind_part};
ghost use Rattle.txt_core.specs.PatternRuns.{is_special, LengthsAre};

/// Whether a byte of a pattern is more than itself.
fn is_special(byte: u8) -> bool
    ensures { result ≡ is_special byte }
{
    byte == b'*' || byte == b'?' || byte == b'[' || byte == b'\\'
}

/// The place of the first byte of a pattern that is more than itself.
fn first_special(pattern: &[u8]) -> Option<usize>
    ensures place { result ≡ position is_special pattern.now }
    ensures within { IfSome result (λ at. at < length pattern.now) }
{
    pattern.iter().position(|byte| is_special(*byte))
}

/// The bytes at the front of a pattern that are themselves and no more.
pub fn plain_front(pattern: &[u8]) -> &[u8]
    ensures { result.now ≡ before_first is_special pattern.now }
{
    match first_special(pattern) {
        None => pattern,
        Some(at) => &pattern[..at],
    }
}

/// The place of the first `]`, or the length where there is none.
pub fn find_bracket(bytes: &[u8]) -> usize
    ensures place { result ≡ position_or_len is_bracket bytes.now }
    ensures within { result ≤ length bytes.now }
{
    let mut at = 0;
    'bracket: for byte in bytes {
        if *byte == b']' {
            break;
        }
        at += 1;
    }
    at
}

/// What stands behind a class, whose `[` stands before these bytes; nothing where it isn't closed.
fn behind_class(class: &[u8]) -> &[u8]
    ensures { result.now ≡ behind_part (91 ∷ class.now) }
{
    let at = find_bracket(class);
    if at == class.len() {
        return &class[at..];
    }
    &class[at + 1..]
}

/// What stands behind the first part of a pattern, of which the first byte is given apart.
fn behind_first(first: u8, behind: &[u8]) -> &[u8]
    ensures { result.now ≡ behind_part (first ∷ behind.now) }
{
    if first == b'[' {
        return behind_class(behind);
    }
    if first == b'\\' && !behind.is_empty() {
        return &behind[1..];
    }
    behind
}

/// How long the texts are that a pattern matches, as far as it was read.
#[derive(Clone, Copy)]
pub enum Lengths {
    /// Each has so many bytes.
    One(usize),
    /// Each has more bytes than the call asked for.
    More,
    /// A `*` comes, and they may have any number of bytes.
    Any,
}

/// How long the texts are that a pattern matches. Its parts take one byte each, up to the first `*`;
/// a class that isn't closed is the last one, whatever stands in it. No more parts are read than the
/// text has bytes that is to be matched.
pub fn lengths_of(pattern: &[u8], most: usize) -> Lengths
    ensures { LengthsAre pattern.now most result }
{
    let mut rest = pattern;
    let mut count = 0;
    'parts: while let Some((first, behind)) = rest.split_first() {
        if *first == b'*' {
            return Lengths::Any;
        }
        if count == most {
            return Lengths::More;
        }
        rest = behind_first(*first, behind);
        count += 1;
    }
    Lengths::One(count)
}
