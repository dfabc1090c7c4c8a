//! What stands between words and between commands.

ghost use Rattle.std.specs.Prelude.{[], Bool, ◌≡◌, ◌≤◌, true, false, length};
ghost use Rattle.tcl_parse.specs.Bytes.{is_blank};
ghost use Rattle.tcl_parse.specs.Gaps.{skip, skip_blanks, between, comment, at_end, ends_word};

const VERTICAL_TAB: u8 = 11;

const FORM_FEED: u8 = 12;

/// Whether a byte is a space, a tab, a carriage return, a vertical tab or a form feed.
fn blank(b: u8) -> bool
    ensures { result ≡ is_blank b }
{
    b == b' ' || b == b'\t' || b == b'\r' || b == VERTICAL_TAB || b == FORM_FEED
}

/// Passes over a comment whose first byte has been taken.
#[tactic(auto, unfolding(crate::specs::Gaps::skip))]
fn after_comment(bytes: &[u8]) -> &[u8]
    ensures same { skip between result.now ≡ skip comment bytes.now }
    ensures shorter { length result.now ≤ length bytes.now }
{
    let mut rest = bytes;
    while let [b, tail @ ..] = rest {
        rest = tail;
        if *b == b'\n' {
            return rest;
        }
        if *b == b'\\' {
            match rest {
                [_, tail @ ..] => rest = tail,
                [] => return rest,
            }
        }
    }
    rest
}

/// Passes over what may stand before a command.
#[tactic(auto, unfolding(crate::specs::Gaps::skip))]
pub fn to_command(bytes: &[u8]) -> &[u8]
    ensures same { result.now ≡ skip between bytes.now }
    ensures shorter { length result.now ≤ length bytes.now }
    ensures stands { (nested : Bool) → ends_word nested result.now ≡ at_end nested result.now }
    ensures begins { at_end false result.now ≡ true → result.now ≡ [] }
{
    let mut rest = bytes;
    while let [b, tail @ ..] = rest {
        if blank(*b) || *b == b'\n' || *b == b';' {
            rest = tail;
        } else if *b == b'#' {
            rest = after_comment(tail);
        } else {
            match rest {
                [b'\\', b'\n', tail @ ..] => rest = tail,
                _ => return rest,
            }
        }
    }
    rest
}

/// Passes over what may stand before a word.
#[tactic(auto, unfolding(crate::specs::Gaps::skip_blanks))]
pub fn to_word(bytes: &[u8]) -> &[u8]
    ensures same { result.now ≡ skip_blanks false bytes.now }
    ensures shorter { length result.now ≤ length bytes.now }
    ensures stands { (nested : Bool) → ends_word nested result.now ≡ at_end nested result.now }
{
    let mut rest = bytes;
    while let [b, tail @ ..] = rest {
        if blank(*b) {
            rest = tail;
        } else {
            match rest {
                [b'\\', b'\n', tail @ ..] => rest = tail,
                _ => return rest,
            }
        }
    }
    rest
}

/// Whether the command ends here.
pub fn command_ends(nested: bool, bytes: &[u8]) -> bool
    ensures { result ≡ at_end nested bytes.now }
{
    match bytes {
        [] => true,
        [b, ..] => *b == b'\n' || *b == b';' || nested && *b == b']',
    }
}

/// Whether a bare word ends here.
pub fn word_ends(nested: bool, bytes: &[u8]) -> bool
    ensures { result ≡ ends_word nested bytes.now }
{
    match bytes {
        [] => true,
        [b'\\', b'\n', ..] => true,
        [b, ..] => blank(*b) || *b == b'\n' || *b == b';' || nested && *b == b']',
    }
}
