//! What is taken from a channel by itself.

ghost use Rattle.std.specs.Prelude.{◌≡◌, ◌≤◌, IfOk, OnOk, OnErr, drop, take, length};
ghost use Rattle.std.specs.List.{before_first};
ghost use Rattle.txt_core.specs.Texts.{is_newline};
ghost use Rattle.chan_core.specs.Lines.{line_of, behind_line};

use memchr::memchr;
use std::alloc::Global;
use txt_core::{NoMemory, Text, Unread};

/// What ends a line.
const NEWLINE: u8 = b'\n';

/// The line at the front of these bytes, and how many bytes it has with its newline.
fn first_line(bytes: &[u8]) -> (&[u8], usize)
    ensures line { result.0.now ≡ before_first is_newline bytes.now }
    ensures behind { drop result.1 bytes.now ≡ behind_line bytes.now }
    ensures within { result.1 ≤ length bytes.now }
{
    match memchr(NEWLINE, bytes) {
        Some(at) => (&bytes[..at], at + 1),
        None => (bytes, bytes.len()),
    }
}

/// Takes the line at the front of a text, and gives it without its newline; `None` where no byte is
/// left.
pub(crate) fn take_line(text: &mut Unread, alloc: Global) -> Result<Option<Text>, NoMemory>
    ensures line { IfOk result (λ line. line ≡ line_of text.old) }
    ensures left { OnOk result (text.new ≡ behind_line text.old) }
    ensures err { OnErr result (text.new ≡ text.old) }
{
    let left = text.left();
    if left.is_empty() {
        return Ok(None);
    }
    let (line, taken) = first_line(left);
    let line = Text::new(alloc, line)?;
    text.pass(taken);
    Ok(Some(line))
}

/// Takes the first bytes of a text, at most so many.
pub(crate) fn take_bytes(text: &mut Unread, alloc: Global, most: u64) -> Result<Text, NoMemory>
    ensures bytes { IfOk result (λ bytes. bytes ≡ take most text.old) }
    ensures left { OnOk result (text.new ≡ drop most text.old) }
    ensures err { OnErr result (text.new ≡ text.old) }
{
    let left = text.left();
    let count = left.len().min(most as usize);
    let bytes = Text::new(alloc, &left[..count])?;
    text.pass(count);
    Ok(bytes)
}
