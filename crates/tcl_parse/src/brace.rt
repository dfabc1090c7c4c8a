//! Words in braces.

ghost use Rattle.std.specs.Prelude.{◌≡◌, ◌≤◌, ◌<◌, Some, None, Option, IfOk, IfSome, length};
ghost use Rattle.std.specs.Option.{option_map};
ghost use Rattle.tcl_parse.specs.Laws.Braces.{braced, plain};

use std::alloc::{AllocError, Global};
use txt_core::after_margin;

/// What stands before the brace that closes, and what is left behind it.
#[tactic(auto, using(crate::specs::Laws::Braces::braced_steps), unfolding(crate::specs::Laws::Braces::braced))]
pub fn in_braces(alloc: Global, bytes: &[u8]) -> Result<Option<(Vec<u8>, &[u8])>, AllocError>
    ensures same { IfOk result (λ found.
        option_map (λ x. (x.0.items, x.1.now)) found ≡ braced plain 0 bytes.now) }
    ensures goes { IfOk result (λ found. IfSome found (λ x. length x.1.now ≤ length bytes.now)) }
{
    let mut text = Vec::new(alloc);
    let mut open_now = 0usize;
    let mut rest = bytes;
    while let Some((b, tail)) = rest.split_first() {
        if *b == b'\\' {
            match tail.split_first() {
                None => return Ok(None),
                Some((c, after)) => {
                    if *c == b'\n' {
                        text.push(b' ')?;
                        rest = after_margin(after);
                    } else {
                        text.push(b'\\')?;
                        text.push(*c)?;
                        rest = after;
                    }
                }
            }
        } else {
            if *b == b'{' {
                open_now += 1;
            } else if *b == b'}' {
                if open_now == 0 {
                    return Ok(Some((text, tail)));
                }
                open_now -= 1;
            }
            text.push(*b)?;
            rest = tail;
        }
    }
    Ok(None)
}
