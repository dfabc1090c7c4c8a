//! Names of variables.

ghost use Rattle.std.specs.Prelude.{◌≡◌, ◌<◌, ◌+◌, length, IfSome};
ghost use Rattle.std.specs.Option.{option_map};
ghost use Rattle.tcl_parse.specs.Bytes.{is_name};
ghost use Rattle.tcl_parse.specs.Names.{name_at, up_to, element_parts};

use txt_core::place_of;

fn may_stand_in_name(b: u8) -> bool
    ensures { result ≡ is_name b }
{
    matches!(b, b'a'..=b'z' | b'A'..=b'Z' | b'0'..=b'9' | b'_')
}

/// The name at the front, and what is left.
#[tactic(auto, using(crate::proofs::Names::name_steps))]
pub fn split_name(bytes: &[u8]) -> (&[u8], &[u8])
    ensures same { (result.0.now, result.1.now) ≡ name_at bytes.now }
    ensures whole { length result.0.now + length result.1.now ≡ length bytes.now }
{
    let mut count = 0;
    while count < bytes.len() && may_stand_in_name(bytes[count]) {
        count += 1;
    }
    bytes.split_at(count)
}

/// What stands before the first such byte, and what is left behind it.
#[tactic(auto, using(crate::proofs::Names::place_steps))]
pub fn split_before(byte: u8, bytes: &[u8]) -> Option<(&[u8], &[u8])>
    ensures same { option_map (λ x. (x.0.now, x.1.now)) result ≡ up_to byte bytes.now }
    ensures shorter { IfSome result (λ x. length x.1.now < length bytes.now) }
{
    match place_of(byte, bytes) {
        None => None,
        Some(at) => Some((&bytes[..at], &bytes[at + 1..])),
    }
}

/// The array and the index of a name that has the form of an array's element.
#[tactic(auto, using(crate::proofs::Names::name_parts))]
pub fn element_name(name: &[u8]) -> Option<(&[u8], &[u8])>
    ensures { option_map (λ x. (x.0.now, x.1.now)) result ≡ element_parts name.now }
{
    match split_before(b'(', name) {
        None => None,
        Some((array, rest)) => match rest.split_last() {
            None => None,
            Some((last, index)) => {
                if *last == b')' {
                    Some((array, index))
                } else {
                    None
                }
            }
        },
    }
}
