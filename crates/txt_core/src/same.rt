//! Whether bytes are the same.

ghost use Rattle.std.specs.Prelude.{◌≡◌, bytes_eq};

/// How many bytes at most are compared one after the other. Of more, the standard library compares many at
/// once.
const MOST_IN_TURN: usize = 16;

/// Whether bytes are the same, one after the other.
fn same_in_turn(one: &[u8], other: &[u8]) -> bool
    ensures { result ≡ bytes_eq one.now other.now }
{
    let mut left = one;
    let mut right = other;
    'bytes: while let Some((byte, tail)) = left.split_first() {
        match right.split_first() {
            None => return false,
            Some((there, behind)) => {
                if there != byte {
                    return false;
                }
                left = tail;
                right = behind;
            }
        }
    }
    right.is_empty()
}

/// Whether bytes are the same, as `==` says. It takes fewer instructions than that where both are as short
/// as names are.
#[inline(always)]
#[tactic(auto, using(crate::proofs::Alike::other_length))]
pub fn same_bytes(one: &[u8], other: &[u8]) -> bool
    ensures { result ≡ bytes_eq one.now other.now }
{
    if one.len() != other.len() {
        return false;
    }
    if one.len() > MOST_IN_TURN {
        return one == other;
    }
    same_in_turn(one, other)
}
