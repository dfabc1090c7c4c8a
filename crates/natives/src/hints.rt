//! Hints: where the native of a name stands among natives, by a place that its name gives.

ghost use Rattle.std.specs.Prelude.{◌≡◌, ◌<◌, slice_index};
ghost use Rattle.natives.specs.Hints as hints;
ghost use Rattle.natives.specs.Hinted as hinted;

/// How many hints there are. The place of a name among them (`hint_place`) was picked so that, when it was
/// chosen, no two natives had one place, and of the other built-in names but two had.
pub(crate) const HINTS: usize = 256;

/// The hint that a native of this place may be anywhere.
pub(crate) const ANYWHERE: u8 = 255;

/// A byte of a name as a number; 0 where the name has no such place.
fn byte_at(name: &[u8], at: usize) -> usize
    ensures is { result ≡ slice_index name.now at }
    ensures byte { result < 256 }
{
    match name.get(at) {
        Some(byte) => *byte as usize,
        None => 0,
    }
}

/// The place of a text in a table of `HINTS` places, by its length, the byte at its half, the third byte
/// from the end (of a shorter text its first) and the last. Several texts may have one place.
#[tactic(auto, unfolding(crate::specs::Hints::hint_place))]
pub(crate) fn hint_place(text: &[u8]) -> usize
    ensures is { result ≡ hints.hint_place text.now }
    ensures within { result < 256 }
{
    let length = text.len();
    let middle = byte_at(text, length / 2) * 19;
    let third = byte_at(text, length.saturating_sub(3)) * 50;
    let last = byte_at(text, length.saturating_sub(1)) * 3;
    (length % HINTS * 25 + middle + third + last) % HINTS
}

/// The hint of a place, which was `before`, once the native at `at` has the place too.
pub(crate) fn next_hint(before: u8, at: usize) -> u8
    ensures { result ≡ hinted.next_hint before at }
{
    if before == 0 && at < 254 {
        at as u8 + 1
    } else {
        ANYWHERE
    }
}
