//! Sets of bytes.

ghost use Rattle.std.specs.Prelude.{◌≡◌, ℕ};
ghost use Rattle.natives.specs.Cutting.{is_one_of};
ghost use Rattle.tcl_string.specs.Sets.{set_has};

/// A set of bytes, as one truth for each byte.
#[derive(Drop)]
pub struct ByteSet {
    holds: [bool; 256],
}

impl ByteSet {
    /// The set of these bytes.
    pub fn new(bytes: &[u8]) -> ByteSet
        ensures { (b : ℕ) → set_has result.holds b ≡ is_one_of bytes.now b }
    {
        let mut holds = [false; 256];
        for byte in bytes {
            holds[*byte as usize] = true;
        }
        ByteSet { holds }
    }

    /// Whether a byte is in the set.
    pub fn has(&self, byte: u8) -> bool
        ensures { result ≡ set_has self.now.holds byte }
    {
        self.holds[byte as usize]
    }
}
