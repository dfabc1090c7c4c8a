//! Braces that match, counted byte by byte.

ghost use Rattle.std.specs.Prelude.{◌≡◌, ◌≢◌, ◌+◌, ◌<◌, ◌≤◌, ◌∷◌, [], true, false, None, Some, length, List, ℕ, IfSome, MatchOption};
ghost use Rattle.std.specs.Option.{option_map};
ghost use Rattle.txt_core.specs.Counting.{braced, balances, in_front};

/// How deep a place of a text stands in braces.
#[derive(Clone, Copy)]
pub(crate) struct Nesting {
    /// How many braces are open there.
    pub braces: usize,
    /// Whether a backslash passes over the next byte.
    pub passes: bool,
}

impl Nesting {
    /// At the front of a text: no brace is open.
    pub(crate) fn front() -> Nesting
        ensures braces { result.braces ≡ 0 }
        ensures passes { result.passes ≡ false }
    {
        Nesting {
            braces: 0,
            passes: false,
        }
    }

    /// Behind one more byte; `None` exactly where that is a brace that closes none.
    #[tactic(auto, unfolding(txt_core::specs::Counting::braced, txt_core::specs::Counting::balances))]
    pub(crate) fn behind(self, byte: u8) -> Option<Nesting>
        requires { self.braces < usize.MAX }
        ensures counts { MatchOption result
            ((t : List ℕ) → braced self.passes self.braces (byte ∷ t) ≡ Some ([], t))
            (λ next. (t : List ℕ)
            → braced self.passes self.braces (byte ∷ t)
            ≡ in_front (byte ∷ []) (braced next.passes next.braces t)) }
        ensures balances { MatchOption result
            ((t : List ℕ) → balances self.passes self.braces (byte ∷ t) ≡ false)
            (λ next. (t : List ℕ) → (self.passes ≡ true → byte ≢ 10)
            → balances self.passes self.braces (byte ∷ t) ≡ balances next.passes next.braces t) }
        ensures brace { result ≡ None → byte ≡ 125 }
        ensures room { IfSome result (λ next. next.braces ≤ self.braces + 1) }
    {
        let Nesting { braces, passes } = self;
        if passes {
            return Some(Nesting {
                braces,
                passes: false,
            });
        }
        if byte == b'\\' {
            return Some(Nesting {
                braces,
                passes: true,
            });
        }
        if byte == b'{' {
            return Some(Nesting {
                braces: braces + 1,
                passes,
            });
        }
        if byte == b'}' {
            if braces == 0 {
                return None;
            }
            return Some(Nesting {
                braces: braces - 1,
                passes,
            });
        }
        Some(self)
    }

    /// Whether a text may end here: no brace is open, and no backslash stands last.
    #[tactic(auto, unfolding(txt_core::specs::Counting::balances))]
    pub(crate) fn may_end(self) -> bool
        ensures { result ≡ balances self.passes self.braces [] }
    {
        !self.passes && self.braces == 0
    }
}

/// What stands before the brace that closes, and what is left behind it; `None` where none closes.
pub(crate) fn in_braces(bytes: &[u8]) -> Option<(&[u8], &[u8])>
    ensures same { option_map (λ x. (x.0.now, x.1.now)) result ≡ braced false 0 bytes.now }
    ensures goes { IfSome result (λ x. length x.1.now < length bytes.now) }
{
    let mut nesting = Nesting::front();
    let mut at = 0;
    'bytes: while at < bytes.len() {
        match nesting.behind(bytes[at]) {
            None => return Some((&bytes[..at], &bytes[at + 1..])),
            Some(behind) => nesting = behind,
        }
        at += 1;
    }
    None
}
