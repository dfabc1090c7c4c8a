//! What holds of the rules themselves.

ghost use Rattle.std.specs.Prelude.{◌≡◌, ℕ, ◌⊎◌, ℤ, pos, ◌+ℤ◌, ◌*ℤ◌};
ghost use Rattle.txt_core.specs.Names.{Bytes};
ghost use Rattle.tcl_expr.specs.Arithmetic.{quotient, remainder, IsBetween};
ghost use Rattle.tcl_expr.specs.Trees.{Tree};
ghost use Rattle.tcl_expr.specs.Outcome.{Answer};
ghost use Rattle.tcl_expr.specs.Grammar.{Reads};
ghost use Rattle.tcl_expr.specs.Reading.{expression_of, IsTree, IsBad};
ghost use Rattle.tcl_expr.specs.Places.{NoneGoesPast, SomeReaches};

/// Each text is an expression or is bad at a place of it, and never two of these.
pub fn one_answer()
    ensures some { (t : Bytes) → ((x : Tree) × IsTree x t) ⊎ ((place : ℕ) × IsBad place t) }
    ensures one_tree { (t : Bytes) (x y : Tree) → IsTree x t → IsTree y t → x ≡ y }
    ensures one_place { (t : Bytes) (p q : ℕ) → IsBad p t → IsBad q t → p ≡ q }
    ensures not_both { (t : Bytes) (x : Tree) (p : ℕ) → IsTree x t → IsBad p t → ⊥ }
{}

/// The answer of a text is what the rules give, and they give nothing else.
pub fn one_reading()
    ensures gives { (t : Bytes) → Reads t (expression_of t) }
    ensures only { (t : Bytes) (a : Answer) → Reads t a → expression_of t ≡ a }
{}

/// The bad place is the least one that no expression can go past: with the byte that stands there
/// no expression can go on, and some expression begins with the bytes before it.
pub fn least_place()
    ensures none { (t : Bytes) (place : ℕ) → IsBad place t → NoneGoesPast place t }
    ensures some { (t : Bytes) (place : ℕ) → IsBad place t → SomeReaches place t }
{}

/// The divisor times the quotient, and the remainder, make the number that was divided; and the
/// remainder is between 0 and the divisor, which it isn't.
pub fn division()
    ensures made { (m n : ℤ) → (n ≡ pos 0 → ⊥) → m ≡ n *ℤ quotient m n +ℤ remainder m n }
    ensures between { (m n : ℤ) → (n ≡ pos 0 → ⊥) → IsBetween (remainder m n) n }
{}
