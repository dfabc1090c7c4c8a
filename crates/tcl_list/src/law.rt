//! What holds of the rules of lists themselves. These calls do nothing: their contracts are laws.

ghost use Rattle.std.specs.Prelude.{◌≡◌, ℕ, ◌⊎◌};
ghost use Rattle.txt_core.specs.Names.{Bytes, Words};
ghost use Rattle.txt_core.specs.Lists.{Listing, elements, Lists, IsList, IsBadAt};
ghost use Rattle.txt_core.specs.Listing.{listing};
ghost use Rattle.txt_core.specs.Quoting.{WrittenAs, written, quoting};

/// The listing of a text is what the rules give, and they give nothing else.
pub fn one_listing()
    ensures gives { (t : Bytes) → Lists t (listing t) }
    ensures only { (t : Bytes) (a : Listing) → Lists t a → listing t ≡ a }
{}

/// Each text has exactly one list, or exactly one place where it is bad.
pub fn one_answer()
    ensures some { (t : Bytes) → ((v : Words) × IsList t v) ⊎ ((place : ℕ) × IsBadAt t place) }
    ensures one_list { (t : Bytes) (v w : Words) → IsList t v → IsList t w → v ≡ w }
    ensures one_place { (t : Bytes) (p q : ℕ) → IsBadAt t p → IsBadAt t q → p ≡ q }
    ensures not_both { (t : Bytes) (v : Words) (p : ℕ) → IsList t v → IsBadAt t p → ⊥ }
{}

/// Each text has exactly one way in which it is written as an element.
pub fn one_writing()
    ensures gives { (x : Bytes) → WrittenAs x (written x) }
    ensures only { (x w : Bytes) → WrittenAs x w → written x ≡ w }
{}

/// What is quoted is split into the same elements.
pub fn quote_splits()
    ensures { (v : Words) → listing (quoting v) ≡ elements v }
{}
