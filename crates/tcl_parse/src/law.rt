//! What holds of the rules themselves.

ghost use Rattle.std.specs.Prelude.{◌≡◌, ℕ, ◌⊎◌};
ghost use Rattle.txt_core.specs.Names.{Bytes};
ghost use Rattle.tcl_parse.specs.declared.fault.Kind.{Kind};
ghost use Rattle.tcl_parse.specs.Tree.{Script};
ghost use Rattle.tcl_parse.specs.Outcome.{Outcome};
ghost use Rattle.tcl_parse.specs.Grammar.{Reads};
ghost use Rattle.tcl_parse.specs.Reading.{reading, Spells, HasFault};
ghost use Rattle.tcl_parse.specs.Canonical.{IsCanonical};
ghost use Rattle.tcl_parse.specs.Gaps.{skip, between, Passed};

/// The reading of a text is what the rules give, and they give nothing else.
pub fn one_reading()
    ensures gives { (t : Bytes) → Reads t (reading t) }
    ensures only { (t : Bytes) (o : Outcome Script) → Reads t o → reading t ≡ o }
{}

/// Each text has a script or a fault, and never two of them.
pub fn one_answer()
    ensures some { (t : Bytes)
        → ((s : Script) × Spells s t) ⊎ ((place : ℕ) × (k : Kind) × HasFault t place k) }
    ensures one_script { (t : Bytes) (s r : Script) → Spells s t → Spells r t → s ≡ r }
    ensures one_fault { (t : Bytes) (p q : ℕ) (j k : Kind) → HasFault t p j
        → HasFault t q k → (p ≡ q) × (j ≡ k) }
    ensures not_both { (t : Bytes) (s : Script) (p : ℕ) (k : Kind) → Spells s t
        → HasFault t p k → ⊥ }
{}

/// A script's tree is canonical: no text in it is empty, none stands next to another one, and each
/// command has a word.
pub fn canonical_tree()
    ensures { (t : Bytes) (s : Script) → Spells s t → IsCanonical s }
{}

/// What is passed over before a command is what the cases say, and nothing else.
pub fn passed_over()
    ensures passes { (t : Bytes) → Passed t (skip between t) }
    ensures only { (t r : Bytes) → Passed t r → skip between t ≡ r }
{}
