//! What holds of names and of variables by themselves.

ghost use Rattle.std.specs.Prelude.{◌≡◌, ◌≢◌, ◌⊎◌, ℕ, length, false};
ghost use Rattle.std.specs.FinMap as map;
ghost use Rattle.txt_core.specs.Names.{Bytes};
ghost use Rattle.tcl_frame.specs.Names.{Named, Whole, Element, named, variable_name, element_name, HoldsNoOpening};
ghost use Rattle.tcl_frame.specs.Meaning.{Found, Nothing, Value, value_or_nothing, found};
ghost use Rattle.tcl_frame.specs.Stack.{Stack, Kept};
ghost use Rattle.tcl_frame.specs.Variables.{Scalars};
ghost use Rattle.tcl_frame.specs.Base.{base_of, as_variables, IsAtBase, cleared, kept, unkept};
ghost use Rattle.tcl_frame.specs.Frames.{fresh, links_name, found_in, written_to, removed_from, linked, unlinked};

/// An array's name in which no `(` stands, then `(`, an index and `)` mean the element of this
/// index. Any name that isn't spelled so means the variable of this name. It does nothing when it
/// runs.
pub fn meaning_of_names()
    ensures element { (array index : Bytes) → HoldsNoOpening array
        → named (element_name array index) ≡ Element array index }
    ensures other { (name : Bytes)
        → (named name ≡ Whole name)
        ⊎ ((array : Bytes) × (index : Bytes) × (name ≡ element_name array index)
        × HoldsNoOpening array) }
{}

/// A value is found where it was written, and nothing where something was removed. Variables of
/// other names are found as before. A name that is linked finds what is global; a new link
/// that is taken away leaves no trace. It does nothing when it runs.
pub fn changes_of_variables()
    ensures written { (stack : Stack) (name : Named) (value : Bytes)
        → found_in (written_to stack name value) name ≡ Value value }
    ensures written_apart { (stack : Stack) (name other : Named) (value : Bytes)
        → variable_name other ≢ variable_name name
        → found_in (written_to stack name value) other ≡ found_in stack other }
    ensures removed { (stack : Stack) (name : Named)
        → found_in (removed_from stack name) name ≡ Nothing }
    ensures removed_apart { (stack : Stack) (name other : Named)
        → variable_name other ≢ variable_name name
        → found_in (removed_from stack name) other ≡ found_in stack other }
    ensures linked { (stack : Stack) (name : Named)
        → found_in (linked stack (variable_name name)) name ≡ found stack.global name }
    ensures unlinked { (stack : Stack) (name : Bytes) → links_name stack.above name ≡ false
        → unlinked (linked stack name) name ≡ stack }
{}

/// New frames are at their base, and so are frames after they were cleared, after a keep and after
/// keeps were taken back. There a name finds its base value, or nothing: after a keep the name finds
/// the value that was kept, and any other what it found at the base before. Keeps that are taken back
/// leave no trace. It does nothing when it runs.
pub fn base_scalars_stand()
    ensures fresh { IsAtBase fresh }
    ensures cleared { (stack : Stack) → IsAtBase (cleared stack) }
    ensures kept { (stack : Stack) (name value : Bytes) → IsAtBase (kept stack name value) }
    ensures unkept { (stack : Stack) (count : ℕ) → IsAtBase (unkept stack count) }
    ensures still { (stack : Stack) → IsAtBase stack → cleared stack ≡ stack }
    ensures base { (scalars : Scalars) (name : Bytes)
        → found (as_variables scalars) (Whole name) ≡ value_or_nothing (map.get scalars name) }
    ensures keeping { (stack : Stack) (name value : Bytes)
        → found_in (kept stack name value) (Whole name) ≡ Value value }
    ensures keeping_apart { (stack : Stack) (name other value : Bytes) → other ≢ name
        → found_in (kept stack name value) (Whole other) ≡ found_in (cleared stack) (Whole other) }
    ensures taken_back { (stack : Stack) (name value : Bytes)
        → unkept (kept stack name value) (length stack.keeps) ≡ cleared stack }
{}
