//! What follows from the definitions alone.

ghost use Rattle.std.specs.Prelude.{◌≡◌, Bool};
ghost use Rattle.std.specs.List.Sorted.{IsPermutation, IsSortedBy, IsStableBy};
ghost use Rattle.std.specs.Cmp.{IsStrictWeakOrder};
ghost use Rattle.txt_core.specs.Names.{Bytes, Words};
ghost use Rattle.natives.specs.Sorting.{in_order, sorts_before};

/// Sorting by an order gives a list in which no element is before one in front of it, of the same
/// elements, where those that tie are in their old order; and no other list is so.
pub fn sorting_is_stable()
    ensures sorted { (before : Bytes → Bytes → Bool) (list : Words)
        → IsStrictWeakOrder before → IsSortedBy before (in_order before list) }
    ensures same { (before : Bytes → Bytes → Bool) (list : Words)
        → IsStrictWeakOrder before → IsPermutation list (in_order before list) }
    ensures stable { (before : Bytes → Bytes → Bool) (list : Words)
        → IsStrictWeakOrder before → IsStableBy before list (in_order before list) }
    ensures only { (before : Bytes → Bytes → Bool) (list other : Words)
        → IsStrictWeakOrder before → IsSortedBy before other
        → IsStableBy before list other → other ≡ in_order before list }
{}

/// By bytes or by number, rising or falling, elements have an order.
pub fn elements_have_an_order()
    ensures { (numbers falls : Bool) → IsStrictWeakOrder (sorts_before numbers falls) }
{}
