//! Names in order.
ghost use Rattle.std.specs.Prelude.{◌↔◌, List, ℕ};
ghost use Rattle.std.specs.Cmp.Lexicographic.{slice_cmp};
ghost use Rattle.std.specs.List.{Contains};
ghost use Rattle.std.specs.List.Sorted.{IsStrictlySortedBy};
ghost use Rattle.std.specs.Ordering.{nat_cmp};
ghost use Rattle.msr_tree.specs.Listing.{listed};

/// Puts names in the order of their bytes, each once.
pub fn in_order(names: &mut Vec<String>)
    ensures ascend { IsStrictlySortedBy (slice_cmp nat_cmp) (listed names.new.items) }
    ensures same { (name : List ℕ) → Contains (listed names.new.items) name ↔ Contains (listed names.old.items) name }
{
    names.sort_unstable();
    names.dedup();
}
