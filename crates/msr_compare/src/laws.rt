//! Laws of comparing, each the contract of a function that does nothing.
ghost use Rattle.msr_compare.specs.Answers.{HaveOneAnswer, SameIsExact, SameIsReflexive, SameIsSymmetric, SameIsTransitive};

/// Two inputs have one answer, of whatever sources their bytes come: what is told first is the first difference, the
/// numbers are those of the segments, and a fault is the first one.
pub fn compare_has_one_answer()
    ensures { HaveOneAnswer }
{}

/// The answer is `Same` if both inputs are readable and have the same segments, and else it is not.
pub fn same_is_exact()
    ensures { SameIsExact }
{}

/// A readable input is the same as itself; what is the same in one order is so in the other; and what is the same as the
/// same is the same.
pub fn same_is_an_equivalence()
    ensures reflexive { SameIsReflexive }
    ensures symmetric { SameIsSymmetric }
    ensures transitive { SameIsTransitive }
{}
