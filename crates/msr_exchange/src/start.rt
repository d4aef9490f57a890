//! Where the promise begins, and begins again.
ghost use Rattle.std.specs.Prelude.{◌≡◌, ℕ, List, Some};
ghost use Rattle.msr_tree.specs.Steps.{IsAtRest, MayLeave, Path, Step, seen};
ghost use Rattle.msr_exchange.specs.Names.{Names, path_at};
ghost use Rattle.msr_exchange.specs.Promise.{KeepsBoth};
ghost use Rattle.msr_exchange.specs.declared.names.Place.{Place};
ghost use Rattle.msr_exchange.specs.declared.names.Place.TheVariants.{Day, Original, Records};

/// A law: it begins where all is on the disk, the original in ROOT and the records in OUT.
pub fn begins_at_rest()
    ensures { (names : Names) (past : List Step) (original records : List ℕ) → IsAtRest past
        → seen past (path_at names Day) ≡ Some original → seen past (path_at names Records) ≡ Some records
        → KeepsBoth names Original original Records records past }
{}

/// A law: it begins again where a crash has left the names, whatever it left.
pub fn begins_again()
    ensures { (names : Names) (one other : Place) (a b : List ℕ) (past again : List Step) → KeepsBoth names one a other b past
        → IsAtRest again → ((name : Path) → MayLeave past name (seen again name)) → KeepsBoth names one a other b again }
{}

/// A law: the promise is the same with the two files the other way round, so that what `replace_day` keeps
/// `restore_day` goes on to keep.
pub fn goes_both_ways()
    ensures { (names : Names) (one other : Place) (a b : List ℕ) (past : List Step) → KeepsBoth names one a other b past
        → KeepsBoth names other b one a past }
{}
