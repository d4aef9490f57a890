//! Where the samples of two segments first differ.
ghost use Rattle.std.specs.Prelude.{◌≡◌, min, length, take, IsTrue, MatchOption};
ghost use Rattle.msr_segments.specs.Unequals.{UnequalIn};

/// The first two samples that differ.
#[derive(Clone, Copy)]
pub struct Unequal {
    /// How many stand before each, which are the same.
    pub at: usize,
    pub one: i32,
    pub other: i32,
}

/// Whether the samples are the same, of as many as both lists have: no sample is left early, so that several are compared
/// at once. The contract promises nothing if the answer is `false`.
fn are_same(ones: &[i32], others: &[i32]) -> bool
    ensures { IsTrue result → take (min (length ones.now) (length others.now)) ones.now
        ≡ take (min (length ones.now) (length others.now)) others.now }
{
    let count = ones.len().min(others.len());
    let mut same = true;
    'places: for at in 0..count {
        same &= ones[at] == others[at];
    }
    same
}

/// The first samples that differ, of as many as both lists have.
pub fn first_unequal(ones: &[i32], others: &[i32]) -> Option<Unequal>
    ensures { MatchOption result
        (take (min (length ones.now) (length others.now)) ones.now
        ≡ take (min (length ones.now) (length others.now)) others.now)
        (UnequalIn ones.now others.now) }
{
    if are_same(ones, others) {
        return None;
    }
    let count = ones.len().min(others.len());
    'samples: for at in 0..count {
        let one = ones[at];
        let other = others[at];
        if one != other {
            return Some(Unequal { at, one, other });
        }
    }
    None
}
