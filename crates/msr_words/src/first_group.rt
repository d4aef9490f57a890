//! The first Steim-1 group of a run's last differences, from its end on.

ghost use Rattle.std.specs.Prelude.{◌≡◌, ◌<◌, ◌≤◌, ◌+◌, ◌-◌, ◌^◌, ◌∷◌, [], ℕ, ℤ, IfOk, List};
ghost use Rattle.msr_steim.specs.Word.{FitsBits};
ghost use Rattle.msr_words.specs.FirstGroup.{AreGiven, AreSizes, IsBest, IsFirstGroup};

use crate::counts::magnitude;
use std::alloc::{AllocError, Global};

/// How many differences the first group has, and the least number of groups after it.
#[derive(Clone, Copy)]
struct FirstGroup {
    size: u8,
    after: usize,
}

/// What is known of the differences from some place to the end: how many the first group has, the least numbers of
/// groups, and how large the first three are, or `u64::MAX` if there are fewer.
#[derive(Clone, Copy)]
pub(crate) struct Following {
    /// How many differences the first group has.
    pub group: u8,
    /// The least number of groups of all differences.
    pub all: usize,
    /// The least number of groups of all but the first difference.
    one: usize,
    /// The least number of groups of all but the first two.
    two: usize,
    /// The least number of groups of all but the first three.
    three: usize,
    first: u64,
    second: u64,
    third: u64,
}

impl Following {
    ghost use Rattle.msr_words.specs.Following.{IsFollowing};

    /// What is known if no difference follows.
    #[inline]
    pub(crate) fn nothing() -> Following
        ensures few { result.all ≡ 0 }
        ensures following { IsFollowing [] result }
    {
        Following {
            group: 0,
            all: 0,
            one: 0,
            two: 0,
            three: 0,
            first: u64::MAX,
            second: u64::MAX,
            third: u64::MAX,
        }
    }

    /// The first group if one difference more stands before these; `pair`, `triple` and `four` are the sizes of that
    /// one together with the next one, two and three.
    #[inline]
    fn first_group(self, pair: u64, triple: u64, four: u64) -> FirstGroup
        requires pair { pair ≤ triple }
        requires triple { triple ≤ four }
        ensures { IsBest self.all self.one self.two self.three pair triple four result.size result.after }
    {
        let mut size = 1;
        let mut after = self.all;
        if pair >= 32_768 {
            return FirstGroup { size, after };
        }
        if self.one <= after {
            size = 2;
            after = self.one;
        }
        if triple >= 128 {
            return FirstGroup { size, after };
        }
        if self.two == 0 {
            size = 3;
            after = 0;
        }
        if four < 128 && self.three <= after {
            size = 4;
            after = self.three;
        }
        FirstGroup { size, after }
    }

    /// What is known if one difference more stands before these.
    #[inline]
    pub(crate) fn preceded_by(self, difference: i64) -> Following
        requires fits { FitsBits 32 difference }
        requires room { self.all < 2 ^ 64 - 1 }
        ensures few { result.all ≤ self.all + 1 }
        ensures following { (ds : List ℤ) → IsFollowing ds self → IsFollowing (difference ∷ ds) result }
        ensures group { (ds : List ℤ) → IsFollowing ds self
            → IsFirstGroup (difference ∷ ds) result.group (result.all - 1) }
    {
        let size = magnitude(difference);
        let pair = size | self.first;
        let triple = pair | self.second;
        let found = self.first_group(pair, triple, triple | self.third);
        Following {
            group: found.size,
            all: found.after + 1,
            one: self.all,
            two: self.one,
            three: self.two,
            first: size,
            second: self.first,
            third: self.second,
        }
    }
}

/// Gives for each of `count` differences, which `difference` gives by their places, the size of the
/// group that begins there in the division that is written.
pub fn sizes_of<F: Fn(usize) -> i64>(
    alloc: Global,
    count: usize,
    difference: F,
) -> Result<Vec<u8>, AllocError>
    requires given { (at : ℕ) → at < count → F.pre difference at }
    requires fits { (at : ℕ) (d : ℤ) → at < count → F.post difference at d → FitsBits 32 d }
    ensures { IfOk result (λ sizes. (ds : List ℤ) → AreGiven (F.post difference) count ds
        → AreSizes ds 0 sizes.items) }
{
    let mut sizes = vec![in alloc; 0u8; count]?;
    let mut following = Following::nothing();
    for at in (0..count).rev() {
        following = following.preceded_by(difference(at));
        sizes[at] = following.group;
    }
    Ok(sizes)
}
