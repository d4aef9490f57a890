//! Steim-1 words of two differences or one, for a window of differences at once: a bit for each says which it is, and
//! the walk from word to word takes no jump by it, which could not be predicted if both kinds of words mix.

ghost use Rattle.std.specs.Prelude.{◌≡◌, ◌<◌, ◌≤◌, ◌+◌, ◌*◌, ◌-◌, ◌↔◌, IfSome, IsTrue};
ghost use Rattle.std.specs.Int.{bit_at};
ghost use Rattle.msr_words.specs.Pairs.{AreBelow, ArePairs};

use std::simd::prelude::*;

/// Which words hold two differences, where all hold two or one.
#[derive(Clone, Copy)]
pub(crate) struct Pairs {
    /// The bit of a difference is set if it and the next are of 16 bits.
    pub both: u64,
    /// The bit of a difference is set if it is of 8 bits.
    pub small: u64,
}

/// Where a walk over Steim-1 words stands: at that sample, after so many words. `spare` says that the last difference is
/// of 8 bits and that the words can end before it, so that it may stand in the word after them.
#[derive(Clone, Copy)]
pub(crate) struct Walk {
    pub at: usize,
    pub words: usize,
    pub spare: bool,
}

/// The bits of the sizes below the limit.
#[inline(always)]
fn below(sizes: &[u32; 64], limit: u32) -> u64
    ensures { AreBelow sizes.now limit result }
{
    u32x64::from_array(*sizes)
        .simd_lt(u32x64::splat(limit))
        .to_bitmask()
}

/// Which words hold two differences; `None` if some word may hold more than two, or none.
#[inline(always)]
pub(crate) fn pairs_of(sizes: &[u32; 64]) -> Option<Pairs>
    ensures { IfSome result (ArePairs sizes.now) }
{
    let small = below(sizes, 128);
    if small & (small >> 1) & (small >> 2) != 0 || below(sizes, 2_147_483_648) != u64::MAX {
        return None;
    }
    let of_16 = below(sizes, 32_768);
    Some(Pairs {
        both: of_16 & (of_16 >> 1),
        small,
    })
}

impl Pairs {
    /// How many differences the next word holds, from this one on.
    #[inline(always)]
    pub(crate) fn size_at(self, place: usize) -> usize
        requires { place < 64 }
        ensures { result ≡ 1 + bit_at self.both place }
    {
        1 + (self.both >> place & 1) as usize
    }

    /// Whether the difference before this one is of 8 bits.
    #[inline(always)]
    pub(crate) fn is_small_before(self, place: usize) -> bool
        requires { (0 < place) × (place ≤ 64) }
        ensures { IsTrue result ↔ (bit_at self.small (place - 1) ≡ 1) }
    {
        self.small >> (place - 1) & 1 == 1
    }
}
