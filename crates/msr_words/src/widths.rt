//! How many bits the differences of a stretch of samples have, in loops that become vectors: differences that would not
//! fit a Steim record need no walk over its words.

ghost use Rattle.std.specs.Prelude.{◌≡◌, ◌<◌, ◌≤◌, ◌+◌, ◌-ℤ◌, IsTrue, cond, count_by, length, map};
ghost use Rattle.msr_words.specs.Bounds.{AreNarrow, is_very_wide, is_wide};
ghost use Rattle.msr_words.specs.Groups.{IsOneBelow};
ghost use Rattle.msr_words.specs.Segment.{run_points};

use crate::counts::is_narrow;
use crate::kinds::difference;
use crate::window::size_after;

/// 1 if the size is below the limit, else 0; in 32 bits, of which a vector register holds more than of 64.
fn one_below(size: u32, limit: u32) -> u32
    ensures { IsOneBelow size limit result }
{
    u32::from(size < limit)
}

/// 1 if the difference of the two samples is of more than 10 bits, else 0.
fn one_if_wide(before: i32, sample: i32) -> u32
    ensures { result ≡ cond (is_wide (sample -ℤ before)) 1 0 }
{
    1 - one_below(size_after(before, sample), 512)
}

/// How many of the differences of the samples after the one at `start`, up to `end - 1`, are of more than 10 bits.
pub fn count_wide(samples: &[i32], start: usize, end: usize) -> u32
    requires order { start < end }
    requires within { end ≤ length samples.now }
    requires few { end ≤ start + 1_000_000 }
    ensures { result ≡ count_by is_wide (map (λ p. p.1) (run_points samples.now (start + 1) end)) }
{
    let mut wide = 0;
    for at in start + 1..end {
        wide += one_if_wide(samples[at - 1], samples[at]);
    }
    wide
}

/// How many halves of a Steim-2 word the difference of the two samples takes: one if it is of more than 10 bits, two if
/// it is of more than 15, else none.
fn halves_of(before: i32, sample: i32) -> u32
    ensures { result ≡ cond (is_wide (sample -ℤ before)) 1 0 + cond (is_very_wide (sample -ℤ before)) 1 0 }
{
    let size = size_after(before, sample);
    2 - one_below(size, 512) - one_below(size, 16_384)
}

/// How many halves of Steim-2 words the differences of the samples after the one at `start`, up to `end - 1`, take: one
/// for each of more than 10 bits, two for each of more than 15.
pub fn count_halves(samples: &[i32], start: usize, end: usize) -> u32
    requires order { start < end }
    requires within { end ≤ length samples.now }
    requires few { end ≤ start + 1_000_000 }
    ensures { result ≡ count_by is_wide (map (λ p. p.1) (run_points samples.now (start + 1) end))
        + count_by is_very_wide (map (λ p. p.1) (run_points samples.now (start + 1) end)) }
{
    let mut halves = 0;
    for at in start + 1..end {
        halves += halves_of(samples[at - 1], samples[at]);
    }
    halves
}

/// Whether each of the differences of the samples from `start` to `end - 1` is narrow, those after the first of 15 bits.
/// The contract promises nothing if the answer is `false`.
pub fn are_narrow(samples: &[i32], start: usize, end: usize) -> bool
    requires order { start < end }
    requires within { end ≤ length samples.now }
    ensures { IsTrue result → AreNarrow samples.now start end }
{
    let mut sizes = 0;
    for at in start + 1..end {
        sizes |= size_after(samples[at - 1], samples[at]);
    }
    is_narrow(difference(samples, start)) && sizes < 16_384
}
