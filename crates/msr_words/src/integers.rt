//! How many samples are integers of so many bits.

ghost use Rattle.std.specs.Prelude.{◌<◌, ◌≤◌, ◌↔◌, All, IsTrue};
ghost use Rattle.msr_steim.specs.Word.{FitsBits};
ghost use Rattle.msr_words.specs.Bounds.{AreLeading};
ghost use Rattle.msr_words.specs.Window.{IsSize};

use msr_steim::fits_bits;

/// How many samples are tried together.
const TOGETHER: usize = 64;

/// How far a sample is from 0, or from -1 if it is negative, in 32 bits: a vector register holds more numbers of 32
/// bits than of 64.
fn size_of(sample: i32) -> u32
    ensures { IsSize sample result }
{
    if sample < 0 {
        (-(sample + 1)) as u32
    } else {
        sample as u32
    }
}

/// Whether each sample is of that many bits, tested on all of their bits at once.
fn together_of_bits(run: &[i32], bits: u32) -> bool
    requires positive { 0 < bits }
    requires small { bits ≤ 32 }
    ensures { IsTrue result ↔ All (FitsBits bits) run.now }
{
    let mut sizes = 0;
    for at in 0..run.len() {
        sizes |= size_of(run[at]);
    }
    fits_bits(i64::from(sizes), bits)
}

/// How many samples, from the first on, are of that many bits, tested one by one.
fn leading_one_by_one(run: &[i32], bits: u32) -> usize
    requires positive { 0 < bits }
    requires small { bits ≤ 32 }
    ensures { AreLeading bits run.now result }
{
    for at in 0..run.len() {
        if !fits_bits(i64::from(run[at]), bits) {
            return at;
        }
    }
    run.len()
}

/// How many samples, from the first on, are of that many bits. The first is tested by itself, since it mostly tells that
/// none is; the others some at a time.
pub fn leading_of_bits(run: &[i32], bits: u32) -> usize
    requires positive { 0 < bits }
    requires small { bits ≤ 32 }
    ensures { AreLeading bits run.now result }
{
    let mut at = 0;
    let mut together: usize = 1;
    while at < run.len() {
        let next = at + together.min(run.len() - at);
        if !together_of_bits(&run[at..next], bits) {
            return at + leading_one_by_one(&run[at..next], bits);
        }
        at = next;
        together = TOGETHER;
    }
    at
}

/// Whether each sample is of that many bits.
pub(crate) fn all_of_bits(run: &[i32], bits: u32) -> bool
    requires positive { 0 < bits }
    requires small { bits ≤ 32 }
    ensures { IsTrue result ↔ All (FitsBits bits) run.now }
{
    leading_of_bits(run, bits) == run.len()
}
