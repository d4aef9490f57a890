//! How far a Steim-1 record reaches, word by word.

ghost use Rattle.std.specs.Prelude.{◌<◌, ◌≤◌, ℕ, ℤ, IsFalse, List, length, map};
ghost use Rattle.msr_base.specs.declared.kinds.Kind.TheVariants.{Steim1 as FirstSteim};
ghost use Rattle.msr_words.specs.Bounds.{BeginsWithFour, IsEnd};
ghost use Rattle.msr_words.specs.FirstGroup.{IsSizeAt};
ghost use Rattle.msr_base.specs.Lengths.{bytes_of};
ghost use Rattle.msr_words.specs.Pairs.{HasWalked};
ghost use Rattle.msr_words.specs.Segment.{run_points};
ghost use Rattle.msr_words.specs.Steim1Reach.{IsSteim1Word};
ghost use Rattle.msr_words.specs.Window.{IsWindow};

use crate::bounds::steim1_word_by_word;
use crate::kinds::difference;
use crate::pairs::Walk;
use crate::window::{FourSizes, Window};
use msr_base::Length;
use msr_steim::fits_bits;

/// How many differences the next word adds. `spare` says that the last of them is of 8 bits and that the words can end
/// before it, so that it may stand in the word after them.
#[derive(Clone, Copy)]
struct NextWord {
    size: usize,
    spare: bool,
}

/// The next word, by the sizes of the differences that are left. With a spare one before them, three of 8 bits fill a
/// word.
#[inline(always)]
fn next_word(sizes: FourSizes, spare: bool) -> NextWord
    ensures next { (ds : List ℤ) → IsSizeAt ds 0 sizes.first → IsSizeAt ds 1 sizes.second
        → IsSizeAt ds 2 sizes.third → IsSizeAt ds 3 sizes.fourth → IsSteim1Word ds spare result.size result.spare }
    ensures most { result.size ≤ 4 }
{
    let pair = sizes.first | sizes.second;
    if pair >= 32_768 {
        let size = if sizes.first < 2_147_483_648 { 1 } else { 0 };
        return NextWord {
            size,
            spare: sizes.first < 128,
        };
    }
    if pair | sizes.third < 128 {
        if sizes.fourth < 128 {
            return NextWord { size: 4, spare };
        }
        if spare {
            return NextWord { size: 3, spare };
        }
    }
    NextWord {
        size: 2,
        spare: sizes.second < 128,
    }
}

/// Goes on by `pass_pairs`, if that is asked for. It stands apart so that a proof of the walk has no branches to join.
#[inline(always)]
fn pass_if(in_pairs: bool, window: &mut Window, samples: &[i32], walk: Walk, last: usize) -> Walk
    requires within { walk.at ≤ length samples.now }
    requires window { IsWindow samples.now walk.at window.old }
    requires few { walk.words ≤ last }
    ensures window { IsWindow samples.now result.at window.new }
    ensures on { (walk.words ≤ result.words) × (result.words ≤ last) }
    ensures walked { (start : ℕ) → HasWalked samples.now start walk → HasWalked samples.now start result }
{
    if in_pairs {
        window.pass_pairs(samples, walk, last)
    } else {
        walk
    }
}

/// The greatest end of a run of Steim-1 from `start` on. While words hold two differences or one, it goes from word to
/// word without a jump by which it is; where that fails once, it is not tried again.
pub fn steim1_reach(samples: &[i32], record_length: Length, start: usize) -> usize
    requires { start ≤ length samples.now }
    ensures { IsEnd FirstSteim (bytes_of record_length) samples.now start result }
{
    steim1_word_by_word();
    let last = record_length.data_words() as usize - 1;
    let mut window = Window::new();
    let mut walk = Walk {
        at: start,
        words: 0,
        spare: false,
    };
    let mut in_pairs = false;
    let mut failed = false;
    while walk.words < last {
        let on = pass_if(in_pairs, &mut window, samples, walk, last);
        if on.words > walk.words {
            walk = on;
            continue;
        }
        failed |= in_pairs;
        let next = next_word(window.four_sizes(samples, on.at), on.spare);
        if next.size == 0 {
            return on.at;
        }
        walk = Walk {
            at: on.at + next.size,
            words: on.words + 1,
            spare: next.spare,
        };
        in_pairs = !failed & (next.size < 3);
    }
    walk.at + next_word(window.four_sizes(samples, walk.at), true).size
}

/// Whether the difference of a sample and those of the next three are of 8 bits. The contract promises nothing if the
/// answer is `true`.
pub fn begins_with_four(samples: &[i32], start: usize) -> bool
    requires { start < length samples.now }
    ensures { IsFalse result → (b : ℕ) → start ≤ b → b ≤ length samples.now
        → BeginsWithFour (map (λ p. p.1) (run_points samples.now start b)) → ⊥ }
{
    if samples.len() - start < 4 {
        return false;
    }
    for at in start..start + 4 {
        if !fits_bits(difference(samples, at), 8) {
            return false;
        }
    }
    true
}
