//! Writes the samples of a word of Steim-2 all at once: each of its fields has a lane of sixteen bits.
//!
//! The tables go by the key of a word: four times its code, and its top two bits. Of a key with no layout, or with fewer
//! than three fields, only the count is read, which is 0.

ghost use Rattle.std.specs.Prelude.{◌≡◌, ◌<◌, ◌≤◌, ◌+◌, ◌/◌, ◌%◌, ◌-◌, ◌++◌, length, IfSome, IsSomeAnd, IsTrue, pos, replicate};
ghost use Rattle.std.specs.List.{AllByRecursion};
ghost use Rattle.msr_steim.specs.Sums.{IsGroupWritten, sums_from};
ghost use Rattle.msr_steim.specs.Word.{FitsBits, layout_of, numbers_in};
ghost use Rattle.msr_base.specs.declared.storage.Version.TheVariants.{Two};

use crate::sums::Progress;
use std::simd::prelude::*;

// As of `BYTES`, of a word of code 1, whose top two bits are of its first field.
const FOUR: [u8; 16] = [
    2, 3, 2, 3, 1, 2, 0, 1, 128, 128, 128, 128, 128, 128, 128, 128,
];

// The two bytes of the word, counted from the lowest, in which the field of a lane lies. 128 gives a byte of 0.
static BYTES: [[u8; 16]; 16] = [
    [128; 16],
    [128; 16],
    [128; 16],
    [128; 16],
    FOUR,
    FOUR,
    FOUR,
    FOUR,
    [128; 16],
    [128; 16],
    [128; 16],
    [
        2, 3, 1, 2, 0, 1, 128, 128, 128, 128, 128, 128, 128, 128, 128, 128,
    ],
    [2, 3, 2, 3, 1, 2, 0, 1, 0, 1, 128, 128, 128, 128, 128, 128],
    [2, 3, 2, 3, 1, 2, 1, 2, 0, 1, 0, 1, 128, 128, 128, 128],
    [2, 3, 2, 3, 2, 3, 1, 2, 1, 2, 0, 1, 0, 1, 128, 128],
    [128; 16],
];

// The factor that moves the field of a lane to its highest bits: a shift moves all lanes of a vector alike.
static FACTORS: [[i16; 8]; 16] = [
    [0; 8],
    [0; 8],
    [0; 8],
    [0; 8],
    [1, 256, 256, 256, 0, 0, 0, 0],
    [1, 256, 256, 256, 0, 0, 0, 0],
    [1, 256, 256, 256, 0, 0, 0, 0],
    [1, 256, 256, 256, 0, 0, 0, 0],
    [0; 8],
    [0; 8],
    [0; 8],
    [4, 16, 64, 0, 0, 0, 0, 0],
    [4, 256, 64, 16, 1024, 0, 0, 0],
    [4, 128, 16, 512, 64, 2048, 0, 0],
    [16, 256, 4096, 256, 4096, 256, 4096, 0],
    [0; 8],
];

// How far the fields are shifted down again, with their signs.
static SHIFTS: [i16; 16] = [0, 0, 0, 0, 8, 8, 8, 8, 0, 0, 0, 6, 10, 11, 12, 0];

// How many fields a word has, if three or more; else 0.
static COUNTS: [u8; 16] = [0, 0, 0, 0, 4, 4, 4, 4, 0, 0, 0, 3, 5, 6, 7, 0];

/// Whether a word with this key has three fields or more.
#[inline(always)]
pub(crate) fn has_lanes(key: usize) -> bool
    requires { key < 16 }
    ensures { IsTrue result → IsSomeAnd (layout_of Two (key / 4) (key % 4)) (λ layout. 3 ≤ layout.count) }
{
    COUNTS[key] > 0
}

/// The differences that a word holds, and zeros after them.
#[inline(always)]
fn lanes_of(key: usize, word: u32) -> i16x8
    requires layout { IsSomeAnd (layout_of Two (key / 4) (key % 4)) (λ layout. 3 ≤ layout.count) }
    ensures { IfSome (layout_of Two (key / 4) (key % 4)) (λ layout. result
        ≡ numbers_in word layout.width layout.count ++ replicate (8 - layout.count) (pos 0)) }
{
    let bytes = u32x4::splat(word)
        .to_le_bytes()
        .swizzle_dyn(u8x16::from_array(BYTES[key]));
    let raised = i16x8::from_le_bytes(bytes) * i16x8::from_array(FACTORS[key]);
    raised >> i16x8::splat(SHIFTS[key])
}

/// The sum of each lane and all below it. Ten bits are few enough that no sum of eight wraps.
#[inline(always)]
pub(crate) fn prefix_sums(d: i16x8) -> i16x8
    requires eight { length d ≡ 8 }
    requires small { AllByRecursion (FitsBits 10) d }
    ensures { result ≡ sums_from (pos 0) d }
{
    let zero = i16x8::splat(0);
    let d = d + zero.shuffle(d, [0, 8, 9, 10, 11, 12, 13, 14]);
    let d = d + zero.shuffle(d, [0, 1, 8, 9, 10, 11, 12, 13]);
    d + zero.shuffle(d, [0, 1, 2, 3, 8, 9, 10, 11])
}

/// Writes the samples of a word of Steim-2 with three to seven fields, without a jump by how many it has. It writes eight
/// places; those after the last field are written again by the words that follow.
#[inline(always)]
pub(crate) fn write_lanes(key: usize, word: u32, at: Progress, out: &mut [i32]) -> Progress
    requires layout { IsSomeAnd (layout_of Two (key / 4) (key % 4)) (λ layout. 3 ≤ layout.count) }
    requires room { at.place + 8 ≤ length out.old }
    ensures { IfSome (layout_of Two (key / 4) (key % 4)) (λ layout.
        IsGroupWritten word layout.count layout.width at out.old out.new result) }
{
    let sums = prefix_sums(lanes_of(key, word));
    let samples = i32x8::splat(at.last) + sums.cast::<i32>();
    samples.copy_to_slice(&mut out[at.place..]);
    Progress {
        place: at.place + usize::from(COUNTS[key]),
        last: samples.to_array()[7],
    }
}
