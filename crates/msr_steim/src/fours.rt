//! Writes the samples of four words of code 1 at once. The bytes of such a word are its differences, the first first, so
//! that sixteen of them follow one another in the area.

ghost use Rattle.std.specs.Prelude.{◌≡◌, ◌<◌, ◌≤◌, ◌+◌, drop, length, map, take};
ghost use Rattle.msr_steim.specs.Sums.{AreSumsWritten};
ghost use Rattle.msr_steim.specs.Word.{signed_of};

use crate::lanes::prefix_sums;
use crate::sums::Progress;
use std::simd::prelude::*;

/// Each byte as a number with a sign.
#[inline(always)]
fn signed_bytes(bytes: u8x8) -> i16x8
    ensures { result ≡ map (signed_of 8) bytes }
{
    let raised = u8x8::splat(0).shuffle(
        bytes,
        [0, 8, 0, 9, 0, 10, 0, 11, 0, 12, 0, 13, 0, 14, 0, 15],
    );
    i16x8::from_le_bytes(raised) >> i16x8::splat(8)
}

/// Writes the sums of eight bytes.
#[inline(always)]
fn write_eight(area: &[u8], from: usize, at: Progress, out: &mut [i32]) -> Progress
    requires within { from + 8 ≤ length area.now }
    requires room { at.place + 8 ≤ length out.old }
    ensures { AreSumsWritten (map (signed_of 8) (take 8 (drop from area.now))) at out.old out.new result }
{
    let sums = prefix_sums(signed_bytes(u8x8::from_slice(&area[from..])));
    let samples = i32x8::splat(at.last) + sums.cast::<i32>();
    samples.copy_to_slice(&mut out[at.place..]);
    Progress {
        place: at.place + 8,
        last: samples.to_array()[7],
    }
}

/// Writes the sums of sixteen bytes.
#[inline(always)]
pub(crate) fn write_sixteen(area: &[u8], from: usize, at: Progress, out: &mut [i32]) -> Progress
    requires within { from + 16 ≤ length area.now }
    requires room { at.place + 16 ≤ length out.old }
    ensures { AreSumsWritten (map (signed_of 8) (take 16 (drop from area.now))) at out.old out.new result }
{
    let half = write_eight(area, from, at, out);
    write_eight(area, from + 8, half, out)
}
