//! The groups of differences that words can hold.

ghost use Rattle.std.specs.Prelude.{◌≡◌, ◌<◌, ◌≤◌, ◌↔◌, IsTrue};
ghost use Rattle.std.specs.List.{AllByRecursion};
ghost use Rattle.msr_steim.specs.Word.{FitsBits, IsGroupAt, group_width};

use crate::word::layout_of_group;
use msr_base::Version;

/// How many bits each difference of a group of `count` differences has; `None` if there is no such group.
pub fn group_width(version: Version, count: usize) -> Option<u32>
    ensures { result ≡ group_width version count }
{
    Some(layout_of_group(version, count)?.width)
}

/// Whether a number is one of `width` bits.
pub fn fits_bits(number: i64, width: u32) -> bool
    requires positive { 0 < width }
    requires small { width ≤ 32 }
    ensures { IsTrue result ↔ FitsBits width number }
{
    let half = i64::from(1u32 << (width - 1));
    -half <= number && number < half
}

/// Whether each number is one of `width` bits.
pub fn all_fit_bits(numbers: &[i64], width: u32) -> bool
    requires positive { 0 < width }
    requires small { width ≤ 32 }
    ensures { IsTrue result ↔ AllByRecursion (FitsBits width) numbers.now }
{
    for number in numbers {
        if !fits_bits(*number, width) {
            return false;
        }
    }
    true
}

/// Whether one word can hold these differences, as the last of a record or before others.
pub fn is_group(version: Version, last: bool, differences: &[i64]) -> bool
    ensures { IsTrue result ↔ IsGroupAt version last differences.now }
{
    if !last && version == Version::One && differences.len() == 3 {
        return false;
    }
    match group_width(version, differences.len()) {
        Some(width) => all_fit_bits(differences, width),
        None => false,
    }
}
