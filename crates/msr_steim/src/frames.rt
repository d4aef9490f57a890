//! The area that is written for some groups.

ghost use Rattle.std.specs.Prelude.{◌≡◌, ◌<◌, ◌≤◌, ℕ, ℤ, List, ◌+◌, ◌-◌, ◌*◌, ◌/◌, ◌%◌, ◌^◌, [], All, FitsSigned, MatchOption, Some, length, map, pos, slice_get, slice_index_or};
ghost use Rattle.std.specs.Int.{w32};
ghost use Rattle.msr_base.specs.declared.order.Order.{Order};
ghost use Rattle.msr_base.specs.declared.storage.Version.{Version};
ghost use Rattle.msr_steim.specs.Area.{CarriesSteim, ReverseAgrees, constant, joined_groups};
ghost use Rattle.msr_steim.specs.Word.{AreGroups, group_word};
ghost use Rattle.msr_steim.specs.Frames.{code_in, codes_word, differences_after, frame_bytes, frame_word, group_in};

use crate::word::{Group, write_word};
use byteorder::{BigEndian, ByteOrder};
use msr_base::Version;

/// The group in the word with this number, if it has one.
fn group_in(groups: &[Group], number: usize) -> Option<&Group>
    ensures { MatchOption result
        (group_in (map (λ g. g.items) groups.now) number ≡ [])
        (λ group. group_in (map (λ g. g.items) groups.now) number ≡ group.now.items) }
{
    if number < 3 || number % 16 == 0 {
        return None;
    }
    groups.get(number - number / 16 - 3)
}

/// The code and the word of the group in the word with this number.
fn written_in(version: Version, groups: &[Group], number: usize) -> (u8, u32)
    requires { AreGroups version (map (λ g. g.items) groups.now) }
    ensures code { result.0 ≡ code_in version (map (λ g. g.items) groups.now) number }
    ensures small { result.0 < 4 }
    ensures word { result.1 ≡ group_word version (group_in (map (λ g. g.items) groups.now) number) }
{
    let Some(group) = group_in(groups, number) else {
        return (0, 0);
    };
    match write_word(version, group) {
        Some(written) => written,
        None => (0, 0),
    }
}

/// The first word of the frame that begins with this number.
fn codes_word(version: Version, groups: &[Group], number: usize) -> u32
    requires groups { AreGroups version (map (λ g. g.items) groups.now) }
    requires small { number < 2 ^ 62 }
    ensures { result ≡ codes_word version (map (λ g. g.items) groups.now) number }
{
    let mut codes: u32 = 0;
    for place in 0..16 {
        let (code, _) = written_in(version, groups, number + place);
        codes = codes * 4 + u32::from(code);
    }
    codes
}

/// The word with this number.
fn frame_word(version: Version, first: i32, last: i32, groups: &[Group], number: usize) -> u32
    requires groups { AreGroups version (map (λ g. g.items) groups.now) }
    requires small { number < 2 ^ 62 }
    ensures { result ≡ frame_word version first last (map (λ g. g.items) groups.now) number }
{
    if number % 16 == 0 {
        codes_word(version, groups, number)
    } else if number == 1 {
        first.cast_unsigned()
    } else if number == 2 {
        last.cast_unsigned()
    } else {
        written_in(version, groups, number).1
    }
}

/// Fills the area, of whole frames, with the constants and the groups, big-endian, one group in each
/// data word from the first on; all other bits are 0.
pub fn fill_steim(version: Version, first: i32, last: i32, groups: &[Group], area: &mut [u8])
    requires groups { AreGroups version (map (λ g. g.items) groups.now) }
    requires frames { length area.old % 64 ≡ 0 }
    requires room { length groups.now + 2 ≤ 15 * (length area.old / 64) }
    ensures { area.new
        ≡ frame_bytes version first last (map (λ g. g.items) groups.now) (length area.old / 64) }
{
    for number in 0..area.len() / 4 {
        let word = frame_word(version, first, last, groups, number);
        BigEndian::write_u32(&mut area[4 * number..], word);
    }
}

/// An area that is filled with the groups of some samples' differences, and with the first of these
/// samples, carries the samples, whatever the first difference is. Its reverse constant is the one
/// that was given, so it agrees if that is the last sample.
pub fn filled_area_carries()
    ensures samples { (version : Version) (before last : ℤ) (groups : List (List ℤ)) (samples : List ℤ) (frames : ℕ)
        → AreGroups version groups → length groups + 2 ≤ 15 * frames
        → joined_groups groups ≡ differences_after before samples
        → All (FitsSigned w32) samples → FitsSigned w32 last
        → CarriesSteim version Order.Big (frame_bytes version
        (slice_index_or samples 0 (pos 0)) last groups frames) samples }
    ensures reverse { (version : Version) (first last : ℤ) (groups : List (List ℤ)) (frames : ℕ)
        → AreGroups version groups → 0 < frames → FitsSigned w32 first → FitsSigned w32 last
        → constant Order.Big (frame_bytes version first last groups frames) 2 ≡ last }
    ensures agrees { (version : Version) (first last : ℤ) (groups : List (List ℤ)) (samples : List ℤ) (frames : ℕ)
        → AreGroups version groups → 0 < frames → FitsSigned w32 first → FitsSigned w32 last
        → slice_get samples (length samples - 1) ≡ Some last
        → ReverseAgrees Order.Big (frame_bytes version first last groups frames) samples }
{}
