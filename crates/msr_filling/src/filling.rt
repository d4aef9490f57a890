//! The Steim-2 words of a run, written in place.

ghost use Rattle.std.specs.Prelude.{◌≡◌, ◌<◌, ◌≤◌, ◌+◌, ◌-◌, ◌*◌, ◌/◌, ◌%◌, ◌^◌, ℤ, List, Some, length, drop, take};
ghost use Rattle.std.specs.List.{AllByRecursion};
ghost use Rattle.msr_base.specs.declared.storage.Version.TheVariants.{Two};
ghost use Rattle.msr_steim.specs.Word.{FitsBits, group_code, group_top, group_width, group_word, joined_fields, twos_complement};
ghost use Rattle.msr_words.specs.Division.{CanDivide};
ghost use Rattle.msr_filling.specs.Filled.{IsFilledArea};
ghost use Rattle.msr_words.specs.Groups.{IsLongestGroup};
ghost use Rattle.msr_filling.specs.NextWord.{IsNextWord};
ghost use Rattle.msr_words.specs.Segment.{differences};
ghost use Rattle.msr_words.specs.Window.{IsWindow, Shows};

use crate::frames::{Sizing, fill_frames};
use msr_words::{Window, difference_after, longest_group};

/// A word, with its code, and how many differences it holds.
#[derive(Clone, Copy)]
pub(crate) struct SteimWord {
    pub size: usize,
    pub code: u32,
    pub word: u32,
}

/// How a group of a given number of differences is written.
#[derive(Clone, Copy)]
struct Steim2Form {
    code: u32,
    top: u32,
    width: u32,
}

/// The field of `width` bits that a difference of that many bits is in two's complement.
pub(crate) fn field_of(difference: i64, width: u32) -> u64
    requires positive { 0 < width }
    requires small { width ≤ 32 }
    ensures same { FitsBits width difference → result ≡ twos_complement width difference }
    ensures within { result < 2 ^ width }
{
    difference.cast_unsigned() & (u64::MAX >> (64 - width))
}

/// Gives the fields of `size` differences of the run, from `at` on, side by side. It is called near
/// the ends of a run alone, and is kept out of the loop over words.
#[inline(never)]
pub(crate) fn fields_from(
    before: Option<i32>,
    run: &[i32],
    at: usize,
    size: usize,
    width: u32,
) -> u32
    requires positive { 0 < width }
    requires within { size * width ≤ 32 }
    requires room { at + size ≤ length run.now }
    requires fit { AllByRecursion (FitsBits width) (take size (drop at (differences before run.now))) }
    ensures same { result ≡ joined_fields width (take size (drop at (differences before run.now))) }
    ensures few { result < 2 ^ (size * width) }
{
    let mut fields: u64 = 0;
    for next in at..at + size {
        let difference = difference_after(before, run, next);
        fields = (fields << width) | field_of(difference, width);
    }
    fields as u32
}

/// Gives the form of a group of `size` differences.
fn form_of(size: usize) -> Steim2Form
    requires some { 1 ≤ size }
    requires most { size ≤ 7 }
    ensures form { (group_width Two size ≡ Some result.width) × (result.code ≡ group_code Two size)
        × (result.top ≡ group_top Two size) }
    ensures room { (0 < result.width) × (size * result.width ≤ 32) × (result.code < 4)
        × (result.top * 2 ^ 30 + 2 ^ (size * result.width) ≤ 2 ^ 32) }
{
    let (code, top, width) = match size {
        1 => (2, 1, 30),
        2 => (2, 2, 15),
        3 => (2, 3, 10),
        4 => (1, 0, 8),
        5 => (3, 0, 6),
        6 => (3, 1, 5),
        _ => (3, 2, 4),
    };
    Steim2Form { code, top, width }
}

/// Gives the fields of `size` differences from a place of the window on, side by side. Each difference is shifted to
/// its field and added; a negative one so takes 1 from the field above it. Adding the highest bit of each field gives
/// that 1 back, and the exclusive or removes these bits again without a carry. If it is inlined with literals as size
/// and width, no loop is left.
#[inline(always)]
pub(crate) fn fields_seen(window: &Window, place: usize, size: usize, width: u32) -> u32
    requires positive { 0 < width }
    requires within { size * width ≤ 32 }
    requires room { place + size ≤ 64 }
    requires most { size ≤ 7 }
    ensures same { (ds : List ℤ) → Shows window.now ds place
        → AllByRecursion (FitsBits width) (take size ds) → result ≡ joined_fields width (take size ds) }
{
    let mut fields: u64 = 0;
    let mut halves: u64 = 0;
    for next in 0..size {
        let difference = i64::from(window.difference_ahead(place, next));
        fields = (fields << width).wrapping_add(difference.cast_unsigned());
        halves = (halves << width) | (1 << (width - 1));
    }
    ((fields.wrapping_add(halves) ^ halves) & u64::from(u32::MAX)) as u32
}

/// The word of this longest group from a place of the window on. It is inlined with a literal as size, so that the form
/// is known.
#[inline(always)]
fn formed(window: &Window, place: usize, size: usize) -> SteimWord
    requires room { place + 7 ≤ 64 }
    requires size { (1 ≤ size) × (size ≤ 7) }
    ensures size { result.size ≡ size }
    ensures code { result.code ≡ group_code Two result.size }
    ensures small { result.code < 4 }
    ensures word { (ds : List ℤ) → Shows window.now ds place
        → IsLongestGroup ds result.size → result.word ≡ group_word Two (take result.size ds) }
{
    let form = form_of(size);
    let fields = fields_seen(window, place, size, form.width);
    SteimWord {
        size,
        code: form.code,
        word: (form.top << 30).wrapping_add(fields),
    }
}

/// The word of the longest group from a place of the window on.
#[inline(always)]
fn word_seen(window: &Window, place: usize) -> SteimWord
    requires { place + 7 ≤ 64 }
    ensures longest { (ds : List ℤ) → Shows window.now ds place
        → IsLongestGroup ds result.size }
    ensures code { result.code ≡ group_code Two result.size }
    ensures small { result.code < 4 }
    ensures word { (ds : List ℤ) → Shows window.now ds place
        → IsLongestGroup ds result.size → result.word ≡ group_word Two (take result.size ds) }
{
    match window.longest_from(place) {
        1 => formed(window, place, 1),
        2 => formed(window, place, 2),
        3 => formed(window, place, 3),
        4 => formed(window, place, 4),
        5 => formed(window, place, 5),
        6 => formed(window, place, 6),
        7 => formed(window, place, 7),
        _ => SteimWord {
            size: 0,
            code: 0,
            word: 0,
        },
    }
}

/// The word of the longest group from that difference on, of differences taken one after another.
/// It is kept out of the loop over words, which is faster without it.
#[inline(never)]
fn word_outside(before: Option<i32>, run: &[i32], at: usize) -> SteimWord
    requires { at ≤ length run.now }
    ensures longest { IsLongestGroup (drop at (differences before run.now)) result.size }
    ensures code { result.code ≡ group_code Two result.size }
    ensures small { result.code < 4 }
    ensures word { result.word ≡ group_word Two (take result.size (drop at (differences before run.now))) }
{
    let size = longest_group(before, run, at);
    if size == 0 {
        return SteimWord {
            size: 0,
            code: 0,
            word: 0,
        };
    }
    let form = form_of(size);
    let fields = fields_from(before, run, at, size, form.width);
    SteimWord {
        size,
        code: form.code,
        word: (form.top << 30) + fields,
    }
}

/// The word of the longest group from that difference on.
#[inline(always)]
pub(crate) fn steim2_word(
    before: Option<i32>,
    run: &[i32],
    window: &mut Window,
    at: usize,
) -> SteimWord
    requires within { at ≤ length run.now }
    requires window { IsWindow run.now at window.old }
    ensures window { IsWindow run.now at window.new }
    ensures next { IsNextWord Two (drop at (differences before run.now)) result }
    ensures longest { IsLongestGroup (drop at (differences before run.now)) result.size }
{
    if let Some(place) = window.place_of(run, at) {
        return word_seen(window, place);
    }
    word_outside(before, run, at)
}

/// Fills the area, of whole frames, with the words of the run's differences, big-endian: each group in turn is the
/// longest, and the constants are the first and the last sample. Gives the number of groups. If there is no room for
/// these, nothing is said of the area.
#[inline(never)]
pub fn fill_steim2(before: Option<i32>, run: &[i32], area: &mut [u8]) -> usize
    requires some { 1 ≤ length run.now }
    requires frames { length area.old % 64 ≡ 0 }
    ensures filled { CanDivide Two (15 * (length area.old / 64) - 2) (differences before run.now)
        → IsFilledArea Two before run.now (length area.old / 64) area.new result }
{
    fill_frames(Sizing::Longest, before, run, &[], area).unwrap()
}
