//! The Steim-1 words of a run, written in place.

ghost use Rattle.std.specs.Prelude.{◌≡◌, ◌<◌, ◌≤◌, ◌+◌, ◌-◌, ◌*◌, ◌/◌, ◌%◌, ℤ, List, Option, IfOk, IfSome, IsNone, Some, length, drop, take};
ghost use Rattle.std.specs.List.{AllByRecursion};
ghost use Rattle.msr_base.specs.declared.storage.Version.TheVariants.{One};
ghost use Rattle.msr_steim.specs.Word.{FitsBits, IsGroup, group_code, group_width, group_word, joined_fields, padding_of};
ghost use Rattle.msr_words.specs.Bounds.{BeginsWithFour};
ghost use Rattle.msr_words.specs.Division.{CanDivide};
ghost use Rattle.msr_filling.specs.Filled.{IsFilledArea};
ghost use Rattle.msr_words.specs.FirstGroup.{AreSizes, IsCanonicalFirst, IsSizeAt};
ghost use Rattle.msr_filling.specs.NextWord.{IsCoded, IsNextWord};
ghost use Rattle.msr_words.specs.Segment.{differences};
ghost use Rattle.msr_words.specs.Window.{IsWindow, Shows};

use crate::filling::{SteimWord, fields_from, fields_seen};
use crate::frames::{Sizing, fill_frames};
use msr_words::{Window, difference_after, magnitude, size_after, sizes_of};
use std::alloc::{AllocError, Global};

/// How a group of a given number of differences is written: the code of its word, of how many bits
/// each is, and how many bits below them are left 0.
#[derive(Clone, Copy)]
struct Steim1Form {
    code: u32,
    width: u32,
    left: u32,
}

/// Gives the form of a group of `size` differences.
fn form_of(size: usize) -> Steim1Form
    requires some { 1 ≤ size }
    requires most { size ≤ 4 }
    ensures form { (group_width One size ≡ Some result.width) × (result.code ≡ group_code One size)
        × (result.left ≡ padding_of One size * result.width) }
    ensures room { (0 < result.width) × (size * result.width + result.left ≤ 32) × (result.code < 4) }
{
    let (code, width, left) = match size {
        1 => (3, 32, 0),
        2 => (2, 16, 0),
        3 => (1, 8, 8),
        _ => (1, 8, 0),
    };
    Steim1Form { code, width, left }
}

/// The word of this group from a place of the window on, with a literal as size, so that its form is known.
#[inline(always)]
fn formed(window: &Window, place: usize, size: usize) -> SteimWord
    requires room { place + 7 ≤ 64 }
    requires size { (1 ≤ size) × (size ≤ 4) }
    ensures coded { IsCoded One size result }
    ensures word { (ds : List ℤ) → Shows window.now ds place → IsGroup One (take size ds)
        → result.word ≡ group_word One (take size ds) }
{
    let form = form_of(size);
    let fields = fields_seen(window, place, size, form.width);
    SteimWord {
        size,
        code: form.code,
        word: fields << form.left,
    }
}

/// One of two numbers, by bits alone, where a compiler would take a jump.
#[inline(always)]
fn chosen(first: u32, second: u32, is_second: u32) -> u32
    requires { is_second < 2 }
    ensures first { is_second ≡ 0 → result ≡ first }
    ensures second { is_second ≡ 1 → result ≡ second }
{
    first ^ ((first ^ second) & 0u32.wrapping_sub(is_second))
}

/// The word of a group of this size, of that of one difference and that of two.
#[inline(always)]
fn of_two(one: SteimWord, two: SteimWord, size: usize) -> SteimWord
    requires size { (1 ≤ size) × (size ≤ 2) }
    ensures coded { IsCoded One size result }
    ensures one { size ≡ 1 → result.word ≡ one.word }
    ensures two { size ≡ 2 → result.word ≡ two.word }
{
    let is_second = (size - 1) as u32;
    SteimWord {
        size,
        code: 3 - is_second,
        word: chosen(one.word, two.word, is_second),
    }
}

/// The word of a group of two or one from a place of the window on: both are formed, so that no jump is taken by which
/// it is.
#[inline(always)]
fn pair_seen(window: &Window, place: usize, size: usize) -> SteimWord
    requires room { place + 7 ≤ 64 }
    requires size { (1 ≤ size) × (size ≤ 2) }
    ensures coded { IsCoded One size result }
    ensures word { (ds : List ℤ) → Shows window.now ds place → IsGroup One (take size ds)
        → result.word ≡ group_word One (take size ds) }
{
    let one = formed(window, place, 1);
    let two = formed(window, place, 2);
    of_two(one, two, size)
}

/// The word of this group from a place of the window on.
#[inline(always)]
fn word_seen(window: &Window, place: usize, size: usize) -> SteimWord
    requires room { place + 7 ≤ 64 }
    requires size { (1 ≤ size) × (size ≤ 4) }
    ensures coded { IsCoded One size result }
    ensures word { (ds : List ℤ) → Shows window.now ds place → IsGroup One (take size ds)
        → result.word ≡ group_word One (take size ds) }
{
    match size {
        3 => formed(window, place, 3),
        4 => formed(window, place, 4),
        _ => pair_seen(window, place, size),
    }
}

/// The word of this group, of differences taken one after another.
fn word_outside(before: Option<i32>, run: &[i32], at: usize, size: usize) -> SteimWord
    requires size { (1 ≤ size) × (size ≤ 4) }
    requires room { at + size ≤ length run.now }
    requires group { IsGroup One (take size (drop at (differences before run.now))) }
    ensures coded { IsCoded One size result }
    ensures word { result.word ≡ group_word One (take size (drop at (differences before run.now))) }
{
    let form = form_of(size);
    let fields = fields_from(before, run, at, size, form.width);
    SteimWord {
        size,
        code: form.code,
        word: fields << form.left,
    }
}

/// The word of the group that begins with that difference.
#[inline(always)]
pub(crate) fn steim1_word(
    before: Option<i32>,
    run: &[i32],
    sizes: &[u8],
    window: &mut Window,
    at: usize,
) -> SteimWord
    requires within { at < length run.now }
    requires window { IsWindow run.now at window.old }
    requires sizes { AreSizes (differences before run.now) 0 sizes.now }
    ensures window { IsWindow run.now at window.new }
    ensures next { IsNextWord One (drop at (differences before run.now)) result }
{
    if let Some(place) = window.place_of(run, at) {
        return word_seen(window, place, usize::from(sizes[at]));
    }
    word_outside(before, run, at, usize::from(sizes[at]))
}

/// Gives the size of the difference `ahead` places after the one at `at`, or the greatest size if none is left there.
fn size_ahead(before: Option<i32>, run: &[i32], at: usize, ahead: usize) -> u64
    requires few { ahead ≤ 4 }
    requires within { at < length run.now }
    ensures { IsSizeAt (drop at (differences before run.now)) ahead result }
{
    let place = at + ahead;
    if place >= run.len() {
        return u64::MAX;
    }
    magnitude(difference_after(before, run, place))
}

/// As `Window::first_steim1_group`, but from single differences; here the run may end, so a last group of three is
/// possible.
fn first_group_outside(before: Option<i32>, run: &[i32], at: usize) -> Option<usize>
    requires within { at < length run.now }
    requires fits { AllByRecursion (FitsBits 32) (differences before run.now) }
    ensures first { IfSome result (IsCanonicalFirst (drop at (differences before run.now))) }
    ensures none { IsNone result → BeginsWithFour (drop 1 (drop at (differences before run.now))) }
{
    let one = size_ahead(before, run, at, 0);
    let two = size_ahead(before, run, at, 1);
    if one | two >= 32_768 {
        return Some(1);
    }
    if two >= 128 {
        return Some(2);
    }
    let three = size_ahead(before, run, at, 2);
    if run.len() - at == 3 {
        return if one | three < 128 { Some(3) } else { Some(2) };
    }
    let four = two | three | size_ahead(before, run, at, 3);
    if four >= 128 {
        return Some(2);
    }
    if one < 128 {
        return Some(4);
    }
    if size_ahead(before, run, at, 4) < 128 {
        None
    } else {
        Some(2)
    }
}

/// The word of the group that begins with that difference, if the next ones tell its size, of
/// differences taken one after another. It is kept out of the loop over words.
#[inline(never)]
fn word_outside_ahead(before: Option<i32>, run: &[i32], at: usize) -> Option<SteimWord>
    requires within { at < length run.now }
    requires fits { AllByRecursion (FitsBits 32) (differences before run.now) }
    ensures next { IfSome result (IsNextWord One (drop at (differences before run.now))) }
    ensures none { IsNone result → BeginsWithFour (drop 1 (drop at (differences before run.now))) }
{
    let size = first_group_outside(before, run, at)?;
    Some(word_outside(before, run, at, size))
}

/// The size of the difference `ahead` places after the one at `at`, which is not the run's first.
#[inline(always)]
fn size_inside(run: &[i32], at: usize, ahead: usize) -> u32
    requires later { 0 < at }
    requires room { at + ahead < length run.now }
    ensures { (before : Option ℤ) → IsSizeAt (drop at (differences before run.now)) ahead result }
{
    size_after(run[at + ahead - 1], run[at + ahead])
}

/// As `Window::first_steim1_group`, from the samples of these five differences, none of which is the run's first.
#[inline(always)]
fn first_group_inside(run: &[i32], at: usize) -> Option<usize>
    requires later { 0 < at }
    requires room { at + 5 ≤ length run.now }
    ensures first { (before : Option ℤ) → AllByRecursion (FitsBits 32) (differences before run.now)
        → IfSome result (IsCanonicalFirst (drop at (differences before run.now))) }
    ensures few { IfSome result (λ size. (1 ≤ size) × (size ≤ 4)) }
    ensures none { (before : Option ℤ) → IsNone result
        → BeginsWithFour (drop 1 (drop at (differences before run.now))) }
{
    let one = size_inside(run, at, 0);
    let two = size_inside(run, at, 1);
    if two >= 128 {
        return Some(1 + usize::from(one | two < 32_768));
    }
    if one >= 32_768 {
        return Some(1);
    }
    let four = two | size_inside(run, at, 2) | size_inside(run, at, 3);
    if four >= 128 {
        return Some(2);
    }
    if one < 128 {
        return Some(4);
    }
    if size_inside(run, at, 4) < 128 {
        None
    } else {
        Some(2)
    }
}

/// Gives the fields of `size` differences of the run, from `at` on, side by side, in the way of `fields_seen`.
#[inline(always)]
fn fields_at(run: &[i32], at: usize, size: usize, width: u32) -> u32
    requires positive { 0 < width }
    requires within { size * width ≤ 32 }
    requires later { 0 < at }
    requires room { at + size ≤ length run.now }
    ensures same { (before : Option ℤ)
        → AllByRecursion (FitsBits width) (take size (drop at (differences before run.now)))
        → result ≡ joined_fields width (take size (drop at (differences before run.now))) }
{
    let mut fields: u64 = 0;
    let mut halves: u64 = 0;
    for next in 0..size {
        let before = run[at + next - 1];
        let sample = run[at + next];
        let difference = i64::from(sample.wrapping_sub(before));
        fields = (fields << width).wrapping_add(difference.cast_unsigned());
        halves = (halves << width) | (1 << (width - 1));
    }
    ((fields.wrapping_add(halves) ^ halves) & u64::from(u32::MAX)) as u32
}

/// The word of this group of the differences from `at` on, with a literal as size, so that its form is known.
#[inline(always)]
fn formed_inside(run: &[i32], at: usize, size: usize) -> SteimWord
    requires size { (1 ≤ size) × (size ≤ 4) }
    requires room { (0 < at) × (at + size ≤ length run.now) }
    ensures coded { IsCoded One size result }
    ensures word { (before : Option ℤ) → IsGroup One (take size (drop at (differences before run.now)))
        → result.word ≡ group_word One (take size (drop at (differences before run.now))) }
{
    let form = form_of(size);
    let fields = fields_at(run, at, size, form.width);
    SteimWord {
        size,
        code: form.code,
        word: fields << form.left,
    }
}

/// The word of a group of two or one of the differences from `at` on, as `pair_seen`.
#[inline(always)]
fn pair_inside(run: &[i32], at: usize, size: usize) -> SteimWord
    requires size { (1 ≤ size) × (size ≤ 2) }
    requires room { (0 < at) × (at + 2 ≤ length run.now) }
    ensures coded { IsCoded One size result }
    ensures word { (before : Option ℤ) → IsGroup One (take size (drop at (differences before run.now)))
        → result.word ≡ group_word One (take size (drop at (differences before run.now))) }
{
    let one = formed_inside(run, at, 1);
    let two = formed_inside(run, at, 2);
    of_two(one, two, size)
}

/// The word of this group of the differences from `at` on, none of which is the run's first.
#[inline(always)]
fn word_inside(run: &[i32], at: usize, size: usize) -> SteimWord
    requires size { (1 ≤ size) × (size ≤ 4) }
    requires room { (0 < at) × (at + 4 ≤ length run.now) }
    ensures coded { IsCoded One size result }
    ensures word { (before : Option ℤ) → IsGroup One (take size (drop at (differences before run.now)))
        → result.word ≡ group_word One (take size (drop at (differences before run.now))) }
{
    match size {
        3 => formed_inside(run, at, 3),
        4 => formed_inside(run, at, 4),
        _ => pair_inside(run, at, size),
    }
}

/// As `word_outside_ahead`, straight from the samples of five differences, none of which is the run's first: so most
/// words of a run that is too short for a window are found. It is kept out of the loop over words.
#[inline(never)]
fn word_inside_ahead(run: &[i32], at: usize) -> Option<SteimWord>
    requires later { 0 < at }
    requires room { at + 5 ≤ length run.now }
    ensures next { (before : Option ℤ) → AllByRecursion (FitsBits 32) (differences before run.now)
        → IfSome result (IsNextWord One (drop at (differences before run.now))) }
    ensures none { (before : Option ℤ) → IsNone result
        → BeginsWithFour (drop 1 (drop at (differences before run.now))) }
{
    let size = first_group_inside(run, at)?;
    Some(word_inside(run, at, size))
}

/// The word of the group that begins with that difference; `None` if the next differences do not tell its size.
#[inline(always)]
pub(crate) fn steim1_word_ahead(
    before: Option<i32>,
    run: &[i32],
    window: &mut Window,
    at: usize,
) -> Option<SteimWord>
    requires within { at < length run.now }
    requires window { IsWindow run.now at window.old }
    requires fits { AllByRecursion (FitsBits 32) (differences before run.now) }
    ensures window { IsWindow run.now at window.new }
    ensures next { IfSome result (IsNextWord One (drop at (differences before run.now))) }
    ensures none { IsNone result → BeginsWithFour (drop 1 (drop at (differences before run.now))) }
{
    if let Some(place) = window.place_of(run, at) {
        let size = window.first_steim1_group(place)?;
        return Some(word_seen(window, place, size));
    }
    if at > 0 && run.len() - at >= 5 {
        return word_inside_ahead(run, at);
    }
    word_outside_ahead(before, run, at)
}

/// Fills the area as `fill_steim1` does, by the sizes of all groups, found from the run's end on.
#[inline(never)]
fn fill_by_sizes(
    alloc: Global,
    before: Option<i32>,
    run: &[i32],
    area: &mut [u8],
) -> Result<usize, AllocError>
    requires some { 1 ≤ length run.now }
    requires frames { length area.old % 64 ≡ 0 }
    requires fits { CanDivide One (15 * (length area.old / 64) - 2) (differences before run.now) }
    ensures { IfOk result (IsFilledArea One before run.now (length area.old / 64) area.new) }
{
    let sizes = sizes_of(alloc, run.len(), |at| difference_after(before, run, at))?;
    Ok(fill_frames(Sizing::Given, before, run, &sizes, area).unwrap())
}

/// Fills the area, of whole frames, with the words of the run's differences, big-endian: the groups
/// of the division that is written, and as constants the first and the last sample. Gives the number
/// of groups. Memory is taken only if the next differences do not tell the size of each group.
pub fn fill_steim1(
    alloc: Global,
    before: Option<i32>,
    run: &[i32],
    area: &mut [u8],
) -> Result<usize, AllocError>
    requires some { 1 ≤ length run.now }
    requires frames { length area.old % 64 ≡ 0 }
    requires fits { CanDivide One (15 * (length area.old / 64) - 2) (differences before run.now) }
    ensures { IfOk result (IsFilledArea One before run.now (length area.old / 64) area.new) }
{
    if let Some(used) = fill_frames(Sizing::Ahead, before, run, &[], area) {
        return Ok(used);
    }
    fill_by_sizes(alloc, before, run, area)
}
