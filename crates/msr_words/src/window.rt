//! Differences with their sizes, taken 64 at a time: a loop over a fixed number of places takes a fraction of the
//! instructions that taking one difference after another does.

ghost use Rattle.std.specs.Prelude.{◌≡◌, ◌<◌, ◌≤◌, ◌+◌, ◌-ℤ◌, ◌↔◌, ℕ, ℤ, pos, List, Option, None, IfSome, IsNone, IsSome, drop, get_or, length};
ghost use Rattle.std.specs.Int.{int_wrap, w32};
ghost use Rattle.std.specs.List.{AllByRecursion};
ghost use Rattle.msr_steim.specs.Word.{FitsBits};
ghost use Rattle.msr_words.specs.Bounds.{IsBeforeFour};
ghost use Rattle.msr_words.specs.FirstGroup.{IsCanonicalFirst, IsSizeAt};
ghost use Rattle.msr_words.specs.Groups.{IsLongestGroup};
ghost use Rattle.msr_words.specs.Pairs.{HasWalked};
ghost use Rattle.msr_words.specs.Segment.{differences};
ghost use Rattle.msr_words.specs.Window.{IsSize, IsWindow, Shows};

use crate::kinds::longest_group;
use crate::pairs::{Walk, pairs_of};
use std::marker::Model;

/// How many differences a window has.
const PLACES: usize = 64;

/// The differences of the samples from `first` to `end - 1`, with their sizes. A new window has none.
#[derive(Drop)]
pub struct Window {
    first: usize,
    end: usize,
    /// For each sample before this one the window has its difference and those of the next six.
    until: usize,
    /// How far each difference is from 0, or from -1 if it is negative.
    sizes: [u32; 64],
    /// Each difference itself, cut to 32 bits.
    kept: [i32; 64],
}

impl Model for Window {
    ghost use Rattle.msr_words.specs.Window.{Stretch};

    ghost Value = { Stretch };

    ghost view = { λ w. record {
      first = w.first;
      end = w.end;
      until = w.until;
      sizes = w.sizes;
      kept = w.kept;
    } };
}

/// The size of the difference of a sample from the one before it. The test compares numbers of 32 bits, of which a
/// vector register holds more than of 64.
#[inline(always)]
pub fn size_after(before: i32, sample: i32) -> u32
    ensures { IsSize (sample -ℤ before) result }
{
    let difference = sample as i64 - before as i64;
    if sample < before {
        (-(difference + 1)) as u32
    } else {
        difference as u32
    }
}

/// The size of the difference of a sample of the segment, or the greatest size if there is no such sample.
fn size_at(samples: &[i32], at: usize) -> u32
    ensures { IsSizeAt (drop at (differences None samples.now)) 0 result }
{
    if at >= samples.len() {
        return u32::MAX;
    }
    if at == 0 {
        return 0;
    }
    size_after(samples[at - 1], samples[at])
}

/// The sizes of four differences that follow one another; the greatest size stands for one that is missing.
#[derive(Clone, Copy)]
pub struct FourSizes {
    pub first: u32,
    pub second: u32,
    pub third: u32,
    pub fourth: u32,
}

impl Window {
    /// A window of no differences.
    pub fn new() -> Window
        ensures { (samples : List ℤ) (at : ℕ) → IsWindow samples at result }
    {
        Window {
            first: 0,
            end: 0,
            until: 0,
            sizes: [0; PLACES],
            kept: [0; PLACES],
        }
    }

    /// Takes the differences of the samples from `first` on, always `PLACES` of them, so that the loop is unrolled.
    #[inline(always)]
    fn take(&mut self, samples: &[i32], first: usize)
        requires some { 0 < first }
        requires room { first + 64 ≤ length samples.now }
        ensures window { IsWindow samples.now first self.new }
        ensures first { self.new.first ≡ first }
        ensures end { self.new.end ≡ first + 64 }
        ensures until { self.new.until ≡ first + 58 }
    {
        for place in 0..PLACES {
            let before = samples[first + place - 1];
            let sample = samples[first + place];
            self.sizes[place] = size_after(before, sample);
            self.kept[place] = sample.wrapping_sub(before);
        }
        self.first = first;
        self.end = first + PLACES;
        self.until = self.end - 6;
    }

    /// The place in the window of a sample's difference, if those of the next six are there too. The window moves on
    /// to them if there are samples enough.
    #[inline(always)]
    pub fn place_of(&mut self, samples: &[i32], at: usize) -> Option<usize>
        requires within { at ≤ length samples.now }
        requires window { IsWindow samples.now at self.old }
        ensures window { IsWindow samples.now at self.new }
        ensures shown { IfSome result (λ place. (before : Option ℤ)
            → Shows self.new (drop at (differences before samples.now)) place) }
        ensures room { IfSome result (λ place. place + 7 ≤ 64) }
        ensures exact { IsSome result ↔ (0 < at) × (at + 7 ≤ length samples.now) × (64 < length samples.now) }
    {
        if at < self.until {
            return Some(at - self.first);
        }
        if at == 0 || samples.len() <= PLACES || samples.len() - at < 7 {
            return None;
        }
        self.take(samples, at.min(samples.len() - PLACES));
        Some(at - self.first)
    }

    /// The difference `ahead` places after the one at `place`, cut to 32 bits.
    #[inline(always)]
    pub fn difference_ahead(&self, place: usize, ahead: usize) -> i32
        requires room { place + ahead < 64 }
        requires few { ahead < 7 }
        ensures { (ds : List ℤ) → Shows self.now ds place → result ≡ int_wrap w32 (get_or ds ahead (pos 0)) }
    {
        self.kept[place + ahead]
    }

    /// How many differences from a place on stand together in a Steim-2 word, as many as can: by the bits that are set
    /// in the size of any of them.
    #[inline(always)]
    pub fn longest_from(&self, place: usize) -> usize
        requires { place + 7 ≤ 64 }
        ensures longest { (ds : List ℤ) → Shows self.now ds place → IsLongestGroup ds result }
        ensures most { result ≤ 7 }
    {
        let one = self.sizes[place];
        let two = one | self.sizes[place + 1];
        let three = two | self.sizes[place + 2];
        if three >= 512 {
            if two < 16_384 {
                return 2;
            }
            return if one < 536_870_912 { 1 } else { 0 };
        }
        let four = three | self.sizes[place + 3];
        if four >= 128 {
            return 3;
        }
        let five = four | self.sizes[place + 4];
        if five >= 32 {
            return 4;
        }
        let six = five | self.sizes[place + 5];
        if six >= 16 {
            return 5;
        }
        let seven = six | self.sizes[place + 6];
        if seven >= 8 { 6 } else { 7 }
    }

    /// How many differences, from a place on, the first Steim-1 group has in the division that is
    /// written. It is not told if four of 8 bits come after a larger one that has room for the
    /// first of them beside it: whether it takes that one depends on all that follow.
    #[inline(always)]
    pub fn first_steim1_group(&self, place: usize) -> Option<usize>
        requires { place + 7 ≤ 64 }
        ensures first { (ds : List ℤ) → Shows self.now ds place
            → AllByRecursion (FitsBits 32) ds → IfSome result (IsCanonicalFirst ds) }
        ensures none { (ds : List ℤ) → Shows self.now ds place → (IsNone result ↔ IsBeforeFour ds) }
    {
        let one = self.sizes[place];
        let two = self.sizes[place + 1];
        if two >= 128 {
            // Two or one, without a jump by which.
            return Some(1 + usize::from(one | two < 32_768));
        }
        if one >= 32_768 {
            return Some(1);
        }
        let four = two | self.sizes[place + 2] | self.sizes[place + 3];
        if four >= 128 {
            return Some(2);
        }
        if one < 128 {
            return Some(4);
        }
        if self.sizes[place + 4] < 128 {
            None
        } else {
            Some(2)
        }
    }

    /// How many differences of the run, from this one on, stand together in a Steim-2 word, as many as can.
    #[inline(always)]
    pub fn longest_steim2_group(&mut self, before: Option<i32>, run: &[i32], at: usize) -> usize
        requires within { at ≤ length run.now }
        requires window { IsWindow run.now at self.old }
        ensures window { IsWindow run.now at self.new }
        ensures longest { IsLongestGroup (drop at (differences before run.now)) result }
    {
        if let Some(place) = self.place_of(run, at) {
            return self.longest_from(place);
        }
        longest_group(before, run, at)
    }

    /// Goes on over Steim-1 words of two differences or one, until `last` are passed or the window ends. The walk stays
    /// where it is if `place_of` has no place for it, or if some word of the window may hold more than two, or none.
    #[inline(always)]
    pub(crate) fn pass_pairs(&mut self, samples: &[i32], walk: Walk, last: usize) -> Walk
        requires within { walk.at ≤ length samples.now }
        requires window { IsWindow samples.now walk.at self.old }
        requires few { walk.words ≤ last }
        ensures window { IsWindow samples.now result.at self.new }
        ensures on { (walk.words ≤ result.words) × (result.words ≤ last) }
        ensures walked { (start : ℕ) → HasWalked samples.now start walk → HasWalked samples.now start result }
    {
        if self.place_of(samples, walk.at).is_none() {
            return walk;
        }
        let Some(pairs) = pairs_of(&self.sizes) else {
            return walk;
        };
        let mut on = walk;
        while on.at < self.until && on.words < last {
            let at = on.at + pairs.size_at(on.at - self.first);
            on = Walk {
                at,
                words: on.words + 1,
                spare: pairs.is_small_before(at - self.first),
            };
        }
        on
    }

    /// The sizes of the differences of this sample of the segment and of the next three.
    #[inline(always)]
    pub fn four_sizes(&mut self, samples: &[i32], at: usize) -> FourSizes
        requires within { at ≤ length samples.now }
        requires window { IsWindow samples.now at self.old }
        ensures window { IsWindow samples.now at self.new }
        ensures first { IsSizeAt (drop at (differences None samples.now)) 0 result.first }
        ensures second { IsSizeAt (drop at (differences None samples.now)) 1 result.second }
        ensures third { IsSizeAt (drop at (differences None samples.now)) 2 result.third }
        ensures fourth { IsSizeAt (drop at (differences None samples.now)) 3 result.fourth }
    {
        if let Some(place) = self.place_of(samples, at) {
            return FourSizes {
                first: self.sizes[place],
                second: self.sizes[place + 1],
                third: self.sizes[place + 2],
                fourth: self.sizes[place + 3],
            };
        }
        FourSizes {
            first: size_at(samples, at),
            second: size_at(samples, at + 1),
            third: size_at(samples, at + 2),
            fourth: size_at(samples, at + 3),
        }
    }
}
