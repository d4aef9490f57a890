//! How far a Steim-2 record reaches, with the words of its groups.

ghost use Rattle.std.specs.Prelude.{◌≤◌, IsTrue, length, map, take};
ghost use Rattle.msr_base.specs.declared.kinds.Kind.TheVariants.{Steim2 as SecondSteim};
ghost use Rattle.msr_base.specs.Lengths.{bytes_of};
ghost use Rattle.msr_base.specs.RecordLength.{words_of};
ghost use Rattle.msr_words.specs.Bounds.{AreNarrowThrough, IsEnd};
ghost use Rattle.msr_words.specs.Groups.{AreGroupSizes, AreGroupSizesIfKnown};
ghost use Rattle.msr_words.specs.Segment.{run_points};
ghost use Rattle.msr_filling.specs.GroupWords.{AreGroupWords};

use crate::filling::steim2_word;
use msr_base::{Kind, Length};
use msr_words::{Fitting, Steim2Reach, Window, steim2_greedy_reach, steim2_reach};

/// As many of the longest groups as there are words, of no more samples than a record has. The size and the word of
/// each are told.
fn walk_with_words(
    samples: &[i32],
    record_length: Length,
    start: usize,
    sizes: &mut [u8],
    words: &mut [u32],
) -> Steim2Reach
    requires within { start ≤ length samples.now }
    requires room_of_sizes { words_of (bytes_of record_length) ≤ length sizes.old }
    requires room_of_words { words_of (bytes_of record_length) ≤ length words.old }
    ensures end { IsEnd SecondSteim (bytes_of record_length) samples.now start result.end }
    ensures narrow { IsTrue result.narrow → AreNarrowThrough samples.now start result.end }
    ensures room_of_sizes { result.groups ≤ length sizes.new }
    ensures room_of_words { result.groups ≤ length words.new }
    ensures sizes { AreGroupSizes
        (map (λ p. p.1) (run_points samples.now start result.end)) (take result.groups sizes.new) }
    ensures words { AreGroupWords (map (λ p. p.1) (run_points samples.now start result.end))
        (take result.groups sizes.new) (take result.groups words.new) }
{
    steim2_greedy_reach();
    let latest = start + Kind::Steim2.most(record_length).min(samples.len() - start);
    let seen = &samples[..latest];
    let number = record_length.data_words() as usize;
    let mut window = Window::new();
    let mut at = start;
    let mut shared = true;
    for group in 0..number {
        let next = steim2_word(None, seen, &mut window, at);
        if next.size < 2 {
            if next.size == 0 {
                return Steim2Reach::of_walk(samples, at, group, shared);
            }
            shared = false;
        }
        sizes[group] = next.size as u8;
        words[group] = next.word;
        at += next.size;
    }
    Steim2Reach::of_walk(samples, at, number, shared)
}

/// How far Steim-2 reaches from `start` on, as `steim2_reach` finds it. The sizes and the words of the groups of that
/// run are told, one after another, if there is room for as many of each as a record has data words.
pub fn steim2_words(
    samples: &[i32],
    record_length: Length,
    start: usize,
    sizes: &mut [u8],
    words: &mut [u32],
) -> Steim2Reach
    requires { start ≤ length samples.now }
    ensures end { IsEnd SecondSteim (bytes_of record_length) samples.now start result.end }
    ensures narrow { IsTrue result.narrow → AreNarrowThrough samples.now start result.end }
    ensures room_of_sizes { result.groups ≤ length sizes.new }
    ensures room_of_words { result.groups ≤ length words.new }
    ensures known { AreGroupSizesIfKnown
        (map (λ p. p.1) (run_points samples.now start result.end)) (take result.groups sizes.new) }
    ensures told { words_of (bytes_of record_length) ≤ length sizes.old
        → words_of (bytes_of record_length) ≤ length words.old
        → AreGroupSizes (map (λ p. p.1) (run_points samples.now start result.end)) (take result.groups sizes.new) }
    ensures words { AreGroupWords (map (λ p. p.1) (run_points samples.now start result.end))
        (take result.groups sizes.new) (take result.groups words.new) }
{
    let number = record_length.data_words() as usize;
    if sizes.len() >= number && words.len() >= number {
        return walk_with_words(samples, record_length, start, sizes, words);
    }
    steim2_reach(samples, record_length, start)
}
