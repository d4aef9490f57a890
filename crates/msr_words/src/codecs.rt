//! Trackers: whether the samples pushed so far fit one record, for each kind of record.

ghost use Rattle.std.specs.Prelude.{◌≡◌, ℕ, ◌+◌, ◌^◌, ◌<◌, ◌≤◌, ◌↔◌, ◌++◌, ◌∷◌, ℤ, List, [], IsTrue, map};
ghost use Rattle.msr_base.specs.declared.kinds.Kind.{Kind};
ghost use Rattle.msr_base.specs.declared.kinds.Kind.TheVariants.{Steim1, Steim2};
ghost use Rattle.msr_base.specs.Forms.{all_kinds};
ghost use Rattle.msr_base.specs.RecordLength.{words_of};
ghost use Rattle.msr_words.specs.Fit.{Fits, IsInteger, Records, records_of};
ghost use Rattle.msr_base.specs.Kinds.{code_of};
ghost use Rattle.msr_words.specs.Trackers.{FollowsIntegers, FollowsSteim1, FollowsSteim2, integers, width_of};
ghost use Rattle.msr_words.specs.Laws.{TrackerLaws, most_of};
ghost use Rattle.msr_words.specs.Lemmas.KindLaws.{integers_laws, kind_laws};

use crate::counts::{LeastCounts, steim2_capacity};
use crate::kinds::Fitting;
use msr_base::{Kind, Length};
use msr_steim::fits_bits;
use std::marker::Model;

/// A tracker of one kind of record says, one sample after another, whether what was pushed so far fits one.
pub trait Codec {
    /// The kind of its records.
    ghost kind: { Kind };

    /// The tracker is as it is after that run, of samples with their differences, was pushed, for these records.
    ghost follows: { Records → List (ℤ × ℤ) → Self → Type 0 };

    ghost LOOK_BACK: { ℕ };

    /// How many starts before a cut may be needed: the part after the cut fits with at most
    /// `LOOK_BACK` of the samples before it. If it is 0, each part after a cut fits by itself.
    const LOOK_BACK: usize;

    /// A tracker that nothing was pushed to.
    fn start(record_length: Length) -> Self
        ensures { follows (records_of (all_kinds record_length)) [] result };

    /// Whether all that was pushed, with this sample and its difference, fits. After a false it answers false.
    fn push(&mut self, sample: i32, diff: i64) -> bool
        ensures { (records : Records) (run : List (ℤ × ℤ)) → follows records run self.old
            → follows records (run ++ (sample, diff) ∷ []) self.new × (IsTrue result
            ↔ Fits kind records.bytes (run ++ (sample, diff) ∷ [])) };

    /// The number of the encoding of its records.
    fn code(&self) -> u8
        ensures { result ≡ code_of kind };

    /// A prefix of what fits fits, and the part after a cut with at most `LOOK_BACK` samples before it, three at most;
    /// an empty run fits, and no run of more samples than a record has does.
    ghost laws: { TrackerLaws LOOK_BACK
        (λ records. most_of kind records.bytes) (λ records. Fits kind records.bytes) };
}

/// The tracker of integers of 16 bits, of 24, or else of 32.
#[derive(Clone, Copy, PartialEq, Eq)]
pub struct Integers<const BITS: u32> {
    left: usize,
    fits: bool,
}

impl<const BITS: u32> Model for Integers<BITS> {
    ghost use Rattle.msr_words.specs.Trackers.{IntegersSoFar};

    ghost Value = { IntegersSoFar };

    ghost view = { λ it. record { left = it.left; fits = it.fits } };

    ghost inverse = { λ it. record { left = it.left; fits = it.fits } };
}

/// The tracker of 16-bit integers.
pub type Int16 = Integers<16>;

/// The tracker of 24-bit integers.
pub type Int24 = Integers<24>;

/// The tracker of 32-bit integers.
pub type Int32 = Integers<32>;

/// The kind of integers of 16 bits, of 24, or else of 32.
fn integers_of(bits: u32) -> Kind
    ensures { result ≡ integers (width_of bits) }
{
    match bits {
        16 => Kind::Int16,
        24 => Kind::Int24,
        _ => Kind::Int32,
    }
}

/// Whether a sample is an integer of 16 bits, or of 24; of any other width each sample is one.
fn is_integer(sample: i32, bits: u32) -> bool
    ensures { IsTrue result ↔ IsInteger (width_of bits) sample }
{
    match bits {
        16 => fits_bits(i64::from(sample), 16),
        24 => fits_bits(i64::from(sample), 24),
        _ => true,
    }
}

/// Whether a sample is taken after others that fit, if there is room for `left` more.
fn is_taken(sample: i32, bits: u32, left: usize, fits: bool) -> bool
    ensures { IsTrue result ↔ IsTrue fits × (0 < left) × IsInteger (width_of bits) sample }
{
    fits && left > 0 && is_integer(sample, bits)
}

impl<const BITS: u32> Codec for Integers<BITS> {
    ghost kind = { integers (width_of BITS) };

    ghost follows = { λ records. FollowsIntegers (integers (width_of BITS)) records.bytes };

    ghost LOOK_BACK = { 0 };

    const LOOK_BACK: usize = 0;

    ghost laws = { integers_laws (width_of BITS) };

    fn start(record_length: Length) -> Self {
        Integers {
            left: integers_of(BITS).most(record_length),
            fits: true,
        }
    }

    fn push(&mut self, sample: i32, _diff: i64) -> bool {
        if !is_taken(sample, BITS, self.left, self.fits) {
            self.fits = false;
            return false;
        }
        self.left -= 1;
        true
    }

    fn code(&self) -> u8 {
        integers_of(BITS).code()
    }
}

/// The tracker of Steim-2: it closes a word when the next difference no longer has room in it.
#[derive(Clone, Copy, PartialEq, Eq)]
pub struct Steim2 {
    /// Words left after the open one.
    left: u32,
    /// Differences in the open word.
    count: u8,
    /// How many differences as large as the greatest of them a word has room for.
    most: u8,
    /// How many samples more a record has at most.
    more: usize,
    fits: bool,
}

impl Model for Steim2 {
    ghost use Rattle.msr_words.specs.Trackers.{Steim2SoFar};

    ghost Value = { Steim2SoFar };

    ghost view = { λ it. record {
      left = it.left;
      count = it.count;
      most = it.most;
      more = it.more;
      fits = it.fits;
    } };

    ghost inverse = { λ it. record {
      left = it.left;
      count = it.count;
      most = it.most;
      more = it.more;
      fits = it.fits;
    } };
}

/// How many words one difference more opens: 0 if it stays in the open word, which has room for `most`, else 1.
fn words_opened(count: u8, most: u8) -> u32
    ensures stays { count < most → result ≡ 0 }
    ensures opens { most ≤ count → result ≡ 1 }
{
    u32::from(count >= most)
}

/// How many differences the open word has after one more was pushed.
fn count_after(count: u8, most: u8) -> u8
    ensures stays { count < most → result ≡ count + 1 }
    ensures opens { most ≤ count → result ≡ 1 }
{
    if count < most { count + 1 } else { 1 }
}

/// How many differences the open word has room for after one more was pushed.
fn most_after(count: u8, most: u8, capacity: u8) -> u8
    ensures stays { count < most → result ≡ most }
    ensures opens { most ≤ count → result ≡ capacity }
{
    if count < most { most } else { capacity }
}

impl Codec for Steim2 {
    ghost kind = { Steim2 };

    ghost follows = { λ records. FollowsSteim2 records.bytes };

    ghost LOOK_BACK = { 0 };

    const LOOK_BACK: usize = 0;

    ghost laws = { kind_laws Steim2 };

    fn start(record_length: Length) -> Self {
        Steim2 {
            left: record_length.data_words() - 1,
            count: 0,
            most: 7,
            more: Kind::Steim2.most(record_length),
            fits: true,
        }
    }

    fn push(&mut self, _sample: i32, diff: i64) -> bool {
        if !self.fits {
            return false;
        }
        let capacity = steim2_capacity(diff);
        let most = self.most.min(capacity);
        let opened = words_opened(self.count, most);
        if self.more == 0 || self.left < opened || u32::from(capacity) < opened {
            self.fits = false;
            return false;
        }
        self.left -= opened;
        self.more -= 1;
        self.most = most_after(self.count, most, capacity);
        self.count = count_after(self.count, most);
        true
    }

    fn code(&self) -> u8 {
        Kind::Steim2.code()
    }
}

/// The tracker of Steim-1: it keeps the least number of groups, since the largest group first may need more.
#[derive(Clone, Copy, PartialEq, Eq)]
pub struct Steim1 {
    words: u32,
    counts: LeastCounts,
    fits: bool,
}

impl Model for Steim1 {
    ghost use Rattle.std.specs.Prelude.{◌<◌, ◌^◌};
    ghost use Rattle.msr_words.specs.Trackers.{Steim1SoFar};

    ghost Value = { Steim1SoFar };

    ghost view = { λ it. record { words = it.words; counts = it.counts; fits = it.fits } };

    ghost inverse = { λ it. record { words = it.words; counts = it.counts; fits = it.fits } };

    ghost invariant = { λ it. it.words < 2 ^ 31 };
}

impl Codec for Steim1 {
    ghost kind = { Steim1 };

    ghost follows = { λ records run. FollowsSteim1 (words_of records.bytes) (map (λ p. p.1) run) };

    ghost LOOK_BACK = { 1 };

    const LOOK_BACK: usize = 1;

    ghost laws = { kind_laws Steim1 };

    fn start(record_length: Length) -> Self {
        Steim1 {
            words: record_length.data_words(),
            counts: LeastCounts::none(),
            fits: true,
        }
    }

    fn push(&mut self, _sample: i32, diff: i64) -> bool {
        if !self.fits {
            return false;
        }
        self.counts = self.counts.with(diff, self.words);
        self.fits = self.counts.within(self.words);
        self.fits
    }

    fn code(&self) -> u8 {
        Kind::Steim1.code()
    }
}
