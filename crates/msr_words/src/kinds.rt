//! Which runs fit a record of a kind.

ghost use Rattle.std.specs.Prelude.{◌≡◌, All, ℕ, ℤ, List, ◌^◌, ◌<◌, ◌≤◌, ◌↔◌, IsTrue, drop, length};
ghost use Rattle.msr_base.specs.Lengths.{bytes_of};
ghost use Rattle.msr_base.specs.declared.storage.Version.TheVariants.{One, Two};
ghost use Rattle.msr_base.specs.declared.kinds.Kind.TheVariants.{Steim1 as FirstSteim, Steim2 as SecondSteim};
ghost use Rattle.msr_words.specs.Segment.{points, run_points, differences, difference_at, difference_from};
ghost use Rattle.msr_words.specs.Division.{CanDivide};
ghost use Rattle.msr_words.specs.Existence.{FirstKindExists, FittingIsDecided};
ghost use Rattle.msr_words.specs.Groups.{IsCapacity, IsLongestGroup};
ghost use Rattle.msr_words.specs.Laws.{DominanceLaw, look_back_of, most_any, most_in, most_of, room_of};
ghost use Rattle.msr_words.specs.Fit.{Fits, FitsAny, FitsIn, IsFirstKind, IsInteger, IsRun, records_of};

use crate::counts::{LeastCounts, magnitude};
use crate::integers::all_of_bits;
use crate::window::Window;
use msr_base::{Form, Kind, Length, Storage, Version, Width};

/// The greatest number of samples that the header of a record can count, in 16 bits.
pub(crate) const MOST_COUNTED: usize = 65_535;

/// What fits a record of a kind.
pub trait Fitting {
    /// How many starts before a cut may be needed.
    ghost look_back: { Self → ℕ };

    /// How many samples a record of that many bytes has at most.
    ghost most: { Self → ℕ → ℕ };

    /// The run fits a record of that many bytes.
    ghost fits: { Self → ℕ → List (ℤ × ℤ) → Type 0 };

    /// How many starts before a cut may be needed when a run of this kind is cut.
    fn look_back(self) -> usize
        ensures { result ≡ look_back self };

    /// How many samples one record of this kind has at most.
    fn most(self, record_length: Length) -> usize
        ensures { result ≡ most self (bytes_of record_length) };

    /// Whether the run fits one record of this kind; `before` is the sample before it, `None` at a segment's start.
    fn fits(self, before: Option<i32>, run: &[i32], record_length: Length) -> bool
        ensures { IsTrue result ↔ fits self (bytes_of record_length) (points before run.now) };
}

impl Fitting for Kind {
    ghost look_back = { look_back_of };

    ghost most = { most_of };

    ghost fits = { Fits };

    fn look_back(self) -> usize {
        match self.storage() {
            Storage::Frames(Version::One) => 1,
            Storage::Frames(Version::Two) | Storage::Integers(_) => 0,
        }
    }

    fn most(self, record_length: Length) -> usize {
        room_of(self.storage(), record_length).min(MOST_COUNTED)
    }

    fn fits(self, before: Option<i32>, run: &[i32], record_length: Length) -> bool {
        if run.len() > self.most(record_length) {
            return false;
        }
        match self.storage() {
            Storage::Integers(width) => are_integers(run, width),
            Storage::Frames(Version::One) => fits_steim1(before, run, record_length.data_words()),
            Storage::Frames(Version::Two) => fits_steim2(before, run, record_length.data_words()),
        }
    }
}

/// For how many samples a record of that length has room at most that stores them so.
fn room_of(storage: Storage, record_length: Length) -> usize
    ensures { result ≡ room_of storage (bytes_of record_length) }
{
    match storage {
        Storage::Integers(width) => (record_length.bytes() as usize - 64) / width.bytes(),
        Storage::Frames(Version::One) => 4 * record_length.data_words() as usize,
        Storage::Frames(Version::Two) => 7 * record_length.data_words() as usize,
    }
}

/// Whether each sample is an integer of that width.
fn are_integers(run: &[i32], width: Width) -> bool
    ensures { IsTrue result ↔ All (IsInteger width) run.now }
{
    match width {
        Width::Two => all_of_bits(run, 16),
        Width::Three => all_of_bits(run, 24),
        Width::Four => true,
    }
}

/// Tells whether the differences of the run, the first of them from `before`, can be divided into
/// at most `words` Steim-1 groups. It stops when the differences up to one cannot.
fn fits_steim1(before: Option<i32>, run: &[i32], words: u32) -> bool
    requires { words < 2 ^ 31 }
    ensures { IsTrue result ↔ CanDivide One words (differences before run.now) }
{
    let mut counts = LeastCounts::none();
    for at in 0..run.len() {
        counts = counts.with(difference_after(before, run, at), words);
        if !counts.within(words) {
            return false;
        }
    }
    true
}

/// What `steim2_capacity` gives, by comparisons that branch: this is called for few differences.
fn tested_capacity(diff: i64) -> u8
    ensures { IsCapacity diff result }
{
    let size = magnitude(diff);
    if size < 128 {
        if size < 16 {
            return if size < 8 { 7 } else { 6 };
        }
        return if size < 32 { 5 } else { 4 };
    }
    if size < 16_384 {
        return if size < 512 { 3 } else { 2 };
    }
    if size < 536_870_912 { 1 } else { 0 }
}

/// How many differences of the run, from this one on, stand together in a Steim-2 word, as many as can.
pub fn longest_group(before: Option<i32>, run: &[i32], at: usize) -> usize
    requires { at ≤ length run.now }
    ensures { IsLongestGroup (drop at (differences before run.now)) result }
{
    let mut most = 7;
    for next in at..run.len() {
        most = tested_capacity(difference_after(before, run, next)).min(most);
        if next - at >= usize::from(most) {
            return next - at;
        }
    }
    run.len() - at
}

/// Tells whether the differences of the run can be divided into at most `words` Steim-2 groups.
/// Each part of a group is a group, so it is enough to take the longest one from the start on.
fn fits_steim2(before: Option<i32>, run: &[i32], words: u32) -> bool
    ensures { IsTrue result ↔ CanDivide Two words (differences before run.now) }
{
    let mut window = Window::new();
    let mut at = 0;
    for _used in 0..words {
        let count = window.longest_steim2_group(before, run, at);
        if count == 0 {
            return at == run.len();
        }
        at += count;
    }
    at == run.len()
}

/// The difference of a sample of a run from the one before it.
#[inline]
pub fn difference_after(before: Option<i32>, run: &[i32], at: usize) -> i64
    requires { at < length run.now }
    ensures { result ≡ difference_from before run.now at }
{
    if at > 0 {
        return difference(run, at);
    }
    match before {
        Some(before) => run[0] as i64 - before as i64,
        None => 0,
    }
}

/// How many samples a record of that kind has at most; none if the form has no such records.
fn most_in(kind: Kind, form: Form) -> usize
    ensures { result ≡ most_in kind (records_of form) }
{
    if form.kinds.contains(kind) {
        kind.most(form.length)
    } else {
        0
    }
}

/// How many samples a record of that form has at most.
pub fn longest_run(form: Form) -> usize
    ensures { result ≡ most_any (records_of form) }
{
    let steim = most_in(Kind::Steim2, form).max(most_in(Kind::Steim1, form));
    let wide = most_in(Kind::Int24, form).max(most_in(Kind::Int32, form));
    steim.max(most_in(Kind::Int16, form).max(wide))
}

/// Whether the samples `start` to `end - 1` of a segment fit one record of that kind, and the form has such records.
pub fn run_fits(kind: Kind, samples: &[i32], start: usize, end: usize, form: Form) -> bool
    requires order { start ≤ end }
    requires within { end ≤ length samples.now }
    ensures { IsTrue result ↔ FitsIn kind (records_of form) (run_points samples.now start end) }
{
    if !form.kinds.contains(kind) {
        return false;
    }
    if start == 0 {
        kind.fits(None, &samples[..end], form.length)
    } else {
        kind.fits(Some(samples[start - 1]), &samples[start..end], form.length)
    }
}

/// The first kind, in the order in which they are tried, that the samples `start` to `end - 1` of the segment fit.
pub fn first_kind(samples: &[i32], start: usize, end: usize, form: Form) -> Kind
    requires { IsRun (FitsAny (records_of form)) samples.now start end }
    ensures { IsFirstKind (records_of form) (run_points samples.now start end) result }
{
    if run_fits(Kind::Steim2, samples, start, end, form) {
        Kind::Steim2
    } else if run_fits(Kind::Steim1, samples, start, end, form) {
        Kind::Steim1
    } else if run_fits(Kind::Int16, samples, start, end, form) {
        Kind::Int16
    } else if run_fits(Kind::Int24, samples, start, end, form) {
        Kind::Int24
    } else {
        Kind::Int32
    }
}

/// The samples `start` to `end - 1` of a segment, in one record of that kind.
#[derive(Clone, Copy, PartialEq, Eq)]
pub struct Run {
    pub start: u64,
    pub end: u64,
    pub kind: Kind,
}

/// The difference of a sample of a segment from the one before it; that of the first is 0.
#[inline]
pub fn difference(samples: &[i32], at: usize) -> i64
    requires { at < length samples.now }
    ensures { result ≡ difference_at samples.now at }
{
    if at == 0 {
        0
    } else {
        samples[at] as i64 - samples[at - 1] as i64
    }
}

/// It is decided whether a run fits a record, and one that does has a kind that is tried first.
pub fn fitting_is_decided()
    ensures any { FittingIsDecided }
    ensures first { FirstKindExists }
{}

/// If no difference after a cut is of exactly 16 bits, or of more than 30, the part after the cut fits
/// Steim-2 if the run fits Steim-1: each group of Steim-1 is then one of Steim-2.
pub fn steim2_dominates()
    ensures { (bytes : ℕ) → DominanceLaw (Fits FirstSteim bytes) (Fits SecondSteim bytes) }
{}
