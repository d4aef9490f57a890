//! One record more: how far a record reaches that starts at or before a frontier.

ghost use Rattle.std.specs.Prelude.{◌≡◌, ℕ, ◌+◌, ◌<◌, ◌≤◌, ◌⊎◌, ◌∷◌, [], length, IsTrue, IsFalse, IfSome};
ghost use Rattle.msr_base.specs.declared.kinds.Kind.TheVariants.{Int32 as Integers32, Steim1 as FirstSteim, Steim2 as SecondSteim};
ghost use Rattle.msr_words.specs.Bounds.{AreIntegers, AreNarrowThrough, IsEnd};
ghost use Rattle.msr_base.specs.Kinds.{IsChosen};
ghost use Rattle.msr_base.specs.Lengths.{bytes_of};
ghost use Rattle.msr_words.specs.Fit.{Fits, FitsIn, IsRun, records_of};
ghost use Rattle.msr_words.specs.Laws.{look_back_of};
ghost use Rattle.msr_packer.specs.Steps.{AreEndsAmong, HaveSizes, IsBetter, IsEndIn, IsFound, IsSteim1Step, IsStepAmong, NonePast, NotLess, longer_kinds};

use msr_base::{Form, Kind, Length};
use msr_filling::steim2_words;
use msr_words::{
    Fitting, Steim2Reach, begins_with_four, count_halves, count_wide, leading_of_bits, steim1_reach,
};

/// One record more: it starts at `start`, reaches to `end`, and is of that kind.
#[derive(Clone, Copy)]
pub(crate) struct StepRun {
    pub start: usize,
    pub end: usize,
    pub kind: Kind,
}

impl StepRun {
    /// The step that reaches further; of two that reach as far, the one that starts later.
    fn or(self, other: StepRun) -> StepRun
        ensures one { (result ≡ self) ⊎ ((result ≡ other) × IsBetter other self) }
        ensures first { NotLess result self }
        ensures second { NotLess result other }
    {
        if other.end > self.end || (other.end == self.end && other.start > self.start) {
            other
        } else {
            self
        }
    }
}

/// Ends of runs from a frontier, by their kind. One that is not needed is the frontier itself. The run of Steim-2 has so
/// many `groups`, if they were told, else 0.
#[derive(Clone, Copy)]
pub(crate) struct Ends {
    pub steim2: usize,
    pub steim1: usize,
    pub int16: usize,
    pub int24: usize,
    pub int32: usize,
    pub groups: usize,
}

/// The step with records of Steim-1 alone, and the end of the run of that kind from the frontier itself.
#[derive(Clone, Copy)]
pub(crate) struct Steim1Step {
    pub step: StepRun,
    pub end: usize,
}

/// A step, with the ends that tell the kind of its run when that is cut.
#[derive(Clone, Copy)]
pub(crate) struct StepWithEnds {
    pub step: StepRun,
    pub ends: Ends,
}

/// The greatest end of a run of Steim-2 from the frontier on; the frontier, if the form has no such records. The sizes of
/// its groups are told, and their words, if there is room.
#[inline(always)]
fn steim2_end(
    samples: &[i32],
    form: Form,
    frontier: usize,
    sizes: &mut [u8],
    words: &mut [u32],
) -> Steim2Reach
    requires { frontier ≤ length samples.now }
    ensures end { IsEndIn SecondSteim (records_of form) samples.now frontier result.end }
    ensures chosen { IsTrue result.narrow → IsChosen form.kinds SecondSteim }
    ensures narrow { IsTrue result.narrow → AreNarrowThrough samples.now frontier result.end }
    ensures sizes { HaveSizes samples.now frontier result.end result.groups sizes.new words.new }
{
    if form.kinds.contains(Kind::Steim2) {
        return steim2_words(samples, form.length, frontier, sizes, words);
    }
    Steim2Reach {
        end: frontier,
        groups: 0,
        narrow: false,
    }
}

/// The greatest end of a run of integers of that many bits from `start` on.
fn furthest_integers(
    samples: &[i32],
    record_length: Length,
    start: usize,
    kind: Kind,
    bits: u32,
) -> usize
    requires within { start ≤ length samples.now }
    requires are { AreIntegers kind bits (bytes_of record_length) }
    requires positive { 0 < bits }
    requires small { bits ≤ 32 }
    ensures { IsEnd kind (bytes_of record_length) samples.now start result }
{
    let end = start + kind.most(record_length).min(samples.len() - start);
    start + leading_of_bits(&samples[start..end], bits)
}

/// The end of a run of integers of that many bits from the frontier on; if the form has no such records, or none is long
/// enough to reach past `end`, the frontier.
#[inline(always)]
fn integers_end(
    samples: &[i32],
    form: Form,
    frontier: usize,
    end: usize,
    kind: Kind,
    bits: u32,
) -> usize
    requires order { frontier ≤ end }
    requires within { end ≤ length samples.now }
    requires are { AreIntegers kind bits (bytes_of form.length) }
    requires alone { look_back_of kind ≡ 0 }
    requires positive { 0 < bits }
    requires small { bits ≤ 32 }
    ensures fits { IsRun (Fits kind (bytes_of form.length)) samples.now frontier result }
    ensures chosen { frontier < result → IsChosen form.kinds kind }
    ensures past { NonePast kind (records_of form) samples.now frontier result end }
{
    if !form.kinds.contains(kind) {
        return frontier;
    }
    if end - frontier >= kind.most(form.length) {
        return frontier;
    }
    furthest_integers(samples, form.length, frontier, kind, bits)
}

/// The greatest end of a run of 32-bit integers from the frontier on.
fn int32_end(samples: &[i32], record_length: Length, frontier: usize) -> usize
    requires { frontier ≤ length samples.now }
    ensures { IsEnd Integers32 (bytes_of record_length) samples.now frontier result }
{
    let left = samples.len() - frontier;
    frontier + left.min(Kind::Int32.most(record_length))
}

/// Whether no Steim-1 record that starts at or before the frontier reaches past the end of Steim-2 and close to `end`.
/// It does not if the form has none, if the differences are narrow, nor if there are too many: each takes a quarter of a
/// word at least.
fn steim1_is_short(
    samples: &[i32],
    form: Form,
    frontier: usize,
    reach: Steim2Reach,
    end: usize,
) -> bool
    requires reach { IsEndIn SecondSteim (records_of form) samples.now frontier reach.end }
    requires chosen { IsTrue reach.narrow → IsChosen form.kinds SecondSteim }
    requires narrow { IsTrue reach.narrow → AreNarrowThrough samples.now frontier reach.end }
    requires order { reach.end ≤ end }
    requires within { end ≤ length samples.now }
    ensures short { IsTrue result → (s b : ℕ) → s ≤ frontier
        → IsRun (FitsIn FirstSteim (records_of form)) samples.now s b → (b ≤ reach.end) ⊎ (b + 1 < end) }
    ensures chosen { IsFalse result → IsChosen form.kinds FirstSteim }
{
    if !form.kinds.contains(Kind::Steim1) {
        return true;
    }
    if reach.narrow {
        return true;
    }
    let words = form.length.data_words() as usize;
    end - frontier > 4 * words + 1
}

/// The step from a frontier with records of Steim-1, if the end of its run from there is known. One that starts
/// before the frontier can reach further only if its first difference shares a word with three others.
fn steim1_step(samples: &[i32], form: Form, frontier: usize, end: usize) -> StepRun
    requires within { frontier ≤ length samples.now }
    requires chosen { IsChosen form.kinds FirstSteim }
    requires end { IsEnd FirstSteim (bytes_of form.length) samples.now frontier end }
    ensures { IsStepAmong (FirstSteim ∷ []) (records_of form) samples.now frontier result }
{
    let here = StepRun {
        start: frontier,
        end,
        kind: Kind::Steim1,
    };
    if frontier == 0 {
        return here;
    }
    if !begins_with_four(samples, frontier - 1) {
        return here;
    }
    let before = steim1_reach(samples, form.length, frontier - 1);
    if before > end {
        return StepRun {
            start: frontier - 1,
            end: before,
            kind: Kind::Steim1,
        };
    }
    here
}

/// The step from a frontier with records of Steim-1: the one that is known, else it is found.
fn steim1_unless_known(
    samples: &[i32],
    form: Form,
    frontier: usize,
    known: Option<Steim1Step>,
) -> Steim1Step
    requires within { frontier ≤ length samples.now }
    requires chosen { IsChosen form.kinds FirstSteim }
    requires known { IfSome known (IsSteim1Step (records_of form) samples.now frontier) }
    ensures { IsSteim1Step (records_of form) samples.now frontier result }
{
    match known {
        Some(found) => return found,
        None => {}
    }
    let end = steim1_reach(samples, form.length, frontier);
    Steim1Step {
        step: steim1_step(samples, form, frontier, end),
        end,
    }
}

/// The best of `step`, which is the step with the other kinds, and of those with 24-bit and 32-bit integers, given the
/// ends of the other kinds.
fn with_wide_integers(
    samples: &[i32],
    form: Form,
    frontier: usize,
    step: StepRun,
    ends: Ends,
) -> StepWithEnds
    requires within { frontier ≤ length samples.now }
    requires step { IsStepAmong longer_kinds (records_of form) samples.now frontier step }
    requires ends { AreEndsAmong longer_kinds (records_of form) samples.now frontier step.end ends }
    ensures step { IsFound (records_of form) samples.now frontier result }
    ensures steim2 { result.ends.steim2 ≡ ends.steim2 }
    ensures groups { result.ends.groups ≡ ends.groups }
{
    let reached = ends.steim2.max(ends.steim1).max(ends.int16);
    let int24 = integers_end(samples, form, frontier, reached, Kind::Int24, 24);
    let by_int24 = StepRun {
        start: frontier,
        end: int24,
        kind: Kind::Int24,
    };
    let int32 = int32_end(samples, form.length, frontier);
    let by_int32 = StepRun {
        start: frontier,
        end: int32,
        kind: Kind::Int32,
    };
    StepWithEnds {
        step: step.or(by_int24).or(by_int32),
        ends: Ends {
            steim2: ends.steim2,
            steim1: ends.steim1,
            int16: ends.int16,
            int24,
            int32,
            groups: ends.groups,
        },
    }
}

/// The step from a frontier with records of integers alone, if those of 16 bits, which the form has, reach so far that
/// too many of the differences up to there are of more than 10 bits for a record of differences.
fn integers_alone(samples: &[i32], form: Form, frontier: usize) -> Option<StepWithEnds>
    requires { frontier ≤ length samples.now }
    ensures { IfSome result (λ found. IsFound (records_of form) samples.now frontier found × (found.ends.groups ≡ 0)) }
{
    if !form.kinds.contains(Kind::Int16) {
        return None;
    }
    let int16 = furthest_integers(samples, form.length, frontier, Kind::Int16, 16);
    let most = 2 * form.length.data_words();
    if int16 - frontier <= most as usize + 2 {
        return None;
    }
    if count_wide(samples, frontier, int16 - 1) <= most {
        return None;
    }
    let by_int16 = StepRun {
        start: frontier,
        end: int16,
        kind: Kind::Int16,
    };
    let ends = Ends {
        steim2: frontier,
        steim1: frontier,
        int16,
        int24: frontier,
        int32: frontier,
        groups: 0,
    };
    Some(with_wide_integers(samples, form, frontier, by_int16, ends))
}

/// The step from a frontier without a walk of Steim-2, if Steim-1 reaches so far that the differences up to there take
/// too many halves of words for a record of Steim-2.
fn steim1_without_steim2(
    samples: &[i32],
    form: Form,
    frontier: usize,
    by_steim1: Steim1Step,
) -> Option<StepWithEnds>
    requires within { frontier ≤ length samples.now }
    requires chosen { IsChosen form.kinds FirstSteim }
    requires by_steim1 { IsSteim1Step (records_of form) samples.now frontier by_steim1 }
    ensures { IfSome result (λ found. IsFound (records_of form) samples.now frontier found × (found.ends.groups ≡ 0)) }
{
    let most = 2 * form.length.data_words();
    if by_steim1.end - frontier <= most as usize / 2 + 2 {
        return None;
    }
    if count_halves(samples, frontier, by_steim1.end - 1) <= most {
        return None;
    }
    let int16 = integers_end(samples, form, frontier, by_steim1.end, Kind::Int16, 16);
    let by_int16 = StepRun {
        start: frontier,
        end: int16,
        kind: Kind::Int16,
    };
    let ends = Ends {
        steim2: frontier,
        steim1: by_steim1.end,
        int16,
        int24: frontier,
        int32: frontier,
        groups: 0,
    };
    let best = by_steim1.step.or(by_int16);
    Some(with_wide_integers(samples, form, frontier, best, ends))
}

/// Whether the next differences are so small that a record of Steim-2 is likely, and a walk of Steim-1 would be for nothing.
fn begins_small(samples: &[i32], frontier: usize) -> bool
    requires { frontier ≤ length samples.now }
{
    frontier < samples.len() && begins_with_four(samples, frontier)
}

/// The step from a frontier, which is the same whatever `likely` is: the kind that is tried first if it is Int16 or
/// Steim1. Sizes and words are told if it is Steim2; else they would mostly be those of a run that is written as
/// another kind.
pub(crate) fn next_step(
    samples: &[i32],
    form: Form,
    frontier: usize,
    likely: Kind,
    sizes: &mut [u8],
    words: &mut [u32],
) -> StepWithEnds
    requires { frontier ≤ length samples.now }
    ensures { IsFound (records_of form) samples.now frontier result
        × HaveSizes samples.now frontier result.ends.steim2 result.ends.groups sizes.new words.new }
{
    if likely == Kind::Int16 {
        match integers_alone(samples, form, frontier) {
            Some(found) => return found,
            None => {}
        }
    }
    if likely == Kind::Steim1
        && form.kinds.contains(Kind::Steim1)
        && !begins_small(samples, frontier)
    {
        let by_steim1 = steim1_unless_known(samples, form, frontier, None);
        match steim1_without_steim2(samples, form, frontier, by_steim1) {
            Some(found) => return found,
            None => {}
        }
        return step_from(samples, form, frontier, Some(by_steim1), &mut [], &mut []);
    }
    if likely != Kind::Steim2 {
        return step_from(samples, form, frontier, None, &mut [], &mut []);
    }
    step_from(samples, form, frontier, None, sizes, words)
}

/// The kind of which a run is taken to be as long as nothing is known of its samples: Steim-2, if the form has it.
#[inline(always)]
pub(crate) fn tried_first(form: Form) -> Kind
    ensures chosen { IsChosen form.kinds result }
    ensures first { IsChosen form.kinds SecondSteim → result ≡ SecondSteim }
{
    if form.kinds.contains(Kind::Steim2) {
        Kind::Steim2
    } else {
        Kind::Int32
    }
}

/// The step from a frontier, over all kinds. That of Steim-1 alone may be known.
pub(crate) fn step_from(
    samples: &[i32],
    form: Form,
    frontier: usize,
    known: Option<Steim1Step>,
    sizes: &mut [u8],
    words: &mut [u32],
) -> StepWithEnds
    requires within { frontier ≤ length samples.now }
    requires known { IfSome known (IsSteim1Step (records_of form) samples.now frontier) }
    ensures { IsFound (records_of form) samples.now frontier result
        × HaveSizes samples.now frontier result.ends.steim2 result.ends.groups sizes.new words.new }
{
    let reach = steim2_end(samples, form, frontier, sizes, words);
    let int16 = integers_end(samples, form, frontier, reach.end, Kind::Int16, 16);
    let by_steim2 = StepRun {
        start: frontier,
        end: reach.end,
        kind: tried_first(form),
    };
    let by_int16 = StepRun {
        start: frontier,
        end: int16,
        kind: Kind::Int16,
    };
    let best = by_steim2.or(by_int16);
    let mut ends = Ends {
        steim2: reach.end,
        steim1: frontier,
        int16,
        int24: frontier,
        int32: frontier,
        groups: reach.groups,
    };
    if steim1_is_short(samples, form, frontier, reach, best.end) {
        return with_wide_integers(samples, form, frontier, best, ends);
    }
    let by_steim1 = steim1_unless_known(samples, form, frontier, known);
    ends.steim1 = by_steim1.end;
    with_wide_integers(samples, form, frontier, best.or(by_steim1.step), ends)
}
