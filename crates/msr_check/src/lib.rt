//! Whether a packing and its separators show that the packing is least.
#![tactic(auto)]

mod held;
mod judge;
mod reach;

ghost use Rattle.std.specs.Prelude.{◌≡◌, ◌<◌, ◌≤◌, ◌↔◌, ℕ, length, IsTrue, IsFalse};
ghost use Rattle.msr_base.specs.declared.kinds.Kind.TheVariants.{Steim1, Steim2};
ghost use Rattle.msr_base.specs.Forms.{all_kinds};
ghost use Rattle.msr_base.specs.Kinds.{IsChosen};
ghost use Rattle.msr_words.specs.Fit.{Fits, FitsIn, IsRun, records_of};
ghost use Rattle.msr_words.specs.Bounds.{IsEnd};
ghost use Rattle.msr_words.specs.Laws.{look_back_of};
ghost use Rattle.msr_words.specs.Segment.{run_points};
ghost use Rattle.msr_base.specs.Lengths.{bytes_of};
ghost use Rattle.msr_check.specs.HoldsBoth.{HaveNoRoom, HoldsBoth, SteimHolds};
ghost use Rattle.msr_check.specs.Known.{IsKnown};
ghost use Rattle.msr_check.specs.Next.{IsNextSeparator};
ghost use Rattle.msr_words.specs.Packing.{NoneHolds, IsPacking, IsSeparating, IsLeast};

use crate::judge::{ends_sound, followed_by};
use crate::reach::{Known, is_of_steim2, known_end, meets_narrow};
pub use judge::Judge;
use msr_base::{Form, Kind, Length};
use msr_words::{
    Fitting, Run, are_narrow, begins_with_four, count_halves, count_wide, run_fits, steim1_reach,
};

/// Whether some run of that kind, which the form has, holds both samples. A part after a cut fits such a kind by itself,
/// so it is enough to try the run from the first to the second.
fn holds_both(
    kind: Kind,
    samples: &[i32],
    form: Form,
    first: usize,
    second: usize,
    known: Known,
) -> bool
    requires alone { look_back_of kind ≡ 0 }
    requires known { IsKnown (bytes_of form.length) samples.now known }
    requires order { first < second }
    requires within { second < length samples.now }
    ensures { IsTrue result ↔ HoldsBoth kind (records_of form) samples.now first second }
{
    fits(kind, samples, first, second + 1, form, known)
}

/// The greatest end of a run of Steim-1 from `start` on.
fn steim1_end(samples: &[i32], record_length: Length, start: usize, known: Known) -> usize
    requires within { start ≤ length samples.now }
    requires known { IsKnown (bytes_of record_length) samples.now known }
    ensures { IsEnd Steim1 (bytes_of record_length) samples.now start result }
{
    match known_end(samples, record_length, Kind::Steim1, start, known) {
        Some(end) => end,
        None => steim1_reach(samples, record_length, start),
    }
}

/// Whether some run of Steim-1 holds both samples. One that starts before the first of them has to be tried only if its
/// first difference shares a word with three others.
fn steim1_holds_both(samples: &[i32], form: Form, first: usize, second: usize, known: Known) -> bool
    requires known { IsKnown (bytes_of form.length) samples.now known }
    requires chosen { IsChosen form.kinds Steim1 }
    requires order { first < second }
    requires within { second < length samples.now }
    ensures { IsTrue result ↔ HoldsBoth Steim1 (records_of form) samples.now first second }
{
    if second < steim1_end(samples, form.length, first, known) {
        return true;
    }
    if first == 0 || !begins_with_four(samples, first - 1) {
        return false;
    }
    second < steim1_reach(samples, form.length, first - 1)
}

/// Whether no record of Steim-1 holds both samples, given that none of Steim-2 does: there are too many, or each of
/// their differences has as much room in Steim-2, which how far that reaches may tell. The contract promises nothing if
/// the answer is `false`.
fn steim1_is_short(samples: &[i32], form: Form, first: usize, second: usize, known: Known) -> bool
    requires known { IsKnown (bytes_of form.length) samples.now known }
    requires none { HoldsBoth Steim2 (records_of form) samples.now first second → ⊥ }
    requires order { first < second }
    requires within { second < length samples.now }
    ensures short { IsTrue result → HoldsBoth Steim1 (records_of form) samples.now first second → ⊥ }
    ensures chosen { IsFalse result → IsChosen form.kinds Steim1 }
{
    if !form.kinds.contains(Kind::Steim1) || second - first >= Kind::Steim1.most(form.length) {
        return true;
    }
    if !form.kinds.contains(Kind::Steim2) {
        return false;
    }
    if meets_narrow(samples, form.length, first, known) {
        return true;
    }
    are_narrow(samples, first, second + 1)
}

/// Whether no Steim record, of either version, has room for both samples and those between them: there are too many, or
/// too many of their differences are of more than 10 bits. The contract promises nothing if the answer is `false`.
fn steim_has_no_room(samples: &[i32], record_length: Length, first: usize, second: usize) -> bool
    requires order { first < second }
    requires within { second < length samples.now }
    ensures { IsTrue result → HaveNoRoom (bytes_of record_length) samples.now first second }
{
    if second - first >= Kind::Steim2.most(record_length) {
        return true;
    }
    let most = 2 * record_length.data_words();
    second - first > most as usize && count_wide(samples, first, second + 1) > most
}

/// Whether no record of Steim-2 has room for both samples and those between them: their differences take too many halves
/// of words. The contract promises nothing if the answer is `false`.
fn steim2_has_no_room(samples: &[i32], record_length: Length, first: usize, second: usize) -> bool
    requires order { first < second }
    requires within { second < length samples.now }
    ensures { IsTrue result → (s b : ℕ) → s ≤ first → second < b
        → IsRun (Fits Steim2 (bytes_of record_length)) samples.now s b → ⊥ }
{
    let words = record_length.data_words();
    second - first > words as usize
        && second - first < Kind::Steim2.most(record_length)
        && count_halves(samples, first, second + 1) > 2 * words
}

/// Whether some run of Steim-2 holds both samples. If it is known how far Steim-2 reaches, nothing is counted.
fn steim2_holds_both(samples: &[i32], form: Form, first: usize, second: usize, known: Known) -> bool
    requires known { IsKnown (bytes_of form.length) samples.now known }
    requires order { first < second }
    requires within { second < length samples.now }
    ensures { IsTrue result ↔ HoldsBoth Steim2 (records_of form) samples.now first second }
{
    if !is_of_steim2(known) && steim2_has_no_room(samples, form.length, first, second) {
        return false;
    }
    holds_both(Kind::Steim2, samples, form, first, second, known)
}

/// Whether some run of Steim-2 or Steim-1 holds both samples. If it is known how far Steim-2 reaches, nothing is counted.
fn steim_holds_both(samples: &[i32], form: Form, first: usize, second: usize, known: Known) -> bool
    requires known { IsKnown (bytes_of form.length) samples.now known }
    requires order { first < second }
    requires within { second < length samples.now }
    ensures { IsTrue result ↔ SteimHolds (records_of form) samples.now first second }
{
    if !is_of_steim2(known) && steim_has_no_room(samples, form.length, first, second) {
        return false;
    }
    if steim2_holds_both(samples, form, first, second, known) {
        return true;
    }
    if steim1_is_short(samples, form, first, second, known) {
        return false;
    }
    steim1_holds_both(samples, form, first, second, known)
}

/// Whether the first sample stands before the second, and no run of any kind that fits holds both.
fn none_between(samples: &[i32], form: Form, first: u64, second: u64, known: Known) -> bool
    requires known { IsKnown (bytes_of form.length) samples.now known }
    requires within { second < length samples.now }
    ensures { IsTrue result ↔ (first < second) × NoneHolds (records_of form) samples.now first second }
{
    if first >= second {
        return false;
    }
    let first = first as usize;
    let second = second as usize;
    !(holds_both(Kind::Int16, samples, form, first, second, known)
        | holds_both(Kind::Int24, samples, form, first, second, known)
        | holds_both(Kind::Int32, samples, form, first, second, known)
        | steim_holds_both(samples, form, first, second, known))
}

/// Whether the separator at that place is a sample of the segment, after the one before it, and no run that fits holds
/// both.
fn is_next(samples: &[i32], form: Form, separators: &[u64], i: usize) -> bool
    requires { i < length separators.now }
    ensures { IsTrue result ↔ IsNextSeparator (records_of form) samples.now separators.now i }
{
    let separator = separators[i];
    if separator >= samples.len() as u64 {
        return false;
    }
    i == 0 || none_between(samples, form, separators[i - 1], separator, None)
}

/// Whether the list is of sample numbers of the segment, strictly rising, and no run that fits a record of that length,
/// of any kind, holds two of them.
pub fn separates(samples: &[i32], record_length: Length, separators: &[u64]) -> bool
    ensures { IsTrue result ↔ IsSeparating (records_of (all_kinds record_length)) samples.now separators.now }
{
    separates_in(samples, Form::all_kinds(record_length), separators)
}

/// The same for records of that form.
pub fn separates_in(samples: &[i32], form: Form, separators: &[u64]) -> bool
    ensures { IsTrue result ↔ IsSeparating (records_of form) samples.now separators.now }
{
    for i in 0..separators.len() {
        if !is_next(samples, form, separators, i) {
            return false;
        }
    }
    true
}

/// Whether the samples `start` to `end - 1` fit one record of that kind, which the form has; Steim-1 word by word.
fn fits(kind: Kind, samples: &[i32], start: usize, end: usize, form: Form, known: Known) -> bool
    requires order { start ≤ end }
    requires within { end ≤ length samples.now }
    requires known { IsKnown (bytes_of form.length) samples.now known }
    ensures { IsTrue result ↔ FitsIn kind (records_of form) (run_points samples.now start end) }
{
    if let Some(farthest) = known_end(samples, form.length, kind, start, known) {
        return form.kinds.contains(kind) && end <= farthest;
    }
    match kind {
        Kind::Steim1 => {
            form.kinds.contains(kind) && end <= steim1_reach(samples, form.length, start)
        }
        _ => run_fits(kind, samples, start, end, form),
    }
}

/// Whether the run is not empty, lies in the segment, and fits a record of its kind, which the form has.
fn is_run(samples: &[i32], form: Form, run: &Run, known: Known) -> bool
    requires known { IsKnown (bytes_of form.length) samples.now known }
    ensures { IsTrue result ↔ (run.now.start < run.now.end)
        × IsRun (FitsIn run.now.kind (records_of form)) samples.now run.now.start run.now.end }
{
    run.start < run.end
        && run.end <= samples.len() as u64
        && fits(
            run.kind,
            samples,
            run.start as usize,
            run.end as usize,
            form,
            known,
        )
}

/// Whether the runs are a packing and the list is separating, by the steps of a judge over the samples where they stand.
fn is_shown(samples: &[i32], form: Form, runs: &[Run], separators: &[u64]) -> bool
    requires { length runs.now ≡ length separators.now }
    ensures { IsTrue result ↔ IsPacking (records_of form) samples.now runs.now × IsSeparating (records_of form) samples.now separators.now }
{
    let mut at: usize = 0;
    let mut last = None;
    for i in 0..runs.len() {
        let run = &runs[i];
        if run.start != at as u64 || run.end <= run.start || run.end > samples.len() as u64 {
            return false;
        }
        let held = &samples[..run.end as usize];
        let Some(next) = followed_by(held, form, last, at, run.kind, separators[i]) else {
            return false;
        };
        last = Some(next);
        at = run.end as usize;
    }
    at == samples.len() && ends_sound(samples, form, last)
}

/// Whether the runs are a packing into records of that length, of any kinds, the list is separating, and both have the
/// same size; if so, the packing is least.
pub fn shows_least(samples: &[i32], record_length: Length, runs: &[Run], separators: &[u64]) -> bool
    ensures exact { IsTrue result ↔ IsPacking (records_of (all_kinds record_length)) samples.now runs.now
        × IsSeparating (records_of (all_kinds record_length)) samples.now separators.now
        × (length runs.now ≡ length separators.now) }
    ensures least { IsTrue result → IsLeast (records_of (all_kinds record_length)) samples.now runs.now }
{
    shows_least_in(samples, Form::all_kinds(record_length), runs, separators)
}

/// The same for records of that form.
pub fn shows_least_in(samples: &[i32], form: Form, runs: &[Run], separators: &[u64]) -> bool
    ensures exact { IsTrue result ↔ IsPacking (records_of form) samples.now runs.now
        × IsSeparating (records_of form) samples.now separators.now × (length runs.now ≡ length separators.now) }
    ensures least { IsTrue result → IsLeast (records_of form) samples.now runs.now }
{
    if runs.len() != separators.len() {
        return false;
    }
    is_shown(samples, form, runs, separators)
}
