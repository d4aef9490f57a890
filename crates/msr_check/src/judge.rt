//! Judging the runs of a segment one after another, with few of its samples at hand.

ghost use Rattle.std.specs.Prelude.{◌≡◌, ◌↔◌, ◌-◌, ◌+◌, ◌<◌, ◌≤◌, ◌^◌, ℕ, ℤ, List, [], ◌∷◌, ◌++◌, length, slice_index, IsTrue, MatchOption, OnErr, OnOk};
ghost use Rattle.msr_words.specs.Fit.{Records, records_of};
ghost use Rattle.msr_words.specs.Packing.{IsLeast};
ghost use Rattle.msr_words.specs.declared.kinds.Run.{Run as WordRun};
ghost use Rattle.msr_check.specs.Judged.{AreShown, FollowsLast, IsComplete, IsFollowed, IsSoundLast, Judges, becomes_last, next_run, samples_after, without};

use crate::held::Held;
use crate::reach::reach_of;
use crate::{is_run, none_between};
use msr_base::{Form, Kind};
use msr_words::Run;
use std::alloc::{AllocError, Global};
use std::marker::Model;

/// The run that came last, with its separator. Places are counted from the first sample that is held.
#[derive(Clone, Copy)]
pub(crate) struct LastRun {
    pub kind: Kind,
    pub start: usize,
    pub separator: usize,
    /// How many samples of the segment stand before the run.
    pub number: u64,
}

/// The same if the first `count` samples are held no more.
fn without(last: LastRun, count: usize) -> LastRun
    ensures { result ≡ without last count }
{
    LastRun {
        kind: last.kind,
        start: last.start.saturating_sub(count),
        separator: last.separator.saturating_sub(count),
        number: last.number,
    }
}

/// How many samples there are, of which that many are held: `None` if no separator is as large.
fn number_after(last: Option<LastRun>, held: usize) -> Option<u64>
    ensures { MatchOption result (2 ^ 64 ≤ samples_after last held) (λ number. number ≡ samples_after last held) }
{
    let Some(last) = last else {
        return Some(0);
    };
    last.number
        .checked_add(held.saturating_sub(last.start) as u64)
}

/// Whether the last run ends soundly where the next one starts, and no run that fits holds the separators of both.
fn is_followed(held: &[i32], form: Form, last: Option<LastRun>, end: usize, next: usize) -> bool
    requires { next < length held.now }
    ensures { IsTrue result ↔ IsFollowed (records_of form) held.now last end next }
{
    let Some(last) = last else {
        return true;
    };
    let run = Run {
        start: last.start as u64,
        end: end as u64,
        kind: last.kind,
    };
    let known = reach_of(held, form.length, &run);
    is_run(held, form, &run, known)
        && none_between(held, form, last.separator as u64, next as u64, known)
}

/// One step of judging: the run that starts at `end` as the last one, if its separator follows on the one before.
pub(crate) fn followed_by(
    held: &[i32],
    form: Form,
    last: Option<LastRun>,
    end: usize,
    kind: Kind,
    separator: u64,
) -> Option<LastRun>
    requires { end ≤ length held.now }
    ensures { MatchOption result
        (FollowsLast (records_of form) held.now last end separator → ⊥)
        (λ next. FollowsLast (records_of form) held.now last end separator
        × (next ≡ becomes_last last end separator kind)) }
{
    let number = number_after(last, end)?;
    if separator < number || separator - number >= (held.len() - end) as u64 {
        return None;
    }
    let next = end + (separator - number) as usize;
    if !is_followed(held, form, last, end, next) {
        return None;
    }
    Some(LastRun {
        kind,
        start: end,
        separator: next,
        number,
    })
}

/// Whether the last run is sound, if no sample follows.
pub(crate) fn ends_sound(held: &[i32], form: Form, last: Option<LastRun>) -> bool
    ensures { IsTrue result ↔ IsSoundLast (records_of form) held.now last (length held.now) }
{
    let Some(last) = last else {
        return true;
    };
    let run = Run {
        start: last.start as u64,
        end: held.len() as u64,
        kind: last.kind,
    };
    is_run(held, form, &run, None)
}

/// Whether there are so many samples, of which that many are held.
fn are_as_many(last: Option<LastRun>, held: usize, number: u64) -> bool
    ensures { IsTrue result ↔ (samples_after last held ≡ number) }
{
    match number_after(last, held) {
        Some(found) => found == number,
        None => false,
    }
}

/// Judges the runs of one segment, which come one after another with their samples, beside the segment's separators:
/// at the end, whether the runs are a packing and the separators show that it is least. It holds the samples of two runs
/// and two more at most, and none once a run or a separator failed.
#[derive(Drop)]
pub struct Judge {
    held: Held,
    last: Option<LastRun>,
    count: usize,
    holds: bool,
}

impl Model for Judge {
    ghost use Rattle.msr_check.specs.Judged.{Judged};

    ghost Value = { Judged };

    ghost view = { λ j. record { held = j.held; last = j.last; count = j.count; holds = j.holds } };
}

impl Judge {
    /// A judge of a segment that no run of came yet. It takes no memory.
    pub fn new(alloc: Global) -> Judge
        ensures { (records : Records) (separators : List ℕ) → Judges records [] [] separators result }
    {
        Judge {
            held: Held::new(alloc),
            last: None,
            count: 0,
            holds: true,
        }
    }

    /// Begins with the next segment, in the same memory.
    pub fn begin(&mut self)
        ensures { (records : Records) (separators : List ℕ) → Judges records [] [] separators self.new }
    {
        self.held.clear();
        self.last = None;
        self.count = 0;
        self.holds = true;
    }

    /// What follows the runs so far, if their samples with those of the next run are at hand.
    fn next(&self, end: usize, kind: Kind, form: Form, separators: &[u64]) -> Option<LastRun>
        requires { end ≤ length self.now.held }
        ensures { MatchOption result
            (self.now.count < length separators.now
            → FollowsLast (records_of form) self.now.held self.now.last end (slice_index separators.now self.now.count)
            → ⊥)
            (λ next. (self.now.count < length separators.now)
            × FollowsLast (records_of form) self.now.held self.now.last end (slice_index separators.now self.now.count)
            × (next ≡ becomes_last self.now.last end (slice_index separators.now self.now.count) kind)) }
    {
        if self.count >= separators.len() {
            return None;
        }
        followed_by(
            self.held.as_slice(),
            form,
            self.last,
            end,
            kind,
            separators[self.count],
        )
    }

    /// Takes the next run, of these samples. If memory is refused, it was not taken, and the judge is as it was.
    pub fn push(
        &mut self,
        samples: &[i32],
        kind: Kind,
        form: Form,
        separators: &[u64],
    ) -> Result<(), AllocError>
        ensures taken { OnOk result ((before : List ℤ) (runs : List WordRun)
            → Judges (records_of form) before runs separators.now self.old
            → Judges (records_of form) (before ++ samples.now) (runs ++ next_run before samples.now kind ∷ [])
            separators.now self.new) }
        ensures unchanged { OnErr result (self.new ≡ self.old) }
    {
        if !self.holds {
            return Ok(());
        }
        let end = self.held.as_slice().len();
        self.held.extend(samples)?;
        match self.next(end, kind, form, separators) {
            Some(next) => {
                let forgotten = end.saturating_sub(2);
                self.held.forget(forgotten);
                self.last = Some(without(next, forgotten));
                self.count += 1;
            }
            None => {
                self.holds = false;
                self.held.clear();
            }
        }
        Ok(())
    }

    /// Whether the runs are a packing, the separators are separating, both are as many, and there are that many samples:
    /// then the packing is least.
    pub fn shows_least(&self, form: Form, separators: &[u64], number: u64) -> bool
        ensures exact { (samples : List ℤ) (runs : List WordRun)
            → Judges (records_of form) samples runs separators.now self.now
            → IsTrue result ↔ AreShown (records_of form) samples runs separators.now number }
        ensures least { (samples : List ℤ) (runs : List WordRun)
            → Judges (records_of form) samples runs separators.now self.now
            → IsTrue result → IsLeast (records_of form) samples runs }
    {
        self.ends(form, separators, number)
    }

    /// What it says at the end.
    fn ends(&self, form: Form, separators: &[u64], number: u64) -> bool
        ensures { IsTrue result ↔ IsComplete (records_of form) self.now separators.now number }
    {
        self.holds
            && self.count == separators.len()
            && are_as_many(self.last, self.held.as_slice().len(), number)
            && ends_sound(self.held.as_slice(), form, self.last)
    }
}
