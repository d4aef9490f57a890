//! A run that all samples so far fit, with its tracker: while the tracker does not refuse, the step from the frontier
//! is not decided, and need not be looked for.

ghost use Rattle.std.specs.Prelude.{◌≡◌, ℕ, ◌+◌, ◌≤◌, [], length, IfSome, IsNone, MatchOption};
ghost use Rattle.msr_base.specs.Lengths.{bytes_of};
ghost use Rattle.msr_words.specs.Fit.{Fits, FitsIn, IsRun, Records, records_of};
ghost use Rattle.msr_words.specs.Segment.{run_points};
ghost use Rattle.msr_packer.specs.Growing.{FollowsRun, IsDecided, IsGrowing, IsTracked, kind_of_tracker};

use crate::step::{StepWithEnds, next_step, tried_first};
use msr_base::{Form, Kind, Length};
use msr_words::{Codec, Int16, Int24, Int32, Steim1, Steim2, difference};

/// A tracker of one of the kinds.
#[derive(Clone, Copy)]
pub(crate) enum Tracker {
    Steim2(Steim2),
    Steim1(Steim1),
    Int16(Int16),
    Int24(Int24),
    Int32(Int32),
}

/// The tracker after the samples from one on, if it takes them all.
fn all_taken<C: Codec + Drop>(mut tracker: C, samples: &[i32], from: usize) -> Option<C>
    requires { from ≤ length samples.now }
    ensures { (records : Records) (start : ℕ) → start ≤ from
        → C.follows records (run_points samples.now start from) tracker
        → Fits C.kind records.bytes (run_points samples.now start from)
        → MatchOption result
        (Fits C.kind records.bytes (run_points samples.now start (length samples.now)) → ⊥)
        (λ t. C.follows records (run_points samples.now start (length samples.now)) t
        × Fits C.kind records.bytes (run_points samples.now start (length samples.now))) }
{
    for at in from..samples.len() {
        if !tracker.push(samples[at], difference(samples, at)) {
            return None;
        }
    }
    Some(tracker)
}

impl Tracker {
    /// A tracker that nothing was pushed to.
    fn new(kind: Kind, record_length: Length) -> Tracker
        ensures follows { FollowsRun (bytes_of record_length) [] result }
        ensures kind { kind_of_tracker result ≡ kind }
    {
        match kind {
            Kind::Steim2 => Tracker::Steim2(Steim2::start(record_length)),
            Kind::Steim1 => Tracker::Steim1(Steim1::start(record_length)),
            Kind::Int16 => Tracker::Int16(Int16::start(record_length)),
            Kind::Int24 => Tracker::Int24(Int24::start(record_length)),
            Kind::Int32 => Tracker::Int32(Int32::start(record_length)),
        }
    }

    /// The tracker after the samples from one on, if it takes them all.
    fn after(&self, samples: &[i32], from: usize) -> Option<Tracker>
        requires { from ≤ length samples.now }
        ensures { (records : Records) (start : ℕ) → start ≤ from → IsTracked records samples.now start from self.now
            → MatchOption result
            (Fits (kind_of_tracker self.now) records.bytes (run_points samples.now start (length samples.now)) → ⊥)
            (IsTracked records samples.now start (length samples.now)) }
    {
        match self {
            Tracker::Steim2(tracker) => Some(Tracker::Steim2(all_taken(*tracker, samples, from)?)),
            Tracker::Steim1(tracker) => Some(Tracker::Steim1(all_taken(*tracker, samples, from)?)),
            Tracker::Int16(tracker) => Some(Tracker::Int16(all_taken(*tracker, samples, from)?)),
            Tracker::Int24(tracker) => Some(Tracker::Int24(all_taken(*tracker, samples, from)?)),
            Tracker::Int32(tracker) => Some(Tracker::Int32(all_taken(*tracker, samples, from)?)),
        }
    }
}

/// A run from `start` on that all samples fit so far, with its tracker.
#[derive(Clone, Copy)]
pub(crate) struct GrowingRun {
    pub start: usize,
    pub tracker: Tracker,
}

impl GrowingRun {
    /// The run from `start` to the last sample, with a tracker of a kind that it fits.
    fn of(samples: &[i32], form: Form, start: usize, kind: Kind) -> GrowingRun
        requires { IsRun (FitsIn kind (records_of form)) samples.now start (length samples.now) }
        ensures start { result.start ≡ start }
        ensures tracked { IsTracked (records_of form) samples.now start (length samples.now) result.tracker }
    {
        let begun = Tracker::new(kind, form.length);
        match begun.after(samples, start) {
            Some(tracker) => GrowingRun { start, tracker },
            None => GrowingRun {
                start,
                tracker: begun,
            },
        }
    }

    /// The run of the one sample after a frontier: of the kind that is tried first if the sample fits that, else of Int32.
    pub(crate) fn first(samples: &[i32], form: Form, frontier: usize) -> GrowingRun
        requires { length samples.now ≡ frontier + 1 }
        ensures { IsGrowing (records_of form) samples.now frontier (length samples.now) result }
    {
        let begun = Tracker::new(tried_first(form), form.length);
        match begun.after(samples, frontier) {
            Some(tracker) => GrowingRun {
                start: frontier,
                tracker,
            },
            None => GrowingRun::of(samples, form, frontier, Kind::Int32),
        }
    }

    /// An empty run at the start of a segment.
    pub(crate) fn empty(form: Form) -> GrowingRun
        ensures { IsGrowing (records_of form) [] 0 0 result }
    {
        GrowingRun {
            start: 0,
            tracker: Tracker::new(tried_first(form), form.length),
        }
    }

    /// The step from the frontier, if the samples from `from` on decide it. Else the run stays, or is one of
    /// another kind that all samples fit.
    pub(crate) fn decide(
        &mut self,
        samples: &[i32],
        form: Form,
        frontier: usize,
        from: usize,
        likely: Kind,
    ) -> Option<StepWithEnds>
        requires within { from ≤ length samples.now }
        requires growing { IsGrowing (records_of form) samples.now frontier from self.old }
        ensures open { IsNone result → IsGrowing (records_of form) samples.now frontier
            (length samples.now) self.new }
        ensures decided { IfSome result (IsDecided (records_of form) samples.now frontier from) }
    {
        if let Some(tracker) = self.tracker.after(samples, from) {
            self.tracker = tracker;
            return None;
        }
        let found = next_step(samples, form, frontier, likely, &mut [], &mut []);
        if found.step.end < samples.len() {
            return Some(found);
        }
        *self = GrowingRun::of(samples, form, found.step.start, found.step.kind);
        None
    }
}
