//! The last samples of a segment, with the step whose piece comes next.

ghost use Rattle.std.specs.Prelude.{◌≡◌, ℕ, ℤ, List, [], ◌++◌, ◌+◌, ◌-◌, ◌*◌, ◌<◌, ◌≤◌, ◌⊎◌, length, drop, IfSome, IsNone, IsSome, None, Some};
ghost use Rattle.msr_words.specs.declared.kinds.Run.{Run};
ghost use Rattle.msr_words.specs.Fit.{FitsAny, IsRun, records_of};
ghost use Rattle.msr_words.specs.Laws.{most_any};
ghost use Rattle.msr_words.specs.Packing.{IsCanonical};
ghost use Rattle.msr_packer.specs.HeldSamples.{GivesPiece, HasPlaces, HoldsNeeded, HoldsRest, HoldsSame, IsNextStep, IsSound, KnowsNext, KnowsSizes, ShowsRun, Stays, before_shown, first_ungiven, frontier_of, piece_of, pieces_of, runs_of, separators_of, shown_by};
ghost use Rattle.msr_packer.specs.Steps.{HaveSizes, IsFound};

use crate::kind_of;
use crate::sizes::StepSizes;
use crate::step::{StepWithEnds, next_step};
use msr_base::{Form, Kind};
use msr_words::Run;
use std::alloc::{AllocError, Global};

/// A run of the packing, with the separator that goes with it.
#[derive(Clone, Copy, PartialEq, Eq)]
pub struct Piece {
    pub run: Run,
    pub separator: u64,
}

/// Fills the places of a `Last` that have no piece; it means nothing.
impl Default for Piece {
    fn default() -> Piece {
        Piece {
            run: Run {
                start: 0,
                end: 0,
                kind: Kind::Int32,
            },
            separator: 0,
        }
    }
}

/// A step with the kinds of its run. The run is cut where the next one starts: at `end`, and then its kind is `whole`,
/// or one sample before, and then it is `short`.
#[derive(Clone, Copy)]
pub(crate) struct RunToCut {
    pub frontier: usize,
    pub start: usize,
    pub end: usize,
    pub whole: Kind,
    pub short: Kind,
    /// How many groups the whole run has, if it is of Steim-2 and they were told, else 0.
    pub groups: usize,
}

/// The frontier of the next step.
pub(crate) fn frontier_of(current: Option<RunToCut>) -> usize
    ensures { result ≡ frontier_of current }
{
    match current {
        Some(current) => current.end,
        None => 0,
    }
}

/// Where the samples begin that were not given yet.
pub(crate) fn start_of(current: Option<RunToCut>) -> usize
    ensures { result ≡ first_ungiven current }
{
    match current {
        Some(current) => current.start,
        None => 0,
    }
}

/// The kind of the last step.
pub(crate) fn likely_of(current: Option<RunToCut>) -> Kind {
    match current {
        Some(current) => current.whole,
        None => Kind::Steim2,
    }
}

/// The piece that ends where the next run starts.
pub(crate) fn piece_of(offset: u64, current: Option<RunToCut>, next: usize) -> Option<Piece>
    requires { HasPlaces offset next current }
    ensures { result ≡ piece_of offset current next }
{
    let current = current?;
    Some(Piece {
        run: Run {
            start: offset + current.start as u64,
            end: offset + next as u64,
            kind: if next == current.end {
                current.whole
            } else {
                current.short
            },
        },
        separator: offset + current.frontier as u64,
    })
}

/// How many groups the run of a step has, if it is the one of Steim-2 from the frontier and they were told.
fn groups_of(frontier: usize, found: StepWithEnds) -> usize
    ensures { (samples : List ℤ) (sizes words : List ℕ)
        → HaveSizes samples frontier found.ends.steim2 found.ends.groups sizes words
        → HaveSizes samples found.step.start found.step.end result sizes words }
{
    if found.step.start == frontier && found.step.end == found.ends.steim2 {
        found.ends.groups
    } else {
        0
    }
}

impl RunToCut {
    /// The next step, as it was found, with the kinds of its run.
    pub(crate) fn of(
        samples: &[i32],
        form: Form,
        current: Option<RunToCut>,
        found: StepWithEnds,
    ) -> RunToCut
        requires inside { frontier_of current < length samples.now }
        requires step { IsFound (records_of form) samples.now (frontier_of current) found }
        ensures next { IsNextStep (records_of form) samples.now current result }
        ensures end { result.end ≡ found.step.end }
        ensures sizes { (sizes words : List ℕ)
            → HaveSizes samples.now (frontier_of current) found.ends.steim2 found.ends.groups sizes words
            → HaveSizes samples.now result.start result.end result.groups sizes words }
    {
        let frontier = frontier_of(current);
        let end = found.step.end;
        RunToCut {
            frontier,
            start: found.step.start,
            end,
            whole: kind_of(samples, form, frontier, found, end),
            short: kind_of(samples, form, frontier, found, end - 1),
            groups: groups_of(frontier, found),
        }
    }

    /// The next step. If it is of Steim-2, it tells the sizes of its groups and their words, if there is room.
    pub(crate) fn next(
        samples: &[i32],
        form: Form,
        current: Option<RunToCut>,
        sizes: &mut [u8],
        words: &mut [u32],
    ) -> RunToCut
        requires { frontier_of current < length samples.now }
        ensures next { IsNextStep (records_of form) samples.now current result }
        ensures sizes { HaveSizes samples.now result.start result.end result.groups sizes.new words.new }
    {
        let found = next_step(
            samples,
            form,
            frontier_of(current),
            likely_of(current),
            sizes,
            words,
        );
        RunToCut::of(samples, form, current, found)
    }
}

/// Removes the first `count` samples.
pub(crate) fn remove_front(held: &mut Vec<i32>, count: usize)
    requires { count ≤ length held.old.items }
    ensures { held.new.items ≡ drop count held.old.items }
{
    let left = held.len() - count;
    held.copy_within(count.., 0);
    held.truncate(left);
}

/// The last samples of a segment, with the step whose piece comes next. It shows the samples of the piece that was
/// given last.
#[derive(Drop)]
pub(crate) struct HeldSamples {
    pub form: Form,
    pub samples: Vec<i32>,
    /// How many samples of the segment stand before those that are held.
    pub offset: u64,
    pub current: Option<RunToCut>,
    /// Where the samples begin that are shown.
    pub from: usize,
    /// Where they end.
    pub to: usize,
    pub sizes: StepSizes,
}

impl HeldSamples {
    /// Holds no samples yet. It takes no memory.
    pub(crate) fn empty(alloc: Global, form: Form) -> HeldSamples
        ensures form { result.form ≡ form }
        ensures none { HoldsRest [] [] [] result }
        ensures sound { IsSound result }
        ensures current { result.current ≡ None }
        ensures samples { result.samples.items ≡ [] }
        ensures shown { shown_by result ≡ [] }
        ensures sizes { KnowsSizes result }
    {
        HeldSamples {
            form,
            samples: Vec::new(alloc),
            offset: 0,
            current: None,
            from: 0,
            to: 0,
            sizes: StepSizes::none(alloc),
        }
    }

    /// Goes on to the next step, and gives the piece before it, which is shown.
    pub(crate) fn go_on(&mut self, step: RunToCut) -> Option<Piece>
        requires sound { IsSound self.old }
        requires next { IsNextStep (records_of self.old.form) self.old.samples.items self.old.current step }
        ensures given { GivesPiece self.old self.new result }
        ensures none { IsNone result → shown_by self.new ≡ [] }
        ensures current { self.new.current ≡ Some step }
        ensures first { IsNone result → IsNone self.old.current }
        ensures sizes { KnowsNext self.old
            → HaveSizes self.old.samples.items step.start step.end step.groups self.old.sizes.shown.places.items
            self.old.sizes.shown.words.items
            → KnowsSizes self.new }
    {
        let piece = piece_of(self.offset, self.current, step.start);
        let whole = step.start == frontier_of(self.current);
        self.sizes.go_on(step.groups, whole);
        self.from = start_of(self.current);
        self.to = step.start;
        self.current = Some(step);
        piece
    }

    /// If more than `beyond` samples stand beyond the frontier, goes on to the next step, and gives the piece of the
    /// step before it; the first step has none before it.
    pub(crate) fn step_past(&mut self, beyond: usize) -> Option<Piece>
        requires { IsSound self.old }
        ensures given { GivesPiece self.old self.new result }
        ensures stays { most_any (records_of self.old.form) ≤ beyond
            → Stays self.old.current (length self.old.samples.items) → Stays self.new.current (length
            self.old.samples.items) }
        ensures few { IsNone result → IsSome self.old.current
            → length self.old.samples.items ≤ frontier_of self.new.current + beyond }
        ensures first { IsNone result → (length self.old.samples.items ≤ frontier_of self.new.current + beyond)
            ⊎ IsSome self.new.current }
        ensures order { frontier_of self.old.current ≤ frontier_of self.new.current }
        ensures furthest { (start end : ℕ) → start ≤ frontier_of self.old.current
            → frontier_of self.old.current + beyond < length self.old.samples.items
            → IsRun (FitsAny (records_of self.old.form)) self.old.samples.items start end
            → end ≤ frontier_of self.new.current }
        ensures fewer { IfSome result (λ _. frontier_of self.old.current < frontier_of self.new.current) }
        ensures sizes { KnowsSizes self.old → KnowsSizes self.new }
    {
        if self.samples.len() - frontier_of(self.current) <= beyond {
            return None;
        }
        let step = RunToCut::next(
            self.samples.as_slice(),
            self.form,
            self.current,
            self.sizes.shown.places.as_mut_slice(),
            self.sizes.shown.words.as_mut_slice(),
        );
        self.go_on(step)
    }

    /// The next piece, if more than `beyond` samples stand beyond the frontier. It is shown.
    pub(crate) fn next_piece(&mut self, beyond: usize) -> Option<Piece>
        requires { IsSound self.old }
        ensures given { GivesPiece self.old self.new result }
        ensures stays { most_any (records_of self.old.form) ≤ beyond
            → Stays self.old.current (length self.old.samples.items) → Stays self.new.current (length
            self.old.samples.items) }
        ensures few { IsNone result → length self.old.samples.items ≤ frontier_of self.new.current + beyond }
        ensures fewer { IfSome result (λ _. frontier_of self.old.current < frontier_of self.new.current) }
        ensures sizes { KnowsSizes self.old → KnowsSizes self.new }
    {
        if let Some(piece) = self.step_past(beyond) {
            return Some(piece);
        }
        // at the first step there is no piece yet
        self.step_past(beyond)
    }

    /// The piece of the last step, if no sample stands after it; none if there are no samples. It is shown.
    pub(crate) fn last_piece(&mut self) -> Option<Piece>
        requires sound { IsSound self.old }
        requires end { length self.old.samples.items ≤ frontier_of self.old.current }
        ensures same { HoldsSame self.old self.new }
        ensures canonical { (samples : List ℤ) (runs : List Run) (separators : List ℕ)
            → HoldsRest samples runs separators self.old
            → IsCanonical (records_of self.old.form) samples (runs ++ runs_of (pieces_of result))
            (separators ++ separators_of (pieces_of result)) }
        ensures shows { (samples : List ℤ) (runs : List Run) (separators : List ℕ)
            → HoldsRest samples runs separators self.old
            → IfSome result (ShowsRun samples (shown_by self.new) (before_shown self.new)) }
        ensures sizes { KnowsSizes self.old → KnowsSizes self.new }
    {
        let end = self.samples.len();
        self.sizes.go_on(0, true);
        self.from = start_of(self.current);
        self.to = end;
        piece_of(self.offset, self.current, end)
    }

    /// How many samples no step needs any more: those before the one before the run.
    pub(crate) fn unneeded(&self) -> usize
        ensures { result ≡ first_ungiven self.now.current - 1 }
    {
        start_of(self.current).saturating_sub(1)
    }

    /// Removes the samples that no step needs any more. No samples are shown afterwards.
    pub(crate) fn forget(&mut self)
        requires { IsSound self.old }
        ensures needed { HoldsNeeded self.old self.new }
        ensures samples { self.new.samples.items ≡ drop (first_ungiven self.old.current - 1) self.old.samples.items }
        ensures frontier { frontier_of self.new.current + (first_ungiven self.old.current - 1)
            ≡ frontier_of self.old.current }
        ensures start { first_ungiven self.new.current + (first_ungiven self.old.current - 1)
            ≡ first_ungiven self.old.current }
        ensures from { self.new.from ≡ 0 }
        ensures to { self.new.to ≡ 0 }
    {
        self.from = 0;
        self.to = 0;
        self.sizes.shown.count = 0;
        let count = self.unneeded();
        let Some(current) = self.current else {
            return;
        };
        if count == 0 {
            return;
        }
        remove_front(&mut self.samples, count);
        self.offset += count as u64;
        self.current = Some(RunToCut {
            frontier: current.frontier - count,
            start: current.start - count,
            end: current.end - count,
            whole: current.whole,
            short: current.short,
            groups: current.groups,
        });
    }

    /// Removes the samples that no step needs any more, if they are at least as many as the others: then for each
    /// sample that is moved at least one is removed.
    pub(crate) fn make_room(&mut self)
        requires { IsSound self.old }
        ensures needed { HoldsNeeded self.old self.new }
        ensures few { length self.old.samples.items ≤ frontier_of self.old.current + most_any
            (records_of self.old.form) → length self.new.samples.items ≤ 4 * most_any (records_of self.old.form) + 2 }
    {
        let unneeded = self.unneeded();
        if unneeded >= self.samples.len() - unneeded {
            self.forget();
        }
    }

    /// Takes places for the groups of a record, if that was not done.
    pub(crate) fn take_places(&mut self) -> Result<(), AllocError>
        requires { IsSound self.old }
        ensures same { HoldsSame self.old self.new }
        ensures sizes { KnowsSizes self.old → KnowsSizes self.new }
    {
        let places = self.form.length.data_words() as usize;
        self.sizes.take_places(places)
    }

    /// The sample before those that are shown, if there is one.
    pub(crate) fn before(&self) -> Option<i32>
        requires { IsSound self.now }
        ensures { result ≡ before_shown self.now }
    {
        if self.from == 0 {
            return None;
        }
        Some(self.samples[self.from - 1])
    }
}
