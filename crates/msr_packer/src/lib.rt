//! The least packing of a segment, with the separators that show it.
#![tactic(auto)]

mod blocks;
mod growing;
mod held;
mod sizes;
mod step;
mod stream;

ghost use Rattle.std.specs.Prelude.{◌≡◌, ◌↔◌, IsTrue, ℕ, ◌+◌, ◌≤◌, length, ◌++◌, IfOk, List, OnOk, ℤ};
ghost use Rattle.msr_base.specs.Forms.{all_kinds};
ghost use Rattle.msr_base.specs.Kinds.{IsChosen};
ghost use Rattle.msr_words.specs.declared.kinds.Run.{Run};
ghost use Rattle.msr_words.specs.Segment.{run_points};
ghost use Rattle.msr_words.specs.Fit.{FitsIn, IsRun, IsFirstKind, Records, records_of};
ghost use Rattle.msr_packer.specs.Existence.{PackingExists, StepOfWindow};
ghost use Rattle.msr_packer.specs.HeldSamples.{pieces_of, runs_of, separators_of};
ghost use Rattle.msr_packer.specs.Steps.{AreEnds};
ghost use Rattle.msr_words.specs.Packing.{IsPacking, IsSeparating, IsLeast, IsCanonical};

pub use blocks::{BlockPacker, blocks_begin_all, blocks_end, blocks_leave_few, last_blocks_begin};
pub use held::Piece;
use held::{RunToCut, frontier_of, piece_of};
use msr_base::{Form, Kind, Length};
pub use msr_words::Run;
use msr_words::first_kind;
use std::alloc::{AllocError, Global};
use step::StepWithEnds;
pub use stream::{Last, StreamPacker, pieces_begin_all, stream_leaves_few};

/// Runs that join to a segment, and samples that show that no packing has fewer.
#[derive(Drop, PartialEq, Eq)]
pub struct Packing {
    pub runs: Vec<Run>,
    pub separators: Vec<u64>,
}

/// Whether the form has records of that kind, and the greatest end of a run of it is not before the cut.
#[inline(always)]
fn reaches(form: Form, kind: Kind, end: usize, cut: usize) -> bool
    ensures { IsTrue result ↔ IsChosen form.kinds kind × (cut ≤ end) }
{
    form.kinds.contains(kind) && cut <= end
}

/// The kind in which the run of a step is written that is cut at `end`. The ends of the kinds from the frontier tell
/// it, but for a run that starts before the frontier and that Steim-2 may fit, too.
fn kind_of(samples: &[i32], form: Form, frontier: usize, found: StepWithEnds, end: usize) -> Kind
    requires before { found.step.start ≤ frontier }
    requires ends { AreEnds (records_of form) samples.now frontier found.step.end found.ends }
    requires fits { IsRun (FitsIn found.step.kind (records_of form)) samples.now found.step.start end }
    requires near { found.step.end ≤ end + 1 }
    ensures { IsFirstKind (records_of form) (run_points samples.now found.step.start end) result }
{
    if found.step.start < frontier {
        // a run of Steim-2 from there would fit from the frontier on as well
        if found.step.kind == Kind::Steim1 && found.ends.steim2 < end {
            return Kind::Steim1;
        }
        return first_kind(samples, found.step.start, end, form);
    }
    if reaches(form, Kind::Steim2, found.ends.steim2, end) {
        Kind::Steim2
    } else if reaches(form, Kind::Steim1, found.ends.steim1, end) {
        Kind::Steim1
    } else if reaches(form, Kind::Int16, found.ends.int16, end) {
        Kind::Int16
    } else if reaches(form, Kind::Int24, found.ends.int24, end) {
        Kind::Int24
    } else {
        Kind::Int32
    }
}

impl Packing {
    /// Adds a piece, if there is one.
    fn add(&mut self, piece: Option<Piece>) -> Result<(), AllocError>
        ensures runs { OnOk result (self.new.runs.items ≡ self.old.runs.items ++ runs_of (pieces_of piece)) }
        ensures separators { OnOk result (self.new.separators.items ≡ self.old.separators.items
            ++ separators_of (pieces_of piece)) }
    {
        if let Some(piece) = piece {
            self.runs.push(piece.run)?;
            self.separators.push(piece.separator)?;
        }
        Ok(())
    }
}

/// The packing of the segment in the fewest records of that length, of any kinds.
pub fn pack(alloc: Global, samples: &[i32], record_length: Length) -> Result<Packing, AllocError>
    ensures packing { IfOk result (λ p. IsPacking (records_of (all_kinds record_length)) samples.now p.runs.items) }
    ensures least { IfOk result (λ p. IsLeast (records_of (all_kinds record_length)) samples.now p.runs.items) }
    ensures separating { IfOk result (λ p. IsSeparating (records_of (all_kinds record_length)) samples.now
        p.separators.items) }
    ensures as_many { IfOk result (λ p. length p.runs.items ≡ length p.separators.items) }
    ensures canonical { IfOk result (λ p. IsCanonical
        (records_of (all_kinds record_length)) samples.now p.runs.items p.separators.items) }
{
    pack_in(alloc, samples, Form::all_kinds(record_length))
}

/// The packing of the segment in the fewest records of that form.
pub fn pack_in(alloc: Global, samples: &[i32], form: Form) -> Result<Packing, AllocError>
    ensures packing { IfOk result (λ p. IsPacking (records_of form) samples.now p.runs.items) }
    ensures least { IfOk result (λ p. IsLeast (records_of form) samples.now p.runs.items) }
    ensures separating { IfOk result (λ p. IsSeparating (records_of form) samples.now p.separators.items) }
    ensures as_many { IfOk result (λ p. length p.runs.items ≡ length p.separators.items) }
    ensures canonical { IfOk result (λ p. IsCanonical
        (records_of form) samples.now p.runs.items p.separators.items) }
{
    let mut packing = Packing {
        runs: Vec::new(alloc),
        separators: Vec::new(alloc),
    };
    let mut current = None;
    while frontier_of(current) < samples.len() {
        let next = RunToCut::next(samples, form, current, &mut [], &mut []);
        packing.add(piece_of(0, current, next.start))?;
        current = Some(next);
    }
    packing.add(piece_of(0, current, samples.len()))?;
    Ok(packing)
}

/// Each list of samples has a canonical packing for each record length.
pub fn packing_exists()
    ensures { PackingExists }
{}

/// The step from a frontier in the last samples of a segment is that of the segment.
pub fn step_of_window()
    ensures { StepOfWindow }
{}

/// For each segment and form of records at most one packing with its separators is the canonical one.
pub fn one_packing()
    ensures { (records : Records) (samples : List ℤ) (runs others : List Run) (separators places : List ℕ)
        → IsCanonical records samples runs separators → IsCanonical records samples others places → (runs
        ≡ others) × (separators ≡ places) }
{}
