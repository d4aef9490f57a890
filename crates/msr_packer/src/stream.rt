//! The packing of a segment whose samples come one after another.

ghost use Rattle.std.specs.Prelude.{◌≡◌, ℕ, ℤ, List, [], ◌∷◌, ◌++◌, ◌+◌, ◌<◌, ◌≤◌, ◌^◌, length, MatchResult};
ghost use Rattle.msr_words.specs.Fit.{Records, records_of};
ghost use Rattle.msr_base.specs.Forms.{all_kinds};
ghost use Rattle.msr_words.specs.declared.kinds.Run.{Run};
ghost use Rattle.msr_words.specs.Laws.{most_any};
ghost use Rattle.msr_packer.specs.Blocks.{pushed};
ghost use Rattle.msr_packer.specs.HeldSamples.{HoldsNeeded, frontier_of, pieces_of, runs_of, samples_of_piece, separators_of};
ghost use Rattle.msr_packer.specs.Stream.{AreLastPieces, IsStreaming, PiecesBeginAll, StreamLeavesFew, Streams};

use crate::growing::GrowingRun;
use crate::held::{HeldSamples, Piece, RunToCut, frontier_of, likely_of, remove_front, start_of};
use arrayvec::ArrayVec;
use msr_base::{Form, Length};
use std::alloc::{AllocError, Global};
use std::marker::Model;

/// The pieces that were not given when the samples ended, and the samples from the first of them on.
#[derive(Drop)]
pub struct Last {
    pub pieces: ArrayVec<Piece, 2>,
    pub samples: Vec<i32>,
}

/// Those of two pieces that there are, in order.
fn both(first: Option<Piece>, last: Option<Piece>) -> ArrayVec<Piece, 2>
    ensures { result.items ≡ pieces_of first ++ pieces_of last }
{
    let mut pieces = ArrayVec::new();
    if let Some(first) = first {
        pieces.push(first);
    }
    if let Some(last) = last {
        pieces.push(last);
    }
    pieces
}

/// Removes the samples that no step needs any more. No samples are shown afterwards.
fn forget(held: &mut HeldSamples, growing: &mut GrowingRun)
    requires { IsStreaming held.old growing.old }
    ensures streaming { IsStreaming held.new growing.new }
    ensures needed { HoldsNeeded held.old held.new }
    ensures near { frontier_of held.new.current ≤ most_any (records_of held.new.form) + 1 }
    ensures behind { length held.new.samples.items ≤ frontier_of held.new.current + most_any
        (records_of held.new.form) }
    ensures from { held.new.from ≡ 0 }
    ensures to { held.new.to ≡ 0 }
{
    growing.start -= held.unneeded();
    held.forget();
}

/// Takes the samples of a segment one after another, and gives each run of the packing when it is decided.
#[derive(Drop)]
pub struct StreamPacker {
    held: HeldSamples,
    /// A run that all samples so far fit.
    growing: GrowingRun,
}

impl Model for StreamPacker {
    ghost use Rattle.std.specs.Prelude.{false};
    ghost use Rattle.msr_packer.specs.Blocks.{Holding, holding_of};
    ghost use Rattle.msr_packer.specs.Stream.{IsStreaming};

    ghost Value = { Holding };

    ghost view = { λ p. holding_of p.held false };

    ghost invariant = { λ p. IsStreaming p.held p.growing };
}

impl StreamPacker {
    /// A packer into records of that length, of any kinds, that no sample was pushed to. It takes no memory yet.
    pub fn new(alloc: Global, record_length: Length) -> StreamPacker
        ensures none { Streams (records_of (all_kinds record_length)) [] [] [] result }
        ensures shown { result.shown ≡ [] }
        ensures count { pushed result ≡ 0 }
    {
        StreamPacker::of(alloc, Form::all_kinds(record_length))
    }

    /// The same into records of that form.
    pub fn of(alloc: Global, form: Form) -> StreamPacker
        ensures none { Streams (records_of form) [] [] [] result }
        ensures shown { result.shown ≡ [] }
        ensures count { pushed result ≡ 0 }
    {
        StreamPacker {
            held: HeldSamples::empty(alloc, form),
            growing: GrowingRun::empty(form),
        }
    }

    /// Takes one sample more, and gives a piece when one is decided. If memory is refused it is as it was, but
    /// shows no samples.
    pub fn push(&mut self, sample: i32) -> Result<Option<Piece>, AllocError>
        requires { pushed self.old + 1 < 2 ^ 64 }
        ensures given { (records : Records) (samples : List ℤ) (runs : List Run) (separators : List ℕ)
            → Streams records samples runs separators self.old
            → MatchResult result
            (λ piece. Streams records (samples ++ sample ∷ []) (runs ++ runs_of (pieces_of piece))
            (separators ++ separators_of (pieces_of piece)) self.new)
            (λ _. Streams records samples runs separators self.new) }
        ensures shown { (records : Records) (samples : List ℤ) (runs : List Run) (separators : List ℕ)
            → Streams records samples runs separators self.old
            → MatchResult result
            (λ piece. self.new.shown ≡ samples_of_piece (samples ++ sample ∷ []) piece)
            (λ _. self.new.shown ≡ []) }
        ensures count { MatchResult result (λ _. pushed self.new ≡ pushed self.old + 1)
            (λ _. pushed self.new ≡ pushed self.old) }
    {
        forget(&mut self.held, &mut self.growing);
        let form = self.held.form;
        let frontier = frontier_of(self.held.current);
        let from = self.held.samples.len();
        self.held.samples.extend_from_slice(&[sample])?;
        let likely = likely_of(self.held.current);
        let seen = self.held.samples.as_slice();
        let Some(found) = self.growing.decide(seen, form, frontier, from, likely) else {
            return Ok(None);
        };
        // The sample after the step is the one that decides it.
        let next = RunToCut::of(seen, form, self.held.current, found);
        self.growing = GrowingRun::first(seen, form, next.end);
        Ok(self.held.go_on(next))
    }

    /// The samples of the piece that the last push gave, none if it gave none.
    pub fn run_samples(&self) -> &[i32]
        ensures { result.now ≡ self.now.shown }
    {
        &self.held.samples.as_slice()[self.held.from..self.held.to]
    }

    /// The pieces that were not given, if no sample follows: at most two. It takes no memory.
    pub fn end(self) -> Last
        ensures { (records : Records) (samples : List ℤ) (runs : List Run) (separators : List ℕ)
            → Streams records samples runs separators self
            → AreLastPieces records samples runs separators result.pieces.items result.samples.items }
    {
        let mut held = self.held;
        let start = start_of(held.current);
        let first = held.step_past(0);
        let last = held.last_piece();
        let mut rest = held.samples;
        remove_front(&mut rest, start);
        Last {
            pieces: both(first, last),
            samples: rest,
        }
    }
}

/// Whatever samples follow, the pieces that were given begin their canonical packing.
pub fn pieces_begin_all()
    ensures { PiecesBeginAll }
{}

/// At most two longest runs of samples were pushed and not given.
pub fn stream_leaves_few()
    ensures { StreamLeavesFew }
{}
