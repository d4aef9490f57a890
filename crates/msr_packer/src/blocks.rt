//! The packing of a segment whose samples come in blocks.

ghost use Rattle.std.specs.Prelude.{◌≡◌, ℕ, ℤ, List, [], ◌++◌, ◌+◌, ◌*◌, ◌^◌, ◌<◌, ◌≤◌, length, IfSome, IsNone, MatchResult};
ghost use Rattle.msr_words.specs.Fit.{Records, records_of};
ghost use Rattle.msr_words.specs.declared.kinds.Run.{Run};
ghost use Rattle.msr_words.specs.Laws.{most_any};
ghost use Rattle.msr_words.specs.Packing.{IsCanonical};
ghost use Rattle.msr_words.specs.Segment.{differences};
ghost use Rattle.msr_filling.specs.GroupWords.{AreGroupWords};
ghost use Rattle.msr_packer.specs.Blocks.{BlocksBeginAll, BlocksEnd, BlocksLeaveFew, GivesNext, HoldsFew, LastBlocksBegin, Packs, PacksLast, pushed, steps_left};

use crate::held::{HeldSamples, Piece};
use msr_base::Form;
use msr_words::longest_run;
use std::alloc::{AllocError, Global};
use std::marker::Model;

/// Takes the samples of a segment in blocks, and gives the runs of the packing one after another: each when so many
/// samples stand after its frontier that its step ends before the last of them, whatever the kinds of runs. Each
/// step is found once, over all that is held.
#[derive(Drop)]
pub struct BlockPacker {
    held: HeldSamples,
    /// Whether all pieces were given.
    ended: bool,
}

impl Model for BlockPacker {
    ghost use Rattle.msr_packer.specs.Blocks.{Holding, holding_of};
    ghost use Rattle.msr_packer.specs.HeldSamples.{IsSound, KnowsSizes};

    ghost Value = { Holding };

    ghost view = { λ p. holding_of p.held p.ended };

    ghost invariant = { λ p. IsSound p.held × KnowsSizes p.held };
}

impl BlockPacker {
    /// A packer into records of that form, that no sample was pushed to. It takes no memory yet.
    pub fn new(alloc: Global, form: Form) -> BlockPacker
        ensures none { Packs (records_of form) [] [] [] result }
        ensures few { HoldsFew result }
        ensures count { pushed result ≡ 0 }
    {
        BlockPacker {
            held: HeldSamples::empty(alloc, form),
            ended: false,
        }
    }

    /// Takes more samples. First it forgets those that no step needs any more, if they are at least as many as those
    /// that it needs, so that in all no more samples are moved than pushed. If memory is refused, no sample was taken.
    pub fn push_all(&mut self, samples: &[i32]) -> Result<(), AllocError>
        requires { pushed self.old + length samples.now < 2 ^ 64 }
        ensures taken { (records : Records) (before : List ℤ) (runs : List Run) (separators : List ℕ)
            → Packs records before runs separators self.old
            → MatchResult result
            (λ _. Packs records (before ++ samples.now) runs separators self.new)
            (λ _. Packs records before runs separators self.new) }
        ensures few { HoldsFew self.old
            → length self.new.held ≤ 4 * most_any self.old.records + 2 + length samples.now }
        ensures count { MatchResult result (λ _. pushed self.new ≡ pushed self.old + length samples.now)
            (λ _. pushed self.new ≡ pushed self.old) }
    {
        self.held.make_room();
        self.held.take_places()?;
        self.held.samples.extend_from_slice(samples)?;
        Ok(())
    }

    /// The next piece, if it is decided whatever samples follow.
    pub fn next_piece(&mut self) -> Option<Piece>
        ensures gives { (records : Records) → GivesNext (Packs records) self.old self.new result }
        ensures few { IsNone result → HoldsFew self.new }
        ensures fewer { IfSome result (λ _. steps_left self.new < steps_left self.old) }
        ensures count { pushed self.new ≡ pushed self.old }
    {
        let most = longest_run(self.held.form);
        self.held.next_piece(most)
    }

    /// The next piece, if no sample follows. If there is none, all pieces were given.
    pub fn last_piece(&mut self) -> Option<Piece>
        ensures gives { (records : Records) → GivesNext (PacksLast records) self.old self.new result }
        ensures all { (records : Records) (samples : List ℤ) (runs : List Run) (separators : List ℕ)
            → PacksLast records samples runs separators self.old
            → IsNone result → IsCanonical records samples runs separators }
        ensures fewer { IfSome result (λ _. steps_left self.new < steps_left self.old) }
        ensures count { pushed self.new ≡ pushed self.old }
    {
        if self.ended {
            return None;
        }
        if let Some(piece) = self.held.next_piece(0) {
            return Some(piece);
        }
        self.ended = true;
        self.held.last_piece()
    }

    /// How many samples were pushed.
    pub fn pushed(&self) -> u64
        ensures { result ≡ pushed self.now }
    {
        self.held.offset + self.held.samples.len() as u64
    }

    /// The samples of the piece that was given last.
    pub fn run_samples(&self) -> &[i32]
        ensures { result.now ≡ self.now.shown }
    {
        &self.held.samples.as_slice()[self.held.from..self.held.to]
    }

    /// The sizes of the groups of Steim-2 in which the piece that was given last stands, one after another, if they are
    /// known: none if it is of another kind, or if its run was cut.
    pub fn group_sizes(&self) -> &[u8]
        ensures { result.now ≡ self.now.groups }
    {
        &self.held.sizes.shown.places.as_slice()[..self.held.sizes.shown.count]
    }

    /// The words of these groups, one after another, as they stand in a big-endian record.
    pub fn group_words(&self) -> &[u32]
        ensures shown { result.now ≡ self.now.words }
        ensures words { AreGroupWords (differences self.now.before self.now.shown) self.now.groups result.now }
    {
        &self.held.sizes.shown.words.as_slice()[..self.held.sizes.shown.count]
    }

    /// The sample before those of the piece that was given last, if there is one.
    pub fn sample_before(&self) -> Option<i32>
        ensures { result ≡ self.now.before }
    {
        self.held.before()
    }
}

/// Whatever samples follow, the pieces that were given begin their canonical packing.
pub fn blocks_begin_all()
    ensures { BlocksBeginAll }
{}

/// If no sample follows, the pieces that were given begin the canonical packing of all.
pub fn last_blocks_begin()
    ensures { LastBlocksBegin }
{}

/// If no piece is decided, at most two longest runs of samples were pushed and not given.
pub fn blocks_leave_few()
    ensures { BlocksLeaveFew }
{}

/// What holds of a packer while samples may follow (`Packs`) holds of it if none follows (`PacksLast`), so
/// `last_piece` may be called.
pub fn blocks_end()
    ensures { BlocksEnd }
{}
