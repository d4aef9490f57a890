//! Joining rows into segments.
use crate::follow::{Follow, Step};
use msr_base::SampleVec;
use msr_rows::{Key, Row};
use std::alloc::Global;
use std::marker::Model;
use std::mem;

/// Rows that belong together, as one: all with the same key, each near the nominal instant of its
/// first sample, counted from the start.
#[derive(Debug, Drop)]
pub struct Segment {
    /// The key of each row.
    pub key: Key,
    /// The instant of the first sample, in microseconds from 1970-01-01 00:00:00.
    pub start: i64,
    /// The samples of all rows, in order.
    pub samples: SampleVec,
}

/// Why a row was refused.
#[derive(Clone, Copy, Debug, PartialEq, Eq)]
pub enum JoinKind {
    /// The row joins, and its last sample, counted from the segment's start, is outside the years 1900 to 2100.
    TimeRange,
    /// The row joins, and there is no memory for its samples after those of the segment.
    Memory,
}

/// A refused row, handed back.
#[derive(Debug, Drop)]
pub struct JoinFault {
    /// Why it was refused.
    pub kind: JoinKind,
    /// The row.
    pub row: Row,
}

/// Joins rows into segments, and keeps the samples of the segment that is not ended.
#[derive(Drop)]
pub struct Joiner {
    follow: Follow,
    samples: SampleVec,
}

impl Model for Joiner {
    ghost use Rattle.msr_segments.specs.Joining.{AreAsMany, Joining, joining_of};

    ghost Value = { Joining };

    ghost view = { λ j. joining_of j.follow j.samples };

    ghost invariant = { λ j. AreAsMany j.follow.current j.samples };
}

impl Joiner {
    ghost use Rattle.std.specs.Prelude.{◌≡◌, ◌↔◌, ◌≤◌, List, [], ◌∷◌, ◌++◌, length, IfOk, IfErr, IsErrAnd, IsSomeAnd, OnErr, None};
    ghost use Rattle.std.specs.Option.{option_to_list};
    ghost use Rattle.msr_time.specs.Instant.{IsInstant};
    ghost use Rattle.msr_segments.specs.declared.joiner.Segment.{Segment as Joined};
    ghost use Rattle.msr_rows.specs.declared.row.Row.{Row as Given};
    ghost use Rattle.msr_segments.specs.Spans.{Overruns};
    ghost use Rattle.msr_segments.specs.Segments.{AreSegments, ContinuesSegment, row_span};
    ghost use Rattle.msr_segments.specs.Joining.{HasJoined, IsPush, following_of};

    /// A joiner to which no row was given, for that tolerance in microseconds. Takes no memory.
    pub fn new(alloc: Global, tolerance: u32) -> Joiner
        requires { (1 ≤ tolerance) × (tolerance ≤ 1_000_000) }
        ensures value { result ≡ record { tolerance = tolerance; current = None } }
        ensures history { HasJoined result [] [] }
    {
        Joiner {
            follow: Follow::new(tolerance),
            samples: SampleVec::new(alloc),
        }
    }

    /// Takes the next row, and gives the segment that it ended, if it ended one.
    pub fn push(&mut self, row: Row) -> Result<Option<Segment>, JoinFault>
        requires samples { (1 ≤ length row.samples) × (length row.samples ≤ 65_535) }
        requires start { IsInstant row.start }
        ensures segments { (rows : List Given) (given : List Joined) → HasJoined self.old rows given
            → IfOk result (λ ended. HasJoined self.new (rows ++ row ∷ []) (given ++ option_to_list ended)) }
        ensures step { IfOk result (λ ended. IsPush self.old row ended self.new) }

        // Running out of memory comes only when a row that is in range joins.
        ensures time_range { IsErrAnd result (λ fault. fault.kind ≡ JoinKind.TimeRange)
            ↔ Overruns (following_of self.old) (row_span row) }
        ensures memory_only_for_more { IsErrAnd result (λ fault. fault.kind ≡ JoinKind.Memory)
            → IsSomeAnd self.old.current (λ segment. ContinuesSegment self.old.tolerance segment row) }
        ensures handed_back { IfErr result (λ fault. fault.row ≡ row) }
        ensures unchanged { OnErr result (self.new ≡ self.old) }
    {
        let mut follow = self.follow;
        let Ok(step) = follow.step(&row.key, row.start, row.samples.len() as u16) else {
            return Err(JoinFault {
                kind: JoinKind::TimeRange,
                row,
            });
        };
        match step {
            Step::Joins => {
                let Ok(()) = self.samples.extend_from_slice(row.samples.as_slice()) else {
                    return Err(JoinFault {
                        kind: JoinKind::Memory,
                        row,
                    });
                };
                self.follow = follow;
                Ok(None)
            }
            Step::Begins => {
                let samples = row.samples;
                Ok(mem::replace(self, Joiner { follow, samples }).finish())
            }
        }
    }

    /// The last segment, if a row was taken. Takes no memory.
    pub fn finish(self) -> Option<Segment>
        ensures value { result ≡ self.current }
        ensures segments { (rows : List Given) (given : List Joined) → HasJoined self rows given
            → AreSegments self.tolerance rows (given ++ option_to_list result) }
        ensures none { (rows : List Given) (given : List Joined) → HasJoined self rows given
            → (result ≡ None) ↔ (rows ≡ []) }
    {
        let span = self.follow.current()?;
        Some(Segment {
            key: span.key,
            start: span.start,
            samples: self.samples,
        })
    }
}
