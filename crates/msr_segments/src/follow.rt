//! Says which rows begin a segment, without their samples.
use crate::span::Span;
use msr_rows::Key;
use std::marker::Model;

/// What a row does: it begins a segment, or joins the one that was begun last.
#[derive(Clone, Copy, Debug, PartialEq, Eq)]
pub enum Step {
    Begins,
    Joins,
}

/// The row joins, and its last sample, counted from the segment's start, is outside the years 1900 to 2100.
#[derive(Clone, Copy, Debug, PartialEq, Eq)]
pub struct OutOfRange;

/// Says of each row in turn whether it begins a segment. It keeps no samples and takes no memory.
#[derive(Clone, Copy)]
pub struct Follow {
    tolerance: u32,
    current: Option<Span>,
}

impl Model for Follow {
    ghost use Rattle.msr_segments.specs.Spans.{Following, IsInBounds};

    ghost Value = { Following };

    ghost view = { λ f. record { tolerance = f.tolerance; current = f.current } };

    ghost inverse = { λ f. record { tolerance = f.tolerance; current = f.current } };

    ghost invariant = { λ f. IsInBounds f.current };
}

impl Follow {
    ghost use Rattle.std.specs.Prelude.{◌≡◌, ◌↔◌, ◌≤◌, List, [], ◌∷◌, ◌++◌, IsErr, IfOk, OnOk, OnErr, None};
    ghost use Rattle.msr_time.specs.Instant.{IsInstant};
    ghost use Rattle.msr_rows.specs.declared.row.Row.{Row};
    ghost use Rattle.msr_segments.specs.declared.follow.Step.{Step as Answer};
    ghost use Rattle.msr_segments.specs.Spans.{Overruns, IsInBounds, TakesStep, span_of};
    ghost use Rattle.msr_segments.specs.Segments.{row_span};
    ghost use Rattle.msr_segments.specs.Joining.{HasFollowed};

    /// A follower that was given no row, for that tolerance in microseconds.
    pub fn new(tolerance: u32) -> Follow
        requires { (1 ≤ tolerance) × (tolerance ≤ 1_000_000) }
        ensures value { result ≡ record { tolerance = tolerance; current = None } }
        ensures history { HasFollowed result [] [] }
    {
        Follow {
            tolerance,
            current: None,
        }
    }

    /// Where the segment lies that was begun last.
    pub(crate) fn current(&self) -> Option<Span>
        ensures { result ≡ self.now.current }
    {
        self.current
    }

    /// Says of the next row, which begins at that instant and has that many samples, whether it begins a segment.
    pub fn step(&mut self, key: &Key, start: i64, count: u16) -> Result<Step, OutOfRange>
        requires count { 1 ≤ count }
        requires start { IsInstant start }
        ensures out_of_range { IsErr result ↔ Overruns self.old (span_of key.now start count) }
        ensures step { IfOk result (λ answer. TakesStep self.old (span_of key.now start count) answer self.new) }
        ensures unchanged { OnErr result (self.new ≡ self.old) }
        ensures in_bounds { OnOk result (IsInBounds self.new.current) }

        // The answers so far say which rows begin the segments of all rows so far.
        ensures history { (rows : List Row) (answers : List Answer) (row : Row)
            → row_span row ≡ span_of key.now start count
            → HasFollowed self.old rows answers
            → IfOk result (λ answer. HasFollowed self.new (rows ++ row ∷ []) (answers ++ answer ∷ [])) }
    {
        match &mut self.current {
            Some(segment) if segment.is_continued_by(key, start, self.tolerance) => {
                let Some(longer) = segment.count_with(count) else {
                    return Err(OutOfRange);
                };
                segment.count = longer;
                Ok(Step::Joins)
            }
            _ => {
                self.current = Some(Span {
                    key: *key,
                    start,
                    count: count as u64,
                });
                Ok(Step::Begins)
            }
        }
    }
}
