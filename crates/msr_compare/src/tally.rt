//! What is counted of the rows of an input.
ghost use Rattle.msr_compare.specs.Tallies.{TalliesRow, TellsDistance};

use msr_rows::Row;
use msr_segments::Step;
use msr_time::Rate;

/// What was counted of the rows so far.
#[derive(Clone, Copy)]
pub(crate) struct RowTally {
    /// Where the segment begins that was begun last.
    pub start: i64,
    /// How many samples it has.
    pub count: u64,
    /// How many segments were begun.
    pub segments: u64,
    /// How many samples there are in all.
    pub samples: u128,
    /// The greatest distance of a row from the nominal instant of its first sample, in microseconds, rounded up.
    pub moved: u64,
}

/// How far `t` lies from the nominal instant of sample `n` counted from `t0`, in microseconds, rounded up.
fn distance(rate: Rate, t0: i64, n: u64, t: i64) -> u64
    ensures { TellsDistance rate t0 n t result }
{
    let (numerator, denominator) = rate.period();
    let gap = (t as i128 - t0 as i128) * denominator as i128;
    let span = n as u128 * numerator as u128;
    let apart = (gap - span as i128).unsigned_abs();
    // Most records begin at that instant.
    if apart == 0 {
        return 0;
    }
    let micros = (apart + denominator as u128 - 1) / denominator as u128;
    micros.min(u64::MAX as u128) as u64
}

impl RowTally {
    ghost use Rattle.std.specs.Prelude.{◌≡◌, pos};

    /// Nothing was counted.
    pub(crate) fn new() -> RowTally
        ensures { result ≡ record { start = pos 0; count = 0; segments = 0; samples = 0; moved = 0 } }
    {
        RowTally {
            start: 0,
            count: 0,
            segments: 0,
            samples: 0,
            moved: 0,
        }
    }

    /// Counts the next row, which does that. What is counted is less than the bytes of an input let it be, so nothing
    /// saturates.
    pub(crate) fn with(self, step: Step, row: &Row) -> RowTally
        ensures { TalliesRow step self row.now result }
    {
        let more = row.samples.len() as u64;
        let samples = self.samples.saturating_add(more as u128);
        match step {
            Step::Begins => RowTally {
                start: row.start,
                count: more,
                segments: self.segments.saturating_add(1),
                samples,
                ..self
            },
            Step::Joins => RowTally {
                count: self.count.saturating_add(more),
                samples,
                moved: self
                    .moved
                    .max(distance(row.key.rate, self.start, self.count, row.start)),
                ..self
            },
        }
    }
}
