//! Whether channels alternate in what was repacked.
ghost use Rattle.std.specs.Prelude.{◌≡◌, ◌↔◌, ◌-◌, IsTrue};
ghost use Rattle.msr_report.specs.Proper.{records_in};
ghost use Rattle.msr_command.specs.Turns.{AreTurns};

use msr_report::{Report, SegmentLine};

/// How many records fewer were written than were read.
fn saved(read: u64, segments: &[SegmentLine]) -> u64
    ensures { result ≡ read - records_in segments.now }
{
    let mut left = read;
    for line in segments {
        left = left.saturating_sub(line.records);
    }
    left
}

/// Whether no record was saved, and most segments stand in one: so it is if channels alternate.
pub(crate) fn is_in_turns(report: &Report) -> bool
    ensures { IsTrue result ↔ AreTurns report.now }
{
    let segments = report.segments.as_slice();
    let singles = segments.iter().filter(|line| line.records == 1).count();
    saved(report.counts.read, segments) == 0 && singles > segments.len() / 2
}
