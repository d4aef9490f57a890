//! Which samples are on a day.
ghost use Rattle.std.specs.Prelude.{◌≡◌, ◌↔◌, ◌≤◌, ◌≤ℤ◌, ℕ, ℤ, IsTrue};
ghost use Rattle.msr_time.specs.SampleRate.{IsRoundedNominal};
ghost use Rattle.msr_folders.specs.Times.{HasSampleOn};

use msr_report::ListedSegment;
use msr_time::{BTime, Rate};

const MICROS_PER_DAY: i64 = 86_400_000_000;

/// The number of the first sample, counted from `start`, that is not before an instant.
fn first_from(rate: Rate, start: i64, from: i64) -> u128
    ensures count { (n : ℕ) (r : ℤ) → IsRoundedNominal rate start n r → (from ≤ℤ r) ↔ (result ≤ n) }
    ensures each { (n : ℕ) → (r : ℤ) × IsRoundedNominal rate start n r }
{
    let (numerator, denominator) = rate.period();
    if from <= start {
        return 0;
    }
    let halves = 2 * from.abs_diff(start) as u128 - 1;
    let spans = 2 * numerator as u128;
    (halves * denominator as u128 + (spans - 1)) / spans
}

/// Whether a sample of the segment is on that day.
pub(crate) fn has_sample_on(segment: &ListedSegment, year: u16, day: u16) -> bool
    ensures { IsTrue result ↔ HasSampleOn year day segment.now }
{
    let midnight = BTime {
        year,
        day,
        hour: 0,
        minute: 0,
        second: 0,
        fract: 0,
    };
    let Some(from) = midnight.micros() else {
        return false;
    };
    let rate = segment.key.rate;
    let first = first_from(rate, segment.start, from);
    let after = first_from(rate, segment.start, from + MICROS_PER_DAY);
    first < after && first < segment.count as u128
}
