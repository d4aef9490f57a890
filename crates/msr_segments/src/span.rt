//! Where samples lie in time, and what continues them.
ghost use Rattle.std.specs.Prelude.{◌≡◌, ◌↔◌, ℕ, ◌+◌, ◌≤◌, ◌^◌, IsTrue, IsNone, IfSome, OnSome};
ghost use Rattle.msr_time.specs.Instant.{IsInstant};
ghost use Rattle.msr_segments.specs.Spans.{Continues, EndsOutOfRange, SpanIsInTime, span_of};

use msr_rows::Key;

/// Whether the keys are equal. No field is tested before another, which costs less than `==`: nearly all keys are.
fn is_same(a: &Key, b: &Key) -> bool
    ensures { IsTrue result ↔ (a.now ≡ b.now) }
{
    let texts = (a.network == b.network)
        & (a.station == b.station)
        & (a.location == b.location)
        & (a.channel == b.channel);
    let numbers = (a.quality == b.quality)
        & (a.rate == b.rate)
        & (a.activity == b.activity)
        & (a.clock == b.clock)
        & (a.data_quality == b.data_quality)
        & (a.correction == b.correction)
        & (a.timing == b.timing);
    texts & numbers
}

/// Where the samples of a row or of a segment lie.
#[derive(Clone, Copy)]
pub(crate) struct Span {
    /// Their key.
    pub key: Key,
    /// The instant of the first sample, in microseconds from 1970-01-01 00:00:00.
    pub start: i64,
    /// How many samples there are.
    pub count: u64,
}

impl Span {
    /// Whether samples of that key, the first of them at `start`, continue a segment whose samples lie at this span.
    pub(crate) fn is_continued_by(&self, key: &Key, start: i64, tolerance: u32) -> bool
        ensures { (count : ℕ) → IsTrue result ↔ Continues tolerance self.now (span_of key.now start count) }
    {
        is_same(key, &self.key) && self.key.rate.near(self.start, self.count, start, tolerance)
    }

    /// How many samples there are with that many more, unless the last of them is out of range.
    pub(crate) fn count_with(&self, more: u16) -> Option<u64>
        requires more { 1 ≤ more }
        requires count { self.now.count ≤ 2 ^ 63 }
        requires start { IsInstant self.now.start }
        ensures none { IsNone result
            ↔ EndsOutOfRange (span_of self.now.key self.now.start (self.now.count + more)) }
        ensures some { IfSome result (λ count. count ≡ self.now.count + more) }
        ensures in_time { OnSome result (SpanIsInTime (span_of self.now.key self.now.start (self.now.count + more))) }
        ensures few { IfSome result (λ count. count ≤ 2 ^ 63) }
    {
        let count = self.count + more as u64;
        if !self.key.rate.reaches(self.start, count - 1) {
            return None;
        }
        Some(count)
    }
}
