//! What a report says.
use msr_base::{Counts, Kinds, Length};
use msr_rows::Key;

/// A segment, and in how many records it was written.
#[derive(Debug, Drop)]
pub struct SegmentLine {
    pub key: Key,
    /// The instant of the first sample, in microseconds from 1970-01-01 00:00:00.
    pub start: i64,
    pub samples: u64,
    pub records: u64,
    /// The samples, numbered from 0, no two of which fit one record.
    pub separators: Vec<u64>,
}

/// What was read of an input, and its segments in their order.
#[derive(Debug, Drop)]
pub struct Report {
    /// The length of the written records.
    pub length: Length,
    /// The kinds of which they may be.
    pub kinds: Kinds,
    /// The tolerance, in microseconds, by which rows were joined.
    pub tolerance: u32,
    pub counts: Counts,
    pub segments: Vec<SegmentLine>,
}
