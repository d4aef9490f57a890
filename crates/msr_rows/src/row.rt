//! What a record says: its key, where it begins, and its samples.
use msr_base::{Kind, SampleVec};
use msr_time::Rate;

/// What a record says of its channel and of all its samples, apart from their times and values
/// (SEED 2.4, fixed section of data header; blockette 1001).
///
/// A key that was read is in normal form: if the correction is not 0, activity bit 1 is set and the start of the row
/// has the correction in it. Keys are equal when all their fields are, byte for byte.
#[derive(Clone, Copy, Debug, PartialEq, Eq)]
pub struct Key {
    /// The network.
    pub network: [u8; 2],
    /// The station.
    pub station: [u8; 5],
    /// The location.
    pub location: [u8; 2],
    /// The channel.
    pub channel: [u8; 3],
    /// The quality indicator: D, R, Q or M.
    pub quality: u8,
    /// The sample rate factor and multiplier.
    pub rate: Rate,
    /// The activity flags.
    pub activity: u8,
    /// The I/O and clock flags.
    pub clock: u8,
    /// The data quality flags.
    pub data_quality: u8,
    /// The time correction, in units of 100 µs.
    pub correction: i32,
    /// The timing quality, 0 if the record has no blockette 1001.
    pub timing: u8,
}

/// The samples of a record, with what it says of them.
#[derive(Debug, Drop)]
pub struct Row {
    /// What the record says of them.
    pub key: Key,
    /// The instant of the first sample, in microseconds from 1970-01-01 00:00:00.
    pub start: i64,
    /// How the record stores the samples.
    pub kind: Kind,
    /// Their values.
    pub samples: SampleVec,
}

/// A record without a fault.
#[derive(Debug, Drop)]
pub struct Record {
    /// How many bytes the record has.
    pub length: u32,
    /// Its samples, if it has any.
    pub row: Option<Row>,
    /// Whether the last sample is the reverse constant; true if the record has none, as for
    /// integers, and if it has no samples.
    pub reverse_agrees: bool,
}
