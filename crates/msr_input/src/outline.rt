//! Records and rows without their samples.
use msr_rows::Key;

/// A row without its samples.
#[derive(Clone, Copy)]
pub struct RowOutline {
    /// The row's key.
    pub key: Key,
    /// The instant of the first sample, in microseconds from 1970-01-01 00:00:00.
    pub start: i64,
    /// How many samples it has.
    pub count: u16,
}

/// A record without its samples.
#[derive(Clone, Copy)]
pub(crate) struct Outline {
    /// How many bytes the record has.
    pub length: u32,
    /// Its row; `None` if it has no samples.
    pub row: Option<RowOutline>,
    /// Whether its reverse constant is its last sample.
    pub reverse_agrees: bool,
}
