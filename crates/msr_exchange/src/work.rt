//! What is to be done with the days of an archive.

use msr_tree::Time;
use std::alloc::Global;

/// What is to be done with the days of an archive, and where.
#[derive(Clone, Copy)]
pub struct DayWork<'a> {
    pub alloc: Global,
    /// The archive.
    pub root: &'a str,
    /// The records of its days.
    pub out: &'a str,
    /// Their reports.
    pub reports: &'a str,
    /// The originals that were set aside.
    pub aside: &'a str,
    /// Whether a day is left alone whose records are not fewer bytes.
    pub only_smaller: bool,
    /// A file that was changed later is left alone: its writer might go on. Without it none is.
    pub changed_before: Option<Time>,
    /// Whether records get the time of now, and not that of their file.
    pub touch: bool,
    /// Whether records may have 24-bit integers, which libmseed 2 does not read.
    pub int24: bool,
}
