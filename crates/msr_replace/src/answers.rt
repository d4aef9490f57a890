//! What is told of a day.

use msr_verify::VerifyFault;
use thiserror::Error;

/// Why a day is refused: what stands behind `refused PATH: `.
#[derive(Clone, Copy, Debug, PartialEq, Eq, Error)]
pub enum DayRefusal {
    /// The day's name in ROOT, or a folder on the way, is a link.
    #[error("a link")]
    Link,
    /// So is that of its records.
    #[error("records: a link")]
    RecordsLink,
    /// So is that of its original, or what is no folder is in the way.
    #[error("aside: a link")]
    AsideLink,
    /// The day's file is no regular file, or is gone.
    #[error("file: cannot open")]
    FileUnopened,
    /// Its records are no regular file.
    #[error("records: cannot open")]
    RecordsUnopened,
    /// Its report is no regular file.
    #[error("report: cannot open")]
    ReportUnopened,
    /// Its records are the day's file under another name.
    #[error("records: the file itself")]
    SameFile,
    /// One of the three files is at fault.
    #[error("{0}")]
    Fault(VerifyFault),
    /// A record has 24-bit integers.
    #[error("records: 24-bit integers")]
    Int24,
    #[error("aside: another file of this name")]
    AsideTaken,
    #[error("records: other ones are in OUT")]
    RecordsTaken,
    #[error("owner, mode or time cannot be kept")]
    Dress,
    #[error("aside: owner, mode or time cannot be kept")]
    AsideDress,
}

/// What became of a day whose records were to take the place of its file.
#[derive(Clone, Copy, PartialEq, Eq)]
pub enum DayAnswer {
    /// They have it. The file had `before` bytes, they have `after`.
    Replaced { before: u64, after: u64 },
    /// ROOT has the records already.
    Same,
    /// The file was changed a short time ago.
    Young,
    /// The records are not fewer bytes.
    Larger { before: u64, after: u64 },
    /// A file was changed meanwhile; the day's has its place.
    Changed,
    /// There are no records of the day, or no report.
    Missing,
    /// The report does not show that the records are the fewest.
    NotShown,
    /// The records have other segments than the file.
    Differs,
    Refused(DayRefusal),
}

/// What became of a day whose original was to get its place again.
#[derive(Clone, Copy, PartialEq, Eq)]
pub enum DayRestored {
    /// It has it.
    Restored,
    /// Somebody has written to the records in ROOT; the original stays in ASIDE.
    Changed,
    Refused(DayRefusal),
}
