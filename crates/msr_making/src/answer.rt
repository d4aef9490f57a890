//! What becomes of a day.

use msr_options::{DayName, Unopened};
use msr_tool::ToolFault;
use std::alloc::AllocError;

/// How many records a day file had, and how many were written for it, and of both the bytes.
#[derive(Clone, Copy)]
pub struct Repacked {
    pub read: u64,
    pub written: u64,
    pub bytes_read: u64,
    /// The greatest number of 64 bits if they are more, which no file has.
    pub bytes_written: u64,
    /// How many samples all its segments have, or the greatest number of 64 bits.
    pub samples: u64,
}

/// How many samples a day had by the report of an earlier walk, and how many it has now.
#[derive(Clone, Copy)]
pub struct Shrinkage {
    pub was: u64,
    pub is: u64,
}

/// Why a day file or a folder is refused, or what was made of a day is not kept.
#[derive(Clone, Copy)]
pub enum DayFault {
    /// A file could not be opened, or not be made under its name.
    CannotOpen(Unopened),
    /// A folder could not be listed, or has a name that is not UTF-8.
    Listing,
    /// The report did not show that the records are the fewest, though it is their own.
    NotShown,
    /// The records, read again, have not the segments of the day's own file, read again.
    Differs,
    /// The same, and the day's own file was changed meanwhile.
    Changed,
    /// Its records are not smaller than its file, and only those are kept that are.
    Larger(Repacked),
    /// It has fewer samples than an earlier walk left of it, and that is to stay.
    Shrunk(Shrinkage),
    /// Its segments do not belong to it, by the one of this name, and only days are kept whose segments do.
    Misplaced(DayName),
    /// It stood in the list of its folder, and was gone when it was looked at.
    Gone,
    /// Another walk has the day.
    ClaimedByAnother,
    /// The file was not repacked.
    Tool(ToolFault),
}

/// What became of a day.
#[derive(Clone, Copy)]
pub enum DayOutcome {
    Done(Repacked),
    /// An earlier walk had done it, and it was left alone.
    Same(Repacked),
    /// Its file was changed too late, and was left alone.
    Young,
    /// It was refused, or repacked and not kept.
    Refused(DayFault),
}

/// What stands beside the names of a day's files when it is done.
#[derive(Clone, Copy, PartialEq, Eq)]
pub enum Left {
    Nothing,
    /// A stamp that is to get its name.
    Stamp,
    /// What could not be removed, and a later walk finds by the claim alone.
    Parts,
}

/// What became of a day that this walk has.
#[derive(Clone, Copy)]
pub struct DayEnd {
    /// Without memory for a call of the tree nothing is told of the day, and what was begun may be left.
    pub outcome: Result<DayOutcome, AllocError>,
    pub left: Left,
    /// Whether each folder was stored that was to be. If not, names have an order that is right for kills alone.
    pub is_stored: bool,
}

/// Why nothing is kept of a day.
#[derive(Clone, Copy)]
pub(crate) enum Stop {
    Refused(DayFault),
    Memory,
}

impl From<DayFault> for Stop {
    ghost use Rattle.std.specs.Prelude.{◌≡◌};
    ghost use Rattle.msr_making.specs.declared.answer.Stop.TheVariants.{Refused};

    ghost from_gives = { λ fault stop. stop ≡ Refused fault };

    fn from(fault: DayFault) -> Stop {
        Stop::Refused(fault)
    }
}

impl From<AllocError> for Stop {
    ghost use Rattle.std.specs.Prelude.{◌≡◌};
    ghost use Rattle.msr_making.specs.declared.answer.Stop.TheVariants.{Memory};

    ghost from_gives = { λ _ stop. stop ≡ Memory };

    fn from(_: AllocError) -> Stop {
        Stop::Memory
    }
}
