//! What became of an entry of a folder, and its line.
ghost use Rattle.std.specs.Prelude.{◌≡◌, IfOk};
ghost use Rattle.std.specs.String.{string_bytes};
ghost use Rattle.msr_replace.specs.Entries.{has_failed};
ghost use Rattle.msr_replace.specs.Lines.{IsExchangeLine, after_of, before_of, told_path, exchange_word, word_of_answer, word_of_restored};

use crate::answers::{DayAnswer, DayRestored};
use crate::words::Word;
use msr_folders::{folder_of, shown_path};
use msr_sds::SdsFault;
use std::alloc::{AllocError, Global};
use thiserror::Error;

/// Why an entry or a folder is refused before a day is begun.
#[derive(Clone, Copy, Debug, Error)]
pub(crate) enum EntryRefusal {
    /// It was gone when it was looked at.
    #[error("file: cannot open")]
    FileUnopened,
    /// The folder could not be listed, or has a name that is not UTF-8.
    #[error("listing")]
    Listing,
    /// So is that of the records.
    #[error("records: listing")]
    RecordsListing,
    /// The folder in ROOT or ASIDE, or one on the way, is a link, or that in ROOT is gone.
    #[error("a link, or no folder")]
    NoFolder,
    #[error("another replace is at work")]
    Busy,
}

/// What became of an entry.
#[derive(Clone, Copy)]
pub(crate) enum Outcome {
    /// Of a day whose records were to take the place of its file.
    Day(DayAnswer),
    /// Of one whose original was to get its place again.
    Undone(DayRestored),
    Refused(EntryRefusal),
    Skipped(SdsFault),
    /// Records of a day that the archive does not have.
    Orphan,
    /// The file system failed in this day, or in this folder.
    DayFailed,
    FolderFailed,
}

fn word_of_answer(answer: DayAnswer) -> Word
    ensures { result ≡ word_of_answer answer }
{
    match answer {
        DayAnswer::Replaced { .. } => Word::Replaced,
        DayAnswer::Same => Word::Same,
        DayAnswer::Young => Word::Young,
        DayAnswer::Larger { .. } => Word::Larger,
        DayAnswer::Changed => Word::Changed,
        DayAnswer::Missing => Word::Missing,
        DayAnswer::NotShown => Word::NotShown,
        DayAnswer::Differs => Word::Differs,
        DayAnswer::Refused(_) => Word::Refused,
    }
}

fn word_of_restored(answer: DayRestored) -> Word
    ensures { result ≡ word_of_restored answer }
{
    match answer {
        DayRestored::Restored => Word::Restored,
        DayRestored::Changed => Word::Changed,
        DayRestored::Refused(_) => Word::Refused,
    }
}

impl Outcome {
    pub(crate) fn word(self) -> Word
        ensures { result ≡ exchange_word self }
    {
        match self {
            Outcome::Day(answer) => word_of_answer(answer),
            Outcome::Undone(answer) => word_of_restored(answer),
            Outcome::Refused(_) => Word::Refused,
            Outcome::Skipped(_) => Word::Skipped,
            Outcome::Orphan => Word::Orphan,
            Outcome::DayFailed | Outcome::FolderFailed => Word::Unfinished,
        }
    }

    /// Whether the tree failed.
    pub(crate) fn has_failed(self) -> bool
        ensures { result ≡ has_failed self }
    {
        matches!(self, Outcome::DayFailed | Outcome::FolderFailed)
    }

    /// The bytes of the file that was replaced.
    pub(crate) fn before(self) -> u64
        ensures { result ≡ before_of self }
    {
        match self {
            Outcome::Day(DayAnswer::Replaced { before, .. }) => before,
            _ => 0,
        }
    }

    /// Those of the records that have its place.
    pub(crate) fn after(self) -> u64
        ensures { result ≡ after_of self }
    {
        match self {
            Outcome::Day(DayAnswer::Replaced { after, .. }) => after,
            _ => 0,
        }
    }

    /// The path that the line tells of the entry with this path: if the day failed, that of its folder.
    fn told_path(self, path: &str) -> &str
        ensures { result.now ≡ told_path self path.now }
    {
        match self {
            Outcome::DayFailed => folder_of(path),
            _ => path,
        }
    }

    /// The line that tells it of the entry with this path.
    pub(crate) fn line(self, alloc: Global, path: &str) -> Result<String, AllocError>
        ensures { IfOk result (λ line. IsExchangeLine path.now self (string_bytes line)) }
    {
        let word = self.word().text();
        let path = shown_path(alloc, self.told_path(path))?;
        let why = match self {
            Outcome::Day(
                DayAnswer::Replaced { before, after } | DayAnswer::Larger { before, after },
            ) => return format!(in alloc; "{word} {path} bytes {before} {after}\n"),
            Outcome::Day(DayAnswer::Refused(refusal)) => refusal.to_string(alloc)?,
            Outcome::Undone(DayRestored::Refused(refusal)) => refusal.to_string(alloc)?,
            Outcome::Refused(refusal) => refusal.to_string(alloc)?,
            Outcome::Skipped(fault) => fault.to_string(alloc)?,
            _ => return format!(in alloc; "{word} {path}\n"),
        };
        format!(in alloc; "{word} {path}: {why}\n")
    }
}
