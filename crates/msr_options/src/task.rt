//! What the program can be asked to do.
ghost use Rattle.std.specs.Prelude.{◌↔◌, IsTrue};
ghost use Rattle.msr_options.specs.Tasks.{IsBelow, Overlap};

use crate::days::DayOptions;
use crate::known::Known;
use crate::options::Options;
use crate::telling::Telling;
use std::alloc::AllocError;

/// A file to be repacked.
#[derive(Clone, Copy)]
pub struct Repacking<'a> {
    pub options: Options,
    /// The name of a file, or `-` for standard input.
    pub input: &'a str,
    /// Where the records go, or nowhere.
    pub output: Option<&'a str>,
}

/// Standard input, which is to be repacked to standard output while it comes.
#[derive(Clone, Copy)]
pub struct Feeding<'a> {
    pub options: Options,
    /// The name of the file that gets the report.
    pub report: &'a str,
}

/// In which form segments are listed, or the lines of a walk are told: in words, or in JSON.
#[derive(Clone, Copy, PartialEq, Eq)]
pub enum ListForm {
    Words,
    Json,
}

impl ListForm {
    ghost use Rattle.std.specs.Prelude.{◌≡◌, false, true};

    /// The form of lines that are asked for in JSON, or not.
    pub fn asked(in_json: bool) -> ListForm
        ensures json { in_json ≡ true → result ≡ ListForm.Json }
        ensures words { in_json ≡ false → result ≡ ListForm.Words }
    {
        if in_json {
            ListForm::Json
        } else {
            ListForm::Words
        }
    }
}

/// A file whose segments are to be listed.
#[derive(Clone, Copy)]
pub struct Listing<'a> {
    /// The length is not used, since no record is written.
    pub options: Options,
    pub form: ListForm,
    /// The name of a file, or `-` for standard input.
    pub input: &'a str,
}

/// Packed records to be checked against a report.
#[derive(Clone, Copy)]
pub struct Checking<'a> {
    /// The name of the file with the records.
    pub packed: &'a str,
    /// The name of the file with the report.
    pub report: &'a str,
}

/// Two files that are to be compared.
#[derive(Clone, Copy)]
pub struct Comparing<'a> {
    /// The length is not used, since no record is written.
    pub options: Options,
    /// The name of a file, or `-` for standard input.
    pub one: &'a str,
    /// The name of another, or `-` if that of the first is not.
    pub other: &'a str,
}

/// The folders of an archive, of the records that are written, and of their reports.
#[derive(Clone, Copy)]
pub struct Folders<'a> {
    pub root: &'a str,
    pub out: &'a str,
    pub reports: &'a str,
}

impl Folders<'_> {
    ghost use Rattle.std.specs.Prelude.{◌↔◌, IsTrue};
    ghost use Rattle.msr_options.specs.Tasks.{AreApartFrom, StandApart};

    /// Whether no two of the folders overlap, by their names.
    pub fn stand_apart(self) -> bool
        ensures { IsTrue result ↔ StandApart self.entry }
    {
        let Folders { root, out, reports } = self;
        !(overlap(root, out) || overlap(root, reports) || overlap(out, reports))
    }

    /// Whether another folder overlaps none of them, by their names.
    pub fn are_apart_from(self, other: &str) -> bool
        ensures { IsTrue result ↔ AreApartFrom other.now self.entry }
    {
        let Folders { root, out, reports } = self;
        !(overlap(root, other) || overlap(out, other) || overlap(reports, other))
    }
}

/// Whether one folder is the other, or stands below it, by their names.
pub fn overlap(a: &str, b: &str) -> bool
    ensures { IsTrue result ↔ Overlap a.now b.now }
{
    a == b || is_below(a, b) || is_below(b, a)
}

/// Whether the second stands below the first, by their names.
fn is_below(folder: &str, path: &str) -> bool
    ensures { IsTrue result ↔ IsBelow folder.now path.now }
{
    match path.strip_prefix(folder) {
        Some(rest) => rest.starts_with('/'),
        None => false,
    }
}

/// An archive whose day files are to be repacked.
#[derive(Drop)]
pub struct Archiving<'a> {
    pub folders: Folders<'a>,
    /// The paths, from the archive's folder, of the folders that are walked; none for the whole archive.
    pub below: Vec<&'a str>,
    pub days: DayOptions,
    pub known: Known<'a>,
}

/// An archive of whose day files it is to be told what repacking them would give.
#[derive(Drop)]
pub struct Trying<'a> {
    pub root: &'a str,
    /// The paths, from the archive's folder, of the folders that are walked; none for the whole archive.
    pub below: Vec<&'a str>,
    /// What is asked of days that are kept says nothing here.
    pub days: DayOptions,
}

/// An archive whose repack is to be verified.
#[derive(Drop)]
pub struct Verifying<'a> {
    pub folders: Folders<'a>,
    /// The paths, from the archive's folder, of the folders that are walked; none for the whole archive.
    pub below: Vec<&'a str>,
    /// Whether a day is told whose segments are not of its path's channel, or none of them has a sample on its day.
    pub names: bool,
    pub telling: Telling,
    pub known: Known<'a>,
}

/// An archive whose originals are to change places with their records.
#[derive(Drop)]
pub struct Replacing<'a> {
    pub folders: Folders<'a>,
    /// The folder that has the originals while their records stand in the archive.
    pub aside: &'a str,
    /// The paths, from the archive's folder, of the folders that are walked; none for the whole archive.
    pub below: Vec<&'a str>,
    /// The originals are put back.
    pub undo: bool,
    /// Only records that are fewer bytes than their file take its place.
    pub only_smaller: bool,
    /// For so many days a file has to be unchanged; 0 for any file.
    pub older_than: u32,
    /// The records get the time of now, and not that of their file.
    pub touch: bool,
    /// Also records of 24-bit integers take their file's place.
    pub int24: bool,
}

/// What the program is asked to do.
#[derive(Drop)]
pub enum Task<'a> {
    Repack(Repacking<'a>),
    List(Listing<'a>),
    Check(Checking<'a>),
    Compare(Comparing<'a>),
    Archive(Archiving<'a>),
    Trial(Trying<'a>),
    Verify(Verifying<'a>),
    Replace(Replacing<'a>),
    Feed(Feeding<'a>),
}

/// What the program can be asked to do, without what it is done with.
#[derive(Clone, Copy, PartialEq, Eq)]
pub enum Verb {
    Repack,
    List,
    Check,
    Compare,
    Archive,
    Verify,
    Replace,
    Feed,
}

impl Verb {
    ghost use Rattle.std.specs.Prelude.{◌≡◌, ◌↔◌, Some};
    ghost use Rattle.msr_options.specs.Tasks.{word_of};

    /// The command that this word is, if it is one.
    pub fn named(word: &str) -> Option<Verb>
        ensures { (verb : Verb) → (result ≡ Some verb) ↔ (word.now ≡ word_of verb) }
    {
        match word {
            "repack" => Some(Verb::Repack),
            "list" => Some(Verb::List),
            "check" => Some(Verb::Check),
            "compare" => Some(Verb::Compare),
            "archive" => Some(Verb::Archive),
            "verify" => Some(Verb::Verify),
            "replace" => Some(Verb::Replace),
            "feed" => Some(Verb::Feed),
            _ => None,
        }
    }

    /// The word of the command.
    pub fn word<'a>(self) -> &'a str
        ensures { result.now ≡ word_of self }
    {
        match self {
            Verb::Repack => "repack",
            Verb::List => "list",
            Verb::Check => "check",
            Verb::Compare => "compare",
            Verb::Archive => "archive",
            Verb::Verify => "verify",
            Verb::Replace => "replace",
            Verb::Feed => "feed",
        }
    }
}

/// The text to end with, and the status.
#[derive(Drop)]
pub struct Ending {
    pub text: String,
    pub status: u8,
}

/// Why there is no task.
#[derive(Drop)]
pub enum NoTask {
    Ending(Ending),
    /// No record has the length.
    NotALength,
    Memory,
}

impl From<AllocError> for NoTask {
    ghost use Rattle.std.specs.Prelude.{◌≡◌};
    ghost use Rattle.msr_options.specs.declared.task.NoTask.TheVariants.{Memory};

    ghost from_gives = { λ _ why. why ≡ Memory };

    fn from(_error: AllocError) -> NoTask {
        NoTask::Memory
    }
}
