//! What is asked of the days of an archive.
ghost use Rattle.std.specs.Prelude.{◌≡◌};

use crate::names::{DayName, Names};
use crate::options::Options;
use crate::telling::Telling;
use msr_base::Length;

/// How the days of an archive are repacked, which of them are kept, and what is told of them.
#[derive(Clone, Copy, PartialEq, Eq)]
pub struct DayOptions {
    /// With `same_length`, this length is for days whose first record has a length that is not written.
    pub options: Options,
    /// Whether each day is written in the length of its first record.
    pub same_length: bool,
    /// Whether days are left alone that an earlier walk did.
    pub resume: bool,
    /// Whether the records of a day are held against their report and compared with its file before they get their name.
    pub check: bool,
    /// Whether only days are kept that get smaller in bytes.
    pub only_smaller: bool,
    /// Whether what an earlier walk left of a day stays if the day is refused, or has fewer samples now.
    pub keep_old: bool,
    /// For so many days a file has to be unchanged; 0 for any file.
    pub older_than: u32,
    /// Only days are kept of which each segment has this name, and one a sample on the day.
    pub names: Names,
    /// Whether lines tell bytes too.
    pub bytes: bool,
    pub telling: Telling,
}

impl DayOptions {
    ghost use Rattle.msr_options.specs.Days.{in_length};

    /// The same for records of another length.
    pub fn in_length(&self, length: Length) -> DayOptions
        ensures { result ≡ in_length length self.now }
    {
        let options = Options::new(length, self.options.tolerance())
            .unwrap()
            .kinds(self.options.form().kinds)
            .strict(self.options.is_strict());
        DayOptions { options, ..*self }
    }
}
