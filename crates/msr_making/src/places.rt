//! Where the files of a day stand.
ghost use Rattle.std.specs.Prelude.{◌≡◌};
ghost use Rattle.msr_making.specs.Places.{paths_at, paths_of};

use msr_naming::DayFiles;

/// The names of a day's own file, and of those that are made of it.
#[derive(Clone, Copy)]
pub struct Places<'a> {
    pub input: &'a str,
    pub records: &'a str,
    pub report: &'a str,
    pub stamp: &'a str,
}

/// Where the files of a day stand that has these names.
pub(crate) fn places_of<'a>(input: &'a str, files: &'a DayFiles) -> Places<'a>
    ensures { paths_at result ≡ paths_of input.entry.now files.entry.now }
{
    Places {
        input,
        records: files.records.path.as_str(),
        report: files.report.path.as_str(),
        stamp: files.stamp.path.as_str(),
    }
}
