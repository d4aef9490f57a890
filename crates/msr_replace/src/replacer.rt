//! What the walk of a replace needs.
ghost use Rattle.std.specs.Prelude.{◌≡◌};
ghost use Rattle.msr_exchange.specs.Work.{AreThreeFolders};
ghost use Rattle.msr_replace.specs.Said.{unlisted_of, walked};

use crate::lines::EntryRefusal;
use msr_exchange::DayWork;

/// Which folders are walked.
#[derive(Clone, Copy, PartialEq, Eq)]
pub(crate) enum Course {
    /// Those of the archive, each of whose days is replaced.
    Root,
    /// Those of the records, in search of days that the archive does not have.
    Out,
    /// Those of the originals that were set aside, each of which is put back.
    Aside,
}

impl Course {
    /// What is told of a folder that has no list.
    pub(crate) fn unlisted(self) -> EntryRefusal
        ensures { result ≡ unlisted_of self }
    {
        match self {
            Course::Root | Course::Aside => EntryRefusal::Listing,
            Course::Out => EntryRefusal::RecordsListing,
        }
    }

    /// The folder that is walked.
    pub(crate) fn folder<'a>(self, work: &DayWork<'a>) -> &'a str
        ensures { result.now ≡ walked self work.now }
    {
        match self {
            Course::Root => work.root,
            Course::Out => work.out,
            Course::Aside => work.aside,
        }
    }
}

/// What an entry needs: the locks of folders, what is to be done, and where.
#[derive(Drop)]
pub(crate) struct Replacer<'a, L> {
    pub(crate) locks: &'a L,
    pub(crate) work: DayWork<'a>,
    pub(crate) course: Course,
    ghost apart: { AreThreeFolders work },
}
