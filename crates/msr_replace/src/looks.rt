//! What a look tells of the files of a day.
ghost use Rattle.std.specs.Prelude.{◌≡◌, []};
ghost use Rattle.msr_tree.specs.Acts.{Acts};
ghost use Rattle.msr_tree.specs.Calls.{Goes};
ghost use Rattle.msr_replace.specs.Looks.{AreOfOne, AsksYoung, IsSeenDay, RefusesWhole, SortsAs, TellsOwn};

use crate::answers::DayRefusal;
use crate::ways::odd_way;
use msr_exchange::{DayNames, DayWork, Place};
use msr_folders::is_later;
use msr_tree::{Facts, Kind, Time, Tree, TreeFault};

/// What stands under the names of a day's file, its records and its report.
#[derive(Clone, Copy)]
pub(crate) struct Looked {
    pub(crate) file: Option<Facts>,
    pub(crate) records: Option<Facts>,
    pub(crate) report: Option<Facts>,
}

/// What a look tells of a day.
#[derive(Clone, Copy)]
pub(crate) enum Sorted {
    /// There are no records, or no report.
    Missing,
    Refused(DayRefusal),
    /// There are the file, its records and a report.
    Whole(Facts, Facts),
}

pub(crate) fn look_at_day<T: Tree>(
    tree: &mut T,
    names: &DayNames,
    report: &str,
) -> Result<Looked, TreeFault>
    ensures { Goes (T.went tree.old) (T.went tree.new) (Acts [] (IsSeenDay names.now report.now) result) }
{
    let file = tree.look(names.at(Place::Day))?;
    let records = tree.look(names.at(Place::Records))?;
    let report = tree.look(report)?;
    Ok(Looked {
        file,
        records,
        report,
    })
}

/// Whether the day's file was changed later than it may have been. Records that were given the time of now do not count:
/// the note has the same.
pub(crate) fn is_young<T: Tree>(
    tree: &mut T,
    work: &DayWork<'_>,
    names: &DayNames,
    file: Option<Facts>,
) -> Result<bool, TreeFault>
    ensures { Goes (T.went tree.old) (T.went tree.new) (Acts [] (AsksYoung work.now) result) }
{
    let Some(limit) = work.changed_before else {
        return Ok(false);
    };
    let note = tree.look(names.at(Place::Note))?;
    Ok(is_new(file, note, limit))
}

fn is_new(file: Option<Facts>, note: Option<Facts>, limit: Time) -> bool {
    let Some(file) = file else {
        return false;
    };
    let is_noted = note.is_some_and(|note| note.changed == file.changed);
    file.kind == Kind::Regular && is_later(file.changed, limit) && !is_noted
}

/// What is to be done with a day, by what a look tells.
pub(crate) fn sort(looked: &Looked) -> Sorted
    ensures { SortsAs looked.now result }
{
    let Some(records) = looked.records else {
        return Sorted::Missing;
    };
    let Some(report) = looked.report else {
        return Sorted::Missing;
    };
    match report.kind {
        Kind::Regular => sort_records(looked, records),
        _ => Sorted::Refused(DayRefusal::ReportUnopened),
    }
}

/// There are records, and a report.
fn sort_records(looked: &Looked, records: Facts) -> Sorted
    requires { looked.now.records ≡ Some records }
    ensures { SortsAs looked.now result }
{
    match records.kind {
        Kind::Regular => sort_file(looked, records),
        Kind::Link => Sorted::Refused(DayRefusal::RecordsLink),
        Kind::Folder | Kind::Other => Sorted::Refused(DayRefusal::RecordsUnopened),
    }
}

fn sort_file(looked: &Looked, records: Facts) -> Sorted
    requires records { looked.now.records ≡ Some records }
    requires kind { records.kind ≡ Kind.Regular }
    ensures { SortsAs looked.now result }
{
    let Some(file) = looked.file else {
        return Sorted::Refused(DayRefusal::FileUnopened);
    };
    match file.kind {
        Kind::Regular => Sorted::Whole(file, records),
        Kind::Link => Sorted::Refused(DayRefusal::Link),
        Kind::Folder | Kind::Other => Sorted::Refused(DayRefusal::FileUnopened),
    }
}

fn are_one(one: Facts, other: Facts) -> bool
    ensures { AreOfOne one other result }
{
    one.device == other.device && one.number == other.number
}

/// Whether a day's original is there, and is not its file.
fn is_apart(original: Option<Facts>, file: Facts) -> bool {
    match original {
        Some(original) => original.kind == Kind::Regular && !are_one(original, file),
        None => false,
    }
}

/// Whether the records are the day's file itself. If ASIDE has its original, a run that was killed has left them in OUT.
fn is_own<T: Tree>(
    tree: &mut T,
    names: &DayNames,
    file: Facts,
    records: Facts,
) -> Result<bool, TreeFault>
    ensures { Goes (T.went tree.old) (T.went tree.new) (Acts [] (TellsOwn file records) result) }
{
    let original = tree.look(names.at(Place::Original))?;
    Ok(are_one(file, records) & !is_apart(original, file))
}

/// Why the records of a day may not take its file's place, by what the names lead to.
pub(crate) fn odd_day<T: Tree>(
    tree: &mut T,
    work: &DayWork<'_>,
    names: &DayNames,
    path: &str,
    file: Facts,
    records: Facts,
) -> Result<Option<DayRefusal>, TreeFault>
    ensures { Goes (T.went tree.old) (T.went tree.new)
        (Acts [] (RefusesWhole work.now names.now path.now file records) result) }
{
    if is_own(tree, names, file, records)? {
        return Ok(Some(DayRefusal::SameFile));
    }
    odd_way(tree, work, path)
}
