//! A day by its path.
ghost use Rattle.std.specs.Prelude.{◌≡◌, [], IfOk, string_bytes};
ghost use Rattle.msr_sds.specs.SdsPath.{ReadsAsDay, SdsPath};
ghost use Rattle.msr_tree.specs.Acts.{Acts};
ghost use Rattle.msr_tree.specs.Calls.{Goes};
ghost use Rattle.msr_replace.specs.Answers.{Exchanges, Replaces, report_in};
ghost use Rattle.msr_replace.specs.Restored.{PutsBackDay, RestoresDay};
ghost use Rattle.msr_replace.specs.Judging.{JudgesReplaceable, JudgesKinds, JudgesMissing, JudgesSeen, JudgesWhole, verified_of};
ghost use Rattle.msr_exchange.specs.Names.{AreNames, AreStampNames};
ghost use Rattle.msr_exchange.specs.Work.{AreThreeFolders, names_in, stamp_in};

use crate::answers::{DayAnswer, DayRestored};
use crate::looks::{Looked, Sorted, is_young, look_at_day, odd_day, sort};
use crate::stamping::{stamp_replaced, stamp_restored};
use crate::told::{replaced_of, restored_of};
use crate::verifying::{Opened, look_for_int24, shows_itself, verify_files};
use msr_exchange::{DayNames, DayWork, StampNames, Verified, replace_day, restore_day};
use msr_tree::{Facts, Tree, TreeFault};
use std::alloc::AllocError;

/// What is known of a day before anything is done.
#[derive(Clone, Copy)]
pub(crate) enum Judged {
    Told(DayAnswer),
    Verified(Verified),
}

fn verified_of(work: &DayWork<'_>, file: Facts, records: Facts) -> Judged
    ensures { result ≡ verified_of work.now file records }
{
    if work.only_smaller && file.bytes <= records.bytes {
        return Judged::Told(DayAnswer::Larger {
            before: file.bytes,
            after: records.bytes,
        });
    }
    Judged::Verified(Verified {
        file,
        records,
        touch: work.touch,
    })
}

/// The three files are verified. Records with 24-bit integers take no place unless they may.
fn judge_kinds<T: Tree>(
    tree: &mut T,
    work: &DayWork<'_>,
    names: &DayNames,
    file: Facts,
    records: Facts,
) -> Result<Judged, TreeFault>
    ensures { Goes (T.went tree.old) (T.went tree.new)
        (Acts [] (JudgesKinds work.now names.now file records) result) }
{
    if work.int24 {
        return Ok(verified_of(work, file, records));
    }
    match look_for_int24(tree, work.alloc, names)? {
        Some(refusal) => Ok(Judged::Told(DayAnswer::Refused(refusal))),
        None => Ok(verified_of(work, file, records)),
    }
}

/// There are the day's file, its records and a report, and the records may take the file's place.
fn judge_files<T: Tree>(
    tree: &mut T,
    work: &DayWork<'_>,
    names: &DayNames,
    report: &str,
    file: Facts,
    records: Facts,
) -> Result<Judged, TreeFault>
    ensures { Goes (T.went tree.old) (T.went tree.new)
        (Acts [] (JudgesWhole work.now names.now report.now file records) result) }
{
    match verify_files(tree, work, names, report)? {
        Opened::Told(answer) => Ok(Judged::Told(answer)),
        Opened::Verified => judge_kinds(tree, work, names, file, records),
    }
}

/// There are the day's file, its records and a report.
fn judge_whole<T: Tree>(
    tree: &mut T,
    work: &DayWork<'_>,
    names: &DayNames,
    path: &str,
    report: &str,
    file: Facts,
    records: Facts,
) -> Result<Judged, TreeFault>
    requires { report.now ≡ report_in work.now path.now }
    ensures { Goes (T.went tree.old) (T.went tree.new)
        (Acts [] (JudgesWhole work.now names.now report.now file records) result) }
{
    match odd_day(tree, work, names, path, file, records)? {
        Some(refusal) => Ok(Judged::Told(DayAnswer::Refused(refusal))),
        None => judge_files(tree, work, names, report, file, records),
    }
}

/// There are no records, or no report. ROOT may have the records by now.
fn judge_missing<T: Tree>(
    tree: &mut T,
    work: &DayWork<'_>,
    names: &DayNames,
    report: &str,
    looked: &Looked,
) -> Result<Judged, TreeFault>
    ensures { Goes (T.went tree.old) (T.went tree.new)
        (Acts [] (JudgesMissing work.now names.now report.now looked.now) result) }
{
    if looked.records.is_some() {
        return Ok(Judged::Told(DayAnswer::Missing));
    }
    if shows_itself(tree, work.alloc, names, report)? {
        return Ok(Judged::Told(DayAnswer::Same));
    }
    Ok(Judged::Told(DayAnswer::Missing))
}

fn judge_sorted<T: Tree>(
    tree: &mut T,
    work: &DayWork<'_>,
    names: &DayNames,
    path: &str,
    report: &str,
    looked: &Looked,
) -> Result<Judged, TreeFault>
    requires { report.now ≡ report_in work.now path.now }
    ensures { Goes (T.went tree.old) (T.went tree.new)
        (Acts [] (JudgesSeen work.now names.now report.now looked.now) result) }
{
    match sort(looked) {
        Sorted::Missing => judge_missing(tree, work, names, report, looked),
        Sorted::Refused(refusal) => Ok(Judged::Told(DayAnswer::Refused(refusal))),
        Sorted::Whole(file, records) => {
            judge_whole(tree, work, names, path, report, file, records)
        }
    }
}

fn judge<T: Tree>(
    tree: &mut T,
    work: &DayWork<'_>,
    names: &DayNames,
    path: &str,
    report: &str,
) -> Result<Judged, TreeFault>
    requires { report.now ≡ report_in work.now path.now }
    ensures { Goes (T.went tree.old) (T.went tree.new) (Acts [] (JudgesReplaceable work.now names.now report.now) result) }
{
    let looked = look_at_day(tree, names, report)?;
    if is_young(tree, work, names, looked.file)? {
        return Ok(Judged::Told(DayAnswer::Young));
    }
    judge_sorted(tree, work, names, path, report, &looked)
}

fn replace_named<T: Tree>(
    tree: &mut T,
    work: &DayWork<'_>,
    names: &DayNames,
    path: &str,
    report: &str,
) -> Result<DayAnswer, TreeFault>
    requires names { AreNames names.now }
    requires report { report.now ≡ report_in work.now path.now }
    ensures { Goes (T.went tree.old) (T.went tree.new) (Exchanges work.now names.now report.now result) }
{
    match judge(tree, work, names, path, report)? {
        Judged::Told(answer) => Ok(answer),
        Judged::Verified(verified) => {
            let told = replace_day(tree, names, &verified)?;
            Ok(replaced_of(told, &verified))
        }
    }
}

/// The path of a day's report.
fn report_of(work: &DayWork<'_>, path: &str) -> Result<String, AllocError>
    ensures { IfOk result (λ report. string_bytes report ≡ report_in work.now path.now) }
{
    let reports = work.reports;
    format!(in work.alloc; "{reports}/{path}.txt")
}

/// The same, and then the day is stamped.
fn replace_stamped<T: Tree>(
    tree: &mut T,
    work: &DayWork<'_>,
    names: &DayNames,
    stamp: &StampNames,
    path: &str,
    report: &str,
) -> Result<DayAnswer, TreeFault>
    requires names { AreNames names.now }
    requires stamp { AreStampNames names.now stamp.now }
    requires report { report.now ≡ report_in work.now path.now }
    ensures { Goes (T.went tree.old) (T.went tree.new) (Replaces work.now names.now report.now stamp.now result) }
{
    let answer = replace_named(tree, work, names, path, report)?;
    stamp_replaced(tree, work.alloc, names, stamp, answer);
    Ok(answer)
}

/// Verifies the day with this path from ROOT, and gives its records the place of its file, which is set aside.
pub fn replace_path<T: Tree>(
    tree: &mut T,
    work: &DayWork<'_>,
    path: &str,
) -> Result<DayAnswer, TreeFault>
    requires apart { AreThreeFolders work.now }
    requires day { (day : SdsPath) × ReadsAsDay path.now day }
    ensures { Goes (T.went tree.old) (T.went tree.new)
        (Replaces work.now (names_in work.now path.now) (report_in work.now path.now) (stamp_in work.now path.now) result) }
{
    let names = DayNames::new(work, path)?;
    let report = report_of(work, path)?;
    let stamp = StampNames::new(work, path)?;
    replace_stamped(tree, work, &names, &stamp, path, report.as_str())
}

fn restore_named<T: Tree>(tree: &mut T, names: &DayNames) -> Result<DayRestored, TreeFault>
    requires { AreNames names.now }
    ensures { Goes (T.went tree.old) (T.went tree.new) (PutsBackDay names.now result) }
{
    let told = restore_day(tree, names)?;
    Ok(restored_of(told))
}

/// The same, and then the day is stamped.
fn restore_stamped<T: Tree>(
    tree: &mut T,
    work: &DayWork<'_>,
    names: &DayNames,
    stamp: &StampNames,
) -> Result<DayRestored, TreeFault>
    requires names { AreNames names.now }
    requires stamp { AreStampNames names.now stamp.now }
    ensures { Goes (T.went tree.old) (T.went tree.new) (RestoresDay names.now stamp.now result) }
{
    let answer = restore_named(tree, names)?;
    stamp_restored(tree, work.alloc, names, stamp, answer);
    Ok(answer)
}

/// Gives the original of the day with this path its place again; its records go back to OUT.
pub fn restore_path<T: Tree>(
    tree: &mut T,
    work: &DayWork<'_>,
    path: &str,
) -> Result<DayRestored, TreeFault>
    requires apart { AreThreeFolders work.now }
    requires day { (day : SdsPath) × ReadsAsDay path.now day }
    ensures { Goes (T.went tree.old) (T.went tree.new) (RestoresDay (names_in work.now path.now) (stamp_in work.now path.now) result) }
{
    let names = DayNames::new(work, path)?;
    let stamp = StampNames::new(work, path)?;
    restore_stamped(tree, work, &names, &stamp)
}
