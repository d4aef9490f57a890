//! The three files of a day: which they are, and what they show.
ghost use Rattle.std.specs.Prelude.{◌≡◌, IfErr, IfOk, true};
ghost use Rattle.msr_devices.specs.Device.{CanCountCall};
ghost use Rattle.msr_devices.specs.declared.fault.DeviceFault.TheVariants.{Memory};
ghost use Rattle.msr_tree.specs.Calls.{Goes};
ghost use Rattle.msr_verify.specs.Entries.{IsJudgementOfDay};
ghost use Rattle.msr_verify.specs.Files.{JudgesDay, JudgesNamed, asks_again, day_places};
ghost use Rattle.msr_verify.specs.Opening.{AreTwoFiles, JudgesAlone, JudgesSegments, MayHave, OpensAlone, OpensDay, OpensFile, RefusesAs, RefusesDay, places_at};
ghost use Rattle.msr_verify.specs.declared.judgement.Refusal.TheVariants.{SameFile};

use crate::judgement::{Judgement, Refusal, judgement_alone, judgement_of};
use crate::judging::{report_fault, verify_alone, verify_day};
use msr_devices::{DeviceFault, Source};
use msr_folders::{ended, join, misplaced};
use msr_options::{Folders, Names};
use msr_report_reader::read_report;
use msr_tree::{Tree, TreeFault};
use std::alloc::Global;

/// Why the files of a day were not judged.
#[derive(Clone, Copy)]
pub(crate) enum Unjudged {
    Refused(Refusal),
    Memory,
}

/// Where the files of a day stand.
#[derive(Clone, Copy)]
pub(crate) struct Places<'a> {
    pub(crate) file: &'a str,
    pub(crate) records: &'a str,
    pub(crate) report: &'a str,
}

/// The files of a day without records.
#[derive(Drop)]
pub(crate) struct OpenAlone<R: Source> {
    file: R,
    report: R,
}

/// The files of a day.
#[derive(Drop)]
pub(crate) struct OpenDay<R: Source> {
    file: R,
    records: R,
    report: R,
}

/// What the files of the day with this path show. If it is asked for, its segments have to belong to it.
pub(crate) fn judge_day<T: Tree>(
    tree: &mut T,
    alloc: Global,
    folders: Folders<'_>,
    path: &str,
    names: Names,
) -> Result<Judgement, DeviceFault>
    ensures told { IfOk result IsJudgementOfDay }
    ensures err { IfErr result (λ fault. fault ≡ Memory) }
    ensures goes { Goes (T.went tree.old) (T.went tree.new)
        (JudgesNamed names (day_places folders.entry.root.now folders.entry.out.now folders.entry.reports.now path.now) result) }
{
    let file = join(alloc, folders.root, path)?;
    let records = join(alloc, folders.out, path)?;
    let report = join(alloc, folders.reports, path)?;
    let report = ended(alloc, report.as_str(), ".txt")?;
    let places = Places {
        file: file.as_str(),
        records: records.as_str(),
        report: report.as_str(),
    };
    judge_named(tree, alloc, places, names)
}

/// The same of the files in these places.
fn judge_named<T: Tree>(
    tree: &mut T,
    alloc: Global,
    places: Places<'_>,
    names: Names,
) -> Result<Judgement, DeviceFault>
    ensures told { IfOk result IsJudgementOfDay }
    ensures err { IfErr result (λ fault. fault ≡ Memory) }
    ensures goes { Goes (T.went tree.old) (T.went tree.new) (JudgesNamed names (places_at places.entry) result) }
{
    let judgement = judge_at(tree, alloc, places)?;
    if !asks_again(names, judgement) {
        return Ok(judgement);
    }
    judge_segments(tree, alloc, places.report, names, judgement)
}

/// Whether it is asked of a day with this judgement whether its segments belong to it.
fn asks_again(names: Names, judgement: Judgement) -> bool
    ensures { result ≡ asks_again names judgement }
{
    match names {
        Names::Of(_) => matches!(judgement, Judgement::Verified | Judgement::InPlace),
        Names::Any | Names::Own => false,
    }
}

/// The same judgement of such a day, unless the segments that its report tells do not belong to it.
fn judge_segments<T: Tree>(
    tree: &mut T,
    alloc: Global,
    report: &str,
    names: Names,
    judgement: Judgement,
) -> Result<Judgement, DeviceFault>
    ensures told { IsJudgementOfDay judgement → IfOk result IsJudgementOfDay }
    ensures err { IfErr result (λ fault. fault ≡ Memory) }
    ensures goes { asks_again names judgement ≡ true →
        Goes (T.went tree.old) (T.went tree.new) (JudgesSegments names report.now judgement result) }
{
    let mut source = match open(tree, report, Refusal::ReportUnopened) {
        Ok(source) => source,
        Err(Unjudged::Refused(refusal)) => return Ok(Judgement::Refused(refusal)),
        Err(Unjudged::Memory) => return Err(DeviceFault::Memory),
    };
    match read_report(alloc, &mut source) {
        Ok(report) => match misplaced(&report, names) {
            Some(found) => Ok(Judgement::Misplaced(found)),
            None => Ok(judgement),
        },
        Err(fault) => Ok(Judgement::Refused(Refusal::Day(report_fault(fault)))),
    }
}

/// What the files in these places show.
fn judge_at<T: Tree>(
    tree: &mut T,
    alloc: Global,
    places: Places<'_>,
) -> Result<Judgement, DeviceFault>
    ensures told { IfOk result IsJudgementOfDay }
    ensures err { IfErr result (λ fault. fault ≡ Memory) }
    ensures goes { Goes (T.went tree.old) (T.went tree.new) (JudgesDay (places_at places.entry) result) }
{
    if !may_have(tree, places.report)? {
        return Ok(Judgement::Missing);
    }
    if !may_have(tree, places.records)? {
        return judge_alone(tree, alloc, places);
    }
    judge_files(tree, alloc, places)
}

/// What the day's own file and the report show, if there are no records.
fn judge_alone<T: Tree>(
    tree: &mut T,
    alloc: Global,
    places: Places<'_>,
) -> Result<Judgement, DeviceFault>
    ensures told { IfOk result IsJudgementOfDay }
    ensures err { IfErr result (λ fault. fault ≡ Memory) }
    ensures goes { Goes (T.went tree.old) (T.went tree.new) (JudgesAlone (places_at places.entry) result) }
{
    match open_alone(tree, places) {
        Ok(mut day) => Ok(judgement_alone(verify_alone(alloc, &mut day.file, &mut day.report))),
        Err(Unjudged::Refused(_)) => Ok(Judgement::Missing),
        Err(Unjudged::Memory) => Err(DeviceFault::Memory),
    }
}

/// What they show, if there are records and a report.
fn judge_files<T: Tree>(
    tree: &mut T,
    alloc: Global,
    places: Places<'_>,
) -> Result<Judgement, DeviceFault>
    ensures told { IfOk result IsJudgementOfDay }
    ensures err { IfErr result (λ fault. fault ≡ Memory) }
    ensures goes { Goes (T.went tree.old) (T.went tree.new) (JudgesDay (places_at places.entry) result) }
{
    match open_day(tree, places) {
        Ok(mut day) => Ok(judgement_of(verify_day(
            alloc,
            &mut day.file,
            &mut day.records,
            &mut day.report,
        ))),
        Err(Unjudged::Refused(refusal)) => Ok(Judgement::Refused(refusal)),
        Err(Unjudged::Memory) => Err(DeviceFault::Memory),
    }
}

/// Whether something stands there, as far as the tree tells.
pub(crate) fn may_have<T: Tree>(tree: &mut T, path: &str) -> Result<bool, DeviceFault>
    ensures err { IfErr result (λ fault. fault ≡ Memory) }
    ensures goes { Goes (T.went tree.old) (T.went tree.new) (MayHave path.now result) }
{
    match tree.has(path) {
        Ok(answer) => Ok(answer),
        Err(TreeFault::Failed) => Ok(true),
        Err(TreeFault::Memory) => Err(DeviceFault::Memory),
    }
}

/// Opens a file of a day.
fn open<T: Tree>(tree: &mut T, path: &str, refusal: Refusal) -> Result<T::Reader, Unjudged>
    ensures count { IfOk result (λ reader. CanCountCall (T.Reader.device reader)) }
    ensures refuses { IfErr result (RefusesAs refusal) }
    ensures goes { Goes (T.went tree.old) (T.went tree.new)
        (OpensFile path.now refusal (λ reader. T.Reader.device reader) result) }
{
    match tree.follow(path) {
        Ok(reader) => Ok(reader),
        Err(TreeFault::Failed) => Err(Unjudged::Refused(refusal)),
        Err(TreeFault::Memory) => Err(Unjudged::Memory),
    }
}

/// Refuses records that may be the day's own file under another name.
fn require_apart<T: Tree>(tree: &mut T, file: &str, records: &str) -> Result<(), Unjudged>
    ensures refuses { IfErr result (RefusesAs SameFile) }
    ensures goes { Goes (T.went tree.old) (T.went tree.new) (AreTwoFiles file.now records.now result) }
{
    match tree.is_one(file, records) {
        Ok(false) => Ok(()),
        Ok(true) => Err(Unjudged::Refused(Refusal::SameFile)),
        Err(TreeFault::Failed) => Err(Unjudged::Refused(Refusal::SameFile)),
        Err(TreeFault::Memory) => Err(Unjudged::Memory),
    }
}

/// Opens the files of a day without records, before one is read.
fn open_alone<T: Tree>(tree: &mut T, places: Places<'_>) -> Result<OpenAlone<T::Reader>, Unjudged>
    ensures count { IfOk result (λ day. CanCountCall (T.Reader.device day.file) × CanCountCall (T.Reader.device day.report)) }
    ensures goes { Goes (T.went tree.old) (T.went tree.new) (OpensAlone (places_at places.entry) (λ reader. T.Reader.device reader) result) }
{
    let report = open(tree, places.report, Refusal::ReportUnopened)?;
    let file = open(tree, places.file, Refusal::FileUnopened)?;
    Ok(OpenAlone { file, report })
}

/// Opens the files of a day, before one is read.
fn open_day<T: Tree>(tree: &mut T, places: Places<'_>) -> Result<OpenDay<T::Reader>, Unjudged>
    ensures count { IfOk result (λ day. CanCountCall (T.Reader.device day.file) × CanCountCall (T.Reader.device day.records)
        × CanCountCall (T.Reader.device day.report)) }
    ensures refuses { IfErr result RefusesDay }
    ensures goes { Goes (T.went tree.old) (T.went tree.new) (OpensDay (places_at places.entry) (λ reader. T.Reader.device reader) result) }
{
    let report = open(tree, places.report, Refusal::ReportUnopened)?;
    let records = open(tree, places.records, Refusal::RecordsUnopened)?;
    require_apart(tree, places.file, places.records)?;
    let file = open(tree, places.file, Refusal::FileUnopened)?;
    Ok(OpenDay {
        file,
        records,
        report,
    })
}
