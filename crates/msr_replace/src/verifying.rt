//! What the bytes under the names of a day show.
ghost use Rattle.std.specs.Prelude.{◌≡◌, [], IfOk, IfSome};
ghost use Rattle.msr_devices.specs.Device.{CanCountCall};
ghost use Rattle.msr_report.specs.Proper.{IsProper};
ghost use Rattle.msr_tree.specs.Acts.{Acts};
ghost use Rattle.msr_tree.specs.Calls.{Goes};
ghost use Rattle.msr_replace.specs.Judging.{FindsOpen, IsLeastBy, IsLeastIf, IsOpenedDay, IsOpenedBeside, IsOpenedBy, ShowsItself, ShowsItselfBy, TellsKinds, kinds_refusal, opened_as_found};

use crate::answers::{DayAnswer, DayRefusal};
use crate::kinds::has_int24;
use msr_devices::Source;
use msr_exchange::{DayNames, DayWork, Place};
use msr_input::ReadFault;
use msr_report::Report;
use msr_report_reader::read_report;
use msr_tree::{Tree, TreeFault};
use msr_verdict::{Verdict, verify_packed};
use msr_verify::{Finding, VerifyFault, verify_day};
use std::alloc::Global;

/// What opening and verifying the three files gives.
#[derive(Clone, Copy)]
pub(crate) enum Opened {
    Verified,
    Told(DayAnswer),
}

fn opened_of(answer: Result<Finding, VerifyFault>) -> Opened
    ensures { result ≡ opened_as_found answer }
{
    match answer {
        Ok(Finding::Verified) => Opened::Verified,
        Ok(Finding::NotShown) => Opened::Told(DayAnswer::NotShown),
        Ok(Finding::Differs) => Opened::Told(DayAnswer::Differs),
        Err(fault) => Opened::Told(DayAnswer::Refused(DayRefusal::Fault(fault))),
    }
}

/// A file that cannot be opened.
fn unopened(refusal: DayRefusal) -> Opened
    ensures { result ≡ Opened.Told (DayAnswer.Refused refusal) }
{
    Opened::Told(DayAnswer::Refused(refusal))
}

/// Opens a file to be read, or tells that the system refuses it.
fn open_at<T: Tree>(tree: &mut T, path: &str) -> Result<Option<T::Reader>, TreeFault>
    ensures went { Goes (T.went tree.old) (T.went tree.new)
        (Acts [] (FindsOpen path.now (λ reader. T.Reader.device reader)) result) }
    ensures count { IfOk result (λ found. IfSome found (λ reader. CanCountCall (T.Reader.device reader))) }
{
    match tree.open(path) {
        Ok(reader) => Ok(Some(reader)),
        Err(TreeFault::Failed) => Ok(None),
        Err(TreeFault::Memory) => Err(TreeFault::Memory),
    }
}

/// Opens the day's file, and verifies it beside its records and their report.
fn verify_own<T: Tree>(
    tree: &mut T,
    work: &DayWork<'_>,
    names: &DayNames,
    text: &mut T::Reader,
    packed: &mut T::Reader,
) -> Result<Opened, TreeFault>
    requires text { CanCountCall (T.Reader.device text.old) }
    requires packed { CanCountCall (T.Reader.device packed.old) }
    ensures { Goes (T.went tree.old) (T.went tree.new)
        (Acts [] (IsOpenedBeside work.now names.now (T.Reader.device text.old) (T.Reader.device packed.old)) result) }
{
    match open_at(tree, names.at(Place::Day))? {
        Some(mut own) => {
            let answer = verify_day(work.alloc, &mut own, packed, text);
            Ok(opened_of(answer))
        }
        None => Ok(unopened(DayRefusal::FileUnopened)),
    }
}

/// Opens the records too.
fn verify_records<T: Tree>(
    tree: &mut T,
    work: &DayWork<'_>,
    names: &DayNames,
    text: &mut T::Reader,
) -> Result<Opened, TreeFault>
    requires { CanCountCall (T.Reader.device text.old) }
    ensures { Goes (T.went tree.old) (T.went tree.new)
        (Acts [] (IsOpenedBy work.now names.now (T.Reader.device text.old)) result) }
{
    match open_at(tree, names.at(Place::Records))? {
        Some(mut packed) => verify_own(tree, work, names, text, &mut packed),
        None => Ok(unopened(DayRefusal::RecordsUnopened)),
    }
}

/// Opens the report, the records and the day's file, and verifies them.
pub(crate) fn verify_files<T: Tree>(
    tree: &mut T,
    work: &DayWork<'_>,
    names: &DayNames,
    report: &str,
) -> Result<Opened, TreeFault>
    ensures { Goes (T.went tree.old) (T.went tree.new) (Acts [] (IsOpenedDay work.now names.now report.now) result) }
{
    match open_at(tree, report)? {
        Some(mut text) => verify_records(tree, work, names, &mut text),
        None => Ok(unopened(DayRefusal::ReportUnopened)),
    }
}

/// Whether the report shows that the records of this source are the fewest.
fn is_least<S: Source, Q: Source>(alloc: Global, records: &mut S, report: &mut Q) -> bool
    requires records { CanCountCall (S.device records.old) }
    requires report { CanCountCall (Q.device report.old) }
    ensures { IsLeastIf (S.device records.old) (Q.device report.old) result }
{
    match read_report(alloc, report) {
        Ok(report) => is_least_by(alloc, records, &report),
        Err(_) => false,
    }
}

fn is_least_by<S: Source>(alloc: Global, records: &mut S, report: &Report) -> bool
    requires records { CanCountCall (S.device records.old) }
    requires report { IsProper report.now }
    ensures { IsLeastBy report.now (S.device records.old) result }
{
    match verify_packed(alloc, records, report) {
        Ok(Verdict::Least) => true,
        Ok(Verdict::NotShown) => false,
        Err(_) => false,
    }
}

/// Whether the report shows the day's own file to be the fewest records, by a report that is open.
fn shows_own<T: Tree>(
    tree: &mut T,
    alloc: Global,
    names: &DayNames,
    text: &mut T::Reader,
) -> Result<bool, TreeFault>
    requires { CanCountCall (T.Reader.device text.old) }
    ensures { Goes (T.went tree.old) (T.went tree.new)
        (Acts [] (ShowsItselfBy names.now (T.Reader.device text.old)) result) }
{
    match open_at(tree, names.at(Place::Day))? {
        Some(mut own) => Ok(is_least(alloc, &mut own, text)),
        None => Ok(false),
    }
}

pub(crate) fn shows_itself<T: Tree>(
    tree: &mut T,
    alloc: Global,
    names: &DayNames,
    report: &str,
) -> Result<bool, TreeFault>
    ensures { Goes (T.went tree.old) (T.went tree.new) (Acts [] (ShowsItself names.now report.now) result) }
{
    match open_at(tree, report)? {
        Some(mut text) => shows_own(tree, alloc, names, &mut text),
        None => Ok(false),
    }
}

/// Why the records may not take the file's place: one of them has 24-bit integers, or they cannot be read any more.
pub(crate) fn look_for_int24<T: Tree>(
    tree: &mut T,
    alloc: Global,
    names: &DayNames,
) -> Result<Option<DayRefusal>, TreeFault>
    ensures { Goes (T.went tree.old) (T.went tree.new) (Acts [] (TellsKinds names.now) result) }
{
    match open_at(tree, names.at(Place::Records))? {
        Some(mut records) => Ok(kinds_refusal(has_int24(alloc, &mut records))),
        None => Ok(Some(DayRefusal::RecordsUnopened)),
    }
}

fn kinds_refusal(answer: Result<bool, ReadFault>) -> Option<DayRefusal>
    ensures { result ≡ kinds_refusal answer }
{
    match answer {
        Ok(true) => Some(DayRefusal::Int24),
        Ok(false) => None,
        Err(_) => Some(DayRefusal::RecordsUnopened),
    }
}
