//! The bytes of a day: from a source to two sinks, and back.
ghost use Rattle.std.specs.Prelude.{◌≡◌, ◌↔◌, ◌⊎◌, ◌+◌, [], false, ◌*◌, IfOk, IfSome, IsErrOf};
ghost use Rattle.msr_devices.specs.Device.{CanCountCall, HasFailed};
ghost use Rattle.msr_tree.specs.Calls.{Goes};
ghost use Rattle.msr_tree.specs.Folders.{ChangesFiles};
ghost use Rattle.msr_tree.specs.Reads.{OnlyLooks};
ghost use Rattle.msr_options.specs.Choice.{record_size};
ghost use Rattle.msr_report.specs.Proper.{IsProper, records_in};
ghost use Rattle.msr_folders.specs.Totals.{saturated};
ghost use Rattle.msr_making.specs.Day.{HasBytesWritten, IsReportLeft, RepacksDay, RepacksPlaced, samples_of_lines, VerifiesRepack, told_of_report, told_of};

use crate::answer::{DayFault, Repacked};
use msr_base::Length;
use msr_compare::{CompareFault, Comparison};
use msr_devices::{DeviceFault, ReadBuffer, Sink, Source};
use msr_folders::misplaced;
use msr_header::{read_header, record_length};
use msr_input::ReadFault;
use msr_options::{DayOptions, Options};
use msr_report::Report;
use msr_report_reader::{ReportFault, read_report};
use msr_tool::{ToolFault, repack_and_report};
use msr_tree::{Tree, TreeFault};
use msr_verdict::verify_beside;
use std::alloc::{AllocError, Global};

/// How many bytes the longest record has that is written.
const LONGEST: usize = 65_536;

fn records_written(report: &Report) -> u64
    requires { IsProper report.now }
    ensures { result ≡ records_in report.now.segments.items }
{
    let mut records = 0;
    for line in &report.segments {
        records += line.records;
    }
    records
}

/// How many samples the segments of a report have, or the greatest number of 64 bits if they are more.
pub(crate) fn samples_reported(report: &Report) -> u64
    ensures { result ≡ saturated (samples_of_lines report.now.segments.items) }
{
    let mut samples: u64 = 0;
    for line in &report.segments {
        samples = samples.saturating_add(line.samples);
    }
    samples
}

/// The bytes of so many records, or the greatest number of 64 bits if they are more.
pub(crate) fn bytes_of_records(records: u64, options: Options) -> u64
    ensures { result ≡ saturated (records * record_size options) }
{
    records.saturating_mul(u64::from(options.length().bytes()))
}

/// The length of the record that the source begins with, if records are written in it, else the other.
pub(crate) fn first_length<S: Source>(
    alloc: Global,
    source: &mut S,
    other: Length,
) -> Result<Length, AllocError>
    requires { CanCountCall (S.device source.old) }
{
    let mut front = ReadBuffer::new(alloc);
    match front.fill(source, LONGEST) {
        Ok(()) => {}
        Err(DeviceFault::Memory) => return Err(AllocError),
        Err(DeviceFault::Failed) => return Ok(other),
    }
    let own = match read_header(front.bytes()) {
        Ok(header) if header.exponent <= 16 => Length::new(record_length(header.exponent)),
        _ => None,
    };
    Ok(own.unwrap_or(other))
}

/// What a report tells of a day that was repacked so, with the bytes that the input has.
fn counted(report: &Report, bytes_read: u64, options: Options) -> Repacked
    requires { IsProper report.now }
    ensures read { result.read ≡ report.now.counts.read }
    ensures written { result.written ≡ records_in report.now.segments.items }
    ensures input { result.bytes_read ≡ bytes_read }
    ensures bytes { HasBytesWritten options result }
    ensures samples { result.samples ≡ saturated (samples_of_lines report.now.segments.items) }
{
    let written = records_written(report);
    Repacked {
        read: report.counts.read,
        written,
        bytes_read,
        bytes_written: bytes_of_records(written, options),
        samples: samples_reported(report),
    }
}

/// Repacks a day, and counts its records and bytes.
pub fn repack_day_of<S: Source, W: Sink, T: Sink>(
    alloc: Global,
    source: &mut S,
    bytes_read: u64,
    records: &mut W,
    text: &mut T,
    options: Options,
) -> Result<Repacked, ToolFault>
    requires source { CanCountCall (S.device source.old) }
    requires records { CanCountCall (W.device records.old) }
    requires text { CanCountCall (T.device text.old) }
    ensures read { IfOk result (λ repacked. repacked.bytes_read ≡ bytes_read) }
    ensures repacks { RepacksDay options (S.device source.old) (W.device records.old) (W.device records.new)
        (T.device text.old) (T.device text.new) result }
{
    let report = repack_and_report(alloc, source, records, text, options)?;
    Ok(counted(&report, bytes_read, options))
}

/// The same of a day to which its segments have to belong, if that is asked for.
pub(crate) fn repack_placed<S: Source, W: Sink, T: Sink>(
    alloc: Global,
    source: &mut S,
    bytes_read: u64,
    records: &mut W,
    text: &mut T,
    asked: &DayOptions,
) -> Result<Repacked, DayFault>
    requires source { CanCountCall (S.device source.old) }
    requires records { CanCountCall (W.device records.old) }
    requires text { CanCountCall (T.device text.old) }
    ensures read { IfOk result (λ repacked. repacked.bytes_read ≡ bytes_read) }
    ensures repacks { RepacksPlaced asked.now (S.device source.old) (W.device records.old) (W.device records.new)
        (T.device text.old) (T.device text.new) result }
{
    let report = match repack_and_report(alloc, source, records, text, asked.options) {
        Ok(report) => report,
        Err(fault) => return Err(DayFault::Tool(fault)),
    };
    if let Some(found) = misplaced(&report, asked.names) {
        return Err(DayFault::Misplaced(found));
    }
    Ok(counted(&report, bytes_read, asked.options))
}

/// The counts of the report that the source has, if it is one of these options, and its segments belong to the day if that
/// is asked for, with the bytes that the input has. A report does not say whether reading was strict, and a strict repack
/// writes what any other does that counts no mismatch.
pub(crate) fn counts_kept<S: Source>(
    alloc: Global,
    source: &mut S,
    asked: &DayOptions,
    bytes_read: u64,
) -> Option<Repacked>
    requires { CanCountCall (S.device source.old) }
    ensures left { IfSome result (λ repacked. IsReportLeft asked.now (S.device source.old) repacked) }
    ensures read { IfSome result (λ repacked. repacked.bytes_read ≡ bytes_read) }
{
    let Ok(report) = read_report(alloc, source) else {
        return None;
    };
    let options = asked.options;
    if report.length.bytes() != options.length().bytes()
        || report.kinds != options.form().kinds
        || report.tolerance != options.tolerance()
    {
        return None;
    }
    if options.is_strict() && report.counts.mismatched != 0 {
        return None;
    }
    if misplaced(&report, asked.names).is_some() {
        return None;
    }
    Some(counted(&report, bytes_read, options))
}

/// What is told of a day whose report is read again, and is at fault.
fn told_of_report(fault: ReportFault) -> DayFault
    ensures { result ≡ told_of_report fault }
{
    match fault {
        ReportFault::Line(_) => DayFault::NotShown,
        ReportFault::Read => DayFault::Tool(ToolFault::Read),
        ReportFault::Memory => DayFault::Tool(ToolFault::Memory),
    }
}

/// What is told of a day whose records, by their report, and beside them its own file have this answer. What is at fault
/// now was not when it was written, and when it was repacked.
fn told_of(answer: Result<Option<Comparison>, CompareFault>) -> Result<(), DayFault>
    ensures { result ≡ told_of answer }
{
    match answer {
        Ok(Some(Comparison::Same(_))) => Ok(()),
        Ok(Some(Comparison::Differ(_))) => Err(DayFault::Differs),
        Ok(None) => Err(DayFault::NotShown),
        Err(CompareFault::One(ReadFault::Input(_))) => Err(DayFault::NotShown),
        Err(CompareFault::Other(ReadFault::Input(_))) => Err(DayFault::Differs),
        Err(CompareFault::One(ReadFault::Read) | CompareFault::Other(ReadFault::Read)) => {
            Err(DayFault::Tool(ToolFault::Read))
        }
        Err(CompareFault::One(ReadFault::Memory) | CompareFault::Other(ReadFault::Memory)) => {
            Err(DayFault::Tool(ToolFault::Memory))
        }
    }
}

/// Holds the records that were written for a day against their report, and beside them against its own file; each is read
/// once. Records that end in the last microsecond of the supported years may not be readable, and a report does not show
/// these; so what an honest repack wrote never differs.
pub(crate) fn require_verified<F: Source, P: Source, Q: Source>(
    alloc: Global,
    file: &mut F,
    packed: &mut P,
    report: &mut Q,
    options: Options,
) -> Result<(), DayFault>
    requires file { CanCountCall (F.device file.old) }
    requires packed { CanCountCall (P.device packed.old) }
    requires report { CanCountCall (Q.device report.old) }
    ensures answer { VerifiesRepack options (F.device file.old) (P.device packed.old) (Q.device report.old) result }

    // A failure of a source is answered as such, and nothing else is.
    ensures read { IsErrOf result (DayFault.Tool ToolFault.Read)
        ↔ (HasFailed (F.device file.old) (F.device file.new)
        ⊎ (HasFailed (P.device packed.old) (P.device packed.new)
        ⊎ HasFailed (Q.device report.old) (Q.device report.new))) }
{
    let report = match read_report(alloc, report) {
        Ok(report) => report,
        Err(fault) => return Err(told_of_report(fault)),
    };
    if report.tolerance != options.tolerance() {
        return Err(DayFault::NotShown);
    }
    told_of(verify_beside(alloc, packed, file, &report))
}

/// The length of this day's records: if each day's own is asked for, that of its first record, if that is one that is
/// written.
pub fn day_length<T: Tree>(
    tree: &mut T,
    alloc: Global,
    input: &str,
    days: &DayOptions,
) -> Result<Length, AllocError>
    ensures own { IfOk result (λ length. days.now.same_length ≡ false → length ≡ days.now.options.record_length) }
    ensures goes { Goes (T.went tree.old) (T.went tree.new) (ChangesFiles []) }
    ensures looks { Goes (T.went tree.old) (T.went tree.new) OnlyLooks }
{
    let length = days.options.length();
    if !days.same_length {
        return Ok(length);
    }
    match tree.follow(input) {
        Ok(mut source) => first_length(alloc, &mut source, length),
        Err(TreeFault::Failed) => Ok(length),
        Err(TreeFault::Memory) => Err(AllocError),
    }
}
