//! What the three files of a day show, which is under contract: from sources to an answer.
ghost use Rattle.std.specs.Prelude.{◌≡◌, ◌↔◌, IsErrOf};
ghost use Rattle.msr_devices.specs.Device.{CanCountCall, HasFailed};
ghost use Rattle.msr_verify.specs.Day.{VerifiesAlone, VerifiesDay, alone_of, finding_of, verify_fault_of_report};

use msr_compare::{CompareFault, Comparison};
use msr_devices::Source;
use msr_folders::ToldFault;
use msr_input::ReadFault;
use msr_report_reader::{ReportFault, read_report};
use msr_verdict::{Verdict, verify_beside, verify_packed};
use std::alloc::Global;
use std::error::Error;
use std::fmt;

/// What the three files of a day show.
#[derive(Clone, Copy, PartialEq, Eq)]
pub enum Finding {
    /// The report shows that the records are the fewest, and they have the same segments as the day's file.
    Verified,
    /// The report does not show that the records are the fewest.
    NotShown,
    /// The report shows it, and the records have not the same segments as the day's file.
    Differs,
}

/// Which of the three files is at fault, and its fault.
#[derive(Clone, Copy, Debug, PartialEq, Eq)]
pub enum VerifyFault {
    /// The day's own file.
    File(ReadFault),
    /// The records.
    Records(ReadFault),
    /// This line of the report, from 1, is the first at fault.
    ReportLine(u64),
    /// The source of the report failed.
    ReportRead,
    /// Memory was refused while the report was read.
    ReportMemory,
}

impl fmt::Display for VerifyFault {
    ghost use Rattle.std.specs.Prelude.{Some};
    ghost use Rattle.msr_verify.specs.Lines.{verify_fault_text};

    ghost output = { λ fault. Some (verify_fault_text fault) };

    fn fmt<W: fmt::Write>(&self, f: &mut fmt::Formatter<W>) -> fmt::Result {
        match self {
            VerifyFault::File(fault) => {
                let told = ToldFault { fault: *fault };
                write!(f, "file: {told}")
            }
            VerifyFault::Records(fault) => {
                let told = ToldFault { fault: *fault };
                write!(f, "records: {told}")
            }
            VerifyFault::ReportLine(line) => write!(f, "report: line {line}"),
            VerifyFault::ReportRead => f.write_str("report: read fault"),
            VerifyFault::ReportMemory => f.write_str("report: out of memory"),
        }
    }
}

impl Error for VerifyFault {}

pub(crate) fn report_fault(fault: ReportFault) -> VerifyFault
    ensures { result ≡ verify_fault_of_report fault }
{
    match fault {
        ReportFault::Line(line) => VerifyFault::ReportLine(line),
        ReportFault::Read => VerifyFault::ReportRead,
        ReportFault::Memory => VerifyFault::ReportMemory,
    }
}

/// What is found of the records, by their report, and of the day's own file beside them.
fn finding_of(answer: Result<Option<Comparison>, CompareFault>) -> Result<Finding, VerifyFault>
    ensures { result ≡ finding_of answer }
{
    match answer {
        Ok(Some(Comparison::Same(_))) => Ok(Finding::Verified),
        Ok(Some(Comparison::Differ(_))) => Ok(Finding::Differs),
        Ok(None) => Ok(Finding::NotShown),
        Err(CompareFault::One(fault)) => Err(VerifyFault::Records(fault)),
        Err(CompareFault::Other(fault)) => Err(VerifyFault::File(fault)),
    }
}

/// What is found of the day's own file by the report.
fn alone_of(answer: Result<Verdict, ReadFault>) -> Result<bool, VerifyFault>
    ensures { result ≡ alone_of answer }
{
    match answer {
        Ok(Verdict::Least) => Ok(true),
        Ok(Verdict::NotShown) => Ok(false),
        Err(ReadFault::Input(_)) => Ok(false),
        Err(ReadFault::Read) => Err(VerifyFault::File(ReadFault::Read)),
        Err(ReadFault::Memory) => Err(VerifyFault::File(ReadFault::Memory)),
    }
}

/// Whether the report shows that the day's own file is records, and the fewest.
pub(crate) fn verify_alone<F: Source, Q: Source>(
    alloc: Global,
    file: &mut F,
    report: &mut Q,
) -> Result<bool, VerifyFault>
    requires file { CanCountCall (F.device file.old) }
    requires report { CanCountCall (Q.device report.old) }
    ensures { VerifiesAlone (F.device file.old) (Q.device report.old) result }
{
    match read_report(alloc, report) {
        Ok(report) => alone_of(verify_packed(alloc, file, &report)),
        Err(ReportFault::Line(_)) => Ok(false),
        Err(ReportFault::Read) => Err(VerifyFault::ReportRead),
        Err(ReportFault::Memory) => Err(VerifyFault::ReportMemory),
    }
}

/// Reads the report, and then the records and the day's own file side by side, each once: the records that are compared
/// are those that were judged by the report. What is not needed is not read.
pub fn verify_day<F: Source, P: Source, Q: Source>(
    alloc: Global,
    file: &mut F,
    records: &mut P,
    report: &mut Q,
) -> Result<Finding, VerifyFault>
    requires file { CanCountCall (F.device file.old) }
    requires records { CanCountCall (P.device records.old) }
    requires report { CanCountCall (Q.device report.old) }

    // What is answered, for the bytes that the sources have.
    ensures answer { VerifiesDay (F.device file.old) (P.device records.old) (Q.device report.old) result }

    // A failure of a source is answered as such, and nothing else is.
    ensures read_file { IsErrOf result (VerifyFault.File ReadFault.Read)
        ↔ HasFailed (F.device file.old) (F.device file.new) }
    ensures read_records { IsErrOf result (VerifyFault.Records ReadFault.Read)
        ↔ HasFailed (P.device records.old) (P.device records.new) }
    ensures read_report { IsErrOf result VerifyFault.ReportRead
        ↔ HasFailed (Q.device report.old) (Q.device report.new) }
{
    match read_report(alloc, report) {
        Ok(report) => finding_of(verify_beside(alloc, records, file, &report)),
        Err(fault) => Err(report_fault(fault)),
    }
}
