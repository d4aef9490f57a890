//! Checking packed records with their report.
ghost use Rattle.std.specs.Prelude.{◌≡◌, ◌⊎◌, ◌↔◌, List, ℕ, IsErrOf};
ghost use Rattle.msr_devices.specs.Device.{CanCountCall, CountsFew, HasFailed, HasLeft};
ghost use Rattle.msr_tool.specs.Checking.{CheckAnswers, GivesReport};

use crate::fault::ToolFault;
use msr_devices::Source;
use msr_report_reader::read_report;
use msr_verdict::{Verdict, verify_packed};
use std::alloc::Global;

/// Reads a report, and then the packed records, and says whether the report shows that each segment of the records
/// stands in the fewest. The counts of the report are of the records before they were packed, and are not looked at.
pub fn check_packed<R: Source, Q: Source>(
    alloc: Global,
    packed: &mut R,
    report: &mut Q,
) -> Result<Verdict, ToolFault>
    requires packed { CanCountCall (R.device packed.old) }
    requires report { CanCountCall (Q.device report.old) }

    // What is answered, for the bytes that the sources have.
    ensures answer { (input : List ℕ) × (text : List ℕ) × HasLeft (R.device packed.old) input
        × HasLeft (Q.device report.old) text × CheckAnswers input text result }

    // A failure of a source is answered as such, and nothing else is.
    ensures read { IsErrOf result ToolFault.Read
        ↔ (HasFailed (R.device packed.old) (R.device packed.new)
        ⊎ HasFailed (Q.device report.old) (Q.device report.new)) }

    // The report is read first: if the text is none, if its source fails, or if memory is refused while it is read,
    // no record was read.
    ensures untouched { (line : ℕ) → result ≡ Err (ToolFault.Report line) → packed.new ≡ packed.old }
    ensures unread { HasFailed (Q.device report.old) (Q.device report.new) → packed.new ≡ packed.old }
    ensures report_first { (packed.new ≡ packed.old) ⊎ GivesReport (Q.device report.old) }
    ensures few_packed { CountsFew (R.device packed.old) (R.device packed.new) }
    ensures few_report { CountsFew (Q.device report.old) (Q.device report.new) }
{
    let report = read_report(alloc, report)?;
    let verdict = verify_packed(alloc, packed, &report)?;
    Ok(verdict)
}
