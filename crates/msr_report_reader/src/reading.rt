//! A report read from a source, or from its text.
ghost use Rattle.std.specs.Prelude.{◌↔◌, List, ℕ, IfErr, IfOk, IsErrOf};
ghost use Rattle.msr_devices.specs.Device.{CanCountCall, CountsFew, HasFailed, HasLeft};
ghost use Rattle.msr_report_reader.specs.Reading.{IsReadFrom, ReadsReport};
ghost use Rattle.msr_report_reader.specs.TextFault.{IsTextFault};

use crate::draft::{Draft, Progress};
use crate::fault::ReportFault;
use msr_devices::{ReadBuffer, Source};
use msr_report::Report;
use std::alloc::Global;

/// Reads a report to the end of the source, or until a line of it is at fault. Bytes are asked for only when those
/// that came decide nothing more.
pub fn read_report<Q: Source>(alloc: Global, source: &mut Q) -> Result<Report, ReportFault>
    requires { CanCountCall (Q.device source.old) }
    ensures answer { (text : List ℕ) × HasLeft (Q.device source.old) text × ReadsReport text result }
    ensures read { IsErrOf result ReportFault.Read ↔ HasFailed (Q.device source.old) (Q.device source.new) }
    ensures few { CountsFew (Q.device source.old) (Q.device source.new) }
{
    let mut buffer = ReadBuffer::new(alloc);
    let mut draft = Draft::new(alloc);
    'reading: while !buffer.has_ended() {
        match draft.step(buffer.bytes())? {
            Progress::Consumed(count) => buffer.consume(count),
            Progress::Cut(_) | Progress::Whole(_) => {
                let want = buffer.bytes().len().saturating_add(1);
                buffer.fill(source, want)?;
            }
        }
    }
    draft.finish(buffer.bytes())
}

/// The report whose text it is.
pub fn report_of(alloc: Global, text: &[u8]) -> Result<Report, ReportFault>
    ensures found { IfOk result (λ report. IsReadFrom report text.now) }
    ensures fault { IfErr result (IsTextFault text.now) }
{
    Draft::new(alloc).finish(text)
}
