//! The text of a report, written to a sink.
ghost use Rattle.std.specs.Prelude.{◌↔◌, ℕ, List, MatchResult, OnOk, IsErrOf};
ghost use Rattle.msr_devices.specs.Device.{CanCountCall, CountsFew, HasFailed, IsCalm, Takes};
ghost use Rattle.msr_report.specs.Proper.{IsProper};
ghost use Rattle.msr_report.specs.Text.{IsReportText};
ghost use Rattle.msr_report.specs.Writing.{TakesPrefix};

use crate::lines::{push_end_line, push_first_lines, push_segment};
use crate::report::Report;
use msr_devices::{DeviceFault, Sink, WriteBuffer};
use std::alloc::Global;

impl Report {
    /// Writes the text of the report. At an `Err` the sink took a prefix of it.
    pub fn write_text<W: Sink>(&self, alloc: Global, sink: &mut W) -> Result<(), DeviceFault>
        requires report { IsProper self.now }
        requires count { CanCountCall (W.device sink.old) }
        ensures text { (text : List ℕ) × (IsReportText self.now text
            × MatchResult result (λ _. Takes (W.device sink.old) (W.device sink.new) text)
            (λ _. TakesPrefix (W.device sink.old) (W.device sink.new) text)) }
        ensures write { IsErrOf result DeviceFault.Failed ↔ HasFailed (W.device sink.old) (W.device sink.new) }
        ensures calm { OnOk result (IsCalm (W.device sink.old) (W.device sink.new)) }
        ensures few { CountsFew (W.device sink.old) (W.device sink.new) }
    {
        let mut buffer = WriteBuffer::new(alloc);
        push_first_lines(alloc, &mut buffer.bytes, self)?;
        let mut records = 0;
        for line in &self.segments {
            push_segment(alloc, &mut buffer.bytes, line)?;
            buffer.flush_full(sink)?;
            records += line.records;
        }
        let segments = self.segments.len() as u64;
        push_end_line(alloc, &mut buffer.bytes, segments, records)?;
        buffer.flush(sink)?;
        Ok(())
    }
}
