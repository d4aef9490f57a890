//! A writer of segments with their lines, which takes the rows.
use crate::fault::ToolFault;
use msr_base::Form;
use msr_devices::Sink;
use msr_input::NextRecord;
use msr_record::{OpenSegment, SegmentWriter};
use msr_report::SegmentLine;
use msr_report_reader::line_in_range;
use msr_rows::Row;
use msr_segments::Step;
use std::alloc::Global;
use std::marker::Model;

/// Writes the segments of the rows that it takes, and keeps the line of each that has ended. It holds no more samples
/// than an open segment does. All calls take the same sink. After an `Err` it is not used again.
#[derive(Drop)]
pub(crate) struct LinedWriter {
    writer: SegmentWriter,
    lines: Vec<SegmentLine>,
    last: Option<OpenSegment>,
}

impl Model for LinedWriter {
    ghost use Rattle.msr_tool.specs.Writing.{Lined};

    ghost Value = { Lined };

    ghost view = { λ w. record { writing = w.writer; lines = w.lines.items; last = w.last } };
}

impl LinedWriter {
    ghost use Rattle.std.specs.Prelude.{◌≡◌, ◌≤◌, List, [], ◌++◌, length, map, Option, None, Some, IfSome, MatchResult, OnOk};
    ghost use Rattle.std.specs.Option.{option_to_list};
    ghost use Rattle.msr_devices.specs.Device.{Device, CanCountCall, CountsFew, IsCalm};
    ghost use Rattle.msr_segments.specs.Segments.{row_segment};
    ghost use Rattle.msr_segments.specs.declared.joiner.Segment.{Segment};
    ghost use Rattle.msr_input.specs.Reading.{IsWritable};
    ghost use Rattle.msr_record.specs.Decided.{IsEncoded};
    ghost use Rattle.msr_record.specs.Opened.{empty_segment};
    ghost use Rattle.msr_record.specs.Output.{Packed, segment_of_packed};
    ghost use Rattle.msr_tool.specs.Writing.{CanGrow, CanTakeRow, GoesOn, HasLined, LinesAll, LinesMore, StopsLining, all_with, current_with, ended_with, longer_current};

    /// A writer before the first row.
    pub(crate) fn new(alloc: Global, form: Form) -> LinedWriter
        ensures form { result.writing.form ≡ form }
        ensures last { result.last ≡ None }
        ensures none { (start : Device) → HasLined start start result [] None }
        ensures none_wait { result.writing.waiting ≡ [] }
    {
        LinedWriter {
            writer: SegmentWriter::new(alloc, form),
            lines: Vec::new(alloc),
            last: None,
        }
    }

    /// Ends the segment that was begun last, if there is one, and keeps its line.
    fn end_last<W: Sink>(&mut self, sink: &mut W) -> Result<(), ToolFault>
        requires count { CanCountCall (W.device sink.old) }
        requires last { IfSome self.old.last (GoesOn self.old.writing.form) }
        ensures written { (start : Device) (packed : List Packed) (current : Option Segment)
            → HasLined start (W.device sink.old) self.old packed current
            → MatchResult result
            (λ _. LinesMore start (W.device sink.new) self.new packed (option_to_list current) None)
            (StopsLining self.old.writing.form start (W.device sink.new)
            (map segment_of_packed packed ++ option_to_list current)) }
        ensures last { self.new.last ≡ None }
        ensures form { self.new.writing.form ≡ self.old.writing.form }
        ensures calm { OnOk result (IsCalm (W.device sink.old) (W.device sink.new)) }
        ensures few { CountsFew (W.device sink.old) (W.device sink.new) }
    {
        let Some(segment) = self.last.take() else {
            return Ok(());
        };
        let line = self.writer.end(sink, segment)?;
        line_in_range(&line);
        self.lines.push(line)?;
        Ok(())
    }

    /// Begins the segment of that row, whose samples are not yet taken. None is open.
    fn begin(&mut self, row: &Row)
        requires writable { IsWritable (row_segment row.now) }
        requires row { length row.now.samples ≤ 65_535 }
        requires last { self.old.last ≡ None }
        ensures begun { (start now : Device) (packed : List Packed) → HasLined start now self.old packed None
            → HasLined start now self.new packed (Some (empty_segment row.now.key row.now.start)) }
        ensures last { IfSome self.new.last (GoesOn self.new.writing.form) }
        ensures grows { IfSome self.new.last (CanGrow (length row.now.samples)) }
        ensures form { self.new.writing.form ≡ self.old.writing.form }
    {
        self.last = Some(self.writer.begin(row.key, row.start));
    }

    /// Writes the samples after those of the segment that was begun last, if there is one.
    fn push<W: Sink>(&mut self, sink: &mut W, samples: &[i32]) -> Result<(), ToolFault>
        requires count { CanCountCall (W.device sink.old) }
        requires last { IfSome self.old.last (GoesOn self.old.writing.form) }
        requires grows { IfSome self.old.last (CanGrow (length samples.now)) }
        ensures written { (start : Device) (packed : List Packed) (current : Option Segment)
            → HasLined start (W.device sink.old) self.old packed current
            → MatchResult result
            (λ _. HasLined start (W.device sink.new) self.new packed (longer_current current samples.now))
            (StopsLining self.old.writing.form start (W.device sink.new)
            (map segment_of_packed packed ++ option_to_list (longer_current current samples.now))) }
        ensures last { OnOk result (IfSome self.new.last (GoesOn self.new.writing.form)) }
        ensures encoded { OnOk result (IfSome self.new.last IsEncoded) }
        ensures form { self.new.writing.form ≡ self.old.writing.form }
        ensures few { CountsFew (W.device sink.old) (W.device sink.new) }
    {
        match &mut self.last {
            Some(segment) => {
                self.writer.push(sink, segment, samples)?;
                Ok(())
            }
            None => Ok(()),
        }
    }

    /// Takes the next record. One whose row begins a segment ends the segment before it, whose line is kept.
    #[inline(always)]
    pub(crate) fn take<W: Sink>(&mut self, sink: &mut W, next: &NextRecord) -> Result<(), ToolFault>
        requires count { CanCountCall (W.device sink.old) }
        requires last { IfSome self.old.last (GoesOn self.old.writing.form) }
        requires row { IfSome next.now.row (CanTakeRow self.old.last) }
        ensures written { (start : Device) (packed : List Packed) (current : Option Segment)
            → HasLined start (W.device sink.old) self.old packed current
            → MatchResult result
            (λ _. LinesMore start (W.device sink.new) self.new packed (option_to_list (ended_with next.now.row current))
            (current_with next.now.row current))
            (StopsLining self.old.writing.form start (W.device sink.new)
            (map segment_of_packed packed ++ all_with next.now.row current)) }
        ensures last { OnOk result (IfSome self.new.last (GoesOn self.new.writing.form)) }
        ensures encoded { IfSome self.old.last IsEncoded → OnOk result (IfSome self.new.last IsEncoded) }
        ensures form { self.new.writing.form ≡ self.old.writing.form }
        ensures few { CountsFew (W.device sink.old) (W.device sink.new) }
    {
        let Some(found) = &next.row else {
            return Ok(());
        };
        match found.step {
            Step::Begins => {
                self.end_last(sink)?;
                self.begin(&found.row);
                self.push(sink, found.row.samples.as_slice())
            }
            Step::Joins => self.push(sink, found.row.samples.as_slice()),
        }
    }

    /// Writes all that waits, while records may still come.
    pub(crate) fn flush<W: Sink>(&mut self, sink: &mut W) -> Result<(), ToolFault>
        requires count { CanCountCall (W.device sink.old) }
        requires last { IfSome self.old.last (GoesOn self.old.writing.form) }
        ensures written { (start : Device) (packed : List Packed) (current : Option Segment)
            → HasLined start (W.device sink.old) self.old packed current
            → MatchResult result
            (λ _. HasLined start (W.device sink.new) self.new packed current)
            (StopsLining self.old.writing.form start (W.device sink.new)
            (map segment_of_packed packed ++ option_to_list current)) }
        ensures none_wait { OnOk result (self.new.writing.waiting ≡ []) }
        ensures last { self.new.last ≡ self.old.last }
        ensures form { self.new.writing.form ≡ self.old.writing.form }
        ensures few { CountsFew (W.device sink.old) (W.device sink.new) }
    {
        self.writer.flush(sink)?;
        Ok(())
    }

    /// Ends the last segment, writes all that waits, and gives the lines.
    pub(crate) fn finish<W: Sink>(&mut self, sink: &mut W) -> Result<Vec<SegmentLine>, ToolFault>
        requires count { CanCountCall (W.device sink.old) }
        requires last { IfSome self.old.last (GoesOn self.old.writing.form) }
        ensures written { (start : Device) (packed : List Packed) (current : Option Segment)
            → HasLined start (W.device sink.old) self.old packed current
            → MatchResult result
            (λ lines. LinesAll self.old.writing.form start (W.device sink.new)
            (map segment_of_packed packed ++ option_to_list current) lines.items)
            (StopsLining self.old.writing.form start (W.device sink.new)
            (map segment_of_packed packed ++ option_to_list current)) }
        ensures few { CountsFew (W.device sink.old) (W.device sink.new) }
    {
        self.end_last(sink)?;
        self.flush(sink)?;
        let none = Vec::new(*self.lines.allocator());
        Ok(std::mem::replace(&mut self.lines, none))
    }
}
