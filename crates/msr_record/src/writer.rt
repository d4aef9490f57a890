//! A writer of segments.
use crate::opened::{OpenSegment, empty_span_is_in_time, key_has_header_widths};
use crate::written_area::samples_have_32_bits;
use msr_base::Form;
use msr_devices::{DeviceFault, Sink, WriteBuffer};
use msr_packer::BlockPacker;
use msr_report::SegmentLine;
use msr_rows::Key;
use std::alloc::Global;
use std::marker::Model;

/// Writes segments as records of one form, and numbers these. All calls take the same sink. After an `Err`
/// what it would write is no output: it is not used again.
#[derive(Drop)]
pub struct SegmentWriter {
    alloc: Global,
    form: Form,
    number: u32,
    buffer: WriteBuffer,
}

impl Model for SegmentWriter {
    ghost use Rattle.std.specs.Prelude.{◌≤◌};
    ghost use Rattle.msr_record.specs.Writing.{Writing};

    ghost Value = { Writing };

    ghost view = { λ w. record { form = w.form; number = w.number; waiting = w.buffer.bytes.items } };

    ghost invariant = { λ w. (1 ≤ w.number) × (w.number ≤ 999_999) };
}

impl SegmentWriter {
    ghost use Rattle.std.specs.Prelude.{◌≡◌, ◌+◌, ◌<◌, ◌≤◌, ◌^◌, List, [], ◌∷◌, ◌++◌, length, map, MatchResult, OnOk, false, IsTrue};
    ghost use Rattle.msr_header.specs.Reading.{is_quality};
    ghost use Rattle.msr_rows.specs.Correction.{is_pending};
    ghost use Rattle.msr_rows.specs.declared.row.Row.{Row};
    ghost use Rattle.msr_devices.specs.Device.{Device, CanCountCall, CountsFew, IsCalm};
    ghost use Rattle.msr_record.specs.Output.{Packed, segment_of_packed};
    ghost use Rattle.msr_record.specs.Writing.{HasWritten, HasWrittenAll, WritesSegment, StopsWriting};
    ghost use Rattle.msr_time.specs.Instant.{IsInstant};
    ghost use Rattle.msr_packer.specs.Blocks.{pushed};
    ghost use Rattle.msr_segments.specs.Spans.{SpanIsInTime, span_of};
    ghost use Rattle.msr_segments.specs.declared.joiner.Segment.{Segment as Whole};
    ghost use Rattle.msr_record.specs.Decided.{IsEncoded};
    ghost use Rattle.msr_record.specs.Opened.{CanGoOn, HasBegun, Opened, empty_segment, longer_by};

    /// A writer before the first record. It takes no memory yet.
    pub fn new(alloc: Global, form: Form) -> SegmentWriter
        ensures form { result.form ≡ form }
        ensures none { (start : Device) → HasWritten start start result [] [] }
        ensures none_wait { result.waiting ≡ [] }
    {
        SegmentWriter {
            alloc,
            form,
            number: 1,
            buffer: WriteBuffer::new(alloc),
        }
    }

    /// Begins a segment of that key, whose first sample has that instant. Its samples are pushed by `push`, and no
    /// other segment is written before its `end`.
    pub fn begin(&self, key: Key, start: i64) -> OpenSegment
        requires quality { IsTrue (is_quality key.quality) }
        requires normal { is_pending key.activity key.correction ≡ false }
        requires start { IsInstant start }
        ensures begun { (first now : Device) (packed : List Packed) (rows : List Row)
            → HasWritten first now self.now packed rows
            → HasBegun first now self.now packed (empty_segment key start) result }
        ensures can { CanGoOn false result }
        ensures form { result.form ≡ self.now.form }
        ensures key { result.key ≡ key }
        ensures start { result.start ≡ start }
        ensures count { pushed result.packer ≡ 0 }
    {
        key_has_header_widths(key);
        empty_span_is_in_time(&key, start);
        OpenSegment {
            key,
            start,
            form: self.form,
            packer: BlockPacker::new(self.alloc, self.form),
            separators: Vec::new(self.alloc),
        }
    }

    /// Takes more samples of the segment, and puts the records that they decide after those that wait; then writes
    /// these if they are 64 KiB or more.
    pub fn push<W: Sink>(
        &mut self,
        sink: &mut W,
        segment: &mut OpenSegment,
        samples: &[i32],
    ) -> Result<(), DeviceFault>
        requires count { CanCountCall (W.device sink.old) }
        requires can { CanGoOn false segment.old }
        requires form { segment.old.form ≡ self.old.form }
        requires number { pushed segment.old.packer + length samples.now < 2 ^ 64 }
        requires in_time { SpanIsInTime (span_of segment.old.key segment.old.start
            (pushed segment.old.packer + length samples.now)) }
        ensures written { (start : Device) (packed : List Packed) (before : Whole)
            → HasBegun start (W.device sink.old) self.old packed before segment.old
            → MatchResult result
            (λ _. HasBegun start (W.device sink.new) self.new packed (longer_by before samples.now) segment.new)
            (StopsWriting self.old.form start (W.device sink.new)
            (map segment_of_packed packed ++ longer_by before samples.now ∷ [])) }
        ensures can { OnOk result (CanGoOn false segment.new) }
        ensures form { self.new.form ≡ self.old.form }
        ensures same { (segment.new.form ≡ segment.old.form) × (segment.new.key ≡ segment.old.key)
            × (segment.new.start ≡ segment.old.start) }
        ensures encoded { OnOk result (IsEncoded segment.new) }
        ensures few_wait { OnOk result (length self.new.waiting < 65536) }
        ensures number { OnOk result (pushed segment.new.packer ≡ pushed segment.old.packer + length samples.now) }
        ensures few { CountsFew (W.device sink.old) (W.device sink.new) }
    {
        samples_have_32_bits(samples);
        segment.push(samples)?;
        self.number = segment.encode_runs(self.alloc, false, self.number, &mut self.buffer.bytes)?;
        self.buffer.flush_full(sink)?;
        Ok(())
    }

    /// Ends the segment: puts the records that are left after those that wait, and then writes these if they are 64
    /// KiB or more.
    pub fn end<W: Sink>(
        &mut self,
        sink: &mut W,
        segment: OpenSegment,
    ) -> Result<SegmentLine, DeviceFault>
        requires count { CanCountCall (W.device sink.old) }
        requires can { CanGoOn false segment }
        requires form { segment.form ≡ self.old.form }
        ensures written { (start : Device) (packed : List Packed) (all : Whole)
            → HasBegun start (W.device sink.old) self.old packed all segment
            → MatchResult result
            (WritesSegment start (W.device sink.new) self.new packed all)
            (StopsWriting self.old.form start (W.device sink.new) (map segment_of_packed packed ++ all ∷ [])) }
        ensures form { self.new.form ≡ self.old.form }
        ensures calm { OnOk result (IsCalm (W.device sink.old) (W.device sink.new)) }
        ensures few { CountsFew (W.device sink.old) (W.device sink.new) }
    {
        let mut segment = segment;
        self.number = segment.encode_runs(self.alloc, true, self.number, &mut self.buffer.bytes)?;
        self.buffer.flush_full(sink)?;
        Ok(segment.line())
    }

    /// Writes all that waits, while segments may still come.
    pub fn flush<W: Sink>(&mut self, sink: &mut W) -> Result<(), DeviceFault>
        requires { CanCountCall (W.device sink.old) }
        ensures written { (start : Device) (packed : List Packed) (rows : List Row)
            → HasWritten start (W.device sink.old) self.old packed rows
            → MatchResult result
            (λ _. HasWritten start (W.device sink.new) self.new packed rows)
            (StopsWriting self.old.form start (W.device sink.new) (map segment_of_packed packed)) }

        // What is written, if a segment is open.
        ensures begun { (start : Device) (packed : List Packed) (before : Whole) (opened : Opened)
            → CanGoOn false opened
            → HasBegun start (W.device sink.old) self.old packed before opened
            → MatchResult result
            (λ _. HasBegun start (W.device sink.new) self.new packed before opened)
            (StopsWriting self.old.form start (W.device sink.new) (map segment_of_packed packed ++ before ∷ [])) }
        ensures none_wait { OnOk result (self.new.waiting ≡ []) }
        ensures form { self.new.form ≡ self.old.form }
        ensures few { CountsFew (W.device sink.old) (W.device sink.new) }
    {
        self.buffer.flush(sink)?;
        Ok(())
    }

    /// Writes all that waits.
    pub fn finish<W: Sink>(self, sink: &mut W) -> Result<(), DeviceFault>
        requires { CanCountCall (W.device sink.old) }
        ensures written { (start : Device) (packed : List Packed) (rows : List Row)
            → HasWritten start (W.device sink.old) self packed rows
            → MatchResult result
            (λ _. HasWrittenAll start (W.device sink.new) self packed rows)
            (StopsWriting self.form start (W.device sink.new) (map segment_of_packed packed)) }
        ensures few { CountsFew (W.device sink.old) (W.device sink.new) }
    {
        let mut buffer = self.buffer;
        buffer.flush(sink)?;
        Ok(())
    }
}
