//! A writer of the lines of segments.
ghost use Rattle.std.specs.Prelude.{◌≡◌, ◌≤◌, ◌^◌, ◌++◌, List, ℕ, IfSome, OnOk, OnErr};
ghost use Rattle.msr_tool.specs.Listing.{last_line};
ghost use Rattle.msr_tool.specs.ListWriting.{IsLastLine, IsOpenInBounds, open_longer, open_row};

use crate::fault::ToolFault;
use msr_base::Counts;
use msr_devices::{Sink, WriteBuffer};
use msr_input::{NextOutline, RowOutline};
use msr_options::ListForm;
use msr_report::{ListedSegment, push_counts, push_json_counts, push_json_line, push_list_line};
use msr_segments::Step;
use std::alloc::{AllocError, Global};
use std::marker::Model;

/// Writes a line for each segment of the rows that it takes, and one for the counts. It holds no samples.
/// All calls take the same sink.
#[derive(Drop)]
pub(crate) struct ListWriter {
    alloc: Global,
    form: ListForm,
    buffer: WriteBuffer,
    before: Option<ListedSegment>,
    last: Option<ListedSegment>,
}

impl Model for ListWriter {
    ghost use Rattle.msr_tool.specs.ListWriting.{Lister};

    ghost Value = { Lister };

    ghost view = { λ w. record
        { form = w.form; waiting = w.buffer.bytes.items; before = w.before; last = w.last } };
}

/// The segment that the row begins.
fn begun(row: &RowOutline) -> ListedSegment
    ensures { result ≡ open_row row.now }
{
    ListedSegment {
        key: row.key,
        start: row.start,
        count: row.count as u64,
    }
}

/// The segment that was begun last, with the samples of the row that joins it.
fn longer(last: Option<ListedSegment>, row: &RowOutline) -> Option<ListedSegment>
    requires count { IfSome last (λ before. before.count ≤ 2 ^ 63) }
    ensures { result ≡ open_longer last row.now }
{
    let before = last?;
    let count = before.count + row.count as u64;
    Some(ListedSegment { count, ..before })
}

/// Appends the line of the segment that was begun last, if one was, after that one.
fn push_last(
    alloc: Global,
    out: &mut Vec<u8>,
    form: ListForm,
    before: Option<ListedSegment>,
    last: Option<ListedSegment>,
) -> Result<(), AllocError>
    requires { IfSome last IsOpenInBounds }
    ensures pushed { OnOk result ((line : List ℕ)
        × (IsLastLine form before last line × (out.new.items ≡ out.old.items ++ line))) }
    ensures refused { OnErr result (out.new.items ≡ out.old.items) }
{
    let Some(segment) = last else {
        return Ok(());
    };
    match form {
        ListForm::Words => {
            push_list_line(alloc, out, &segment.key, segment.start, segment.count)
        }
        ListForm::Json => push_json_line(alloc, out, before, &segment),
    }
}

/// Appends the line of the counts.
fn push_last_line(
    alloc: Global,
    out: &mut Vec<u8>,
    form: ListForm,
    counts: &Counts,
) -> Result<(), AllocError>
    ensures pushed { OnOk result (out.new.items ≡ out.old.items ++ last_line form counts.now) }
    ensures refused { OnErr result (out.new.items ≡ out.old.items) }
{
    match form {
        ListForm::Words => push_counts(alloc, out, counts),
        ListForm::Json => push_json_counts(alloc, out, counts),
    }
}

impl ListWriter {
    ghost use Rattle.std.specs.Prelude.{◌≡◌, ◌<◌, List, [], ◌++◌, length, Option, None, IfSome, MatchResult, OnOk, option_map};
    ghost use Rattle.std.specs.Option.{option_to_list};
    ghost use Rattle.msr_devices.specs.Device.{Device, CanCountCall, CountsFew};
    ghost use Rattle.msr_segments.specs.declared.joiner.Segment.{Segment as Joined};
    ghost use Rattle.msr_tool.specs.ListWriting.{HasListed, HasListedAll, StopsListing, StopsListingAll, IsOpenInBounds, open_after};
    ghost use Rattle.msr_tool.specs.Listing.{listed_of};
    ghost use Rattle.msr_tool.specs.Writing.{ended_by};

    /// A writer before the first row.
    pub(crate) fn new(alloc: Global, form: ListForm) -> ListWriter
        ensures form { result.form ≡ form }
        ensures last { result.last ≡ None }
        ensures few_wait { length result.waiting < 65536 }
        ensures none { (start : Device) → HasListed form start start result.waiting result.before [] }
    {
        ListWriter {
            alloc,
            form,
            buffer: WriteBuffer::new(alloc),
            before: None,
            last: None,
        }
    }

    /// Takes the next row. One that begins a segment ends the one before it, whose line is written.
    pub(crate) fn take<W: Sink>(
        &mut self,
        sink: &mut W,
        next: &NextOutline,
    ) -> Result<(), ToolFault>
        requires count { CanCountCall (W.device sink.old) }
        requires last { IfSome self.old.last IsOpenInBounds }
        requires few_wait { length self.old.waiting < 65536 }
        ensures written { (start : Device) (segments : List Joined) (current : Option Joined)
            → HasListed self.old.form start (W.device sink.old) self.old.waiting self.old.before segments
            → self.old.last ≡ option_map listed_of current
            → MatchResult result
            (λ _. HasListed self.old.form start (W.device sink.new) self.new.waiting self.new.before
            (segments ++ option_to_list (ended_by next.now.step current)))
            (StopsListing self.old.form start (W.device sink.new)
            (segments ++ option_to_list (ended_by next.now.step current))) }
        ensures form { OnOk result (self.new.form ≡ self.old.form) }
        ensures last { OnOk result (self.new.last ≡ open_after next.now.step self.old.last next.now.row) }
        ensures few_wait { OnOk result (length self.new.waiting < 65536) }
        ensures few { CountsFew (W.device sink.old) (W.device sink.new) }
    {
        match next.step {
            Step::Begins => {
                push_last(
                    self.alloc,
                    &mut self.buffer.bytes,
                    self.form,
                    self.before,
                    self.last,
                )?;
                self.buffer.flush_full(sink)?;
                self.before = self.last.or(self.before);
                self.last = Some(begun(&next.row));
                Ok(())
            }
            Step::Joins => {
                self.last = longer(self.last, &next.row);
                Ok(())
            }
        }
    }

    /// Writes the line of the last segment, that of the counts, and all that waits.
    pub(crate) fn finish<W: Sink>(&mut self, sink: &mut W, counts: &Counts) -> Result<(), ToolFault>
        requires count { CanCountCall (W.device sink.old) }
        requires last { IfSome self.old.last IsOpenInBounds }
        ensures written { (start : Device) (segments : List Joined) (current : Option Joined)
            → HasListed self.old.form start (W.device sink.old) self.old.waiting self.old.before segments
            → self.old.last ≡ option_map listed_of current
            → MatchResult result
            (λ _. HasListedAll self.old.form start (W.device sink.new) (segments ++ option_to_list current) counts.now)
            (StopsListingAll self.old.form start (W.device sink.new) (segments ++ option_to_list current) counts.now) }
        ensures few { CountsFew (W.device sink.old) (W.device sink.new) }
    {
        push_last(
            self.alloc,
            &mut self.buffer.bytes,
            self.form,
            self.before,
            self.last,
        )?;
        push_last_line(self.alloc, &mut self.buffer.bytes, self.form, counts)?;
        self.buffer.flush(sink)?;
        Ok(())
    }
}
