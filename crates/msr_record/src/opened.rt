//! A segment that is written while its samples come.
ghost use Rattle.std.specs.Prelude.{◌≡◌, ℕ, ℤ, List, ◌++◌, ◌+◌, ◌<◌, ◌≤◌, ◌^◌, length, IfOk, IfSome, IsNone, OnOk, IsTrue, MatchResult, true, false};
ghost use Rattle.msr_words.specs.Fit.{records_of};
ghost use Rattle.msr_words.specs.declared.kinds.Run.{Run};
ghost use Rattle.msr_base.specs.declared.forms.Form.{Form};
ghost use Rattle.msr_base.specs.Lengths.{bytes_of};
ghost use Rattle.msr_words.specs.Packing.{IsCanonical};
ghost use Rattle.msr_packer.specs.Blocks.{HoldsFew, pushed, steps_left};
ghost use Rattle.msr_packer.specs.HeldSamples.{ShowsPiece, pieces_of, runs_of, separators_of};
ghost use Rattle.msr_packer.specs.declared.held.Piece.{Piece};
ghost use Rattle.msr_record.specs.Written.{IsKey};
ghost use Rattle.msr_time.specs.Instant.{IsInstant};
ghost use Rattle.msr_segments.specs.Spans.{SpanIsInTime, span_of};
ghost use Rattle.msr_segments.specs.declared.joiner.Segment.{Segment};
ghost use Rattle.msr_record.specs.Opened.{AppendsMore, CanEncode, CanGoOn, EncodesNext, GivesRuns, IsOpen, longer_by};
ghost use Rattle.msr_record.specs.Output.{next_number};
ghost use Rattle.msr_record.specs.Writing.{AppendsRecordOfRun};

use crate::writing::encode_run;
use crate::written_area::WrittenRun;
use msr_base::Form;
use msr_packer::{BlockPacker, Piece};
use msr_report::SegmentLine;
use msr_rows::Key;
use msr_words::Run;
use std::alloc::{AllocError, Global};
use std::marker::Model;

/// A segment whose samples still come. It holds no more of them than its packer does.
#[derive(Drop)]
pub struct OpenSegment {
    pub(crate) key: Key,
    pub(crate) start: i64,
    pub(crate) form: Form,
    pub(crate) packer: BlockPacker,
    /// One for each record that was encoded.
    pub(crate) separators: Vec<u64>,
}

impl Model for OpenSegment {
    ghost use Rattle.msr_record.specs.Opened.{Opened, opened_of};

    ghost Value = { Opened };

    ghost view = { λ s. opened_of s.key s.start s.form s.packer s.separators.items };
}

/// The sequence number after this one: from 1 to 999999, and then again from 1.
fn number_after_this(number: u32) -> u32
    requires { number ≤ 999_999 }
    ensures next { result ≡ next_number number }
    ensures least { 1 ≤ result }
    ensures most { result ≤ 999_999 }
{
    if number == 999_999 { 1 } else { number + 1 }
}

/// A key has fields of the widths of a header's, and a rate of which neither part is 0.
pub(crate) fn key_has_header_widths(key: Key)
    ensures { IsKey key }
{}

/// If no sample is there yet, the times are those of the start.
pub(crate) fn empty_span_is_in_time(key: &Key, start: i64)
    requires { IsInstant start }
    ensures { SpanIsInTime (span_of key.now start 0) }
{
    let _first = key.rate.nominal(start, 0);
}

/// The next piece, of samples that others may follow, or of all.
fn next_piece(packer: &mut BlockPacker, whole: bool) -> Option<Piece>
    ensures given { (form : Form) (samples : List ℤ) (runs : List Run) (separators : List ℕ)
        → GivesRuns whole form samples runs separators packer.old
        → GivesRuns whole form samples (runs ++ runs_of (pieces_of result))
        (separators ++ separators_of (pieces_of result)) packer.new }
    ensures shows { (form : Form) (samples : List ℤ) (runs : List Run) (separators : List ℕ)
        → GivesRuns whole form samples runs separators packer.old
        → IfSome result (ShowsPiece samples packer.new.shown packer.new.before packer.new.groups) }
    ensures all { (form : Form) (samples : List ℤ) (runs : List Run) (separators : List ℕ)
        → GivesRuns whole form samples runs separators packer.old
        → whole ≡ true → IsNone result → IsCanonical (records_of form) samples runs separators }
    ensures fewer { IfSome result (λ _. steps_left packer.new < steps_left packer.old) }
    ensures count { pushed packer.new ≡ pushed packer.old }
    ensures few { whole ≡ false → IsNone result → HoldsFew packer.new }
{
    if whole {
        packer.last_piece()
    } else {
        packer.next_piece()
    }
}

impl OpenSegment {
    /// Takes more samples. If memory is refused, none was taken.
    pub(crate) fn push(&mut self, samples: &[i32]) -> Result<(), AllocError>
        requires { pushed self.old.packer + length samples.now < 2 ^ 64 }
        ensures taken { (segment : Segment) (runs : List Run) → IsOpen false segment runs self.old
            → MatchResult result (λ _. IsOpen false (longer_by segment samples.now) runs self.new)
            (λ _. IsOpen false segment runs self.new) }
        ensures form { self.new.form ≡ self.old.form }
        ensures key { self.new.key ≡ self.old.key }
        ensures start { self.new.start ≡ self.old.start }
        ensures count { MatchResult result (λ _. pushed self.new.packer
            ≡ pushed self.old.packer + length samples.now) (λ _. pushed self.new.packer ≡ pushed self.old.packer) }
    {
        self.packer.push_all(samples)
    }

    /// Appends the record of the run whose samples the packer shows.
    fn encode_shown(
        &self,
        alloc: Global,
        run: Run,
        number: u32,
        out: &mut Vec<u8>,
    ) -> Result<(), AllocError>
        requires can { CanEncode (bytes_of self.now.form.length) self.now.key self.now.start self.now.packer run }
        requires least { 1 ≤ number }
        requires most { number ≤ 999_999 }
        ensures { (segment : Segment) (separator : ℕ) → self.now.key ≡ segment.key → self.now.start ≡ segment.start
            → ShowsPiece segment.samples self.now.packer.shown self.now.packer.before self.now.packer.groups
            (record { run = run; separator = separator })
            → OnOk result (AppendsRecordOfRun (bytes_of self.now.form.length) number segment run
            out.old.items out.new.items) }
    {
        let first = self.key.rate.nominal(self.start, run.start).unwrap();
        let written = WrittenRun {
            key: &self.key,
            start: first,
            sequence: number,
            before: self.packer.sample_before(),
            samples: self.packer.run_samples(),
            kind: run.kind,
            group_sizes: self.packer.group_sizes(),
            group_words: self.packer.group_words(),
        };
        encode_run(alloc, &written, self.form.length, out)
    }

    /// Appends the record of the next run, if there is one, and says whether there was.
    fn encode_next(
        &mut self,
        alloc: Global,
        whole: bool,
        number: u32,
        out: &mut Vec<u8>,
    ) -> Result<bool, AllocError>
        requires can { CanGoOn whole self.old }
        requires least { 1 ≤ number }
        requires most { number ≤ 999_999 }
        ensures can { OnOk result (CanGoOn whole self.new) }
        ensures appends { (segment : Segment) (runs : List Run) → IsOpen whole segment runs self.old
            → IfOk result (λ more. EncodesNext whole segment runs self.new number out.old.items out.new.items more) }
        ensures fewer { IfOk result (λ more. IsTrue more → steps_left self.new.packer < steps_left self.old.packer) }
        ensures form { self.new.form ≡ self.old.form }
        ensures count { pushed self.new.packer ≡ pushed self.old.packer }
        ensures key { self.new.key ≡ self.old.key }
        ensures start { self.new.start ≡ self.old.start }
        ensures few { IfOk result (λ more. whole ≡ false → more ≡ false → HoldsFew self.new.packer) }
    {
        let Some(piece) = next_piece(&mut self.packer, whole) else {
            return Ok(false);
        };
        self.encode_shown(alloc, piece.run, number, out)?;
        self.separators.push(piece.separator)?;
        Ok(true)
    }

    /// Appends the records of the runs that are decided, of all that are left if the segment is whole, numbered from
    /// `first_number` on, and gives the sequence number after theirs.
    pub(crate) fn encode_runs(
        &mut self,
        alloc: Global,
        whole: bool,
        first_number: u32,
        out: &mut Vec<u8>,
    ) -> Result<u32, AllocError>
        requires can { CanGoOn whole self.old }
        requires least { 1 ≤ first_number }
        requires most { first_number ≤ 999_999 }
        ensures can { OnOk result (CanGoOn whole self.new) }
        ensures least { IfOk result (λ next. 1 ≤ next) }
        ensures most { IfOk result (λ next. next ≤ 999_999) }
        ensures appends { (segment : Segment) (runs : List Run) → IsOpen whole segment runs self.old
            → IfOk result (AppendsMore whole segment runs self.new first_number out.old.items out.new.items) }
        ensures form { self.new.form ≡ self.old.form }
        ensures count { pushed self.new.packer ≡ pushed self.old.packer }
        ensures key { self.new.key ≡ self.old.key }
        ensures start { self.new.start ≡ self.old.start }
        ensures few { OnOk result (whole ≡ false → HoldsFew self.new.packer) }
    {
        let mut number = first_number;
        while self.encode_next(alloc, whole, number, out)? {
            number = number_after_this(number);
        }
        Ok(number)
    }

    /// The line of the segment, whose runs were all given.
    pub(crate) fn line(self) -> SegmentLine
        ensures key { result.key ≡ self.key }
        ensures start { result.start ≡ self.start }
        ensures samples { result.samples ≡ pushed self.packer }
        ensures records { result.records ≡ length self.separators }
        ensures separators { result.separators.items ≡ self.separators }
    {
        SegmentLine {
            key: self.key,
            start: self.start,
            samples: self.packer.pushed(),
            records: self.separators.len() as u64,
            separators: self.separators,
        }
    }
}
