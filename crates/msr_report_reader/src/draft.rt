//! A report that is read as its text comes.
ghost use Rattle.std.specs.Prelude.{◌≡◌, ◌≢◌, ◌<◌, ◌+◌, ◌*◌, ◌^◌, ◌++◌, ◌∷◌, [], ℕ, List, Bool, All, IfOk, IfErr, IfSome, IsSomeAnd, SomeIff, OnOk, false, length, codes};
ghost use Rattle.std.specs.Fmt.{decimal};
ghost use Rattle.msr_report.specs.Proper.{records_in};
ghost use Rattle.msr_report_reader.specs.Content.{lines_before};
ghost use Rattle.msr_report_reader.specs.Draft.{AreMore, HasRead, IsDraftStep, IsLineRefused, ReadOpening, numbers_then, stop_byte};
ghost use Rattle.msr_report_reader.specs.LastLine.{IsLast};
ghost use Rattle.msr_report_reader.specs.Reading.{IsReadFrom};
ghost use Rattle.msr_report_reader.specs.TextFault.{IsTextFault};
ghost use Rattle.msr_report_reader.specs.declared.draft.Expected.TheVariants.{Start, Segment, Separators, Number, End};

use crate::fault::ReportFault;
use crate::fields::{after, may_be_number, may_begin, number};
use crate::first::{FaultAt, FirstLines, first_lines, lines_before};
use crate::lines::{FirstLine, end, opening};
use msr_report::{Report, SegmentLine};
use std::alloc::{AllocError, Global};
use std::mem;

/// Every line but that of the separators is shorter, and so is each word of that one with the byte after it.
const LINE_LIMIT: usize = 4096;

/// What may come next.
#[derive(Clone, Copy)]
pub(crate) enum Expected {
    /// The lines before the segments.
    Start,
    /// The first line of a segment, or the last line.
    Segment(FirstLines),
    /// The word before the separators of this segment.
    Separators(FirstLines, FirstLine),
    /// One of its separators.
    Number(FirstLines, FirstLine),
    /// Nothing.
    End(FirstLines),
}

/// What was read of a report.
#[derive(Drop)]
pub(crate) struct Draft {
    alloc: Global,
    expected: Expected,
    segments: Vec<SegmentLine>,
    /// The separators of a segment of which not all were read.
    numbers: Vec<u64>,
}

/// What a step does.
#[derive(Clone, Copy)]
pub(crate) enum Progress {
    /// This number of bytes was read.
    Consumed(usize),
    /// This line is at fault, unless more bytes come.
    Cut(u64),
    /// The report is whole, unless more bytes come.
    Whole(FirstLines),
}

/// Answers that the line is at fault, or that it may be whole once more bytes come: `begins` says whether these may
/// make the text begin with its word.
fn refuse(text: &[u8], begins: bool, line: u64) -> Result<Progress, ReportFault>
    ensures { IsLineRefused begins text.now line result }
{
    if begins && text.len() < LINE_LIMIT && !text.contains(&b'\n') {
        Ok(Progress::Cut(line))
    } else {
        Err(ReportFault::Line(line))
    }
}

/// Whether the byte after a word of the separators' line ends it.
fn stop(text: &[u8]) -> Option<(bool, &[u8])>
    ensures found { IfSome result (λ x. text.now ≡ stop_byte x.0 ∷ x.1.now) }
    ensures only { (last : Bool) (rest : List ℕ) → text.now ≡ stop_byte last ∷ rest
        → IsSomeAnd result (λ x. (x.0 ≡ last) × (x.1.now ≡ rest)) }
{
    let Some((first, rest)) = text.split_first() else {
        return None;
    };
    if *first == b' ' {
        return Some((false, rest));
    }
    if *first == b'\n' {
        return Some((true, rest));
    }
    None
}

/// The word before the separators.
fn separators_word(text: &[u8]) -> Option<(bool, &[u8])>
    ensures found { IfSome result (λ x. text.now ≡ codes "separators" ++ (stop_byte x.0 ∷ x.1.now)) }
    ensures only { (last : Bool) (rest : List ℕ) → text.now ≡ codes "separators" ++ (stop_byte last ∷ rest)
        → IsSomeAnd result (λ x. (x.0 ≡ last) × (x.1.now ≡ rest)) }
{
    stop(after(text, b"separators")?)
}

/// A separator.
#[inline(always)]
fn separator(text: &[u8]) -> Option<(u64, bool, &[u8])>
    ensures found { IfSome result (λ x. text.now ≡ decimal x.0 ++ (stop_byte x.1 ∷ x.2.now)) }
    ensures only { (n : ℕ) (last : Bool) (rest : List ℕ) → n < 2 ^ 64
        → text.now ≡ decimal n ++ (stop_byte last ∷ rest)
        → IsSomeAnd result (λ x. (x.0 ≡ n) × (x.1 ≡ last) × (x.2.now ≡ rest)) }
{
    let Some((n, text)) = number(text) else {
        return None;
    };
    let Some((last, text)) = stop(text) else {
        return None;
    };
    Some((n, last, text))
}

/// Reads the separators that stand whole at the start of the text, unless the one before them ended the line. Answers
/// whether the line has ended, and the text after them.
fn more_separators<'a>(
    numbers: &mut Vec<u64>,
    ended: bool,
    text: &'a [u8],
) -> Result<(bool, &'a [u8]), AllocError>
    ensures read { IfOk result (λ x. AreMore numbers.old.items ended text.now numbers.new.items x.0 x.1.now) }
    ensures all { IfOk result (λ x. x.0 ≡ false → (n : ℕ) (last : Bool) (rest : List ℕ) → n < 2 ^ 64
        → x.1.now ≢ decimal n ++ (stop_byte last ∷ rest)) }
{
    let mut last = ended;
    let mut rest = text;
    'separators: while !last {
        let Some((n, ends, more)) = separator(rest) else {
            return Ok((last, rest));
        };
        numbers.push(n)?;
        last = ends;
        rest = more;
    }
    Ok((last, rest))
}

/// How many records the segments have in all, if that fits 64 bits.
fn all_records(segments: &[SegmentLine]) -> Option<u64>
    ensures { SomeIff result (records_in segments.now < 2 ^ 64) (records_in segments.now) }
{
    let mut records = 0u64;
    for segment in segments {
        records = records.checked_add(segment.records)?;
    }
    Some(records)
}

/// The text after the last line of a report with these segments.
fn last_line<'a>(text: &'a [u8], segments: &[SegmentLine]) -> Option<&'a [u8]>
    ensures found { IfSome result (λ rest. IsLast segments.now text.now rest.now) }
    ensures only { (rest : List ℕ) → IsLast segments.now text.now rest → IsSomeAnd result (λ x. x.now ≡ rest) }
{
    let (count, records, rest) = end(text)?;
    if count != segments.len() as u64 || all_records(segments) != Some(records) {
        return None;
    }
    Some(rest)
}

impl Draft {
    /// A draft before the first byte.
    pub(crate) fn new(alloc: Global) -> Draft
        ensures { HasRead result [] }
    {
        Draft {
            alloc,
            expected: Expected::Start,
            segments: Vec::new(alloc),
            numbers: Vec::new(alloc),
        }
    }

    /// The number of the line after those of the segments.
    fn line_after(&self, first: FirstLines) -> u64
        ensures line { result ≡ 1 + lines_before first.kinds + 2 * length self.now.segments.items }
        ensures next { result + 1 < 2 ^ 64 }
    {
        let segments = self.segments.as_slice();
        1 + lines_before(first.kinds) + 2 * segments.len() as u64
    }

    /// Reads what the text begins with: the lines before the segments, another line, or words of the separators' line.
    pub(crate) fn step(&mut self, text: &[u8]) -> Result<Progress, ReportFault>
        ensures { IsDraftStep self.old self.new text.now result }
    {
        match self.expected {
            Expected::Start => self.read_first(text),
            Expected::Segment(first) => self.read_segment(first, text),
            Expected::Separators(first, line) => self.read_word(first, line, text),
            Expected::Number(first, line) => self.read_numbers(first, line, text),
            Expected::End(first) => self.read_nothing(first, text),
        }
    }

    /// Reads the lines before the segments.
    fn read_first(&mut self, text: &[u8]) -> Result<Progress, ReportFault>
        ensures { self.old.expected ≡ Start → IsDraftStep self.old self.new text.now result }
    {
        match first_lines(text) {
            Ok((first, rest)) => {
                self.expected = Expected::Segment(first);
                Ok(Progress::Consumed(text.len() - rest.len()))
            }
            Err(FaultAt { line, text, begins }) => refuse(text, begins, line),
        }
    }

    /// Reads the first line of a segment, or the last line.
    fn read_segment(&mut self, first: FirstLines, text: &[u8]) -> Result<Progress, ReportFault>
        ensures { self.old.expected ≡ Segment first → IsDraftStep self.old self.new text.now result }
    {
        if let Some((line, rest)) = opening(text) {
            self.expected = Expected::Separators(first, line);
            return Ok(Progress::Consumed(text.len() - rest.len()));
        }
        if let Some(rest) = last_line(text, self.segments.as_slice()) {
            self.expected = Expected::End(first);
            return Ok(Progress::Consumed(text.len() - rest.len()));
        }
        let begins = may_begin(text, b"segment ") | may_begin(text, b"end ");
        refuse(text, begins, self.line_after(first))
    }

    /// Reads the word before the separators.
    fn read_word(
        &mut self,
        first: FirstLines,
        line: FirstLine,
        text: &[u8],
    ) -> Result<Progress, ReportFault>
        ensures { self.old.expected ≡ Separators first line → IsDraftStep self.old self.new text.now result }
    {
        let Some((last, rest)) = separators_word(text) else {
            let begins = may_begin(text, b"separators");
            return refuse(text, begins, 1 + self.line_after(first));
        };
        self.go_on(first, line, last)?;
        Ok(Progress::Consumed(text.len() - rest.len()))
    }

    /// Reads the separators that stand whole at the start of the text: a report may have one for each of many records.
    fn read_numbers(
        &mut self,
        first: FirstLines,
        line: FirstLine,
        text: &[u8],
    ) -> Result<Progress, ReportFault>
        ensures { self.old.expected ≡ Number first line → IsDraftStep self.old self.new text.now result }
    {
        let Some((n, last, rest)) = separator(text) else {
            return refuse(text, may_be_number(text), 1 + self.line_after(first));
        };
        self.numbers.push(n)?;
        let (last, rest) = more_separators(&mut self.numbers, last, rest)?;
        self.go_on(first, line, last)?;
        Ok(Progress::Consumed(text.len() - rest.len()))
    }

    /// Goes on after a word of the separators' line, which may be its last.
    fn go_on(&mut self, first: FirstLines, line: FirstLine, last: bool) -> Result<(), AllocError>
        ensures { OnOk result ((past : List ℕ) → ReadOpening first self.old.segments.items line past
            → All (λ n. n < 2 ^ 64) self.old.numbers.items
            → HasRead self.new (past ++ numbers_then self.old.numbers.items last)) }
    {
        if !last {
            self.expected = Expected::Number(first, line);
            return Ok(());
        }
        let separators = mem::replace(&mut self.numbers, Vec::new(self.alloc));
        self.segments.push(SegmentLine {
            key: line.key,
            start: line.start,
            samples: line.samples,
            records: line.records,
            separators,
        })?;
        self.expected = Expected::Segment(first);
        Ok(())
    }

    /// Reads nothing after the last line: more text is a line at fault.
    fn read_nothing(&mut self, first: FirstLines, text: &[u8]) -> Result<Progress, ReportFault>
        ensures { self.old.expected ≡ End first → IsDraftStep self.old self.new text.now result }
    {
        if text.is_empty() {
            Ok(Progress::Whole(first))
        } else {
            Err(ReportFault::Line(1 + self.line_after(first)))
        }
    }

    /// Reads the text as all that is left.
    pub(crate) fn finish(mut self, text: &[u8]) -> Result<Report, ReportFault>
        ensures found { (past : List ℕ) → HasRead self past
            → IfOk result (λ report. IsReadFrom report (past ++ text.now)) }
        ensures fault { (past : List ℕ) → HasRead self past → IfErr result (IsTextFault (past ++ text.now)) }
    {
        let mut rest = text;
        'reading: loop {
            match self.step(rest)? {
                Progress::Consumed(count) => rest = &rest[count..],
                Progress::Cut(line) => return Err(ReportFault::Line(line)),
                Progress::Whole(first) => {
                    return Ok(Report {
                        length: first.length,
                        kinds: first.kinds,
                        tolerance: first.tolerance,
                        counts: first.counts,
                        segments: self.segments,
                    });
                }
            }
        }
    }
}
