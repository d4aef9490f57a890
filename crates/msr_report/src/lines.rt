//! The lines of a list and of a report.
ghost use Rattle.std.specs.Prelude.{◌≡◌, ◌++◌, ◌∷◌, ◌<◌, ℕ, List, IfOk, OnOk, OnErr, string_bytes, decimal, length};
ghost use Rattle.msr_time.specs.Instant.{IsInstant};
ghost use Rattle.msr_report.specs.Text.{words_after_quality, segment_words, IsListLine, separators_line, IsSegmentText, kinds_line, counts_line, first_lines, end_line};

use crate::fields::{name_string, push_decimal, push_settings, time_string};
use crate::report::{Report, SegmentLine};
use itoa::Buffer;
use msr_base::{Counts, Kinds};
use msr_rows::Key;
use std::alloc::{AllocError, Global};

/// For how many bytes memory is taken at first: the words after the quality, and a line.
const WORDS_ROOM: usize = 160;

const LINE_ROOM: usize = 192;

/// The words after the quality, and then more text.
fn words_string(
    alloc: Global,
    key: &Key,
    start: &str,
    samples: u64,
    more: &str,
) -> Result<String, AllocError>
    ensures { IfOk result (λ text. string_bytes text ≡ words_after_quality key.now start.now samples more.now) }
{
    let mut text = String::with_capacity(alloc, WORDS_ROOM)?;
    push_settings(&mut text, key)?;
    text.push_str(" start ")?;
    text.push_str(start)?;
    text.push_str(" samples ")?;
    push_decimal(&mut text, samples)?;
    text.push_str(more)?;
    Ok(text)
}

/// Appends the words of a segment, whose start has the given text, and then more text.
fn push_words(
    alloc: Global,
    out: &mut Vec<u8>,
    key: &Key,
    start: &str,
    samples: u64,
    more: &str,
) -> Result<(), AllocError>
    ensures pushed { OnOk result (out.new.items ≡ out.old.items ++ segment_words key.now start.now samples more.now) }
    ensures refused { OnErr result (out.new.items ≡ out.old.items) }
{
    let name = name_string(alloc, key)?;
    let words = words_string(alloc, key, start, samples, more)?;
    let mut line = Vec::with_capacity(alloc, LINE_ROOM)?;
    line.extend_from_slice(b"segment ")?;
    line.extend_from_slice(name.as_bytes())?;
    line.push(b' ')?;
    line.push(key.quality)?;
    line.extend_from_slice(words.as_bytes())?;
    out.extend_from_slice(line.as_slice())
}

/// Appends the line of a segment, as a list has it. If memory is refused, nothing is appended.
pub fn push_list_line(
    alloc: Global,
    out: &mut Vec<u8>,
    key: &Key,
    start: i64,
    samples: u64,
) -> Result<(), AllocError>
    requires { IsInstant start }
    ensures pushed { OnOk result ((line : List ℕ)
        × (IsListLine key.now start samples line × (out.new.items ≡ out.old.items ++ line))) }
    ensures refused { OnErr result (out.new.items ≡ out.old.items) }
{
    let time = time_string(alloc, start)?;
    push_words(alloc, out, key, time.as_str(), samples, "\n")
}

/// The line of the counts.
fn counts_string(alloc: Global, counts: &Counts) -> Result<String, AllocError>
    ensures { IfOk result (λ text. string_bytes text ≡ counts_line counts.now) }
{
    let (read, empty, mismatched) = (counts.read, counts.empty, counts.mismatched);
    format!(in alloc; "read {read} empty {empty} mismatched {mismatched}\n")
}

/// Appends the line of the counts. If memory is refused, nothing is appended.
pub fn push_counts(alloc: Global, out: &mut Vec<u8>, counts: &Counts) -> Result<(), AllocError>
    ensures pushed { OnOk result (out.new.items ≡ out.old.items ++ counts_line counts.now) }
    ensures refused { OnErr result (out.new.items ≡ out.old.items) }
{
    let text = counts_string(alloc, counts)?;
    out.extend_from_slice(text.as_bytes())
}

/// Appends a number after a space.
fn push_number(out: &mut Vec<u8>, n: u64) -> Result<(), AllocError>
    ensures { OnOk result (out.new.items ≡ out.old.items ++ (32 ∷ decimal n)) }
{
    let mut digits = Buffer::new();
    out.push(b' ')?;
    out.extend_from_slice(digits.format(n).as_bytes())
}

/// Appends the line of the separators.
fn push_separators(out: &mut Vec<u8>, separators: &[u64]) -> Result<(), AllocError>
    ensures { OnOk result (out.new.items ≡ out.old.items ++ separators_line separators.now) }
{
    out.extend_from_slice(b"separators")?;
    for separator in separators {
        push_number(out, *separator)?;
    }
    out.push(b'\n')?;
    Ok(())
}

/// Appends the two lines of a segment in a report.
pub(crate) fn push_segment(
    alloc: Global,
    out: &mut Vec<u8>,
    line: &SegmentLine,
) -> Result<(), AllocError>
    requires { IsInstant line.now.start }
    ensures { OnOk result ((text : List ℕ) × (IsSegmentText line.now text × (out.new.items ≡ out.old.items ++ text))) }
{
    let time = time_string(alloc, line.start)?;
    let records = line.records;
    let more = format!(in alloc; " records {records}\n")?;
    push_words(
        alloc,
        out,
        &line.key,
        time.as_str(),
        line.samples,
        more.as_str(),
    )?;
    push_separators(out, &line.separators)
}

/// The line of the kinds of which records may be, each by its name. A report of all five has none.
pub fn kinds_line(kinds: Kinds) -> &'static str
    ensures { result.now ≡ kinds_line kinds }
{
    match kinds {
        Kinds::All => "",
        Kinds::WithoutInt24 => "kinds steim2 steim1 int16 int32\n",
    }
}

/// Appends the lines before the segments.
pub(crate) fn push_first_lines(
    alloc: Global,
    out: &mut Vec<u8>,
    report: &Report,
) -> Result<(), AllocError>
    ensures { OnOk result (out.new.items ≡ out.old.items ++ first_lines report.now) }
{
    let length = report.length.bytes();
    let tolerance = report.tolerance;
    let kinds = kinds_line(report.kinds);
    let counts = counts_string(alloc, &report.counts)?;
    let text = format!(in alloc;
        "msrepack 1\nlength {length}\ntolerance {tolerance}\n{kinds}{counts}"
    )?;
    out.extend_from_slice(text.as_bytes())
}

/// Appends the last line.
pub(crate) fn push_end_line(
    alloc: Global,
    out: &mut Vec<u8>,
    segments: u64,
    records: u64,
) -> Result<(), AllocError>
    ensures { OnOk result (out.new.items ≡ out.old.items ++ end_line segments records) }
{
    let text = format!(in alloc; "end {segments} segments {records} records\n")?;
    out.extend_from_slice(text.as_bytes())
}
