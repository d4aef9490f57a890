//! Rows that join, and records that are read or compared, whose bytes come little by little.

ghost use Rattle.msr_devices.specs.Device.{CanCountCall, CountsFew};

use crate::line::Line;
use crate::records::record_of;
use msr_base::{Kind, SampleVec};
use msr_compare::compare;
use msr_devices::{Behavior, Source, TestSource};
use msr_fixtures::key_at;
use msr_input::{NextRecord, ReadFault, RowReader, Settings};
use msr_rows::Row;
use msr_segments::{Follow, JoinKind, Joiner, OutOfRange, Segment, Step};
use msr_time::{Rate, is_instant};
use std::alloc::Global;

/// The tolerance of rows of tables, in microseconds.
pub const TOLERANCE: u32 = 1000;

/// That of rows that read an input.
const INPUT_TOLERANCE: u32 = 10_000;

/// Adds a row of samples of 0, `FACTOR,MULTIPLIER,START,COUNT`.
fn add_row(line: &mut Line<'_>, rows: &mut Vec<Row>) {
    let rate = Rate::new(line.number_until(","), line.number_until(","));
    let Some(rate) = rate else {
        return line.bad(());
    };
    let start = line.number_until(",");
    let count = line.number();
    let row = Row {
        key: key_at(rate),
        start,
        kind: Kind::Steim2,
        samples: SampleVec::from_vec(line.repeated(0, count)),
    };
    line.push(rows, row);
}

/// Such rows.
pub fn rows_of(line: &mut Line<'_>) -> Vec<Row> {
    let mut rows = Vec::new(line.alloc);
    let words = line.rest;
    for word in words.split_whitespace() {
        line.rest = word;
        add_row(line, &mut rows);
    }
    rows
}

/// What rows did, and the starts and the numbers of samples of the segments that have ended.
#[derive(Drop)]
struct Steps {
    steps: Vec<Result<Step, OutOfRange>>,
    segments: Vec<(i64, usize)>,
}

impl Steps {
    fn add_segment(&mut self, line: &mut Line<'_>, ended: Option<Segment>) {
        if let Some(segment) = ended {
            line.push(&mut self.segments, (segment.start, segment.samples.len()));
        }
    }

    /// Notes whether a row that is taken ends a segment as a follower says.
    fn agree_ended(&self, line: &mut Line<'_>, step: Result<Step, OutOfRange>, ends: bool) {
        let begins = step == Ok(Step::Begins) && !self.steps.is_empty();
        line.agree(step.is_ok() & (ends == begins));
    }

    /// Adds what a follower says of the next row, and the segment that the row ends. The joiner has to do what was said.
    fn add(&mut self, line: &mut Line<'_>, follow: &mut Follow, joiner: &mut Joiner, row: Row) {
        let start = row.start;
        let count = row.samples.len();
        if count < 1 || count > 65_535 || !is_instant(start) {
            return line.bad(());
        }
        let step = follow.step(&row.key, start, count as u16);
        match joiner.push(row) {
            Ok(ended) => {
                self.agree_ended(line, step, ended.is_some());
                self.add_segment(line, ended);
            }
            Err(fault) => {
                line.is_bad |= fault.kind != JoinKind::TimeRange;
                let is_back = (fault.row.start == start) & (fault.row.samples.len() == count);
                line.agree(step.is_err() & is_back);
            }
        }
        line.push(&mut self.steps, step);
    }
}

/// `join FACTOR,MULTIPLIER,START,COUNT ..`: what each row does, and the starts and the numbers of samples of the segments.
pub fn joined(line: &mut Line<'_>) {
    let mut follow = Follow::new(TOLERANCE);
    let mut joiner = Joiner::new(line.alloc, TOLERANCE);
    let mut joined = Steps {
        steps: Vec::new(line.alloc),
        segments: Vec::new(line.alloc),
    };
    for row in rows_of(line) {
        joined.add(line, &mut follow, &mut joiner, row);
    }
    joined.add_segment(line, joiner.finish());
    line.show(&joined.steps);
    line.put(' ');
    line.show(&joined.segments);
}

/// `MOST INTERRUPTIONS FAILS`: at most so many bytes move in a call, after so many interruptions; the call FAILS fails,
/// counted from 0, or none (`-`).
pub fn behavior(line: &mut Line<'_>) -> Behavior {
    Behavior {
        most: line.number(),
        interruptions: line.number(),
        fails_at: line.optional(),
    }
}

/// The same, in `retold` and `tool` also with `FROM..TO` for a device for each of these calls.
pub fn behaviors(line: &mut Line<'_>) -> Vec<Behavior> {
    let plain = Behavior {
        most: line.number(),
        interruptions: line.number(),
        fails_at: None,
    };
    let mut all = Vec::new(line.alloc);
    match line.word().split_once("..") {
        Some((from, to)) => {
            let from = line.number_of(from);
            let to = line.number_of(to);
            add_failing(line, &mut all, plain, from, to);
        }
        None => line.push(&mut all, plain),
    }
    all
}

/// Adds such a device for each of these calls, which fails.
fn add_failing(line: &mut Line<'_>, all: &mut Vec<Behavior>, plain: Behavior, from: u64, to: u64) {
    for call in from..to {
        let fails_at = Some(call);
        line.push(all, Behavior { fails_at, ..plain });
    }
}

/// The bytes of records with a `|` between them, before a `&` or up to the end.
pub fn bytes_of(line: &mut Line<'_>) -> Vec<u8> {
    let mut bytes = Vec::new(line.alloc);
    let records = line.until(" & ");
    let rest = line.rest;
    for record in records.split(" | ") {
        line.rest = record;
        add_record(line, &mut bytes);
    }
    line.rest = rest;
    bytes
}

/// Adds the bytes of the record that is all that is left.
fn add_record(line: &mut Line<'_>, bytes: &mut Vec<u8>) {
    let record = record_of(line);
    line.extend(bytes, &record);
}

/// What the row of a record does, where it starts, and how many samples it has; `None` if the record has none.
type Place = Option<(Step, i64, usize)>;

fn place_of(next: &NextRecord) -> Place {
    match &next.row {
        Some(row) => Some((row.step, row.row.start, row.row.samples.len())),
        None => None,
    }
}

/// Shows how many bytes a record has, and its place.
fn put_place(line: &mut Line<'_>, length: u32, place: Place) {
    line.put_before(length, ' ');
    match place {
        Some((step, start, count)) => {
            line.show(&step);
            line.put(' ');
            line.put_before(start, ' ');
            line.put(count);
        }
        None => line.put_text("None"),
    }
    line.put_text(", ");
}

/// The records that were read so far with their bytes, and what came after them: the end, or a fault.
#[derive(Drop)]
struct Told {
    rows: Vec<(u32, Place)>,
    end: Option<Option<ReadFault>>,
}

impl Told {
    fn new(alloc: Global) -> Told {
        Told {
            rows: Vec::new(alloc),
            end: None,
        }
    }

    /// Whether the other ones are the rows of these, and the same comes after them.
    fn has_rows(&self, others: &Told) -> bool {
        let mut at = 0;
        for (_, place) in &self.rows {
            if place.is_some() {
                match others.rows.as_slice().get(at) {
                    Some((_, other)) if other == place => at += 1,
                    _ => return false,
                }
            }
        }
        at == others.rows.len() && self.end == others.end
    }

    /// Shows all records, and what came after them.
    fn put(&self, line: &mut Line<'_>) {
        for (length, place) in &self.rows {
            put_place(line, *length, *place);
        }
        match self.end {
            Some(Some(fault)) => line.put(fault),
            Some(None) => line.put_text("end"),
            None => line.is_bad = true,
        }
    }

    /// Adds the next record, or what comes after them.
    fn add_record<R: Source>(&mut self, line: &mut Line<'_>, reader: &mut RowReader, source: &mut R)
        requires { CanCountCall (R.device source.old) }
        ensures { CountsFew (R.device source.old) (R.device source.new) }
    {
        if self.end.is_some() {
            return;
        }
        match reader.next_record(source) {
            Ok(Some(next)) => line.push(&mut self.rows, (next.length, place_of(&next))),
            Ok(None) => self.end = Some(None),
            Err(ReadFault::Memory) => line.is_bad = true,
            Err(fault) => self.end = Some(Some(fault)),
        }
    }

    /// Adds the next row without its samples, or what comes after them.
    fn add_outline<R: Source>(
        &mut self,
        line: &mut Line<'_>,
        reader: &mut RowReader,
        source: &mut R,
    )
        requires { CanCountCall (R.device source.old) }
        ensures { CountsFew (R.device source.old) (R.device source.new) }
    {
        if self.end.is_some() {
            return;
        }
        match reader.next_outline(source) {
            Ok(Some(next)) => {
                let place = (next.step, next.row.start, usize::from(next.row.count));
                line.push(&mut self.rows, (0, Some(place)));
            }
            Ok(None) => self.end = Some(None),
            Err(ReadFault::Memory) => line.is_bad = true,
            Err(fault) => self.end = Some(Some(fault)),
        }
    }
}

/// The rows of at most three records without their samples.
fn outlined(line: &mut Line<'_>, strict: bool, bytes: &[u8], behavior: Behavior) -> Told {
    let mut source = TestSource::new(bytes, behavior);
    let tolerance = INPUT_TOLERANCE;
    let mut reader = RowReader::new(line.alloc, Settings { tolerance, strict });
    let mut told = Told::new(line.alloc);
    told.add_outline(line, &mut reader, &mut source);
    told.add_outline(line, &mut reader, &mut source);
    told.add_outline(line, &mut reader, &mut source);
    told.add_outline(line, &mut reader, &mut source);
    told
}

/// Notes whether the end is told once more, unless the source failed.
fn agree_on_end<R: Source>(
    line: &mut Line<'_>,
    reader: &mut RowReader,
    source: &mut R,
    mut told: Told,
)
    requires { CanCountCall (R.device source.old) }
{
    let count = told.rows.len();
    let end = told.end;
    told.end = None;
    told.add_record(line, reader, source);
    let is_again = (told.rows.len() == count) & (told.end == end);
    line.agree(is_again | (end == Some(Some(ReadFault::Read))));
}

/// Shows how many records were read, were empty, and had another reverse constant.
fn put_counts(line: &mut Line<'_>, reader: &RowReader) {
    let counts = reader.counts();
    line.put_text(", ");
    line.put_before(counts.read, ' ');
    line.put_before(counts.empty, ' ');
    line.put(counts.mismatched);
}

/// Shows at most three records, what is told after them and, unless the source failed, once more, and the counts before
/// that.
fn put_records(
    line: &mut Line<'_>,
    strict: bool,
    bytes: &[u8],
    behavior: Behavior,
    outlines: &Told,
) {
    let mut source = TestSource::new(bytes, behavior);
    let tolerance = INPUT_TOLERANCE;
    let mut reader = RowReader::new(line.alloc, Settings { tolerance, strict });
    let mut told = Told::new(line.alloc);
    told.add_record(line, &mut reader, &mut source);
    told.add_record(line, &mut reader, &mut source);
    told.add_record(line, &mut reader, &mut source);
    told.add_record(line, &mut reader, &mut source);
    line.agree(told.has_rows(outlines));
    told.put(line);
    put_counts(line, &reader);
    agree_on_end(line, &mut reader, &mut source, told);
}

/// `input strict|lenient MOST INTERRUPTIONS FAILS RECORD | ..`, of at most three records: how many bytes each has and what
/// its row does, where it starts and how many samples it has; what comes after them, and, unless the source failed, is told
/// again; and how many records were read, were empty, and had another reverse constant.
pub fn read(line: &mut Line<'_>) {
    let strict = line.word() == "strict";
    let behavior = behavior(line);
    let bytes = bytes_of(line);
    let outlines = outlined(line, strict, &bytes, behavior);
    put_records(line, strict, &bytes, behavior, &outlines);
}

/// `compare MOST INTERRUPTIONS FAILS MOST INTERRUPTIONS FAILS RECORD | .. & RECORD | ..`: what is answered for two inputs
/// whose bytes come so.
pub fn compared(line: &mut Line<'_>) {
    let one = behavior(line);
    let other = behavior(line);
    let first = bytes_of(line);
    let second = bytes_of(line);
    let mut one = TestSource::new(&first, one);
    let mut other = TestSource::new(&second, other);
    let settings = Settings {
        tolerance: TOLERANCE,
        strict: false,
    };
    let answer = compare(line.alloc, &mut one, &mut other, settings);
    line.show(&answer);
}
