//! Headers and records: which are read, and from which bytes.

use crate::line::Line;
use crate::lists::{Hexadecimal, gives};
use msr_base::{Kind, Length, Order};
use msr_fixtures::{
    START, edit_by_name, int32_record, key_at, little_record, record, steim_record,
};
use msr_header::{read_header, write_header};
use msr_record::encode_record;
use msr_rows::{FaultKind, Record, RecordView, Row, decode_record, reverse_in, view_record};
use msr_time::{Rate, is_instant};
use msr_words::Fitting;

/// The bytes from the place on that is the next word are all that is left.
fn cut(line: &mut Line<'_>, record: &mut Vec<u8>) {
    let mut rest = Vec::new(line.alloc);
    match record.as_slice().get(line.number()..) {
        Some(bytes) => line.extend(&mut rest, bytes),
        None => line.is_bad = true,
    }
    *record = rest;
}

/// Puts the bytes of the next word at that place.
fn patch(line: &mut Line<'_>, record: &mut Vec<u8>, at: usize) {
    let part = line.bytes();
    let end = at.saturating_add(part.len());
    match record.as_mut_slice().get_mut(at..end) {
        Some(room) => room.copy_from_slice(&part),
        None => line.is_bad = true,
    }
}

/// `FIELD=VALUE`, `PLACE=DIGITS`, `to=COUNT`, `from=PLACE`: a field by its name, bytes from a place on, or which of the
/// bytes are there.
fn change(line: &mut Line<'_>, order: Order, record: &mut Vec<u8>) {
    match line.until("=") {
        "to" => line.is_bad |= record.resize(line.number(), 0).is_err(),
        "from" => cut(line, record),
        name => match name.parse() {
            Ok(at) => patch(line, record, at),
            Err(_) => line.is_bad |= edit_by_name(order, record, name, line.rest).is_none(),
        },
    }
}

/// A record that is changed, or no bytes.
#[derive(Clone, Copy)]
enum Base {
    Plain,
    Steim,
    Int32,
    Little,
    None,
}

const BASES: &[(&str, Base)] = &[
    ("plain", Base::Plain),
    ("steim", Base::Steim),
    ("int32", Base::Int32),
    ("little", Base::Little),
    ("-", Base::None),
];

/// Adds the record that the next word names, and tells the order of its header's numbers.
fn add_base(line: &mut Line<'_>, out: &mut Vec<u8>) -> Order {
    let (order, base) = match line.named(BASES, Base::None) {
        Base::Plain => (Order::Big, record(&[])),
        Base::Steim => (Order::Big, steim_record(&[])),
        Base::Int32 => (Order::Big, int32_record(&[])),
        Base::Little => (Order::Little, little_record(&[])),
        Base::None => return Order::Big,
    };
    line.extend(out, &base);
    order
}

/// `RECORD`: `steim` or `int32` of msr_fixtures, `plain`, the header of `steim` before bytes of 0, `little`, the same with
/// little-endian numbers, or `-` for no bytes; then changes.
pub fn record_of(line: &mut Line<'_>) -> Vec<u8> {
    let mut record = Vec::new(line.alloc);
    let order = add_base(line, &mut record);
    let changes = line.rest;
    for word in changes.split_whitespace() {
        line.rest = word;
        change(line, order, &mut record);
    }
    record
}

/// `header RECORD`: the header that is read of it, and the bytes of the header as it is written; or why it is refused.
pub fn header(line: &mut Line<'_>) {
    let bytes = record_of(line);
    match read_header(&bytes) {
        Ok(header) => {
            let written = write_header(&header);
            line.show(&header);
            line.put(' ');
            line.put(Hexadecimal(&written));
        }
        Err(fault) => line.put(fault),
    }
}

const NO_SAMPLES: &[i32] = &[];

/// Notes whether the view shows the row, or none.
fn agree_row(line: &mut Line<'_>, view: &RecordView<'_>, row: &Option<Row>) {
    let (place, samples) = match row {
        Some(row) => (Some((row.key, row.start)), row.samples.as_slice()),
        None => (None, NO_SAMPLES),
    };
    line.agree((view.place() == place) & gives(view.samples(), samples));
}

/// Notes whether the record is shown as it was decoded, with an area of that many bytes.
fn agree_shown(line: &mut Line<'_>, bytes: &[u8], record: &Record, area: usize) {
    let Ok(view) = view_record(bytes) else {
        return line.agree(false);
    };
    agree_row(line, &view, &record.row);
    let is_shown = (view.length() == record.length) & (view.area().len() == area);
    let agrees = view.reverse_agrees();
    let is_read = (reverse_in(bytes) == Some(agrees)) & (read_header(bytes) == Ok(*view.header()));
    line.agree(is_shown & (agrees == record.reverse_agrees) & is_read);
}

/// Notes whether all calls refuse the record so. Whether the reverse constant agrees is asked of a record that is refused
/// for its time, and of no other.
fn agree_refused(line: &mut Line<'_>, bytes: &[u8], fault: FaultKind) {
    let is_refused = view_record(bytes).err() == Some(fault);
    line.agree(is_refused & (reverse_in(bytes).is_some() == (fault == FaultKind::TimeRange)));
    match (read_header(bytes), fault) {
        (Err(header), FaultKind::Header(other)) => {
            line.agree(header == other);
            line.agree_with(header);
        }
        (Ok(_), FaultKind::Header(_)) | (Err(_), _) => line.agree(false),
        (Ok(_), _) => {}
    }
}

/// `record AREA RECORD`: what it is decoded to, if its area has so many bytes; or why it is refused.
pub fn decoded(line: &mut Line<'_>) {
    let area = line.number();
    let bytes = record_of(line);
    match decode_record(line.alloc, &bytes) {
        Ok(record) => {
            agree_shown(line, &bytes, &record, area);
            line.show(&record);
        }
        Err(FaultKind::Memory) => line.is_bad = true,
        Err(fault) => {
            line.put(fault);
            agree_refused(line, &bytes, fault);
        }
    }
}

/// A row at 20 samples a second of samples of one kind.
#[derive(Drop)]
pub struct Part {
    start: i64,
    sequence: u32,
    before: Option<i32>,
    kind: Kind,
    length: Length,
    samples: Vec<i32>,
}

/// `AFTER SEQUENCE BEFORE KIND LENGTH SAMPLES`: a row so many microseconds after the others.
pub fn part_of(line: &mut Line<'_>) -> Part {
    Part {
        start: START.saturating_add(line.number()),
        sequence: line.number(),
        before: line.optional(),
        kind: line.kind(),
        length: line.length(),
        samples: line.samples(),
    }
}

/// Appends the record of a row, if it takes its samples; or leaves all as it was.
pub fn append(line: &Line<'_>, part: &Part, out: &mut Vec<u8>) -> Option<()> {
    let samples = part.samples.as_slice();
    if part.sequence < 1 || part.sequence > 999_999 || !is_instant(part.start) {
        return None;
    }
    if samples.is_empty() || !part.kind.fits(part.before, samples, part.length) {
        return None;
    }
    let key = key_at(Rate::new(20, 1)?);
    encode_record(
        line.alloc,
        &key,
        part.start,
        part.sequence,
        part.before,
        samples,
        part.kind,
        part.length,
        out,
    )
    .ok()
}

/// Whether it is that row.
fn is_row(row: &Row, part: &Part) -> bool {
    let Some(rate) = Rate::new(20, 1) else {
        return false;
    };
    (row.key == key_at(rate))
        & (row.start == part.start)
        & (row.kind == part.kind)
        & (row.samples.as_slice() == part.samples.as_slice())
}

/// Notes whether the bytes are decoded to that row.
fn agree_decoded(line: &mut Line<'_>, bytes: &[u8], part: &Part) {
    match decode_record(line.alloc, bytes) {
        Ok(record) => {
            let is_part = match &record.row {
                Some(row) => is_row(row, part),
                None => false,
            };
            line.agree(is_part & record.reverse_agrees);
        }
        Err(FaultKind::Memory) => line.is_bad = true,
        Err(_) => line.agree(false),
    }
}

/// `encode AFTER SEQUENCE BEFORE KIND LENGTH SAMPLES`: how many bytes the record of such a row has, and the first 256.
pub fn encoded(line: &mut Line<'_>) {
    let part = part_of(line);
    let mut out = Vec::new(line.alloc);
    line.is_bad |= append(line, &part, &mut out).is_none();
    agree_decoded(line, &out, &part);
    match out.as_slice().get(..256) {
        Some(first) => {
            line.put_before(out.len(), ' ');
            line.put(Hexadecimal(first));
        }
        None => line.is_bad = true,
    }
}
