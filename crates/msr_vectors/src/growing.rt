//! Calls that take one thing after another, each once more if memory is refused. The room for the answer is made before,
//! so what they leave is told also if all memory is refused from then on.

ghost use Rattle.std.specs.Prelude.{◌≡◌, ◌+◌, ◌<◌, ◌^◌, MatchResult};
ghost use Rattle.msr_packer.specs.Blocks.{pushed};

use crate::inputs::{TOLERANCE, rows_of};
use crate::line::Line;
use crate::lists::Hexadecimal;
use crate::packing::put_run;
use crate::records::{append, part_of};
use msr_base::SampleVec;
use msr_folders::Totals;
use msr_packer::{Piece, StreamPacker};
use msr_rows::Row;
use msr_segments::{JoinFault, Joiner, Segment};
use msr_time::is_instant;
use std::alloc::AllocError;

/// How many bytes an answer has at most.
const ROOM: usize = 4096;

fn make_room(line: &mut Line<'_>) {
    line.is_bad |= line.answer.reserve(ROOM).is_err();
}

/// Tells whether memory was refused.
fn put_refused(line: &mut Line<'_>, refused: bool) {
    line.put_text("refused ");
    line.put(refused);
}

/// Tells whether memory was refused; what is left then comes after it.
fn put_left(line: &mut Line<'_>, refused: bool) {
    put_refused(line, refused);
    line.put_text("\nleft");
}

/// Tells whether memory was refused, and the samples that are left.
fn put_samples(line: &mut Line<'_>, refused: bool, samples: &[i32]) {
    put_left(line, refused);
    line.put(' ');
    line.show(&samples);
}

/// Pushes samples one after another, and tells whether memory was refused.
fn push_each(samples: &mut SampleVec, given: &[i32]) -> bool {
    let mut refused = false;
    for sample in given {
        if samples.push(*sample).is_err() {
            refused = true;
            if samples.push(*sample).is_err() {
                break;
            }
        }
    }
    refused
}

/// `push NUMBERS`: a list to which they are pushed.
pub fn push(line: &mut Line<'_>) {
    make_room(line);
    let given = line.samples();
    let mut samples = SampleVec::new(line.alloc);
    let refused = push_each(&mut samples, &given);
    put_samples(line, refused, samples.as_slice());
}

/// Adds samples five at a time, and tells whether memory was refused.
fn extend_by_five(samples: &mut SampleVec, given: &[i32]) -> bool {
    let mut refused = false;
    for more in given.chunks(5) {
        if samples.extend_from_slice(more).is_err() {
            refused = true;
            if samples.extend_from_slice(more).is_err() {
                break;
            }
        }
    }
    refused
}

/// `extend NUMBERS`: a list that is extended by five at a time.
pub fn extend(line: &mut Line<'_>) {
    make_room(line);
    let given = line.samples();
    let mut samples = SampleVec::new(line.alloc);
    let refused = extend_by_five(&mut samples, &given);
    put_samples(line, refused, samples.as_slice());
}

/// Pushes a sample, and once more if memory is refused, which `refused` tells from then on.
fn push_twice(
    packer: &mut StreamPacker,
    sample: i32,
    refused: &mut bool,
) -> Result<Option<Piece>, AllocError>
    requires { pushed packer.old + 1 < 2 ^ 64 }
    ensures { MatchResult result (λ _. pushed packer.new ≡ pushed packer.old + 1)
        (λ _. pushed packer.new ≡ pushed packer.old) }
{
    match packer.push(sample) {
        Ok(piece) => Ok(piece),
        Err(_) => {
            *refused = true;
            packer.push(sample)
        }
    }
}

/// Adds pieces: the run and the separator of each.
fn put_pieces(line: &mut Line<'_>, pieces: &[Piece]) {
    for piece in pieces {
        line.put(' ');
        put_run(line, &piece.run, ':');
        line.put(' ');
        line.put(piece.separator);
    }
}

/// `stream FORM NUMBERS`: the pieces of a packer to which they are pushed.
pub fn stream(line: &mut Line<'_>) {
    make_room(line);
    let form = line.form();
    let samples = line.samples();
    let refused = put_stream(line, &samples, StreamPacker::of(line.alloc, form));
    line.put('\n');
    put_refused(line, refused);
}

/// Pushes samples to a new packer, adds the pieces, and tells whether memory was refused.
fn put_stream(line: &mut Line<'_>, samples: &[i32], mut packer: StreamPacker) -> bool
    requires { pushed packer ≡ 0 }
{
    let mut refused = false;
    line.put_text("left");
    for at in 0..samples.len() {
        match push_twice(&mut packer, samples[at], &mut refused) {
            Ok(piece) => put_pieces(line, piece.as_slice()),
            Err(_) => return refused,
        }
    }
    put_pieces(line, packer.end().pieces.as_slice());
    refused
}

/// Appends the record of the row that is next, and once more if memory is refused, which `refused` tells from then on.
fn append_twice(line: &mut Line<'_>, out: &mut Vec<u8>, refused: &mut bool) -> Option<()> {
    let part = part_of(line);
    let appended = append(line, &part, out);
    if appended.is_some() {
        return appended;
    }
    *refused = true;
    append(line, &part, out)
}

/// `append AFTER SEQUENCE BEFORE KIND LENGTH SAMPLES | ..`: the records of rows.
pub fn records(line: &mut Line<'_>) {
    make_room(line);
    let mut out = Vec::new(line.alloc);
    let parts = line.rest;
    let mut refused = false;
    for part in parts.split(" | ") {
        line.rest = part;
        if append_twice(line, &mut out, &mut refused).is_none() {
            break;
        }
    }
    put_left(line, refused);
    line.put(' ');
    line.put(Hexadecimal(&out));
}

/// Adds a segment that has ended.
fn put_segment(line: &mut Line<'_>, ended: Option<Segment>) {
    if let Some(segment) = ended {
        line.put(' ');
        line.put_before(segment.start, '+');
        line.put(segment.samples.len());
    }
}

/// Joins a row, and once more if memory is refused, which `refused` tells from then on; or passes over one that no joiner
/// takes.
fn join_twice(
    joiner: &mut Joiner,
    row: Row,
    refused: &mut bool,
) -> Result<Option<Segment>, JoinFault> {
    let count = row.samples.len();
    if count < 1 || count > 65_535 || !is_instant(row.start) {
        return Ok(None);
    }
    match joiner.push(row) {
        Ok(ended) => Ok(ended),
        Err(fault) => {
            *refused = true;
            joiner.push(fault.row)
        }
    }
}

/// `joins FACTOR,MULTIPLIER,START,COUNT ..`: the starts and the numbers of samples of the segments of rows, each of which
/// is handed back if memory is refused.
pub fn joins(line: &mut Line<'_>) {
    make_room(line);
    let rows = rows_of(line);
    let mut joiner = Joiner::new(line.alloc, TOLERANCE);
    let mut refused = false;
    line.put_text("left");
    for row in rows {
        match join_twice(&mut joiner, row, &mut refused) {
            Ok(ended) => put_segment(line, ended),
            Err(_) => break,
        }
    }
    put_segment(line, joiner.finish());
    line.put('\n');
    put_refused(line, refused);
}

/// Adds the file that is next, and once more if memory is refused, which `refused` tells from then on.
fn add_twice(
    line: &mut Line<'_>,
    totals: &mut Totals,
    refused: &mut bool,
) -> Result<(), AllocError> {
    let name = line.until(",");
    let read = line.number_until(",");
    let written = line.number();
    match totals.add(name, read, written) {
        Ok(()) => Ok(()),
        Err(_) => {
            *refused = true;
            totals.add(name, read, written)
        }
    }
}

/// Adds the first totals, at most so many.
fn put_totals(line: &mut Line<'_>, totals: &Totals, most: usize) {
    for place in 0..most {
        if let Some((name, total)) = totals.get(place) {
            line.put(' ');
            line.put_before(name, ' ');
            line.put_before(total.files, ' ');
            line.put_before(total.read, ' ');
            line.put(total.written);
        }
    }
}

/// `totals NAME,READ,WRITTEN ..`: the totals of the names, each of one file that is added.
pub fn totals(line: &mut Line<'_>) {
    make_room(line);
    let mut totals = Totals::new(line.alloc);
    let files = line.rest;
    let mut refused = false;
    for file in files.split_whitespace() {
        line.rest = file;
        if add_twice(line, &mut totals, &mut refused).is_err() {
            break;
        }
    }
    put_left(line, refused);
    put_totals(line, &totals, files.len());
}
