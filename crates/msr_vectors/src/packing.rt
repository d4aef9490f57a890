//! Segments and their packings, and what shows that no packing has fewer records.

ghost use Rattle.std.specs.Prelude.{◌≡◌, ◌≤◌, ◌+◌, ◌<◌, ◌^◌};
ghost use Rattle.msr_packer.specs.Blocks.{pushed};

use crate::line::Line;
use msr_base::{Form, Kinds};
use msr_check::{separates, separates_in, shows_least, shows_least_in};
use msr_packer::{BlockPacker, Packing, Piece, StreamPacker, pack, pack_in};
use msr_words::{Run, longest_run};
use std::alloc::{AllocError, Global};

/// What a packer of a stream gives, and the samples that it shows with each piece and at the end.
#[derive(Drop, PartialEq)]
struct Streamed {
    packing: Packing,
    samples: Vec<i32>,
    /// Whether the sample before each run was the last one of the run before it.
    joined: bool,
}

impl Streamed {
    fn empty(alloc: Global) -> Streamed {
        Streamed {
            packing: Packing {
                runs: Vec::new(alloc),
                separators: Vec::new(alloc),
            },
            samples: Vec::new(alloc),
            joined: true,
        }
    }

    /// Adds pieces and their samples.
    fn add(&mut self, line: &mut Line<'_>, pieces: &[Piece], samples: &[i32]) {
        for piece in pieces {
            line.push(&mut self.packing.runs, piece.run);
            line.push(&mut self.packing.separators, piece.separator);
        }
        line.extend(&mut self.samples, samples);
    }

    /// Adds a piece with its samples, and the sample before them.
    fn add_after(
        &mut self,
        line: &mut Line<'_>,
        piece: Piece,
        before: Option<i32>,
        samples: &[i32],
    ) {
        self.joined &= before == self.samples.as_slice().last().copied();
        self.add(line, &[piece], samples);
    }
}

/// Pushes a sample; without memory it is left out.
fn push(line: &mut Line<'_>, packer: &mut StreamPacker, given: &mut Streamed, sample: i32)
    requires { pushed packer.old + 1 < 2 ^ 64 }
    ensures { pushed packer.new ≤ pushed packer.old + 1 }
{
    match packer.push(sample) {
        Ok(piece) => given.add(line, piece.as_slice(), packer.run_samples()),
        Err(_) => line.is_bad = true,
    }
}

/// The samples pushed one after another. Of them no more than two longest runs are kept back.
fn stream_of(line: &mut Line<'_>, samples: &[i32], form: Form) -> Streamed {
    let mut packer = StreamPacker::of(line.alloc, form);
    let mut given = Streamed::empty(line.alloc);
    for at in 0..samples.len() {
        push(line, &mut packer, &mut given, samples[at]);
        let kept = at.saturating_sub(given.samples.len());
        given.joined &= kept < longest_run(form).saturating_mul(2);
    }
    let last = packer.end();
    given.add(line, last.pieces.as_slice(), last.samples.as_slice());
    given
}

/// Adds the pieces that are decided.
fn add_decided(line: &mut Line<'_>, packer: &mut BlockPacker, given: &mut Streamed)
    ensures { pushed packer.new ≡ pushed packer.old }
{
    while let Some(piece) = packer.next_piece() {
        given.add_after(line, piece, packer.sample_before(), packer.run_samples());
    }
}

/// Adds the pieces at the end.
fn add_last(line: &mut Line<'_>, packer: &mut BlockPacker, given: &mut Streamed) {
    while let Some(piece) = packer.last_piece() {
        given.add_after(line, piece, packer.sample_before(), packer.run_samples());
    }
}

/// What a block packer gives, if `size` samples are pushed at a time.
fn in_blocks(line: &mut Line<'_>, samples: &[i32], form: Form, size: usize) -> Streamed {
    let mut packer = BlockPacker::new(line.alloc, form);
    let mut given = Streamed::empty(line.alloc);
    let mut from = 0;
    while from < samples.len() {
        let to = from + size.max(1).min(samples.len() - from);
        line.is_bad |= packer.push_all(&samples[from..to]).is_err();
        add_decided(line, &mut packer, &mut given);
        from = to;
    }
    add_last(line, &mut packer, &mut given);
    given
}

/// How many samples a block has: one, a few, about a record, or all.
const SIZES: &[usize] = &[1, 7, 100, 1_000_000];

/// Notes whether samples that are pushed one after another, and in blocks, give the packing: of one sample, a few, about
/// a record, or all at once.
fn agree_streamed(line: &mut Line<'_>, whole: &Streamed, form: Form) {
    let samples = whole.samples.as_slice();
    let given = stream_of(line, samples, form);
    line.agree(given == *whole);
    for size in SIZES {
        let given = in_blocks(line, samples, form, *size);
        line.agree(given == *whole);
    }
}

/// The packing, by the call for all kinds, too.
fn packing_of(line: &mut Line<'_>, samples: &[i32], form: Form) -> Packing {
    let packing = pack_in(line.alloc, samples, form);
    let packing = or_none(line, packing);
    if form.kinds == Kinds::All {
        let other = pack(line.alloc, samples, form.length);
        let other = or_none(line, other);
        line.agree(other == packing);
    }
    packing
}

fn or_none(line: &mut Line<'_>, packing: Result<Packing, AllocError>) -> Packing {
    match packing {
        Ok(packing) => packing,
        Err(_) => {
            line.is_bad = true;
            Packing {
                runs: Vec::new(line.alloc),
                separators: Vec::new(line.alloc),
            }
        }
    }
}

/// Shows where a run starts and ends, and after that mark its kind.
pub fn put_run(line: &mut Line<'_>, run: &Run, mark: char) {
    line.put(run.start);
    line.put_text("..");
    line.put_before(run.end, mark);
    line.show(&run.kind);
}

/// `pack FORM SAMPLES`: the runs of the packing, and its separators.
pub fn packed(line: &mut Line<'_>) {
    let form = line.form();
    let samples = line.samples();
    let whole = Streamed {
        packing: packing_of(line, &samples, form),
        samples,
        joined: true,
    };
    agree_streamed(line, &whole, form);
    for run in &whole.packing.runs {
        put_run(line, run, ' ');
        line.put_text(", ");
    }
    line.show(&whole.packing.separators);
}

/// `separates FORM SEPARATORS SAMPLES`: whether no record holds one of these samples with the next one.
pub fn separated(line: &mut Line<'_>) {
    let form = line.form();
    let separators = line.numbers();
    let samples = line.samples();
    let is = separates_in(&samples, form, &separators);
    if form.kinds == Kinds::All {
        line.agree(separates(&samples, form.length, &separators) == is);
    }
    line.put(is);
}

/// `RUNS`: `START,END,KIND`, several with `+`.
fn runs_of(line: &mut Line<'_>) -> Vec<Run> {
    let mut runs = Vec::new(line.alloc);
    let text = line.word();
    let rest = line.rest;
    for part in text.split('+') {
        line.rest = part;
        let start = line.number_until(",");
        let end = line.number_until(",");
        let kind = line.kind();
        line.push(&mut runs, Run { start, end, kind });
    }
    line.rest = rest;
    runs
}

/// `least FORM RUNS SEPARATORS SAMPLES`: whether the separators show that no packing of the samples has fewer runs.
pub fn is_least(line: &mut Line<'_>) {
    let form = line.form();
    let runs = runs_of(line);
    let separators = line.numbers();
    let samples = line.samples();
    let is = shows_least_in(&samples, form, &runs, &separators);
    if form.kinds == Kinds::All {
        line.agree(shows_least(&samples, form.length, &runs, &separators) == is);
    }
    line.put(is);
}
