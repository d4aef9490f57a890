//! msr_check: a judge of runs that come one after another, beside the check that has the whole segment at hand.

use crate::made::Made::{self, Bounds, Extremes, Noise, Signs, Teeth, Turns, Zeros};
use Change::{Back, Doubled, Dropped, On, Stays};
use msr_base::{Form, Kind, Kinds, Length};
use msr_check::{Judge, shows_least_in};
use msr_fixtures::expect;
use msr_packer::{Packing, pack_in};
use msr_words::Kind::{Int16, Int24, Int32, Steim1, Steim2};
use msr_words::Kinds::{All, WithoutInt24};
use msr_words::Run;
use std::alloc::{AllocError, Global};
use std::test::Fail;

/// Samples, with the form of the records that they are packed into.
#[derive(Clone, Copy)]
struct Segment<'a> {
    samples: &'a [i32],
    form: Form,
}

/// What is done to a sample number of a list: where a run ends, or a separator.
#[derive(Clone, Copy)]
enum Change {
    Stays,
    /// It is one less.
    Back,
    /// It is one more.
    On,
    Dropped,
    /// The next sample follows it in the list.
    Doubled,
}

impl Change {
    /// The first of the numbers that stand in its place one after another, and how many these are.
    fn of(self, number: u64) -> (u64, u64) {
        match self {
            Stays => (number, 1),
            Back => (number.wrapping_sub(1), 1),
            On => (number.wrapping_add(1), 1),
            Dropped => (number, 0),
            Doubled => (number, 2),
        }
    }
}

/// A judge, and the runs and separators that are judged.
#[derive(Drop)]
struct Trial {
    judge: Judge,
    runs: Vec<Run>,
    separators: Vec<u64>,
}

impl Trial {
    /// Takes a run from there to each number of a change, of so many samples, and says where the last one ends.
    fn take_run(
        &mut self,
        mut start: u64,
        kind: Kind,
        ends: (u64, u64),
        samples: u64,
    ) -> Result<u64, AllocError> {
        let (first, count) = ends;
        for more in 0..count {
            let end = first.wrapping_add(more).min(samples).max(start);
            self.runs.push(Run { start, end, kind })?;
            start = end;
        }
        Ok(start)
    }

    /// Takes these runs of so many samples; the end of one is changed, and each begins where the one before it ends.
    fn take_runs(
        &mut self,
        runs: &[Run],
        place: usize,
        change: Change,
        samples: u64,
    ) -> Result<(), AllocError> {
        self.runs.clear();
        let mut start = 0;
        for at in 0..runs.len() {
            let Run { end, kind, .. } = runs[at];
            let change = if at == place { change } else { Stays };
            start = self.take_run(start, kind, change.of(end), samples)?;
        }
        Ok(())
    }

    /// Takes each number of a change as a separator.
    fn take_separator(&mut self, numbers: (u64, u64)) -> Result<(), AllocError> {
        let (first, count) = numbers;
        for more in 0..count {
            self.separators.push(first.wrapping_add(more))?;
        }
        Ok(())
    }

    /// Takes these separators, of which one is changed.
    fn take_separators(
        &mut self,
        separators: &[u64],
        place: usize,
        change: Change,
    ) -> Result<(), AllocError> {
        self.separators.clear();
        for at in 0..separators.len() {
            let change = if at == place { change } else { Stays };
            self.take_separator(change.of(separators[at]))?;
        }
        Ok(())
    }

    /// Takes the runs and separators of a packing of so many samples, with a change of each at a place.
    fn take(
        &mut self,
        packing: &Packing,
        place: usize,
        changes: (Change, Change),
        samples: u64,
    ) -> Result<(), AllocError> {
        self.take_runs(&packing.runs, place, changes.0, samples)?;
        self.take_separators(&packing.separators, place, changes.1)
    }

    /// Gives the judge the runs one after another, as far as it takes them.
    fn judge_runs(&mut self, segment: Segment<'_>) -> bool {
        self.judge.begin();
        for run in &self.runs {
            if !judges(&mut self.judge, *run, segment, &self.separators) {
                return false;
            }
        }
        true
    }

    /// What is said of runs that come one after another, and of all at once, if it is the same.
    fn verdict(&mut self, segment: Segment<'_>) -> Option<bool> {
        let Segment { samples, form } = segment;
        if !self.judge_runs(segment) {
            return None;
        }
        let count = samples.len() as u64;
        let one_by_one = self.judge.shows_least(form, &self.separators, count);
        let at_once = shows_least_in(samples, form, &self.runs, &self.separators);
        if one_by_one == at_once {
            Some(at_once)
        } else {
            None
        }
    }
}

/// The judge takes one more run of the segment.
fn judges(judge: &mut Judge, run: Run, segment: Segment<'_>, separators: &[u64]) -> bool {
    let Segment { samples, form } = segment;
    match samples.get(run.start as usize..run.end as usize) {
        Some(part) => judge.push(part, run.kind, form, separators).is_ok(),
        None => false,
    }
}

/// A change of a run's end and one of a separator, and what has to be said of a least packing with its separators then, if
/// that is known beforehand: no packing has fewer runs, none with more is least, and a record holds each separator with
/// the sample before the next.
const CHANGES: &[(Change, Change, Option<bool>)] = &[
    (Stays, Stays, Some(true)),
    (Stays, Back, Some(false)),
    (Stays, On, None),
    (Stays, Dropped, Some(false)),
    (Stays, Doubled, Some(false)),
    (Back, Stays, None),
    (On, Stays, None),
    (On, On, None),
    (Dropped, Stays, Some(false)),
    (Dropped, Dropped, Some(false)),
    (Doubled, Stays, Some(false)),
    (Doubled, Doubled, Some(false)),
];

/// Both say the same of a least packing with its separators after each change at that place, and nothing wrong.
fn agree_at(
    trial: &mut Trial,
    segment: Segment<'_>,
    packing: &Packing,
    place: usize,
) -> Result<bool, AllocError> {
    let samples = segment.samples.len() as u64;
    for (end, separator, known) in CHANGES {
        trial.take(packing, place, (*end, *separator), samples)?;
        let said = trial.verdict(segment);
        if said.is_none() | (known.is_some() & (said != *known)) {
            return Ok(false);
        }
    }
    Ok(true)
}

/// The kinds that are said of a run.
const KINDS: &[Kind] = &[Steim2, Steim1, Int16, Int24, Int32];

/// Both say the same of the packing if its last run is said to be of another kind.
fn agree_on_kinds(
    trial: &mut Trial,
    segment: Segment<'_>,
    packing: &Packing,
) -> Result<bool, AllocError> {
    let samples = segment.samples.len() as u64;
    trial.take(packing, 0, (Stays, Stays), samples)?;
    for kind in KINDS {
        if let Some(run) = trial.runs.last_mut() {
            run.kind = *kind;
        }
        if trial.verdict(segment).is_none() {
            return Ok(false);
        }
    }
    Ok(true)
}

/// Both say the same of the segment's packing and its separators, changed at the first place, the second or the last.
fn agree_on(
    trial: &mut Trial,
    segment: Segment<'_>,
    packing: &Packing,
) -> Result<bool, AllocError> {
    let count = packing.runs.len();
    for place in 0..count {
        let is_tried = place <= 1 || place + 1 == count;
        if is_tried && !agree_at(trial, segment, packing, place)? {
            return Ok(false);
        }
    }
    agree_on_kinds(trial, segment, packing)
}

/// How many samples the first run of the segment's packing has.
fn first_run(alloc: Global, segment: Segment<'_>) -> Result<usize, AllocError> {
    let packing = pack_in(alloc, segment.samples, segment.form)?;
    match packing.runs.as_slice().first() {
        Some(run) => Ok(run.end as usize),
        None => Ok(0),
    }
}

/// Both say the same of so many of the first samples, or of as many as there are.
fn agree_on_first(
    alloc: Global,
    trial: &mut Trial,
    all: Segment<'_>,
    count: usize,
) -> Result<bool, AllocError> {
    let Segment { samples, form } = all;
    let segment = Segment {
        samples: &samples[..samples.len().min(count)],
        form,
    };
    let packing = pack_in(alloc, segment.samples, form)?;
    agree_on(trial, segment, &packing)
}

/// Both say the same of the samples of the first run with so many more, or as many as there are.
fn agree_on_tails(
    alloc: Global,
    trial: &mut Trial,
    all: Segment<'_>,
    tails: &[usize],
) -> Result<bool, AllocError> {
    let first = first_run(alloc, all)?;
    for tail in tails {
        if !agree_on_first(alloc, trial, all, first.saturating_add(*tail))? {
            return Ok(false);
        }
    }
    Ok(true)
}

/// A name, how many samples there are for each data word of a record, the kinds of records, and the samples. There are
/// somewhat more than a record has room for; of most rows it has as many as a bound allows.
type Row = (&'static str, usize, Kinds, Made);

const ROWS: &[Row] = &[
    ("seven a word", 8, All, Zeros),
    ("four a word", 5, All, Teeth(100, 100, 1)),
    ("two a word", 3, All, Teeth(8_000, 8_000, 1)),
    ("two a word of Steim-1", 3, All, Teeth(20_000, 20_000, 1)),
    ("two a word or one", 2, All, Teeth(8_000, 100_000, 6)),
    ("16-bit integers", 3, All, Signs),
    ("24-bit integers", 2, All, Bounds),
    ("24 bits as 32", 2, WithoutInt24, Bounds),
    ("32-bit integers", 2, All, Extremes),
    ("noise", 4, All, Noise(5, 250)),
    ("Steim-1 reaches furthest", 3, All, Turns(9, 40, 40_000, 6)),
    (
        "Steim-1 from before the frontier",
        3,
        All,
        Turns(12, 60, 70_000, 40),
    ),
    ("three kinds", 3, WithoutInt24, Turns(42, 1_000, 70_000, 90)),
    (
        "more than 32 bits",
        3,
        All,
        Turns(39, 1_000, 2_147_483_648, 80),
    ),
];

/// Both say the same of so many samples that are made so.
fn agree_on_made(
    alloc: Global,
    form: Form,
    made: Made,
    count: usize,
    tails: &[usize],
) -> Result<bool, AllocError> {
    let samples = made.samples(alloc, count)?;
    let segment = Segment {
        samples: &samples,
        form,
    };
    let mut trial = Trial {
        judge: Judge::new(alloc),
        runs: Vec::new(alloc),
        separators: Vec::new(alloc),
    };
    agree_on_tails(alloc, &mut trial, segment, tails)
}

/// Both say the same of the rows for so many records of that length and somewhat more.
fn agree_at_length(alloc: Global, bytes: u32, records: usize, tails: &[usize]) -> Result<(), Fail> {
    let Some(length) = Length::new(bytes) else {
        return expect(false, "a length");
    };
    let words = records.saturating_mul(length.data_words() as usize);
    for (name, factor, kinds, made) in ROWS {
        let form = Form {
            length,
            kinds: *kinds,
        };
        let count = words.saturating_mul(*factor);
        if !matches!(agree_on_made(alloc, form, *made, count, tails), Ok(true)) {
            return expect(false, name);
        }
    }
    Ok(())
}

/// After the first run there are about as many samples as a window has places, or as many as three records or more.
#[test]
fn judged_alike_in_short_records(rt: HostRuntime) -> Result<(), Fail> {
    for bytes in [256, 512, 1024, 2048] {
        agree_at_length(rt.alloc(), bytes, 3, &[1, 63, 64, 65, 66, usize::MAX])?;
    }
    Ok(())
}

/// After the first run there are as many samples as a window has places, or one more; so too below.
#[test]
fn judged_alike_in_longer_records(rt: HostRuntime) -> Result<(), Fail> {
    for bytes in [4096, 8192, 16_384] {
        agree_at_length(rt.alloc(), bytes, 1, &[64, 65])?;
    }
    Ok(())
}

#[test]
fn judged_alike_in_records_of_32768_bytes(rt: HostRuntime) -> Result<(), Fail> {
    agree_at_length(rt.alloc(), 32_768, 1, &[64, 65])
}

#[test]
fn judged_alike_in_records_of_65536_bytes(rt: HostRuntime) -> Result<(), Fail> {
    agree_at_length(rt.alloc(), 65_536, 1, &[64])
}

#[test]
fn judged_alike_in_records_of_65536_bytes_and_a_sample_more(rt: HostRuntime) -> Result<(), Fail> {
    agree_at_length(rt.alloc(), 65_536, 1, &[65])
}
