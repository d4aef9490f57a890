//! Which runs fit a record, by the trackers, by `Kind::fits` and by `groups`.

ghost use Rattle.std.specs.Prelude.{◌≤◌, length};

use crate::line::Line;
use msr_base::{Kind, Length};
use msr_steim::Group;
use msr_words::{
    Codec, Fitting, Int16, Int24, Int32, Steim1, Steim2, Window, difference, groups, longest_run,
    run_fits,
};

/// How many of these differences the tracker takes with that sample. After the first that it refuses it takes none.
fn taken_of<C: Codec + Drop>(
    line: &mut Line<'_>,
    mut tracker: C,
    sample: i32,
    differences: &[i64],
) -> usize {
    let mut taken = 0usize;
    for difference in differences {
        if !tracker.push(sample, *difference) {
            line.agree(!tracker.push(sample, *difference) && !tracker.push(0, 0));
            return taken;
        }
        taken = taken.saturating_add(1);
    }
    taken
}

/// What the tracker of that kind takes.
fn taken_by(line: &mut Line<'_>, kind: Kind, length: Length, sample: i32, of: &[i64]) -> usize {
    match kind {
        Kind::Int16 => taken_of(line, Int16::start(length), sample, of),
        Kind::Int24 => taken_of(line, Int24::start(length), sample, of),
        Kind::Int32 => taken_of(line, Int32::start(length), sample, of),
        Kind::Steim1 => taken_of(line, Steim1::start(length), sample, of),
        Kind::Steim2 => taken_of(line, Steim2::start(length), sample, of),
    }
}

/// `taken LENGTH SAMPLE DIFFERENCES KINDS`: how many pushes of that sample each tracker takes, with these differences.
pub fn taken(line: &mut Line<'_>) {
    let length = line.length();
    let sample = line.number();
    let differences = line.numbers();
    let mut all = Vec::new(line.alloc);
    let kinds = line.rest;
    for _ in kinds.split_whitespace() {
        let kind = line.kind();
        let taken = taken_by(line, kind, length, sample, &differences);
        line.push(&mut all, taken);
    }
    line.show(&all);
}

/// The number of the encoding, and how many samples are looked back.
fn codec<C: Codec + Drop>(length: Length) -> (u8, usize) {
    (C::start(length).code(), C::LOOK_BACK)
}

/// `kind LENGTH KIND`: the number of its encoding, how many samples it looks back, and the most that a record holds.
pub fn kind(line: &mut Line<'_>) {
    let length = line.length();
    let kind = line.kind();
    let codec = match kind {
        Kind::Int16 => codec::<Int16>(length),
        Kind::Int24 => codec::<Int24>(length),
        Kind::Int32 => codec::<Int32>(length),
        Kind::Steim1 => codec::<Steim1>(length),
        Kind::Steim2 => codec::<Steim2>(length),
    };
    line.agree(codec == (kind.code(), kind.look_back()));
    line.show(&(codec.0, codec.1, kind.most(length)));
}

/// `encoding NUMBER`: the kind of that encoding.
pub fn encoding(line: &mut Line<'_>) {
    let kind = Kind::of_code(line.number());
    line.show(&kind);
}

/// `length BYTES`: the exponent of such a record, its frames and its words for differences.
pub fn length(line: &mut Line<'_>) {
    let bytes = line.number();
    let Some(length) = Length::new(bytes) else {
        return line.put_text("None");
    };
    line.agree(length.bytes() == bytes);
    line.show(&(length.exponent(), length.frames(), length.data_words()));
}

/// `longest FORM`: how many samples a record holds at most.
pub fn longest(line: &mut Line<'_>) {
    let form = line.form();
    line.put(longest_run(form));
}

/// `fits KIND LENGTH BEFORE SAMPLES`: whether the run fits, after that sample.
pub fn fits(line: &mut Line<'_>) {
    let kind = line.kind();
    let length = line.length();
    let before = line.optional();
    let run = line.samples();
    line.put(kind.fits(before, &run, length));
}

/// `run FORM KIND START END SAMPLES`: whether these samples of a segment fit.
pub fn run(line: &mut Line<'_>) {
    let form = line.form();
    let kind = line.kind();
    let start = line.number();
    let end = line.number();
    let samples = line.samples();
    if start > end || end > samples.len() {
        return line.bad(());
    }
    line.put(run_fits(kind, &samples, start, end, form));
}

/// `difference NUMBER SAMPLES`: the difference of a sample from the one before it.
pub fn difference_at(line: &mut Line<'_>) {
    let at = line.number();
    let samples = line.samples();
    if at >= samples.len() {
        return line.bad(());
    }
    line.put(difference(&samples, at));
}

/// The size of the longest group, by a window of its own.
fn longest_at(samples: &[i32], at: usize) -> usize
    requires { at ≤ length samples.now }
{
    let mut window = Window::new();
    window.longest_steim2_group(None, samples, at)
}

/// `word_size NUMBER SAMPLES`: how many differences stand together in a Steim-2 word from that sample on, by a window of
/// its own.
pub fn word_size(line: &mut Line<'_>) {
    let at = line.number();
    let samples = line.samples();
    if at > samples.len() {
        return line.bad(());
    }
    line.put(longest_at(&samples, at));
}

/// The groups of the division that is written, of the columns of `groups` and `count`, if there is one.
fn division(line: &mut Line<'_>) -> Option<Vec<Group>> {
    let version = line.version();
    let length = line.length();
    let differences = line.numbers();
    match groups(line.alloc, version, &differences, length) {
        Ok(found) => found,
        Err(_) => line.bad(None),
    }
}

/// `groups VERSION LENGTH DIFFERENCES`: the groups of the division that is written.
pub fn divided(line: &mut Line<'_>) {
    let found = division(line);
    line.show(&found);
}

/// `count VERSION LENGTH DIFFERENCES`: how many groups that are.
pub fn counted(line: &mut Line<'_>) {
    match division(line) {
        Some(found) => line.put(found.len()),
        None => line.put_text("None"),
    }
}
