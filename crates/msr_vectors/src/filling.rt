//! Areas of frames that are filled with a run.

ghost use Rattle.std.specs.Prelude.{◌≡◌, ◌<◌, length};
ghost use Rattle.msr_packer.specs.HeldSamples.{before_place};

use crate::line::Line;
use crate::lists::Hexadecimal;
use msr_base::{Kind, Length};
use msr_filling::{fill_steim1, fill_steim2, fill_steim2_told, steim2_words};
use msr_words::Fitting;

/// `area1 BEFORE SAMPLES`: the area of Steim-1 of a record of 256 bytes.
pub fn steim1(line: &mut Line<'_>) {
    let before = line.optional();
    let run = line.samples();
    let length = line.usual;
    if length.bytes() != 256 || run.is_empty() || !Kind::Steim1.fits(before, &run, length) {
        return line.bad(());
    }
    let mut area = [255; 192];
    line.is_bad |= fill_steim1(line.alloc, before, &run, &mut area).is_err();
    line.put(Hexadecimal(&area));
}

/// `area2 BEFORE SAMPLES`: how many words of the area of Steim-2 of a record of 256 bytes have differences, and the area.
pub fn steim2(line: &mut Line<'_>) {
    let before = line.optional();
    let run = line.samples();
    if run.is_empty() {
        return line.bad(());
    }
    let mut area = [255; 192];
    let used = fill_steim2(before, &run, &mut area);
    line.put_before(used, ' ');
    line.put(Hexadecimal(&area));
}

/// The sample before that one, if there is one.
fn before_sample(samples: &[i32], start: usize) -> Option<i32>
    requires { start < length samples.now }
    ensures { result ≡ before_place samples.now start }
{
    if start == 0 {
        return None;
    }
    Some(samples[start - 1])
}

/// Whether the area of a record of 4,096 bytes is filled alike with the samples from that one on, by the words of the
/// groups, as the walk tells them, and without them, whatever stood there; if it has room for them.
fn are_alike(samples: &[i32], start: usize) -> Option<bool>
    requires { start < length samples.now }
{
    let length = Length::new(4096)?;
    let mut sizes = [0; 943];
    let mut told = [0; 943];
    let reach = steim2_words(samples, length, start, &mut sizes, &mut told);
    if reach.end != samples.len() {
        return None;
    }
    let before = before_sample(samples, start);
    let run = &samples[start..];
    let mut found = [255; 4032];
    let mut given = [0; 4032];
    let used = fill_steim2(before, run, &mut found);
    let sizes = &sizes[..reach.groups];
    let told = &told[..reach.groups];
    let put = fill_steim2_told(before, run, sizes, told, &mut given);
    Some(used == reach.groups && put == used && found == given)
}

/// `told START SAMPLES`: whether the samples from that one on are written alike by told words and without.
pub fn by_told_words(line: &mut Line<'_>) {
    let start = line.number();
    let samples = line.samples();
    if start >= samples.len() {
        return line.bad(());
    }
    match are_alike(&samples, start) {
        Some(alike) => line.put(alike),
        None => line.is_bad = true,
    }
}
