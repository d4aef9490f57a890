//! Areas of samples, and words of differences.

ghost use Rattle.std.specs.Prelude.{IsTrue, map, ◌≤◌, length};
ghost use Rattle.msr_steim.specs.Word.{AreGroups};

use crate::line::Line;
use crate::lists::{Hexadecimal, gives};
use msr_base::{Order, SampleVec, Version, Width};
use msr_plain::{PlainFault, PlainSamples, decode_plain, decode_plain_into, plain_samples};
use msr_steim::{
    Group, SteimFault, SteimSamples, decode_steim, decode_steim_into, fill_steim, group_width,
    is_group, read_word, steim_samples, write_word,
};

/// A list to which the first sample is pushed, and the others at once.
fn grown_of(line: &mut Line<'_>, first: i32, others: &[i32]) -> SampleVec {
    let mut grown = SampleVec::new(line.alloc);
    line.agree(grown.as_slice().is_empty());
    line.is_bad |= grown.push(first).is_err();
    line.is_bad |= grown.extend_from_slice(others).is_err();
    grown
}

/// Shows the vector of a list, from which the list can be made.
fn put_vector(line: &mut Line<'_>, grown: SampleVec, first: i32, others: &[i32]) {
    let values = grown.into_vec();
    line.show(&values);
    let is_same = SampleVec::from_vec(values) == grown_of(line, first, others);
    line.agree(is_same);
}

/// `samples NUMBERS`: a list to which the first is pushed and the others at once, its count, and its vector.
pub fn grown(line: &mut Line<'_>) {
    let samples = line.samples();
    let Some((first, others)) = samples.as_slice().split_first() else {
        return line.bad(());
    };
    let grown = grown_of(line, *first, others);
    line.show(&grown);
    line.put_text(", ");
    line.put(grown.len());
    line.put_text(", ");
    let is_first = grown == grown_of(line, *first, &[]);
    line.agree(is_first == others.is_empty());
    put_vector(line, grown, *first, others);
}

/// What is put where samples are to be decoded.
const BEFORE: i32 = 7;

/// `plain WIDTH ORDER COUNT AREA`: so many samples of an area of integers, or why it has not as many.
pub fn plain(line: &mut Line<'_>) {
    let of = (line.width(), line.order(), line.number());
    let area = line.bytes();
    let mut out = line.repeated(BEFORE, of.2);
    let into = decode_plain_into(of.0, of.1, &area, &mut out);
    agree_plain(line, of, &area, &out, into.is_ok());
    put_plain(line, of, &area, &out, into);
}

/// Notes whether samples are shown as they were decoded into the slice; or none, if that was refused.
fn agree_plain(
    line: &mut Line<'_>,
    of: (Width, Order, u16),
    area: &[u8],
    out: &[i32],
    is_decoded: bool,
) {
    match plain_samples(of.0, of.1, area, of.2) {
        Some(viewed) => {
            line.agree(is_decoded);
            agree_viewed(line, viewed, out);
        }
        None => line.agree(!is_decoded && are_all_before(out)),
    }
}

/// What is decoded in memory of its own, and whether it was decoded so into the slice.
fn put_plain(
    line: &mut Line<'_>,
    of: (Width, Order, u16),
    area: &[u8],
    out: &[i32],
    into: Result<(), PlainFault>,
) {
    match decode_plain(line.alloc, of.0, of.1, area, of.2) {
        Ok(found) => {
            line.agree(into.is_ok() & (out == found.as_slice()));
            line.show(&found.as_slice());
        }
        Err(PlainFault::Memory) => line.is_bad = true,
        Err(fault) => {
            line.agree(into == Err(fault));
            line.put(fault);
        }
    }
}

/// Notes whether samples are shown one by one, and once more by a copy.
fn agree_viewed(line: &mut Line<'_>, viewed: PlainSamples<'_>, samples: &[i32]) {
    line.agree(gives(viewed.clone().unwrap(), samples) & gives(viewed, samples));
}

/// Whether no sample was decoded.
fn are_all_before(samples: &[i32]) -> bool {
    for sample in samples {
        if *sample != BEFORE {
            return false;
        }
    }
    true
}

/// Notes whether samples are shown one by one, from the first on, and after one of them from the second.
fn agree_shown(line: &mut Line<'_>, mut viewed: SteimSamples<'_>, samples: &[i32], agrees: bool) {
    let is_same = (viewed.reverse_agrees() == agrees) & gives(viewed.clone().unwrap(), samples);
    let (first, others) = match samples {
        [first, others @ ..] => (Some(*first), others),
        [] => (None, samples),
    };
    let is_first = (viewed.next() == first) & (viewed.reverse_agrees() == agrees);
    line.agree(is_same & is_first & gives(viewed, others));
}

/// `steim VERSION ORDER COUNT AREA`: so many samples of an area of frames and whether its reverse constant agrees; or why
/// it has not as many.
pub fn steim(line: &mut Line<'_>) {
    let version = line.version();
    let order = line.order();
    let count = line.number();
    let area = line.bytes();
    let mut out = line.repeated(BEFORE, count);
    if count == 0 || out.is_empty() || area.len() > 1_048_576 {
        return line.bad(());
    }
    let into = decode_steim_into(version, order, &area, &mut out);
    let of = (version, order, count);
    agree_steim(line, of, &area, &out, into);
    put_steim(line, of, &area, &out, into);
}

/// Notes whether samples are shown as they were decoded into the slice, or refused so.
fn agree_steim(
    line: &mut Line<'_>,
    of: (Version, Order, u16),
    area: &[u8],
    out: &[i32],
    into: Result<bool, SteimFault>,
)
    requires some { 1 ≤ of.2 }
    requires small { length area.now ≤ 1_048_576 }
{
    match steim_samples(of.0, of.1, area, of.2) {
        Ok(viewed) => {
            line.agree(into.is_ok());
            agree_shown(line, viewed, out, into == Ok(true));
        }
        Err(fault) => line.agree(into == Err(fault)),
    }
}

/// What is decoded in memory of its own, and whether it was decoded so into the slice.
fn put_steim(
    line: &mut Line<'_>,
    of: (Version, Order, u16),
    area: &[u8],
    out: &[i32],
    into: Result<bool, SteimFault>,
)
    requires some { 1 ≤ of.2 }
    requires small { length area.now ≤ 1_048_576 }
{
    match decode_steim(line.alloc, of.0, of.1, area, of.2) {
        Ok(found) => {
            let samples = found.samples.as_slice();
            let agrees = found.reverse_agrees;
            line.agree((into == Ok(agrees)) & (out == samples));
            line.show(&samples);
            line.put(' ');
            line.put(agrees);
        }
        Err(SteimFault::Memory) => line.is_bad = true,
        Err(fault) => {
            line.agree(into == Err(fault));
            line.put(fault);
        }
    }
}

/// Whether one record can have these groups.
fn are_groups(version: Version, groups: &[Group]) -> bool
    ensures { IsTrue result → AreGroups version (map (λ g. g.items) groups.now) }
{
    match groups {
        [] => true,
        [last] => write_word(version, last).is_some(),
        [group, rest @ ..] => {
            write_word(version, group).is_some()
                && !(version == Version::One && group.len() == 3)
                && are_groups(version, rest)
        }
    }
}

/// Adds the group of the differences that are the next word, so many times.
fn add_group(line: &mut Line<'_>, groups: &mut Vec<Group>, times: u32) {
    let list = line.samples();
    for _ in 0..times {
        match Group::try_from(list.as_slice()) {
            Ok(group) => line.push(groups, group),
            Err(_) => line.is_bad = true,
        }
    }
}

/// `GROUPS`: differences, each group once or `DIFFERENCES*TIMES`, with a `+` between them.
fn groups_of(line: &mut Line<'_>) -> Vec<Group> {
    let mut groups = Vec::new(line.alloc);
    let text = line.word();
    for part in text.split('+') {
        let (list, times) = part.split_once('*').unwrap_or((part, "1"));
        line.rest = list;
        let times = line.number_of(times);
        add_group(line, &mut groups, times);
    }
    groups
}

/// `frames VERSION FIRST LAST GROUPS`: the area of 192 bytes with these groups between the two constants.
pub fn frames(line: &mut Line<'_>) {
    let version = line.version();
    let first = line.number();
    let last = line.number();
    let groups = groups_of(line);
    if !are_groups(version, &groups) || groups.len() > 43 {
        return line.bad(());
    }
    let mut area = [255; 192];
    fill_steim(version, first, last, &groups, &mut area);
    line.put(Hexadecimal(&area));
}

/// `word VERSION DIFFERENCES`: the code and the word that hold them.
pub fn written(line: &mut Line<'_>) {
    let version = line.version();
    let differences = line.samples();
    match write_word(version, &differences) {
        Some((code, word)) => {
            line.put_before(code, ' ');
            line.put(Hexadecimal(&word.to_be_bytes()));
        }
        None => line.put_text("None"),
    }
}

/// `read VERSION CODE WORD`: the differences that a word holds.
pub fn held(line: &mut Line<'_>) {
    let version = line.version();
    let code = line.number();
    let word = line.bytes();
    let Ok(word) = <[u8; 4]>::try_from(word.as_slice()) else {
        return line.bad(());
    };
    if code > 3 {
        return line.bad(());
    }
    match read_word(version, code, u32::from_be_bytes(word)) {
        Ok(group) => line.show(&group.as_slice()),
        Err(fault) => line.put(fault),
    }
}

/// `width VERSION COUNT`: how many bits each of so many differences has.
pub fn width(line: &mut Line<'_>) {
    let width = group_width(line.version(), line.number());
    line.show(&width);
}

/// `group VERSION last|inner DIFFERENCES`: whether they can be a group of a record, its last one or another.
pub fn is_one(line: &mut Line<'_>) {
    let version = line.version();
    let is_last = line.word() == "last";
    let differences = line.numbers();
    line.put(is_group(version, is_last, &differences));
}
