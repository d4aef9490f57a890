//! Packers and areas, by calls that ask of their caller what no row of a table can know.
use crate::facts::expect_all;
use msr_base::{Form, Kinds, Length, Width};
use msr_fixtures::expect;
use msr_packer::{BlockPacker, Piece, pack};
use msr_plain::fill_plain;
use msr_words::Kind::{self, Steim2};
use msr_words::{Run, first_kind, one_division};
use std::alloc::{AllocError, Global};
use std::test::Fail;

#[test]
fn the_first_kind_of_a_run() -> Result<(), Fail> {
    one_division();
    let Some(length) = Length::new(256) else {
        return expect(false, "a length");
    };
    let kind = first_kind(&[0, 1, 2], 0, 3, Form::all_kinds(length));
    expect(kind == Kind::Steim2, "three samples")
}

/// Whether each run has 721 samples of a day, or what is left of it, and its separator where it starts.
fn are_sevens_of_a_day(runs: &[Run], separators: &[u64]) -> bool {
    if runs.len() != separators.len() {
        return false;
    }
    let mut start = 0u64;
    for at in 0..runs.len() {
        let end = start.saturating_add(721).min(8_640_000);
        let expected = Run {
            start,
            end,
            kind: Steim2,
        };
        if (runs[at] != expected) | (separators[at] != start) {
            return false;
        }
        start = end;
    }
    true
}

/// A day at 100 samples a second that rises by one.
fn ramp(alloc: Global) -> Result<Vec<i32>, AllocError> {
    let mut samples = Vec::new(alloc);
    for sample in 0..8_640_000i32 {
        samples.push(sample)?;
    }
    Ok(samples)
}

/// In a record 103 words of seven differences, and 257 samples left.
#[test]
fn the_ramp_of_a_day(rt: HostRuntime) -> Result<(), Fail> {
    let Some(record_length) = Length::new(512) else {
        return expect(false, "a length");
    };
    let samples = ramp(rt.alloc())?;
    let packing = pack(rt.alloc(), samples.as_slice(), record_length)?;
    let (runs, separators) = (packing.runs.as_slice(), packing.separators.as_slice());
    let expected = Run {
        start: 8_639_743,
        end: 8_640_000,
        kind: Steim2,
    };
    let count = (runs.len() == 11_984) & (separators.len() == 11_984);
    let each = are_sevens_of_a_day(runs, separators);
    expect_all(&[
        (count, "how many"),
        (each, "each run and separator"),
        (runs.ends_with(&[expected]), "the last run"),
    ])
}

/// Whether the packer gave a piece, of which it tells groups of these sizes.
fn has_groups(packer: &BlockPacker, piece: Option<Piece>, sizes: &[u8]) -> bool {
    piece.is_some() & (packer.group_sizes() == sizes)
}

/// Of 603 samples of 0 the sizes of all groups are told: twice 43 words of seven, and a word of one.
#[test]
fn sizes_of_groups_of_zeros(rt: HostRuntime) -> Result<(), Fail> {
    let Some(length) = Length::new(256) else {
        return expect(false, "a length");
    };
    let kinds = Kinds::All;
    let mut packer = BlockPacker::new(rt.alloc(), Form { length, kinds });
    let none = packer.group_sizes().is_empty();
    let pushed = packer.push_all(&[0; 603]).is_ok();
    let piece = packer.next_piece();
    let first = has_groups(&packer, piece, &[7; 43]);
    let piece = packer.last_piece();
    let second = has_groups(&packer, piece, &[7; 43]);
    let piece = packer.last_piece();
    let third = has_groups(&packer, piece, &[1]);
    expect_all(&[
        (none & pushed, "none before the first"),
        (first, "the first record"),
        (second, "the second record"),
        (third, "one sample"),
    ])
}

/// The area begins with these bytes, and the others are 0.
fn is_filled(area: &[u8], bytes: &[u8]) -> bool {
    for at in bytes.len()..area.len() {
        if area[at] != 0 {
            return false;
        }
    }
    area.starts_with(bytes)
}

#[test]
fn filled_areas() -> Result<(), Fail> {
    let mut area = [9; 192];
    fill_plain(Width::Four, &[-2147483648, 2147483647], &mut area);
    let four = is_filled(&area, &[0x80, 0, 0, 0, 0x7f, 0xff, 0xff, 0xff]);
    let mut area = [9; 7];
    fill_plain(Width::Three, &[-8388608, 8388607], &mut area);
    let three = is_filled(&area, &[0x80, 0, 0, 0x7f, 0xff, 0xff]);
    let mut area = [9; 6];
    fill_plain(Width::Two, &[-32768, 32767], &mut area);
    let two = is_filled(&area, &[0x80, 0, 0x7f, 0xff]);
    expect_all(&[(four, "32 bits"), (three, "24 bits"), (two, "16 bits")])
}
