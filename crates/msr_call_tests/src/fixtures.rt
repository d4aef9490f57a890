//! msr_fixtures: where an edit writes, and what.
use crate::facts::expect_all;
use msr_fixtures::{
    Edit, expect, header_bytes, little_record, record, record_of_words, steim_record,
};
use std::test::Fail;

/// An edit, where it writes, and the bytes in either order.
type Row<'a> = (Edit<'a>, usize, &'a [u8], &'a [u8]);

const ROWS: &[Row<'static>] = &[
    (("sequence", "123456"), 0, b"123456", b"123456"),
    (("quality", "M"), 6, b"M", b"M"),
    (("station", "OTHER"), 8, b"OTHER", b"OTHER"),
    (("channel", "LHN"), 15, b"LHN", b"LHN"),
    (("day", "2056,366"), 20, &[8, 8, 1, 110], &[8, 8, 110, 1]),
    (
        ("clock", "23:59:58.515"),
        24,
        &[23, 59, 58, 0, 2, 3],
        &[23, 59, 58, 0, 3, 2],
    ),
    (("samples", "258"), 30, &[1, 2], &[2, 1]),
    (("rate", "-10/3"), 32, &[255, 246, 0, 3], &[246, 255, 3, 0]),
    (("activity", "2"), 36, &[2], &[2]),
    (("clocking", "4"), 37, &[4], &[4]),
    (("flags", "8"), 38, &[8], &[8]),
    (
        ("correction", "-12"),
        40,
        &[255, 255, 255, 244],
        &[244, 255, 255, 255],
    ),
    (("data", "256"), 44, &[1, 0], &[0, 1]),
    (("first", "56"), 46, &[0, 56], &[56, 0]),
    (("after1000", "128"), 50, &[0, 128], &[128, 0]),
    (("encoding", "10"), 52, &[10], &[10]),
    (("order", "0"), 53, &[0], &[0]),
    (("exponent", "9"), 54, &[9], &[9]),
    (("second", "500"), 56, &[1, 244], &[244, 1]),
    (("after1001", "64"), 58, &[0, 64], &[64, 0]),
    (("timing", "90"), 60, &[90], &[90]),
    (("micros", "-50"), 61, &[206], &[206]),
    (("frames", "1"), 63, &[1], &[1]),
    (("62", "05"), 62, &[5], &[5]),
];

/// The first bytes have this part in that place, and are else the second ones.
fn differ_there(found: &[u8], base: &[u8], at: usize, part: &[u8]) -> bool {
    let end = at.saturating_add(part.len());
    if (found.len() != base.len()) | (found.len() < end) {
        return false;
    }
    let before = found[..at] == base[..at];
    let after = found[end..] == base[end..];
    before & (&found[at..end] == part) & after
}

/// Headers and records of integers with these edits differ there from those without.
fn is_plain_edited(edits: &[Edit<'_>], at: usize, big: &[u8]) -> bool {
    let header = differ_there(&header_bytes(edits), &header_bytes(&[]), at, big);
    header & differ_there(&record(edits), &record(&[]), at, big)
}

/// So do records of Steim-2, and records in the other order.
fn is_edited(edits: &[Edit<'_>], at: usize, big: &[u8], little: &[u8]) -> bool {
    let steim = differ_there(&steim_record(edits), &steim_record(&[]), at, big);
    let turned = differ_there(&little_record(edits), &little_record(&[]), at, little);
    steim & turned & is_plain_edited(edits, at, big)
}

#[test]
fn edits_write_their_fields() -> Result<(), Fail> {
    for (edit, at, big, little) in ROWS {
        if !is_edited(&[*edit], *at, big, little) {
            return expect(false, edit.0);
        }
    }
    Ok(())
}

/// What stands before the words is the same.
fn begins_as(bytes: &[u8; 256], base: &[u8; 256]) -> bool {
    for at in 0..76 {
        if bytes[at] != base[at] {
            return false;
        }
    }
    true
}

/// All words of four bytes but the last one are this one.
fn repeats(bytes: &[u8; 256], word: [u8; 4]) -> bool {
    for at in 76..252 {
        if bytes[at] != word[at % 4] {
            return false;
        }
    }
    true
}

#[test]
fn words_fill_frames() -> Result<(), Fail> {
    let bytes = record_of_words([1, 2, 3, 4], &[("252", "0506070809")]);
    let before = begins_as(&bytes, &record(&[]));
    let words = repeats(&bytes, [1, 2, 3, 4]);
    let last = bytes.ends_with([5, 6, 7, 8].as_slice());
    expect_all(&[
        (before, "what stands before the words"),
        (words, "the words"),
        (last, "the last word"),
    ])
}
