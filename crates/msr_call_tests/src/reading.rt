//! A reader that has records at hand, rows whose samples are joined, and laws.
ghost use Rattle.msr_devices.specs.Device.{CanCountCall, CountsFew};

use crate::facts::expect_all;
use msr_base::{Kind, SampleVec};
use msr_devices::{Behavior, Source, TestSource};
use msr_fixtures::{START, expect, int32_record, key_at};
use msr_input::{ReadFault, RowReader, Settings};
use msr_rows::{Key, Row};
use msr_segments::{
    Joiner, cuts_grow_by_rows, cuts_keep_segments, followers_stand_with_joiners,
    overruns_are_out_of_range, rows_have_one_division, steps_are_pushes,
};
use msr_time::{Rate, is_instant, one_nominal_instant};
use std::alloc::Global;
use std::test::Fail;

/// Whether a record was given, at hand or not as it was asked for, and with or without a row.
fn gives<'a>(reader: &mut RowReader, source: &mut TestSource<'a>, at_hand: bool, row: bool) -> bool
    requires { CanCountCall (⟦<TestSource<'a> as Source>⟧.device source.old) }
    ensures { CountsFew (⟦<TestSource<'a> as Source>⟧.device source.old)
        (⟦<TestSource<'a> as Source>⟧.device source.new) }
{
    let held = reader.holds_record();
    match reader.next_record(source) {
        Ok(Some(next)) => (held == at_hand) & (next.row.is_some() == row),
        _ => false,
    }
}

/// Records one after another.
fn two(first: &[u8; 256], second: &[u8; 256]) -> [u8; 512] {
    let mut bytes = [0; 512];
    bytes[..256].copy_from_slice(first);
    bytes[256..].copy_from_slice(second);
    bytes
}

/// Two records come with the first read, and the second one is given without another.
#[test]
fn records_at_hand_need_no_read(rt: HostRuntime) -> Result<(), Fail> {
    let bytes = two(&int32_record(&[("samples", "0")]), &int32_record(&[]));
    let once = Behavior {
        most: 512,
        interruptions: 0,
        fails_at: Some(1),
    };
    let settings = Settings {
        tolerance: 10_000,
        strict: false,
    };
    let mut source = TestSource::new(&bytes, once);
    let mut reader = RowReader::new(rt.alloc(), settings);
    let first = gives(&mut reader, &mut source, false, false);
    let second = gives(&mut reader, &mut source, true, true);
    let after = reader.holds_record();
    let failed = matches!(reader.next_record(&mut source), Err(ReadFault::Read));
    expect_all(&[
        (first, "the first record"),
        (second, "the second record"),
        (!after & failed, "the read after them"),
    ])
}

/// Whether a row of two samples joins, the second greater by one.
fn joins(alloc: Global, joiner: &mut Joiner, key: Key, start: i64, first: i32) -> bool {
    let Ok(samples) = [first, first.wrapping_add(1)].to_vec(alloc) else {
        return false;
    };
    let row = Row {
        key,
        start,
        kind: Kind::Int32,
        samples: SampleVec::from_vec(samples),
    };
    is_instant(start) && matches!(joiner.push(row), Ok(None))
}

#[test]
fn samples_are_joined_in_order(rt: HostRuntime) -> Result<(), Fail> {
    let Some(rate) = Rate::new(1, 1) else {
        return expect(false, "no rate");
    };
    let key = key_at(rate);
    let mut joiner = Joiner::new(rt.alloc(), 1000);
    let mut joined = joins(rt.alloc(), &mut joiner, key, START, 1);
    joined &= joins(rt.alloc(), &mut joiner, key, START + 2_000_000, 3);
    joined &= joins(rt.alloc(), &mut joiner, key, START + 4_000_000, 5);
    let Some(segment) = joiner.finish() else {
        return expect(false, "no segment");
    };
    expect_all(&[
        (joined, "a row that joins"),
        (segment.key == key, "the key"),
        (
            segment.samples.as_slice() == [1, 2, 3, 4, 5, 6].as_slice(),
            "the samples",
        ),
    ])
}

#[test]
fn laws_are_callable() {
    one_nominal_instant();
    rows_have_one_division();
    cuts_keep_segments();
    cuts_grow_by_rows();
    steps_are_pushes();
    followers_stand_with_joiners();
    overruns_are_out_of_range();
}
