//! Writing a record.
ghost use Rattle.std.specs.Prelude.{◌≡◌, ◌≢◌, pos, ◌+◌, ◌-◌, ◌/◌, ◌%◌, ◌<◌, ◌≤◌, ◌++◌, IsTrue, OnOk, OnErr, false, [], drop, length};
ghost use Rattle.msr_time.specs.Instant.{IsInstant};
ghost use Rattle.msr_header.specs.Reading.{is_quality};
ghost use Rattle.msr_words.specs.Fit.{Fits};
ghost use Rattle.msr_base.specs.Lengths.{bytes_of};
ghost use Rattle.msr_words.specs.Segment.{points};
ghost use Rattle.msr_rows.specs.Correction.{is_pending};
ghost use Rattle.msr_record.specs.Written.{sequence_digits, header_for, AppendsRecord, CanWrite, KnowsGroups};

use crate::written_area::{WrittenRun, fill_area};
use msr_base::{Kind, Length, Order};
use msr_header::{Header, Timing, write_header};
use msr_rows::Key;
use msr_time::{BTime, split};
use std::alloc::{AllocError, Global};

/// The digit of a number at a power of ten.
fn digit_at(number: u32, unit: u32) -> u8
    requires { 1 ≤ unit }
    ensures { result ≡ 48 + number / unit % 10 }
{
    b'0' + (number / unit % 10) as u8
}

/// The six digits of a sequence number.
fn sequence_digits(sequence: u32) -> [u8; 6]
    ensures { result ≡ sequence_digits sequence }
{
    [
        digit_at(sequence, 100_000),
        digit_at(sequence, 10_000),
        digit_at(sequence, 1000),
        digit_at(sequence, 100),
        digit_at(sequence, 10),
        digit_at(sequence, 1),
    ]
}

/// The header of a written record.
fn header_for(
    run: &WrittenRun<'_>,
    time: BTime,
    micros: u8,
    count: u16,
    exponent: u8,
    frames: u8,
) -> Header
    requires { micros < 100 }
    ensures header { result ≡ header_for run.now.key.now time micros run.now.sequence count run.now.kind exponent frames }
    ensures rate { (run.now.key.now.rate.factor ≢ pos 0) × (run.now.key.now.rate.multiplier ≢ pos 0) }
{
    let key = run.key;
    Header {
        order: Order::Big,
        sequence: sequence_digits(run.sequence),
        quality: key.quality,
        station: key.station,
        location: key.location,
        channel: key.channel,
        network: key.network,
        time,
        samples: count,
        factor: key.rate.factor(),
        multiplier: key.rate.multiplier(),
        activity: key.activity,
        clock: key.clock,
        data_quality: key.data_quality,
        correction: key.correction,
        data_at: 64,
        encoding: run.kind.code(),
        data_order: Order::Big,
        exponent,
        timing: Some(Timing {
            quality: key.timing,
            micros: micros as i8,
            frames,
        }),
        chain_end: 64,
    }
}

/// Puts a header before an area.
fn put_header(bytes: &mut [u8], header: &[u8; 64])
    requires { 64 ≤ length bytes.old }
    ensures { bytes.new ≡ header.now ++ drop 64 bytes.old }
{
    bytes[..64].copy_from_slice(header);
}

/// Fills the bytes, as many as the length says, with the record of the run.
fn fill_record(
    alloc: Global,
    run: &WrittenRun<'_>,
    record_length: Length,
    bytes: &mut [u8],
) -> Result<(), AllocError>
    requires can { CanWrite run.now.key.now run.now.start run.now.sequence run.now.before run.now.samples.now
        run.now.kind (bytes_of record_length) }
    requires groups { KnowsGroups run.now.before run.now.samples.now run.now.group_sizes.now run.now.group_words.now }
    requires size { length bytes.old ≡ bytes_of record_length }
    ensures { OnOk result (AppendsRecord [] bytes.new run.now.key.now run.now.start run.now.sequence run.now.before
        run.now.samples.now run.now.kind (bytes_of record_length)) }
{
    let (time, micros) = split(run.start).unwrap();
    let area = &mut bytes[64..];
    let frames = fill_area(alloc, run, run.kind.storage(), record_length, area)?;
    let count = run.samples.len() as u16;
    let exponent = record_length.exponent();
    let header = header_for(run, time, micros, count, exponent, frames);
    put_header(bytes, &write_header(&header));
    Ok(())
}

/// Appends one record of that length with the samples of the run, which fit it: the row of the new
/// bytes, whatever follows them, is the one that is asked for. The layout is that of SEED 2.4, with
/// big-endian numbers, blockettes 1000 and 1001 and the data from byte 64 on.
pub fn encode_run(
    alloc: Global,
    run: &WrittenRun<'_>,
    record_length: Length,
    out: &mut Vec<u8>,
) -> Result<(), AllocError>
    requires can { CanWrite run.now.key.now run.now.start run.now.sequence run.now.before run.now.samples.now
        run.now.kind (bytes_of record_length) }
    requires groups { KnowsGroups run.now.before run.now.samples.now run.now.group_sizes.now run.now.group_words.now }
    ensures appended { OnOk result
        (AppendsRecord out.old.items out.new.items run.now.key.now run.now.start run.now.sequence run.now.before
        run.now.samples.now run.now.kind (bytes_of record_length)) }
    ensures unchanged { OnErr result (out.new.items ≡ out.old.items) }
{
    let end = out.len();
    out.resize(end + record_length.bytes() as usize, 0)?;
    let filled = fill_record(alloc, run, record_length, &mut out[end..]);
    if filled.is_err() {
        out.truncate(end);
    }
    filled
}

/// As `encode_run`, if the groups are not known. `start` is the instant of the first sample in microseconds
/// from 1970-01-01 00:00:00, `before` is the sample before the run, or none at the start of a segment.
pub fn encode_record(
    alloc: Global,
    key: &Key,
    start: i64,
    sequence: u32,
    before: Option<i32>,
    run: &[i32],
    kind: Kind,
    record_length: Length,
    out: &mut Vec<u8>,
) -> Result<(), AllocError>
    requires quality { IsTrue (is_quality key.now.quality) }
    requires normal { is_pending key.now.activity key.now.correction ≡ false }
    requires start { IsInstant start }
    requires sequence { (1 ≤ sequence) × (sequence ≤ 999999) }
    requires some { 1 ≤ length run.now }
    requires fits { Fits kind (bytes_of record_length) (points before run.now) }
    ensures appended { OnOk result
        (AppendsRecord out.old.items out.new.items key.now start sequence before run.now kind
        (bytes_of record_length)) }
    ensures unchanged { OnErr result (out.new.items ≡ out.old.items) }
{
    let written = WrittenRun {
        key,
        start,
        sequence,
        before,
        samples: run,
        kind,
        group_sizes: &[],
        group_words: &[],
    };
    encode_run(alloc, &written, record_length, out)
}
