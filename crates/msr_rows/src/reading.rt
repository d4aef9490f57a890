//! Reading a record.
ghost use Rattle.std.specs.Prelude.{take, ◌≡◌, ◌≢◌, ◌↔◌, IsTrue, ◌≤◌, Some, None, true, false, length, MatchResult, IfOk, IfErr, IfSome, IsSome, OnErr, OnOk, IsErrOf, Ok};
ghost use Rattle.msr_time.specs.Instant.{IsTime};
ghost use Rattle.msr_header.specs.Reading.{header_of};
ghost use Rattle.msr_rows.specs.Records.{kind_of_code, IsOpened};
ghost use Rattle.msr_rows.specs.Correction.{is_pending, activity_of, correction_micros, start_of, key_of};
ghost use Rattle.msr_rows.specs.Records.{first_bytes, data_area, field_faults, has_area, IsInTime, IsRecordOf, IsRefused, TakesMemory};
ghost use Rattle.msr_base.specs.Faults.{first_fault};

use crate::area::decode_area;
use crate::fault::FaultKind;
use crate::row::{Key, Record, Row};
use msr_base::{Kind, SampleVec};
use msr_header::{Header, read_header, record_length};
use msr_time::{Rate, is_instant};
use std::alloc::Global;

/// The value of activity bit 1: the time correction was applied.
const CORRECTED: u8 = 2;

/// Whether a time correction is still to be applied.
fn is_pending(activity: u8, correction: i32) -> bool
    ensures { result ≡ is_pending activity correction }
{
    activity & CORRECTED == 0 && correction != 0
}

/// The activity flags after the correction.
fn activity_of(activity: u8, correction: i32) -> u8
    ensures { result ≡ activity_of activity correction }
{
    if is_pending(activity, correction) {
        activity | CORRECTED
    } else {
        activity
    }
}

/// By how much the correction moves the start.
fn correction_micros(activity: u8, correction: i32) -> i64
    ensures { result ≡ correction_micros activity correction }
{
    if is_pending(activity, correction) {
        100 * correction as i64
    } else {
        0
    }
}

/// The instant of a record's first sample.
fn start_of(header: &Header) -> i64
    requires { IsTime header.now.time }
    ensures { result ≡ start_of header.now }
{
    let time = header.time.instant();
    let micros = header.timing_or_zeros().micros;
    time + micros as i64 + correction_micros(header.activity, header.correction)
}

/// The key of a record.
fn key_of(header: &Header, rate: Rate) -> Key
    requires factor { rate.factor ≡ header.now.factor }
    requires multiplier { rate.multiplier ≡ header.now.multiplier }
    ensures { result ≡ key_of header.now }
{
    Key {
        network: header.network,
        station: header.station,
        location: header.location,
        channel: header.channel,
        quality: header.quality,
        rate,
        activity: activity_of(header.activity, header.correction),
        clock: header.clock,
        data_quality: header.data_quality,
        correction: header.correction,
        timing: header.timing_or_zeros().quality,
    }
}

/// Whether the data area begins after the blockettes and within the record.
fn has_area(header: &Header) -> bool
    requires { header.now.exponent ≤ 20 }
    ensures { result ≡ has_area header.now }
{
    let data_at = header.data_at as u32;
    header.chain_end <= data_at && data_at <= record_length(header.exponent)
}

/// The rate and the kind of samples, if the fields have no fault.
fn read_fields(header: &Header) -> Result<(Rate, Kind), FaultKind>
    requires { header.now.exponent ≤ 20 }
    ensures fields { MatchResult result
        (λ found. (first_fault (field_faults header.now) ≡ None) × (kind_of_code header.now.encoding ≡ Some found.1))
        (λ fault. first_fault (field_faults header.now) ≡ Some fault) }
    ensures factor { IfOk result (λ found. found.0.factor ≡ header.now.factor) }
    ensures multiplier { IfOk result (λ found. found.0.multiplier ≡ header.now.multiplier) }
    ensures area { OnOk result (has_area header.now ≡ true) }
{
    let Some(rate) = Rate::new(header.factor, header.multiplier) else {
        return Err(FaultKind::NoRate);
    };
    let Some(kind) = Kind::of_code(header.encoding) else {
        return Err(FaultKind::OtherEncoding(header.encoding));
    };
    if !has_area(header) {
        return Err(FaultKind::BadDataOffset);
    }
    Ok((rate, kind))
}

/// Whether the first and the last sample are of the supported years.
fn is_in_time(rate: &Rate, start: i64, count: u16) -> bool
    requires { 1 ≤ count }
    ensures { IsTrue result ↔ IsInTime rate.now start count }
{
    if !is_instant(start) {
        return false;
    }
    rate.reaches(start, count as u64 - 1)
}

/// A record whose header and fields have no fault.
#[derive(Clone, Copy)]
pub(crate) struct Opened {
    /// Its header.
    pub header: Header,
    /// How many bytes it has.
    pub length: u32,
    /// The rate and the kind of its samples, if it has any.
    pub fields: Option<(Rate, Kind)>,
}

/// Reads the header and the fields of the record that the bytes begin with.
#[inline(always)]
pub(crate) fn open_record(rest: &[u8]) -> Result<Opened, FaultKind>
    ensures opened { IfOk result (IsOpened rest.now) }
    ensures refused { IfErr result (IsRefused rest.now) }
    ensures before_time { IfErr result (λ fault. fault ≢ FaultKind.TimeRange) }
    ensures first_bytes { header_of (take 1_048_576 rest.now) ≡ header_of rest.now }
{
    let header = read_header(rest)?;
    let length = record_length(header.exponent);
    let fields = if header.samples == 0 {
        None
    } else {
        Some(read_fields(&header)?)
    };
    Ok(Opened {
        header,
        length,
        fields,
    })
}

/// The data area of a record with samples.
pub(crate) fn area_of<'a>(opened: &Opened, rest: &'a [u8]) -> &'a [u8]
    requires opened { IsOpened rest.now opened.now }
    requires some { IsSome opened.now.fields }
    ensures area { result.now ≡ data_area opened.now.header rest.now }
    ensures small { length result.now ≤ 1_048_576 }
{
    &rest[opened.header.data_at as usize..opened.length as usize]
}

/// The key of a record with samples, and the instant of the first, if the first and the last are in time.
pub(crate) fn place_in_time(header: &Header, rate: Rate) -> Result<(Key, i64), FaultKind>
    requires factor { rate.factor ≡ header.now.factor }
    requires multiplier { rate.multiplier ≡ header.now.multiplier }
    requires time { IsTime header.now.time }
    requires some { 1 ≤ header.now.samples }
    ensures key { IfOk result (λ place. place.0 ≡ key_of header.now) }
    ensures start { IfOk result (λ place. place.1 ≡ start_of header.now) }
    ensures in_time { OnOk result (IsInTime (key_of header.now).rate (start_of header.now) header.now.samples) }
    ensures fault { IfErr result (λ fault. fault ≡ FaultKind.TimeRange) }
    ensures out { OnErr result (IsInTime (key_of header.now).rate (start_of header.now) header.now.samples → ⊥) }
{
    let start = start_of(header);
    if !is_in_time(&rate, start, header.samples) {
        return Err(FaultKind::TimeRange);
    }
    Ok((key_of(header, rate), start))
}

/// The record that the bytes begin with, or why it is refused, by `decode_record_in` with samples in memory of their own.
pub fn decode_record(alloc: Global, rest: &[u8]) -> Result<Record, FaultKind>
    ensures found { IfOk result (IsRecordOf rest.now) }
    ensures refused { IfErr result (λ fault. fault ≢ FaultKind.Memory → IsRefused rest.now fault) }
    ensures count { IfOk result (λ found. IfSome found.row (λ row. length row.samples ≤ 65_535)) }
    ensures memory { IsErrOf result FaultKind.Memory → TakesMemory rest.now }
    ensures found_in_first { IfOk result (IsRecordOf (first_bytes rest.now)) }
    ensures refused_in_first { IfErr result (λ fault. fault ≢ FaultKind.Memory
        → IsRefused (first_bytes rest.now) fault) }
{
    decode_record_in(SampleVec::new(alloc), rest)
}

/// The record that the bytes begin with, or why it is refused.
///
/// `rest` is all that is left of the input. A record with no samples is read by its header alone.
/// No more than the first 1,048,576 bytes decide, as many as the longest record has. The samples stand in the memory
/// of `spare`, whose own do not matter; if there are none, or the record is refused, it is given up.
pub fn decode_record_in(spare: SampleVec, rest: &[u8]) -> Result<Record, FaultKind>
    ensures found { IfOk result (IsRecordOf rest.now) }
    ensures refused { IfErr result (λ fault. fault ≢ FaultKind.Memory → IsRefused rest.now fault) }
    ensures count { IfOk result (λ found. IfSome found.row (λ row. length row.samples ≤ 65_535)) }

    // Running out of memory comes only if no field of the record has a fault.
    ensures memory { IsErrOf result FaultKind.Memory → TakesMemory rest.now }

    // The first bytes decide.
    ensures found_in_first { IfOk result (IsRecordOf (first_bytes rest.now)) }
    ensures refused_in_first { IfErr result (λ fault. fault ≢ FaultKind.Memory
        → IsRefused (first_bytes rest.now) fault) }
{
    let opened = open_record(rest)?;
    let header = opened.header;
    let length = opened.length;
    let Some((rate, kind)) = opened.fields else {
        return Ok(Record {
            length,
            row: None,
            reverse_agrees: true,
        });
    };
    let area = area_of(&opened, rest);
    let decoded = decode_area(
        spare,
        kind.storage(),
        header.data_order,
        area,
        header.samples,
    )?;
    let (key, start) = place_in_time(&header, rate)?;
    let row = Row {
        key,
        start,
        kind,
        samples: decoded.samples,
    };
    Ok(Record {
        length,
        row: Some(row),
        reverse_agrees: decoded.reverse_agrees,
    })
}
