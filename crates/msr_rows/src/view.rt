//! A record that is read where it stands.
ghost use Rattle.std.specs.Prelude.{◌≡◌, Ok, IfOk, IfErr, IsErrOf};
ghost use Rattle.msr_header.specs.Reading.{header_of};
ghost use Rattle.msr_rows.specs.Records.{first_bytes, IsRecordOf, IsRefused};
ghost use Rattle.msr_rows.specs.Views.{key_and_start, samples_of_row, viewed_area};

use crate::fault::FaultKind;
use crate::reading::{area_of, open_record, place_in_time};
use crate::row::Key;
use crate::samples::{Samples, view_area};
use msr_base::Kind;
use msr_header::Header;
use std::marker::Model;

/// The row of a record, whose samples are still in its bytes.
#[derive(Drop)]
struct RowView<'a> {
    key: Key,
    start: i64,
    kind: Kind,
    area: &'a [u8],
    samples: Samples<'a>,
}

/// A record without a fault, read from the bytes that it stands in. Contracts see its header, its data
/// area, and the record that `decode_record` gives.
#[derive(Drop)]
pub struct RecordView<'a> {
    header: Header,
    length: u32,
    row: Option<RowView<'a>>,
}

impl<'a> Model for RecordView<'a> {
    ghost use Rattle.msr_rows.specs.Views.{Viewed};

    ghost Value = { Viewed };

    ghost use Rattle.msr_rows.specs.ViewFields.{viewed_of};

    ghost view = { viewed_of };
}

impl<'a> RecordView<'a> {
    /// How many bytes the record has.
    pub fn length(&self) -> u32
        ensures { result ≡ self.now.found.length }
    {
        self.length
    }

    /// Its header.
    pub fn header(&self) -> &Header
        ensures { result.now ≡ self.now.header }
    {
        &self.header
    }

    /// Its data area, from the beginning of data to the record's end; empty if it has no samples.
    pub fn area(&self) -> &'a [u8]
        ensures { result.now ≡ self.now.area }
    {
        match &self.row {
            Some(row) => row.area,
            None => &[],
        }
    }

    /// Its key and the instant of its first sample, if it has samples.
    pub fn place(&self) -> Option<(Key, i64)>
        ensures { result ≡ key_and_start self.now.found.row }
    {
        match &self.row {
            Some(row) => Some((row.key, row.start)),
            None => None,
        }
    }

    /// Its samples, one after the other.
    pub fn samples(&self) -> Samples<'a>
        ensures samples { result.samples ≡ samples_of_row self.now.found.row }
        ensures agrees { result.agrees ≡ self.now.found.reverse_agrees }
    {
        match &self.row {
            Some(row) => row.samples.clone().unwrap(),
            None => Samples::none(),
        }
    }

    /// Whether the last sample is the reverse constant, as `Record` says. It was compared when the area was looked at,
    /// so no sample is read for it.
    pub fn reverse_agrees(&self) -> bool
        ensures { result ≡ self.now.found.reverse_agrees }
    {
        match &self.row {
            Some(row) => row.samples.reverse_agrees(),
            None => true,
        }
    }
}

/// The record that the bytes begin with, read where it stands, or why it is refused: as `decode_record`
/// says, and with no memory.
pub fn view_record<'a>(rest: &'a [u8]) -> Result<RecordView<'a>, FaultKind>
    ensures found { IfOk result (λ view. IsRecordOf rest.now view.found) }
    ensures header { IfOk result (λ view. header_of rest.now ≡ Ok view.header) }
    ensures area { IfOk result (λ view. view.area ≡ viewed_area view.header rest.now) }
    ensures refused { IfErr result (IsRefused rest.now) }
    ensures never_memory { IsErrOf result FaultKind.Memory → ⊥ }

    // The first bytes decide.
    ensures found_in_first { IfOk result (λ view. IsRecordOf (first_bytes rest.now) view.found) }
    ensures refused_in_first { IfErr result (IsRefused (first_bytes rest.now)) }
{
    let opened = open_record(rest)?;
    let header = opened.header;
    let length = opened.length;
    let Some((rate, kind)) = opened.fields else {
        return Ok(RecordView {
            header,
            length,
            row: None,
        });
    };
    let area = area_of(&opened, rest);
    let samples = view_area(kind.storage(), header.data_order, area, header.samples)?;
    let (key, start) = place_in_time(&header, rate)?;
    let row = RowView {
        key,
        start,
        kind,
        area,
        samples,
    };
    Ok(RecordView {
        header,
        length,
        row: Some(row),
    })
}
