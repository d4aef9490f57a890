//! What a reader makes of the bytes of a record: the record with its samples, or its outline.
ghost use Rattle.std.specs.Prelude.{◌≡◌, ◌≢◌, ℕ, List, false, IfErr, IfOk, IfSome, IsErrOf, Ok};
ghost use Rattle.msr_header.specs.Reading.{header_of};
ghost use Rattle.msr_rows.specs.Records.{IsRecordOf, IsRefused, TakesMemory};
ghost use Rattle.msr_rows.specs.declared.row.Record.{Record as Found};
ghost use Rattle.msr_input.specs.Outlines.{outline_of};
ghost use Rattle.msr_input.specs.Steps.{CanJoin, IsJudged};

use crate::outline::{Outline, RowOutline};
use msr_base::SampleVec;
use msr_rows::{FaultKind, Record, RecordView, Row, decode_record_in, view_record};

/// What a reader makes of the bytes of a record.
pub(crate) trait FromRecord: Drop {
    /// It is made of this record.
    ghost stands: { Self → Found → Type 0 };

    /// Memory is taken for what is made of the record that these bytes begin with.
    ghost takes: { List ℕ → Type 0 };

    /// What is made of the record that the bytes begin with, or why it is refused. Its samples, if it has them, stand in
    /// the memory of `spare`.
    fn read(spare: SampleVec, bytes: &[u8]) -> Result<Self, FaultKind>
        ensures found { IfOk result (λ made. IsJudged (stands made) false bytes.now) }
        ensures refused { IfErr result (λ kind. kind ≢ FaultKind.Memory → IsRefused bytes.now kind) }
        ensures memory { IsErrOf result FaultKind.Memory → takes bytes.now };

    /// Whether the record's last sample is its reverse constant.
    fn reverse_agrees(&self) -> bool
        ensures { (found : Found) → stands self.now found → result ≡ found.reverse_agrees };
}

impl FromRecord for Record {
    ghost stands = { λ made found. made ≡ found };

    ghost takes = { TakesMemory };

    #[inline(always)]
    fn read(spare: SampleVec, bytes: &[u8]) -> Result<Record, FaultKind> {
        decode_record_in(spare, bytes)
    }

    #[inline(always)]
    fn reverse_agrees(&self) -> bool {
        self.reverse_agrees
    }
}

/// The samples stay where they are, so it takes no memory.
impl FromRecord for Outline {
    ghost stands = { λ made found. made ≡ outline_of found };

    ghost takes = { λ _. ⊥ };

    fn read(_spare: SampleVec, bytes: &[u8]) -> Result<Outline, FaultKind> {
        match view_record(bytes) {
            Ok(view) => Ok(outline_seen(&view)),
            Err(kind) => Err(kind),
        }
    }

    fn reverse_agrees(&self) -> bool {
        self.reverse_agrees
    }
}

/// The outline of a record that was read.
#[inline(always)]
pub(crate) fn outline_of(found: &Record) -> Outline
    requires { IfSome found.now.row CanJoin }
    ensures { result ≡ outline_of found.now }
{
    let row = match &found.row {
        Some(row) => Some(RowOutline {
            key: row.key,
            start: row.start,
            count: row.samples.len() as u16,
        }),
        None => None,
    };
    Outline {
        length: found.length,
        row,
        reverse_agrees: found.reverse_agrees,
    }
}

/// The outline of a record that is read where it stands.
fn outline_seen(view: &RecordView) -> Outline
    requires { (bytes : List ℕ) × IsRecordOf bytes view.now.found × (header_of bytes ≡ Ok view.now.header) }
    ensures { result ≡ outline_of view.now.found }
{
    let row = match view.place() {
        Some((key, start)) => Some(RowOutline {
            key,
            start,
            count: view.header().samples,
        }),
        None => None,
    };
    Outline {
        length: view.length(),
        row,
        reverse_agrees: view.reverse_agrees(),
    }
}
