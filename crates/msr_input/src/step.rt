//! The steps of reading: bytes ahead, a record, its row, its counts.
ghost use Rattle.std.specs.Prelude.{◌≡◌, ◌≢◌, ◌<◌, true, [], IfOk, IfErr, IfSome, IsErrOf, OnErr, MatchResult, MatchOption};
ghost use Rattle.msr_rows.specs.Records.{IsRefused};
ghost use Rattle.msr_rows.specs.declared.row.Record.{Record as Found};
ghost use Rattle.msr_devices.specs.Device.{CanCountCall, CountsFew};
ghost use Rattle.msr_devices.specs.ReadBuffer.{IsFilled};
ghost use Rattle.msr_segments.specs.Spans.{IsInBounds};
ghost use Rattle.msr_input.specs.Input.{IsRefusedAlone};
ghost use Rattle.msr_input.specs.Outlines.{outline_of};
ghost use Rattle.msr_input.specs.Reading.{HoldsRecord};
ghost use Rattle.msr_input.specs.Records.{CountsOneMore};
ghost use Rattle.msr_input.specs.Rows.{next_outline, next_row};
ghost use Rattle.msr_input.specs.Steps.{CanFollow, CameBefore, FollowsIfAny, IsGiven, IsJudged, StopsDecoding, StopsFollowing, may_change};

use crate::fault::{Fault, ReadFault, fault_at};
use crate::from_record::FromRecord;
use crate::outline::{Outline, RowOutline};
use crate::row_reader::{NextOutline, NextRow};
use msr_base::{Counts, SampleVec};
use msr_devices::{ReadBuffer, Source};
use msr_rows::{FaultKind, Row, reverse_in};
use msr_segments::{Follow, OutOfRange, Step};
use std::alloc::Global;
use std::mem;

/// As many bytes as the longest record has.
const LONGEST: usize = 1_048_576;

/// Whether more bytes after these might change why they are refused.
fn may_change(kind: FaultKind, len: usize) -> bool
    ensures same { result ≡ may_change kind len }
    ensures short { result ≡ true → len < 1_048_576 }
{
    match kind {
        FaultKind::Header(_) => len < LONGEST,
        _ => false,
    }
}

/// Why a record is refused that has that fault by itself: before that of its time comes, if reading is strict, that of
/// its reverse constant.
#[cold]
fn fault_of(kind: FaultKind, bytes: &[u8], strict: bool) -> FaultKind
    requires { kind ≢ FaultKind.Memory → IsRefused bytes.now kind }
    ensures refused { result ≢ FaultKind.Memory → IsRefusedAlone strict bytes.now result }
    ensures memory { result ≡ FaultKind.Memory → kind ≡ FaultKind.Memory }
{
    let FaultKind::TimeRange = kind else {
        return kind;
    };
    if !strict {
        return kind;
    }
    match reverse_in(bytes) {
        Some(false) => FaultKind::ReverseMismatch,
        _ => kind,
    }
}

/// What is made of the record that the bytes begin with, or why it is refused. If reading is strict its reverse
/// constant agrees.
#[inline(always)]
fn judge<F: FromRecord>(spare: SampleVec, bytes: &[u8], strict: bool) -> Result<F, FaultKind>
    ensures found { IfOk result (λ made. IsJudged (F.stands made) strict bytes.now) }
    ensures refused { IfErr result (λ kind. kind ≢ FaultKind.Memory → IsRefusedAlone strict bytes.now kind) }
    ensures memory { IsErrOf result FaultKind.Memory → F.takes bytes.now }
{
    match F::read(spare, bytes) {
        Ok(made) => {
            if strict && !made.reverse_agrees() {
                return Err(FaultKind::ReverseMismatch);
            }
            Ok(made)
        }
        Err(kind) => Err(fault_of(kind, bytes, strict)),
    }
}

/// What is made of the record that the bytes left begin with, which is the one at the offset; `None` if there are
/// none. It is given as soon as the record's own bytes are there; a refusal waits while more bytes might change it.
#[inline(always)]
pub(crate) fn read_record<R: Source, F: FromRecord>(
    alloc: Global,
    spare: &mut SampleVec,
    buffer: &mut ReadBuffer,
    source: &mut R,
    strict: bool,
    offset: u64,
) -> Result<Option<F>, ReadFault>
    requires { CanCountCall (R.device source.old) }
    ensures came { MatchResult result
        (λ _. IsFilled 0 (R.device source.old) (R.device source.new) buffer.old buffer.new)
        (CameBefore (R.device source.old) (R.device source.new) buffer.old buffer.new) }
    ensures next { IfOk result (λ next. MatchOption next
        ((buffer.new.bytes ≡ []) × (buffer.new.ended ≡ true))
        (λ made. IsGiven (F.stands made) strict buffer.new.bytes buffer.new.room buffer.old.room)) }
    ensures refused { IfErr result (StopsDecoding F.takes strict buffer.new offset) }
    ensures unread { HoldsRecord buffer.old.bytes → R.device source.new ≡ R.device source.old }
    ensures few { CountsFew (R.device source.old) (R.device source.new) }
{
    'bytes: loop {
        let bytes = buffer.bytes();
        if bytes.is_empty() && buffer.has_ended() {
            return Ok(None);
        }
        let given = mem::replace(spare, SampleVec::new(alloc));
        let kind = match judge::<F>(given, bytes, strict) {
            Ok(made) => return Ok(Some(made)),
            Err(kind) => kind,
        };
        if buffer.has_ended() || !may_change(kind, bytes.len()) {
            return Err(fault_at(offset, kind));
        }
        let want = bytes.len() + 1;
        buffer.fill(source, want)?;
    }
}

/// Says what the row of the record at the offset does, if it has one.
#[inline(always)]
pub(crate) fn follow(
    follow: &mut Follow,
    row: &Option<RowOutline>,
    offset: u64,
) -> Result<Option<Step>, ReadFault>
    requires { IfSome row.now CanFollow }
    ensures followed { IfOk result (λ step. FollowsIfAny follow.old row.now step follow.new) }
    ensures in_bounds { IfOk result (λ step. IfSome step (λ _. IsInBounds follow.new.current)) }
    ensures refused { IfErr result (StopsFollowing follow.old row.now offset) }
    ensures unchanged { OnErr result (follow.new ≡ follow.old) }
{
    let Some(outline) = row else {
        return Ok(None);
    };
    match follow.step(&outline.key, outline.start, outline.count) {
        Ok(step) => Ok(Some(step)),
        Err(OutOfRange) => Err(ReadFault::Input(Fault {
            offset,
            kind: FaultKind::TimeRange,
        })),
    }
}

/// What is told of a record: the answer for its row, if it has one.
#[inline(always)]
pub(crate) fn next_row(step: Option<Step>, row: Option<Row>) -> Option<NextRow>
    ensures { result ≡ next_row step row }
{
    match (step, row) {
        (Some(step), Some(row)) => Some(NextRow { step, row }),
        _ => None,
    }
}

/// What is told of a record whose samples were not read into memory: the answer for its row, if it has one.
pub(crate) fn next_outline(step: Option<Step>, row: Option<RowOutline>) -> Option<NextOutline>
    ensures { result ≡ next_outline step row }
{
    match (step, row) {
        (Some(step), Some(row)) => Some(NextOutline { step, row }),
        _ => None,
    }
}

/// The counts with those of one record more. A source has fewer than 2^64 bytes, so none saturates.
pub(crate) fn counted(counts: Counts, outline: &Outline) -> Counts
    ensures { (found : Found) → outline.now ≡ outline_of found → CountsOneMore counts result found }
{
    let empty = u64::from(outline.row.is_none());
    let mismatched = u64::from(!outline.reverse_agrees);
    Counts {
        read: counts.read.saturating_add(1),
        empty: counts.empty.saturating_add(empty),
        mismatched: counts.mismatched.saturating_add(mismatched),
    }
}
