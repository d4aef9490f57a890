//! Reading rows, each with what it does.
use crate::fault::ReadFault;
use crate::from_record::outline_of;
use crate::outline::{Outline, RowOutline};
use crate::record_reader::RecordReader;
use crate::settings::Settings;
use crate::step::{follow, next_outline, next_row};
use msr_base::Counts;
use msr_devices::Source;
use msr_rows::{Record, Row};
use msr_segments::{Follow, Step};
use std::alloc::Global;
use std::marker::Model;

/// The next row, and what it does.
#[derive(Drop)]
pub struct NextRow {
    /// It begins a segment, so that the one before it has ended, or joins the one that was begun last.
    pub step: Step,
    /// The row.
    pub row: Row,
}

/// The next row without its samples, and what it does.
#[derive(Clone, Copy)]
pub struct NextOutline {
    /// As that of `NextRow`.
    pub step: Step,
    /// The row without its samples.
    pub row: RowOutline,
}

/// The next record.
#[derive(Drop)]
pub struct NextRecord {
    /// How many bytes it has.
    pub length: u32,
    /// `None` if it has no samples.
    pub row: Option<NextRow>,
}

/// Reads records from a source, and says of each row whether it begins a segment. It holds no samples.
/// All calls take the same source.
#[derive(Drop)]
pub struct RowReader {
    records: RecordReader,
    follow: Follow,
}

impl Model for RowReader {
    ghost use Rattle.msr_input.specs.Rows.{RowReading};

    ghost Value = { RowReading };

    ghost view = { λ r. record { position = r.records; following = r.follow } };
}

impl RowReader {
    ghost use Rattle.std.specs.Prelude.{◌≡◌, ◌≢◌, ◌↔◌, ◌≤◌, ◌<◌, ◌⊎◌, List, [], ◌∷◌, ◌++◌, length, None, IsTrue, OnOk, OnErr, IfOk, IfErr, IsErrOf, IfSome, MatchResult, MatchOption};
    ghost use Rattle.std.specs.Option.{option_to_list};
    ghost use Rattle.msr_devices.specs.Device.{Device, CanCountCall, CountsFew, IsSteady};
    ghost use Rattle.msr_rows.specs.Records.{TakesMemory};
    ghost use Rattle.msr_rows.specs.declared.row.Record.{Record as Found};
    ghost use Rattle.msr_segments.specs.Spans.{IsInBounds, TakesStep};
    ghost use Rattle.msr_segments.specs.Segments.{row_segment};
    ghost use Rattle.msr_segments.specs.declared.follow.Step.{Step as Answer};
    ghost use Rattle.msr_input.specs.Outlines.{outline_span};
    ghost use Rattle.msr_input.specs.Records.{HaveComeShort, left_with};
    ghost use Rattle.msr_input.specs.Reading.{HoldsRecord, IsWritable, room_with};
    ghost use Rattle.msr_input.specs.Rows.{HasReadRows, ReadsNoRow, ReadsNone, ReadsOne, ReadsOutline, ReadsRecord, ReadsToEnd, StepsTo, StopsRows, row_settings};
    ghost use Rattle.msr_input.specs.Steps.{CanFollow, CanJoin, FollowsIfAny, IsRecordAhead};

    /// A reader before the first record, with a tolerance in its range. It takes no memory yet.
    pub fn new(alloc: Global, settings: Settings) -> RowReader
        requires { (1 ≤ settings.tolerance) × (settings.tolerance ≤ 1_000_000) }
        ensures following { result.following ≡ record { tolerance = settings.tolerance; current = None } }
        ensures strict { result.position.strict ≡ settings.strict }
        ensures none { (start : Device) → HasReadRows start start result [] [] }
    {
        RowReader {
            records: RecordReader::new(alloc, settings.strict),
            follow: Follow::new(settings.tolerance),
        }
    }

    /// The next row without its samples, after records that have no row; `None` when the input has ended, and with
    /// it the last segment. The samples are looked at where they stand, so memory is taken for the bytes ahead alone.
    /// At an `Err` but `Read` the reader stands before the record that it did not take: a further call gives the same
    /// fault again, or tries again to get memory.
    pub fn next_outline<R: Source>(
        &mut self,
        source: &mut R,
    ) -> Result<Option<NextOutline>, ReadFault>
        requires { CanCountCall (R.device source.old) }
        ensures read { (start : Device) (records : List Found) (answers : List Answer)
            → HasReadRows start (R.device source.old) self.old records answers
            → MatchResult result
            (λ next. MatchOption next
            (ReadsToEnd start (R.device source.new) self.new records answers)
            (ReadsOutline start (R.device source.new) self.new records answers))
            (StopsRows (row_settings self.old) start (R.device source.new) records) }
        ensures kept { (start : Device) (records : List Found) (answers : List Answer)
            → HasReadRows start (R.device source.old) self.old records answers
            → IfErr result (λ fault. fault ≢ ReadFault.Read
            → ReadsNoRow start (R.device source.new) self.new records answers) }

        // What the row does, and what rows are given.
        ensures step { IfOk result (λ next. IfSome next (λ given.
            TakesStep self.old.following (outline_span given.row) given.step self.new.following)) }
        ensures row { IfOk result (λ next. IfSome next (λ given. CanFollow given.row)) }
        ensures in_bounds { IfOk result (λ next. IfSome next (λ _. IsInBounds self.new.following.current)) }
        ensures settings { row_settings self.new ≡ row_settings self.old }

        // Running out of memory comes only when the bytes that wait fill the room that there is.
        ensures memory { IsErrOf result ReadFault.Memory
            → self.new.position.room ≤ length self.new.position.waiting }

        // Of a record whose bytes have come none are awaited.
        ensures awaited { IsErrOf result ReadFault.Read → HoldsRecord self.new.position.waiting → ⊥ }
        ensures less { IfOk result (λ next. IfSome next (λ _.
            left_with (R.device source.new) self.new.position.waiting
            < left_with (R.device source.old) self.old.position.waiting)) }
        ensures few { CountsFew (R.device source.old) (R.device source.new) }
    {
        'records: while let Some(found) = self.records.next::<R, Outline>(source)? {
            let step = self.take(&found)?;
            if let Some(next) = next_outline(step, found.row) {
                return Ok(Some(next));
            }
        }
        Ok(None)
    }

    /// The next record, with or without a row; `None` when the input has ended, and with it the last segment. No
    /// read is made if its bytes have come ([`holds_record`](Self::holds_record)). At an `Err` but `Read` the
    /// reader stands before it, as `next_outline` says.
    #[inline(always)]
    pub fn next_record<R: Source>(
        &mut self,
        source: &mut R,
    ) -> Result<Option<NextRecord>, ReadFault>
        requires { CanCountCall (R.device source.old) }
        ensures read { (start : Device) (records : List Found) (answers : List Answer)
            → HasReadRows start (R.device source.old) self.old records answers
            → MatchResult result
            (λ next. MatchOption next
            (ReadsToEnd start (R.device source.new) self.new records answers)
            (ReadsRecord start (R.device source.new) self.new records answers))
            (StopsRows (row_settings self.old) start (R.device source.new) records) }

        // Which records came: this one and no other.
        ensures exact { (start : Device) (records : List Found) (answers : List Answer)
            → HasReadRows start (R.device source.old) self.old records answers
            → IfOk result (λ next. MatchOption next
            (ReadsNone start (R.device source.new) self.new records answers)
            (ReadsOne start (R.device source.new) self.new records answers)) }
        ensures kept { (start : Device) (records : List Found) (answers : List Answer)
            → HasReadRows start (R.device source.old) self.old records answers
            → IfErr result (λ fault. fault ≢ ReadFault.Read
            → HasReadRows start (R.device source.new) self.new records answers) }

        // What the row does, and what rows are given.
        ensures step { IfOk result (λ next. IfSome next (λ given.
            StepsTo self.old.following given.row self.new.following)) }
        ensures row { IfOk result (λ next. IfSome next (λ given. IfSome given.row (λ found.
            CanJoin found.row × IsWritable (row_segment found.row)))) }
        ensures in_bounds { IfOk result (λ next. IfSome next (λ given. IfSome given.row (λ _.
            IsInBounds self.new.following.current))) }
        ensures settings { row_settings self.new ≡ row_settings self.old }
        ensures memory { IsErrOf result ReadFault.Memory
            → (self.new.position.room ≤ length self.new.position.waiting) ⊎ TakesMemory self.new.position.waiting }

        // Room is taken for 64 KiB, and for more only if a record needs it.
        ensures room { IfOk result (λ next. IfSome next (λ given.
            self.new.position.room ≤ room_with given.length self.old.position.room)) }

        // Which reads are made, and what had come when one failed.
        ensures unread { HoldsRecord self.old.position.waiting → R.device source.new ≡ R.device source.old }
        ensures awaited { IsErrOf result ReadFault.Read → HoldsRecord self.new.position.waiting → ⊥ }
        ensures failed { (start : Device) (records : List Found) (answers : List Answer)
            → HasReadRows start (R.device source.old) self.old records answers
            → IsErrOf result ReadFault.Read
            → HaveComeShort start (R.device source.new) records self.new.position.waiting }
        ensures less { IfOk result (λ next. IfSome next (λ _.
            left_with (R.device source.new) self.new.position.waiting
            < left_with (R.device source.old) self.old.position.waiting)) }
        ensures steady { OnOk result (IsSteady (R.device source.old) (R.device source.new)) }
        ensures few { CountsFew (R.device source.old) (R.device source.new) }
    {
        let Some(found) = self.records.next::<R, Record>(source)? else {
            return Ok(None);
        };
        let outline = outline_of(&found);
        let step = self.take(&outline)?;
        let row = next_row(step, found.row);
        Ok(Some(NextRecord {
            length: outline.length,
            row,
        }))
    }

    /// Whether the bytes of the next record have come, by its header.
    pub fn holds_record(&self) -> bool
        ensures { IsTrue result ↔ HoldsRecord self.now.position.waiting }
    {
        self.records.holds_record()
    }

    /// Takes the record that was read, by its outline, and says what its row does, if it has one.
    #[inline(always)]
    fn take(&mut self, outline: &Outline) -> Result<Option<Step>, ReadFault>
        requires { (found : Found) × IsRecordAhead self.old.position outline.now found }
        ensures read { (start now : Device) (records : List Found) (answers : List Answer) (found : Found)
            → HasReadRows start now self.old records answers
            → IsRecordAhead self.old.position outline.now found
            → MatchResult result
            (λ step. HasReadRows start now self.new (records ++ found ∷ []) (answers ++ option_to_list step))
            (StopsRows (row_settings self.old) start now records) }
        ensures strict { self.new.position.strict ≡ self.old.position.strict }
        ensures room { self.new.position.room ≡ self.old.position.room }
        ensures step { IfOk result (λ step. FollowsIfAny self.old.following outline.now.row step self.new.following) }
        ensures in_bounds { IfOk result (λ step. IfSome step (λ _. IsInBounds self.new.following.current)) }
        ensures no_memory { IsErrOf result ReadFault.Memory → ⊥ }
        ensures unread { IsErrOf result ReadFault.Read → ⊥ }
        ensures unchanged { OnErr result (self.new ≡ self.old) }
        ensures fewer { OnOk result (length self.new.position.waiting < length self.old.position.waiting) }
    {
        let step = follow(&mut self.follow, &outline.row, self.records.offset())?;
        self.records.pass(outline);
        Ok(step)
    }

    /// Takes back a record that is done with, so that the samples of the next one stand in the memory of its own.
    pub fn give_back(&mut self, done: NextRecord)
        ensures { self.new ≡ self.old }
    {
        if let Some(next) = done.row {
            self.records.give_back(next.row.samples);
        }
    }

    /// The counts of the records so far.
    pub fn counts(&self) -> Counts
        ensures { result ≡ self.now.position.counts }
    {
        self.records.counts()
    }
}
