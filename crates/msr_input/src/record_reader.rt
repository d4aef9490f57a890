//! Reading records one after another.
use crate::fault::ReadFault;
use crate::from_record::FromRecord;
use crate::outline::Outline;
use crate::step::{counted, read_record};
use msr_base::{Counts, SampleVec};
use msr_devices::{ReadBuffer, Source};
use msr_header::read_header;
use std::alloc::Global;
use std::marker::Model;

/// Reads records from a source, each judged by itself, and counts those that were passed. All calls take
/// the same source.
#[derive(Drop)]
pub(crate) struct RecordReader {
    alloc: Global,
    /// Samples of an earlier record, in whose memory those of the next one are to stand. There are never more than a
    /// record has.
    spare: SampleVec,
    buffer: ReadBuffer,
    /// Whether a record is refused whose reverse constant does not agree.
    strict: bool,
    counts: Counts,
    /// How many bytes the records had so far.
    offset: u64,
}

impl Model for RecordReader {
    ghost use Rattle.msr_input.specs.Records.{Position};

    ghost Value = { Position };

    ghost view = { λ r. record {
      waiting = r.buffer.bytes;
      ended = r.buffer.ended;
      room = r.buffer.room;
      strict = r.strict;
      counts = r.counts;
      offset = r.offset;
    } };
}

impl RecordReader {
    ghost use Rattle.std.specs.Prelude.{◌≡◌, ◌≢◌, ◌↔◌, ◌≤◌, ◌<◌, ◌⊎◌, List, [], ◌∷◌, ◌++◌, length, true, IsTrue, OnOk, IfOk, IfErr, IsErrOf, MatchResult, MatchOption};
    ghost use Rattle.msr_devices.specs.Device.{Device, CanCountCall, CountsFew, IsSteady};
    ghost use Rattle.msr_rows.specs.declared.row.Record.{Record as Found};
    ghost use Rattle.msr_input.specs.Records.{HaveCome, HaveComeShort, StopsGiving, left_with};
    ghost use Rattle.msr_input.specs.Reading.{HoldsRecord};
    ghost use Rattle.msr_input.specs.Steps.{IsGiven, IsRecordAhead};

    /// A reader before the first record; a strict one refuses a record whose reverse constant does not agree. It
    /// takes no memory yet.
    pub(crate) fn new(alloc: Global, strict: bool) -> RecordReader
        ensures strict { result.strict ≡ strict }
        ensures none { (start : Device) → HaveCome start start result [] }
    {
        RecordReader {
            alloc,
            spare: SampleVec::new(alloc),
            buffer: ReadBuffer::new(alloc),
            strict,
            counts: Counts {
                read: 0,
                empty: 0,
                mismatched: 0,
            },
            offset: 0,
        }
    }

    /// What is made of the next record, which [`pass`](Self::pass) then passes; `None` when the input has ended. A
    /// further call gives the same record again. A record is given as soon as its own bytes have come, before a
    /// further read; so is a refusal of what stands after its header. One of the header waits for the input's end
    /// or for as many bytes as the longest record has, since more could change it.
    #[inline(always)]
    pub(crate) fn next<R: Source, F: FromRecord>(
        &mut self,
        source: &mut R,
    ) -> Result<Option<F>, ReadFault>
        requires { CanCountCall (R.device source.old) }
        ensures came { (start : Device) (records : List Found) → HaveCome start (R.device source.old) self.old records
            → MatchResult result
            (λ _. HaveCome start (R.device source.new) self.new records)
            (StopsGiving self.old.strict start (R.device source.new) records) }
        ensures next { IfOk result (λ next. MatchOption next
            ((self.new.waiting ≡ []) × (self.new.ended ≡ true))
            (λ made. IsGiven (F.stands made) self.new.strict self.new.waiting self.new.room self.old.room)) }
        ensures kept { (start : Device) (records : List Found) → HaveCome start (R.device source.old) self.old records
            → IfErr result (λ fault. fault ≢ ReadFault.Read
            → HaveCome start (R.device source.new) self.new records) }
        ensures memory { IsErrOf result ReadFault.Memory
            → (self.new.room ≤ length self.new.waiting) ⊎ F.takes self.new.waiting }
        ensures awaited { IsErrOf result ReadFault.Read → HoldsRecord self.new.waiting → ⊥ }
        ensures unread { HoldsRecord self.old.waiting → R.device source.new ≡ R.device source.old }
        ensures failed { (start : Device) (records : List Found) → HaveCome start (R.device source.old) self.old records
            → IsErrOf result ReadFault.Read
            → HaveComeShort start (R.device source.new) records self.new.waiting }
        ensures strict { self.new.strict ≡ self.old.strict }
        ensures steady { OnOk result (IsSteady (R.device source.old) (R.device source.new)) }
        ensures few { CountsFew (R.device source.old) (R.device source.new) }
        ensures left { OnOk result (left_with (R.device source.new) self.new.waiting
            ≤ left_with (R.device source.old) self.old.waiting) }
    {
        read_record(
            self.alloc,
            &mut self.spare,
            &mut self.buffer,
            source,
            self.strict,
            self.offset,
        )
    }

    /// Whether the bytes of the next record have come, by its header.
    pub(crate) fn holds_record(&self) -> bool
        ensures { IsTrue result ↔ HoldsRecord self.now.waiting }
    {
        read_header(self.buffer.bytes()).is_ok()
    }

    /// Passes the record that [`next`](Self::next) gave, by its outline, and counts it.
    #[inline(always)]
    pub(crate) fn pass(&mut self, outline: &Outline)
        requires { (found : Found) × IsRecordAhead self.old outline.now found }
        ensures passed { (start now : Device) (records : List Found) (found : Found)
            → HaveCome start now self.old records → IsRecordAhead self.old outline.now found
            → HaveCome start now self.new (records ++ found ∷ []) }
        ensures strict { self.new.strict ≡ self.old.strict }
        ensures room { self.new.room ≡ self.old.room }
        ensures fewer { length self.new.waiting < length self.old.waiting }
    {
        self.buffer.consume(outline.length as usize);
        self.counts = counted(self.counts, outline);
        self.offset = self.offset.saturating_add(outline.length as u64);
    }

    /// Takes back samples that are done with, for their memory.
    pub(crate) fn give_back(&mut self, samples: SampleVec)
        ensures { self.new ≡ self.old }
    {
        self.spare = samples;
    }

    /// The counts of the records that were passed.
    pub(crate) fn counts(&self) -> Counts
        ensures { result ≡ self.now.counts }
    {
        self.counts
    }

    /// How many bytes they had.
    pub(crate) fn offset(&self) -> u64
        ensures { result ≡ self.now.offset }
    {
        self.offset
    }
}
