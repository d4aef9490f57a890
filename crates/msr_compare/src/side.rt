//! One of two inputs while they are compared.
use crate::ahead::Ahead;
use crate::observer::Observer;
use crate::tally::RowTally;
use msr_devices::Source;
use msr_input::{NextRow, ReadFault, RowReader, Settings};
use std::alloc::Global;
use std::marker::Model;

/// Reads an input, with the samples of one record at hand, and counts its rows. All calls take the same source.
#[derive(Drop)]
pub(crate) struct Side {
    reader: RowReader,
    tally: RowTally,
    ahead: Ahead,
    ended: bool,
}

impl Model for Side {
    ghost use Rattle.msr_compare.specs.Sides.{Standing};

    ghost Value = { Standing };

    ghost view = { λ s. record { reading = s.reader; tally = s.tally; ahead = s.ahead; ended = s.ended } };
}

impl Side {
    ghost use Rattle.std.specs.Prelude.{◌≡◌, ◌≤◌, ◌++◌, List, [], drop, false, map, OnOk, MatchResult};
    ghost use Rattle.msr_devices.specs.Device.{Device, CanCountCall, CountsFew, IsSteady};
    ghost use Rattle.msr_input.specs.Reading.{StopsReading};
    ghost use Rattle.msr_input.specs.declared.settings.Settings.{Settings as How};
    ghost use Rattle.msr_compare.specs.Seen.{nothing_seen};
    ghost use Rattle.msr_compare.specs.Symbols.{Symbol, Holds, held_in};
    ghost use Rattle.msr_compare.specs.Sides.{HasSource, HasTaken, IsFetched, IsDrained, IsNew, TakesNext, weight};
    ghost use Rattle.msr_compare.specs.Meetings.{PassesOnly, place_of};

    /// A side before the first record, with a tolerance in its range. It takes no memory yet.
    pub(crate) fn new(alloc: Global, settings: Settings) -> Side
        requires { (1 ≤ settings.tolerance) × (settings.tolerance ≤ 1_000_000) }
        ensures { (start : Device) → IsNew settings start result }
    {
        Side {
            reader: RowReader::new(alloc, settings),
            tally: RowTally::new(),
            ahead: Ahead::new(),
            ended: false,
        }
    }

    /// Takes the row of the record that was read, if it has one.
    #[inline(always)]
    fn take(&mut self, next: Option<NextRow>)
        ensures { TakesNext next self.old self.new }
    {
        let Some(next) = next else {
            return;
        };
        self.tally = self.tally.with(next.step, &next.row);
        self.ahead = Ahead::of_row(next.step, next.row);
    }

    /// Reads on if nothing is ahead, until something is, or the input has ended. Each record is seen.
    #[inline(always)]
    pub(crate) fn fetch<R: Source, O: Observer>(
        &mut self,
        source: &mut R,
        observer: &mut O,
    ) -> Result<(), ReadFault>
        requires { CanCountCall (R.device source.old) }
        ensures fetched { (begun : O) (settings : How) (start : Device) (done : List Symbol)
            → HasTaken (O.has_seen begun observer.old) settings start (R.device source.old) self.old done
            → MatchResult result
            (λ _. IsFetched (O.has_seen begun observer.new) settings start (R.device source.new) self.new done)
            (StopsReading settings start (R.device source.new) []) }
        ensures weight { OnOk result (weight (R.device source.new) self.new
            ≤ weight (R.device source.old) self.old) }
        ensures steady { OnOk result (IsSteady (R.device source.old) (R.device source.new)) }
        ensures few { CountsFew (R.device source.old) (R.device source.new) }
    {
        if self.ended || !self.ahead.is_empty() {
            return Ok(());
        }
        self.read_on(source, observer)
    }

    /// The same, if the input has not ended.
    fn read_on<R: Source, O: Observer>(
        &mut self,
        source: &mut R,
        observer: &mut O,
    ) -> Result<(), ReadFault>
        requires count { CanCountCall (R.device source.old) }
        requires going { self.old.ended ≡ false }
        ensures fetched { (begun : O) (settings : How) (start : Device) (done : List Symbol)
            → HasTaken (O.has_seen begun observer.old) settings start (R.device source.old) self.old done
            → MatchResult result
            (λ _. IsFetched (O.has_seen begun observer.new) settings start (R.device source.new) self.new done)
            (StopsReading settings start (R.device source.new) []) }
        ensures weight { OnOk result (weight (R.device source.new) self.new
            ≤ weight (R.device source.old) self.old) }
        ensures steady { OnOk result (IsSteady (R.device source.old) (R.device source.new)) }
        ensures few { CountsFew (R.device source.old) (R.device source.new) }
    {
        self.ahead.give_back(&mut self.reader);
        'records: while self.ahead.is_empty() {
            let Some(next) = self.reader.next_record(source)? else {
                self.ended = true;
                return Ok(());
            };
            let Ok(()) = observer.see(&next) else {
                return Err(ReadFault::Memory);
            };
            self.take(next.row);
        }
        Ok(())
    }

    /// Reads the input to its end, without samples if no record has to be seen.
    pub(crate) fn drain<R: Source, O: Observer>(
        &mut self,
        source: &mut R,
        observer: &mut O,
    ) -> Result<(), ReadFault>
        requires { HasSource (R.device source.old) self.old }
        ensures drained { (begun : O) (settings : How) (start : Device) (done : List Symbol)
            → HasTaken (O.has_seen begun observer.old) settings start (R.device source.old) self.old done
            → MatchResult result
            (λ _. IsDrained (O.has_seen begun observer.new) settings start (R.device source.new) self.old.ended
            (done ++ self.old.ahead))
            (StopsReading settings start (R.device source.new) []) }
        ensures few { (settings : How) (start : Device) (done : List Symbol)
            → HasTaken nothing_seen settings start (R.device source.old) self.old done
            → CountsFew start (R.device source.new) }
    {
        if self.ended {
            return Ok(());
        }
        if observer.is_watching() {
            return self.see_rest(source, observer);
        }
        'rows: while let Some(_next) = self.reader.next_outline(source)? {}
        Ok(())
    }

    /// Reads the input to its end, which it has not come to. Each record is seen.
    fn see_rest<R: Source, O: Observer>(
        &mut self,
        source: &mut R,
        observer: &mut O,
    ) -> Result<(), ReadFault>
        requires begins { HasSource (R.device source.old) self.old }
        requires going { self.old.ended ≡ false }
        ensures drained { (begun : O) (settings : How) (start : Device) (done : List Symbol)
            → HasTaken (O.has_seen begun observer.old) settings start (R.device source.old) self.old done
            → MatchResult result
            (λ _. IsDrained (O.has_seen begun observer.new) settings start (R.device source.new) self.old.ended
            (done ++ self.old.ahead))
            (StopsReading settings start (R.device source.new) []) }
        ensures few { (settings : How) (start : Device) (done : List Symbol)
            → HasTaken nothing_seen settings start (R.device source.old) self.old done
            → CountsFew start (R.device source.new) }
    {
        'records: while let Some(last) = self.reader.next_record(source)? {
            let Ok(()) = observer.see(&last) else {
                return Err(ReadFault::Memory);
            };
            self.reader.give_back(last);
        }
        Ok(())
    }

    /// What is ahead.
    pub(crate) fn ahead(&self) -> &Ahead
        ensures { result.now ≡ self.now.ahead }
    {
        &self.ahead
    }

    /// How many samples of the open segment were compared.
    pub(crate) fn place(&self) -> u64
        ensures { result ≡ place_of self.now }
    {
        self.tally
            .count
            .saturating_sub(self.ahead.samples().len() as u64)
    }

    /// What was counted of the rows.
    pub(crate) fn tally(&self) -> RowTally
        ensures { result ≡ self.now.tally }
    {
        self.tally
    }

    /// Passes the beginning of a segment, if it is ahead.
    pub(crate) fn open(&mut self)
        ensures ahead { self.new.ahead ≡ map Holds (held_in self.old.ahead) }
        ensures only { PassesOnly self.old self.new }
    {
        self.ahead.open();
    }

    /// Passes some samples, and before them the beginning of a segment, if it is ahead.
    pub(crate) fn pass(&mut self, count: usize)
        ensures ahead { self.new.ahead ≡ map Holds (drop count (held_in self.old.ahead)) }
        ensures only { PassesOnly self.old self.new }
    {
        self.ahead.pass(count);
    }
}
