//! What was told so far, counted.
ghost use Rattle.std.specs.Prelude.{◌≡◌, ◌++◌, ◌∷◌, [], List, OnOk};
ghost use Rattle.msr_outcomes.specs.Entries.{AddsDone, Entry, IsTally};

use crate::outcome::Outcome;
use msr_folders::Totals;
use msr_making::{DayFault, Repacked};
use msr_options::Unopened;
use std::alloc::{AllocError, Global};

/// How many entries had each outcome, and the totals of the channels with a file that was done, in this walk or an
/// earlier one: of records, and of bytes, which of all such files are summed up too.
#[derive(Drop)]
pub struct Tally {
    pub done: u64,
    pub skipped: u64,
    pub refused: u64,
    pub known: u64,
    pub larger: u64,
    pub young: u64,
    pub bytes_read: u64,
    pub bytes_written: u64,
    pub channels: Totals,
    pub bytes: Totals,
    /// What could not be opened of the first day that was refused for that.
    pub unopened: Option<Unopened>,
}

impl Tally {
    /// The tally before anything was told.
    pub fn new(alloc: Global) -> Tally
        ensures { IsTally [] result }
    {
        Tally {
            done: 0,
            skipped: 0,
            refused: 0,
            known: 0,
            larger: 0,
            young: 0,
            bytes_read: 0,
            bytes_written: 0,
            channels: Totals::new(alloc),
            bytes: Totals::new(alloc),
            unopened: None,
        }
    }

    /// Counts a day more that was done.
    fn add_done(&mut self, channel: &str, repacked: Repacked) -> Result<(), AllocError>
        ensures { OnOk result (AddsDone channel.now repacked self.old self.new) }
    {
        self.channels.add(channel, repacked.read, repacked.written)?;
        self.bytes
            .add(channel, repacked.bytes_read, repacked.bytes_written)?;
        self.bytes_read = self.bytes_read.saturating_add(repacked.bytes_read);
        self.bytes_written = self.bytes_written.saturating_add(repacked.bytes_written);
        self.done = self.done.saturating_add(1);
        Ok(())
    }

    /// Counts one entry more. The channel is that of a day that was done.
    pub fn add(&mut self, channel: &str, outcome: Outcome) -> Result<(), AllocError>
        ensures { (before : List Entry) (entry : Entry) → IsTally before self.old → entry.channel ≡ channel.now
            → entry.outcome ≡ outcome → OnOk result (IsTally (before ++ entry ∷ []) self.new) }
    {
        match outcome {
            Outcome::Done(repacked) | Outcome::Same(repacked) => self.add_done(channel, repacked)?,
            Outcome::Young => self.young = self.young.saturating_add(1),
            Outcome::Skipped(_) => self.skipped = self.skipped.saturating_add(1),
            Outcome::Known(_) => self.known = self.known.saturating_add(1),
            Outcome::Refused(why) => match why {
                DayFault::Larger(_) => self.larger = self.larger.saturating_add(1),
                DayFault::CannotOpen(unopened) => {
                    self.refused = self.refused.saturating_add(1);
                    self.unopened = self.unopened.or(Some(unopened));
                }
                DayFault::Listing
                | DayFault::NotShown
                | DayFault::Differs
                | DayFault::Changed
                | DayFault::Shrunk(_)
                | DayFault::Misplaced(_)
                | DayFault::Gone
                | DayFault::ClaimedByAnother
                | DayFault::Tool(_) => self.refused = self.refused.saturating_add(1),
            },
        }
        Ok(())
    }
}
