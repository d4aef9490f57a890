//! What was told so far, counted, and the last line.
ghost use Rattle.std.specs.Prelude.{◌≡◌, ◌++◌, ◌∷◌, [], List, IfErr, IfOk, OnOk, codes, false, true};
ghost use Rattle.std.specs.String.{string_bytes};
ghost use Rattle.msr_devices.specs.Device.{CanCountCall, IsCalm, Takes};
ghost use Rattle.msr_folders.specs.Visits.{StopsPrefix};
ghost use Rattle.msr_replace.specs.Entries.{ExchangeEntry, IsExchangeTally};
ghost use Rattle.msr_replace.specs.Sums.{count_kept, sum_text, sums_text, tally_line};

use crate::lines::Outcome;
use crate::words::{WORDS, Word};
use msr_devices::{DeviceFault, Sink, write_all};
use std::alloc::{AllocError, Global};

/// How many lines have each word, and the bytes of what was replaced.
#[derive(Clone, Copy)]
pub(crate) struct Tally {
    pub(crate) counts: [u64; WORDS],
    /// The bytes of the files that were replaced, and of the records that have their place.
    pub(crate) before: u64,
    pub(crate) after: u64,
    /// How many lines are to be looked at, and how many tell of days that are as they should be.
    pub(crate) unwell: u64,
    pub(crate) well: u64,
}

impl Tally {
    /// The tally before anything was told.
    pub(crate) fn new() -> Tally
        ensures { IsExchangeTally [] result }
    {
        Tally {
            counts: [0; WORDS],
            before: 0,
            after: 0,
            unwell: 0,
            well: 0,
        }
    }

    /// Counts one entry more.
    pub(crate) fn add(&mut self, outcome: Outcome)
        ensures { (before : List ExchangeEntry) (entry : ExchangeEntry) → IsExchangeTally before self.old
            → entry.outcome ≡ outcome → IsExchangeTally (before ++ entry ∷ []) self.new }
    {
        let word = outcome.word();
        let at = word.number();
        self.counts[at] = self.counts[at].saturating_add(1);
        self.before = self.before.saturating_add(outcome.before());
        self.after = self.after.saturating_add(outcome.after());
        self.unwell = self.unwell.saturating_add(u64::from(word.is_unwell()));
        self.well = self.well.saturating_add(u64::from(word.is_well()));
    }

    /// How many lines have that word.
    fn count(&self, word: Word) -> u64
        ensures { result ≡ count_kept self.now word }
    {
        self.counts[word.number()]
    }

    /// What the last line tells of a word.
    fn sum(&self, alloc: Global, word: Word) -> Result<String, AllocError>
        ensures { IfOk result (λ text. string_bytes text ≡ sum_text (count_kept self.now) word) }
    {
        let count = self.count(word);
        let word = word.text();
        format!(in alloc; " {word} {count}")
    }

    /// The last line up to its bytes.
    fn sums(&self, alloc: Global, words: &[Word]) -> Result<String, AllocError>
        ensures { IfOk result (λ text. string_bytes text ≡ codes "total" ++ sums_text (count_kept self.now) words.now) }
    {
        let mut line = String::from_str(alloc, "total")?;
        for word in words {
            line.push_str(self.sum(alloc, *word)?.as_str())?;
        }
        Ok(line)
    }

    /// The last line of a walk through ROOT.
    fn replace_line(&self, alloc: Global) -> Result<String, AllocError>
        ensures { IfOk result (λ line. string_bytes line ≡ tally_line false self.now) }
    {
        let sums = self.sums(alloc, &Word::OF_REPLACE)?;
        let (before, after) = (self.before, self.after);
        format!(in alloc; "{sums} bytes {before} {after}\n")
    }

    /// The last line of a walk through ASIDE.
    fn undo_line(&self, alloc: Global) -> Result<String, AllocError>
        ensures { IfOk result (λ line. string_bytes line ≡ tally_line true self.now) }
    {
        let sums = self.sums(alloc, &Word::OF_UNDO)?;
        format!(in alloc; "{sums}\n")
    }

    fn line(&self, alloc: Global, undo: bool) -> Result<String, AllocError>
        ensures { IfOk result (λ line. string_bytes line ≡ tally_line undo self.now) }
    {
        if undo {
            self.undo_line(alloc)
        } else {
            self.replace_line(alloc)
        }
    }

    /// Writes the last line.
    pub(crate) fn write<O: Sink>(
        &self,
        alloc: Global,
        undo: bool,
        out: &mut O,
    ) -> Result<(), DeviceFault>
        requires { CanCountCall (O.device out.old) }
        ensures all { OnOk result (Takes (O.device out.old) (O.device out.new) (tally_line undo self.now)) }
        ensures calm { OnOk result (IsCalm (O.device out.old) (O.device out.new)) }
        ensures stops { IfErr result (StopsPrefix (O.device out.old) (O.device out.new) (tally_line undo self.now)) }
    {
        let line = self.line(alloc, undo)?;
        write_all(out, line.as_bytes())?;
        Ok(())
    }
}
