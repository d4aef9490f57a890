//! Agreement segments with the lines of a report, one after another.
ghost use Rattle.std.specs.Prelude.{◌≡◌, ◌↔◌, IsTrue};
ghost use Rattle.msr_verdict.specs.Compared.{IsLineAt, separators_at};
ghost use Rattle.msr_verdict.specs.Packed.{form_by};

use crate::verdict::Verdict;
use msr_base::Form;
use msr_check::Judge;
use msr_input::NextRow;
use msr_report::Report;
use msr_rows::Row;
use msr_segments::Step;
use std::alloc::{AllocError, Global};
use std::marker::Model;

/// Whether the line at that place is of a segment that begins with the row, and has as many records as separators.
fn is_line_of(report: &Report, place: usize, row: &Row) -> bool
    ensures { IsTrue result ↔ IsLineAt report.now.segments.items place row.now.key row.now.start }
{
    let Some(line) = report.segments.get(place) else {
        return false;
    };
    line.key == row.key && line.start == row.start && line.records == line.separators.len() as u64
}

/// The separators of the line at that place, none if there is no line.
fn separators_at(report: &Report, place: usize) -> &[u64]
    ensures { result.now ≡ separators_at report.now.segments.items place }
{
    match report.segments.get(place) {
        Some(line) => line.separators.as_slice(),
        None => &[],
    }
}

/// The form of the records that the report speaks of.
fn form_by(report: &Report) -> Form
    ensures { result ≡ form_by report.now }
{
    Form {
        length: report.length,
        kinds: report.kinds,
    }
}

/// How far the segments agree with the lines of one report. Of the open segment it keeps what a judge of its runs does,
/// and nothing once a segment or a record disagreed.
#[derive(Drop)]
pub(crate) struct Agreement {
    place: usize,
    is_open: bool,
    judge: Judge,
    agrees: bool,
}

impl Model for Agreement {
    ghost use Rattle.msr_verdict.specs.Compared.{Compared};

    ghost Value = { Compared };

    ghost view = { λ c. record { place = c.place; is_open = c.is_open; judged = c.judge; agrees = c.agrees } };
}

impl Agreement {
    ghost use Rattle.std.specs.Prelude.{◌≡◌, ◌↔◌, ℕ, List, [], length, true, false, OnOk, IsTrue, option_copied, ◌+◌, ◌<◌, ◌^◌};
    ghost use Rattle.msr_words.specs.Fit.{Records, records_of};
    ghost use Rattle.msr_words.specs.declared.kinds.Run.{Run as WordRun};
    ghost use Rattle.msr_check.specs.Judged.{Judges};
    ghost use Rattle.msr_segments.specs.declared.joiner.Segment.{Segment};
    ghost use Rattle.msr_verdict.specs.Compared.{AddsRow, ComparesEnded, IsLineAt, IsShownAt, OpensBy, TakesRecord};

    /// The state before the first record.
    pub(crate) fn new(alloc: Global) -> Agreement
        ensures place { result.place ≡ 0 }
        ensures is_open { result.is_open ≡ false }
        ensures judged { (records : Records) (separators : List ℕ) → Judges records [] [] separators result.judged }
        ensures agrees { result.agrees ≡ true }
    {
        Agreement {
            place: 0,
            is_open: false,
            judge: Judge::new(alloc),
            agrees: true,
        }
    }

    /// Whether the open segment, of which the line at its place is, is shown by that line, if no row follows.
    fn is_shown(&self, report: &Report) -> bool
        ensures shown { (segment : Segment) (runs : List WordRun)
            → IsLineAt report.now.segments.items self.now.place segment.key segment.start
            → Judges (records_of (form_by report.now)) segment.samples runs
            (separators_at report.now.segments.items self.now.place) self.now.judged
            → IsTrue result ↔ IsShownAt (form_by report.now) report.now.segments.items self.now.place segment runs }
        ensures counted { IsTrue result → self.now.place + 1 < 2 ^ 64 }
    {
        let Some(line) = report.segments.get(self.place) else {
            return false;
        };
        self.judge
            .shows_least(form_by(report), line.separators.as_slice(), line.samples)
    }

    /// Compares the open segment, if there is one, with its line: it has ended.
    pub(crate) fn end(&mut self, report: &Report)
        ensures { ComparesEnded
            (form_by report.now) report.now.segments.items self.old.is_open self.old self.new }
    {
        if !self.is_open {
            return;
        }
        self.agrees = self.agrees && self.is_shown(report);
        self.place = self.place.saturating_add(1);
        self.is_open = false;
        self.judge.begin();
    }

    /// Opens a segment with the row if none is open. If the line at its place is not of that segment, it disagrees before
    /// a sample is judged.
    fn open_by(&mut self, report: &Report, row: &Row)
        ensures { OpensBy report.now.segments.items self.old row.now self.new }
    {
        if self.is_open {
            return;
        }
        self.is_open = true;
        self.agrees = self.agrees && is_line_of(report, self.place, row);
    }

    /// Adds a row to the open segment, or opens one with it.
    fn add(&mut self, report: &Report, row: &Row) -> Result<(), AllocError>
        ensures { OnOk result (AddsRow
            (form_by report.now) report.now.segments.items self.old row.now self.new) }
    {
        self.open_by(report, row);
        if !self.agrees {
            return Ok(());
        }
        self.judge.push(
            row.samples.as_slice(),
            row.kind,
            form_by(report),
            separators_at(report, self.place),
        )
    }

    /// Takes the row of the next record, `None` for a record that agrees with no report.
    pub(crate) fn take(&mut self, report: &Report, row: Option<&NextRow>) -> Result<(), AllocError>
        ensures { OnOk result (TakesRecord
            (form_by report.now) report.now.segments.items self.old (option_copied row.entry) self.new) }
    {
        let Some(next) = row else {
            self.agrees = false;
            self.is_open = false;
            self.judge.begin();
            return Ok(());
        };
        if next.step == Step::Begins {
            self.end(report);
        }
        self.add(report, &next.row)
    }

    /// The verdict, when the last segment was compared.
    pub(crate) fn verdict(&self, report: &Report) -> Verdict
        ensures { (result ≡ Verdict.Least) ↔ ((self.now.agrees ≡ true)
            × (self.now.place ≡ length report.now.segments.items)) }
    {
        if self.agrees && self.place == report.segments.len() {
            Verdict::Least
        } else {
            Verdict::NotShown
        }
    }
}
