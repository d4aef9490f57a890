//! What judges records one after another by a report.
ghost use Rattle.std.specs.Prelude.{◌≡◌, ℕ, List, [], Ok, MatchOption, option_copied};
ghost use Rattle.msr_base.specs.Lengths.{bytes_of};
ghost use Rattle.msr_report.specs.declared.report.Report.{Report as Lines};
ghost use Rattle.msr_input.specs.declared.row_reader.NextRow.{NextRow as Told};
ghost use Rattle.msr_compare.specs.Seen.{AllSeen, first_following};
ghost use Rattle.msr_verdict.specs.Agreements.{HasJudged};
ghost use Rattle.msr_verdict.specs.Compared.{HasFullRow};
ghost use Rattle.msr_verdict.specs.Packed.{VerifyAnswers, settings_by};

use crate::agreement::Agreement;
use crate::verdict::Verdict;
use msr_base::Length;
use msr_compare::Observer;
use msr_input::{NextRecord, NextRow};
use msr_report::Report;
use std::alloc::{AllocError, Global};

/// The record's row, if it has one, and that length.
fn full_row(next: &NextRecord, record_length: Length) -> Option<&NextRow>
    ensures { MatchOption (option_copied result)
        ((row : Told) → HasFullRow (bytes_of record_length) next.now row → ⊥)
        (HasFullRow (bytes_of record_length) next.now) }
{
    let Some(row) = &next.row else {
        return None;
    };
    if next.length != record_length.bytes() {
        return None;
    }
    Some(row)
}

/// Sees the records of an input, and judges them by a report. It keeps the samples of a few records.
#[derive(Drop)]
pub(crate) struct Checker<'a> {
    report: &'a Report,
    agreement: Agreement,
}

impl Checker<'_> {
    /// Before the first record.
    pub(crate) fn new(alloc: Global, report: &Report) -> Checker<'_>
        ensures { HasJudged report.now result.report.now (first_following (settings_by report.now)) [] result.agreement }
    {
        Checker {
            report,
            agreement: Agreement::new(alloc),
        }
    }

    /// The verdict, when all records came.
    pub(crate) fn verdict(&mut self) -> Verdict
        ensures { (report : Lines) (input : List ℕ)
            → AllSeen (λ following records. HasJudged report self.old.report.now following records self.old.agreement)
            (settings_by report) input
            → VerifyAnswers report input (Ok result) }
    {
        self.agreement.end(self.report);
        self.agreement.verdict(self.report)
    }
}

impl Observer for Checker<'_> {
    ghost has_seen = { λ begun checker following records.
        HasJudged begun.report.now checker.report.now following records checker.agreement };

    fn is_watching(&self) -> bool {
        true
    }

    fn see(&mut self, next: &NextRecord) -> Result<(), AllocError> {
        let row = full_row(next, self.report.length);
        self.agreement.take(self.report, row)?;
        Ok(())
    }
}
