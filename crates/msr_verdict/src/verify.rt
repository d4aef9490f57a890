//! Reading packed records beside their report.
ghost use Rattle.std.specs.Prelude.{◌≡◌, ◌↔◌, ◌≤◌, ℕ, List, [], IsErrOf};
ghost use Rattle.msr_devices.specs.Device.{CanCountCall, CountsFew, HasFailed, HasLeft};
ghost use Rattle.msr_input.specs.Rows.{HasReadRows, row_settings};
ghost use Rattle.msr_verdict.specs.Agreements.{HasJudged};
ghost use Rattle.msr_verdict.specs.Beside.{BesideAnswers, beside_answer};
ghost use Rattle.msr_verdict.specs.Packed.{VerifyAnswers, settings_by};

use crate::checker::Checker;
use crate::verdict::Verdict;
use msr_compare::{CompareFault, Comparison, Observer, compare_observed};
use msr_devices::Source;
use msr_input::{ReadFault, RowReader, Settings};
use msr_report::Report;
use std::alloc::Global;

/// How the records that the report speaks of are read: with its tolerance, and not strictly.
fn settings_by(report: &Report) -> Settings
    ensures { result ≡ settings_by report.now }
{
    Settings {
        tolerance: report.tolerance,
        strict: false,
    }
}

/// Reads all records of the source, and says whether the report shows that each of their segments stands in the
/// fewest records of its form. Of the input it keeps the samples of a few records.
///
/// A reverse constant that does not agree refuses no record: strict reading is asked for when an input is repacked.
/// The counts of the report are of another input, the one that was packed, and are not looked at.
pub fn verify_packed<R: Source>(
    alloc: Global,
    source: &mut R,
    report: &Report,
) -> Result<Verdict, ReadFault>
    requires count { CanCountCall (R.device source.old) }
    requires tolerance { (1 ≤ report.now.tolerance) × (report.now.tolerance ≤ 1_000_000) }

    // What is answered, for the bytes that the source has.
    ensures answer { (input : List ℕ) × HasLeft (R.device source.old) input × VerifyAnswers report.now input result }

    // A failure of the source is answered as such, and nothing else is.
    ensures read { IsErrOf result ReadFault.Read ↔ HasFailed (R.device source.old) (R.device source.new) }
    ensures few { CountsFew (R.device source.old) (R.device source.new) }
{
    let mut reader = RowReader::new(alloc, settings_by(report));
    let mut checker = Checker::new(alloc, report);
    verify_records(source, &mut reader, &mut checker)
}

/// Verifies with a reader and a checker that are new. They are lent, so that each is dropped at one place.
fn verify_records<R: Source>(
    source: &mut R,
    reader: &mut RowReader,
    checker: &mut Checker<'_>,
) -> Result<Verdict, ReadFault>
    requires count { CanCountCall (R.device source.old) }
    requires reader { HasReadRows (R.device source.old) (R.device source.old) reader.old [] []
        × (row_settings reader.old ≡ settings_by checker.old.report.now) }
    requires checker { HasJudged checker.old.report.now checker.old.report.now reader.old.following [] checker.old.agreement }
    ensures { ((input : List ℕ) × HasLeft (R.device source.old) input
        × VerifyAnswers checker.old.report.now input result)
        × (IsErrOf result ReadFault.Read ↔ HasFailed (R.device source.old) (R.device source.new))
        × CountsFew (R.device source.old) (R.device source.new) }
{
    'records: while let Some(next) = reader.next_record(source)? {
        let Ok(()) = checker.see(&next) else {
            return Err(ReadFault::Memory);
        };
        reader.give_back(next);
    }
    Ok(checker.verdict())
}

/// What is answered if the report does not show it, and reading the other input stopped so.
fn not_shown_beside(why: ReadFault) -> Result<Option<Comparison>, CompareFault>
    ensures { result ≡ beside_answer Verdict.NotShown (Err (CompareFault.Other why)) }
{
    match why {
        ReadFault::Input(_) => Ok(None),
        ReadFault::Read => Err(CompareFault::Other(ReadFault::Read)),
        ReadFault::Memory => Err(CompareFault::Other(ReadFault::Memory)),
    }
}

/// What is answered of packed records beside another input, if it was compared with them so.
fn beside_answer(
    verdict: Verdict,
    compared: Result<Comparison, CompareFault>,
) -> Result<Option<Comparison>, CompareFault>
    ensures { result ≡ beside_answer verdict compared }
{
    match verdict {
        Verdict::Least => match compared {
            Ok(comparison) => Ok(Some(comparison)),
            Err(why) => Err(why),
        },
        Verdict::NotShown => match compared {
            Ok(_) => Ok(None),
            Err(CompareFault::One(why)) => Err(CompareFault::One(why)),
            Err(CompareFault::Other(why)) => not_shown_beside(why),
        },
    }
}

/// Reads packed records and another input side by side, each once: if the report shows that each segment of the records
/// stands in the fewest, whether both have the same segments, joined with the report's tolerance; else `None`. A fault of
/// the records comes first, then what the report does not show, then a fault of the other input, then a difference. Each
/// record is judged before it is compared, so what was shown is what was compared.
pub fn verify_beside<P: Source, F: Source>(
    alloc: Global,
    packed: &mut P,
    beside: &mut F,
    report: &Report,
) -> Result<Option<Comparison>, CompareFault>
    requires packed { CanCountCall (P.device packed.old) }
    requires beside { CanCountCall (F.device beside.old) }
    requires tolerance { (1 ≤ report.now.tolerance) × (report.now.tolerance ≤ 1_000_000) }

    // What is answered, for the bytes that the sources have.
    ensures answer { (records : List ℕ) × (other : List ℕ) × HasLeft (P.device packed.old) records
        × HasLeft (F.device beside.old) other × BesideAnswers report.now records other result }

    // A failure of a source is answered as such, and nothing else is.
    ensures read_packed { IsErrOf result (CompareFault.One ReadFault.Read)
        ↔ HasFailed (P.device packed.old) (P.device packed.new) }
    ensures read_beside { IsErrOf result (CompareFault.Other ReadFault.Read)
        ↔ HasFailed (F.device beside.old) (F.device beside.new) }
    ensures few_packed { CountsFew (P.device packed.old) (P.device packed.new) }
    ensures few_beside { CountsFew (F.device beside.old) (F.device beside.new) }
{
    let mut checker = Checker::new(alloc, report);
    let compared = compare_observed(alloc, packed, beside, settings_by(report), &mut checker);
    beside_answer(checker.verdict(), compared)
}
