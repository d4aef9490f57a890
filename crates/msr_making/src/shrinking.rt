//! Whether a day has fewer samples than an earlier walk left of it.
ghost use Rattle.std.specs.Prelude.{◌≡◌, ◌<◌, ◌≤◌, ℕ, IfErr, IfOk, IfSome, IsTrue, None, Some};
ghost use Rattle.msr_devices.specs.Device.{CanCountCall};
ghost use Rattle.msr_tree.specs.Calls.{Goes};
ghost use Rattle.msr_making.specs.Ending.{WasHeld, WritesHeld};
ghost use Rattle.msr_making.specs.Shrinking.{AsksForLeft, HoldsAgainst, IsStopOfReading, ReadsSamples, counts_repacked};
ghost use Rattle.msr_making.specs.Writing.{WasRepacked};

use crate::answer::{DayFault, Repacked, Shrinkage, Stop};
use crate::hold::Hold;
use crate::looks::DayLook;
use crate::parts::called;
use crate::repacking::samples_reported;
use crate::writing::write_day;
use msr_devices::Source;
use msr_naming::DayFiles;
use msr_options::{DayOptions, Side};
use msr_report_reader::{ReportFault, read_report};
use msr_tool::ToolFault;
use msr_tree::Tree;
use std::alloc::Global;

/// How many samples the report tells that a source has, if it has one.
fn samples_told<S: Source>(alloc: Global, source: &mut S) -> Result<Option<u64>, Stop>
    requires { CanCountCall (S.device source.old) }
    ensures stops { IfErr result IsStopOfReading }
    ensures reads { ReadsSamples (S.device source.old) result }
{
    match read_report(alloc, source) {
        Ok(report) => Ok(Some(samples_reported(&report))),
        Err(ReportFault::Line(_)) => Ok(None),
        Err(ReportFault::Read) => Err(Stop::Refused(DayFault::Tool(ToolFault::Read))),
        Err(ReportFault::Memory) => Err(Stop::Refused(DayFault::Tool(ToolFault::Memory))),
    }
}

/// How many samples a day has by the report of an earlier walk that stands beside its records, if what that left is to stay.
fn samples_left<T: Tree>(
    tree: &mut T,
    alloc: Global,
    files: &DayFiles,
    look: &DayLook,
    asked: &DayOptions,
) -> Result<Option<u64>, Stop>
    ensures asked { IfOk result (λ left. IfSome left (λ was. IsTrue asked.now.keep_old)) }
    ensures stops { IfErr result IsStopOfReading }
    ensures goes { Goes (T.went tree.old) (T.went tree.new) (AsksForLeft files.now look.now asked.now result) }
{
    if !asked.keep_old {
        return Ok(None);
    }
    if look.records.regular().is_none() {
        return Ok(None);
    }
    let Some(facts) = look.report.regular() else {
        return Ok(None);
    };
    let opened = tree.open_found(files.report.path.as_str(), &facts);
    let why = tree.reason();
    let mut source = called(Side::Report, opened, why)?;
    samples_told(alloc, &mut source)
}

/// How many samples an earlier walk left, if they are more than there are now.
fn more_left(left: Option<u64>, is: u64) -> Option<u64>
    ensures more { IfSome result (λ was. (left ≡ Some was) × (is < was)) }
    ensures rest { result ≡ None → (was : ℕ) → left ≡ Some was → was ≤ is }
{
    match left {
        Some(was) if is < was => Some(was),
        _ => None,
    }
}

/// The same answer of a day with these counts, unless it has fewer samples than an earlier walk left and that is to stay.
fn held_for<T: Tree>(
    tree: &mut T,
    alloc: Global,
    files: &DayFiles,
    look: &DayLook,
    asked: &DayOptions,
    repacked: Repacked,
    written: Result<Repacked, Stop>,
) -> Result<Repacked, Stop>
    requires { counts_repacked written ≡ Some repacked }
    ensures told { WasRepacked asked.now written → WasHeld asked.now result }
    ensures goes { Goes (T.went tree.old) (T.went tree.new) (HoldsAgainst files.now look.now asked.now written result) }
{
    let is = repacked.samples;
    let left = samples_left(tree, alloc, files, look, asked)?;
    match more_left(left, is) {
        Some(was) => Err(Stop::Refused(DayFault::Shrunk(Shrinkage { was, is }))),
        None => written,
    }
}

/// The counts of a day that was repacked.
fn counts_repacked(written: Result<Repacked, Stop>) -> Option<Repacked>
    ensures { result ≡ counts_repacked written }
{
    match written {
        Ok(repacked) => Some(repacked),
        Err(Stop::Refused(DayFault::Larger(repacked))) => Some(repacked),
        Err(_) => None,
    }
}

/// The same answer of what was written of a day, with the same exception.
fn held_against<T: Tree>(
    tree: &mut T,
    alloc: Global,
    files: &DayFiles,
    look: &DayLook,
    asked: &DayOptions,
    written: Result<Repacked, Stop>,
) -> Result<Repacked, Stop>
    ensures told { WasRepacked asked.now written → WasHeld asked.now result }
    ensures goes { Goes (T.went tree.old) (T.went tree.new) (HoldsAgainst files.now look.now asked.now written result) }
{
    match counts_repacked(written) {
        Some(repacked) => held_for(tree, alloc, files, look, asked, repacked, written),
        None => written,
    }
}

/// Writes what is made of a day beside its names, as `write_day` does. If what an earlier walk left is to stay, a day with
/// fewer samples is refused.
pub(crate) fn write_held<T: Tree, H: Hold>(
    tree: &mut T,
    alloc: Global,
    input: &str,
    look: &DayLook,
    files: &DayFiles,
    hold: &mut H,
    asked: &DayOptions,
) -> Result<Repacked, Stop>
    ensures told { WasHeld asked.now result }
    ensures goes { Goes (T.went tree.old) (T.went tree.new) (WritesHeld input.now look.now files.now asked.now result) }
{
    let written = write_day(tree, alloc, input, look.input, files, hold, asked);
    held_against(tree, alloc, files, look, asked, written)
}
