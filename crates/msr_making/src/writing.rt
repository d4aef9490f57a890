//! A day is repacked from its file to records and report, beside their names.
ghost use Rattle.std.specs.Prelude.{IfErr};
ghost use Rattle.msr_devices.specs.Device.{CanCountCall};
ghost use Rattle.msr_options.specs.declared.hint.Side.TheVariants.{File};
ghost use Rattle.msr_tree.specs.Calls.{Goes};
ghost use Rattle.msr_making.specs.Parts.{IsUnopened};
ghost use Rattle.msr_making.specs.Writing.{RefusesNothing, RepacksParts, WasRepacked, WritesDay, WritesFrom};

use crate::answer::{DayFault, Repacked, Stop};
use crate::hold::Hold;
use crate::looks::Sight;
use crate::parts::{Parts, begin, finish};
use crate::repacking::repack_placed;
use crate::verifying::{open_again, open_own};
use msr_devices::{Sink, Source};
use msr_naming::DayFiles;
use msr_options::{DayOptions, Side, Unopened};
use msr_tool::ToolFault;
use msr_tree::{Tree, TreeFault};
use std::alloc::Global;

/// Repacks what a source has. If only what gets smaller is kept, it has to.
fn repack_to<S: Source, W: Sink>(
    alloc: Global,
    source: &mut S,
    bytes_read: u64,
    parts: &mut Parts<W>,
    asked: &DayOptions,
) -> Result<Repacked, Stop>
    requires source { CanCountCall (S.device source.old) }
    requires records { CanCountCall (W.device parts.old.records) }
    requires report { CanCountCall (W.device parts.old.report) }
    ensures told { WasRepacked asked.now result }
    ensures goes { RepacksParts asked.now bytes_read (S.device source.old) (W.device parts.old.records) (W.device parts.new.records)
        (W.device parts.old.report) (W.device parts.new.report) result }
{
    let repacked = match repack_placed(
        alloc,
        source,
        bytes_read,
        &mut parts.records,
        &mut parts.report,
        asked,
    ) {
        Ok(repacked) => repacked,
        Err(why) => return Err(Stop::Refused(why)),
    };
    if asked.only_smaller && repacked.bytes_read <= repacked.bytes_written {
        return Err(Stop::Refused(DayFault::Larger(repacked)));
    }
    Ok(repacked)
}

/// Repacks what a source has to records and report, beside their names.
fn write_from<T: Tree, S: Source, H: Hold>(
    tree: &mut T,
    alloc: Global,
    source: &mut S,
    bytes_read: u64,
    files: &DayFiles,
    hold: &mut H,
    asked: &DayOptions,
) -> Result<Repacked, Stop>
    requires { CanCountCall (S.device source.old) }
    ensures told { WasRepacked asked.now result }
    ensures goes { Goes (T.went tree.old) (T.went tree.new) (WritesFrom (S.device source.old) files.now asked.now bytes_read result) }
{
    let mut parts = begin(tree, files, hold)?;
    let repacked = repack_to(alloc, source, bytes_read, &mut parts, asked)?;
    match finish(tree, files, parts) {
        Ok(()) => Ok(repacked),
        Err(TreeFault::Failed) => Err(Stop::Refused(DayFault::Tool(ToolFault::Write))),
        Err(TreeFault::Memory) => Err(Stop::Memory),
    }
}

/// Repacks the day's own file, of which a look told, to records and report, beside their names. It is opened before any file
/// is made.
pub(crate) fn write_day<T: Tree, H: Hold>(
    tree: &mut T,
    alloc: Global,
    input: &str,
    sight: Sight,
    files: &DayFiles,
    hold: &mut H,
    asked: &DayOptions,
) -> Result<Repacked, Stop>
    ensures told { WasRepacked asked.now result }
    ensures goes { Goes (T.went tree.old) (T.went tree.new) (WritesDay input.now sight files.now asked.now result) }
{
    let Sight::Found(facts) = sight else {
        return Err(refuse_nothing(tree, input));
    };
    let mut source = open_own(tree, input, &facts)?;
    write_from(tree, alloc, &mut source, facts.bytes, files, hold, asked)
}

/// Why a file is not opened that a look did not find.
fn refuse_nothing<T: Tree>(tree: &mut T, input: &str) -> Stop
    ensures refuses { IsUnopened File result }
    ensures goes { Goes (T.went tree.old) (T.went tree.new) (RefusesNothing input.now result) }
{
    match open_again(tree, Side::File, input) {
        Ok(_) => {
            let why = None;
            let side = Side::File;
            Stop::Refused(DayFault::CannotOpen(Unopened { side, why }))
        }
        Err(stop) => stop,
    }
}
