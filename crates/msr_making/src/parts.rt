//! Records and report of a day, beside their names.
ghost use Rattle.std.specs.Prelude.{◌≡◌, ◌∷◌, [], IfErr, IfOk};
ghost use Rattle.msr_devices.specs.Device.{CanCountCall};
ghost use Rattle.msr_tree.specs.Folders.{ActsOnFiles};
ghost use Rattle.msr_tree.specs.Calls.{Goes};
ghost use Rattle.msr_naming.specs.Making.{IsBegun};
ghost use Rattle.msr_making.specs.Parts.{AreBegun, AreFinished, IsUnmade, IsUnopened, called_told, part_paths};

use crate::answer::{DayFault, Stop};
use crate::hold::Hold;
use msr_devices::Sink;
use msr_naming::{DayFiles, NewName};
use msr_options::{Side, Unopened};
use msr_tree::{Tree, TreeFault};
use std::io;

/// Records and report that are in their making.
#[derive(Drop)]
pub(crate) struct Parts<W> {
    pub(crate) records: W,
    pub(crate) report: W,
}

/// What a call answers that was to open or make one of the day's files, and the system's reason.
pub(crate) fn called<V>(
    side: Side,
    answer: Result<V, TreeFault>,
    why: Option<io::Error>,
) -> Result<V, Stop>
    ensures told { called_told result ≡ answer }
    ensures refuses { IfErr result (IsUnopened side) }
{
    match answer {
        Ok(value) => Ok(value),
        Err(TreeFault::Failed) => Err(Stop::Refused(DayFault::CannotOpen(Unopened { side, why }))),
        Err(TreeFault::Memory) => Err(Stop::Memory),
    }
}

/// Makes a file beside its name.
fn make_part<T: Tree>(tree: &mut T, side: Side, path: &str) -> Result<T::Writer, Stop>
    ensures count { IfOk result (λ writer. CanCountCall (T.Writer.device writer)) }
    ensures refuses { IfErr result (IsUnopened side) }
    ensures goes { Goes (T.went tree.old) (T.went tree.new)
        (ActsOnFiles (path.now ∷ []) (IsBegun (λ writer. T.Writer.device writer)) (called_told result)) }
{
    let made = tree.make(path);
    let why = tree.reason();
    called(side, made, why)
}

/// The same. What stands there was left by a walk that was killed and had the same number, and is removed: no file that is
/// there is written to.
pub(crate) fn begin_part<T: Tree>(
    tree: &mut T,
    side: Side,
    name: &NewName,
) -> Result<T::Writer, Stop>
    ensures count { IfOk result (λ writer. CanCountCall (T.Writer.device writer)) }
    ensures refuses { IfErr result (IsUnopened side) }
    ensures goes { Goes (T.went tree.old) (T.went tree.new)
        (ActsOnFiles (name.now.part ∷ []) (IsBegun (λ writer. T.Writer.device writer)) (called_told result)) }
{
    let path = name.part.as_str();
    if let Ok(writer) = make_part(tree, side, path) {
        return Ok(writer);
    }
    let _ = tree.remove(path);
    make_part(tree, side, path)
}

/// Begins the files of a day, beside their names.
pub(crate) fn begin<T: Tree, H: Hold>(
    tree: &mut T,
    files: &DayFiles,
    hold: &mut H,
) -> Result<Parts<T::Writer>, Stop>
    ensures count { IfOk result (λ parts. CanCountCall (T.Writer.device parts.records) × CanCountCall (T.Writer.device parts.report)) }
    ensures refuses { IfErr result IsUnmade }
    ensures goes { Goes (T.went tree.old) (T.went tree.new)
        (ActsOnFiles (part_paths files.now) (AreBegun (λ writer. T.Writer.device writer)) (called_told result)) }
{
    let records = begin_part(tree, Side::Records, &files.records)?;
    hold.make_folder();
    let report = begin_part(tree, Side::Report, &files.report)?;
    Ok(Parts { records, report })
}

/// They have what their writers took, and it is on the disk.
pub(crate) fn finish<T: Tree>(
    tree: &mut T,
    files: &DayFiles,
    parts: Parts<T::Writer>,
) -> Result<(), TreeFault>
    ensures { Goes (T.went tree.old) (T.went tree.new)
        (ActsOnFiles (part_paths files.now) (AreFinished files.now (T.Writer.device parts.records) (T.Writer.device parts.report)) result) }
{
    let Parts { records, report } = parts;
    tree.finish_stored(files.records.part.as_str(), records)?;
    tree.finish_stored(files.report.part.as_str(), report)
}
