//! A stamp is written.
ghost use Rattle.std.specs.Prelude.{◌∷◌, [], IfOk};
ghost use Rattle.msr_devices.specs.Device.{CanCountCall};
ghost use Rattle.msr_tree.specs.Calls.{Goes};
ghost use Rattle.msr_tree.specs.Folders.{ActsOnFiles};
ghost use Rattle.msr_naming.specs.Making.{IsBegun, WritesText};
ghost use Rattle.msr_naming.specs.Stamp.{stamp_text};

use crate::stamp::{Stamp, StampOf};
use msr_devices::write_all;
use msr_tree::{Tree, TreeFault};
use std::alloc::Global;

/// Makes a file under a name that nothing has.
fn make_file<T: Tree>(tree: &mut T, path: &str) -> Result<T::Writer, TreeFault>
    ensures count { IfOk result (λ writer. CanCountCall (T.Writer.device writer)) }
    ensures goes { Goes (T.went tree.old) (T.went tree.new)
        (ActsOnFiles (path.now ∷ []) (IsBegun (λ writer. T.Writer.device writer)) result) }
{
    tree.make(path)
}

/// The same. What stands there was left by a run that was killed, and is removed: no file that is there is written to.
fn begin<T: Tree>(tree: &mut T, path: &str) -> Result<T::Writer, TreeFault>
    ensures count { IfOk result (λ writer. CanCountCall (T.Writer.device writer)) }
    ensures goes { Goes (T.went tree.old) (T.went tree.new)
        (ActsOnFiles (path.now ∷ []) (IsBegun (λ writer. T.Writer.device writer)) result) }
{
    if let Ok(writer) = make_file(tree, path) {
        return Ok(writer);
    }
    let _ = tree.remove(path);
    make_file(tree, path)
}

/// Writes a stamp, and tells whether it is on the disk.
pub fn write_stamp<T: Tree>(
    tree: &mut T,
    alloc: Global,
    path: &str,
    of: StampOf,
    stamp: Stamp,
) -> bool
    ensures { Goes (T.went tree.old) (T.went tree.new) (WritesText path.now (stamp_text of stamp) result) }
{
    let Ok(text) = stamp.text(alloc, of) else {
        return false;
    };
    let Ok(mut writer) = begin(tree, path) else {
        return false;
    };
    if write_all(&mut writer, text.as_bytes()).is_err() {
        return false;
    }
    tree.finish_stored(path, writer).is_ok()
}
