//! The task of a dry run: what repacking the days of an archive would give.
ghost use Rattle.msr_command.specs.Ends.{TriesArchive};
ghost use Rattle.msr_devices.specs.Device.{CanCountCall};

use crate::clock::time_of_now;
use crate::done::Done;
use crate::named::NamedFiles;
use crate::screen::watched_below;
use crate::task_fault::TaskFault;
use msr_devices::Sink;
use msr_options::Trying;
use msr_tree::Tree;
use msr_trial::trial;
use std::alloc::Global;
use std::time::Clock;

/// Tells it of each day.
fn try_archive<'a, C: Clock, T: Tree, O: Sink>(
    clock: &C,
    alloc: Global,
    tree: &mut T,
    asked: &Trying<'a>,
    output: &mut O,
) -> Result<Done, TaskFault<'a>>
    requires output { CanCountCall (O.device output.old) }
    ensures { TriesArchive (T.went tree.old) (T.went tree.new) asked.now (O.device output.old) (O.device output.new) result }
{
    let tried = trial(tree, alloc, &*asked, time_of_now(clock), output)?;
    Ok(Done::of_walk(tried.found, tried.unopened, asked.below.is_empty(), false))
}

/// The same of the files, and a person may see how far it is.
pub(crate) fn try_watched<'a, F: NamedFiles, O: Sink>(
    files: &mut F,
    alloc: Global,
    asked: &Trying<'a>,
    output: &mut O,
) -> Result<Done, TaskFault<'a>>
    requires output { CanCountCall (O.device output.old) }
    ensures { TriesArchive (F.went files.old) (F.went files.new) asked.now (O.device output.old) (O.device output.new) result }
{
    let watched = watched_below(asked.below.as_slice(), asked.root);
    let system = *files.system();
    let names = files.lend(alloc, watched);
    let tried = try_archive(&system, alloc, names, asked, output);
    files.clear();
    tried
}
