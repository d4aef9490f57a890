//! The folders of an archive whose days are to be replaced, before anything is done.
ghost use Rattle.std.specs.Prelude.{IfErr};
ghost use Rattle.msr_command.specs.Ends.{IsOverlapOrMemory, IsUnbegun};

use crate::files::{make_folder, require_folder};
use crate::task_fault::TaskFault;
use crate::tasks::require_apart;
use msr_folders::{is_gone, join};
use msr_options::{Folders, Replacing};
use std::alloc::Global;
use std::rt::Files;

/// None of the folders overlap, by whatever names, and those are there that have to be. Only `prepare_folders` tells it.
#[derive(Drop)]
pub(crate) struct Prepared(());

/// None of the folders of an archive is another or stands below it, by whatever names, that of its originals among them.
fn require_all_apart<'a, R: Files>(
    rt: &R,
    alloc: Global,
    asked: &Replacing<'a>,
) -> Result<(), TaskFault<'a>>
    ensures { IfErr result IsOverlapOrMemory }
{
    let Folders { root, out, reports } = asked.folders;
    require_apart(rt, alloc, root, out, reports)?;
    require_apart(rt, alloc, asked.aside, out, reports)?;
    require_apart(rt, alloc, asked.aside, root, reports)
}

/// Whether something stands below a folder that is walked.
fn is_asked_for<R: Files>(rt: &R, alloc: Global, walked: &str, folder: &str) -> bool {
    match join(alloc, walked, folder) {
        Ok(place) => !is_gone(rt, place.as_str()),
        Err(_) => true,
    }
}

/// Whether there may be a day below the folders that are asked for.
fn may_have_days<R: Files>(rt: &R, alloc: Global, walked: &str, below: &[&str]) -> bool {
    for folder in below {
        if is_asked_for(rt, alloc, walked, folder) {
            return true;
        }
    }
    below.is_empty()
}

/// None of the folders overlap, and those that have to be there are folders. The one that gets files is made, if it is
/// missing, and stored, unless there is no day.
pub(crate) fn prepare_folders<'a, R: Files>(
    rt: &R,
    alloc: Global,
    asked: &Replacing<'a>,
) -> Result<Prepared, TaskFault<'a>>
    ensures { IfErr result IsUnbegun }
{
    require_all_apart(rt, alloc, asked)?;
    require_folder(rt, asked.folders.root)?;
    let (walked, made) = if asked.undo {
        require_folder(rt, asked.aside)?;
        (asked.aside, asked.folders.out)
    } else {
        (asked.folders.root, asked.aside)
    };
    if !may_have_days(rt, alloc, walked, asked.below.as_slice()) {
        return Ok(Prepared(()));
    }
    make_folder(rt, alloc, made)?;
    Ok(Prepared(()))
}
