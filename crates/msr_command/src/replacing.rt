//! The task of replacing the days of an archive, and of putting their originals back.
ghost use Rattle.std.specs.Prelude.{◌≡◌, IsTrue};
ghost use Rattle.msr_devices.specs.Device.{CanCountCall};
ghost use Rattle.msr_command.specs.Ends.{EndsReplacing, ReplacesArchive, wants_replaced};
ghost use Rattle.msr_options.specs.Tasks.{AreApartFrom, StandApart};

use crate::clock::time_of_now;
use crate::done::Done;
use crate::locks::SystemLocks;
use crate::named::NamedFiles;
use crate::preparing::{Prepared, prepare_folders};
use crate::task_fault::TaskFault;
use msr_devices::{DeviceFault, Sink};
use msr_folders::{LockFile, WalkFound};
use msr_options::Replacing;
use msr_replace::replace;
use msr_tree::Tree;
use std::alloc::Global;
use std::io;
use std::rt::Files;

/// Whether by their names, too, none of the folders is another or stands below it.
fn stand_apart(asked: &Replacing<'_>) -> bool
    ensures apart { IsTrue result → StandApart asked.now.folders }
    ensures aside { IsTrue result → AreApartFrom asked.now.aside.now asked.now.folders }
{
    asked.folders.stand_apart() && asked.folders.are_apart_from(asked.aside)
}

/// Whether there has to be a day.
fn wants_day(asked: &Replacing<'_>) -> bool
    ensures { result ≡ wants_replaced asked.now }
{
    asked.below.is_empty() && !asked.undo
}

/// What a walk ends with that replaced the days of an archive, or put their originals back; its tree failed at that path
/// for that reason, if it did.
fn done_of_replacing<'a>(
    asked: &Replacing<'a>,
    found: Result<WalkFound, DeviceFault>,
    failed: Option<String>,
    why: Option<io::Error>,
) -> Result<Done, TaskFault<'a>>
    ensures { EndsReplacing asked.now failed found result }
{
    let found = match found {
        Ok(found) => found,
        Err(fault) => return Err(TaskFault::Tool(fault.into())),
    };
    match failed {
        Some(path) => Err(TaskFault::Failed(path, why)),
        None => Ok(Done::of_walk(found, None, wants_day(asked), true)),
    }
}

/// Replaces the days of the archive, or puts their originals back, and tells them. A day's file and its records may be one
/// file with both names.
fn replace_days<'a, F: NamedFiles, O: Sink>(
    rt: &F::System,
    alloc: Global,
    tree: &mut F::Names,
    asked: &Replacing<'a>,
    _prepared: Prepared,
    output: &mut O,
) -> Result<Done, TaskFault<'a>>
where
    <F::System as Files>::File: LockFile,
    requires apart { StandApart asked.now.folders }
    requires aside { AreApartFrom asked.now.aside.now asked.now.folders }
    requires output { CanCountCall (O.device output.old) }
    ensures { ReplacesArchive (F.Names.went tree.old) (F.Names.went tree.new) asked.now
        (O.device output.old) (O.device output.new) result }
{
    let locks = SystemLocks { rt };
    let replaced = replace(&locks, alloc, tree, asked, time_of_now(rt), output);
    let why = tree.reason();
    done_of_replacing(asked, replaced.found, replaced.failed, why)
}

/// The same of the files, if none of the folders overlap and those are there that have to be.
pub(crate) fn replace_archive<'a, F: NamedFiles, O: Sink>(
    files: &mut F,
    alloc: Global,
    asked: &Replacing<'a>,
    output: &mut O,
) -> Result<Done, TaskFault<'a>>
where
    <F::System as Files>::File: LockFile,
    requires output { CanCountCall (O.device output.old) }
    ensures { ReplacesArchive (F.went files.old) (F.went files.new) asked.now (O.device output.old) (O.device output.new) result }
{
    if !stand_apart(asked) {
        return Err(TaskFault::Overlap);
    }
    let system = *files.system();
    let prepared = prepare_folders(&system, alloc, asked)?;
    let names = files.lend(alloc, None);
    replace_days::<F, O>(&system, alloc, names, asked, prepared, output)
}
