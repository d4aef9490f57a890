//! The tasks of the program, over the system's files, and any source and sink in place of standard input and output.
ghost use Rattle.std.specs.Prelude.{IfErr};
ghost use Rattle.msr_devices.specs.Device.{CanCountCall, Takes};
ghost use Rattle.msr_command.specs.Ends.{Checks, Does, EndsClosed, Feeds, FeedsTo, IsOverlapOrMemory, Lists, ListsNamed, OpensOutput, Repacks, RepacksNamed, Settles, VerifiesArchive, WalksArchive, IsArchivingRead, IsVerifyingRead, VerifiesKnown, WalksKnown};
ghost use Rattle.msr_command.specs.Named.{GetsOutput};
ghost use Rattle.msr_options.specs.Tasks.{StandApart};

use crate::clock::time_of_now;
use crate::comparing::compare_files;
use crate::done::Done;
use crate::files::{create_output, create_report, open_file, open_input, settle_standard_output};
use crate::known::read_known;
use crate::named::NamedFiles;
use crate::replacing::replace_archive;
use crate::screen::watched_below;
use crate::task_fault::TaskFault;
use crate::trying::try_watched;
use crate::turns::is_in_turns;
use msr_devices::{FromWrite, Sink, Source};
use msr_folders::{FileId, LockFile, WalkFound, folders_overlap};
use msr_options::{
    Archiving, Checking, Feeding, Folders, Known, ListForm, Listing, Options, Repacking, Task,
    Verifying,
};
use msr_tool::{ToolFault, check_and_tell, feed_and_report, list_segments, repack_and_report};
use msr_tree::Tree;
use msr_verify::verify;
use msr_walk::{SystemClaims, Walked, walk};
use std::alloc::Global;
use std::io;
use std::rt::Files;
use std::time::Clock;

/// Does what was asked for: reads files, and `input` if a name is `-`; writes files, and prints to `output`.
pub(crate) fn do_task<'a, F: NamedFiles, I: Source, O: Sink>(
    files: &mut F,
    alloc: Global,
    task: &Task<'a>,
    input: &mut I,
    output: &mut O,
) -> Result<Done, TaskFault<'a>>
where
    <F::System as Files>::File: LockFile,
    requires input { CanCountCall (I.device input.old) }
    requires output { CanCountCall (O.device output.old) }
    ensures { Does (F.went files.old) (F.went files.new) task.now (I.device input.old)
        (O.device output.old) (O.device output.new) result }
{
    let Ok(()) = require_open(output) else {
        return Err(end_closed(files, task));
    };
    let done = do_open(files, alloc, task, input, output)?;
    if !matches!(task, Task::Feed(_)) {
        settle_standard_output(files.system())?;
    }
    Ok(done)
}

/// Does it when standard output is open.
fn do_open<'a, F: NamedFiles, I: Source, O: Sink>(
    files: &mut F,
    alloc: Global,
    task: &Task<'a>,
    input: &mut I,
    output: &mut O,
) -> Result<Done, TaskFault<'a>>
where
    <F::System as Files>::File: LockFile,
    requires input { CanCountCall (I.device input.old) }
    requires output { CanCountCall (O.device output.old) }
    ensures { Does (F.went files.old) (F.went files.new) task.now (I.device input.old)
        (O.device output.old) (O.device output.new) result }
{
    match task {
        Task::Repack(asked) => repack_file(files, alloc, asked, input, output),
        Task::List(asked) => list_file(files, alloc, asked, input, output),
        Task::Check(asked) => check_files(files, alloc, asked, output),
        Task::Compare(asked) => compare_files(files, alloc, asked, input, output),
        Task::Archive(asked) => repack_archive(files, alloc, asked, output),
        Task::Trial(asked) => try_watched(files, alloc, asked, output),
        Task::Verify(asked) => verify_archive(files, alloc, asked, output),
        Task::Replace(asked) => replace_archive(files, alloc, asked, output),
        Task::Feed(asked) => feed_input(files, alloc, asked, input, output),
    }
}

/// If standard output is closed nothing can be printed, and a file that is made would get the text in its place.
fn require_open<'a, O: Sink>(output: &mut O) -> Result<(), TaskFault<'a>>
    requires { CanCountCall (O.device output.old) }
    ensures { OpensOutput (O.device output.old) (O.device output.new) result }
{
    match output.write(&[]) {
        Ok(_) => Ok(()),
        Err(_) => Err(TaskFault::Closed),
    }
}

/// What a task ends with if nothing can be printed. The report of a feed is cut even then: an old one would tell that
/// the feed ended well. What is printed goes to descriptor 1, and if that is closed, the report's file gets it. So this
/// comes last: the file is closed again with nothing in it, and nothing is printed any more.
fn end_closed<'a, F: NamedFiles>(files: &mut F, task: &Task<'a>) -> TaskFault<'a>
    ensures { EndsClosed (F.went files.old) (F.went files.new) task.now result }
{
    let Task::Feed(asked) = task else {
        return TaskFault::Closed;
    };
    match create_report(files, asked.report) {
        Ok(_) => TaskFault::Closed,
        Err(fault) => fault,
    }
}

/// Opens the input before the output is made, so that a wrong input leaves an old output as it is.
fn repack_file<'a, F: NamedFiles, I: Source, O: Sink>(
    files: &mut F,
    alloc: Global,
    asked: &Repacking<'a>,
    input: &mut I,
    output: &mut O,
) -> Result<Done, TaskFault<'a>>
    requires input { CanCountCall (I.device input.old) }
    requires output { CanCountCall (O.device output.old) }
    ensures { RepacksNamed (F.went files.old) (F.went files.new) asked.now
        (I.device input.old) (O.device output.old) (O.device output.new) result }
{
    let (options, to) = (asked.options, asked.output);
    match open_input(files, asked.input) {
        Ok((file, id)) => match file {
            None => repack_from(files, alloc, options, (to, id), input, output),
            Some(mut file) => repack_from(files, alloc, options, (to, id), &mut file, output),
        },
        Err(fault) => Err(fault),
    }
}

/// Repacks the source to the file of that name, or to nowhere. What is read, if it is a file, must not be the same.
fn repack_from<'a, F: NamedFiles, I: Source, O: Sink>(
    files: &mut F,
    alloc: Global,
    options: Options,
    to: (Option<&'a str>, Option<FileId>),
    source: &mut I,
    output: &mut O,
) -> Result<Done, TaskFault<'a>>
    requires source { CanCountCall (I.device source.old) }
    requires output { CanCountCall (O.device output.old) }
    ensures { Repacks options (GetsOutput (F.went files.old) (F.went files.new) to.entry.0) (I.device source.old)
        (O.device output.old) (O.device output.new) result }
{
    let (Some(name), input) = to else {
        return repack_to(
            alloc,
            options,
            source,
            &mut FromWrite::new(io::sink()),
            output,
        );
    };
    let mut writer = create_output(files, name, input)?;
    let done = repack_to(alloc, options, source, &mut writer, output);
    let done = settled(files, &writer, done);
    files.leave(name, writer);
    done
}

/// Waits until what was written is stored, if a task was done.
fn settled<'a, F: NamedFiles>(
    files: &F,
    writer: &F::Writer,
    done: Result<Done, TaskFault<'a>>,
) -> Result<Done, TaskFault<'a>>
    ensures { Settles done.entry result }
{
    if done.is_ok() && files.settle(writer).is_err() {
        return Err(TaskFault::Tool(ToolFault::Write));
    }
    done
}

/// Repacks the source to that sink, and tells whether its channels seem to come in turns.
fn repack_to<'a, I: Source, W: Sink, O: Sink>(
    alloc: Global,
    options: Options,
    source: &mut I,
    to: &mut W,
    output: &mut O,
) -> Result<Done, TaskFault<'a>>
    requires source { CanCountCall (I.device source.old) }
    requires to { CanCountCall (W.device to.old) }
    requires output { CanCountCall (O.device output.old) }
    ensures { Repacks options (Takes (W.device to.old) (W.device to.new)) (I.device source.old)
        (O.device output.old) (O.device output.new) result }
{
    let report = repack_and_report(alloc, source, to, output, options)?;
    Ok(Done::Repacked {
        in_turns: is_in_turns(&report),
    })
}

/// Makes the report's file before anything is read. It stands empty after a fault.
fn feed_input<'a, F: NamedFiles, I: Source, O: Sink>(
    files: &mut F,
    alloc: Global,
    asked: &Feeding<'a>,
    input: &mut I,
    output: &mut O,
) -> Result<Done, TaskFault<'a>>
    requires input { CanCountCall (I.device input.old) }
    requires output { CanCountCall (O.device output.old) }
    ensures { Feeds (F.went files.old) (F.went files.new) asked.now (I.device input.old)
        (O.device output.old) (O.device output.new) result }
{
    let mut writer = create_report(files, asked.report)?;
    match feed_to(files, alloc, &mut writer, asked.options, input, output) {
        Ok(()) => {
            files.leave(asked.report, writer);
            Ok(Done::Written)
        }
        Err(fault) => {
            files.empty(asked.report, writer);
            Err(TaskFault::Tool(fault))
        }
    }
}

/// Feeds to the file of the report, and waits until the system has stored what was written.
fn feed_to<F: NamedFiles, I: Source, O: Sink>(
    files: &F,
    alloc: Global,
    writer: &mut F::Writer,
    options: Options,
    input: &mut I,
    output: &mut O,
) -> Result<(), ToolFault>
    requires input { CanCountCall (I.device input.old) }
    requires writer { CanCountCall (F.Writer.device writer.old) }
    requires output { CanCountCall (O.device output.old) }
    ensures { FeedsTo options (Takes (F.Writer.device writer.old) (F.Writer.device writer.new)) (I.device input.old)
        (O.device output.old) (O.device output.new) result }
{
    feed_and_report(alloc, input, output, writer, options)?;
    settle_standard_output(files.system())?;
    files.settle(writer)?;
    Ok(())
}

/// Lists the segments of the source.
fn list_from<'a, I: Source, O: Sink>(
    alloc: Global,
    options: Options,
    form: ListForm,
    source: &mut I,
    output: &mut O,
) -> Result<Done, TaskFault<'a>>
    requires source { CanCountCall (I.device source.old) }
    requires output { CanCountCall (O.device output.old) }
    ensures { Lists form options (I.device source.old) (O.device output.old) (O.device output.new) result }
{
    list_segments(alloc, source, output, options, form)?;
    Ok(Done::Written)
}

fn list_file<'a, F: NamedFiles, I: Source, O: Sink>(
    files: &F,
    alloc: Global,
    asked: &Listing<'a>,
    input: &mut I,
    output: &mut O,
) -> Result<Done, TaskFault<'a>>
    requires input { CanCountCall (I.device input.old) }
    requires output { CanCountCall (O.device output.old) }
    ensures { ListsNamed asked.now.form asked.now.options (F.went files.now) asked.now.input.now (I.device input.old)
        (O.device output.old) (O.device output.new) result }
{
    let (options, form) = (asked.options, asked.form);
    match open_input(files, asked.input) {
        Ok((None, _)) => list_from(alloc, options, form, input, output),
        Ok((Some(mut file), _)) => list_from(alloc, options, form, &mut file, output),
        Err(fault) => Err(fault),
    }
}

/// Opens both inputs before either is read.
fn check_files<'a, F: NamedFiles, O: Sink>(
    files: &F,
    alloc: Global,
    asked: &Checking<'a>,
    output: &mut O,
) -> Result<Done, TaskFault<'a>>
    requires { CanCountCall (O.device output.old) }
    ensures { Checks (F.went files.now) asked.now (O.device output.old) (O.device output.new) result }
{
    let mut packed = open_file(files, asked.packed)?.0;
    let mut report = open_file(files, asked.report)?.0;
    let verdict = check_and_tell(alloc, &mut packed, &mut report, output)?;
    Ok(Done::Checked(verdict))
}

/// None of three folders is another or stands below it, by whatever names.
pub(crate) fn require_apart<'a, R: Files>(
    rt: &R,
    alloc: Global,
    first: &str,
    second: &str,
    third: &str,
) -> Result<(), TaskFault<'a>>
    ensures { IfErr result IsOverlapOrMemory }
{
    match folders_overlap(rt, alloc, first, second, third) {
        Ok(true) => Err(TaskFault::Overlap),
        Ok(false) => Ok(()),
        Err(_) => Err(TaskFault::Tool(ToolFault::Memory)),
    }
}

/// Walks the archive, of which the lines that are known were read.
fn walk_archive<'a, R: Files + Clock, T: Tree, O: Sink>(
    rt: &R,
    alloc: Global,
    tree: &mut T,
    archive: &Archiving<'_>,
    output: &mut O,
) -> Result<Walked, TaskFault<'a>>
where
    R::File: LockFile,
    requires apart { StandApart archive.now.folders }
    requires output { CanCountCall (O.device output.old) }
    ensures { (asked : Archiving) → IsArchivingRead asked archive.now →
        WalksKnown (T.went tree.old) (T.went tree.new) asked (O.device output.old) (O.device output.new) result }
{
    let claims = SystemClaims::new(rt);
    let walked = walk(tree, &claims, alloc, &*archive, time_of_now(rt), output)?;
    Ok(walked)
}

/// The same of the files, and a person may see how far it is.
fn walk_watched<'a, F: NamedFiles, O: Sink>(
    files: &mut F,
    alloc: Global,
    archive: &Archiving<'_>,
    output: &mut O,
) -> Result<Walked, TaskFault<'a>>
where
    <F::System as Files>::File: LockFile,
    requires apart { StandApart archive.now.folders }
    requires output { CanCountCall (O.device output.old) }
    ensures { (asked : Archiving) → IsArchivingRead asked archive.now →
        WalksKnown (F.went files.old) (F.went files.new) asked (O.device output.old) (O.device output.new) result }
{
    let watched = watched_below(archive.below.as_slice(), archive.folders.root);
    let system = *files.system();
    let names = files.lend_unlinked(alloc, watched);
    let walked = walk_archive(&system, alloc, names, archive, output);
    files.clear();
    walked
}

/// Walks it with the lines that are known, which are read first if a file has them.
fn walk_known<'a, F: NamedFiles, O: Sink>(
    files: &mut F,
    alloc: Global,
    asked: &Archiving<'a>,
    output: &mut O,
) -> Result<Walked, TaskFault<'a>>
where
    <F::System as Files>::File: LockFile,
    requires apart { StandApart asked.now.folders }
    requires output { CanCountCall (O.device output.old) }
    ensures { WalksKnown (F.went files.old) (F.went files.new) asked.now (O.device output.old) (O.device output.new) result }
{
    match asked.known {
        Known::File(name) => {
            let lines = read_known(files.system(), alloc, name)?;
            let Ok(below) = asked.below.clone() else {
                return Err(TaskFault::Tool(ToolFault::Memory));
            };
            let read = Archiving {
                folders: asked.folders,
                below,
                days: asked.days,
                known: Known::Lines(&lines),
            };
            walk_watched(files, alloc, &read, output)
        }
        _ => walk_watched(files, alloc, asked, output),
    }
}

fn repack_archive<'a, F: NamedFiles, O: Sink>(
    files: &mut F,
    alloc: Global,
    asked: &Archiving<'a>,
    output: &mut O,
) -> Result<Done, TaskFault<'a>>
where
    <F::System as Files>::File: LockFile,
    requires output { CanCountCall (O.device output.old) }
    ensures { WalksArchive (F.went files.old) (F.went files.new) asked.now (O.device output.old) (O.device output.new) result }
{
    if !asked.folders.stand_apart() {
        return Err(TaskFault::Overlap);
    }
    let Folders { root, out, reports } = asked.folders;
    require_apart(files.system(), alloc, root, out, reports)?;
    let walked = walk_known(files, alloc, asked, output)?;
    Ok(Done::of_walk(walked.found, walked.unopened, asked.below.is_empty(), false))
}

/// Verifies the archive, of which the lines that are known were read.
fn verify_read<'a, T: Tree, O: Sink>(
    alloc: Global,
    tree: &mut T,
    archive: &Verifying<'_>,
    output: &mut O,
) -> Result<WalkFound, TaskFault<'a>>
    requires { CanCountCall (O.device output.old) }
    ensures { (asked : Verifying) → IsVerifyingRead asked archive.now →
        VerifiesKnown (T.went tree.old) (T.went tree.new) asked (O.device output.old) (O.device output.new) result }
{
    let found = verify(tree, alloc, &*archive, output)?;
    Ok(found)
}

/// The same of the files, and a person may see how far it is.
fn verify_watched<'a, F: NamedFiles, O: Sink>(
    files: &mut F,
    alloc: Global,
    archive: &Verifying<'_>,
    output: &mut O,
) -> Result<WalkFound, TaskFault<'a>>
    requires { CanCountCall (O.device output.old) }
    ensures { (asked : Verifying) → IsVerifyingRead asked archive.now →
        VerifiesKnown (F.went files.old) (F.went files.new) asked (O.device output.old) (O.device output.new) result }
{
    let watched = watched_below(archive.below.as_slice(), archive.folders.root);
    let names = files.lend(alloc, watched);
    let found = verify_read(alloc, names, archive, output);
    files.clear();
    found
}

/// Verifies it with the lines that are known, which are read first if a file has them.
fn verify_known<'a, F: NamedFiles, O: Sink>(
    files: &mut F,
    alloc: Global,
    asked: &Verifying<'a>,
    output: &mut O,
) -> Result<WalkFound, TaskFault<'a>>
    requires { CanCountCall (O.device output.old) }
    ensures { VerifiesKnown (F.went files.old) (F.went files.new) asked.now (O.device output.old) (O.device output.new) result }
{
    match asked.known {
        Known::File(name) => {
            let lines = read_known(files.system(), alloc, name)?;
            let Ok(below) = asked.below.clone() else {
                return Err(TaskFault::Tool(ToolFault::Memory));
            };
            let read = Verifying {
                folders: asked.folders,
                below,
                names: asked.names,
                telling: asked.telling,
                known: Known::Lines(&lines),
            };
            verify_watched(files, alloc, &read, output)
        }
        _ => verify_watched(files, alloc, asked, output),
    }
}

fn verify_archive<'a, F: NamedFiles, O: Sink>(
    files: &mut F,
    alloc: Global,
    asked: &Verifying<'a>,
    output: &mut O,
) -> Result<Done, TaskFault<'a>>
    requires { CanCountCall (O.device output.old) }
    ensures { VerifiesArchive (F.went files.old) (F.went files.new) asked.now (O.device output.old) (O.device output.new) result }
{
    let Folders { root, out, reports } = asked.folders;
    require_apart(files.system(), alloc, root, out, reports)?;
    let found = verify_known(files, alloc, asked, output)?;
    Ok(Done::of_walk(found, None, asked.below.is_empty(), true))
}
