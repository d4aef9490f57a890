//! Files that are opened and created; standard output made to last.
ghost use Rattle.std.specs.Prelude.{◌≡◌, ◌↔◌, IfErr, IfOk, IfSome, None, Ok, codes};
ghost use Rattle.msr_devices.specs.Device.{CanCountCall};
ghost use Rattle.msr_command.specs.Ends.{IsUncreated, IsUnread};
ghost use Rattle.msr_command.specs.Named.{IsReaderOf, MakesOutput};
ghost use Rattle.msr_tree.specs.Calls.{Goes};

use crate::named::NamedFiles;
use crate::task_fault::TaskFault;
use msr_folders::{FileId, make_stored, settle};
use msr_tool::ToolFault;
use std::alloc::Global;
use std::fs::{File, OpenFile, OpenOptions};
use std::io::ErrorKind;
use std::rt::Files;
use std::{fs, io};

/// Which file standard output is redirected to, if the system tells it.
fn id_of_standard_output<R: Files>(rt: &R) -> Option<FileId> {
    FileId::of_regular(&fs::metadata(rt, "/dev/stdout").ok()?)
}

/// Whether standard output is redirected to an input: what is printed would be read again, or stand in the place of
/// what is still to be read.
fn is_printed_to<R: Files>(rt: &R, input: Option<FileId>) -> bool {
    input.is_some() && input == id_of_standard_output(rt)
}

/// What the system answers that opens the file with this name, looks at it or cuts it.
fn opened<'a, T>(name: &'a str, answer: io::Result<T>) -> Result<T, TaskFault<'a>>
    ensures stop { IfErr result IsUnread }
    ensures same { IfOk result (λ value. answer ≡ Ok value) }
{
    answer.map_err(|error| TaskFault::CannotOpen(name, error))
}

/// Opens the file with this name, even `-`, to be read, unless standard output goes to it, and tells which it is.
pub(crate) fn open_file<'a, F: NamedFiles>(
    files: &F,
    name: &'a str,
) -> Result<(F::Reader, Option<FileId>), TaskFault<'a>>
    ensures stop { IfErr result IsUnread }
    ensures reads { IfOk result (λ opened. IsReaderOf (F.went files.now) name.now (F.Reader.device opened.0)) }
    ensures count { IfOk result (λ opened. CanCountCall (F.Reader.device opened.0)) }
{
    let (file, id) = opened(name, files.open(name))?;
    if is_printed_to(files.system(), id) {
        return Err(TaskFault::SameFile);
    }
    Ok((file, id))
}

/// Opens a file that is read beside the files of a task, unless standard output goes to it.
pub(crate) fn open_beside<'a, R: Files>(rt: &R, name: &'a str) -> Result<R::File, TaskFault<'a>>
    ensures { IfErr result IsUnread }
{
    let file = opened(name, File::open(rt, name))?;
    let id = FileId::of_regular(&opened(name, file.metadata())?);
    if is_printed_to(rt, id) {
        return Err(TaskFault::SameFile);
    }
    Ok(file)
}

/// Which file standard input is redirected from, if the system tells it, unless standard output is redirected to it.
pub(crate) fn standard_input<'a, R: Files>(rt: &R) -> Result<Option<FileId>, TaskFault<'a>>
    ensures { IfErr result IsUnread }
{
    let Ok(metadata) = fs::metadata(rt, "/dev/stdin") else {
        return Ok(None);
    };
    let id = FileId::of_regular(&metadata);
    if is_printed_to(rt, id) {
        return Err(TaskFault::SameFile);
    }
    Ok(id)
}

/// Opens the input with this name, which is standard input, and no file, if it is `-`; and tells which file it is.
pub(crate) fn open_input<'a, F: NamedFiles>(
    files: &F,
    name: &'a str,
) -> Result<(Option<F::Reader>, Option<FileId>), TaskFault<'a>>
    ensures stop { IfErr result IsUnread }
    ensures file { IfOk result (λ opened. (opened.0 ≡ None) ↔ (name.now ≡ codes "-")) }
    ensures reads { IfOk result (λ opened. IfSome opened.0
        (λ file. IsReaderOf (F.went files.now) name.now (F.Reader.device file))) }
    ensures count { IfOk result (λ opened. IfSome opened.0 (λ file. CanCountCall (F.Reader.device file))) }
{
    if name == "-" {
        return Ok((None, standard_input(files.system())?));
    }
    let (file, id) = open_file(files, name)?;
    Ok((Some(file), id))
}

/// What has this name is a folder.
pub(crate) fn require_folder<'a, R: Files>(rt: &R, name: &'a str) -> Result<(), TaskFault<'a>>
    ensures { IfErr result IsUnread }
{
    if opened(name, fs::metadata(rt, name))?.is_dir() {
        Ok(())
    } else {
        Err(TaskFault::CannotOpen(name, ErrorKind::NotADirectory.into()))
    }
}

/// What has this name is a folder that is on the disk: it is made if nothing has it.
pub(crate) fn make_folder<'a, R: Files>(
    rt: &R,
    alloc: Global,
    name: &'a str,
) -> Result<(), TaskFault<'a>>
    ensures { IfErr result IsUnread }
{
    opened(name, make_stored(rt, alloc, name))?;
    require_folder(rt, name)
}

/// Creates the file with this name, or opens it and cuts it to nothing, unless it is the input by some name, or what
/// standard output is redirected to: then it is left as it is.
pub(crate) fn create_output<'a, F: NamedFiles>(
    files: &mut F,
    name: &'a str,
    input: Option<FileId>,
) -> Result<F::Writer, TaskFault<'a>>
    ensures stop { IfErr result IsUncreated }
    ensures went { Goes (F.went files.old) (F.went files.new)
        (MakesOutput name.now (λ writer. F.Writer.device writer) result) }
    ensures count { IfOk result (λ writer. CanCountCall (F.Writer.device writer)) }
{
    // Asked before the file is opened: if standard output is closed, the file gets its descriptor.
    let output = id_of_standard_output(files.system());
    let (file, id) = opened(name, files.open_uncut(name))?;
    if id.is_some() && input == id {
        return Err(TaskFault::SameFile);
    }
    if id.is_some() && output == id {
        return Err(TaskFault::SameOutput);
    }
    opened(name, files.cut(name, file))
}

/// Creates the report of a feed, or cuts it to nothing, before anything is read.
pub(crate) fn create_report<'a, F: NamedFiles>(
    files: &mut F,
    name: &'a str,
) -> Result<F::Writer, TaskFault<'a>>
    ensures stop { IfErr result IsUncreated }
    ensures went { Goes (F.went files.old) (F.went files.new)
        (MakesOutput name.now (λ writer. F.Writer.device writer) result) }
    ensures count { IfOk result (λ writer. CanCountCall (F.Writer.device writer)) }
{
    let input = standard_input(files.system())?;
    create_output(files, name, input)
}

/// Waits until what was printed is stored, if standard output is redirected to a regular file that opens once more.
pub(crate) fn settle_standard_output<R: Files>(rt: &R) -> Result<(), ToolFault>
    ensures { IfErr result (λ fault. fault ≡ ToolFault.Write) }
{
    if id_of_standard_output(rt).is_none() {
        return Ok(());
    }
    match OpenOptions::new().write(true).open(rt, "/dev/stdout") {
        Ok(file) => Ok(settle(&file)?),
        Err(_) => Ok(()),
    }
}
