//! What the program does with what it was asked: a task, or the text that is told in its place.
ghost use Rattle.std.specs.Io.KnownBytes.{Appends};
ghost use Rattle.std.specs.Prelude.{◌≡◌, ◌<◌, OnOk, false, true};
ghost use Rattle.msr_devices.specs.Device.{CanCountCall};
ghost use Rattle.msr_command.specs.Ends.{EndsAsked, EndsText, status_of};
ghost use Rattle.msr_command.specs.Hints.{TellsLengths, TellsPerson, anew_line};
ghost use Rattle.msr_command.specs.Told.{TellsFault};
ghost use Rattle.msr_options.specs.declared.task.NoTask.TheVariants.{Ending as WithText};

use crate::done::Done;
use crate::hints::{FilesRead, hint_of};
use crate::named::NamedFiles;
use crate::task_fault::TaskFault;
use crate::tasks::do_task;
use msr_devices::{Sink, Source, write_all};
use msr_folders::LockFile;
use msr_options::{Ending, Errors, Hint, NoTask, Task, complain, write_complaint, write_hint};
use std::alloc::Global;
use std::io::{self, Write};
use std::rt::Files;

/// Prints the line of a task's fault.
fn write_fault<E: Write>(errors: &mut E, fault: &TaskFault<'_>) -> io::Result<()>
    ensures { OnOk result (TellsFault fault.now (E.contents errors.old) (E.contents errors.new)) }
{
    writeln!(errors, "msrepack: {fault}")
}

/// Prints a hint after that, if there is one and a person reads it. No file is looked at for a script.
fn tell_person<R: Files, E: Write>(
    rt: &R,
    errors: &mut Errors<E>,
    read: FilesRead<'_>,
    ended: &Result<Done, TaskFault<'_>>,
) -> io::Result<()>
    ensures script { errors.old.is_terminal ≡ false → errors.new ≡ errors.old }
    ensures person { OnOk result (errors.old.is_terminal ≡ true →
        TellsPerson read.entry ended.now (E.contents errors.old.to) (E.contents errors.new.to)) }
{
    if !errors.is_terminal {
        return Ok(());
    }
    match hint_of(rt, read, ended) {
        Some(hint) => write_hint(errors, hint),
        None => Ok(()),
    }
}

/// Tells a person how many days a walk made anew, although their file was unchanged, if there are some.
fn tell_anew<E: Write>(errors: &mut Errors<E>, days: u64) -> io::Result<()>
    ensures script { errors.old.is_terminal ≡ false → errors.new ≡ errors.old }
    ensures none { days ≡ 0 → errors.new ≡ errors.old }
    ensures person { OnOk result (errors.old.is_terminal ≡ true → 0 < days →
        Appends (E.contents errors.old.to) (E.contents errors.new.to) (anew_line days)) }
{
    if !errors.is_terminal || days == 0 {
        return Ok(());
    }
    writeln!(
        errors.to,
        "hint: days made anew, since their reports tell other options or records: {days}"
    )
}

/// Prints the line of a length that no record has, and for a person which lengths there are.
fn tell_lengths<E: Write>(errors: &mut Errors<E>) -> io::Result<()>
    ensures { OnOk result (TellsLengths errors.old.is_terminal (E.contents errors.old.to) (E.contents errors.new.to)) }
{
    write_complaint(&mut errors.to, "not a record length")?;
    write_hint(errors, Hint::Lengths)
}

/// Prints the text to end with: help and the version as output, a fault of the command line as an error.
fn end<O: Sink, E: Write>(output: &mut O, errors: &mut E, ending: &Ending) -> u8
    requires { CanCountCall (O.device output.old) }
    ensures { EndsText (WithText ending.now) (O.device output.old) (O.device output.new) result }
{
    let text = ending.text.as_str();
    if ending.status != 0 {
        write!(errors, "{text}").ok();
    } else if write_all(output, text.as_bytes()).is_err() {
        return complain(errors, 1, "write fault");
    }
    ending.status
}

/// Does what was asked for, or tells what there is in place of a task, and gives the status.
pub fn run<'a, F: NamedFiles, I: Source, O: Sink, E: Write>(
    files: &mut F,
    alloc: Global,
    asked: Result<Task<'a>, NoTask>,
    input: &mut I,
    output: &mut O,
    errors: &mut Errors<E>,
) -> u8
where
    <F::System as Files>::File: LockFile,
    requires input { CanCountCall (I.device input.old) }
    requires output { CanCountCall (O.device output.old) }
    ensures { EndsAsked (F.went files.old) (F.went files.new) asked.entry (I.device input.old)
        (O.device output.old) (O.device output.new) result }
{
    match asked {
        Ok(task) => {
            let read = FilesRead::of(&task);
            let ended = do_task(files, alloc, &task, input, output);
            let status = match &ended {
                Ok(done) => done.status(),
                Err(fault) => {
                    write_fault(&mut errors.to, fault).ok();
                    fault.status()
                }
            };
            tell_person(files.system(), errors, read, &ended).ok();
            tell_anew(errors, files.days_anew()).ok();
            status
        }
        Err(NoTask::Ending(ending)) => end(output, &mut errors.to, &ending),
        Err(NoTask::NotALength) => {
            tell_lengths(errors).ok();
            2
        }
        Err(NoTask::Memory) => complain(&mut errors.to, 1, "out of memory"),
    }
}
