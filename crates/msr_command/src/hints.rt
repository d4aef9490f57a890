//! What a person is told when a task has ended.
ghost use Rattle.msr_command.specs.Hints.{HintsDone, HintsEnd, HintsEngine, HintsUnread};

use crate::done::Done;
use crate::task_fault::TaskFault;
use msr_options::{Hint, Task, hint_of_file, hint_of_folder, hint_of_report};
use msr_tool::ToolFault;
use std::rt::Files;

/// The names of what a task reads, records and a report. Standard input has none. Of two inputs a fault names the one.
#[derive(Clone, Copy)]
pub(crate) struct FilesRead<'a> {
    pub records: Option<&'a str>,
    pub report: Option<&'a str>,
}

impl<'a> FilesRead<'a> {
    ghost use Rattle.msr_command.specs.Hints.{AreFilesOf, IsInput};

    pub(crate) fn of(task: &Task<'a>) -> FilesRead<'a>
        ensures { AreFilesOf task.now result }
    {
        match task {
            Task::Repack(asked) => FilesRead::of_input(asked.input),
            Task::List(asked) => FilesRead::of_input(asked.input),
            Task::Check(asked) => FilesRead {
                records: Some(asked.packed),
                report: Some(asked.report),
            },
            Task::Compare(_)
            | Task::Archive(_)
            | Task::Trial(_)
            | Task::Verify(_)
            | Task::Replace(_)
            | Task::Feed(_) => FilesRead {
                records: None,
                report: None,
            },
        }
    }

    fn of_input(name: &'a str) -> FilesRead<'a>
        ensures { IsInput name.now result }
    {
        FilesRead {
            records: if name == "-" { None } else { Some(name) },
            report: None,
        }
    }
}

fn hint_of_done(done: &Done) -> Option<Hint>
    ensures { HintsDone done.now result }
{
    match done {
        Done::Repacked { in_turns } => in_turns.then_some(Hint::Turns),
        Done::Walked { no_day: true, .. } => Some(Hint::NoArchive),
        Done::Walked { unopened, .. } => unopened.map(|unopened| Hint::FirstDay(unopened)),
        Done::Written | Done::Checked(_) | Done::Compared(_) => None,
    }
}

/// Whether a file that could not be read is a folder, and which of two it is.
fn hint_of_unread<R: Files>(rt: &R, read: FilesRead<'_>) -> Option<Hint>
    ensures { HintsUnread read.entry.report read.entry.records result }
{
    let folder = hint_of_folder(rt, read.records?);
    match read.report {
        Some(report) => {
            let unread = folder.or(hint_of_report(rt, report));
            hint_of_folder(rt, report).or(unread)
        }
        None => folder,
    }
}

fn hint_of_engine<R: Files>(rt: &R, read: FilesRead<'_>, fault: &ToolFault) -> Option<Hint>
    ensures { HintsEngine read.entry fault.now result }
{
    let name = match fault {
        ToolFault::Input(_) => read.records,
        ToolFault::Report(_) => read.report,
        ToolFault::Read => return hint_of_unread(rt, read),
        ToolFault::Write | ToolFault::Memory => None,
    };
    hint_of_file(rt, name?)
}

/// What is certain beside how a task ended.
pub(crate) fn hint_of<R: Files>(
    rt: &R,
    read: FilesRead<'_>,
    ended: &Result<Done, TaskFault<'_>>,
) -> Option<Hint>
    ensures { HintsEnd read.entry ended.now result }
{
    match ended {
        Ok(done) => hint_of_done(done),
        Err(TaskFault::CannotOpen(_, why)) => Some(Hint::System(*why)),
        Err(TaskFault::Input(name, fault)) => hint_of_engine(rt, FilesRead::of_input(name), fault),
        Err(TaskFault::Tool(fault)) => hint_of_engine(rt, read, fault),
        Err(
            TaskFault::Failed(_, _)
            | TaskFault::SameFile
            | TaskFault::SameOutput
            | TaskFault::Overlap
            | TaskFault::Closed,
        ) => None,
    }
}
