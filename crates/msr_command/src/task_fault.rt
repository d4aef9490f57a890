//! Why a task ends before it is done.
use msr_folders::Shown;
use msr_tool::ToolFault;
use std::{fmt, io};

/// Why a task ended before it was done.
#[derive(Drop)]
pub(crate) enum TaskFault<'a> {
    /// The file with this name could not be opened, or not be made, and why.
    CannotOpen(&'a str, io::Error),
    /// Of two inputs that with this name is refused, or cannot be read.
    Input(&'a str, ToolFault),
    /// A call of the system failed in the midst of a walk, in the day or folder with this path, and why.
    Failed(String, Option<io::Error>),
    /// The output is the input, by another name or a link; or standard output is redirected to an input.
    SameFile,
    /// A file to be written is what standard output is redirected to.
    SameOutput,
    /// One of an archive's folders is another, or stands below it, by whatever links.
    Overlap,
    /// Nothing can be printed: standard output is closed, or refuses a write of no bytes.
    Closed,
    /// The engine ended.
    Tool(ToolFault),
}

impl fmt::Display for TaskFault<'_> {
    ghost use Rattle.msr_command.specs.Told.{task_fault_text};

    ghost output = { task_fault_text };

    fn fmt<W: fmt::Write>(&self, f: &mut fmt::Formatter<W>) -> fmt::Result {
        let text = match self {
            TaskFault::CannotOpen(path, _) => {
                let path = Shown { path: *path };
                return write!(f, "cannot open {path}");
            }
            TaskFault::Input(path, fault) => {
                let path = Shown { path: *path };
                return write!(f, "{path}: {fault}");
            }
            TaskFault::Failed(path, why) => {
                let path = Shown {
                    path: path.as_str(),
                };
                return match why {
                    Some(why) => write!(f, "{path}: {why}"),
                    None => write!(f, "{path}: the file system failed"),
                };
            }
            TaskFault::Tool(fault) => return write!(f, "{fault}"),
            TaskFault::SameFile => "the output is the input",
            TaskFault::SameOutput => "two outputs are one file",
            TaskFault::Overlap => "the folders overlap",
            TaskFault::Closed => "write fault",
        };
        f.write_str(text)
    }
}

impl<'a> TaskFault<'a> {
    ghost use Rattle.std.specs.Prelude.{◌≡◌};
    ghost use Rattle.msr_command.specs.Ends.{status_of_task_fault};

    /// The exit status of a program that ends so.
    pub(crate) fn status(&self) -> u8
        ensures { result ≡ status_of_task_fault self.now }
    {
        match self {
            TaskFault::CannotOpen(_, _)
            | TaskFault::Input(_, _)
            | TaskFault::Failed(_, _)
            | TaskFault::Closed => 1,
            TaskFault::SameFile | TaskFault::SameOutput | TaskFault::Overlap => 2,
            TaskFault::Tool(fault) => fault.status(),
        }
    }
}

impl<'a> From<ToolFault> for TaskFault<'a> {
    ghost use Rattle.std.specs.Prelude.{◌≡◌};
    ghost use Rattle.msr_command.specs.declared.task_fault.TaskFault.TheVariants.{Tool};

    ghost from_gives = { λ fault stop. stop ≡ Tool fault };

    fn from(fault: ToolFault) -> TaskFault<'a> {
        TaskFault::Tool(fault)
    }
}
