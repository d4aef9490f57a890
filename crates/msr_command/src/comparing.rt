//! The task of comparing two files.
ghost use Rattle.std.specs.Prelude.{◌≡◌, ◌≤◌};
ghost use Rattle.msr_devices.specs.Device.{CanCountCall};
ghost use Rattle.msr_command.specs.Comparing.{TellsComparison, compare_settings, stop_of};
ghost use Rattle.msr_command.specs.Ends.{Compares, ComparesNamed, ComparesWith};

use crate::done::Done;
use crate::files::{open_file, open_input};
use crate::named::NamedFiles;
use crate::task_fault::TaskFault;
use msr_compare::{CompareFault, Comparison, compare};
use msr_devices::{Sink, Source, write_all};
use msr_input::{ReadFault, Settings};
use msr_options::Comparing;
use msr_tool::ToolFault;
use std::alloc::Global;

/// What the task ends with at that fault of one of its inputs. Memory that was refused has no name.
fn stop_at<'a>(asked: &Comparing<'a>, fault: CompareFault) -> TaskFault<'a>
    ensures { result ≡ stop_of asked.now fault }
{
    match fault {
        CompareFault::One(ReadFault::Memory) | CompareFault::Other(ReadFault::Memory) => {
            TaskFault::Tool(ToolFault::Memory)
        }
        CompareFault::One(fault) => TaskFault::Input(asked.one, fault.into()),
        CompareFault::Other(fault) => TaskFault::Input(asked.other, fault.into()),
    }
}

/// Prints the answer.
fn tell<O: Sink>(alloc: Global, comparison: Comparison, output: &mut O) -> Result<(), ToolFault>
    requires { CanCountCall (O.device output.old) }
    ensures { TellsComparison comparison (O.device output.old) (O.device output.new) result }
{
    let lines = format!(in alloc; "{comparison}\n")?;
    write_all(output, lines.as_bytes())?;
    Ok(())
}

/// Compares the sources of the files with these names, and prints the answer.
fn compare_sources<'a, One: Source, Other: Source, O: Sink>(
    alloc: Global,
    asked: &Comparing<'a>,
    one: &mut One,
    other: &mut Other,
    output: &mut O,
) -> Result<Done, TaskFault<'a>>
    requires one { CanCountCall (One.device one.old) }
    requires other { CanCountCall (Other.device other.old) }
    requires output { CanCountCall (O.device output.old) }
    ensures { Compares asked.now.options asked.now (One.device one.old) (Other.device other.old)
        (O.device output.old) (O.device output.new) result }
{
    let settings = Settings {
        tolerance: asked.options.tolerance(),
        strict: false,
    };
    match compare(alloc, one, other, settings) {
        Ok(comparison) => {
            tell(alloc, comparison, output)?;
            Ok(Done::Compared(comparison))
        }
        Err(fault) => Err(stop_at(asked, fault)),
    }
}

/// Compares that source with the input of the other name, which is opened before anything is read.
fn compare_with<'a, F: NamedFiles, One: Source, I: Source, O: Sink>(
    files: &F,
    alloc: Global,
    asked: &Comparing<'a>,
    one: &mut One,
    input: &mut I,
    output: &mut O,
) -> Result<Done, TaskFault<'a>>
    requires one { CanCountCall (One.device one.old) }
    requires input { CanCountCall (I.device input.old) }
    requires output { CanCountCall (O.device output.old) }
    ensures { ComparesWith (F.went files.now) asked.now.options asked.now (One.device one.old) (I.device input.old)
        (O.device output.old) (O.device output.new) result }
{
    let (opened, _) = open_input(files, asked.other)?;
    match opened {
        None => compare_sources(alloc, asked, one, input, output),
        Some(mut file) => compare_sources(alloc, asked, one, &mut file, output),
    }
}

/// Opens both inputs before either is read.
pub(crate) fn compare_files<'a, F: NamedFiles, I: Source, O: Sink>(
    files: &F,
    alloc: Global,
    asked: &Comparing<'a>,
    input: &mut I,
    output: &mut O,
) -> Result<Done, TaskFault<'a>>
    requires input { CanCountCall (I.device input.old) }
    requires output { CanCountCall (O.device output.old) }
    ensures { ComparesNamed (F.went files.now) asked.now.options asked.now (I.device input.old)
        (O.device output.old) (O.device output.new) result }
{
    let (opened, _) = open_input(files, asked.one)?;
    match opened {
        None => {
            let mut other = open_file(files, asked.other)?.0;
            compare_sources(alloc, asked, input, &mut other, output)
        }
        Some(mut file) => compare_with(files, alloc, asked, &mut file, input, output),
    }
}
