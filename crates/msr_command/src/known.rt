//! The lines of earlier runs that a walk is asked to know.
ghost use Rattle.std.specs.Prelude.{IfErr};
ghost use Rattle.msr_command.specs.Ends.{IsUnknown};

use crate::files::open_beside;
use crate::task_fault::TaskFault;
use msr_options::KnownLines;
use msr_tool::ToolFault;
use std::alloc::Global;
use std::io::{BufRead, BufReader, Read};
use std::rt::Files;
use std::{io, str};

/// Adds the lines of a text that are UTF-8, as each is that was printed.
fn add_lines<F: Read + Drop>(
    alloc: Global,
    file: F,
    known: &mut KnownLines,
) -> Result<(), io::Error> {
    for line in BufReader::new(alloc, file)?.split(alloc, b'\n') {
        let line = line?;
        if let Ok(line) = str::from_utf8(line.as_slice()) {
            known.add(line)?;
        }
    }
    Ok(())
}

/// Reads the lines of the file with this name.
pub(crate) fn read_known<'a, R: Files>(
    rt: &R,
    alloc: Global,
    name: &'a str,
) -> Result<KnownLines, TaskFault<'a>>
    ensures { IfErr result IsUnknown }
{
    let file = open_beside(rt, name)?;
    let mut known = KnownLines::new(alloc);
    match add_lines(alloc, file, &mut known) {
        Ok(()) => Ok(known),
        Err(_) => Err(TaskFault::Input(name, ToolFault::Read)),
    }
}
