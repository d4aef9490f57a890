//! The program `msrepack`: reads its words, has done what they ask for, and ends with the status that comes of it.
#![tactic(auto)]

ghost use Rattle.std.specs.Io.KnownBytes.{Appends};
ghost use Rattle.std.specs.Prelude.{◌≡◌, ◌⊎◌, ◌<◌, ◌≤◌, IfSome, OnOk, false, true};
ghost use Rattle.msr_devices.specs.Device.{CanCountCall};
ghost use Rattle.msr_command.specs.Ends.{EndsTask, EndsWithoutTask};
ghost use Rattle.msr_options.specs.Hints.{line_of};

use msr_arguments::{NOT_UTF8, read_words};
use msr_command::{NamedFiles, SystemFiles, run};
use msr_devices::{FromRead, FromWrite, Sink, Source};
use msr_folders::LockFile;
use msr_options::{Errors, Hint, complain, write_hint};
use std::alloc::{AllocError, Global};
use std::io::{ErrorKind, IsTerminal, Write};
use std::process::ExitCode;
use std::rt::Files;
use std::{env, io};

/// The words, the program's name first.
fn words_given(rt: &HostRuntime, alloc: Global) -> io::Result<Vec<String>> {
    Ok(env::args(rt)?.collect(alloc)?)
}

fn borrowed(alloc: Global, words: &[String]) -> Result<Vec<&str>, AllocError> {
    words.iter().map(|word| word.as_str()).collect(alloc)
}

/// Does what the words ask for, of which the first is the program's name, and gives the status.
fn run_words<F: NamedFiles, I: Source, O: Sink, E: Write>(
    files: &mut F,
    alloc: Global,
    words: &[&str],
    input: &mut I,
    output: &mut O,
    errors: &mut Errors<E>,
) -> u8
where
    <F::System as Files>::File: LockFile,
    requires input { CanCountCall (I.device input.old) }
    requires output { CanCountCall (O.device output.old) }
    ensures { EndsTask (F.went files.old) (F.went files.new) words.now (I.device input.old) (O.device output.old) (O.device output.new) result
        ⊎ EndsWithoutTask words.now (O.device output.old) (O.device output.new) result }
{
    run(
        files,
        alloc,
        read_words(alloc, words),
        input,
        output,
        errors,
    )
}

/// Tells a person who gave no word, and gives no input either, that input is waited for.
fn tell_waiting<E: Write>(
    errors: &mut Errors<E>,
    words: usize,
    is_from_terminal: bool,
) -> io::Result<()>
    ensures asked { 2 ≤ words → errors.new ≡ errors.old }
    ensures given { is_from_terminal ≡ false → errors.new ≡ errors.old }
    ensures script { errors.old.is_terminal ≡ false → errors.new ≡ errors.old }
    ensures person { OnOk result (errors.old.is_terminal ≡ true → is_from_terminal ≡ true → words < 2 →
        IfSome (line_of Hint.Waiting) (Appends (E.contents errors.old.to) (E.contents errors.new.to))) }
{
    if words < 2 && is_from_terminal {
        return write_hint(errors, Hint::Waiting);
    }
    Ok(())
}

fn main(rt: HostRuntime) -> ExitCode {
    let alloc = rt.alloc();
    let standard = rt.stderr();
    let is_terminal = standard.is_terminal();
    // Lines and how far a walk is would mix at one terminal.
    let is_watched = is_terminal && !rt.stdout().is_terminal();
    let screen = if is_watched { Some(standard) } else { None };
    let mut errors = Errors {
        to: standard,
        is_terminal,
    };
    let status = match words_given(&rt, alloc) {
        Ok(words) => match borrowed(alloc, words.as_slice()) {
            Ok(words) => {
                let given = rt.stdin();
                tell_waiting(&mut errors, words.len(), given.is_terminal()).ok();
                let mut input = FromRead::new(given);
                let mut output = FromWrite::new(rt.stdout());
                run_words(
                    &mut SystemFiles::watched(&rt, screen),
                    alloc,
                    words.as_slice(),
                    &mut input,
                    &mut output,
                    &mut errors,
                )
            }
            Err(AllocError) => complain(&mut errors.to, 1, "out of memory"),
        },
        Err(error) if error.kind() == ErrorKind::InvalidData => {
            eprint!(&rt; "{}", NOT_UTF8).ok();
            2
        }
        Err(_) => complain(&mut errors.to, 1, "out of memory"),
    };
    ExitCode::from(status)
}
