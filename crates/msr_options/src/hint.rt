//! What is certain beside a fault, or beside a repack.
ghost use Rattle.std.specs.Io.KnownBytes.{Appends};
ghost use Rattle.std.specs.Prelude.{◌≡◌, OnOk, IfSome, false, true};
ghost use Rattle.msr_options.specs.Hints.{line_of};

use crate::errors::Errors;
use std::io::Write;
use std::{fmt, io};

/// What of a day could not be opened or made.
#[derive(Clone, Copy)]
pub enum Side {
    /// Its own file.
    File,
    Records,
    Report,
    /// What is made of it: that might stand in the archive.
    Outputs,
}

impl fmt::Display for Side {
    ghost use Rattle.std.specs.Prelude.{Some};
    ghost use Rattle.msr_options.specs.Hints.{side_text};

    ghost output = { λ side. Some (side_text side) };

    fn fmt<W: fmt::Write>(&self, f: &mut fmt::Formatter<W>) -> fmt::Result {
        f.write_str(match self {
            Side::File => "its file in ROOT",
            Side::Records => "its records in OUT",
            Side::Report => "its report in REPORTS",
            Side::Outputs => "its records or report might stand in ROOT",
        })
    }
}

/// What of a day could not be opened or made, and the system's reason, if it gave one.
#[derive(Clone, Copy)]
pub struct Unopened {
    pub side: Side,
    pub why: Option<io::Error>,
}

impl Unopened {
    /// What is made might stand in the archive, and is not made.
    pub const OUTPUTS: Unopened = Unopened {
        side: Side::Outputs,
        why: None,
    };
}

/// What a person is told.
#[derive(Clone, Copy)]
pub enum Hint {
    /// The file begins as those of gzip do.
    Gzip,
    /// The file begins as a record of miniSEED 3 does.
    MiniSeed3,
    /// The file is a folder.
    Folder,
    /// The report cannot be read once more.
    UnreadReport,
    /// The report can be read once more, so it was the records that could not.
    UnreadRecords,
    /// A repack saved no record, and most segments are one record long.
    Turns,
    /// A walk found no file of waveform data.
    NoArchive,
    /// Standard input is waited for, though no word asked for that.
    Waiting,
    /// The lengths of written records.
    Lengths,
    /// Why a file cannot be opened, in the system's words.
    System(io::Error),
    /// Why the first of the days was refused that could not be opened.
    FirstDay(Unopened),
}

impl fmt::Display for Hint {
    ghost use Rattle.msr_options.specs.Hints.{hint_text};

    ghost output = { hint_text };

    fn fmt<W: fmt::Write>(&self, f: &mut fmt::Formatter<W>) -> fmt::Result {
        let text = match self {
            Hint::Gzip => "this is gzip",
            Hint::MiniSeed3 => "this is miniSEED 3, which msrepack does not read",
            Hint::Folder => "a folder: msrepack archive reads archives",
            Hint::UnreadReport => "the report cannot be read",
            Hint::UnreadRecords => "the report can be read, so it is the records",
            Hint::Turns => {
                "no record was saved: most segments are one record long, as with channels in turns, or gaps"
            }
            Hint::NoArchive => "no folder of an archive below ROOT",
            Hint::Waiting => {
                "msrepack waits for records on standard input; msrepack --help tells what else it does"
            }
            Hint::Lengths => {
                "msrepack writes records of 256, 512, 1024, 2048, 4096, 8192, 16384, 32768 or 65536 bytes"
            }
            Hint::System(error) => return write!(f, "{error}"),
            Hint::FirstDay(Unopened { side, why }) => {
                return match why {
                    Some(error) => write!(
                        f,
                        "the first day refused as cannot open: {side}: {error}"
                    ),
                    None => write!(f, "the first day refused as cannot open: {side}"),
                };
            }
        };
        f.write_str(text)
    }
}

/// Writes the line of a hint, if a person reads it.
pub fn write_hint<E: Write>(errors: &mut Errors<E>, hint: Hint) -> io::Result<()>
    ensures script { errors.old.is_terminal ≡ false → errors.new ≡ errors.old }
    ensures person { OnOk result (errors.old.is_terminal ≡ true →
        IfSome (line_of hint) (Appends (E.contents errors.old.to) (E.contents errors.new.to))) }
{
    if !errors.is_terminal {
        return Ok(());
    }
    writeln!(errors.to, "hint: {hint}")
}
