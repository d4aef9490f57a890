//! The text of the line.
ghost use Rattle.std.specs.Prelude.{◌≡◌, IfOk};
ghost use Rattle.std.specs.String.{string_bytes};
ghost use Rattle.msr_progress.specs.Progress.{IsProgressLine, amount_text, count_text, digits_of, noun_of, tenth_of, unit_of};

use std::alloc::{AllocError, Global};
use std::fmt;

/// How many bytes of it fit the narrowest usual terminal, whose last column stays free: there a cursor would go on to
/// the next line.
const COLUMNS: usize = 79;

/// A path for a terminal, which must not take a part of it for a command.
#[derive(Clone, Copy)]
struct Plain<'a> {
    path: &'a str,
}

impl fmt::Display for Plain<'_> {
    ghost use Rattle.std.specs.Prelude.{Some};
    ghost use Rattle.msr_progress.specs.Progress.{plain_path};

    ghost output = { λ plain. Some (plain_path plain.path.now) };

    fn fmt<W: fmt::Write>(&self, f: &mut fmt::Formatter<W>) -> fmt::Result {
        for letter in self.path.chars() {
            if letter.is_ascii_control() {
                f.write_char('?')?;
            } else {
                f.write_char(letter)?;
            }
        }
        Ok(())
    }
}

/// The three last digits of a count.
fn digits_of(alloc: Global, count: u64) -> Result<String, AllocError>
    ensures { IfOk result (λ text. string_bytes text ≡ digits_of count) }
{
    let (one, two, three) = (count / 100 % 10, count / 10 % 10, count % 10);
    format!(in alloc; "{one}{two}{three}")
}

/// A count, of which the last two groups of three digits are set apart.
fn count_text(alloc: Global, count: u64) -> Result<String, AllocError>
    ensures { IfOk result (λ text. string_bytes text ≡ count_text count) }
{
    if count < 1_000 {
        return format!(in alloc; "{count}");
    }
    let last = digits_of(alloc, count)?;
    let thousands = count / 1_000;
    if thousands < 1_000 {
        return format!(in alloc; "{thousands},{last}");
    }
    let middle = digits_of(alloc, thousands)?;
    let millions = thousands / 1_000;
    format!(in alloc; "{millions},{middle},{last}")
}

/// A tenth of the unit in which so many bytes are told.
fn tenth_of(bytes: u64) -> u64
    ensures { result ≡ tenth_of bytes }
{
    if bytes < 1_000_000 {
        100
    } else if bytes < 1_000_000_000 {
        100_000
    } else if bytes < 1_000_000_000_000 {
        100_000_000
    } else {
        100_000_000_000
    }
}

/// Its name.
fn unit_of(bytes: u64) -> &'static str
    ensures { result.now ≡ unit_of bytes }
{
    if bytes < 1_000_000 {
        "kB"
    } else if bytes < 1_000_000_000 {
        "MB"
    } else if bytes < 1_000_000_000_000 {
        "GB"
    } else {
        "TB"
    }
}

/// So many bytes, in tenths of a unit.
fn amount_text(alloc: Global, bytes: u64) -> Result<String, AllocError>
    ensures { IfOk result (λ text. string_bytes text ≡ amount_text bytes) }
{
    if bytes < 1_000 {
        return format!(in alloc; "{bytes} bytes");
    }
    let tenths = bytes / tenth_of(bytes);
    let (whole, rest) = (tenths / 10, tenths % 10);
    let unit = unit_of(bytes);
    format!(in alloc; "{whole}.{rest} {unit}")
}

fn noun_of(files: u64) -> &'static str
    ensures { result.now ≡ noun_of files }
{
    if files == 1 { "file" } else { "files" }
}

/// What the line says, cut to fit.
pub(crate) fn line_of(
    alloc: Global,
    files: u64,
    bytes: u64,
    folder: &str,
) -> Result<String, AllocError>
    ensures { IfOk result (λ text. IsProgressLine files bytes folder.now (string_bytes text)) }
{
    let count = count_text(alloc, files)?;
    let noun = noun_of(files);
    let amount = amount_text(alloc, bytes)?;
    let folder = Plain { path: folder };
    let mut text = format!(in alloc; "{count} {noun}, {amount}: {folder}")?;
    text.truncate(text.as_str().floor_char_boundary(COLUMNS));
    Ok(text)
}
