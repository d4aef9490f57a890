//! The paths of folders and files.
ghost use Rattle.std.specs.Prelude.{◌≡◌, IfOk};
ghost use Rattle.std.specs.String.{string_bytes};
ghost use Rattle.msr_folders.specs.Paths.{below, ended, folder_of, is_marked, joined, shown_path, told_folder};

use std::alloc::{AllocError, Global};
use std::fmt;

/// The path of what stands below a folder. A folder without a name has nothing below it: the answer is the path that
/// no file has.
pub fn join(alloc: Global, folder: &str, path: &str) -> Result<String, AllocError>
    ensures { IfOk result (λ text. string_bytes text ≡ joined folder.now path.now) }
{
    if folder.is_empty() {
        return Ok(String::new(alloc));
    }
    if path.is_empty() {
        return String::from_str(alloc, folder);
    }
    format!(in alloc; "{folder}/{path}")
}

/// The path with that ending; the path that no file has gets none.
pub fn ended(alloc: Global, path: &str, ending: &str) -> Result<String, AllocError>
    ensures { IfOk result (λ text. string_bytes text ≡ ended path.now ending.now) }
{
    if path.is_empty() {
        return Ok(String::new(alloc));
    }
    format!(in alloc; "{path}{ending}")
}

/// The path, from the archive's folder, of an entry of the folder with this path, which is empty for the archive's own.
pub(crate) fn entry_path(alloc: Global, folder: &str, name: &str) -> Result<String, AllocError>
    ensures { IfOk result (λ text. string_bytes text ≡ below folder.now name.now) }
{
    if folder.is_empty() {
        return String::from_str(alloc, name);
    }
    format!(in alloc; "{folder}/{name}")
}

/// The folder in which a name stands; without a slash none, which is no folder's name.
pub fn folder_of(path: &str) -> &str
    ensures { result.now ≡ folder_of path.now }
{
    match path.rsplit_once('/') {
        Some((folder, _)) => folder,
        None => "",
    }
}

/// The path of a folder of an archive as it is told: the archive's own is `.`.
pub fn told_folder(folder: &str) -> &str
    ensures { result.now ≡ told_folder folder.now }
{
    if folder.is_empty() { "." } else { folder }
}

/// A path, or the name of another file, as it is printed: a line feed in a name would begin another line.
#[derive(Clone, Copy)]
pub struct Shown<'a> {
    pub path: &'a str,
}

impl fmt::Display for Shown<'_> {
    ghost use Rattle.std.specs.Prelude.{Some};
    ghost use Rattle.msr_folders.specs.Paths.{shown_path};

    ghost output = { λ shown. Some (shown_path shown.path.now) };

    fn fmt<W: fmt::Write>(&self, f: &mut fmt::Formatter<W>) -> fmt::Result {
        for letter in self.path.chars() {
            if letter.is_ascii_control() {
                let code = letter as u8;
                write!(f, "%{code:02x}")?;
            } else {
                f.write_char(letter)?;
            }
        }
        Ok(())
    }
}

/// Whether a character stands in a string of JSON after a backslash.
fn is_marked(letter: char) -> bool
    ensures { result ≡ is_marked letter }
{
    letter == '"' || letter == '\\'
}

/// A text as the inner part of a string of JSON.
#[derive(Clone, Copy)]
pub struct JsonText<'a> {
    pub text: &'a str,
}

impl fmt::Display for JsonText<'_> {
    ghost use Rattle.std.specs.Prelude.{Some};
    ghost use Rattle.msr_folders.specs.Paths.{text_json};

    ghost output = { λ shown. Some (text_json shown.text.now) };

    fn fmt<W: fmt::Write>(&self, f: &mut fmt::Formatter<W>) -> fmt::Result {
        for letter in self.text.chars() {
            if is_marked(letter) {
                write!(f, "\\{letter}")?;
            } else if letter.is_ascii_control() {
                let code = letter as u8;
                write!(f, "\\u00{code:02x}")?;
            } else {
                f.write_char(letter)?;
            }
        }
        Ok(())
    }
}

/// The path as it is printed.
pub fn shown_path(alloc: Global, path: &str) -> Result<String, AllocError>
    ensures { IfOk result (λ text. string_bytes text ≡ shown_path path.now) }
{
    let shown = Shown { path };
    format!(in alloc; "{shown}")
}
