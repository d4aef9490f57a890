//! Looks at what could not be read.
ghost use Rattle.std.specs.Prelude.{◌≡◌, IfSome, Some};
ghost use Rattle.msr_options.specs.Hints.{IsOfBytes, IsOfUnread, hint_of_begin};

use crate::hint::Hint;
use std::fs::File;
use std::io::Read;
use std::rt::Files;
use std::{fs, io};

const GZIP: [u8; 2] = [0x1f, 0x8b];

const MINISEED_3: [u8; 3] = [b'M', b'S', 3];

/// What begins so, if it is known.
fn hint_of_begin(first: &[u8]) -> Option<Hint>
    ensures { result ≡ hint_of_begin first.now }
{
    if first.starts_with(&GZIP) {
        Some(Hint::Gzip)
    } else if first.starts_with(&MINISEED_3) {
        Some(Hint::MiniSeed3)
    } else {
        None
    }
}

/// What begins so that is still to be read. A read that fails or gives too little tells nothing.
fn hint_in<F: Read>(file: &mut F) -> Option<Hint>
    ensures kind { IfSome result IsOfBytes }
    ensures begins { IfSome result (λ hint. IfSome (F.remaining file.old) (λ bytes. hint_of_begin bytes ≡ Some hint)) }
{
    let mut first = [0; 3];
    match file.read(&mut first) {
        Ok(count) => hint_of_begin(&first[..count]),
        Err(_) => None,
    }
}

/// Opens a file once more. Only a regular file is opened: what a pipe gave is gone, and opening it waits for more.
fn opened_again<R: Files>(rt: &R, name: &str) -> Option<R::File> {
    match fs::metadata(rt, name) {
        Ok(metadata) if metadata.is_file() => File::open(rt, name).ok(),
        _ => None,
    }
}

/// What a file is whose bytes have a fault.
pub fn hint_of_file<R: Files>(rt: &R, name: &str) -> Option<Hint>
    ensures { IfSome result IsOfBytes }
{
    hint_in(&mut opened_again(rt, name)?)
}

/// Which of two files could not be read, this report or its records: the report is read once more.
pub fn hint_of_report<R: Files>(rt: &R, name: &str) -> Option<Hint>
    ensures { IfSome result IsOfUnread }
{
    match io::copy(&mut opened_again(rt, name)?, &mut io::sink()) {
        Ok(_) => Some(Hint::UnreadRecords),
        Err(_) => Some(Hint::UnreadReport),
    }
}

/// Whether what cannot be read is a folder.
pub fn hint_of_folder<R: Files>(rt: &R, name: &str) -> Option<Hint>
    ensures { IfSome result (λ hint. hint ≡ Hint.Folder) }
{
    match fs::metadata(rt, name) {
        Ok(metadata) if metadata.is_dir() => Some(Hint::Folder),
        _ => None,
    }
}
