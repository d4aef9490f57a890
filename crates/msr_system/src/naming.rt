//! Giving the system's files other names, and taking names away.

use crate::copying::copy_bytes;
use crate::opening::{found, found_regular, is_there, tells_none};
use std::io::ErrorKind;
use std::rt::Files;
use std::{fs, io};

/// How a file got another name.
enum Linked {
    Done,
    /// Something has the name.
    HasName,
    /// The system gives it none.
    Refused,
}

/// Gives a file another name.
fn link<R: Files>(rt: &R, from: &str, to: &str) -> Linked {
    match fs::hard_link(rt, from, to) {
        Ok(()) => Linked::Done,
        Err(error) if error.kind() == ErrorKind::AlreadyExists => Linked::HasName,
        Err(_) => Linked::Refused,
    }
}

pub(crate) fn copy_file<R: Files>(rt: &R, from: &str, to: &str) -> io::Result<()> {
    match found_regular(rt, from) {
        Ok(_) => link_or_copy(rt, from, to),
        Err(error) => Err(error),
    }
}

fn link_or_copy<R: Files>(rt: &R, from: &str, to: &str) -> io::Result<()> {
    match link(rt, from, to) {
        Linked::Done => Ok(()),
        Linked::HasName => Err(ErrorKind::AlreadyExists.into()),
        Linked::Refused => copy_bytes(rt, from, to),
    }
}

/// Between two names of one file a rename does nothing: a file that may have both loses the first.
pub(crate) fn rename_over<R: Files>(
    rt: &R,
    from: &str,
    to: &str,
    has_links: bool,
) -> io::Result<()> {
    match fs::rename(rt, from, to) {
        Ok(()) if has_links => remove_left(rt, from),
        renamed => renamed,
    }
}

fn remove_left<R: Files>(rt: &R, path: &str) -> io::Result<()> {
    match is_there(rt, path) {
        Ok(true) => fs::remove_file(rt, path),
        Ok(false) => Ok(()),
        Err(error) => Err(error),
    }
}

pub(crate) fn rename_free<R: Files>(rt: &R, from: &str, to: &str) -> io::Result<bool> {
    match link(rt, from, to) {
        Linked::Done => done(fs::remove_file(rt, from)),
        Linked::HasName => Ok(false),
        Linked::Refused => rename_looked(rt, from, to),
    }
}

fn rename_looked<R: Files>(rt: &R, from: &str, to: &str) -> io::Result<bool> {
    match is_there(rt, to) {
        Ok(false) => done(fs::rename(rt, from, to)),
        Ok(true) => Ok(false),
        Err(error) => Err(error),
    }
}

fn done(answer: io::Result<()>) -> io::Result<bool> {
    match answer {
        Ok(()) => Ok(true),
        Err(error) => Err(error),
    }
}

/// Removing may be refused before the system looks whether something has the name.
pub(crate) fn remove<R: Files>(rt: &R, path: &str) -> io::Result<()> {
    match fs::remove_file(rt, path) {
        Ok(()) => Ok(()),
        Err(error) => match found(rt, path) {
            Ok(None) => Ok(()),
            _ => Err(error),
        },
    }
}

/// Takes an empty folder away, and tells whether it is gone.
pub(crate) fn remove_folder<R: Files>(rt: &R, folder: &str) -> io::Result<bool> {
    match fs::remove_dir(rt, folder) {
        Ok(()) => Ok(true),
        Err(error) => gone(error),
    }
}

fn gone(error: io::Error) -> io::Result<bool> {
    match error.kind() {
        ErrorKind::DirectoryNotEmpty => Ok(false),
        kind if tells_none(kind) => Ok(true),
        _ => Err(error),
    }
}
