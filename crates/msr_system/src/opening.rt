//! What stands under the system's names, and the opening of it.

use crate::facts::{facts_of, is_one_file};
use msr_tree::{Facts, Kind};
use std::fs::{File, Metadata, OpenFile};
use std::io::ErrorKind;
use std::rt::Files;
use std::{fs, io};

/// What is not the system's own refusal.
pub(crate) fn refusal(reason: &str) -> io::Error {
    io::Error::new(ErrorKind::Other, reason)
}

/// Whether such an error tells that nothing stands under a name.
pub(crate) fn tells_none(kind: ErrorKind) -> bool {
    matches!(kind, ErrorKind::NotFound | ErrorKind::NotADirectory)
}

fn shown(answer: io::Result<Metadata>) -> io::Result<Option<Facts>> {
    match answer {
        Ok(metadata) => Ok(Some(facts_of(&metadata))),
        Err(error) if tells_none(error.kind()) => Ok(None),
        Err(error) => Err(error),
    }
}

/// What stands under a name.
pub(crate) fn found<R: Files>(rt: &R, path: &str) -> io::Result<Option<Facts>> {
    shown(fs::symlink_metadata(rt, path))
}

/// What stands under a name, links followed.
pub(crate) fn followed<R: Files>(rt: &R, path: &str) -> io::Result<Option<Facts>> {
    shown(fs::metadata(rt, path))
}

/// Whether something stands under a name.
pub(crate) fn is_there<R: Files>(rt: &R, path: &str) -> io::Result<bool> {
    match found(rt, path) {
        Ok(facts) => Ok(facts.is_some()),
        Err(error) => Err(error),
    }
}

/// Whether two names lead to one file, links followed.
pub(crate) fn are_one<R: Files>(rt: &R, one: &str, other: &str) -> io::Result<bool> {
    match followed(rt, one) {
        Ok(Some(facts)) => leads_to(rt, other, &facts),
        Ok(None) => Ok(false),
        Err(error) => Err(error),
    }
}

fn leads_to<R: Files>(rt: &R, path: &str, file: &Facts) -> io::Result<bool> {
    match followed(rt, path) {
        Ok(Some(facts)) => Ok(is_one_file(file, &facts)),
        Ok(None) => Ok(false),
        Err(error) => Err(error),
    }
}

/// What is told of the regular file under a name.
pub(crate) fn found_regular<R: Files>(rt: &R, path: &str) -> io::Result<Facts> {
    match found(rt, path) {
        Ok(Some(facts)) => only_regular(facts),
        Ok(None) => Err(ErrorKind::NotFound.into()),
        Err(error) => Err(error),
    }
}

fn only_regular(facts: Facts) -> io::Result<Facts> {
    if facts.kind == Kind::Regular {
        Ok(facts)
    } else {
        Err(refusal("not a regular file"))
    }
}

/// Opens a regular file of which it is known how many bytes it has.
pub(crate) fn known_regular<R: Files>(
    rt: &R,
    path: &str,
    bytes: u64,
) -> io::Result<(R::File, u64)> {
    match File::open(rt, path) {
        Ok(file) => Ok((file, bytes)),
        Err(error) => Err(error),
    }
}

/// Opens the regular file to which a name leads, links followed, with its length.
pub(crate) fn followed_regular<R: Files>(rt: &R, path: &str) -> io::Result<(R::File, u64)> {
    match fs::metadata(rt, path) {
        Ok(metadata) if metadata.is_file() => known_regular(rt, path, metadata.len()),
        Ok(_) => Err(refusal("not a regular file")),
        Err(error) => Err(error),
    }
}

/// Opens a regular file, with what is told of it. Nothing else is opened, since opening a pipe waits for somebody who
/// writes to it.
pub(crate) fn regular<R: Files>(rt: &R, path: &str) -> io::Result<(R::File, Facts)> {
    let looked = found_regular(rt, path)?;
    let file = File::open(rt, path)?;
    match opened(&file, &looked) {
        Ok(facts) => Ok((file, facts)),
        Err(error) => Err(error),
    }
}

/// What is told of an open file, if it is what a look found.
fn opened<F: OpenFile>(file: &F, looked: &Facts) -> io::Result<Facts> {
    match file.metadata() {
        Ok(metadata) => same_file(facts_of(&metadata), looked),
        Err(error) => Err(error),
    }
}

fn same_file(facts: Facts, looked: &Facts) -> io::Result<Facts> {
    if is_one_file(looked, &facts) {
        Ok(facts)
    } else {
        Err(refusal("another file took its place"))
    }
}

/// The same, with its length alone.
pub(crate) fn long_regular<R: Files>(rt: &R, path: &str) -> io::Result<(R::File, u64)> {
    match regular(rt, path) {
        Ok((file, facts)) => Ok((file, facts.bytes)),
        Err(error) => Err(error),
    }
}

/// The same, without what is told of it.
pub(crate) fn regular_file<R: Files>(rt: &R, path: &str) -> io::Result<R::File> {
    match regular(rt, path) {
        Ok((file, _)) => Ok(file),
        Err(error) => Err(error),
    }
}

pub(crate) fn store<R: Files>(rt: &R, folder: &str) -> io::Result<()> {
    match File::open(rt, folder) {
        Ok(file) => file.sync_all(),
        Err(error) => Err(error),
    }
}

pub(crate) fn store_bytes<R: Files>(rt: &R, path: &str) -> io::Result<()> {
    match regular_file(rt, path) {
        Ok(file) => file.sync_all(),
        Err(error) => Err(error),
    }
}
