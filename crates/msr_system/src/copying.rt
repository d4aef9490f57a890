//! Copying the system's files, comparing them, and giving them owner, mode and time.

use crate::bytes::has_same_bytes;
use crate::facts::{RIGHTS, facts_of, is_one_file, system_time};
use crate::opening::{refusal, regular, regular_file};
use msr_devices::{DeviceFault, FromRead};
use msr_tree::{Facts, Rights, Time};
use std::alloc::Global;
use std::fs::{FileTimes, OpenFile, OpenOptions, Permissions};
use std::io::{ErrorKind, Read};
use std::os::unix::fs::{OpenOptionsExt, PermissionsExt, lchown};
use std::rt::Files;
use std::{fs, io};

/// Copies a file under a name that nothing has. What is half done is removed.
pub(crate) fn copy_bytes<R: Files>(rt: &R, from: &str, to: &str) -> io::Result<()> {
    let (mut source, facts) = regular(rt, from)?;
    let mut target = OpenOptions::new()
        .read(true)
        .write(true)
        .create_new(true)
        .mode(0o600)
        .open(rt, to)?;
    let copied = fill(rt, &mut source, &facts, &mut target, to);
    if copied.is_err() {
        let _ = fs::remove_file(rt, to);
    }
    copied
}

/// Copies a file's bytes, if it does not change meanwhile, with what the system lets it keep, and stores them.
fn fill<R: Files>(
    rt: &R,
    source: &mut R::File,
    facts: &Facts,
    target: &mut R::File,
    to: &str,
) -> io::Result<()> {
    let count = io::copy(source, target)?;
    let after = facts_of(&source.metadata()?);
    let is_whole = count == facts.bytes && after.bytes == count && after.changed == facts.changed;
    if !is_whole || target.metadata()?.len() != count {
        return Err(refusal("changed while it was copied"));
    }
    keep(rt, facts, target, to);
    target.sync_all()
}

/// Gives a copy the owner, group, mode and time of its file, as far as the system lets it. Without the owner it gets
/// none of the owner's special rights.
fn keep<R: Files>(rt: &R, facts: &Facts, target: &R::File, to: &str) {
    let rights = facts.rights;
    let is_owned = lchown(rt, to, Some(rights.owner), Some(rights.group)).is_ok();
    let mode = if is_owned {
        rights.mode
    } else {
        rights.mode & 0o777
    };
    let _ = target.set_permissions(Permissions::from_mode(mode));
    if let Some(time) = system_time(facts.changed) {
        let _ = target.set_times(FileTimes::new().set_modified(time));
    }
}

/// Gives a file the owner, group, mode and time that are asked for.
pub(crate) fn dress<R: Files>(
    rt: &R,
    path: &str,
    facts: &Facts,
    time: Option<Time>,
) -> io::Result<()> {
    match regular_file(rt, path) {
        Ok(file) => dress_opened(rt, &file, path, &facts.rights, time),
        Err(error) => Err(error),
    }
}

fn dress_opened<R: Files>(
    rt: &R,
    file: &R::File,
    path: &str,
    rights: &Rights,
    time: Option<Time>,
) -> io::Result<()> {
    lchown(rt, path, Some(rights.owner), Some(rights.group))?;
    file.set_permissions(Permissions::from_mode(rights.mode & RIGHTS))?;
    if let Some(time) = time {
        set_time(file, time)?;
    }
    match file.metadata() {
        Ok(metadata) => require_dressed(&facts_of(&metadata), rights, time),
        Err(error) => Err(error),
    }
}

fn set_time<F: OpenFile>(file: &F, time: Time) -> io::Result<()> {
    match system_time(time) {
        Some(modified) => file.set_times(FileTimes::new().set_modified(modified)),
        None => Err(refusal("a time before 1970")),
    }
}

fn require_dressed(dressed: &Facts, rights: &Rights, time: Option<Time>) -> io::Result<()> {
    if dressed.rights == *rights && dressed.changed == time.unwrap_or(dressed.changed) {
        Ok(())
    } else {
        Err(refusal("owner, mode or time cannot be kept"))
    }
}

/// Whether two regular files have the same bytes.
pub(crate) fn compare<R: Files>(rt: &R, alloc: Global, one: &str, other: &str) -> io::Result<bool> {
    let (first, facts) = regular(rt, one)?;
    let (second, others) = regular(rt, other)?;
    match told_by_facts(&facts, &others) {
        Some(same) => Ok(same),
        None => compare_opened(alloc, first, second),
    }
}

/// Whether they have, if this is seen without reading.
fn told_by_facts(one: &Facts, other: &Facts) -> Option<bool> {
    if is_one_file(one, other) {
        Some(true)
    } else if one.bytes != other.bytes {
        Some(false)
    } else {
        None
    }
}

fn compare_opened<F: Read + Drop>(alloc: Global, one: F, other: F) -> io::Result<bool> {
    let mut first = FromRead::new(one);
    let mut second = FromRead::new(other);
    told_same(has_same_bytes(alloc, &mut first, &mut second))
}

fn told_same(answer: Result<bool, DeviceFault>) -> io::Result<bool> {
    match answer {
        Ok(same) => Ok(same),
        Err(DeviceFault::Failed) => Err(refusal("read fault")),
        Err(DeviceFault::Memory) => Err(ErrorKind::OutOfMemory.into()),
    }
}
