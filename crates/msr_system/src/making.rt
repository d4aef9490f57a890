//! Making the system's folders, and storing them.

use crate::opening::{refusal, store, tells_none};
use msr_tree::{folder_above, is_within};
use std::alloc::Global;
use std::io::ErrorKind;
use std::rt::Files;
use std::{fs, io};

/// Makes the folders below another one that lead to a folder, and stores all of them, the lowest first, unless they were
/// there and stored before, or something is in the way.
pub(crate) fn make_stored<R: Files>(
    rt: &R,
    alloc: Global,
    stored: &mut Option<String>,
    top: &str,
    folder: &str,
) -> io::Result<bool> {
    if !is_within(top, folder) {
        return Err(refusal("not below the folder"));
    }
    let mut is_new = false;
    let made = make_all(rt, top, folder, &mut is_new);
    if is_new {
        *stored = None;
    }
    match made {
        Ok(true) => store_unless(rt, alloc, stored, top, folder),
        _ => made,
    }
}

fn make_all<R: Files>(rt: &R, top: &str, folder: &str, is_new: &mut bool) -> io::Result<bool> {
    if top.len() < folder.len() {
        make_below(rt, top, folder, is_new)
    } else {
        Ok(true)
    }
}

/// The highest first, unless something is in the way.
fn make_below<R: Files>(rt: &R, top: &str, folder: &str, is_new: &mut bool) -> io::Result<bool> {
    for end in top.len()..folder.len() {
        let made = make_at(rt, top, folder, end, is_new);
        if !matches!(made, Ok(true)) {
            return made;
        }
    }
    make_folder(rt, folder, is_new)
}

fn make_at<R: Files>(
    rt: &R,
    top: &str,
    folder: &str,
    end: usize,
    is_new: &mut bool,
) -> io::Result<bool> {
    match folder.split_at_checked(end) {
        Some((above, rest)) if top.len() < end && rest.starts_with('/') => {
            make_folder(rt, above, is_new)
        }
        _ => Ok(true),
    }
}

/// Makes a folder, unless there is one, or something else is in the way, as a link to a folder.
fn make_folder<R: Files>(rt: &R, path: &str, is_new: &mut bool) -> io::Result<bool> {
    match fs::create_dir(rt, path) {
        Ok(()) => {
            *is_new = true;
            Ok(true)
        }
        Err(error) if error.kind() == ErrorKind::AlreadyExists => is_folder(rt, path),
        Err(error) => Err(error),
    }
}

fn is_folder<R: Files>(rt: &R, path: &str) -> io::Result<bool> {
    match fs::symlink_metadata(rt, path) {
        Ok(metadata) => Ok(metadata.is_dir()),
        Err(error) if tells_none(error.kind()) => Ok(false),
        Err(error) => Err(error),
    }
}

fn store_unless<R: Files>(
    rt: &R,
    alloc: Global,
    stored: &mut Option<String>,
    top: &str,
    folder: &str,
) -> io::Result<bool> {
    if is_stored(stored, folder) {
        return Ok(true);
    }
    match store_all(rt, top, folder) {
        Ok(()) => {
            *stored = String::from_str(alloc, folder).ok();
            Ok(true)
        }
        Err(error) => Err(error),
    }
}

fn is_stored(stored: &Option<String>, folder: &str) -> bool {
    match stored {
        Some(stored) => stored.as_str() == folder,
        None => false,
    }
}

fn store_all<R: Files>(rt: &R, top: &str, folder: &str) -> io::Result<()> {
    let mut at = folder;
    while top.len() < at.len() {
        let stored = store(rt, at);
        if stored.is_err() {
            return stored;
        }
        at = folder_above(at);
    }
    store(rt, top)
}
