//! Folders that a loss of power leaves.
use std::alloc::Global;
use std::fs::{File, OpenFile};
use std::io::ErrorKind;
use std::rt::Files;
use std::{fs, io};

/// Makes a folder, if nothing has its name, with those that lead to it, and waits until the names of all of them are on
/// the disk.
pub fn make_stored<R: Files>(rt: &R, alloc: Global, folder: &str) -> io::Result<()> {
    fs::create_dir_all(rt, folder)?;
    for end in 1..folder.len() {
        if let Some((above, rest)) = folder.split_at_checked(end)
            && rest.starts_with('/')
        {
            store_name(rt, alloc, above)?;
        }
    }
    store_name(rt, alloc, folder)
}

/// Waits until the name of a folder is on the disk. If the folder in which it stands may not be read, or is on no disk, as
/// a mounted folder's may be, others made it.
fn store_name<R: Files>(rt: &R, alloc: Global, folder: &str) -> io::Result<()> {
    let above = match format!(in alloc; "{folder}/..") {
        Ok(above) => above,
        Err(_) => return Err(ErrorKind::OutOfMemory.into()),
    };
    match stored(rt, above.as_str()) {
        Err(error) if is_of_others(error.kind()) => Ok(()),
        answer => answer,
    }
}

fn stored<R: Files>(rt: &R, folder: &str) -> io::Result<()> {
    File::open(rt, folder)?.sync_all()
}

fn is_of_others(kind: ErrorKind) -> bool {
    matches!(kind, ErrorKind::PermissionDenied | ErrorKind::InvalidInput)
}
