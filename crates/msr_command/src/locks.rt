//! The locks of the folders whose days are exchanged.

use msr_folders::{Lock, LockFile};
use msr_replace::FolderLocks;
use std::fs;
use std::fs::File;
use std::rt::Files;

/// Opens a folder, if there is one.
fn opened<R: Files>(rt: &R, place: &str) -> Option<R::File> {
    match fs::metadata(rt, place) {
        Ok(metadata) if metadata.is_dir() => File::open(rt, place).ok(),
        _ => None,
    }
}

/// Locks an opened folder, unless another process has it. A system without locks tells of none.
fn is_taken<F: LockFile>(folder: &Option<F>) -> bool {
    match folder {
        Some(folder) => folder.lock() == Lock::Others,
        None => false,
    }
}

/// The locks of the system's folders.
#[derive(Drop)]
pub(crate) struct SystemLocks<'a, R> {
    pub(crate) rt: &'a R,
}

impl<R: Files> FolderLocks for SystemLocks<'_, R>
where
    R::File: LockFile,
{
    /// The open folder, if it is there and can be opened.
    type Lock = Option<R::File>;

    fn lock(&self, place: &str) -> Option<Option<R::File>> {
        let opened = opened(self.rt, place);
        if is_taken(&opened) {
            return None;
        }
        Some(opened)
    }
}
