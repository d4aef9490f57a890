//! Files by their names: which file it is, and making it last.
ghost use Rattle.std.specs.Prelude.{◌≡◌, IfErr};

use msr_devices::DeviceFault;
use std::fs::{Metadata, OpenFile};
use std::io::ErrorKind;
use std::os::unix::fs::MetadataExt;
use std::rt::Files;
use std::{fs, io};

/// Which file or folder it is, whatever its names: its device, and its number there.
#[derive(Clone, Copy, PartialEq, Eq)]
pub struct FileId {
    device: u64,
    pub number: u64,
}

impl FileId {
    pub fn of(metadata: &Metadata) -> FileId {
        FileId {
            device: metadata.dev(),
            number: metadata.ino(),
        }
    }

    /// `None` if it is no regular file, as a pipe, a terminal or /dev/null.
    pub fn of_regular(metadata: &Metadata) -> Option<FileId> {
        metadata.is_file().then(|| FileId::of(metadata))
    }
}

/// Whether such an error tells that nothing stands under a name.
fn tells_none(kind: ErrorKind) -> bool {
    matches!(kind, ErrorKind::NotFound | ErrorKind::NotADirectory)
}

/// Whether the system tells that nothing stands under a name, not even a link that leads nowhere.
pub fn is_gone<R: Files>(rt: &R, path: &str) -> bool {
    match fs::symlink_metadata(rt, path) {
        Ok(_) => false,
        Err(error) => tells_none(error.kind()),
    }
}

/// What a look at a name tells, links followed.
#[derive(Drop)]
pub(crate) enum Look {
    Found(Metadata),
    /// Nothing stands there, or a link that leads nowhere.
    Nothing,
    /// The system does not tell.
    Unknown,
}

impl Look {
    pub(crate) fn at<R: Files>(rt: &R, path: &str) -> Look {
        match fs::metadata(rt, path) {
            Ok(metadata) => Look::Found(metadata),
            Err(error) if tells_none(error.kind()) => Look::Nothing,
            Err(_) => Look::Unknown,
        }
    }
}

/// Waits until the system has stored what was written to a regular file: a disk that is full, or a file server that
/// lost it, may tell it only now. A file system that cannot wait for that tells nothing.
pub fn settle<F: OpenFile>(file: &F) -> Result<(), DeviceFault>
    ensures { IfErr result (λ fault. fault ≡ DeviceFault.Failed) }
{
    match file.metadata() {
        Ok(metadata) if metadata.is_file() => settle_regular(file),
        Ok(_) => Ok(()),
        Err(_) => Err(DeviceFault::Failed),
    }
}

/// The same of what is known to be a regular file.
fn settle_regular<F: OpenFile>(file: &F) -> Result<(), DeviceFault>
    ensures { IfErr result (λ fault. fault ≡ DeviceFault.Failed) }
{
    match file.sync_data() {
        Ok(()) => Ok(()),
        Err(error) => match error.kind() {
            ErrorKind::InvalidInput | ErrorKind::Unsupported => Ok(()),
            _ => Err(DeviceFault::Failed),
        },
    }
}
