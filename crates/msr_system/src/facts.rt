//! What the system tells of its files.

use msr_tree::{Facts, Kind, Rights, Time};
use std::fs::{FileType, Metadata};
use std::os::unix::fs::MetadataExt;
use std::time::{Duration, SystemTime, UNIX_EPOCH};

/// The bits of a mode that say who may do what.
pub(crate) const RIGHTS: u32 = 0o7777;

fn kind_of(found: FileType) -> Kind {
    if found.is_file() {
        Kind::Regular
    } else if found.is_dir() {
        Kind::Folder
    } else if found.is_symlink() {
        Kind::Link
    } else {
        Kind::Other
    }
}

pub(crate) fn facts_of(metadata: &Metadata) -> Facts {
    Facts {
        kind: kind_of(metadata.file_type()),
        device: metadata.dev(),
        number: metadata.ino(),
        bytes: metadata.len(),
        changed: Time {
            seconds: metadata.mtime(),
            nanoseconds: metadata.mtime_nsec(),
        },
        touched: Time {
            seconds: metadata.ctime(),
            nanoseconds: metadata.ctime_nsec(),
        },
        rights: Rights {
            owner: metadata.uid(),
            group: metadata.gid(),
            mode: metadata.mode() & RIGHTS,
        },
    }
}

pub(crate) fn is_one_file(one: &Facts, other: &Facts) -> bool {
    one.device == other.device && one.number == other.number
}

/// A time that a file can be given: one from 1970 on.
pub(crate) fn system_time(time: Time) -> Option<SystemTime> {
    let (Ok(seconds), Ok(nanoseconds)) = (
        u64::try_from(time.seconds),
        u64::try_from(time.nanoseconds),
    ) else {
        return None;
    };
    let part = Duration::from_nanos(nanoseconds);
    UNIX_EPOCH.checked_add(Duration::from_secs(seconds).checked_add(part)?)
}
