//! Locks of files and folders, which end with the process.
use std::fs::{File, TryLockError};

/// Who has the lock of a file.
#[derive(Clone, Copy, PartialEq, Eq)]
pub enum Lock {
    /// Whoever opened it so, until it is closed, also by the end of the process.
    Ours,
    /// Somebody else.
    Others,
    /// The system has no locks for it.
    Unknown,
}

/// An open file that can be locked.
pub trait LockFile {
    /// Locks the file, if nobody else has, and does not wait.
    fn lock(&self) -> Lock;
}

impl LockFile for File {
    fn lock(&self) -> Lock {
        match self.try_lock() {
            Ok(()) => Lock::Ours,
            Err(TryLockError::WouldBlock) => Lock::Others,
            Err(TryLockError::Error(_)) => Lock::Unknown,
        }
    }
}
