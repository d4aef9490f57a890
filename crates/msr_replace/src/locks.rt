//! What a replace has to do with other processes. These calls change no names.

/// The locks of the folders of an archive. Whoever has the lock of a folder works on its days alone.
pub trait FolderLocks {
    /// The lock of a folder, which ends when it is dropped. Where the system has none, or the folder is not there, it locks
    /// nothing.
    type Lock: Drop;

    /// Locks the folder that stands there, and does not wait. Nothing, if another process has its lock.
    fn lock(&self, place: &str) -> Option<Self::Lock>;
}
