//! What stands under the name of an entry.

/// What stands under the name of an entry, links followed.
#[derive(Clone, Copy, PartialEq, Eq)]
pub enum FileKind {
    Folder,
    Other,
    /// Nothing, though the folder had it when it was listed.
    Gone,
}
