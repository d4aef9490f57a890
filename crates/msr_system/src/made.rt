//! Files that were made a moment ago.

use std::mem;

/// A file that was made, and how many bytes it took.
#[derive(Drop)]
struct MadeFile {
    path: String,
    bytes: u64,
}

/// The two files that were made and stored last, as the records and the report of a day, if no name was given, taken away or
/// changed since. They are regular files, as long as what they took: nobody else changes them, so they need no look.
#[derive(Drop)]
pub(crate) struct Made {
    last: Option<MadeFile>,
    before: Option<MadeFile>,
}

/// How many bytes a file has that has this name.
fn bytes_at(file: &Option<MadeFile>, path: &str) -> Option<u64> {
    match file {
        Some(file) if file.path.as_str() == path => Some(file.bytes),
        _ => None,
    }
}

impl Made {
    pub(crate) fn none() -> Made {
        Made {
            last: None,
            before: None,
        }
    }

    /// A file was made and stored.
    pub(crate) fn note(&mut self, path: String, bytes: u64) {
        let before = mem::replace(&mut self.last, Some(MadeFile { path, bytes }));
        self.before = before;
    }

    /// Names may be others now.
    pub(crate) fn forget(&mut self) {
        self.last = None;
        self.before = None;
    }

    /// How many bytes the file of that name has, if it is one of these.
    pub(crate) fn bytes_of(&self, path: &str) -> Option<u64> {
        bytes_at(&self.last, path).or(bytes_at(&self.before, path))
    }
}
