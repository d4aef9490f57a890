//! What a person is shown of a walk: each folder that is listed, and each of its files that is opened.

use msr_progress::Progress;
use msr_tree::{folder_above, is_within};
use std::alloc::Global;
use std::fs;
use std::io::Stderr;
use std::rt::Files;
use std::time::Clock;

/// What a person is shown of a walk, if it is asked for.
#[derive(Drop)]
pub(crate) struct Watch {
    progress: Progress<Stderr>,
    /// The folder that is walked.
    root: String,
    /// The file that was counted last.
    last: Option<String>,
}

/// The milliseconds that a clock tells, or 0 if it tells none.
fn milliseconds<C: Clock>(clock: &C) -> u64 {
    match clock.monotonic() {
        Ok(now) => u64::try_from(now.as_millis()).unwrap_or(0),
        Err(_) => 0,
    }
}

impl Watch {
    /// Nothing is shown.
    pub(crate) fn none(alloc: Global) -> Watch {
        Watch {
            progress: Progress::new(None, 0),
            root: String::new(alloc),
            last: None,
        }
    }

    /// The walk of that folder begins. Nothing is shown of it if its name cannot be kept.
    pub(crate) fn new<C: Clock>(clock: &C, alloc: Global, root: &str, screen: Stderr) -> Watch {
        match String::from_str(alloc, root) {
            Ok(root) => Watch {
                progress: Progress::new(Some(screen), milliseconds(clock)),
                root,
                last: None,
            },
            Err(_) => Watch::none(alloc),
        }
    }

    fn is_asked(&self) -> bool {
        self.progress.screen.is_some()
    }

    /// A path, from the folder that is walked if it stands below that.
    fn from_root<'p>(&self, path: &'p str) -> &'p str {
        match path.strip_prefix(self.root.as_str()) {
            Some(rest) => rest.strip_prefix('/').unwrap_or(path),
            None => path,
        }
    }

    fn show<C: Clock>(&mut self, clock: &C, alloc: Global, folder: &str) {
        let folder = self.from_root(folder);
        self.progress.show(alloc, milliseconds(clock), folder).ok();
    }

    /// A folder is listed.
    pub(crate) fn note_folder<C: Clock>(&mut self, clock: &C, alloc: Global, folder: &str) {
        if self.is_asked() {
            self.show(clock, alloc, folder);
        }
    }

    /// Whether a file could be opened. One that is opened again at once counts once, and none that stands elsewhere.
    pub(crate) fn note_file<R: Files + Clock>(
        &mut self,
        rt: &R,
        alloc: Global,
        path: &str,
        is_open: bool,
    ) {
        if self.is_asked()
            && is_open
            && is_within(self.root.as_str(), path)
            && !self.is_last(path)
        {
            self.count(rt, alloc, path);
        }
    }

    fn is_last(&self, path: &str) -> bool {
        match &self.last {
            Some(last) => last.as_str() == path,
            None => false,
        }
    }

    fn count<R: Files + Clock>(&mut self, rt: &R, alloc: Global, path: &str) {
        if let Ok(metadata) = fs::metadata(rt, path) {
            self.progress.count(metadata.len());
            self.last = String::from_str(alloc, path).ok();
            self.show(rt, alloc, folder_above(path));
        }
    }

    /// The walk has ended: nothing of it stays on the screen.
    pub(crate) fn clear(&mut self) {
        self.progress.clear().ok();
    }
}
