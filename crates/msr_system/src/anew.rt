//! Days that are made anew although their file is unchanged.

use std::alloc::Global;

/// How many days are made anew although their file is unchanged. A walk reads the report of a day right after its stamp only
/// if that is of the file as it is; if the day gets a new report then, the old one tells other options or records.
#[derive(Drop)]
pub(crate) struct Anew {
    pub(crate) days: u64,
    /// The stamp that was opened, if no other file was since.
    stamp: Option<String>,
    /// The report that was opened after its stamp, until it gets its name anew.
    report: Option<String>,
}

/// Whether a file has this name.
fn has_name(file: &Option<String>, name: &str) -> bool {
    match file {
        Some(file) => file.as_str() == name,
        None => false,
    }
}

/// Whether this is the stamp of the day whose report that is.
fn is_beside(stamp: &Option<String>, report: &str) -> bool {
    let (Some(stamp), Some(day)) = (stamp, report.strip_suffix(".txt")) else {
        return false;
    };
    match stamp.strip_suffix(".from") {
        Some(stamped) => stamped == day,
        None => false,
    }
}

impl Anew {
    pub(crate) fn new() -> Anew {
        Anew {
            days: 0,
            stamp: None,
            report: None,
        }
    }

    /// A file is opened that was looked at. What memory has no room for is not counted.
    pub(crate) fn note_opened(&mut self, alloc: Global, path: &str) {
        if is_beside(&self.stamp, path) {
            self.report = String::from_str(alloc, path).ok();
        }
        self.stamp = if path.ends_with(".from") {
            String::from_str(alloc, path).ok()
        } else {
            None
        };
    }

    /// A file got this name.
    pub(crate) fn note_named(&mut self, name: &str) {
        if has_name(&self.report, name) {
            self.days = self.days.saturating_add(1);
            self.report = None;
        }
    }
}
