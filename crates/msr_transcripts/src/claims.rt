//! Claims as walks that were killed leave them.

use crate::stage::Stage;
use std::fs;
use std::os::unix::fs::MetadataExt;

/// What such a walk left beside the name of a file, under the number of its claim.
fn leave_part(stage: &mut Stage<'_>, path: &str, ending: &str, number: u64) {
    let part = stage.made(format!(in stage.alloc(); "{path}{ending}.{number}.part"));
    stage.write(part.as_str(), b"killed");
}

/// `claim RECORDS REPORT`: what a killed walk leaves of a day: RECORDS.claim, empty, and RECORDS.N.part,
/// REPORT.txt.N.part and REPORT.from.N.part, where N is the claim's number.
pub fn leave(stage: &mut Stage<'_>, records: &str, report: &str) {
    let claim = stage.made(format!(in stage.alloc(); "{records}.claim"));
    stage.write(claim.as_str(), &[]);
    let number = match fs::metadata(stage.rt, claim.as_str()) {
        Ok(metadata) => metadata.ino(),
        Err(_) => return stage.note(false),
    };
    leave_part(stage, records, "", number);
    leave_part(stage, report, ".txt", number);
    leave_part(stage, report, ".from", number);
}
