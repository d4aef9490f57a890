//! The report of a repacked input, and its text.
#![tactic(auto)]

mod fields;
mod json;
mod laws;
mod lines;
mod report;
mod text;

pub use fields::{push_field, push_padded};
pub use json::{ListedSegment, push_json_counts, push_json_line, unpadded};
pub use laws::{has_text, one_text};
pub use lines::{kinds_line, push_counts, push_list_line};
pub use msr_base::Counts;
pub use report::{Report, SegmentLine};
