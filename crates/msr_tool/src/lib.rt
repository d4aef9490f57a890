//! Repacks miniSEED: reads records, joins them into segments, and writes each segment again in the fewest
//! records of one length, with a report that shows that fewer do not suffice.
#![tactic(auto)]

mod check;
mod fault;
mod laws;
mod lined_writer;
mod list;
mod list_writer;
mod repacking;
mod tasks;

pub use check::check_packed;
pub use fault::ToolFault;
pub use laws::{
    one_refusal, one_repacking, readable_is_listed, readable_is_repacked, repacked_has_segments,
    repacked_is_least, repacked_is_shown, strict_writes_the_same,
};
pub use list::list_segments;
pub use msr_base::{Counts, Kinds, Length};
pub use msr_devices::{
    Behavior, DeviceFault, FromRead, FromWrite, Sink, Source, TestSink, TestSource,
};
pub use msr_input::Fault;
pub use msr_options::{ListForm, Options};
pub use msr_report::{Report, SegmentLine};
pub use msr_report_reader::{ReportFault, read_report};
pub use msr_rows::{FaultKind, Key};
pub use msr_verdict::Verdict;
pub use repacking::{feed, repack};
pub use tasks::{check_and_tell, feed_and_report, repack_and_report};
