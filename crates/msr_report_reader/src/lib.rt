//! A report read from its text.
#![tactic(auto)]

mod draft;
mod fault;
mod fields;
mod first;
mod keys;
mod laws;
mod lines;
mod reading;
mod times;

pub use fault::ReportFault;
pub use laws::{line_in_range, one_report, report_in_range, text_is_read_back};
pub use reading::{read_report, report_of};
