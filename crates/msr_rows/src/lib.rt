//! The records of miniSEED as they are read: a record's bytes to its row of samples, or to its first fault.
#![tactic(auto)]

mod area;
mod fault;
mod laws;
mod reading;
mod reverse;
mod row;
mod samples;
mod view;

pub use fault::FaultKind;
pub use laws::{one_answer, one_reverse, own_bytes_decide, rows_are_writable};
pub use reading::{decode_record, decode_record_in};
pub use reverse::reverse_in;
pub use row::{Key, Record, Row};
pub use samples::Samples;
pub use view::{RecordView, view_record};
