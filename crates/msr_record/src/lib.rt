//! The records of miniSEED: what msr_rows reads of them, a row to its record, and segments written in the fewest
//! records of one form.
#![tactic(auto)]

mod laws;
mod opened;
mod record_laws;
mod writer;
mod writing;
mod written_area;

pub use laws::{one_output, output_has_size, output_keeps_segments, segments_have_output};
pub use msr_base::{Kind, Length};
pub use msr_rows::{
    FaultKind, Key, Record, RecordView, Row, Samples, decode_record, one_answer, one_reverse,
    own_bytes_decide, reverse_in, rows_are_writable, view_record,
};
pub use opened::OpenSegment;
pub use record_laws::{one_written, run_has_record};
pub use writer::SegmentWriter;
pub use writing::{encode_record, encode_run};
pub use written_area::{WrittenRun, samples_have_32_bits};
