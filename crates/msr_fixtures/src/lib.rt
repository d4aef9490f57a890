//! Records for the tests of all crates: one header, edits of it by the names of its fields, records made of it, and the
//! key of their rows; numbers that look like chance; and the failure of a test that names its row. Only tests and
//! programs that measure call it. Its functions promise no more than that they end, and that the key can be written:
//! whether the rest is right is shown by the values that the tests expect.
#![tactic(auto)]

mod keys;
mod named;
mod numbers;
mod records;
mod rows;

pub use keys::key_at;
pub use named::{Edit, edit_by_name};
pub use numbers::next_of;
pub use records::{
    START, header_bytes, int32_record, little_record, record, record_of_words, steim_record,
};
pub use rows::expect;
