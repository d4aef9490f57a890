//! What the crates of the format and those of the reports share: byte order, kinds and lengths of records, the list of
//! samples, counts of records.
#![tactic(auto)]

mod counts;
mod forms;
mod kinds;
mod lengths;
mod numbers;
mod order;
mod samples;
mod storage;

pub use counts::Counts;
pub use forms::Form;
pub use kinds::{Kind, Kinds};
pub use lengths::Length;
pub use numbers::number_of;
pub use order::Order;
pub use samples::SampleVec;
pub use storage::{Storage, Version, Width};
