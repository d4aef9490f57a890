//! The records of an input, one after another, and what their rows do.
//!
//! An input is read to its end, or to its first fault. A record is given as soon as its own bytes have
//! come, before a read after them. A source that fails is never taken for one that has ended, and
//! running out of memory never for a fault of the input.
#![tactic(auto)]

mod fault;
mod from_record;
mod laws;
mod outline;
mod record_reader;
mod row_reader;
mod settings;
mod step;

pub use fault::{Fault, ReadFault};
pub use laws::{
    all_rows_are_readable, memory_is_no_fault, one_first_fault, one_list_of_records,
    readable_has_no_fault,
};
pub use outline::RowOutline;
pub use row_reader::{NextOutline, NextRecord, NextRow, RowReader};
pub use settings::Settings;
