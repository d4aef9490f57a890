//! A day of an archive: its file is repacked to records and report, which are verified, and get their names.
#![tactic(auto)]

mod age;
mod answer;
mod clearing;
mod hold;
mod kept;
mod laws;
mod looks;
mod making;
mod parts;
mod places;
mod repacking;
mod shrinking;
mod stamping;
mod verifying;
mod writing;

pub use age::is_young;
pub use answer::{DayEnd, DayFault, DayOutcome, Left, Repacked, Shrinkage};
pub use hold::Hold;
pub use kept::same_day;
pub use laws::left_day_is_stamped;
pub use making::do_day;
pub use places::Places;
pub use repacking::{day_length, repack_day_of};
