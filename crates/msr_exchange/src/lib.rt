//! The two files of a day change places, and nothing is lost at any moment.
#![tactic(auto)]

mod exchange;
mod folders;
mod moves;
mod names;
mod preparing;
mod restore;
mod stamping;
mod start;
mod told;
mod work;

pub use exchange::replace_day;
pub use folders::clear_parts;
pub use moves::Hindrance;
pub use names::{DayNames, Place, other_days_are_apart};
pub use preparing::Verified;
pub use restore::restore_day;
pub use stamping::{StampNames, stamp_day, stamp_records};
pub use start::{begins_again, begins_at_rest, goes_both_ways};
pub use told::{Refusal, Told};
pub use work::DayWork;
