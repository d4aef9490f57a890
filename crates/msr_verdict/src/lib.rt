//! Whether a report shows that packed records are the fewest.
#![tactic(auto)]

mod agreement;
mod checker;
mod laws;
mod verdict;
mod verify;

pub use laws::shown_is_fewest;
pub use verdict::Verdict;
pub use verify::{verify_beside, verify_packed};
