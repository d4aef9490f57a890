//! Verifies the repack of an archive: walks its folders, and tells of each day file whether its records have the same
//! data and its report shows that they are the fewest.
#![tactic(auto)]

mod day;
mod folders;
mod judgement;
mod judging;
mod laws;
mod tally;
mod visitors;

pub use folders::verify;
pub use judging::{Finding, VerifyFault, verify_day};
pub use laws::{repacked_is_same, same_inputs_have_one_output, verified_is_exact};
