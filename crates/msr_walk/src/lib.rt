//! Repacks an archive of day files: walks its folders, repacks each day of waveform data to the
//! same path in another folder, and tells a line for each entry and the totals of the channels.
#![tactic(auto)]

mod batch;
mod claims;
mod day;
mod folders;
mod laws;
mod system;
mod walker;

pub use claims::{Asked, ClaimFault, Claims};
pub use folders::{Walked, walk};
pub use laws::days_stay;
pub use system::{SystemClaim, SystemClaims, SystemLeft};
