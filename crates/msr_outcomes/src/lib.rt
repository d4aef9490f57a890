//! What becomes of the entries of an archive: the line that tells it, what they are counted to, and the last lines.
#![tactic(auto)]

mod channel;
mod outcome;
mod summary;
mod tally;

pub use channel::channel_text;
pub use outcome::{Outcome, counts_told, repacked_json};
pub use summary::{write_summary, write_sums};
pub use tally::Tally;
