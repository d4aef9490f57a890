//! The frames of one record: the words of a run of Steim-1 or Steim-2, written in place.
#![tactic(auto)]

mod filling;
mod frames;
mod steim1_filling;
mod told_filling;
mod words_ahead;

pub use filling::fill_steim2;
pub use steim1_filling::fill_steim1;
pub use told_filling::fill_steim2_told;
pub use words_ahead::steim2_words;
