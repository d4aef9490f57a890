//! Which runs of samples fit a record, for each kind of record, with a tracker for each kind.
#![tactic(auto)]

mod bounds;
mod codecs;
mod counts;
mod division;
mod first_group;
mod integers;
mod kinds;
mod pairs;
mod steim1;
mod steim2;
mod widths;
mod window;

pub use bounds::{
    fits_up_to_its_end, steim1_look_back, steim1_word_by_word, steim2_greedy_reach,
    two_halves_in_a_word, two_wide_in_a_word,
};
pub use codecs::{Codec, Int16, Int24, Int32, Integers, Steim1, Steim2};
pub use counts::{is_narrow, magnitude};
pub use division::{division_exists, groups, one_division};
pub use first_group::sizes_of;
pub use integers::leading_of_bits;
pub use kinds::{
    Fitting, Run, difference, difference_after, first_kind, fitting_is_decided, longest_group,
    longest_run, run_fits, steim2_dominates,
};
pub use msr_base::{Form, Kind, Kinds, Length};
pub use msr_steim::fits_bits;
pub use steim1::{begins_with_four, steim1_reach};
pub use steim2::{Steim2Reach, steim2_reach};
pub use widths::{are_narrow, count_halves, count_wide};
pub use window::{FourSizes, Window, size_after};
