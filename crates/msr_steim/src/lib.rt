//! The Steim codec (SEED Reference Manual 2.4, appendix B): the differences that a word holds, and the
//! samples that frames of words carry.
#![tactic(auto)]

mod area;
mod borrowed;
mod carried;
mod fours;
mod frames;
mod group;
mod lanes;
mod sums;
mod word;

pub use area::{Decoded, SteimFault, decode_steim, decode_steim_into, one_outcome};
pub use borrowed::{SteimSamples, steim_samples};
pub use frames::{fill_steim, filled_area_carries};
pub use group::{all_fit_bits, fits_bits, group_width, is_group};
pub use msr_base::Version;
pub use word::{BadCode, Group, holds_one_list, read_word, write_word};
