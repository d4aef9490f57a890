//! The dry run of a repack: walks the folders of an archive, packs each day and counts what that gives, and writes
//! nothing.
#![tactic(auto)]

mod day;
mod line;
mod walk;

pub use walk::{Tried, trial};
