//! Records of the days of an archive take the places of their files, which are set aside, and the way back.
#![tactic(auto)]

mod answers;
mod day;
mod kinds;
mod lines;
mod locks;
mod looks;
mod progress;
mod replacer;
mod stamping;
mod tally;
mod told;
mod verifying;
mod visitor;
mod walk;
mod ways;
mod words;

pub use answers::{DayAnswer, DayRefusal, DayRestored};
pub use day::{replace_path, restore_path};
pub use locks::FolderLocks;
pub use walk::{Replaced, replace};
