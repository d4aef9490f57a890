//! What the program can be asked to do, and what a person is told beside what is done.
#![tactic(auto)]

mod days;
mod errors;
mod files;
mod hint;
mod known;
mod names;
mod options;
mod task;
mod telling;

pub use days::DayOptions;
pub use errors::{Errors, complain, write_complaint};
pub use files::{hint_of_file, hint_of_folder, hint_of_report};
pub use hint::{Hint, Side, Unopened, write_hint};
pub use known::{Known, KnownLines};
pub use names::{DayName, Names};
pub use options::Options;
pub use task::{
    Archiving, Checking, Comparing, Ending, Feeding, Folders, ListForm, Listing, NoTask, Repacking,
    Replacing, Task, Trying, Verb, Verifying, overlap,
};
pub use telling::Telling;
