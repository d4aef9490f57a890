//! In which order the files of a day get their names, so that a kill or a loss of power leaves none of them beside
//! another's; and the stamp of a day: what its file was, kept beside its report, so that a later walk can leave the day
//! alone.
#![tactic(auto)]

mod batch;
mod fallback;
mod files;
mod naming;
mod stamp;
mod writing;

pub use batch::{Waiting, name_stamps};
pub use fallback::{Naming, clear_files, name_files};
pub use files::{DayFiles, Name, NewName};
pub use naming::{Act, Stopped, records_without_a_report};
pub use stamp::{Stamp, StampOf, gives_text};
pub use writing::write_stamp;
