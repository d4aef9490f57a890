//! The files and folders of an archive: what is in a folder, what stands under a name, where a folder stands, and the
//! paths of them; and whether segments belong to a day.
#![tactic(auto)]

mod ages;
mod belonging;
mod entries;
mod faults;
mod files;
mod found;
mod lock;
mod members;
mod names;
mod opened;
mod paths;
mod places;
mod stored;
mod times;
mod totals;

pub use ages::{days_before, is_later};
pub use belonging::misplaced;
pub use entries::{EntryVisitor, EntryWalk, visit_entries};
pub use faults::{ToldFault, fault_json};
pub use files::{FileId, is_gone, settle};
pub use found::WalkFound;
pub use lock::{Lock, LockFile};
pub use members::{reason_json, skip_text};
pub use names::{found_json, found_words, names_for};
pub use paths::{JsonText, Shown, ended, folder_of, join, shown_path, told_folder};
pub use places::{Place, folders_overlap, place_of};
pub use stored::make_stored;
pub use totals::{Total, Totals};
