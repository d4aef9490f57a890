//! The system's files as a tree of names.
#![tactic(auto)]

mod anew;
mod bytes;
mod copying;
mod facts;
mod listing;
mod made;
mod making;
mod naming;
mod opening;
mod reader;
mod system;
mod watch;
mod writer;

pub use reader::SystemReader;
pub use system::SystemTree;
pub use writer::SystemWriter;
