//! Names of files, what is done with them, and what a crash may leave.
#![tactic(auto)]

mod facts;
mod kind;
pub(crate) mod memory;
mod order;
mod paths;
mod tree;

pub use facts::{Facts, Kind, Rights, Time};
pub use kind::FileKind;
pub use memory::{Choices, Ending, Failure, MemoryReader, MemoryTree, MemoryWriter};
pub use order::in_order;
pub use paths::{folder_above, is_within};
pub use tree::{Tree, TreeFault};
