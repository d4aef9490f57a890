//! A tree in memory: it keeps its steps, fails at a chosen call, and crashes.

mod choices;
mod crash;
pub(crate) mod deed;
pub(crate) mod deeds;
mod failure;
mod listing;
mod reader;
mod tree;
mod writer;

pub use choices::Choices;
pub use failure::{Ending, Failure};
pub use reader::MemoryReader;
pub use tree::MemoryTree;
pub use writer::MemoryWriter;
