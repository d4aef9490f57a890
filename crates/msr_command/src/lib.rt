//! The program's tasks: what is done with the files that a task names, and what is told at the end.
#![tactic(auto)]

mod clock;
mod comparing;
mod done;
mod files;
mod hints;
mod known;
mod locks;
mod named;
mod preparing;
mod program;
mod replacing;
mod screen;
mod task_fault;
mod tasks;
mod trying;
mod turns;

pub use named::{NamedFiles, SystemFiles};
pub use program::run;
