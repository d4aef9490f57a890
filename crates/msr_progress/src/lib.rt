//! How far a walk is, on a line that a person sees.
#![tactic(auto)]

mod progress;
mod text;

pub use progress::Progress;
