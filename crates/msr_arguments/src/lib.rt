//! The words of a command line: which task they ask for, and what is told in place of one.
#![tactic(auto)]

mod commands;
mod dry_run;
mod texts;
mod words;

pub use texts::NOT_UTF8;
pub use words::read_words;
