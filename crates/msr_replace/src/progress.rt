//! How far a walk has come.
use crate::tally::Tally;

/// What was told so far, and the path of the day or the folder in which the tree failed.
#[derive(Drop)]
pub(crate) struct Progress {
    pub(crate) tally: Tally,
    pub(crate) failed: Option<String>,
}
