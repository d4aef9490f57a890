//! Which call of a tree in memory fails.

/// What a call has done that fails.
#[derive(Clone, Copy, PartialEq, Eq)]
pub enum Ending {
    Nothing,
    /// A part, if it has some: a copy is cut, and a file that was to get a new name keeps its own too.
    Part,
    All,
}

/// The one call that fails, counted from 0.
#[derive(Clone, Copy, PartialEq, Eq)]
pub struct Failure {
    pub call: u64,
    pub ending: Ending,
}
