//! What is counted of an input.

/// How many records an input has, in all and of two sorts.
#[derive(Clone, Copy, Debug, PartialEq, Eq)]
pub struct Counts {
    /// All records, those without samples included.
    pub read: u64,
    /// Records without samples.
    pub empty: u64,
    /// Records whose reverse constant is not their last sample.
    pub mismatched: u64,
}
