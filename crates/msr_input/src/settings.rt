//! How an input is read.

/// The tolerance by which rows are joined, and whether reverse constants must agree.
#[derive(Clone, Copy, Debug, PartialEq, Eq)]
pub struct Settings {
    /// In microseconds, 1 to 1,000,000.
    pub tolerance: u32,
    /// Whether a record is refused whose last sample is not its reverse constant.
    pub strict: bool,
}
